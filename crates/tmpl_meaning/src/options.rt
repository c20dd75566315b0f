//! How a template is to be run.
ghost use Rattle.std.specs.Prelude.{◌≤◌};

use crate::missing_key::MissingKey;

/// How a template is to be run.
#[derive(Clone, Copy, Debug)]
pub struct Options {
    /// The value of a field for which a map has no entry.
    pub missing_key: MissingKey,
    /// How deep calls of templates may go, the starting template counted.
    pub depth: u32,
    /// How many steps a run may take.
    pub steps: u64,
    ghost depth_in_range: { (1 ≤ depth) × (depth ≤ 100000) },
    ghost steps_in_range: { (1 ≤ steps) × (steps ≤ 4611686018427387904) },
}
