//! How a template is to be run.
ghost use Rattle.std.specs.Prelude.{◌≡◌, ◌≤◌};
ghost use Rattle.tmpl_meaning.specs.View.{rules_of};
ghost use Rattle.tmpl_c.specs.Passed.{limit, mode_numbered, rules_in};

use tmpl_engine::{MissingKey, Options};
use tmpl_tool::{DEFAULT_DEPTH, DEFAULT_STEPS, MOST_DEPTH, MOST_STEPS};

/// How a template is to be run. All zeros ask for the defaults.
#[repr(C)]
#[derive(Clone, Copy)]
pub struct Settings<'a> {
    /// How many bytes the caller has of it, which is looked at before: here all of it is there.
    pub size: usize,
    /// How many steps a run may take; 0 for 1,000,000,000.
    pub steps: u64,
    /// How deep calls may go; 0 for 1,000, and 100,000 for more than that.
    pub depth: u32,
    /// 0 default, 1 invalid, 2 zero, 3 error; any other number is the default.
    pub missing_key: u8,
    /// 1 to print the set, and run nothing.
    pub print: u8,
    /// How many bytes of text are written at most; 0 for as many as there are.
    pub output: usize,
    /// The name of the format of which the text has to be; empty for any text.
    pub writes: &'a [u8],
}

/// The mode for missing keys that has this number.
fn mode_numbered(number: u8) -> MissingKey
    ensures { result ≡ mode_numbered number }
{
    match number {
        1 => MissingKey::Invalid,
        2 => MissingKey::Zero,
        3 => MissingKey::Error,
        _ => MissingKey::Default,
    }
}

/// The number, or the default for 0, or the most.
fn limit(default: u64, most: u64, number: u64) -> u64
    requires { (1 ≤ default) × (default ≤ most) }
    ensures value { result ≡ limit default most number }
    ensures least { 1 ≤ result }
    ensures most { result ≤ most }
{
    if number == 0 {
        default
    } else {
        number.min(most)
    }
}

/// The options of a run.
pub(crate) fn options_in(settings: &Settings<'_>) -> Options
    ensures { rules_of result ≡ rules_in settings.now }
{
    Options {
        missing_key: mode_numbered(settings.missing_key),
        depth: limit(DEFAULT_DEPTH, MOST_DEPTH, settings.depth as u64) as u32,
        steps: limit(DEFAULT_STEPS, MOST_STEPS, settings.steps),
    }
}
