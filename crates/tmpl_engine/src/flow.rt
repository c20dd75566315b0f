//! Whether a run goes on.

/// Whether a run goes on.
#[derive(Clone, Copy)]
pub(crate) enum Flow {
    On,
    /// It is at its end.
    Over,
}
