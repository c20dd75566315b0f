//! Why a run ends before its template does.
use tmpl_meaning::{RunFault, SinkFault};

/// Why a run ends before its template does.
#[derive(Clone, Copy, Debug)]
pub enum RunError<'a> {
    /// A fault of the template. The text before it was put out.
    Fault(RunFault<'a>),
    /// A put failed. It was the last one, and a beginning of the text was taken.
    WriteFailed,
    /// Memory was refused, by a function that makes a text or for what it made. A beginning of the text was taken.
    OutOfMemory,
}

impl From<SinkFault> for RunError<'_> {
    ghost use Rattle.std.specs.Prelude.{◌≡◌};
    ghost use Rattle.tmpl_engine.specs.declared.fault.RunError.{RunError};

    ghost from_gives = { λ _ e. e ≡ RunError.WriteFailed };

    fn from(_: SinkFault) -> Self {
        RunError::WriteFailed
    }
}
