//! Why a render ends before its template does.
use crate::fault::RunError;
use tmpl_meaning::RunFault;

/// Why a render ends before its template does.
#[derive(Clone, Copy, Debug)]
pub enum RenderError<'a> {
    /// There is no template of the name. Nothing was put out.
    NoTemplate,
    /// A fault of the template. The text before it was put out.
    Fault(RunFault<'a>),
    /// A put failed. It was the last one, and a beginning of the text was taken.
    WriteFailed,
    /// Memory was refused. A beginning of the text was taken, and nothing where the template makes no text.
    OutOfMemory,
}

impl<'a> From<RunError<'a>> for RenderError<'a> {
    ghost use Rattle.std.specs.Prelude.{◌≡◌};
    ghost use Rattle.tmpl_engine.specs.Error.{error_of};

    ghost from_gives = { λ run e. e ≡ error_of run };

    fn from(error: RunError<'a>) -> RenderError<'a> {
        match error {
            RunError::Fault(fault) => RenderError::Fault(fault),
            RunError::WriteFailed => RenderError::WriteFailed,
            RunError::OutOfMemory => RenderError::OutOfMemory,
        }
    }
}
