//! Why a run halts before its end.
use std::alloc::AllocError;
use tmpl_meaning::{RunFaultKind, SinkFault};

/// Why a run halts before its end.
#[derive(Clone, Copy)]
pub(crate) enum Halt<'a> {
    Fault(RunFaultKind<'a>),
    /// The sink failed.
    WriteFailed,
    /// Memory was refused.
    OutOfMemory,
}

impl<'a> From<RunFaultKind<'a>> for Halt<'a> {
    ghost use Rattle.std.specs.Prelude.{◌≡◌};
    ghost use Rattle.tmpl_engine.specs.declared.halt.Halt.{Halt};

    ghost from_gives = { λ kind s. s ≡ Halt.Fault kind };

    fn from(kind: RunFaultKind<'a>) -> Halt<'a> {
        Halt::Fault(kind)
    }
}

impl From<SinkFault> for Halt<'_> {
    ghost use Rattle.std.specs.Prelude.{◌≡◌};
    ghost use Rattle.tmpl_engine.specs.declared.halt.Halt.{Halt};

    ghost from_gives = { λ _ s. s ≡ Halt.WriteFailed };

    fn from(_: SinkFault) -> Self {
        Halt::WriteFailed
    }
}

impl From<AllocError> for Halt<'_> {
    ghost use Rattle.std.specs.Prelude.{◌≡◌};
    ghost use Rattle.tmpl_engine.specs.declared.halt.Halt.{Halt};

    ghost from_gives = { λ _ s. s ≡ Halt.OutOfMemory };

    fn from(_: AllocError) -> Self {
        Halt::OutOfMemory
    }
}
