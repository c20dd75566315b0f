//! Why the command may end before all is reported.

ghost use Rattle.std.specs.Prelude.{◌≡◌};
ghost use Rattle.tmpl_check.specs.declared.stop.Stop.TheVariants as stop;

use std::alloc::{AllocError, AllocFailed};

/// Why the command ends before all is reported.
#[derive(Clone, Copy)]
pub(crate) enum Stop {
    OutOfMemory,
    WriteFailed,
    Words,
}

impl From<AllocError> for Stop {
    ghost from_gives = { λ _ e. e ≡ stop.OutOfMemory };

    fn from(_: AllocError) -> Stop {
        Stop::OutOfMemory
    }
}

impl<T: Drop> From<AllocFailed<T>> for Stop {
    ghost from_gives = { λ _ e. e ≡ stop.OutOfMemory };

    fn from(_: AllocFailed<T>) -> Stop {
        Stop::OutOfMemory
    }
}
