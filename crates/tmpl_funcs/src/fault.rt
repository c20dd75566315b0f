//! Why a call has no value.
ghost use Rattle.std.specs.Prelude.{◌≡◌};
ghost use Rattle.tmpl_funcs.specs.declared.fault.CallFault.TheVariants as fault;
ghost use Rattle.tmpl_funcs.specs.declared.fault.CallError.TheVariants as error;

use std::alloc::{AllocError, AllocFailed};
use tmpl_values::CompareFault;

/// Why a function refuses its arguments. Where several reasons apply, it is the one that is met first: the number of
/// arguments, then the arguments in the order in which the function looks at them.
#[derive(Clone, Copy, Debug, PartialEq, Eq)]
pub enum CallFault {
    /// The function does not take this number of arguments.
    WrongCount,
    /// It does not take an argument of that kind.
    WrongKind,
    /// An index or a bound lies outside.
    OutOfRange,
    /// Two values can't be compared.
    NotComparable,
    /// The format of `printf` has a form that is none, or its forms do not fit the arguments.
    FormatRefused,
}

/// Why a call has no value. Want of memory may be met before any fault but `WrongCount`, by a function that makes a
/// text.
#[derive(Clone, Copy, Debug, PartialEq, Eq)]
pub enum CallError {
    /// The function refuses its arguments.
    Fault(CallFault),
    /// Memory was refused.
    OutOfMemory,
}

impl From<CompareFault> for CallFault {
    ghost from_gives = { λ _ e. e ≡ fault.NotComparable };

    fn from(_: CompareFault) -> CallFault {
        CallFault::NotComparable
    }
}

impl From<CallFault> for CallError {
    ghost from_gives = { λ f e. e ≡ error.Fault f };

    fn from(fault: CallFault) -> CallError {
        CallError::Fault(fault)
    }
}

impl From<AllocError> for CallError {
    ghost from_gives = { λ _ e. e ≡ error.OutOfMemory };

    fn from(_: AllocError) -> CallError {
        CallError::OutOfMemory
    }
}

impl<T: Drop> From<AllocFailed<T>> for CallError {
    ghost from_gives = { λ _ e. e ≡ error.OutOfMemory };

    fn from(_: AllocFailed<T>) -> CallError {
        CallError::OutOfMemory
    }
}
