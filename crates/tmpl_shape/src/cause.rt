//! Why what is asked of values of a shape may fail.
ghost use Rattle.std.specs.Prelude.{◌≡◌};
ghost use Rattle.tmpl_shape.specs.declared.cause.Trouble.TheVariants as trouble;

use crate::constant::Constant;
use crate::shape::Shape;
use std::alloc::{AllocError, AllocFailed, Global};
use tmpl_funcs::Func;
use tmpl_values::Bytes;

/// What may come at a place where it is a fault, or what is not followed there.
#[derive(Drop)]
pub enum Cause {
    /// A field of this name may be absent, as far as the schema says.
    Absent(Bytes),
    /// A field of this name is asked for, and the value may be of this kind, which has no fields.
    NoFields(Bytes, &'static str),
    /// The function may get arguments that it refuses.
    Arguments(Func),
    /// A list may have fewer items than the function needs, which is this many.
    FewItems(Func, u64),
    /// Calls of the function are not followed.
    NotFollowed(Func),
    /// The value that is ranged over may be of this kind.
    Range(&'static str),
    /// There is no template of this name.
    NoTemplate(Bytes),
    /// What variables hold after the parts of an action, or after the turns of a range, is not followed.
    Variables,
    /// The form of a command is a fault, or what it gives is not followed.
    Command,
    /// What there is to look at takes more steps, or more of the stack, than a check has.
    TooComplex,
}

/// Why no shape is given.
#[derive(Drop)]
pub enum Trouble {
    /// Out of memory.
    OutOfMemory,
    /// A fault may come, for this cause. It lies on the heap, so that what is handed back from each step takes little of
    /// the stack.
    MayFail(Box<Cause>),
}

impl Trouble {
    /// That a fault may come, for this cause.
    pub fn may_fail(alloc: Global, cause: Cause) -> Trouble {
        match Box::new(alloc, cause) {
            Ok(cause) => Trouble::MayFail(cause),
            Err(_) => Trouble::OutOfMemory,
        }
    }
}

impl From<AllocError> for Trouble {
    ghost from_gives = { λ _ e. e ≡ trouble.OutOfMemory };

    fn from(_: AllocError) -> Trouble {
        Trouble::OutOfMemory
    }
}

impl<T: Drop> From<AllocFailed<T>> for Trouble {
    ghost from_gives = { λ _ e. e ≡ trouble.OutOfMemory };

    fn from(_: AllocFailed<T>) -> Trouble {
        Trouble::OutOfMemory
    }
}

/// The kind of the values of a shape.
pub(crate) fn kind_word(shape: &Shape) -> &'static str {
    match shape {
        Shape::Never => "no value",
        Shape::Nothings => "nothing",
        Shape::Nulls => "null",
        Shape::Truths | Shape::Exactly(Constant::Bool(_)) => "a boolean",
        Shape::Numbers | Shape::Exactly(Constant::Number(_)) => "a number",
        Shape::Texts | Shape::Exactly(Constant::Text(_)) => "a text",
        Shape::Anything => "any value",
        Shape::List { .. } => "a list",
        Shape::Record(_) => "a map",
        Shape::Either(..) | Shape::Named(_) => "more than is followed",
    }
}
