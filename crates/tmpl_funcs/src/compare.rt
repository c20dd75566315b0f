//! The comparisons.
ghost use Rattle.tmpl_values.specs.Compare.{order, IsCompared};
ghost use Rattle.tmpl_values.specs.View.{val_of};
ghost use Rattle.tmpl_funcs.specs.View.{values_of};
ghost use Rattle.tmpl_funcs.specs.Answer.{IsBorrowed};
ghost use Rattle.tmpl_funcs.specs.computed.Answer.{IsAnswer};
ghost use Rattle.tmpl_funcs.specs.Dispatch.{table_answer};
ghost use Rattle.tmpl_funcs.specs.declared.func.Func.{Func};
ghost use Rattle.tmpl_funcs.specs.Compare.{at_most, equal_to_one};

use crate::fault::CallFault;
use tmpl_values::{Cell, CompareFault, Val};

/// Whether the first argument equals one of the others, compared in order up to the first equal
/// one.
pub(crate) fn eq<'a>(arguments: &[Cell<'a>]) -> Result<Val<'a>, CallFault>
    ensures table { IsAnswer (table_answer Func.Eq (values_of arguments.now)) result }
    ensures borrowed { IsBorrowed result }
{
    match arguments {
        [] | [_] => Err(CallFault::WrongCount),
        [first, others @ ..] => Ok(Val::Bool(equals_one(&first.val, others)?)),
    }
}

/// Whether a value equals one of the others.
fn equals_one(first: &Val<'_>, others: &[Cell<'_>]) -> Result<bool, CompareFault>
    ensures { IsCompared (equal_to_one (val_of first.now) (values_of others.now)) result }
{
    for other in others {
        if first.equal(&other.val)? {
            return Ok(true);
        }
    }
    Ok(false)
}

/// Whether the two arguments differ.
pub(crate) fn ne<'a>(arguments: &[Cell<'a>]) -> Result<Val<'a>, CallFault>
    ensures table { IsAnswer (table_answer Func.Ne (values_of arguments.now)) result }
    ensures borrowed { IsBorrowed result }
{
    match arguments {
        [left, right] => Ok(Val::Bool(!left.val.equal(&right.val)?)),
        _ => Err(CallFault::WrongCount),
    }
}

/// Whether the first of two arguments is below the second.
pub(crate) fn lt<'a>(arguments: &[Cell<'a>]) -> Result<Val<'a>, CallFault>
    ensures table { IsAnswer (table_answer Func.Lt (values_of arguments.now)) result }
    ensures borrowed { IsBorrowed result }
{
    match arguments {
        [left, right] => Ok(Val::Bool(left.val.less(&right.val)?)),
        _ => Err(CallFault::WrongCount),
    }
}

/// Whether the first of two arguments is below the second or equal to it.
pub(crate) fn le<'a>(arguments: &[Cell<'a>]) -> Result<Val<'a>, CallFault>
    ensures table { IsAnswer (table_answer Func.Le (values_of arguments.now)) result }
    ensures borrowed { IsBorrowed result }
{
    match arguments {
        [left, right] => Ok(Val::Bool(is_at_most(&left.val, &right.val)?)),
        _ => Err(CallFault::WrongCount),
    }
}

/// Whether the first of two arguments is above the second.
pub(crate) fn gt<'a>(arguments: &[Cell<'a>]) -> Result<Val<'a>, CallFault>
    ensures table { IsAnswer (table_answer Func.Gt (values_of arguments.now)) result }
    ensures borrowed { IsBorrowed result }
{
    match arguments {
        [left, right] => Ok(Val::Bool(!is_at_most(&left.val, &right.val)?)),
        _ => Err(CallFault::WrongCount),
    }
}

/// Whether the first of two arguments is not below the second.
pub(crate) fn ge<'a>(arguments: &[Cell<'a>]) -> Result<Val<'a>, CallFault>
    ensures table { IsAnswer (table_answer Func.Ge (values_of arguments.now)) result }
    ensures borrowed { IsBorrowed result }
{
    match arguments {
        [left, right] => Ok(Val::Bool(!left.val.less(&right.val)?)),
        _ => Err(CallFault::WrongCount),
    }
}

/// Whether the left value is below the right one or equal to it.
fn is_at_most(left: &Val<'_>, right: &Val<'_>) -> Result<bool, CompareFault>
    ensures { IsCompared (at_most (val_of left.now) (val_of right.now)) result }
{
    if left.less(right)? {
        return Ok(true);
    }
    left.equal(right)
}
