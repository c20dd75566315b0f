//! `not` and `len`.
ghost use Rattle.std.specs.Prelude.{ok_or, option_map, pos};
ghost use Rattle.tmpl_values.specs.Value.{number};
ghost use Rattle.tmpl_funcs.specs.declared.fault.CallFault.TheVariants.{WrongKind};
ghost use Rattle.tmpl_values.specs.View.{val_of};
ghost use Rattle.tmpl_values.specs.Item.{size_of};
ghost use Rattle.tmpl_funcs.specs.View.{values_of};
ghost use Rattle.tmpl_funcs.specs.Answer.{IsBorrowed};
ghost use Rattle.tmpl_funcs.specs.computed.Answer.{IsAnswer};
ghost use Rattle.tmpl_funcs.specs.Dispatch.{table_answer};
ghost use Rattle.tmpl_funcs.specs.declared.func.Func.{Func};

use crate::fault::CallFault;
use tmpl_values::{Cell, Val};

/// Whether the one argument is empty.
pub(crate) fn not<'a>(arguments: &[Cell<'a>]) -> Result<Val<'a>, CallFault>
    ensures table { IsAnswer (table_answer Func.Not (values_of arguments.now)) result }
    ensures borrowed { IsBorrowed result }
{
    match arguments {
        [only] => Ok(Val::Bool(!only.val.truth())),
        _ => Err(CallFault::WrongCount),
    }
}

/// How many bytes or items the one argument has.
pub(crate) fn len<'a>(arguments: &[Cell<'a>]) -> Result<Val<'a>, CallFault>
    ensures table { IsAnswer (table_answer Func.Len (values_of arguments.now)) result }
    ensures borrowed { IsBorrowed result }
{
    match arguments {
        [only] => size(&only.val),
        _ => Err(CallFault::WrongCount),
    }
}

/// The size of a value as a number.
fn size<'a>(value: &Val<'_>) -> Result<Val<'a>, CallFault>
    ensures table { IsAnswer (ok_or (option_map (λ n. number (pos n)) (size_of (val_of value.now))) WrongKind) result }
    ensures borrowed { IsBorrowed result }
{
    match value.size() {
        Some(size) => Ok(Val::Num(size as i64)),
        None => Err(CallFault::WrongKind),
    }
}
