//! `slice`.
ghost use Rattle.std.specs.Prelude.{◌≡◌, ◌∷◌, false, option_map, pos};
ghost use Rattle.tmpl_values.specs.View.{is_made, val_of};
ghost use Rattle.tmpl_funcs.specs.View.{values_of};
ghost use Rattle.tmpl_funcs.specs.Answer.{IsBorrowed};
ghost use Rattle.tmpl_funcs.specs.computed.Answer.{IsAnswer};
ghost use Rattle.tmpl_funcs.specs.Arguments.{given_for, one_to_three};
ghost use Rattle.tmpl_funcs.specs.Slice.{extent, part, slice_between};

use crate::fault::CallFault;
use crate::index::number;
use tmpl_values::{Cell, Val};

/// A value from the first bound to before the second, which default to its ends. It shares the
/// bytes or items.
pub(crate) fn slice<'a>(value: Val<'a>, bounds: &[Cell<'_>]) -> Result<Val<'a>, CallFault>
    ensures table { IsAnswer (given_for (one_to_three slice_between)
        (val_of value.entry ∷ values_of bounds.now)) result }
    ensures borrowed { is_made value.entry ≡ false → IsBorrowed result }
{
    let size = extent(&value);
    match bounds {
        [] => part(value, size, Some(0), size),
        [from] => part(value, size, number(&from.val), size),
        [from, to] => part(value, size, number(&from.val), number(&to.val)),
        _ => Err(CallFault::WrongCount),
    }
}

/// How many bytes a text or items a list has.
fn extent(value: &Val<'_>) -> Option<i64>
    ensures { result ≡ option_map pos (extent (val_of value.now)) }
{
    match value {
        Val::Map(_) => None,
        _ => Some(value.size()? as i64),
    }
}

/// The part between two bounds, where they are numbers in order and within the size.
fn part<'a>(
    value: Val<'a>,
    size: Option<i64>,
    from: Option<i64>,
    to: Option<i64>,
) -> Result<Val<'a>, CallFault>
    requires { size ≡ option_map pos (extent (val_of value)) }
    ensures table { IsAnswer
        (part (val_of value.entry) (extent (val_of value.entry)) from to) result }
    ensures borrowed { is_made value.entry ≡ false → IsBorrowed result }
{
    let (Some(size), Some(i), Some(j)) = (size, from, to) else {
        return Err(CallFault::WrongKind);
    };
    if 0 <= i && i <= j && j <= size {
        Ok(value.part(i as u64, j as u64))
    } else {
        Err(CallFault::OutOfRange)
    }
}
