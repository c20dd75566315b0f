//! Calls.
ghost use Rattle.std.specs.Prelude.{◌≡◌, ◌<◌, ◌∷◌, false, true, drop, length};
ghost use Rattle.tmpl_values.specs.View.{is_made, val_of};
ghost use Rattle.tmpl_funcs.specs.View.{values_of};
ghost use Rattle.tmpl_funcs.specs.Answer.{AreBorrowed, IsBorrowed};
ghost use Rattle.tmpl_funcs.specs.computed.Answer.{IsAnswer};
ghost use Rattle.tmpl_funcs.specs.Func.{is_called, makes_text};
ghost use Rattle.tmpl_funcs.specs.Dispatch.{table_answer, IsCall};
ghost use Rattle.tmpl_funcs.specs.declared.func.Func.{Func};

use crate::compare::{eq, ge, gt, le, lt, ne};
use crate::count::{len, not};
use crate::escape::{html, urlquery};
use crate::fault::{CallError, CallFault};
use crate::func::Func;
use crate::index::index;
use crate::join::{print, println};
use crate::printf::printf;
use crate::slice::slice;
use std::alloc::Global;
use std::mem;
use tmpl_values::{Cell, Val};

/// Calls a function, over the values that the cells have at entry; it may move them out, and
/// nothing is said of the cells afterwards.
///
/// It is the table of functions in the documentation of `text/template` ("Functions"). Texts are
/// indexed, cut and measured by bytes, and `printf` pads them by runes. The number of arguments is
/// looked at first. `slice` looks at the kinds of all its arguments before their ranges; `index`
/// goes through its indexes from left to right, and looks at the kind of each and then at its
/// range; `eq` compares from left to right, up to the first equal pair. `and` and `or`, which look at no argument after
/// the deciding one, are no calls.
///
/// Memory is taken only by those that make a text: `print`, `println`, `printf`, `html` and
/// `urlquery`. No other answers want of it, or gives a made text where none was among the
/// arguments.
pub fn call<'a>(alloc: Global, func: Func, arguments: &mut [Cell<'a>]) -> Result<Val<'a>, CallError>
    requires { is_called func ≡ true }
    ensures table { IsCall func (values_of arguments.old) result }
    ensures borrowed { makes_text func ≡ false → AreBorrowed arguments.old → IsBorrowed result }
{
    match func {
        Func::And | Func::Or => unreachable!(),
        Func::Not => Ok(not(arguments)?),
        Func::Len => Ok(len(arguments)?),
        Func::Index => Ok(index_first(arguments)?),
        Func::Slice => Ok(slice_first(arguments)?),
        Func::Print => print(alloc, arguments),
        Func::Println => println(alloc, arguments),
        Func::Printf => printf(alloc, arguments),
        Func::Html => html(alloc, arguments),
        Func::Urlquery => urlquery(alloc, arguments),
        Func::Eq => Ok(eq(arguments)?),
        Func::Ne => Ok(ne(arguments)?),
        Func::Lt => Ok(lt(arguments)?),
        Func::Le => Ok(le(arguments)?),
        Func::Gt => Ok(gt(arguments)?),
        Func::Ge => Ok(ge(arguments)?),
    }
}

/// The first argument at the others.
fn index_first<'a>(arguments: &mut [Cell<'a>]) -> Result<Val<'a>, CallFault>
    ensures table { IsAnswer (table_answer Func.Index (values_of arguments.old)) result }
    ensures borrowed { AreBorrowed arguments.old → IsBorrowed result }
{
    if arguments.is_empty() {
        return Err(CallFault::WrongCount);
    }
    let item = take_first(arguments);
    index(item, after_first(arguments))
}

/// The first argument between the others.
fn slice_first<'a>(arguments: &mut [Cell<'a>]) -> Result<Val<'a>, CallFault>
    ensures table { IsAnswer (table_answer Func.Slice (values_of arguments.old)) result }
    ensures borrowed { AreBorrowed arguments.old → IsBorrowed result }
{
    if arguments.is_empty() {
        return Err(CallFault::WrongCount);
    }
    let value = take_first(arguments);
    slice(value, after_first(arguments))
}

/// Takes the first value out of the cells.
fn take_first<'a>(arguments: &mut [Cell<'a>]) -> Val<'a>
    requires { 0 < length arguments.old }
    ensures value { values_of arguments.old ≡ val_of result ∷ drop 1 (values_of arguments.new) }
    ensures borrowed { AreBorrowed arguments.old → is_made result ≡ false }
{
    mem::replace(&mut arguments[0].val, Val::Nothing)
}

/// The cells after the first.
fn after_first<'a, 'b>(arguments: &'b [Cell<'a>]) -> &'b [Cell<'a>]
    requires { 0 < length arguments.now }
    ensures { values_of result.now ≡ drop 1 (values_of arguments.now) }
{
    &arguments[1..]
}
