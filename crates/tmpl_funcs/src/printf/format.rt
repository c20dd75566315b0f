//! `printf`.
ghost use Rattle.std.specs.Prelude.{◌≡◌, ◌∷◌, ◌<◌, true, length, ok_or, option_map, slice_index};
ghost use Rattle.tmpl_funcs.specs.View.{values_of};
ghost use Rattle.tmpl_funcs.specs.computed.Answer.{IsMade};
ghost use Rattle.tmpl_funcs.specs.printf.Form.{is_plain};
ghost use Rattle.tmpl_funcs.specs.Dispatch.{IsCall};
ghost use Rattle.tmpl_funcs.specs.declared.func.Func.{Func};
ghost use Rattle.tmpl_funcs.specs.printf.Format.{formatted};
ghost use Rattle.tmpl_funcs.specs.declared.fault.CallFault.TheVariants.{FormatRefused};
ghost use Rattle.tmpl_values.specs.Value.{string};
ghost use Rattle.tmpl_funcs.specs.computed.Format.{IsAdded, IsSegmentAdded};

use super::class::Class;
use super::directive::add_printed;
use super::reading::read_form;
use crate::capacity::{format_capacity, reserve};
use crate::fault::{CallError, CallFault};
use std::alloc::Global;
use tmpl_values::{Cell, Val};

/// The first argument as a format of the others.
pub(crate) fn printf<'a>(alloc: Global, arguments: &[Cell<'_>]) -> Result<Val<'a>, CallError>
    ensures { IsCall Func.Printf (values_of arguments.now) result }
{
    match arguments {
        [] => Err(CallError::Fault(CallFault::WrongCount)),
        [format, operands @ ..] => match format.val.bytes() {
            Some(format) => print_formatted(alloc, format, operands),
            None => Err(CallError::Fault(CallFault::WrongKind)),
        },
    }
}

/// The text of a format and operands.
fn print_formatted<'a>(
    alloc: Global,
    format: &[u8],
    operands: &[Cell<'_>],
) -> Result<Val<'a>, CallError>
    ensures { IsMade
        (ok_or (option_map string (formatted format.now (values_of operands.now))) FormatRefused) result }
{
    let mut bytes = reserve(alloc, format_capacity(format, operands));
    add_formatted(format, operands, &mut bytes)?;
    Ok(Val::buffer(bytes))
}

/// Adds the texts of the segments of a format, which it reads from left to right.
fn add_formatted(format: &[u8], operands: &[Cell<'_>], bytes: &mut Vec<u8>) -> Result<(), CallError>
    ensures { IsAdded (formatted format.now (values_of operands.now))
        bytes.old.items bytes.new.items result }
{
    let mut rest = format;
    let mut used = 0;
    while rest.len() > 0 {
        let (after, taken) = add_segment(rest, &operands[used..], bytes)?;
        rest = after;
        used += taken;
    }
    if used == operands.len() {
        Ok(())
    } else {
        Err(CallError::Fault(CallFault::FormatRefused))
    }
}

/// Adds the text of the segment at the front, and gives what stands after it and how many operands
/// it took.
fn add_segment<'f>(
    format: &'f [u8],
    operands: &[Cell<'_>],
    bytes: &mut Vec<u8>,
) -> Result<(&'f [u8], usize), CallError>
    requires { 0 < length format.now }
    ensures { IsSegmentAdded format.now (values_of operands.now)
        bytes.old.items bytes.new.items result }
{
    let run = Class::Plain.front_len(format);
    if run > 0 {
        bytes.extend_from_slice(&format[..run])?;
        return Ok((&format[run..], 0));
    }
    match &format[1..] {
        [] => Err(CallError::Fault(CallFault::FormatRefused)),
        [b'%', after @ ..] => {
            bytes.push(b'%')?;
            Ok((after, 0))
        }
        spelled => add_form(spelled, operands, bytes),
    }
}

/// Adds the text of the form that stands after a `%`.
fn add_form<'f>(
    spelled: &'f [u8],
    operands: &[Cell<'_>],
    bytes: &mut Vec<u8>,
) -> Result<(&'f [u8], usize), CallError>
    requires some { 0 < length spelled.now }
    requires other { is_plain (slice_index spelled.now 0) ≡ true }
    ensures { IsSegmentAdded (37 ∷ spelled.now) (values_of operands.now)
        bytes.old.items bytes.new.items result }
{
    let Some((form, after)) = read_form(spelled) else {
        return Err(CallError::Fault(CallFault::FormatRefused));
    };
    match operands {
        [] => Err(CallError::Fault(CallFault::FormatRefused)),
        [operand, ..] => {
            add_printed(form, &operand.val, bytes)?;
            Ok((after, 1))
        }
    }
}
