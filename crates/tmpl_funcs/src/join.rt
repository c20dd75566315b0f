//! `print` and `println`.
ghost use Rattle.std.specs.Prelude.{◌≡◌, ◌++◌, [], map, OnOk};
ghost use Rattle.std.specs.List.{join_with_byte};
ghost use Rattle.tmpl_values.specs.Text.{inner_text};
ghost use Rattle.tmpl_values.specs.View.{val_of};
ghost use Rattle.tmpl_funcs.specs.View.{values_of};
ghost use Rattle.tmpl_funcs.specs.computed.Answer.{IsMade};
ghost use Rattle.tmpl_funcs.specs.Dispatch.{table_answer};
ghost use Rattle.tmpl_funcs.specs.declared.func.Func.{Func};
ghost use Rattle.tmpl_funcs.specs.Join.{is_string, join_operands};
ghost use Rattle.tmpl_funcs.specs.computed.Join.{operand_shown, space_unless};

use crate::capacity::{joined_capacity, reserve};
use crate::fault::CallError;
use std::alloc::{AllocError, Global};
use tmpl_values::{Cell, Val, add_text};

/// How nothing is written.
#[derive(Clone, Copy)]
pub(crate) enum NothingText {
    /// As `<nil>`, which is no text.
    Nil,
    /// As the text `<no value>`.
    NoValue,
}

/// The operands joined, with a space between two neighbours of which neither is a text.
pub(crate) fn print<'a>(alloc: Global, operands: &[Cell<'_>]) -> Result<Val<'a>, CallError>
    ensures { IsMade (table_answer Func.Print (values_of operands.now)) result }
{
    let mut bytes = reserve(alloc, joined_capacity(operands, None));
    add_joined(operands, NothingText::Nil, &mut bytes)?;
    Ok(Val::buffer(bytes))
}

/// The operands parted by one space, and a newline.
pub(crate) fn println<'a>(alloc: Global, operands: &[Cell<'_>]) -> Result<Val<'a>, CallError>
    ensures { IsMade (table_answer Func.Println (values_of operands.now)) result }
{
    let mut bytes = reserve(alloc, joined_capacity(operands, None));
    add_parted(operands, &mut bytes)?;
    bytes.push(b'\n')?;
    Ok(Val::buffer(bytes))
}

/// Adds the operands, with a space between two neighbours of which neither is a text.
pub(crate) fn add_joined(
    operands: &[Cell<'_>],
    nothing_text: NothingText,
    bytes: &mut Vec<u8>,
) -> Result<(), AllocError>
    ensures { OnOk result (bytes.new.items
        ≡ bytes.old.items ++ join_operands (map (operand_shown nothing_text) (values_of operands.now))) }
{
    let mut after_text = true;
    for operand in operands {
        let text = is_text(&operand.val, nothing_text);
        add_space_unless(after_text | text, bytes)?;
        add_operand(&operand.val, nothing_text, bytes)?;
        after_text = text;
    }
    Ok(())
}

/// Adds the operands, parted by one space.
fn add_parted(operands: &[Cell<'_>], bytes: &mut Vec<u8>) -> Result<(), AllocError>
    ensures { OnOk result (bytes.new.items
        ≡ bytes.old.items ++ join_with_byte 32 (map inner_text (values_of operands.now))) }
{
    let mut first = true;
    for operand in operands {
        add_space_unless(first, bytes)?;
        add_operand(&operand.val, NothingText::Nil, bytes)?;
        first = false;
    }
    Ok(())
}

/// Adds a space, but nothing between what is joined.
fn add_space_unless(joined: bool, bytes: &mut Vec<u8>) -> Result<(), AllocError>
    ensures { OnOk result (bytes.new.items ≡ bytes.old.items ++ space_unless joined) }
{
    if joined {
        Ok(())
    } else {
        bytes.extend_from_slice(b" ")
    }
}

/// Whether a value counts as a text.
fn is_text(value: &Val<'_>, nothing_text: NothingText) -> bool
    ensures { result ≡ is_string (operand_shown nothing_text (val_of value.now)) }
{
    match value {
        Val::Text(_) | Val::Made(_) => true,
        Val::Nothing | Val::Null => matches!(nothing_text, NothingText::NoValue),
        Val::Bool(_) | Val::Num(_) | Val::List(_) | Val::Map(_) => false,
    }
}

/// Adds the text of one operand.
pub(crate) fn add_operand(
    value: &Val<'_>,
    nothing_text: NothingText,
    bytes: &mut Vec<u8>,
) -> Result<(), AllocError>
    ensures { OnOk result (bytes.new.items
        ≡ bytes.old.items ++ inner_text (operand_shown nothing_text (val_of value.now))) }
{
    match value {
        Val::Nothing | Val::Null => match nothing_text {
            NothingText::Nil => bytes.extend_from_slice(b"<nil>"),
            NothingText::NoValue => bytes.extend_from_slice(b"<no value>"),
        },
        value => add_text(value, bytes),
    }
}
