//! What the forms of a format print.
ghost use Rattle.std.specs.Prelude.{◌≡◌, ◌≤◌, ◌++◌, OnOk, Some, false, option_map};
ghost use Rattle.std.specs.Char.{encode_utf8};
ghost use Rattle.std.specs.List.{flat_map};
ghost use Rattle.tmpl_values.specs.Quote.{quote};
ghost use Rattle.tmpl_values.specs.Text.{inner_text};
ghost use Rattle.tmpl_values.specs.View.{val_of};
ghost use Rattle.tmpl_funcs.specs.printf.Directive.{char_text, hex_pair, number_form, sign, text_form};
ghost use Rattle.tmpl_funcs.specs.printf.Directive.{print_any, print_hex, print_truth};
ghost use Rattle.tmpl_funcs.specs.computed.Directive.{printed};
ghost use Rattle.tmpl_funcs.specs.computed.View.{form_seen};
ghost use Rattle.tmpl_funcs.specs.printf.Rune.{truncated_to};
ghost use Rattle.tmpl_funcs.specs.computed.Format.{IsAdded};

use super::digits::write_digits;
use super::form::{Form, Verb};
use super::pad::{add_laid_out, add_padded, pad_from};
use super::rune::truncate;
use crate::fault::{CallError, CallFault};
use crate::index::number;
use crate::join::{NothingText, add_operand};
use itoa::Buffer;
use std::alloc::AllocError;
use tmpl_values::{Val, add_quote, digit};

/// Adds what a form prints of a value.
#[tactic(auto, unfolding(crate::specs::computed::Directive::printed))]
pub(crate) fn add_printed(form: Form, value: &Val<'_>, bytes: &mut Vec<u8>) -> Result<(), CallError>
    ensures { IsAdded (printed (form_seen form) (val_of value.now)) bytes.old.items bytes.new.items result }
{
    match form.verb {
        Verb::Value => add_value(form, value, bytes),
        Verb::Decimal => add_decimal(form, number(value), bytes),
        Verb::Octal => add_in_base(8, false, form, number(value), bytes),
        Verb::Binary => add_in_base(2, false, form, number(value), bytes),
        Verb::Hex => add_hex(false, form, value, bytes),
        Verb::UpperHex => add_hex(true, form, value, bytes),
        Verb::Text => add_string(form, value.bytes(), bytes),
        Verb::Quoted => add_quoted(form, value.bytes(), bytes),
        Verb::Char => add_char(form, number(value), bytes),
        Verb::Truth => add_truth(form, value, bytes),
    }
}

/// `%v`: lists and maps stand without flags and width.
fn add_value(form: Form, value: &Val<'_>, bytes: &mut Vec<u8>) -> Result<(), CallError>
    ensures { IsAdded (print_any (form_seen form) (val_of value.now)) bytes.old.items bytes.new.items result }
{
    if let Some(text) = value.bytes() {
        return add_text_form(form, text, bytes);
    }
    match value {
        Val::List(_) | Val::Map(_) => {
            if !form.is_bare() {
                return Err(CallError::Fault(CallFault::FormatRefused));
            }
            add_operand(value, NothingText::Nil, bytes)?;
            Ok(())
        }
        Val::Nothing | Val::Null | Val::Bool(_) | Val::Num(_) | Val::Text(_) | Val::Made(_) => {
            add_scalar(form, value, bytes)
        }
    }
}

/// Nothing, a truth value or a number, in a form with no flag but `-`.
fn add_scalar(form: Form, value: &Val<'_>, bytes: &mut Vec<u8>) -> Result<(), CallError>
    ensures { IsAdded (text_form (form_seen form) (Some (inner_text (val_of value.now))))
        bytes.old.items bytes.new.items result }
{
    if !form.has_minus_alone() {
        return Err(CallError::Fault(CallFault::FormatRefused));
    }
    let start = bytes.len();
    add_operand(value, NothingText::Nil, bytes)?;
    pad_from(form, start, bytes)?;
    Ok(())
}

/// A text, in a form with no flag but `-`.
fn add_text_form(form: Form, text: &[u8], bytes: &mut Vec<u8>) -> Result<(), CallError>
    ensures { IsAdded (text_form (form_seen form) (Some text.now)) bytes.old.items bytes.new.items result }
{
    if !form.has_minus_alone() {
        return Err(CallError::Fault(CallFault::FormatRefused));
    }
    add_padded(form, text, bytes)?;
    Ok(())
}

/// `%s`.
fn add_string(form: Form, text: Option<&[u8]>, bytes: &mut Vec<u8>) -> Result<(), CallError>
    ensures { IsAdded
        (text_form (form_seen form) (option_map (truncated_to form.precision) (option_map (λ t. t.now) text.entry)))
        bytes.old.items bytes.new.items result }
{
    match text {
        Some(text) => add_text_form(form, truncate(form.precision, text), bytes),
        None => Err(CallError::Fault(CallFault::FormatRefused)),
    }
}

/// `%q`.
fn add_quoted(form: Form, text: Option<&[u8]>, bytes: &mut Vec<u8>) -> Result<(), CallError>
    ensures { IsAdded (text_form (form_seen form) (option_map quote (option_map (λ t. t.now) text.entry)))
        bytes.old.items bytes.new.items result }
{
    match text {
        Some(text) if form.has_minus_alone() => {
            let start = bytes.len();
            add_quote(text, bytes)?;
            pad_from(form, start, bytes)?;
            Ok(())
        }
        _ => Err(CallError::Fault(CallFault::FormatRefused)),
    }
}

/// `%c`.
fn add_char(form: Form, code: Option<i64>, bytes: &mut Vec<u8>) -> Result<(), CallError>
    ensures { IsAdded (text_form (form_seen form) (option_map char_text code))
        bytes.old.items bytes.new.items result }
{
    match code {
        Some(code) => {
            let mut buffer = [0; 4];
            add_text_form(
                form,
                char_of(code).encode_utf8(&mut buffer).as_bytes(),
                bytes,
            )
        }
        None => Err(CallError::Fault(CallFault::FormatRefused)),
    }
}

/// The character of a code, or U+FFFD where there is none.
fn char_of(code: i64) -> char
    ensures { encode_utf8 result ≡ char_text code }
{
    match u32::try_from(code) {
        Ok(code) => char::from_u32(code).unwrap_or('\u{fffd}'),
        Err(_) => '\u{fffd}',
    }
}

/// `%t`.
fn add_truth(form: Form, value: &Val<'_>, bytes: &mut Vec<u8>) -> Result<(), CallError>
    ensures { IsAdded (print_truth (form_seen form) (val_of value.now))
        bytes.old.items bytes.new.items result }
{
    match value {
        Val::Bool(true) => add_text_form(form, b"true", bytes),
        Val::Bool(false) => add_text_form(form, b"false", bytes),
        Val::Nothing
        | Val::Null
        | Val::Num(_)
        | Val::Text(_)
        | Val::Made(_)
        | Val::List(_)
        | Val::Map(_) => Err(CallError::Fault(CallFault::FormatRefused)),
    }
}

/// `%d`.
fn add_decimal(form: Form, n: Option<i64>, bytes: &mut Vec<u8>) -> Result<(), CallError>
    ensures { IsAdded (option_map (number_form 10 false (form_seen form)) n)
        bytes.old.items bytes.new.items result }
{
    match n {
        Some(n) => {
            let mut buffer = Buffer::new();
            let digits = buffer.format(n.unsigned_abs()).as_bytes();
            add_laid_out(form, sign(form, n), digits, bytes)?;
            Ok(())
        }
        None => Err(CallError::Fault(CallFault::FormatRefused)),
    }
}

/// A number in a base.
fn add_in_base(
    base: u64,
    upper: bool,
    form: Form,
    n: Option<i64>,
    bytes: &mut Vec<u8>,
) -> Result<(), CallError>
    requires low { 2 ≤ base }
    requires high { base ≤ 16 }
    ensures { IsAdded (option_map (number_form base upper (form_seen form)) n)
        bytes.old.items bytes.new.items result }
{
    match n {
        Some(n) => {
            let mut buffer = [0; 64];
            let start = write_digits(n.unsigned_abs(), base, upper, &mut buffer);
            let written = &buffer[..];
            add_laid_out(form, sign(form, n), &written[start..], bytes)?;
            Ok(())
        }
        None => Err(CallError::Fault(CallFault::FormatRefused)),
    }
}

/// The sign of a number.
fn sign(form: Form, n: i64) -> &'static [u8]
    ensures { result.now ≡ sign (form_seen form) n }
{
    if n < 0 {
        b"-"
    } else if form.plus {
        b"+"
    } else if form.space {
        b" "
    } else {
        b""
    }
}

/// `%x` and `%X`.
fn add_hex(upper: bool, form: Form, value: &Val<'_>, bytes: &mut Vec<u8>) -> Result<(), CallError>
    ensures { IsAdded (print_hex upper (form_seen form) (val_of value.now))
        bytes.old.items bytes.new.items result }
{
    match value.bytes() {
        Some(text) => add_hex_text(upper, form, text, bytes),
        None => add_in_base(16, upper, form, number(value), bytes),
    }
}

/// The bytes of a text, in a form with no flag but `-`.
fn add_hex_text(upper: bool, form: Form, text: &[u8], bytes: &mut Vec<u8>) -> Result<(), CallError>
    ensures { IsAdded (text_form (form_seen form) (Some (flat_map (hex_pair upper) text.now)))
        bytes.old.items bytes.new.items result }
{
    if !form.has_minus_alone() {
        return Err(CallError::Fault(CallFault::FormatRefused));
    }
    let start = bytes.len();
    add_pairs(text, upper, bytes)?;
    pad_from(form, start, bytes)?;
    Ok(())
}

/// Adds each byte in two digits.
fn add_pairs(text: &[u8], upper: bool, bytes: &mut Vec<u8>) -> Result<(), AllocError>
    ensures { OnOk result (bytes.new.items
        ≡ bytes.old.items ++ flat_map (hex_pair upper) text.now) }
{
    for byte in text {
        let byte = u32::from(*byte);
        bytes.extend_from_slice(&[digit(byte / 16, upper), digit(byte % 16, upper)])?;
    }
    Ok(())
}
