//! `html` and `urlquery`.
ghost use Rattle.std.specs.Prelude.{◌≡◌, ◌++◌, ◌∷◌, IfSome, Ok, OnOk, [], map, option_map, true};
ghost use Rattle.std.specs.List.{flat_map};
ghost use Rattle.tmpl_values.specs.Value.{string};
ghost use Rattle.tmpl_funcs.specs.View.{values_of};
ghost use Rattle.tmpl_funcs.specs.Dispatch.{table_answer};
ghost use Rattle.tmpl_funcs.specs.declared.func.Func.{Func};
ghost use Rattle.tmpl_funcs.specs.computed.Answer.{IsMade};
ghost use Rattle.tmpl_funcs.specs.Escape.{html_byte, is_unreserved, query_byte};
ghost use Rattle.tmpl_funcs.specs.Join.{as_text, join_operands};
ghost use Rattle.tmpl_funcs.specs.computed.Escape.{escaped_byte, escaped_of, or_itself};

use crate::capacity::{joined_capacity, reserve};
use crate::fault::CallError;
use crate::join::{NothingText, add_joined};
use percent_encoding::percent_encode_byte;
use std::alloc::{AllocError, Global};
use tmpl_values::{Cell, Val};

/// How bytes are escaped.
#[derive(Clone, Copy)]
pub(crate) enum Escape {
    Html,
    Query,
}

/// The operands joined and escaped for HTML.
pub(crate) fn html<'a>(alloc: Global, operands: &[Cell<'_>]) -> Result<Val<'a>, CallError>
    ensures { IsMade (table_answer Func.Html (values_of operands.now)) result }
{
    escape_operands(alloc, operands, Escape::Html)
}

/// The operands joined and escaped for the query of a URL.
pub(crate) fn urlquery<'a>(alloc: Global, operands: &[Cell<'_>]) -> Result<Val<'a>, CallError>
    ensures { IsMade (table_answer Func.Urlquery (values_of operands.now)) result }
{
    escape_operands(alloc, operands, Escape::Query)
}

/// The operands joined and escaped. Where they are not one text alone they are joined first, and after that, in the
/// same memory, comes their escape, which alone is the answer.
fn escape_operands<'a>(
    alloc: Global,
    operands: &[Cell<'_>],
    escape: Escape,
) -> Result<Val<'a>, CallError>
    ensures { IsMade (escaped_of escape (values_of operands.now)) result }
{
    if let Some(text) = sole_text(operands) {
        return escape_text(alloc, text, escape);
    }
    let capacity = joined_capacity(operands, None).saturating_add(joined_capacity(
        operands,
        Some(escape),
    ));
    let mut bytes = reserve(alloc, capacity);
    add_joined(operands, NothingText::NoValue, &mut bytes)?;
    let plain = bytes.len();
    add_escape_of_all(escape, &mut bytes)?;
    let end = bytes.len();
    Ok(Val::buffer(bytes).part(plain as u64, end as u64))
}

/// The escape of a text.
fn escape_text<'a>(alloc: Global, text: &[u8], escape: Escape) -> Result<Val<'a>, CallError>
    ensures { IsMade (Ok (string (flat_map (escaped_byte escape) text.now))) result }
{
    let mut bytes = reserve(alloc, escape.escaped_len(text));
    add_escaped(text, escape, &mut bytes)?;
    Ok(Val::buffer(bytes))
}

/// The text that is the only operand, which needs no joining.
fn sole_text<'o>(operands: &'o [Cell<'_>]) -> Option<&'o [u8]>
    ensures { IfSome result (λ t. join_operands (map as_text (values_of operands.now)) ≡ t.now) }
{
    match operands {
        [only] => only.val.bytes(),
        _ => None,
    }
}

/// Adds the escape of a text, runs of plain bytes at once.
fn add_escaped(text: &[u8], escape: Escape, bytes: &mut Vec<u8>) -> Result<(), AllocError>
    ensures { OnOk result (bytes.new.items
        ≡ bytes.old.items ++ flat_map (escaped_byte escape) text.now) }
{
    let mut start = 0;
    for i in 0..text.len() {
        if let Some(escaped) = escape.of(text[i]) {
            bytes.extend_from_slice(&text[start..i])?;
            bytes.extend_from_slice(escaped)?;
            start = i + 1;
        }
    }
    bytes.extend_from_slice(&text[start..])
}

/// Adds the escape of the bytes that are there.
fn add_escape_of_all(escape: Escape, bytes: &mut Vec<u8>) -> Result<(), AllocError>
    ensures { OnOk result (bytes.new.items
        ≡ bytes.old.items ++ flat_map (escaped_byte escape) bytes.old.items) }
{
    for i in 0..bytes.len() {
        let byte = bytes[i];
        match escape.of(byte) {
            Some(escaped) => bytes.extend_from_slice(escaped)?,
            None => bytes.push(byte)?,
        }
    }
    Ok(())
}

impl Escape {
    /// As many bytes as the escape of a text has, by which memory is reserved, or a few more.
    pub(crate) fn escaped_len(self, text: &[u8]) -> usize {
        let growth = match self {
            Escape::Html => 4,
            Escape::Query => 2,
        };
        let replaced = self.replaced_count(text);
        text.len().saturating_add(replaced.saturating_mul(growth))
    }

    /// How many bytes of a text are replaced.
    fn replaced_count(self, text: &[u8]) -> usize {
        let mut count = 0;
        for byte in text {
            if !self.keeps(*byte) {
                count += 1;
            }
        }
        count
    }

    /// Whether a byte stands for itself.
    fn keeps(self, byte: u8) -> bool {
        match self {
            Escape::Html => is_plain(byte),
            Escape::Query => is_unreserved(byte),
        }
    }

    /// What replaces a byte, if anything does.
    fn of(self, byte: u8) -> Option<&'static [u8]>
        ensures { or_itself byte (option_map (λ t. t.now) result) ≡ escaped_byte self byte }
    {
        match self {
            Escape::Html if is_plain(byte) => None,
            Escape::Html => html_escape(byte),
            Escape::Query => query_escape(byte),
        }
    }
}

/// Whether a byte stands for itself in HTML. An arm for each byte makes it one test of a bit.
fn is_plain(byte: u8) -> bool
    ensures { result ≡ true → html_byte byte ≡ byte ∷ [] }
{
    match byte {
        0 => false,
        b'"' => false,
        b'&' => false,
        b'\'' => false,
        b'<' => false,
        b'>' => false,
        _ => true,
    }
}

/// What replaces a byte in HTML, if anything does. It is no part of the loop over a text, which goes on faster so.
#[inline(never)]
fn html_escape(byte: u8) -> Option<&'static [u8]>
    ensures { or_itself byte (option_map (λ t. t.now) result) ≡ html_byte byte }
{
    match byte {
        b'"' => Some(b"&#34;"),
        b'\'' => Some(b"&#39;"),
        b'&' => Some(b"&amp;"),
        b'<' => Some(b"&lt;"),
        b'>' => Some(b"&gt;"),
        0 => Some("\u{fffd}".as_bytes()),
        _ => None,
    }
}

/// Whether a byte stands for itself in a query.
fn is_unreserved(byte: u8) -> bool
    ensures { result ≡ is_unreserved byte }
{
    byte.is_ascii_alphanumeric() || matches!(byte, b'-' | b'_' | b'.' | b'~')
}

/// What replaces a byte in a query, if anything does.
fn query_escape(byte: u8) -> Option<&'static [u8]>
    ensures { or_itself byte (option_map (λ t. t.now) result) ≡ query_byte byte }
{
    if is_unreserved(byte) {
        None
    } else if byte == b' ' {
        Some(b"+")
    } else {
        Some(percent_encode_byte(byte).as_bytes())
    }
}
