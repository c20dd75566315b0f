//! How many bytes to reserve for the text of a call, so that memory is taken once. Were they too few, the text would
//! grow; were they too many, some would stay unused: no answer depends on them.
ghost use Rattle.std.specs.Prelude.{◌≡◌, []};

use crate::escape::Escape;
use crate::printf::{Form, Verb, read_form};
use std::alloc::Global;
use tmpl_values::{Cell, Put, Val, put_text};

/// The most bytes of a truth value.
const TRUTH: usize = 5;

/// The most bytes of a number in base 10, with its sign.
const DECIMAL: usize = 20;

/// The most bytes of a number in base 2, with its sign.
const BINARY: usize = 65;

/// Counts the bytes that are put, as they will be escaped.
#[derive(Drop)]
struct Length {
    escape: Option<Escape>,
    bytes: usize,
}

impl Put for Length {
    ghost use Rattle.std.specs.Prelude.{None};

    type Fault = ();

    ghost so_far = { λ _. record { bytes = None; failures = 0; through = 0 } };

    fn put(&mut self, bytes: &[u8]) -> Result<(), ()> {
        self.bytes = self.bytes.saturating_add(text_capacity(bytes, self.escape));
        Ok(())
    }
}

/// For a text, as it will be escaped.
fn text_capacity(text: &[u8], escape: Option<Escape>) -> usize {
    match escape {
        None => text.len(),
        Some(escape) => escape.escaped_len(text),
    }
}

/// For the text of one operand.
fn operand_capacity(value: &Val<'_>, escape: Option<Escape>) -> usize {
    match value {
        Val::Nothing | Val::Null => text_capacity(b"<no value>", escape),
        Val::Bool(_) => TRUTH,
        Val::Num(_) => DECIMAL,
        Val::Text(_) | Val::Made(_) => match value.bytes() {
            Some(text) => text_capacity(text, escape),
            None => 0,
        },
        Val::List(_) | Val::Map(_) => {
            let mut length = Length { escape, bytes: 0 };
            match put_text(value, &mut length) {
                Ok(()) | Err(()) => length.bytes,
            }
        }
    }
}

/// For operands with one byte after each.
pub(crate) fn joined_capacity(operands: &[Cell<'_>], escape: Option<Escape>) -> usize {
    let mut capacity: usize = 0;
    for operand in operands {
        capacity = capacity
            .saturating_add(operand_capacity(&operand.val, escape))
            .saturating_add(1);
    }
    capacity
}

/// No bytes yet, with memory for this many where it can be had; a text for which it can't still grows by need.
pub(crate) fn reserve(alloc: Global, capacity: usize) -> Vec<u8>
    ensures { result.items ≡ [] }
{
    match Vec::with_capacity(alloc, capacity) {
        Ok(bytes) => bytes,
        Err(_) => Vec::new(alloc),
    }
}

/// For what a format prints of operands: all of its own bytes, and for each form with an operand its width or what it
/// may print of that operand. Forms beyond the operands print nothing, since the format is then refused.
pub(crate) fn format_capacity(format: &[u8], operands: &[Cell<'_>]) -> usize {
    let mut capacity = format.len();
    let mut rest = format;
    for operand in operands {
        match next_form(rest) {
            Some((form, after)) => {
                capacity = capacity.saturating_add(form_capacity(form, &operand.val));
                rest = after;
            }
            None => return capacity,
        }
    }
    capacity
}

/// The first form in a format, and what stands after it.
fn next_form(format: &[u8]) -> Option<(Form, &[u8])> {
    let mut rest = format;
    while rest.len() > 0 {
        match rest {
            [b'%', b'%', after @ ..] => rest = after,
            [b'%', spelled @ ..] => return read_form(spelled),
            [_, after @ ..] => rest = after,
            [] => return None,
        }
    }
    None
}

/// For what a form prints of an operand.
fn form_capacity(form: Form, value: &Val<'_>) -> usize {
    form.width
        .saturating_add(printed_capacity(value, form.verb.spread()))
}

/// For an operand, each byte of which becomes this many at the most if it is a text.
fn printed_capacity(value: &Val<'_>, spread: usize) -> usize {
    match value {
        Val::Num(_) => BINARY,
        Val::Text(_) | Val::Made(_) => operand_capacity(value, None)
            .saturating_mul(spread)
            .saturating_add(2),
        Val::Nothing | Val::Null | Val::Bool(_) | Val::List(_) | Val::Map(_) => {
            operand_capacity(value, None)
        }
    }
}

impl Verb {
    /// How many bytes it prints for a byte of a text at the most; a quote has two more.
    fn spread(self) -> usize {
        match self {
            Verb::Quoted => 4,
            Verb::Hex | Verb::UpperHex => 2,
            Verb::Value
            | Verb::Decimal
            | Verb::Octal
            | Verb::Binary
            | Verb::Text
            | Verb::Char
            | Verb::Truth => 1,
        }
    }
}
