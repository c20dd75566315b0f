//! Texts and numbers padded to a width.
ghost use Rattle.std.specs.Prelude.{◌≡◌, ◌≤◌, ◌-◌, ◌++◌, OnOk, drop, length, replicate, take};
ghost use Rattle.tmpl_values.specs.Runes.{runes};
ghost use Rattle.tmpl_funcs.specs.printf.Pad.{laid_out, pad};
ghost use Rattle.tmpl_funcs.specs.computed.View.{form_seen};

use super::form::Form;
use super::rune::rune_count;
use std::alloc::AllocError;

/// Adds a text with the spaces that it lacks to the width, counted in runes.
pub(crate) fn add_padded(form: Form, text: &[u8], bytes: &mut Vec<u8>) -> Result<(), AllocError>
    ensures { OnOk result (bytes.new.items ≡ bytes.old.items ++ pad (form_seen form) text.now) }
{
    let padding = padding_len(form.width, text);
    if form.minus {
        bytes.extend_from_slice(text)?;
        add_repeated(b' ', padding, bytes)
    } else {
        add_repeated(b' ', padding, bytes)?;
        bytes.extend_from_slice(text)
    }
}

/// Pads what stands from a place on with the spaces that it lacks to the width, counted in runes.
pub(crate) fn pad_from(form: Form, start: usize, bytes: &mut Vec<u8>) -> Result<(), AllocError>
    requires { start ≤ length bytes.old.items }
    ensures { OnOk result (bytes.new.items
        ≡ take start bytes.old.items ++ pad (form_seen form) (drop start bytes.old.items)) }
{
    let padding = padding_len(form.width, &bytes[start..]);
    add_repeated(b' ', padding, bytes)?;
    if !form.minus {
        let text = &mut bytes[start..];
        text.rotate_right(padding);
    }
    Ok(())
}

/// How many runes a text lacks to a width.
fn padding_len(width: usize, text: &[u8]) -> usize
    ensures { result ≡ width - length (runes text.now) }
{
    if width == 0 {
        return 0;
    }
    width.saturating_sub(rune_count(text))
}

/// Adds a sign and digits with the spaces or zeros that they lack to the width.
pub(crate) fn add_laid_out(
    form: Form,
    sign: &[u8],
    digits: &[u8],
    bytes: &mut Vec<u8>,
) -> Result<(), AllocError>
    ensures { OnOk result (bytes.new.items
        ≡ bytes.old.items ++ laid_out (form_seen form) sign.now digits.now) }
{
    let padding = form.width.saturating_sub(sign.len() + digits.len());
    if form.minus {
        bytes.extend_from_slice(sign)?;
        bytes.extend_from_slice(digits)?;
        add_repeated(b' ', padding, bytes)
    } else if form.zero {
        bytes.extend_from_slice(sign)?;
        add_repeated(b'0', padding, bytes)?;
        bytes.extend_from_slice(digits)
    } else {
        add_repeated(b' ', padding, bytes)?;
        bytes.extend_from_slice(sign)?;
        bytes.extend_from_slice(digits)
    }
}

/// Adds a byte this many times.
fn add_repeated(byte: u8, count: usize, bytes: &mut Vec<u8>) -> Result<(), AllocError>
    ensures { OnOk result (bytes.new.items ≡ bytes.old.items ++ replicate count byte) }
{
    match bytes.len().checked_add(count) {
        Some(len) => bytes.resize(len, byte),
        None => Err(AllocError),
    }
}
