//! What the trim markers beside a text take of it, and its lines.
ghost use Rattle.std.specs.Prelude.{◌≡◌, ◌+◌, ◌≤◌, length, take};
ghost use Rattle.tmpl_lex.specs.Text as spec;
ghost use Rattle.tmpl_lex.specs.computed.Text as computed;

use crate::bytes::{is_space, white_len};

/// The white space that a right trim marker before the text takes, if there is one, and the rest.
pub(crate) fn split_leading(text: &[u8], trims: bool) -> (&[u8], &[u8])
    ensures taken { result.0.now ≡ take (computed.leading trims text.now) text.now }
    ensures kept { result.1.now ≡ computed.without_leading trims text.now }
    ensures len { length result.0.now + length result.1.now ≡ length text.now }
{
    let taken = if trims { white_len(text) } else { 0 };
    text.split_at(taken)
}

/// The text without the white space that a left trim marker after it takes, if there is one.
pub(crate) fn trim_end(text: &[u8], trims: bool) -> &[u8]
    ensures { result.now ≡ computed.without_trailing trims text.now }
{
    let taken = if trims { white_end_len(text) } else { 0 };
    &text[..text.len() - taken]
}

/// How many bytes of white space there are at the end.
fn white_end_len(text: &[u8]) -> usize
    ensures value { result ≡ computed.trailing_len text.now }
    ensures within { result ≤ length text.now }
{
    text.iter().rev().take_while(|b| is_space(**b)).count()
}

/// How many newlines the bytes have.
pub(crate) fn newlines(bytes: &[u8]) -> u64
    ensures value { result ≡ spec.newlines bytes.now }
    ensures within { result ≤ length bytes.now }
{
    bytes.iter().filter(|b| **b == b'\n').count() as u64
}
