//! Texts counted and cut in runes.
ghost use Rattle.std.specs.Prelude.{◌≡◌, ◌<◌, drop, length, suc};
ghost use Rattle.tmpl_values.specs.Runes.{runes};
ghost use Rattle.tmpl_values.specs.computed.Rune.{first_rune, tail_len};
ghost use Rattle.tmpl_funcs.specs.printf.Rune.{truncated_to};

use tmpl_values::first_char;

/// How many runes a text has.
pub(crate) fn rune_count(text: &[u8]) -> usize
    ensures { result ≡ length (runes text.now) }
{
    let mut rest = text;
    let mut count = 0;
    while rest.len() > 0 {
        rest = after_rune(rest);
        count += 1;
    }
    count
}

/// The front of a text that has at most this many runes.
pub(crate) fn truncate(precision: Option<usize>, text: &[u8]) -> &[u8]
    ensures { result.now ≡ truncated_to precision text.now }
{
    match precision {
        None => text,
        Some(count) => front(count, text),
    }
}

/// The first this many runes of a text.
fn front(count: usize, text: &[u8]) -> &[u8]
    ensures { result.now ≡ truncated_to (Some count) text.now }
{
    let mut rest = text;
    let mut left = count;
    while left > 0 && rest.len() > 0 {
        rest = after_rune(rest);
        left -= 1;
    }
    &text[..text.len() - rest.len()]
}

/// What stands after the first rune.
fn after_rune(text: &[u8]) -> &[u8]
    requires { 0 < length text.now }
    ensures value { result.now ≡ drop (suc (tail_len (first_rune text.now))) text.now }
    ensures shorter { length result.now < length text.now }
{
    match first_char(text) {
        Some(c) => &text[c.len_utf8()..],
        None => &text[1..],
    }
}
