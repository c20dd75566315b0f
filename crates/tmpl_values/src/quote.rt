//! The quote of a text.
ghost use Rattle.std.specs.Prelude.{◌≡◌, ◌-◌, ◌^◌, ◌<◌, ◌≤◌, drop, ◌++◌, length, take, IfSome, None, [], ◌∷◌};
ghost use Rattle.std.specs.List.{list_any};
ghost use Rattle.std.specs.Char.{len_utf8};
ghost use Rattle.ucd_category.specs.GeneralCategoryGroup.{in_group};
ghost use Rattle.ucd_category.specs.declared.GeneralCategoryGroup.TheVariants.{Letter, Mark, Number};
ghost use Rattle.ucd_category.specs.declared.GeneralCategoryGroup.TheVariants.{Punctuation, Symbol};
ghost use Rattle.tmpl_values.specs.Put.{IsPut};
ghost use Rattle.tmpl_values.specs.Rune.{char as char_rune, byte as byte_rune};
ghost use Rattle.tmpl_values.specs.Quote.{letters, letter_of, spelling, quote};
ghost use Rattle.tmpl_values.specs.computed.Quote.{inside, rune_spelling};
ghost use Rattle.tmpl_values.specs.Printable.{printable};

use crate::hex::digit;
use crate::put::Put;
use crate::rune::first_char;
use unicode::properties::{GeneralCategory, GeneralCategoryGroup};

/// Puts the quote of a text, as `strconv.Quote` has it over the categories of `unicode`'s own
/// version.
///
/// It takes no memory, and fails only where `out` does.
pub fn put_quoted<P: Put>(bytes: &[u8], out: &mut P) -> Result<(), P::Fault>
    requires { (P.so_far out.old).failures < 2 ^ 64 - 1 }
    ensures { IsPut result (P.so_far out.old) (P.so_far out.new) (quote bytes.now) }
{
    out.put(b"\"")?;
    put_inside(bytes, out)?;
    out.put(b"\"")
}

/// Puts what stands between the quotation marks, runs of plain characters at once.
fn put_inside<P: Put>(bytes: &[u8], out: &mut P) -> Result<(), P::Fault>
    requires { (P.so_far out.old).failures < 2 ^ 64 - 1 }
    ensures { IsPut result (P.so_far out.old) (P.so_far out.new) (inside printable bytes.now) }
{
    let mut rest = bytes;
    while rest.len() > 0 {
        let plain = plain_len(rest);
        if plain > 0 {
            out.put(&rest[..plain])?;
            rest = after(rest, plain);
        } else {
            match first_char(rest) {
                Some(c) => {
                    put_char(c, out)?;
                    rest = after(rest, c.len_utf8());
                }
                None => {
                    put_byte(rest[0], out)?;
                    rest = after(rest, 1);
                }
            }
        }
    }
    Ok(())
}

/// How many bytes at the front stand for themselves, since they are characters that print and have
/// no letter.
fn plain_len(bytes: &[u8]) -> usize
    ensures within { result ≤ length bytes.now }
    ensures plain { inside printable bytes.now
        ≡ take result bytes.now ++ inside printable (drop result bytes.now) }
{
    let mut len = 0;
    while let Some(c) = plain_char(after(bytes, len)) {
        len += c.len_utf8();
    }
    len
}

/// The character at the front, if it stands for itself.
fn plain_char(bytes: &[u8]) -> Option<char>
    ensures { IfSome result (λ c. (len_utf8 c ≤ length bytes.now)
        × (inside printable bytes.now
        ≡ take (len_utf8 c) bytes.now ++ inside printable (drop (len_utf8 c) bytes.now))) }
{
    if bytes.is_empty() {
        return None;
    }
    match first_char(bytes) {
        Some(c) => if letter_of(c).is_none() && is_printable(c) {
            Some(c)
        } else {
            None
        },
        None => None,
    }
}

/// The bytes after this many.
fn after(bytes: &[u8], n: usize) -> &[u8]
    requires { n ≤ length bytes.now }
    ensures { result.now ≡ drop n bytes.now }
{
    &bytes[n..]
}

/// The letter that stands for a character after a backslash, if it has one.
fn letter_of(c: char) -> Option<u8>
    ensures { result ≡ letter_of c letters }
{
    match c {
        '"' => Some(b'"'),
        '\\' => Some(b'\\'),
        '\u{7}' => Some(b'a'),
        '\u{8}' => Some(b'b'),
        '\t' => Some(b't'),
        '\n' => Some(b'n'),
        '\u{b}' => Some(b'v'),
        '\u{c}' => Some(b'f'),
        '\r' => Some(b'r'),
        _ => None,
    }
}

/// Whether a character prints: the space of ASCII, letters, marks, numbers, punctuation and symbols.
#[tactic(auto, unfolding(crate::specs::Printable::printable))]
fn is_printable(c: char) -> bool
    ensures { result ≡ printable c }
{
    (c == ' ') | is_of_category(GeneralCategory::for_char(c))
}

/// Whether the characters of a category print.
fn is_of_category(category: GeneralCategory) -> bool
    ensures { result ≡ list_any (λ g. in_group g category) (Letter ∷ Mark ∷ Number ∷ Punctuation ∷ Symbol ∷ []) }
{
    GeneralCategoryGroup::Letter.contains(category)
        | (GeneralCategoryGroup::Mark.contains(category)
            | (GeneralCategoryGroup::Number.contains(category)
                | (GeneralCategoryGroup::Punctuation.contains(category)
                    | GeneralCategoryGroup::Symbol.contains(category))))
}

/// Puts a character as it stands in a quote.
fn put_char<P: Put>(c: char, out: &mut P) -> Result<(), P::Fault>
    requires { (P.so_far out.old).failures < 2 ^ 64 - 1 }
    ensures { IsPut result (P.so_far out.old) (P.so_far out.new)
        (spelling printable (char_rune c)) }
{
    match letter_of(c) {
        Some(letter) => out.put(&[b'\\', letter]),
        None => put_unlettered(c, out),
    }
}

/// Puts a character that has no letter: itself where it prints, else its code.
#[tactic(auto, unfolding(crate::specs::Quote::hexes))]
fn put_unlettered<P: Put>(c: char, out: &mut P) -> Result<(), P::Fault>
    requires { (P.so_far out.old).failures < 2 ^ 64 - 1 }
    ensures { IsPut result (P.so_far out.old) (P.so_far out.new) (rune_spelling printable c None) }
{
    if is_printable(c) {
        let mut buffer = [0; 4];
        return out.put(c.encode_utf8(&mut buffer).as_bytes());
    }
    let n = c as u32;
    if n < 32 || n == 127 {
        put_byte(n as u8, out)
    } else if n < 65536 {
        out.put(&[
            b'\\',
            b'u',
            digit(n / 16 / 16 / 16 % 16, false),
            digit(n / 16 / 16 % 16, false),
            digit(n / 16 % 16, false),
            digit(n % 16, false),
        ])
    } else {
        let high = n / 16 / 16 / 16 / 16;
        out.put(&[
            b'\\',
            b'U',
            digit(high / 16 / 16 / 16 % 16, false),
            digit(high / 16 / 16 % 16, false),
            digit(high / 16 % 16, false),
            digit(high % 16, false),
            digit(n / 16 / 16 / 16 % 16, false),
            digit(n / 16 / 16 % 16, false),
            digit(n / 16 % 16, false),
            digit(n % 16, false),
        ])
    }
}

/// Puts a byte by its code.
#[tactic(auto, unfolding(crate::specs::Quote::hexes))]
fn put_byte<P: Put>(b: u8, out: &mut P) -> Result<(), P::Fault>
    requires { (P.so_far out.old).failures < 2 ^ 64 - 1 }
    ensures { IsPut result (P.so_far out.old) (P.so_far out.new)
        (spelling printable (byte_rune b)) }
{
    out.put(&[
        b'\\',
        b'x',
        digit(b as u32 / 16 % 16, false),
        digit(b as u32 % 16, false),
    ])
}
