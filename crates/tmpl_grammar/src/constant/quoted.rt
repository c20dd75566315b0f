//! What stands between quotes: strings, raw strings and characters ("String literals" and "Rune
//! literals" in the specification of Go's language).
ghost use Rattle.std.specs.Prelude.{◌≡◌, ◌≤◌, ◌<◌, ◌+◌, ◌++◌, ◌∷◌};
ghost use Rattle.std.specs.Prelude.{IfOk, IfSome, OnOk, length, option_and_then, option_map};
ghost use Rattle.tmpl_values.specs.computed.Rune.{first_rune};
ghost use Rattle.tmpl_values.specs.Rune.{bytes_in};
ghost use Rattle.tmpl_grammar.specs.Constant.Quoted.{code_of};
ghost use Rattle.tmpl_grammar.specs.computed.View.{rune_of, spelled_of};
ghost use Rattle.tmpl_grammar.specs.computed.Quoted as spec;
ghost use Rattle.tmpl_grammar.specs.computed.Within.{within};

use crate::constant::integer::number_in;
use std::alloc::{AllocError, Global};
use tmpl_values::first_char;

/// What a part of a text between quotes stands for.
#[derive(Clone, Copy)]
pub(crate) enum QuotedPart {
    Byte(u8),
    Char(char),
}

/// A part, and how many bytes spell it.
type Spelled = (QuotedPart, usize);

/// The bytes between two such quotes, if the first byte and the last are such.
pub(crate) fn between(quote: u8, bytes: &[u8]) -> Option<&[u8]>
    ensures { option_map (λ s. s.now) result ≡ spec.between quote bytes.now }
{
    match bytes {
        [first, inside @ .., last] => {
            if *first == quote && *last == quote {
                Some(inside)
            } else {
                None
            }
        }
        _ => None,
    }
}

/// The text that stands between such quotes, if it consists of parts.
#[tactic(auto, using(crate::proofs::QuotedLemmas::ends))]
pub(crate) fn unquote(alloc: Global, quote: u8, bytes: &[u8]) -> Result<Option<Vec<u8>>, AllocError>
    ensures { IfOk result (λ o. option_map (λ v. v.items) o ≡ spec.unquoted_text quote bytes.now) }
{
    // most texts take as many bytes as spell them
    let mut text = Vec::with_capacity(alloc, bytes.len())?;
    let mut rest = bytes;
    while rest.len() > 0 {
        let Some((part, len)) = part_at(quote, rest) else {
            return Ok(None);
        };
        part.add_to(&mut text)?;
        rest = &rest[len..];
    }
    Ok(Some(text))
}

/// The text of a raw string: its bytes without carriage returns.
pub(crate) fn without_returns(alloc: Global, bytes: &[u8]) -> Result<Vec<u8>, AllocError>
    ensures { IfOk result (λ v. v.items ≡ spec.without_returns bytes.now) }
{
    bytes.iter().copied().filter(|b| *b != b'\r').collect(alloc)
}

/// The code of the one part between such quotes, if there is one and no more.
pub(crate) fn rune_code(quote: u8, bytes: &[u8]) -> Option<u32>
    ensures { result ≡ spec.rune_code quote bytes.now }
{
    let (part, len) = part_at(quote, bytes)?;
    if len == bytes.len() {
        Some(part.code())
    } else {
        None
    }
}

impl QuotedPart {
    /// Puts it after a text, a character by its UTF-8.
    fn add_to(self, text: &mut Vec<u8>) -> Result<(), AllocError>
        ensures { OnOk result (text.new.items ≡ text.old.items ++ bytes_in (rune_of self)) }
    {
        match self {
            QuotedPart::Byte(byte) => Ok(text.push(byte)?),
            QuotedPart::Char(c) => {
                let mut buffer = [0; 4];
                text.extend_from_slice(c.encode_utf8(&mut buffer).as_bytes())
            }
        }
    }

    /// The value of the byte, or the code of the character.
    fn code(self) -> u32
        ensures { result ≡ code_of (rune_of self) }
    {
        match self {
            QuotedPart::Byte(byte) => u32::from(byte),
            QuotedPart::Char(c) => u32::from(c),
        }
    }
}

/// The part at the front.
#[tactic(auto, unfolding(crate::specs::computed::Quoted::part_at))]
fn part_at(quote: u8, bytes: &[u8]) -> Option<Spelled>
    ensures value { option_map spelled_of result ≡ spec.part_at quote bytes.now }
    ensures within { IfSome result (λ p. (0 < p.1) × (p.1 ≤ length bytes.now)) }
{
    match bytes {
        [] => None,
        [first, after @ ..] => {
            if *first == b'\\' {
                escape(quote, after)
            } else if *first == quote {
                None
            } else {
                Some(rune_part(bytes))
            }
        }
    }
}

/// The rune at the front, or U+FFFD for an ill-formed byte.
fn rune_part(bytes: &[u8]) -> Spelled
    requires { 0 < length bytes.now }
    ensures value { spelled_of result ≡ spec.rune_part (first_rune bytes.now) }
    ensures within { (0 < result.1) × (result.1 ≤ length bytes.now) }
{
    let first = bytes[0];
    if first < 0x80 {
        return (QuotedPart::Char(char::from(first)), 1);
    }
    match first_char(bytes) {
        Some(c) => (QuotedPart::Char(c), c.len_utf8()),
        None => (QuotedPart::Char('\u{fffd}'), 1),
    }
}

/// The escape whose backslash stands before these bytes.
fn escape(quote: u8, bytes: &[u8]) -> Option<Spelled>
    ensures value { option_map spelled_of result ≡ spec.escape quote bytes.now }
    ensures within { IfSome result (λ p. (0 < p.1) × (p.1 ≤ length bytes.now + 1)) }
{
    match bytes {
        [] => None,
        [letter, digits @ ..] => match byte_named(quote, *letter) {
            Some(byte) => Some((QuotedPart::Byte(byte), 2)),
            None => escape_by_digits(*letter, digits, bytes),
        },
    }
}

/// The byte that a letter stands for after a backslash.
fn byte_named(quote: u8, letter: u8) -> Option<u8>
    ensures { result ≡ spec.byte_named quote letter }
{
    match letter {
        b'a' => Some(7),
        b'b' => Some(8),
        b'f' => Some(12),
        b'n' => Some(b'\n'),
        b'r' => Some(b'\r'),
        b't' => Some(b'\t'),
        b'v' => Some(11),
        b'\\' => Some(b'\\'),
        _ => if letter == quote { Some(quote) } else { None },
    }
}

/// The escape by digits: in base 16 after a letter, or else in base 8.
fn escape_by_digits(letter: u8, digits: &[u8], whole: &[u8]) -> Option<Spelled>
    requires { whole.now ≡ letter ∷ digits.now }
    ensures value { option_map spelled_of result ≡ spec.escape_code letter digits.now }
    ensures within { IfSome result (λ p. (0 < p.1) × (p.1 ≤ length digits.now + 2)) }
{
    match letter {
        b'x' => byte_of(16, 2, digits),
        b'u' => char_of(4, digits),
        b'U' => char_of(8, digits),
        _ => byte_of(8, 3, whole),
    }
}

/// The byte that this many digits at the front name; four bytes spell each such escape.
fn byte_of(base: u32, count: usize, bytes: &[u8]) -> Option<Spelled>
    requires low { 2 ≤ base }
    requires high { base ≤ 16 }
    ensures value { option_map spelled_of result ≡ option_and_then (spec.as_byte 4) (spec.code base count bytes.now) }
    ensures within { IfSome result (λ p. (p.1 ≡ 4) × (count ≤ length bytes.now)) }
{
    as_byte(4, code(base, count, bytes)?)
}

/// The character that this many digits at the front name, after a letter.
fn char_of(count: usize, bytes: &[u8]) -> Option<Spelled>
    requires { count ≤ 8 }
    ensures value { option_map spelled_of result
        ≡ option_and_then (spec.as_char (count + 2)) (spec.code 16 count bytes.now) }
    ensures within { IfSome result (λ p. (p.1 ≡ count + 2) × (count ≤ length bytes.now)) }
{
    as_char(count + 2, code(16, count, bytes)?)
}

/// The byte of this value, if there is one, and by how many bytes it is spelled.
fn as_byte(len: usize, n: u64) -> Option<Spelled>
    ensures value { option_map spelled_of result ≡ spec.as_byte len n }
    ensures within { IfSome result (λ p. p.1 ≡ len) }
{
    match u8::try_from(n) {
        Ok(byte) => Some((QuotedPart::Byte(byte), len)),
        Err(_) => None,
    }
}

/// The character of this code, if there is one, and by how many bytes it is spelled.
fn as_char(len: usize, n: u64) -> Option<Spelled>
    ensures value { option_map spelled_of result ≡ spec.as_char len n }
    ensures within { IfSome result (λ p. p.1 ≡ len) }
{
    match u32::try_from(n) {
        Ok(n) => Some((QuotedPart::Char(char::from_u32(n)?), len)),
        Err(_) => None,
    }
}

/// The number that this many digits at the front write.
fn code(base: u32, count: usize, bytes: &[u8]) -> Option<u64>
    requires low { 2 ≤ base }
    requires high { base ≤ 16 }
    ensures value { result ≡ within (spec.code base count bytes.now) }
    ensures fits { IfSome result (λ n. count ≤ length bytes.now) }
{
    if bytes.len() < count {
        return None;
    }
    number_in(base, &bytes[..count])
}
