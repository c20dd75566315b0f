//! The tokens of an action.
ghost use Rattle.std.specs.Prelude.{◌≡◌, ◌≤◌, IfSome, length, option_map, take};
ghost use Rattle.tmpl_lex.specs.View.{token_of};
ghost use Rattle.tmpl_lex.specs.computed.Token as spec;
ghost use Rattle.tmpl_lex.specs.computed.View.{begun_of};

use crate::bytes::{is_name_byte, is_space, name_len, number_len, skip, white_len};
use crate::piece::{Token, TokenKind};
use crate::quoted::{quoted_len, through_len};
use crate::trim::has_dashed_delimiter;

/// The token at the front of the bytes, if one begins there.
pub(crate) fn front_token(bytes: &[u8]) -> Option<Token<'_>>
    ensures value { option_map token_of result ≡ spec.front_token bytes.now }
    ensures within { IfSome result (λ t. length t.bytes.now ≤ length bytes.now) }
{
    let [first, rest @ ..] = bytes else {
        return None;
    };
    let (kind, len) = measure(*first, rest)?;
    Some(Token {
        kind,
        bytes: &bytes[..len + 1],
    })
}

/// The kind of the token that begins with this byte, and how many of the bytes after it are its own.
fn measure(first: u8, rest: &[u8]) -> Option<(TokenKind, usize)>
    ensures value { begun_of rest.now result ≡ spec.front_of_token first rest.now }
    ensures within { IfSome result (λ p. p.1 ≤ length rest.now) }
{
    if is_space(first) {
        Some((TokenKind::Space, space_len(rest)))
    } else if first.is_ascii_digit() {
        Some((TokenKind::Number, number_len(rest)))
    } else if is_name_byte(first) {
        Some((TokenKind::Word, name_len(rest)))
    } else {
        measure_marked(first, rest)
    }
}

/// The same after a byte that is neither white space nor of a name.
fn measure_marked(first: u8, rest: &[u8]) -> Option<(TokenKind, usize)>
    ensures value { begun_of rest.now result ≡ spec.sign_token first rest.now }
    ensures within { IfSome result (λ p. p.1 ≤ length rest.now) }
{
    match first {
        b'+' | b'-' => measure_signed(rest),
        b'.' => Some(measure_dotted(rest)),
        b'$' => Some((TokenKind::Variable, name_len(rest))),
        b'"' => of_kind(TokenKind::String, quoted_len(b'"', rest)),
        b'`' => of_kind(TokenKind::RawString, through_len(b'`', rest)),
        b'\'' => of_kind(TokenKind::Character, quoted_len(b'\'', rest)),
        b':' => measure_declare(rest),
        b'=' => Some((TokenKind::Assign, 0)),
        b',' => Some((TokenKind::Comma, 0)),
        b'|' => Some((TokenKind::Pipe, 0)),
        b'(' => Some((TokenKind::LeftParenthesis, 0)),
        b')' => Some((TokenKind::RightParenthesis, 0)),
        _ => None,
    }
}

/// How much of the white space at the front stands before a right trim marker, if one ends it.
fn space_len(bytes: &[u8]) -> usize
    ensures value { take result bytes.now ≡ spec.space_run bytes.now }
    ensures within { result ≤ length bytes.now }
{
    let white = white_len(bytes);
    if has_dashed_delimiter(skip(bytes, white)) {
        white.saturating_sub(1)
    } else {
        white
    }
}

/// After a `+` or `-`: a number, if a digit stands there.
fn measure_signed(rest: &[u8]) -> Option<(TokenKind, usize)>
    ensures value { begun_of rest.now result ≡ spec.after_sign rest.now }
    ensures within { IfSome result (λ p. p.1 ≤ length rest.now) }
{
    match rest {
        [digit, more @ ..] if digit.is_ascii_digit() => {
            Some((TokenKind::Number, number_len(more) + 1))
        }
        _ => None,
    }
}

/// After a dot: a field, if a name stands there.
fn measure_dotted(rest: &[u8]) -> (TokenKind, usize)
    ensures value { (result.0, take result.1 rest.now) ≡ spec.after_dot (spec.name_run rest.now) }
    ensures within { result.1 ≤ length rest.now }
{
    match name_len(rest) {
        0 => (TokenKind::Dot, 0),
        len => (TokenKind::Field, len),
    }
}

/// After a colon: the sign that declares, if `=` stands there.
fn measure_declare(rest: &[u8]) -> Option<(TokenKind, usize)>
    ensures value { begun_of rest.now result ≡ spec.after_colon rest.now }
    ensures within { IfSome result (λ p. p.1 ≤ length rest.now) }
{
    match rest {
        [b'=', ..] => Some((TokenKind::Declare, 1)),
        _ => None,
    }
}

/// A token of this kind, where its closing quote was found.
fn of_kind(kind: TokenKind, len: Option<usize>) -> Option<(TokenKind, usize)>
    ensures { result ≡ option_map (λ n. (kind, n)) len }
{
    Some((kind, len?))
}
