//! Constants ("Arguments" in the documentation of Go's text/template).
ghost use Rattle.std.specs.Prelude.{◌≡◌, IfOk, option_map};
ghost use Rattle.tmpl_lex.specs.View.{token_of};
ghost use Rattle.tmpl_grammar.specs.computed.Constant.{constant_by, constant_of};
ghost use Rattle.tmpl_lex.specs.declared.piece.TokenKind.TheVariants as kind;
ghost use Rattle.tmpl_grammar.specs.View.{operand_of};

mod integer;
mod quoted;

use crate::constant::integer::integer;
use crate::constant::quoted::{between, rune_code, unquote, without_returns};
use crate::tree::Operand;
use std::alloc::{AllocError, Global};
use tmpl_lex::{Token, TokenKind};
use tmpl_values::Bytes;

/// The constant that a token stands for: a whole number, a string, a raw string or a character by its
/// code. None where the token is no constant: of another kind, misspelled, or a number that is not
/// from -2^63 to 2^63 - 1. Memory is taken only for the text of a string, and its refusal is the error.
#[tactic(auto, unfolding(crate::specs::computed::Constant::constant_of))]
pub(crate) fn constant(alloc: Global, token: &Token<'_>) -> Result<Option<Operand>, AllocError>
    ensures { IfOk result (λ o. option_map operand_of o ≡ constant_of (token_of token.now)) }
{
    match token.kind {
        TokenKind::Number => Ok(number(token.bytes)),
        TokenKind::String => string(alloc, token.bytes),
        TokenKind::RawString => raw_string(alloc, token.bytes),
        TokenKind::Character => Ok(character(token.bytes)),
        _ => Ok(None),
    }
}

/// The whole number that these bytes spell, if they spell one that fits.
fn number(bytes: &[u8]) -> Option<Operand>
    ensures { option_map operand_of result ≡ constant_by kind.Number bytes.now }
{
    Some(Operand::Number(integer(bytes)?))
}

/// The text of a string, which these bytes spell with its quotes; none where they do not, as by a
/// misspelled escape.
fn string(alloc: Global, bytes: &[u8]) -> Result<Option<Operand>, AllocError>
    ensures { IfOk result (λ o. option_map operand_of o ≡ constant_by kind.String bytes.now) }
{
    let Some(inside) = between(b'"', bytes) else {
        return Ok(None);
    };
    match unquote(alloc, b'"', inside)? {
        Some(text) => Ok(Some(Operand::Text(Bytes::new(text)))),
        None => Ok(None),
    }
}

/// The text of a raw string, which these bytes spell with its quotes; none where they are no such quotes.
fn raw_string(alloc: Global, bytes: &[u8]) -> Result<Option<Operand>, AllocError>
    ensures { IfOk result (λ o. option_map operand_of o ≡ constant_by kind.RawString bytes.now) }
{
    let Some(inside) = between(b'`', bytes) else {
        return Ok(None);
    };
    let text = without_returns(alloc, inside)?;
    Ok(Some(Operand::Text(Bytes::new(text))))
}

/// The code of a character, which these bytes spell with its quotes; none where they spell no single one.
fn character(bytes: &[u8]) -> Option<Operand>
    ensures { option_map operand_of result ≡ constant_by kind.Character bytes.now }
{
    let code = rune_code(b'\'', between(b'\'', bytes)?)?;
    Some(Operand::Number(i64::from(code)))
}
