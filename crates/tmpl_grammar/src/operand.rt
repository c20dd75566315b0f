//! The operands that are one token.
ghost use Rattle.std.specs.Prelude.{◌≡◌, ◌≤◌, IfOk, length, map, option_map};
ghost use Rattle.std.specs.List.{list_all, prefix_len};
ghost use Rattle.tmpl_lex.specs.View.{token_of};
ghost use Rattle.tmpl_grammar.specs.Token as spec;
ghost use Rattle.tmpl_grammar.specs.computed.Operand as word;
ghost use Rattle.tmpl_grammar.specs.computed.Token as white;
ghost use Rattle.tmpl_grammar.specs.View.{operand_of};
ghost use Rattle.tmpl_grammar.specs.computed.View.{next_of};

use crate::constant::constant;
use crate::tree::Operand;
use std::alloc::{AllocError, Global};
use tmpl_funcs::Func;
use tmpl_lex::{Token, TokenKind};
use tmpl_values::Bytes;

/// Whether a token is white space.
fn is_white(token: &Token<'_>) -> bool
    ensures { result ≡ white.is_white (token_of token.now) }
{
    matches!(token.kind, TokenKind::Space)
}

/// Whether there is nothing but white space.
#[tactic(auto, using(crate::proofs::ListLemmas::views))]
pub(crate) fn is_blank(tokens: &[Token<'_>]) -> bool
    ensures { result ≡ white.is_blank (map token_of tokens.now) }
{
    all_white(tokens)
}

/// Whether each token is white space.
fn all_white(tokens: &[Token<'_>]) -> bool
    ensures { result ≡ list_all (λ t. white.is_white (token_of t)) tokens.now }
{
    tokens.iter().all(|t| is_white(t))
}

/// How many tokens of white space there are at the front.
#[tactic(auto, using(crate::proofs::ListLemmas::runs))]
fn front_len(tokens: &[Token<'_>]) -> usize
    ensures count { result ≡ prefix_len (λ t. white.is_white (token_of t)) tokens.now }
    ensures within { result ≤ length tokens.now }
{
    tokens.iter().take_while(|t| is_white(t)).count()
}

/// The tokens without the white space at their front.
#[tactic(auto, using(crate::proofs::ListLemmas::fronts))]
fn without_front<'t, 'b>(tokens: &'t [Token<'b>]) -> &'t [Token<'b>]
    ensures { map token_of result.now ≡ white.without_front (map token_of tokens.now) }
{
    &tokens[front_len(tokens)..]
}

/// The first token that is no white space, and those after it.
pub(crate) fn next<'t, 'b>(tokens: &'t [Token<'b>]) -> Option<(Token<'b>, &'t [Token<'b>])>
    ensures { option_map next_of result ≡ white.next (map token_of tokens.now) }
{
    match without_front(tokens) {
        [first, rest @ ..] => Some((*first, rest)),
        [] => None,
    }
}

/// The name in a field or a variable, after its first byte.
pub(crate) fn name_in<'b>(token: &Token<'b>) -> &'b [u8]
    ensures { result.now ≡ spec.name_in (token_of token.now) }
{
    match token.bytes {
        [_, name @ ..] => name,
        [] => &[],
    }
}

/// Whether a field may have this name: its first byte is no digit.
pub(crate) fn begins_name(name: &[u8]) -> bool
    ensures { result ≡ spec.begins_name name.now }
{
    match name {
        [first, ..] => !first.is_ascii_digit(),
        [] => false,
    }
}

/// The function of this name, if there is one ("Functions" in the documentation of Go's text/template).
fn function_named(name: &[u8]) -> Option<Func>
    ensures { result ≡ word.func_named name.now }
{
    Func::named(name)
}

/// The operand that a word is.
#[tactic(auto, unfolding(crate::specs::computed::Operand::word_operand))]
fn word(name: &[u8]) -> Option<Operand>
    ensures { option_map operand_of result ≡ word.word_operand name.now }
{
    if name == b"true".as_slice() {
        Some(Operand::Bool(true))
    } else if name == b"false".as_slice() {
        Some(Operand::Bool(false))
    } else if name == b"nil".as_slice() {
        Some(Operand::Nil)
    } else {
        match function_named(name) {
            Some(func) => Some(Operand::Function(func)),
            None => None,
        }
    }
}

/// The chain of this one field from dot, if a field may have this name.
fn field(alloc: Global, name: &[u8]) -> Result<Option<Operand>, AllocError>
    ensures { IfOk result (λ o. option_map operand_of o
        ≡ word.field_operand (spec.begins_name name.now) name.now) }
{
    if begins_name(name) {
        let name = Bytes::new(name.to_vec(alloc)?);
        Ok(Some(Operand::Fields(vec![in alloc; name]?)))
    } else {
        Ok(None)
    }
}

/// The variable of this name, without a chain.
fn variable(alloc: Global, name: &[u8]) -> Result<Operand, AllocError>
    ensures { IfOk result (λ o. operand_of o ≡ word.variable_operand name.now) }
{
    Ok(Operand::Variable {
        name: Bytes::new(name.to_vec(alloc)?),
        fields: Vec::new(alloc),
    })
}

/// The operand that a token is, to which a chain may still be added.
#[tactic(auto, unfolding(crate::specs::computed::Operand::operand_at))]
pub(crate) fn operand_at(alloc: Global, token: &Token<'_>) -> Result<Option<Operand>, AllocError>
    ensures { IfOk result (λ o. option_map operand_of o ≡ word.operand_at (token_of token.now)) }
{
    match token.kind {
        TokenKind::Dot => Ok(Some(Operand::Dot)),
        TokenKind::Field => field(alloc, name_in(token)),
        TokenKind::Variable => Ok(Some(variable(alloc, name_in(token))?)),
        TokenKind::Word => Ok(word(token.bytes)),
        TokenKind::Number | TokenKind::String | TokenKind::RawString | TokenKind::Character => {
            constant(alloc, token)
        }
        _ => Ok(None),
    }
}
