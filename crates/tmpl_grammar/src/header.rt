//! The reading of headers: a pipeline's tokens, perhaps after variables.
ghost use Rattle.std.specs.Prelude.{◌≡◌, IfOk, map, option_map};
ghost use Rattle.tmpl_lex.specs.View.{token_of};
ghost use Rattle.tmpl_lex.specs.declared.piece.TokenKind.TheVariants as kind;
ghost use Rattle.tmpl_grammar.specs.Printable.{may_bind};
ghost use Rattle.tmpl_grammar.specs.View.{binding_of, header_of};
ghost use Rattle.tmpl_grammar.specs.computed.Depth.{limited_header};
ghost use Rattle.tmpl_grammar.specs.computed.Reading as spec;
ghost use Rattle.tmpl_grammar.specs.computed.View.{front_of, split_of, variable_front_of};

use crate::operand::{name_in, next};
use crate::pipeline::pipeline;
use crate::tree::{Binding, Header, Pair};
use std::alloc::{AllocError, Global};
use tmpl_lex::{Token, TokenKind};
use tmpl_values::Bytes;

/// What comes first in a header, and the tokens after it.
#[derive(Clone, Copy)]
enum Front<'t, 'b> {
    Plain,
    /// `$x :=`
    Declare(&'b [u8], &'t [Token<'b>]),
    /// `$x =`
    Assign(&'b [u8], &'t [Token<'b>]),
    /// `$i, $x :=`
    DeclarePair(&'b [u8], &'b [u8], &'t [Token<'b>]),
}

/// A variable that comes first: its name, the kind of the next token that is no white space, and the tokens after
/// that.
#[derive(Clone, Copy)]
struct VariableFront<'t, 'b> {
    name: &'b [u8],
    next_kind: TokenKind,
    rest: &'t [Token<'b>],
}

/// The variable that comes first, of a name of at least one byte, and what stands after it.
fn first_variable<'t, 'b>(tokens: &'t [Token<'b>]) -> Option<VariableFront<'t, 'b>>
    ensures { option_map variable_front_of result ≡ spec.variable_front (map token_of tokens.now) }
{
    let (first, rest) = next(tokens)?;
    match first.kind {
        TokenKind::Variable => variable_named(name_in(&first), rest),
        _ => None,
    }
}

/// A name of at least one byte, and what stands after it.
fn variable_named<'t, 'b>(name: &'b [u8], rest: &'t [Token<'b>]) -> Option<VariableFront<'t, 'b>>
    ensures { option_map variable_front_of result
        ≡ spec.variable_by kind.Variable name.now (spec.next (map token_of rest.now)) }
{
    match name {
        [] => None,
        _ => {
            let (token, rest) = next(rest)?;
            Some(VariableFront {
                name,
                next_kind: token.kind,
                rest,
            })
        }
    }
}

/// What comes first in a header.
fn header_front<'t, 'b>(tokens: &'t [Token<'b>]) -> Front<'t, 'b>
    ensures { front_of result ≡ spec.front_in (map token_of tokens.now) }
{
    let Some(first) = first_variable(tokens) else {
        return Front::Plain;
    };
    match first.next_kind {
        TokenKind::Declare => Front::Declare(first.name, first.rest),
        TokenKind::Assign => Front::Assign(first.name, first.rest),
        TokenKind::Comma => second_name(first.name, first.rest),
        _ => Front::Plain,
    }
}

/// The second of two variables, after the comma.
fn second_name<'t, 'b>(key: &'b [u8], tokens: &'t [Token<'b>]) -> Front<'t, 'b>
    ensures { front_of result ≡ spec.second_variable key.now (spec.variable_front (map token_of tokens.now)) }
{
    let Some(second) = first_variable(tokens) else {
        return Front::Plain;
    };
    match second.next_kind {
        TokenKind::Declare => Front::DeclarePair(key, second.name, second.rest),
        _ => Front::Plain,
    }
}

/// The name in memory of its own.
fn copy(alloc: Global, name: &[u8]) -> Result<Bytes, AllocError>
    ensures { IfOk result (λ b. b ≡ name.now) }
{
    Ok(Bytes::new(name.to_vec(alloc)?))
}

/// The header of a range or of another action, with its pipeline left out where that nests too deep.
pub(crate) fn header(
    alloc: Global,
    in_range: bool,
    tokens: &[Token<'_>],
) -> Result<Option<Header>, AllocError>
    ensures { IfOk result (λ o. option_map header_of o
        ≡ option_map limited_header (spec.header_in in_range (map token_of tokens.now))) }
{
    let (binding, rest) = split(alloc, tokens)?;
    if !may_bind(in_range, &binding) {
        return Ok(None);
    }
    match pipeline(alloc, rest)? {
        Some(pipeline) => Ok(Some(Header { binding, pipeline })),
        None => Ok(None),
    }
}

/// Whether the header of a range or of another action may bind variables so.
fn may_bind(in_range: bool, binding: &Binding) -> bool
    ensures { result ≡ may_bind in_range (binding_of binding.now) }
{
    match binding {
        Binding::Unbound | Binding::Declare(_) => true,
        Binding::Assign(_) => !in_range,
        Binding::DeclarePair(_) => in_range,
    }
}

/// The binding of a header, and the tokens of its pipeline.
#[tactic(auto, unfolding(crate::specs::computed::Reading::split))]
fn split<'t, 'b>(
    alloc: Global,
    tokens: &'t [Token<'b>],
) -> Result<(Binding, &'t [Token<'b>]), AllocError>
    ensures { IfOk result (λ h. split_of h ≡ spec.split (map token_of tokens.now)) }
{
    match header_front(tokens) {
        Front::Plain => Ok((Binding::Unbound, tokens)),
        Front::Declare(name, rest) => Ok((Binding::Declare(copy(alloc, name)?), rest)),
        Front::Assign(name, rest) => Ok((Binding::Assign(copy(alloc, name)?), rest)),
        Front::DeclarePair(key, name, rest) => {
            let key = copy(alloc, key)?;
            let element = copy(alloc, name)?;
            let pair = Box::new(alloc, Pair { key, element })?;
            Ok((Binding::DeclarePair(pair), rest))
        }
    }
}
