//! The reading of one action's tokens.
ghost use Rattle.std.specs.Prelude.{◌≡◌, IfOk, Some, map, option_map};
ghost use Rattle.tmpl_lex.specs.View.{token_of};
ghost use Rattle.tmpl_grammar.specs.View.{action_of};
ghost use Rattle.tmpl_grammar.specs.computed.Depth.{limited_action, reading_held};
ghost use Rattle.tmpl_grammar.specs.computed.View.{action_reading, quoted_of};
ghost use Rattle.tmpl_grammar.specs.computed.Reading as spec;

use crate::action::{Action, Branch, Reading};
use crate::constant::constant;
use crate::header::header;
use crate::keyword::{Keyword, keyword_in};
use crate::operand::{is_blank, next};
use crate::pipeline::pipeline;
use crate::tree::{Control, Operand};
use std::alloc::{AllocError, Global};
use tmpl_lex::Token;
use tmpl_values::Bytes;

/// What an action's tokens are read as. Want of memory is the only error.
#[tactic(auto, using(crate::proofs::ReadingLemmas::readings))]
pub fn read_action(alloc: Global, tokens: &[Token<'_>]) -> Result<Reading, AllocError>
    ensures { IfOk result (λ a. action_reading a ≡ spec.reading_in (map token_of tokens.now)) }
{
    Ok(within_limit(action(alloc, tokens)?))
}

/// What is read of an action whose pipeline is left out where it nests too deep.
fn within_limit(action: Option<Action>) -> Reading
    ensures { action_reading result ≡ reading_held (option_map action_of action) }
{
    match action {
        None => Reading::Unread,
        Some(action) => if action.lacks_pipeline() {
            Reading::TooDeep(action.branch())
        } else {
            Reading::Read(action)
        },
    }
}

/// The action that these tokens spell, with its pipeline left out where that nests too deep.
#[tactic(auto, unfolding(crate::specs::computed::Reading::action_in))]
fn action(alloc: Global, tokens: &[Token<'_>]) -> Result<Option<Action>, AllocError>
    ensures { IfOk result (λ o. option_map action_of o
        ≡ option_map limited_action (spec.action_in (map token_of tokens.now))) }
{
    match next(tokens) {
        None => Ok(None),
        Some((first, rest)) => match keyword_in(first) {
            Some(keyword) => action_after(alloc, keyword, rest),
            None => match header(alloc, false, tokens)? {
                Some(header) => Ok(Some(Action::Pipeline(header))),
                None => Ok(None),
            },
        },
    }
}

/// The action that begins with this keyword, after which these tokens stand.
fn action_after(
    alloc: Global,
    keyword: Keyword,
    rest: &[Token<'_>],
) -> Result<Option<Action>, AllocError>
    ensures { IfOk result (λ o. option_map action_of o
        ≡ option_map limited_action (spec.action_by keyword (map token_of rest.now))) }
{
    match keyword {
        Keyword::Control(control) => opening(alloc, control, rest),
        Keyword::Else => else_action(alloc, rest),
        Keyword::End => Ok(alone(Action::End, rest)),
        Keyword::Break => Ok(alone(Action::Break, rest)),
        Keyword::Continue => Ok(alone(Action::Continue, rest)),
        Keyword::Define => define_action(alloc, rest),
        Keyword::Template => template_action(alloc, rest),
        Keyword::Block => block_action(alloc, rest),
    }
}

/// An action without a pipeline, after which nothing may stand.
fn alone(action: Action, rest: &[Token<'_>]) -> Option<Action>
    requires { limited_action (action_of action) ≡ action_of action }
    ensures { option_map action_of result
        ≡ option_map limited_action (spec.without_tokens (action_of action) (map token_of rest.now)) }
{
    if is_blank(rest) { Some(action) } else { None }
}

/// A control, after whose keyword a header stands.
fn opening(
    alloc: Global,
    control: Control,
    rest: &[Token<'_>],
) -> Result<Option<Action>, AllocError>
    ensures { IfOk result (λ o. option_map action_of o
        ≡ option_map limited_action (spec.opening_by control (map token_of rest.now))) }
{
    match header(alloc, matches!(control, Control::Range), rest)? {
        Some(header) => Ok(Some(Action::Open(control, header))),
        None => Ok(None),
    }
}

/// An `else`, after which nothing, an `if` or a `with` stands.
fn else_action(alloc: Global, rest: &[Token<'_>]) -> Result<Option<Action>, AllocError>
    ensures { IfOk result (λ o. option_map action_of o
        ≡ option_map limited_action (spec.else_by (spec.next (map token_of rest.now)))) }
{
    match next(rest) {
        None => Ok(Some(Action::Else)),
        Some((first, rest)) => match keyword_in(first) {
            Some(keyword) => match keyword.branch() {
                Some(branch) => else_branch(alloc, branch, rest),
                None => Ok(None),
            },
            None => Ok(None),
        },
    }
}

/// An `else` with an `if` or a `with` after it, after which a header stands.
fn else_branch(
    alloc: Global,
    branch: Branch,
    rest: &[Token<'_>],
) -> Result<Option<Action>, AllocError>
    ensures { IfOk result (λ o. option_map action_of o
        ≡ option_map limited_action (spec.else_branched (Some branch) (map token_of rest.now))) }
{
    match header(alloc, false, rest)? {
        Some(header) => Ok(Some(Action::ElseBranch(branch, header))),
        None => Ok(None),
    }
}

/// A `define`, after which a name stands alone.
fn define_action(alloc: Global, rest: &[Token<'_>]) -> Result<Option<Action>, AllocError>
    ensures { IfOk result (λ o. option_map action_of o
        ≡ option_map limited_action (spec.named_action spec.define_by (map token_of rest.now))) }
{
    match quoted_name(alloc, rest)? {
        Some((name, rest)) => Ok(alone(Action::Define(name), rest)),
        None => Ok(None),
    }
}

/// A `template`, after which a name stands, and a pipeline or nothing.
fn template_action(alloc: Global, rest: &[Token<'_>]) -> Result<Option<Action>, AllocError>
    ensures { IfOk result (λ o. option_map action_of o
        ≡ option_map limited_action (spec.named_action spec.template_by (map token_of rest.now))) }
{
    let Some((name, rest)) = quoted_name(alloc, rest)? else {
        return Ok(None);
    };
    if is_blank(rest) {
        return Ok(Some(Action::Template(name, None)));
    }
    match pipeline(alloc, rest)? {
        Some(pipeline) => Ok(Some(Action::Template(name, Some(pipeline)))),
        None => Ok(None),
    }
}

/// A `block`, after which a name and a pipeline stand.
fn block_action(alloc: Global, rest: &[Token<'_>]) -> Result<Option<Action>, AllocError>
    ensures { IfOk result (λ o. option_map action_of o
        ≡ option_map limited_action (spec.named_action spec.block_by (map token_of rest.now))) }
{
    let Some((name, rest)) = quoted_name(alloc, rest)? else {
        return Ok(None);
    };
    match pipeline(alloc, rest)? {
        Some(pipeline) => Ok(Some(Action::Block(name, pipeline))),
        None => Ok(None),
    }
}

/// The name of a template, a string or raw string that comes first, and the tokens after it.
fn quoted_name<'t, 'b>(
    alloc: Global,
    tokens: &'t [Token<'b>],
) -> Result<Option<(Bytes, &'t [Token<'b>])>, AllocError>
    ensures { IfOk result (λ o. option_map quoted_of o ≡ spec.quoted_in (map token_of tokens.now)) }
{
    let Some((first, rest)) = next(tokens) else {
        return Ok(None);
    };
    match constant(alloc, &first)? {
        Some(Operand::Text(name)) => Ok(Some((name, rest))),
        _ => Ok(None),
    }
}
