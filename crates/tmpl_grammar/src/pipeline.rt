//! The reading of pipelines.
ghost use Rattle.std.specs.Prelude.{◌≡◌, ◌≤◌, IfOk, map, nat_le, option_map};
ghost use Rattle.tmpl_lex.specs.View.{token_of};
ghost use Rattle.tmpl_grammar.specs.Depth.{most_deep};
ghost use Rattle.tmpl_grammar.specs.View.{command_of, pipeline_of};
ghost use Rattle.tmpl_grammar.specs.computed.Depth.{deepest, depth_after, limited_pipeline};
ghost use Rattle.tmpl_grammar.specs.computed.Limited.{limited_commands, pruned_commands};
ghost use Rattle.tmpl_grammar.specs.computed.Parser.{start};
ghost use Rattle.tmpl_grammar.specs.computed.Reading as spec;

mod parser;

use crate::pipeline::parser::PipelineParser;
use crate::tree::{Command, Pipeline};
use std::alloc::{AllocError, Global};
use tmpl_lex::{Token, TokenKind};

/// How deep parentheses may nest (our own limit).
const MOST_DEEP: usize = 100;

/// The pipeline that these tokens spell, left out where its parentheses nest too deep. Then all that is left to tell is
/// whether the tokens are a pipeline, and what stands in parentheses is let go of once they close, so that no tree is
/// deep. No call is recursive.
#[tactic(auto, using(crate::proofs::LimitLemmas::limits))]
pub(crate) fn pipeline(alloc: Global, tokens: &[Token<'_>]) -> Result<Option<Pipeline>, AllocError>
    ensures { IfOk result (λ o. option_map pipeline_of o
        ≡ option_map limited_pipeline (spec.pipeline_in (map token_of tokens.now))) }
{
    let keeps = is_shallow(tokens);
    let commands = commands_in(alloc, keeps, tokens)?;
    Ok(make_pipeline(alloc, keeps, commands))
}

/// The commands of the pipeline that these tokens spell, with what stands in parentheses or without it.
fn commands_in(
    alloc: Global,
    keeps: bool,
    tokens: &[Token<'_>],
) -> Result<Option<Vec<Command>>, AllocError>
    ensures { IfOk result (λ o. option_map (λ v. map command_of v.items) o
        ≡ pruned_commands keeps start (map token_of tokens.now)) }
{
    let mut parser = PipelineParser::new(alloc);
    for token in tokens {
        let stands = parser.pass(alloc, keeps, token)?;
        if !stands {
            return Ok(None);
        }
    }
    parser.finish(alloc)
}

/// The pipeline of these commands, which are left out where nothing in parentheses was kept.
fn make_pipeline(alloc: Global, keeps: bool, commands: Option<Vec<Command>>) -> Option<Pipeline>
    ensures { option_map pipeline_of result
        ≡ limited_commands keeps (option_map (λ v. map command_of v.items) commands) }
{
    let commands = commands?;
    Some(Pipeline {
        commands: if keeps { commands } else { Vec::new(alloc) },
    })
}

/// Whether parentheses nest no deeper than they may.
fn is_shallow(tokens: &[Token<'_>]) -> bool
    ensures { result ≡ nat_le (deepest 0 (map token_of tokens.now)) most_deep }
{
    let mut depth = 0;
    for token in tokens {
        depth = depth_after(token, depth);
        if depth > MOST_DEEP {
            return false;
        }
    }
    true
}

/// How many parentheses are open after a token, where this many are before it.
fn depth_after(token: &Token<'_>, before: usize) -> usize
    requires { before ≤ most_deep }
    ensures { result ≡ depth_after token.now.kind before }
{
    match token.kind {
        TokenKind::LeftParenthesis => before + 1,
        TokenKind::RightParenthesis => before.saturating_sub(1),
        _ => before,
    }
}
