//! What begins after a `{{`: a comment, an action, or neither.
ghost use Rattle.std.specs.Prelude.{◌≡◌, IfOk, option_map};
ghost use Rattle.tmpl_lex.specs.computed.Action as computed;
ghost use Rattle.tmpl_lex.specs.computed.View.{end_of, inside_of, opened_of};

use crate::bytes::{skip, split_pair};
use crate::piece::Token;
use crate::token::front_token;
use crate::trim::{End, right_delimiter};
use std::alloc::AllocError;

/// What begins after a `{{` or its left trim marker.
#[derive(Clone, Copy)]
pub(crate) enum Opened<'b> {
    /// A closed comment, and its end.
    Comment(End<'b>),
    /// A closed action, whose tokens were read, and its end.
    Action(End<'b>),
    /// Neither of them: it is not closed, or has a place where no token begins.
    Neither,
}

/// Reads what begins after a `{{` or its left trim marker, and its tokens in place of those that were there.
#[tactic(auto, unfolding(crate::specs::computed::Action::opened))]
pub(crate) fn read_opened<'b>(
    tokens: &mut Vec<Token<'b>>,
    bytes: &'b [u8],
) -> Result<Opened<'b>, AllocError>
    ensures { IfOk result (λ o. opened_of tokens.new.items o ≡ computed.opened bytes.now) }
{
    if let Some(end) = comment_end(bytes) {
        return Ok(Opened::Comment(end));
    }
    match read_inside(tokens, bytes)? {
        Some(end) => Ok(Opened::Action(end)),
        None => Ok(Opened::Neither),
    }
}

/// The end of the comment that the bytes begin with: directly after the first `*/` after `/*`.
#[tactic(auto, unfolding(crate::specs::computed::Action::comment_end))]
fn comment_end(bytes: &[u8]) -> Option<End<'_>>
    ensures { option_map end_of result ≡ computed.comment_end bytes.now }
{
    match bytes {
        [b'/', b'*', text @ ..] => {
            let (_, after) = split_pair(text, b'*', b'/')?;
            right_delimiter(after)
        }
        _ => None,
    }
}

/// Reads the tokens of an action, and says where it ends; `None` where it is not closed or some
/// place begins no token.
#[tactic(auto, using(crate::proofs::ActionLemmas::reading))]
fn read_inside<'b>(
    tokens: &mut Vec<Token<'b>>,
    bytes: &'b [u8],
) -> Result<Option<End<'b>>, AllocError>
    ensures { IfOk result (λ o. inside_of tokens.new.items o ≡ computed.inside bytes.now) }
{
    tokens.clear();
    let mut rest = bytes;
    loop {
        if let Some(end) = right_delimiter(rest) {
            return Ok(Some(end));
        }
        let Some(token) = front_token(rest) else {
            return Ok(None);
        };
        tokens.push(token)?;
        rest = skip(rest, token.bytes.len());
    }
}
