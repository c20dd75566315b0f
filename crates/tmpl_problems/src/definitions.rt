//! The templates that a file defines and calls, by the tokens of its actions.
ghost use Rattle.std.specs.Prelude.{◌≡◌, map};
ghost use Rattle.std.specs.Option.{option_copied};
ghost use Rattle.tmpl_lex.specs.View.{token_of};
ghost use Rattle.tmpl_hints.specs.Action as action;
ghost use Rattle.tmpl_problems.specs.Tokens as spec;

use tmpl_hints::significant;
use tmpl_lex::{Token, TokenKind};

/// The name in quotes that stands second in an action which begins with one of these words; none where it has a
/// backslash.
pub(crate) fn name_after<'b>(tokens: &[Token<'b>], words: &[&[u8]]) -> Option<&'b [u8]>
    ensures { option_copied result ≡ spec.name_after (map (λ word. word.now) words.now) (map token_of tokens.now) }
{
    let first = significant(tokens, 0)?;
    if !is_among(words, first.bytes) {
        return None;
    }
    quoted_name(significant(tokens, 1)?)
}

/// Whether a word is among these.
fn is_among(words: &[&[u8]], word: &[u8]) -> bool
    ensures { result ≡ action.is_among (map (λ other. other.now) words.now) word.now }
{
    words.iter().any(|other| *other == word)
}

/// The name in a token in quotes, if it has no backslash.
fn quoted_name<'b>(token: Token<'b>) -> Option<&'b [u8]>
    ensures { option_copied result ≡ spec.quoted_name (token_of token.entry) }
{
    match (token.kind, token.bytes) {
        (TokenKind::String | TokenKind::RawString, [_, name @ .., _]) if !name.contains(&b'\\') =>
            Some(name),
        _ => None,
    }
}
