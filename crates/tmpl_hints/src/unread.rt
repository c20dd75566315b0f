//! What is wrong with an action that is not closed, or that has a place where no token begins.
ghost use Rattle.std.specs.Prelude.{◌≡◌, ◌≤◌, IfOk, IsTrue, length, string_bytes};
ghost use Rattle.tmpl_hints.specs.Told.{comment_words};
ghost use Rattle.tmpl_hints.specs.Unread as spec;

use crate::operators::{first_word, operator_in, show_left};
use crate::sentence::Sentence;
use std::alloc::{AllocError, Global};
use tmpl_lex::{Token, TokenKind, is_space};

/// How many bytes the left trim marker after a `{{` has.
pub fn marker_len(after: &[u8]) -> usize
    ensures value { result ≡ spec.marker_len after.now }
    ensures within { result ≤ length after.now }
{
    match after {
        [b'-', space, ..] if is_space(*space) => 2,
        _ => 0,
    }
}

/// Whether a comment begins with these bytes after a `{{`.
pub fn opens_comment(inside: &[u8]) -> bool
    ensures { result ≡ spec.opens_comment inside.now }
{
    match inside {
        [b'/', b'*', ..] => true,
        [b'-', space, b'/', b'*', ..] => is_space(*space),
        _ => false,
    }
}

/// What is wrong there, in words. The tokens are those before the place where none begins.
pub fn unreadable(alloc: Global, tokens: &[Token<'_>], after: &[u8]) -> Result<String, AllocError>
    ensures comment { IsTrue (spec.opens_comment after.now) → IfOk result (λ t. string_bytes t ≡ comment_words) }
{
    let said = Sentence::new(alloc);
    if opens_comment(after) {
        return said
            .say("a comment ends with \"*/}}\", or with \"*/\", a space and \"-}}\"")
            .finish();
    }
    let bytes = after.get(read_len(tokens, after)..).unwrap_or(&[]);
    said_of(said, tokens, bytes).finish()
}

/// How many bytes of an action were read as tokens, with its marker.
fn read_len(tokens: &[Token<'_>], after: &[u8]) -> usize {
    let mut len = marker_len(after);
    for token in tokens {
        len = len.saturating_add(token.bytes.len());
    }
    len
}

/// The message about bytes with which no token begins.
fn said_of(said: Sentence, tokens: &[Token<'_>], bytes: &[u8]) -> Sentence {
    match (tokens, bytes) {
        ([], [b'>', rest @ ..]) => {
            let said = said.say("\">\" begins no action: write {{template \"");
            return said.show(first_word(rest)).say("\" .}}");
        }
        (_, [b'[', rest @ ..]) => return subscript_text(said, tokens, rest),
        _ => {}
    }
    if let Some(operator) = operator_in(bytes) {
        let rest = bytes.get(operator.sign.len()..).unwrap_or(&[]);
        return operator.text_between(said, tokens, rest);
    }
    if let Some(words) = words_of(tokens, bytes) {
        return said.say(words);
    }
    match (tokens, bytes) {
        (_, [b'!', rest @ ..]) => {
            let said = unexpected(said, bytes).say(": write not ");
            match first_word(rest) {
                [] => said.say(".x"),
                word => said.show(word),
            }
        }
        ([], [b'#' | b'/' | b'^', ..]) => said.quote(first_word(bytes)).say(
            " begins no action: a part begins with if, with or range and ends with end",
        ),
        (_, [b'?' | b':', ..]) => unexpected(said, bytes).say(": write {{if P}}A{{else}}B{{end}}"),
        ([front @ .., last], [b'-', ..]) if last.kind == TokenKind::Field => {
            let name = last.bytes.get(1..).unwrap_or(&[]);
            key_text(said, front)
                .show(name)
                .show(first_word(bytes))
                .say("\"")
        }
        (_, [b'+' | b'-' | b'*' | b'/' | b'^', ..]) => unexpected(said, bytes).say(
            ": there is no arithmetic; compute it in the data",
        ),
        _ => unexpected(said, bytes),
    }
}

/// What is wrong with bytes with which no token begins, where the words are always the same.
fn words_of(tokens: &[Token<'_>], bytes: &[u8]) -> Option<&'static str> {
    let words = match bytes {
        [] => "\"{{\" is not closed by \"}}\"",
        [b'{', b'{', ..] => "\"{{\" inside an action: is \"}}\" missing before it?",
        [b'"', rest @ ..] if ends_curly(rest) => {
            "a string stands between straight quotes, as \"Ada\""
        }
        [b'"', ..] => {
            "a text in quotes is not closed in its line; one of several lines stands in backquotes"
        }
        [b'\'', ..] => {
            "a character in quotes is not closed in its line; a text stands in double quotes"
        }
        [b'`', ..] => "a text in backquotes is not closed",
        [b'!', b'-', b'-', ..] | [b'#', b' ', ..] => {
            "a comment stands between \"{{/*\" and \"*/}}\""
        }
        [b'/', b'*', ..] => "a comment begins right after its \"{{\": write {{/* .. */}}",
        [b'}', ..] => "unexpected \"}\": an action ends with \"}}\"",
        [b'-', b'}', b'}', ..] => "a trim marker has a space before it: write \" -}}\"",
        [b'-', ..] if tokens.is_empty() => { "a trim marker has a space after it: write \"{{- \"" }
        [b'%', ..] => "unexpected \"%\": an action stands between \"{{\" and \"}}\" alone",
        [b'&', ..] => "unexpected \"&\": write and",
        _ => return None,
    };
    Some(words)
}

/// The message about the first of these bytes.
fn unexpected(said: Sentence, bytes: &[u8]) -> Sentence {
    said.say("unexpected ").quote(bytes.get(..1).unwrap_or(&[]))
}

/// The message about a `[` after these tokens and before these bytes.
fn subscript_text(said: Sentence, tokens: &[Token<'_>], after: &[u8]) -> Sentence {
    let said = said.say("unexpected \"[\": write index");
    let taken = after
        .iter()
        .take_while(|b| **b != b']' && !b.is_ascii_whitespace())
        .count();
    let (key, _) = after.split_at(taken);
    match key {
        [b'"' | b'$' | b'.' | b'0'..=b'9', ..] if is_chain(tokens) && key.len() < 50 => {
            show_left(said.say(" "), tokens).say(" ").show(key)
        }
        _ => said.say(", as in index .list 0"),
    }
}

/// Whether tokens end with a field or a variable.
fn is_chain(tokens: &[Token<'_>]) -> bool {
    matches!(
        tokens,
        [
            ..,
            Token {
                kind: TokenKind::Field | TokenKind::Variable,
                ..
            }
        ]
    )
}

/// Whether a curly quote comes in a line before its `}}`.
fn ends_curly(bytes: &[u8]) -> bool {
    for window in bytes.windows(3) {
        match window {
            [b'\n', ..] | [b'}', b'}', _] => return false,
            [0xE2, 0x80, 0x9C | 0x9D] => return true,
            _ => {}
        }
    }
    false
}

/// The message about a key with a `-` that is written as a field after these tokens, up to its name.
fn key_text(said: Sentence, front: &[Token<'_>]) -> Sentence {
    let said = said.say("unexpected \"-\": write index ");
    let said = if is_chain(front) {
        show_left(said, front)
    } else {
        said.say(".")
    };
    said.say(" \"")
}
