//! Operators of other languages, and the functions that serve here.

use crate::detail::is_constant;
use crate::sentence::Sentence;
use tmpl_funcs::Func;
use tmpl_lex::{Token, TokenKind};

/// An operator, and the function in its place.
#[derive(Clone, Copy)]
pub(crate) struct Operator {
    pub(crate) sign: &'static [u8],
    function: &'static str,
}

/// The operator that this token begins and those after it go on with.
pub(crate) fn operator_at(token: Token<'_>, back: &[Token<'_>]) -> Option<Operator> {
    match (token.kind, back.first()?.kind) {
        (TokenKind::Assign, TokenKind::Assign) => Some(sign(b"==", "eq")),
        (TokenKind::Pipe, TokenKind::Pipe) => Some(sign(b"||", "or")),
        _ => None,
    }
}

/// The operator with which bytes begin that are no token.
pub(crate) fn operator_in(bytes: &[u8]) -> Option<Operator> {
    match bytes {
        [b'!', b'=', ..] => Some(sign(b"!=", "ne")),
        [b'<', b'=', ..] => Some(sign(b"<=", "le")),
        [b'>', b'=', ..] => Some(sign(b">=", "ge")),
        [b'&', b'&', ..] => Some(sign(b"&&", "and")),
        [b'<', ..] => Some(sign(b"<", "lt")),
        [b'>', ..] => Some(sign(b">", "gt")),
        _ => None,
    }
}

/// An operator of this sign.
fn sign(sign: &'static [u8], function: &'static str) -> Operator {
    Operator { sign, function }
}

impl Operator {
    /// The message about it, between the tokens before it and its second one with those after it.
    pub(crate) fn text(self, said: Sentence, front: &[Token<'_>], back: &[Token<'_>]) -> Sentence {
        show_right(self.begin(said, front), back.get(1..).unwrap_or(&[]))
    }

    /// The message about it, where it is no token and stands after these and before these bytes.
    pub(crate) fn text_between(
        self,
        said: Sentence,
        front: &[Token<'_>],
        after: &[u8],
    ) -> Sentence {
        let said = self.begin(said, front);
        match first_word(after) {
            [b'!', rest @ ..] => show_name(said.say("(not "), rest).say(")"),
            word => show_name(said, word),
        }
    }

    /// The message about it, up to its second operand.
    fn begin(self, said: Sentence, front: &[Token<'_>]) -> Sentence {
        let said = said.quote(self.sign).say(" is no operand: write ");
        show_left(said.say(self.function).say(" "), front).say(" ")
    }
}

/// Shows the operand with which tokens end.
pub(crate) fn show_left(said: Sentence, tokens: &[Token<'_>]) -> Sentence {
    let mut said = said;
    for token in last_operand(tokens) {
        said = match token.kind {
            TokenKind::Word => show_name(said, token.bytes),
            _ => said.show(token.bytes),
        };
    }
    said
}

/// Shows a word; one that is no function and no constant as a field of dot.
fn show_name(said: Sentence, word: &[u8]) -> Sentence {
    match word {
        [b'A'..=b'Z' | b'a'..=b'z' | b'_', ..]
            if Func::named(word).is_none() && !is_constant(word) => said.say(".").show(word),
        _ => said.show(word),
    }
}

/// The tokens of the operand with which tokens end, before white space.
fn last_operand<'t, 'b>(tokens: &'t [Token<'b>]) -> &'t [Token<'b>] {
    let blank = tokens
        .iter()
        .rev()
        .take_while(|token| token.kind == TokenKind::Space)
        .count();
    let (front, _) = tokens.split_at(tokens.len().saturating_sub(blank));
    let taken = front
        .iter()
        .rev()
        .take_while(|token| is_inside(token.kind))
        .count();
    let (_, operand) = front.split_at(front.len().saturating_sub(taken));
    operand
}

/// Shows the operand with which tokens begin.
fn show_right(said: Sentence, tokens: &[Token<'_>]) -> Sentence {
    let mut said = said;
    let mut begun = false;
    for token in tokens {
        if is_inside(token.kind) {
            begun = true;
            said = said.show(token.bytes);
        } else if begun {
            return said;
        }
    }
    said
}

/// Whether a token of this kind may be a part of an operand that is shown.
fn is_inside(kind: TokenKind) -> bool {
    matches!(
        kind,
        TokenKind::Word
            | TokenKind::Number
            | TokenKind::Field
            | TokenKind::Dot
            | TokenKind::Variable
            | TokenKind::String
            | TokenKind::RawString
            | TokenKind::Character
    )
}

/// The bytes up to white space, a brace or a closing parenthesis.
pub(crate) fn first_word(bytes: &[u8]) -> &[u8] {
    let rest = bytes.trim_ascii_start();
    let taken = rest
        .iter()
        .take_while(|b| !b.is_ascii_whitespace() && !matches!(**b, b'{' | b'}' | b')'))
        .count();
    let (word, _) = rest.split_at(taken);
    word
}
