//! What is wrong with an action that is refused.
ghost use Rattle.std.specs.Prelude.{◌≡◌, [], IfOk, string_bytes};
ghost use Rattle.tmpl_hints.specs.Action as action;
ghost use Rattle.tmpl_hints.specs.Sentence.{Adds};
ghost use Rattle.tmpl_hints.specs.Told as spec;

use crate::action::{Open, Opening, Role, significant};
use crate::instead::instead_of;
use crate::near::near;
use crate::operators::{Operator, operator_at, show_left};
use crate::sentence::Sentence;
use std::alloc::{AllocError, Global};
use tmpl_funcs::Func;
use tmpl_grammar::{Branch, Reading, read_action};
use tmpl_lex::{Token, TokenKind};

/// What is wrong with an action whose tokens have no reading.
pub fn detail_of(alloc: Global, tokens: &[Token<'_>]) -> Result<String, AllocError>
    ensures empty { action.significant tokens.now ≡ [] → IfOk result (λ t. string_bytes t ≡ spec.empty_words) }
{
    let said = Sentence::new(alloc);
    let Some(first) = significant(tokens, 0) else {
        return said.say("the action is empty").finish();
    };
    let said = match (first_flaw(alloc, tokens)?, unbalanced(tokens)) {
        (Some((spot, flaw)), _) => flaw_text(said, spot, flaw),
        (None, Some(words)) => said.say(words),
        (None, None) => shape_text(said, first.bytes, tokens),
    };
    said.finish()
}

/// What is wrong with a token where it stands.
#[derive(Clone, Copy)]
enum Flaw {
    /// A comparison or `||`, of which a part is this token.
    Operator(Operator),
    /// A word that is no function, keyword or constant.
    NoFunction,
    /// A keyword where none may stand.
    Keyword,
    /// A field whose name begins with a digit.
    Index,
    /// No constant, though it is written as one.
    Constant,
    /// A constant or a dot after a bar.
    AfterBar,
    /// A bar with no command beside it.
    LooseBar,
    /// A token that may not stand there.
    Stray,
    /// An operand directly after another.
    Joined,
}

/// A token between the others of its action.
#[derive(Clone, Copy)]
struct Spot<'t, 'b> {
    front: &'t [Token<'b>],
    token: Token<'b>,
    back: &'t [Token<'b>],
}

impl<'t, 'b> Spot<'t, 'b> {
    /// The token of this number.
    fn of(tokens: &'t [Token<'b>], index: usize) -> Option<Spot<'t, 'b>> {
        let front = tokens.get(..index)?;
        match tokens.get(index..)? {
            [token, back @ ..] => Some(Spot {
                front,
                token: *token,
                back,
            }),
            [] => None,
        }
    }

    /// The nearest token before it that is no white space.
    fn earlier(self) -> Option<Token<'b>> {
        self.front
            .iter()
            .rev()
            .find(|token| token.kind != TokenKind::Space)
            .copied()
    }

    /// The nearest token after it that is no white space.
    fn later(self) -> Option<Token<'b>> {
        significant(self.back, 0)
    }
}

/// The first token with a flaw.
fn first_flaw<'t, 'b>(
    alloc: Global,
    tokens: &'t [Token<'b>],
) -> Result<Option<(Spot<'t, 'b>, Flaw)>, AllocError> {
    for index in 0..tokens.len() {
        if let Some(spot) = Spot::of(tokens, index) {
            if let Some(flaw) = flaw_of(alloc, spot)? {
                return Ok(Some((spot, flaw)));
            }
        }
    }
    Ok(None)
}

/// The flaw of a token.
fn flaw_of(alloc: Global, spot: Spot<'_, '_>) -> Result<Option<Flaw>, AllocError> {
    if let Some(operator) = operator_at(spot.token, spot.back) {
        return Ok(Some(Flaw::Operator(operator)));
    }
    match spot.token.kind {
        TokenKind::Number | TokenKind::Character | TokenKind::String | TokenKind::RawString => {
            constant_flaw(alloc, spot)
        }
        TokenKind::Word => Ok(word_flaw(spot)),
        TokenKind::Field => Ok(field_flaw(spot)),
        TokenKind::Comma | TokenKind::Declare | TokenKind::Assign => match spot.earlier() {
            Some(
                Token {
                    kind: TokenKind::Variable,
                    ..
                },
            ) => Ok(None),
            _ => Ok(Some(Flaw::Stray)),
        },
        TokenKind::Pipe => Ok(bar_flaw(spot)),
        TokenKind::Dot => Ok(operand_flaw(spot)),
        TokenKind::Variable | TokenKind::LeftParenthesis => Ok(joined_flaw(spot)),
        TokenKind::RightParenthesis | TokenKind::Space => Ok(None),
    }
}

/// The flaw of a word.
fn word_flaw(spot: Spot<'_, '_>) -> Option<Flaw> {
    let word = spot.token.bytes;
    if is_keyword(word) {
        return match spot.earlier() {
            None | Some(Token { bytes: b"else", .. }) => None,
            Some(_) => Some(Flaw::Keyword),
        };
    }
    if is_constant(word) {
        operand_flaw(spot)
    } else if Func::named(word).is_none() {
        Some(Flaw::NoFunction)
    } else {
        joined_flaw(spot)
    }
}

/// Whether a word begins an action.
fn is_keyword(word: &[u8]) -> bool {
    matches!(
        word,
        b"if"
            | b"with"
            | b"range"
            | b"else"
            | b"end"
            | b"break"
            | b"continue"
            | b"define"
            | b"template"
            | b"block"
    )
}

/// Whether a word is a constant.
pub(crate) fn is_constant(word: &[u8]) -> bool {
    matches!(word, b"true" | b"false" | b"nil")
}

/// The flaw of a field.
fn field_flaw(spot: Spot<'_, '_>) -> Option<Flaw> {
    match (spot.token.bytes, spot.front) {
        ([_, b'0'..=b'9', ..], _) => Some(Flaw::Index),
        (_, [.., before]) if may_have_field(before.kind) => None,
        _ => joined_flaw(spot),
    }
}

/// The flaw of a constant.
fn constant_flaw(alloc: Global, spot: Spot<'_, '_>) -> Result<Option<Flaw>, AllocError> {
    match read_action(alloc, [spot.token].as_slice())? {
        Reading::Read(_) => Ok(operand_flaw(spot)),
        _ => Ok(Some(Flaw::Constant)),
    }
}

/// The flaw of a constant or a dot, which may not stand after a bar.
fn operand_flaw(spot: Spot<'_, '_>) -> Option<Flaw> {
    match spot.earlier() {
        Some(token) if token.kind == TokenKind::Pipe => Some(Flaw::AfterBar),
        _ => joined_flaw(spot),
    }
}

/// Whether an operand stands directly after another.
fn joined_flaw(spot: Spot<'_, '_>) -> Option<Flaw> {
    match spot.front {
        [.., before] if is_value(before.kind) => Some(Flaw::Joined),
        _ => None,
    }
}

/// Whether a token of this kind ends an operand.
fn is_value(kind: TokenKind) -> bool {
    !matches!(
        kind,
        TokenKind::Space
            | TokenKind::Declare
            | TokenKind::Assign
            | TokenKind::Comma
            | TokenKind::Pipe
            | TokenKind::LeftParenthesis
    )
}

/// Whether a field may stand directly after a token of this kind.
fn may_have_field(kind: TokenKind) -> bool {
    matches!(
        kind,
        TokenKind::Field | TokenKind::Variable | TokenKind::RightParenthesis
    )
}

/// The flaw of a bar.
fn bar_flaw(spot: Spot<'_, '_>) -> Option<Flaw> {
    match (spot.earlier(), spot.later()) {
        (Some(left), Some(right))
            if is_value(left.kind) && right.kind != TokenKind::RightParenthesis => { None }
        _ => Some(Flaw::LooseBar),
    }
}

/// What is wrong with the parentheses, if something is.
fn unbalanced(tokens: &[Token<'_>]) -> Option<&'static str> {
    let mut depth = 0_usize;
    for token in tokens {
        match token.kind {
            TokenKind::LeftParenthesis => depth = depth.saturating_add(1),
            TokenKind::RightParenthesis => match depth.checked_sub(1) {
                Some(outside) => depth = outside,
                None => return Some("\")\" closes no \"(\""),
            },
            _ => {}
        }
    }
    (depth > 0).then_some("\"(\" is not closed")
}

/// Says what is wrong with a token.
fn flaw_text(said: Sentence, spot: Spot<'_, '_>, flaw: Flaw) -> Sentence {
    let bytes = spot.token.bytes;
    match flaw {
        Flaw::Operator(operator) => operator.text(said, spot.front, spot.back),
        Flaw::NoFunction => no_function(said.say("no function ").quote(bytes), spot),
        Flaw::Keyword => match spot.front {
            [Token { bytes: b"end", .. }, ..] => said.say("\"end\" stands alone: write {{end}}"),
            _ => said
                .quote(bytes)
                .say(" stands first in an action of its own"),
        },
        Flaw::Index => index_text(said.say("no field ").quote(bytes), spot),
        Flaw::Constant => constant_text(said, bytes),
        Flaw::AfterBar => said
            .quote(bytes)
            .say(" takes no value, so it may not stand after \"|\""),
        Flaw::LooseBar => said.say("\"|\" stands between two commands"),
        Flaw::Stray => said.say("unexpected ").quote(bytes),
        Flaw::Joined => said.say("a space is wanted before ").quote(bytes),
    }
}

/// Says what to write for a word that names no function.
fn no_function(said: Sentence, spot: Spot<'_, '_>) -> Sentence {
    let word = spot.token.bytes;
    if let Some(text) = straight(word) {
        return said
            .say(": a string stands between straight quotes: write \"")
            .show(text)
            .say("\"");
    }
    if let Some(
        Token {
            kind: TokenKind::Declare | TokenKind::Assign,
            ..
        },
    ) = spot.later()
    {
        return said
            .say(": a variable begins with \"$\": write $")
            .show(word);
    }
    match (instead_of(word), near(word)) {
        (Some(text), _) => said.say(": ").say(text),
        (None, Some(name)) => said.say(": write ").say(name),
        (None, None) => name_text(said, spot),
    }
}

/// Says what to write for a word that is like no other: a name in quotes, or a field where it begins a command and no
/// operand follows it.
fn name_text(said: Sentence, spot: Spot<'_, '_>) -> Sentence {
    let begins = match spot.earlier() {
        Some(
            Token {
                bytes: b"template" | b"define" | b"block",
                ..
            },
        ) => {
            return said.say(": write ").quote(spot.token.bytes);
        }
        Some(token) => is_keyword(token.bytes),
        None => true,
    };
    if !begins || has_operand(spot.back) {
        return said;
    }
    let mut said = said.say(": write .").show(spot.token.bytes);
    for token in spot.back {
        if token.kind != TokenKind::Field {
            return said;
        }
        said = said.show(token.bytes);
    }
    said
}

/// What stands in a word between quotes that are not straight, with which it begins.
fn straight(word: &[u8]) -> Option<&[u8]> {
    let [0xe2, 0x80, 0x98 | 0x99 | 0x9c | 0x9d, text @ ..] = word else {
        return None;
    };
    match text {
        [inside @ .., 0xe2, 0x80, 0x98 | 0x99 | 0x9c | 0x9d] => Some(inside),
        _ => Some(text),
    }
}

/// Whether an operand is among these tokens, which stand after a word and may begin with its fields.
fn has_operand(tokens: &[Token<'_>]) -> bool {
    let mut is_apart = false;
    for token in tokens {
        match token.kind {
            TokenKind::Space => is_apart = true,
            TokenKind::Pipe => return false,
            TokenKind::Field if !is_apart => {}
            _ => return true,
        }
    }
    false
}

/// Says what to write for a field whose name begins with a digit.
fn index_text(said: Sentence, spot: Spot<'_, '_>) -> Sentence {
    let said = said.say(": write index ");
    let said = match spot.front {
        [.., before] if may_have_field(before.kind) => show_left(said, spot.front),
        _ => said.say("."),
    };
    let name = spot.token.bytes.get(1..).unwrap_or(&[]);
    if name.iter().all(|b| b.is_ascii_digit()) {
        said.say(" ").show(name)
    } else {
        said.say(" \"").show(name).say("\"")
    }
}

/// The message about a constant that is none.
fn constant_text(said: Sentence, bytes: &[u8]) -> Sentence {
    match bytes {
        [b'\'', text @ .., b'\''] if !text.contains(&b'\\') => said
            .show(bytes)
            .say(" is no character: a string stands in double quotes: write \"")
            .show(text)
            .say("\""),
        [b'"' | b'`' | b'\'', ..] => said
            .show(bytes)
            .say(" is no constant: look at what stands after its \"\\\""),
        _ if bytes.contains(&b'.') => said.say("number ").show(bytes).say(" is not whole"),
        _
            if bytes
                .iter()
                .all(|b| matches!(*b, b'0'..=b'9' | b'-' | b'+')) => said
            .say("number ")
            .show(bytes)
            .say(" is out of range or has an 8 or 9 after a first 0"),
        _ => said.show(bytes).say(" is no integer"),
    }
}

/// The message about an action in which each token alone may stand where it does, and which begins with this word.
fn shape_text(said: Sentence, word: &[u8], tokens: &[Token<'_>]) -> Sentence {
    match word {
        b"end" | b"break" | b"continue" => said.quote(word).say(" stands alone"),
        b"template" | b"define" | b"block" => said.say("after ").quote(word).say(
            " stands a name in quotes, and after that what it is given",
        ),
        b"else" => said.say("after \"else\" stands nothing, or \"if\" or \"with\" and a value"),
        b"if" | b"with" | b"range" if significant(tokens, 1).is_none() => said
            .say("after ")
            .quote(word)
            .say(" stands a value"),
        _ => said.say("the parts of the action do not fit together"),
    }
}

/// The message about an action that is out of place.
pub fn misplaced_text(
    alloc: Global,
    role: Role,
    outside: Option<Open>,
) -> Result<String, AllocError>
    ensures { IfOk result (λ t. string_bytes t ≡ spec.misplaced role outside) }
{
    let said = Sentence::new(alloc);
    let said = match role {
        Role::End => said.say(
            "\"end\" closes nothing: no if, with, range, define or block is open",
        ),
        Role::Jump => said.say("break and continue stand in the body of a range"),
        Role::Open(Opening::Define) => inside_text(
            said.say("a define stands in no other part"),
            outside,
        ),
        Role::Else(branch) => inside_text(said.say(else_words(branch, outside)), outside),
        _ => said,
    };
    said.finish()
}

/// Says what is open.
fn inside_text(said: Sentence, outside: Option<Open>) -> Sentence
    ensures { Adds said result (spec.inside outside) }
{
    match outside {
        Some(part) => open_text(said.say(": "), part),
        None => said,
    }
}

/// Says that this is open.
fn open_text(said: Sentence, part: Open) -> Sentence
    ensures { Adds said result (spec.open_at part) }
{
    said.say("\"")
        .say(part.opening.word())
        .say("\" of line ")
        .count(part.line)
        .say(" is open")
}

/// The message about an else that is out of place, without what is open there.
fn else_words(branch: Option<Branch>, outside: Option<Open>) -> &'static str
    ensures { result.now ≡ spec.misplaced_else branch outside }
{
    let Some(part) = outside else {
        return "\"else\" belongs to no if, with or range";
    };
    match (branch, part.opening) {
        (_, Opening::Define | Opening::Block) => "\"else\" belongs to no if, with or range",
        (Some(Branch::If), Opening::With | Opening::Range) => {
            "\"else if\" stands in an if alone: write {{else}}{{if P}}..{{end}}"
        }
        (Some(Branch::With), Opening::If | Opening::Range) => {
            "\"else with\" stands in a with alone: write {{else}}{{with P}}..{{end}}"
        }
        _ => "a second \"else\": a part has one, which comes last",
    }
}

/// The message about a name that is not in scope.
pub fn undeclared_text(alloc: Global, name: &[u8]) -> Result<String, AllocError>
    ensures { IfOk result (λ t. string_bytes t ≡ spec.undeclared name.now) }
{
    Sentence::new(alloc)
        .say("variable \"$")
        .show(name)
        .say("\" is not declared: write {{$")
        .show(name)
        .say(" := VALUE}} before it, in the same part or around it")
        .finish()
}

/// The message about what is open at the end of a file, in which this many parts are open.
pub fn left_open(alloc: Global, part: Open, depth: usize) -> Result<String, AllocError>
    ensures { IfOk result (λ t. string_bytes t ≡ spec.left_open part depth) }
{
    let said = open_text(Sentence::new(alloc), part).say(" at the end of the file");
    more_text(said, depth).finish()
}

/// Says how many parts are open beside one of this many.
fn more_text(said: Sentence, depth: usize) -> Sentence
    ensures { Adds said result (spec.more_open depth) }
{
    if depth > 1 {
        said.say(", inside ")
            .count(depth.saturating_sub(1) as u64)
            .say(" more")
    } else {
        said
    }
}
