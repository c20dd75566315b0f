//! What is wrong with what is refused, in words.
ghost use Rattle.std.specs.Prelude.{◌≡◌, IfOk, map};
ghost use Rattle.tmpl_lex.specs.Part.{IsLeft};
ghost use Rattle.tmpl_problems.specs.Checked.{refused_in};

use crate::problem::Problem;
use std::alloc::{AllocError, Global};
use tmpl_grammar::{Action, Control, Reading, read_action};
use tmpl_hints::{
    Open, Opening, Sentence, detail_of, left_open, misplaced_text, role_of, undeclared_text,
};
use tmpl_lex::{Rest, Token, first_part};
use tmpl_syntax::{About, ParseKind, Refused, base_name};

/// What is refused of a file, each with what is wrong.
pub(crate) fn explain(
    alloc: Global,
    file: &str,
    bytes: &[u8],
    refusals: Vec<Refused>,
) -> Result<Vec<Problem>, AllocError>
    ensures { IfOk result (λ v. map refused_in v.items ≡ refusals.items) }
{
    let mut problems = Vec::new(alloc);
    for refused in refusals {
        let detail = detail(alloc, file, bytes, &refused)?;
        problems.push(Problem { refused, detail })?;
    }
    Ok(problems)
}

/// What is wrong with this.
fn detail(
    alloc: Global,
    file: &str,
    bytes: &[u8],
    refused: &Refused,
) -> Result<String, AllocError> {
    match refused.kind {
        ParseKind::NotAnAction | ParseKind::OutOfPlace | ParseKind::SecondDefinition => {
            let mut tokens = Vec::new(alloc);
            first_part(bytes, rest_from(bytes, refused.start), &mut tokens)?;
            detail_by(alloc, file, tokens.as_slice(), &refused.about)
        }
        ParseKind::TooLong => String::from_str(alloc, "a file has at most 16,777,216 bytes"),
        ParseKind::NestedTooDeeply => String::from_str(
            alloc,
            "at most 500 controls and blocks may be open, and 100 parentheses",
        ),
        ParseKind::UndeclaredVariable
        | ParseKind::OpenAtEnd
        | ParseKind::Unreadable
        | ParseKind::OutOfMemory => detail_about(alloc, &refused.about),
    }
}

/// What is left of a file from this byte on.
fn rest_from(bytes: &[u8], start: usize) -> Rest<'_>
    ensures { IsLeft bytes.now result }
{
    let (_, left) = bytes.split_at(start.min(bytes.len()));
    Rest {
        bytes: left,
        line: 1,
        trims: false,
    }
}

/// What is wrong with an action of these tokens, of which this is known.
fn detail_by(
    alloc: Global,
    file: &str,
    tokens: &[Token<'_>],
    about: &About,
) -> Result<String, AllocError> {
    match about {
        About::Inside(open) => misplaced_text(alloc, role_of(tokens), open_in(*open)),
        About::First(line) => second_text(alloc, file, tokens, *line),
        _ => detail_of(alloc, tokens),
    }
}

/// The message about a second definition in this file whose header has these tokens, and of which the first is on this
/// line.
fn second_text(
    alloc: Global,
    file: &str,
    tokens: &[Token<'_>],
    first: u64,
) -> Result<String, AllocError> {
    let reading = read_action(alloc, tokens)?;
    let name = match &reading {
        Reading::Read(Action::Define(name) | Action::Block(name, _)) => name.as_slice(),
        _ => base_name(file),
    };
    Sentence::new(alloc)
        .say("second definition of ")
        .quote(name)
        .say(", the first in line ")
        .count(first)
        .finish()
}

/// What is wrong, of which this is known.
fn detail_about(alloc: Global, about: &About) -> Result<String, AllocError> {
    match about {
        About::Name(name) => undeclared_text(alloc, name.as_slice()),
        About::LeftOpen(open, count) => left_open(alloc, open_as(*open), *count),
        _ => Ok(String::new(alloc)),
    }
}

/// What is open, if anything is.
fn open_in(open: Option<tmpl_syntax::Open>) -> Option<Open> {
    Some(open_as(open?))
}

/// What is open.
fn open_as(open: tmpl_syntax::Open) -> Open {
    let opening = match open.opening {
        tmpl_syntax::Opening::Control(Control::If) => Opening::If,
        tmpl_syntax::Opening::Control(Control::With) => Opening::With,
        tmpl_syntax::Opening::Control(Control::Range) => Opening::Range,
        tmpl_syntax::Opening::Define => Opening::Define,
        tmpl_syntax::Opening::Block => Opening::Block,
    };
    Open {
        opening,
        line: open.line,
    }
}
