//! The parts of a file, one after the other: a text, and what stands after it.
ghost use Rattle.std.specs.Prelude.{◌≡◌, ◌≤◌, ◌<◌, ◌+◌, ◌^◌, [], IfOk, List, None, Some, false, length, option_map};
ghost use Rattle.tmpl_lex.specs.Begin.{BeginsBy};
ghost use Rattle.tmpl_lex.specs.Part.{IsCutBy, IsLeft, IsLeftAfter, pieces_after, pieces_in};
ghost use Rattle.tmpl_lex.specs.Place.{StandsAt};
ghost use Rattle.tmpl_lex.specs.Text as count;
ghost use Rattle.tmpl_lex.specs.declared.piece.Token as held;
ghost use Rattle.tmpl_lex.specs.computed.Part as computed;
ghost use Rattle.tmpl_lex.specs.computed.Part.{IsEndWithin, ends_at, pieces_of, rest_past, split_open};
ghost use Rattle.tmpl_lex.specs.computed.View.{end_of, opened_of, rest_of};

use crate::action::{Opened, read_opened};
use crate::bytes::split_pair;
use crate::piece::Token;
use crate::text::{newlines, split_leading, trim_end};
use crate::trim::{End, has_left_marker, skip_left_marker};
use std::alloc::AllocError;

/// What is left of a file to be cut.
#[derive(Clone, Copy, Debug)]
pub struct Rest<'b> {
    pub bytes: &'b [u8],
    /// The line of the first byte that is left, counted from 1.
    pub line: u64,
    /// Whether a right trim marker stands before it.
    pub trims: bool,
}

/// What stands after a text, up to the end of an action or a comment, or of the file.
#[derive(Clone, Copy, Debug, PartialEq, Eq)]
pub enum AfterText {
    /// Nothing of the file, or a comment.
    Nothing,
    /// An action whose `{{` is on this line.
    Action(u64),
    /// An action on this line that is not closed or has a place where no token begins.
    Unreadable(u64),
}

/// The first part of what is left of a file.
#[derive(Clone, Copy, Debug)]
pub struct Part<'b> {
    /// The line of the first byte of the text, and how many bytes of the file stand before it.
    pub line: u64,
    pub start: usize,
    /// The text, which may be empty.
    pub text: &'b [u8],
    pub after: AfterText,
    /// How many bytes of the file stand before the `{{` after the text, and all of them where there is none.
    pub opens: usize,
    /// What is left after it, if anything is to be cut there.
    pub rest: Option<Rest<'b>>,
}

impl<'b> Rest<'b> {
    /// The whole of a file.
    pub fn of(file: &'b [u8]) -> Rest<'b>
        ensures bytes { result.bytes.now ≡ file.now }
        ensures line { result.line ≡ 1 }
        ensures trims { result.trims ≡ false }
        ensures left { IsLeft file.now result }
    {
        Rest {
            bytes: file,
            line: 1,
            trims: false,
        }
    }
}

/// Cuts the first part off what is left of a file, and reads the tokens of its action in place of those that were
/// there. What `cut` gives at once, this gives part by part.
///
/// # Errors
///
/// Where memory ran out.
pub fn first_part<'b>(
    file: &'b [u8],
    rest: Rest<'b>,
    tokens: &mut Vec<Token<'b>>,
) -> Result<Part<'b>, AllocError>
    requires { IsLeft file.now rest }
    ensures cuts { IfOk result (λ p. IsCutBy rest.entry (pieces_in tokens.new.items p) p.rest) }
    ensures placed { IfOk result (λ p. StandsAt file.now p.start p.text.now) }
    ensures begins { IfOk result (λ p. BeginsBy file.now rest.entry tokens.new.items p) }
    ensures left { IfOk result (λ p. IsLeftAfter file.now rest.entry p.rest) }
{
    match split_pair(rest.bytes, b'{', b'{') {
        Some((before, after)) => part_before(file, rest, before, after, tokens),
        None => Ok(last_part(file, rest)),
    }
}

/// The part up to the end of what begins with the first `{{`, between these bytes.
fn part_before<'b>(
    file: &'b [u8],
    rest: Rest<'b>,
    before: &'b [u8],
    after: &'b [u8],
    tokens: &mut Vec<Token<'b>>,
) -> Result<Part<'b>, AllocError>
    requires left { IsLeft file.now rest }
    requires first { Some (before.now, after.now) ≡ split_open rest.bytes.now }
    ensures cuts { IfOk result (λ p. IsCutBy rest.entry (pieces_in tokens.new.items p) p.rest) }
    ensures placed { IfOk result (λ p. StandsAt file.now p.start p.text.now) }
    ensures begins { IfOk result (λ p. BeginsBy file.now rest.entry tokens.new.items p) }
    ensures left { IfOk result (λ p. IsLeftAfter file.now rest.entry p.rest) }
{
    let (taken, kept) = split_leading(before, rest.trims);
    let line = rest.line + newlines(taken);
    let start = file.len() - rest.bytes.len() + taken.len();
    let text = trim_end(kept, has_left_marker(after));
    let here = rest.line + newlines(before);
    let opened = read_opened(tokens, skip_left_marker(after))?;
    Ok(Part {
        line,
        start,
        text,
        after: after_of(here, opened),
        opens: file.len() - rest.bytes.len() + before.len(),
        rest: rest_after(after, here, opened),
    })
}

/// The part where there is no `{{` any more.
fn last_part<'b>(file: &'b [u8], rest: Rest<'b>) -> Part<'b>
    requires left { IsLeft file.now rest }
    requires last { None ≡ split_open rest.bytes.now }
    ensures cuts { (tokens : List held.Token) → IsCutBy rest.entry (pieces_in tokens result) result.rest }
    ensures placed { StandsAt file.now result.start result.text.now }
    ensures begins { (tokens : List held.Token) → BeginsBy file.now rest.entry tokens result }
    ensures left { IsLeftAfter file.now rest.entry result.rest }
{
    let (taken, text) = split_leading(rest.bytes, rest.trims);
    Part {
        line: rest.line + newlines(taken),
        start: file.len() - rest.bytes.len() + taken.len(),
        text,
        after: AfterText::Nothing,
        opens: file.len(),
        rest: None,
    }
}

/// What something after a `{{` on this line is.
fn after_of(line: u64, opened: Opened<'_>) -> AfterText
    ensures { (tokens : List held.Token)
        → pieces_after tokens result ≡ pieces_of line (opened_of tokens opened.entry) }
{
    match opened {
        Opened::Comment(_) => AfterText::Nothing,
        Opened::Action(_) => AfterText::Action(line),
        Opened::Neither => AfterText::Unreadable(line),
    }
}

/// What is left after something that these bytes, after a `{{` on this line, begin with.
fn rest_after<'b>(after: &'b [u8], line: u64, opened: Opened<'b>) -> Option<Rest<'b>>
    requires { IsEndWithin after.now line (ends_at (opened_of [] opened)) }
    ensures { (tokens : List held.Token) → option_map rest_of result
        ≡ option_map (rest_past after.now line) (ends_at (opened_of tokens opened.entry)) }
{
    match opened {
        Opened::Comment(end) | Opened::Action(end) => Some(rest_at(after, line, end)),
        Opened::Neither => None,
    }
}

/// What is left after this end.
fn rest_at<'b>(after: &'b [u8], line: u64, end: End<'b>) -> Rest<'b>
    requires within { length end.rest.now ≤ length after.now }
    requires fits { line + count.newlines (computed.stretch after.now end.rest.now) < 2 ^ 64 }
    ensures { rest_of result ≡ rest_past after.now line (end_of end.entry) }
{
    Rest {
        bytes: end.rest,
        line: line + newlines(stretch(after, end.rest)),
        trims: end.trims,
    }
}

/// The bytes that stand before this rest of them.
fn stretch<'b>(bytes: &'b [u8], rest: &[u8]) -> &'b [u8]
    requires { length rest.now ≤ length bytes.now }
    ensures { result.now ≡ computed.stretch bytes.now rest.now }
{
    &bytes[..bytes.len() - rest.len()]
}
