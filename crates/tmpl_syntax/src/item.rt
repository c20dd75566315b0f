//! The parts of a file with each action read.
ghost use Rattle.std.specs.Prelude.{◌≡◌, ◌≤◌, ◌++◌, ℕ, IfOk, List, OnOk, length, map};
ghost use Rattle.tmpl_lex.specs.Begin.{BeginsAt};
ghost use Rattle.tmpl_lex.specs.Part.{pieces_after};
ghost use Rattle.tmpl_lex.specs.Piece.{action};
ghost use Rattle.tmpl_lex.specs.Place.{StandsAt};
ghost use Rattle.tmpl_lex.specs.Text.{text_piece};
ghost use Rattle.tmpl_lex.specs.View.{token_of};
ghost use Rattle.tmpl_grammar.specs.computed.View.{action_reading};
ghost use Rattle.tmpl_syntax.specs.computed.Begun.{AllFrom, BeginsThere, IsBegun};
ghost use Rattle.tmpl_syntax.specs.computed.View.{item_kind, item_of};
ghost use Rattle.tmpl_syntax.specs.computed.Item.{item_in, items_in, read_item};
ghost use Rattle.tmpl_syntax.specs.computed.Parse.{items_of};

use crate::text::Text;
use std::alloc::{AllocError, Global};
use std::sync::Arc;
use tmpl_grammar::{Action, Branch, Reading, read_action};
use tmpl_lex::{AfterText, Part, Rest, Token, first_part};
use tmpl_values::Bytes;

/// A piece of a file, with its line and how many bytes of the file stand before it.
#[derive(Drop)]
pub(crate) struct Item {
    pub(crate) line: u64,
    pub(crate) start: usize,
    pub(crate) what: ItemKind,
}

/// What a piece of a file is.
#[derive(Drop)]
pub(crate) enum ItemKind {
    Text(Text),
    /// An action that is not closed, or that has a place where no token begins.
    Unreadable,
    /// An action whose tokens have no reading.
    Unread,
    /// An action whose parentheses nest deeper than 100; of an else branch its control.
    TooDeep(Option<Branch>),
    Action(Action),
}

/// The items of a file with these contents, of which each part is read as it is cut.
#[tactic(auto, using(crate::proofs::ItemLemmas::none_so_far))]
pub(crate) fn read_all(alloc: Global, contents: &Arc<Bytes>) -> Result<Vec<Item>, AllocError>
    requires { length contents.now.value ≤ 16777216 }
    ensures items { IfOk result (λ v. map item_of v.items ≡ items_of contents.now.value) }
    ensures begins { IfOk result (λ v. AllFrom (IsBegun contents.now.value) 0 v.items) }
{
    let file = contents.as_slice();
    let mut items = Vec::new(alloc);
    let mut tokens = Vec::new(alloc);
    let mut rest = Rest::of(file);
    loop {
        let part = first_part(file, rest, &mut tokens)?;
        push_text(contents, &mut items, &part)?;
        push_after(alloc, &mut items, tokens.as_slice(), part.after, part.opens)?;
        match part.rest {
            Some(next) => rest = next,
            None => return Ok(items),
        }
    }
}

/// Adds the text of a part of a file with these contents, unless it is empty.
fn push_text(
    contents: &Arc<Bytes>,
    items: &mut Vec<Item>,
    part: &Part<'_>,
) -> Result<(), AllocError>
    requires placed { StandsAt contents.now.value part.now.start part.now.text.now }
    requires within { length contents.now.value ≤ 16777216 }
    ensures items { OnOk result (map item_of items.new.items
        ≡ map item_of items.old.items ++ items_in (text_piece part.now.line part.now.text.now)) }
    ensures begins { (file : List ℕ) → AllFrom (IsBegun file) 0 items.old.items
        → OnOk result (AllFrom (IsBegun file) 0 items.new.items) }
{
    if !part.text.is_empty() {
        items.push(Item {
            line: part.line,
            start: part.start,
            what: ItemKind::Text(Text::new(contents, part.start, part.text)?),
        })?;
    }
    Ok(())
}

/// Adds what stands after a text, with these tokens and after this many bytes, unless it is nothing.
fn push_after(
    alloc: Global,
    items: &mut Vec<Item>,
    tokens: &[Token<'_>],
    after: AfterText,
    start: usize,
) -> Result<(), AllocError>
    ensures items { OnOk result (map item_of items.new.items
        ≡ map item_of items.old.items ++ items_in (pieces_after tokens.now after)) }
    ensures begins { (file : List ℕ) → BeginsThere file after (length items.old.items) start
        → AllFrom (IsBegun file) 0 items.old.items → OnOk result (AllFrom (IsBegun file) 0 items.new.items) }
{
    match after {
        AfterText::Nothing => Ok(()),
        AfterText::Action(line) => Ok(items.push(action_item(alloc, line, start, tokens)?)?),
        AfterText::Unreadable(line) => Ok(items.push(Item {
            line,
            start,
            what: ItemKind::Unreadable,
        })?),
    }
}

/// The item of an action with these tokens, on this line and after this many bytes.
fn action_item(
    alloc: Global,
    line: u64,
    start: usize,
    tokens: &[Token<'_>],
) -> Result<Item, AllocError>
    ensures item { IfOk result (λ x. item_of x ≡ item_in (action line (map token_of tokens.now))) }
    ensures begins { IfOk result (λ x. (file : List ℕ) (place : ℕ) → BeginsAt file place start
        → IsBegun file place x) }
{
    let what = item_read(read_action(alloc, tokens)?);
    Ok(Item { line, start, what })
}

/// What an action is that was read so.
pub(crate) fn item_read(reading: Reading) -> ItemKind
    ensures { item_kind result ≡ read_item (action_reading reading) }
{
    match reading {
        Reading::Unread => ItemKind::Unread,
        Reading::TooDeep(branch) => ItemKind::TooDeep(branch),
        Reading::Read(action) => ItemKind::Action(action),
    }
}
