//! The cut of a file into pieces.
ghost use Rattle.std.specs.Prelude.{◌≡◌, ◌++◌, ℕ, All, IfOk, OnOk, List, false, map};
ghost use Rattle.tmpl_lex.specs.View.{piece_of};
ghost use Rattle.tmpl_lex.specs.Cut as spec;
ghost use Rattle.tmpl_lex.specs.Part.{pieces_after, pieces_in};
ghost use Rattle.tmpl_lex.specs.computed.Cut as computed;
ghost use Rattle.tmpl_lex.specs.Place.{IsPlaced, StandsAt};
ghost use Rattle.tmpl_lex.specs.Text.{text_piece};

use crate::part::{AfterText, Part, Rest, first_part};
use crate::piece::{Piece, Token};
use std::alloc::{AllocError, Global};

/// The pieces of a file in order: its texts and its actions, each with its line, counted from 1.
/// Actions stand between `{{` and `}}`, and all other bytes are text (the overview in the
/// documentation of Go's text/template), also those that are not UTF-8 (our own rule). Comments are
/// dropped, and trim markers take the white space of the text directly beside them ("Text and
/// spaces"). A text that is then empty is no piece. An unreadable action can only be last. Nothing
/// is copied.
///
/// # Errors
///
/// Where memory ran out.
#[tactic(auto, using(crate::proofs::CutLemmas::laws))]
pub fn cut(alloc: Global, bytes: &[u8]) -> Result<Vec<Piece<'_>>, AllocError>
    ensures cuts { IfOk result (λ v. spec.Cuts false 1 bytes.now (map piece_of v.items)) }
    ensures value { IfOk result (λ v. map piece_of v.items ≡ computed.cut_of bytes.now) }
    ensures placed { IfOk result (λ v. All (IsPlaced bytes.now) v.items) }
{
    let mut pieces = Vec::new(alloc);
    let mut tokens = Vec::new(alloc);
    let mut rest = Rest::of(bytes);
    loop {
        let part = first_part(bytes, rest, &mut tokens)?;
        push_part(alloc, &mut pieces, tokens.as_slice(), part)?;
        match part.rest {
            Some(next) => rest = next,
            None => return Ok(pieces),
        }
    }
}

/// Adds the pieces of a part with these tokens.
fn push_part<'b>(
    alloc: Global,
    pieces: &mut Vec<Piece<'b>>,
    tokens: &[Token<'b>],
    part: Part<'b>,
) -> Result<(), AllocError>
    ensures pieces { OnOk result (map piece_of pieces.new.items
        ≡ map piece_of pieces.old.items ++ pieces_in tokens.now part.entry) }
    ensures placed { (file : List ℕ) → StandsAt file part.entry.start part.entry.text.now
        → All (IsPlaced file) pieces.old.items → OnOk result (All (IsPlaced file) pieces.new.items) }
{
    push_text(pieces, part.line, part.start, part.text)?;
    push_after(alloc, pieces, tokens, part.after)
}

/// Adds a text, unless it is empty.
fn push_text<'b>(
    pieces: &mut Vec<Piece<'b>>,
    line: u64,
    start: usize,
    bytes: &'b [u8],
) -> Result<(), AllocError>
    ensures pieces { OnOk result (map piece_of pieces.new.items
        ≡ map piece_of pieces.old.items ++ text_piece line bytes.now) }
    ensures placed { (file : List ℕ) → StandsAt file start bytes.now → All (IsPlaced file) pieces.old.items
        → OnOk result (All (IsPlaced file) pieces.new.items) }
{
    if !bytes.is_empty() {
        pieces.push(Piece::Text { line, start, bytes })?;
    }
    Ok(())
}

/// Adds what stands after a text, with a copy of its tokens, unless it is nothing.
fn push_after<'b>(
    alloc: Global,
    pieces: &mut Vec<Piece<'b>>,
    tokens: &[Token<'b>],
    after: AfterText,
) -> Result<(), AllocError>
    ensures pieces { OnOk result (map piece_of pieces.new.items
        ≡ map piece_of pieces.old.items ++ pieces_after tokens.now after) }
    ensures placed { (file : List ℕ) → All (IsPlaced file) pieces.old.items
        → OnOk result (All (IsPlaced file) pieces.new.items) }
{
    match after {
        AfterText::Nothing => Ok(()),
        AfterText::Action(line) => {
            let tokens = tokens.to_vec(alloc)?;
            Ok(pieces.push(Piece::Action { line, tokens })?)
        }
        AfterText::Unreadable(line) => Ok(pieces.push(Piece::Unreadable { line })?),
    }
}
