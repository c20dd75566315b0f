//! The text of a render is given only where it is of the format that is asked for.
ghost use Rattle.std.specs.Prelude.{◌≡◌, IfOk, None};
ghost use Rattle.tmpl_tool.specs.Outcome.{Answer};
ghost use Rattle.tmpl_c.specs.Given.{GivesBy, HoldsBy, IsOfNamed};
ghost use Rattle.tmpl_c.specs.Texts.{Holds};

use crate::gathered::Gathered;
use std::alloc::{AllocError, Global};
use tmpl_formats::{Format, Mistake, first_mistake};
use tmpl_hints::Sentence;
use tmpl_syntax::Place;

/// The status of a text that is not of the format.
const NOT_OF_FORMAT: u8 = 8;

/// The line about a name that no format has.
const UNKNOWN: &str = "tmpl: no such format\n";

/// The line about a text that is not of the format of this name: where, and what the format has there.
fn mistake_line(
    alloc: Global,
    name: &[u8],
    text: &[u8],
    mistake: &Mistake,
) -> Result<String, AllocError> {
    let place = Place::first().at(text, mistake.offset.min(text.len()));
    Sentence::new(alloc)
        .say("tmpl: output:")
        .count(place.line)
        .say(":")
        .count(place.column)
        .say(": not ")
        .show(name)
        .say(": expected ")
        .say(mistake.wanted)
        .say("\n")
        .finish()
}

/// The line about a text that is not of the format of this name; none where it is.
fn line_about(alloc: Global, word: &[u8], text: &[u8]) -> Result<Option<String>, AllocError>
    ensures { IfOk result (λ line. line ≡ None → IsOfNamed word.now text.now) }
{
    let Some(format) = Format::named(alloc, word)? else {
        return Ok(Some(String::from_str(alloc, UNKNOWN)?));
    };
    match first_mistake(alloc, &format, text)? {
        None => Ok(None),
        Some(mistake) => Ok(Some(mistake_line(alloc, word, text, &mistake)?)),
    }
}

/// The status of a render whose text and line are gathered, and whose text has to be of the format of this name, if it
/// has bytes. Any other text is not given.
pub(crate) fn give(
    alloc: Global,
    word: &[u8],
    status: u8,
    text: &mut Gathered,
    line: &mut Gathered,
) -> u8
    ensures { (a : Answer) → Holds a text.old.bytes.items line.old.bytes.items status
        → HoldsBy word.now a text.new.bytes.items line.new.bytes.items result }
{
    match word {
        [] => status,
        [_, ..] => give_of(alloc, word, status, text, line),
    }
}

/// The same where a format is asked for.
fn give_of(alloc: Global, word: &[u8], status: u8, text: &mut Gathered, line: &mut Gathered) -> u8
    ensures { (a : Answer) → Holds a text.old.bytes.items line.old.bytes.items status
        → GivesBy word.now a text.new.bytes.items line.new.bytes.items result }
{
    if status != 0 {
        text.bytes.clear();
        return status;
    }
    match line_about(alloc, word, text.bytes.as_slice()) {
        Ok(None) => 0,
        Ok(Some(said)) => {
            text.bytes.clear();
            line.bytes = said.into_bytes();
            NOT_OF_FORMAT
        }
        Err(AllocError) => {
            text.bytes.clear();
            line.bytes.clear();
            7
        }
    }
}
