//! What is reported of an output that is not of a format.
ghost use Rattle.tmpl_report.specs.Errors.{IsNotOfFormat};

use crate::Result;
use crate::output::render::{Broken, Writer};
use crate::output::spread::Origin;
use crate::source::Task;
use std::alloc::Global;
use tmpl_engine::Data;
use tmpl_hints::Sentence;
use tmpl_problems::Finding;
use tmpl_problems::rule::NOT_OF_FORMAT;
use tmpl_syntax::Place;

/// How many bytes of the output are shown before a mistake, and after it.
const BEFORE: usize = 60;

const AFTER: usize = 20;

/// What is found of an output that is not of a format.
#[derive(Drop)]
pub(super) struct Found<'a> {
    pub(super) origin: Option<Origin<'a>>,
    text: String,
    note: String,
}

impl<'a> Writer<'_, '_, 'a> {
    /// What is found of the output over data: in these words, and for the data of this text, where they are not given.
    pub(super) fn found(
        &self,
        tree: &Data,
        broken: &Broken,
        words: &str,
        data: Option<&str>,
    ) -> Result<Found<'a>> {
        Ok(Found {
            origin: self.origin_of(tree, broken.mistake.offset)?,
            text: broken_text(&self.task, words, broken)?,
            note: shown_text(self.task.alloc, broken, data)?,
        })
    }
}

/// The message: that an output is of no such format, and what the format has where it ceases to be.
fn broken_text(task: &Task<'_, '_>, words: &str, broken: &Broken) -> Result<String> {
    let output = broken.output.as_slice();
    let place = Place::first().at(output, broken.mistake.offset.min(output.len()));
    Sentence::new(task.alloc)
        .say(words)
        .say(task.question.writes.unwrap_or(""))
        .say(": expected ")
        .say(broken.mistake.wanted)
        .say(" at output:")
        .count(place.line)
        .say(":")
        .count(place.column)
        .finish()
}

/// The output around a mistake, and the data for which it is written, where they are not those that are given.
fn shown_text(alloc: Global, broken: &Broken, data: Option<&str>) -> Result<String> {
    let output = broken.output.as_slice();
    let offset = broken.mistake.offset.min(output.len());
    let begin = offset.saturating_sub(BEFORE);
    let end = offset.saturating_add(AFTER).min(output.len());
    let said = Sentence::new(alloc)
        .say("writes ")
        .say(if begin > 0 { ".." } else { "" })
        .quote(output.get(begin..end).unwrap_or(&[]))
        .say(if end < output.len() { ".." } else { "" });
    match data {
        Some(data) => said.say(" for ").say(data).finish(),
        None => said.finish(),
    }
}

/// What is reported of the action that wrote it; the first line and column, where it is not known.
pub(super) fn broken_finding<'a>(task: &Task<'_, 'a>, broken: Found<'a>) -> Finding<'a>
    ensures { IsNotOfFormat result }
{
    let Found { origin, text, note } = broken;
    let found = origin.and_then(|o| task.sources.place(o.file.as_bytes(), o.start));
    let (file, place) = found.unwrap_or((task.first, Place::first()));
    let mut finding = Finding::error(file, (place.line, place.column), NOT_OF_FORMAT, text);
    finding.note = Some(note);
    finding
}
