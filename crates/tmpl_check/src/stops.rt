//! The templates that are called to end a run.

use crate::stop::Stop;
use std::alloc::Global;
use std::str::from_utf8;
use tmpl_problems::{Source, survey_file};
use tmpl_report::Question;
use tmpl_syntax::NameHash;

/// How the name of a template begins that is not there so that its call ends the run.
const STOP: &str = "stop: ";

/// The question with those templates among the stops that template files call by such names.
pub(crate) fn with_stops<'q>(
    alloc: Global,
    hash: NameHash,
    asked: &Question<'q>,
    files: &'q [Source<'q>],
) -> Result<Question<'q>, Stop> {
    let mut stops: Vec<&'q str> = Vec::new(alloc);
    for stop in asked.stops.as_slice() {
        stops.push(*stop)?;
    }
    for file in files {
        let survey = survey_file(alloc, hash, file.bytes.as_slice())?;
        for call in survey.called.as_slice() {
            match from_utf8(call.name) {
                Ok(name) if name.starts_with(STOP) => stops.push(name)?,
                _ => {}
            }
        }
    }
    Ok(Question {
        first: asked.first,
        name: asked.name,
        mode: asked.mode,
        stops,
        is_searched: asked.is_searched,
        writes: asked.writes,
    })
}
