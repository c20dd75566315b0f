//! Whether what a template writes is of a format.
ghost use Rattle.std.specs.Prelude.{OnOk};
ghost use Rattle.tmpl_report.specs.computed.Added.{AddsBroken, AddsOfOutput};

mod message;
mod render;
mod schema;
mod spread;
mod strings;

use crate::Result;
use crate::output::message::broken_finding;
use crate::output::render::Writer;
use crate::output::schema::add_over_schema;
use crate::output::spread::add_file;
use crate::source::{Question, Sources, Task};
use serde_json::Value;
use std::alloc::{AllocError, Global};
use tmpl_engine::{Data, DataFault, Renderer};
use tmpl_formats::Format;
use tmpl_problems::{Findings, Source};
use tmpl_syntax::{NameHash, Set};

/// Adds where the output ceases to be of the format that is asked for, if one is and nothing else is wrong: over the data
/// that is given, or else over data of the document of the schema that are found.
pub(crate) fn add_output<'a>(
    hash: NameHash,
    findings: &mut Findings<'a>,
    question: &Question<'a>,
    sources: &Sources<'a>,
    document: Option<&Value>,
) -> Result<()>
    ensures { OnOk result (AddsOfOutput question.now findings.old findings.new) }
{
    let Some(word) = question.writes else {
        return Ok(());
    };
    if findings.has_errors() {
        return Ok(());
    }
    match question.first {
        Some(first) => add_written(hash, findings, question, sources, document, word, first),
        None => Ok(()),
    }
}

/// The same where a format and files are given, and nothing is wrong.
fn add_written<'a>(
    hash: NameHash,
    findings: &mut Findings<'a>,
    question: &Question<'a>,
    sources: &Sources<'a>,
    document: Option<&Value>,
    word: &str,
    first: &'a str,
) -> Result<()>
    ensures { OnOk result (AddsBroken findings.old findings.new) }
{
    let alloc = findings.alloc;
    let Some(format) = Format::named(alloc, word.as_bytes())? else {
        return Ok(());
    };
    let Some(set) = set_of(alloc, hash, sources)? else {
        return Ok(());
    };
    let task = Task {
        alloc,
        set: &set,
        question,
        sources,
        first,
    };
    match (&sources.data, document) {
        (Some(data), _) => add_over_data(&task, findings, data, &format),
        (None, Some(document)) => add_over_schema(&task, findings, document, &format),
        (None, None) => Ok(()),
    }
}

/// Adds where the output over the data ceases to be of the format.
fn add_over_data<'t, 'a>(
    task: &Task<'t, 'a>,
    findings: &mut Findings<'a>,
    data: &Source<'a>,
    format: &'t Format,
) -> Result<()>
    ensures { OnOk result (AddsBroken findings.old findings.new) }
{
    let tree = match Data::from_json(task.alloc, data.bytes.as_slice()) {
        Ok(tree) => tree,
        Err(DataFault::OutOfMemory) => return Err(AllocError),
        Err(_) => return Ok(()),
    };
    let renderer = Renderer::new(task.alloc, task.set)?;
    let writer = Writer::new(task, &renderer, format);
    let Some(broken) = writer.broken_over(&tree)? else {
        return Ok(());
    };
    let found = writer.found(&tree, &broken, "writes no ", None)?;
    let finding = broken_finding(task, found);
    findings.add(finding)
}

/// The templates of the files; none where one is not accepted, or is missing.
fn set_of(alloc: Global, hash: NameHash, sources: &Sources<'_>) -> Result<Option<Set>> {
    if sources.is_short {
        return Ok(None);
    }
    let mut set = Set::with_hash(alloc, hash);
    for file in sources.templates.as_slice() {
        if !add_file(alloc, &mut set, file.name, file.bytes.as_slice())? {
            return Ok(None);
        }
    }
    Ok(Some(set))
}
