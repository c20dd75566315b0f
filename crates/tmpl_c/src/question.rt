//! A check of templates over all data of a JSON Schema.
ghost use Rattle.std.specs.Prelude.{◌≡◌, ◌⊎◌, [], IfOk, map, if◌then◌else◌};
ghost use Rattle.tmpl_syntax.specs.Parse.{base_name};
ghost use Rattle.tmpl_problems.specs.Finding.{has_error};
ghost use Rattle.tmpl_c.specs.Passed.{pair_of, pairs_of};
ghost use Rattle.tmpl_c.specs.Question.{Answers, Reports, first_name, format_asked, mode_asked, stops_asked};
ghost use Rattle.tmpl_c.specs.Texts.{bytes_in};
ghost use Rattle.tmpl_c.specs.computed.Question.{AreGiven, IsAsked, IsNamed, pair_in};

use crate::gathered::Gathered;
use crate::passed::{File, Name, Question};
use crate::text::Text;
use std::alloc::{AllocError, AllocFailed, Global};
use std::str::from_utf8;
use tmpl_engine::{MissingKey, NameHash};
use tmpl_problems::{Findings, Format, Source};
use tmpl_report::{self as report, Sources, findings_of};

/// Why there is no answer.
enum Stop {
    /// A name is not UTF-8.
    NotText,
    OutOfMemory,
}

impl From<AllocError> for Stop {
    fn from(_: AllocError) -> Stop {
        Stop::OutOfMemory
    }
}

impl<T: Drop> From<AllocFailed<T>> for Stop {
    fn from(_: AllocFailed<T>) -> Stop {
        Stop::OutOfMemory
    }
}

impl Stop {
    /// The status that says so.
    fn status(self) -> u8
        ensures { (result ≡ 2) ⊎ (result ≡ 7) }
    {
        match self {
            Stop::NotText => 2,
            Stop::OutOfMemory => 7,
        }
    }
}

/// The mode for missing keys that has this number; none for each of them.
fn mode_asked(number: u8) -> Option<MissingKey>
    ensures { result ≡ mode_asked number }
{
    match number {
        1 => Some(MissingKey::Default),
        2 => Some(MissingKey::Invalid),
        3 => Some(MissingKey::Zero),
        4 => Some(MissingKey::Error),
        _ => None,
    }
}

/// The form of the findings that has this number.
fn format_asked(number: u8) -> Format
    ensures { result ≡ format_asked number }
{
    match number {
        1 => Format::Json,
        2 => Format::Sarif,
        _ => Format::Text,
    }
}

/// A name as a string.
fn text_of<'a>(name: &'a [u8]) -> Result<&'a str, Stop>
    ensures { IfOk result (λ text. text.now ≡ name.now) }
{
    match from_utf8(name) {
        Ok(text) => Ok(text),
        Err(_) => Err(Stop::NotText),
    }
}

/// A file as the check takes it.
fn source_of<'a>(alloc: Global, file: &File<'a>) -> Result<Source<'a>, Stop>
    ensures { IfOk result (λ source. pair_in source ≡ pair_of file.now) }
{
    let name = text_of(file.name)?;
    let bytes = Vec::from_slice(alloc, file.bytes)?;
    Ok(Source {
        name,
        bytes,
        is_library: false,
    })
}

/// The template files.
fn templates_of<'a>(alloc: Global, files: &[File<'a>]) -> Result<Vec<Source<'a>>, Stop>
    ensures { IfOk result (λ sources. map pair_in sources.items ≡ pairs_of files.now) }
{
    let mut sources = Vec::new(alloc);
    for file in files {
        sources.push(source_of(alloc, file)?)?;
    }
    Ok(sources)
}

/// The names of templates that may be missing.
fn stops_of<'a>(alloc: Global, names: &[Name<'a>]) -> Result<Vec<&'a str>, Stop>
    ensures { IfOk result (λ stops. map (λ s. s.now) stops.items ≡ stops_asked names.now) }
{
    let mut stops = Vec::new(alloc);
    for name in names {
        stops.push(text_of(name.bytes)?)?;
    }
    Ok(stops)
}

/// The files and the schema.
fn sources_of<'a>(
    alloc: Global,
    files: &[File<'a>],
    question: &Question<'a>,
) -> Result<Sources<'a>, Stop>
    ensures { IfOk result (λ sources. AreGiven files.now question.now sources) }
{
    Ok(Sources {
        templates: templates_of(alloc, files)?,
        data: None,
        schema: Some(source_of(alloc, &question.schema)?),
        is_short: false,
    })
}

/// The name of the template that is rendered, where one is named.
fn name_given<'a>(name: &'a [u8]) -> Result<Option<&'a str>, Stop>
    ensures { IfOk result (λ given. IsNamed name.now given) }
{
    if name.is_empty() {
        return Ok(None);
    }
    Ok(Some(text_of(name)?))
}

/// The name of the first file; empty where there is none.
fn first_of<'a>(files: &[File<'a>]) -> Result<&'a str, Stop>
    ensures { IfOk result (λ first. base_name first.now ≡ first_name (pairs_of files.now)) }
{
    match files.first() {
        Some(file) => text_of(file.name),
        None => Ok(""),
    }
}

/// What is asked, as the check takes it.
fn asked_of<'a>(
    alloc: Global,
    files: &[File<'a>],
    question: &Question<'a>,
) -> Result<report::Question<'a>, Stop>
    ensures { IfOk result (λ asked. IsAsked files.now question.now asked) }
{
    Ok(report::Question {
        first: Some(first_of(files)?),
        name: name_given(question.name)?,
        mode: mode_asked(question.mode),
        stops: stops_of(alloc, question.stops)?,
        is_searched: true,
        writes: None,
    })
}

/// The status of findings: 4 where one is an error.
fn status_of(findings: &Findings<'_>) -> u8
    ensures { result ≡ (if has_error findings.now then 4 else 0) }
{
    if findings.has_errors() { 4 } else { 0 }
}

/// Adds the findings to lines, which are empty. The status.
fn report_into(
    alloc: Global,
    hash: NameHash,
    files: &[File<'_>],
    question: &Question<'_>,
    lines: &mut Gathered,
) -> Result<u8, Stop>
    requires { lines.now.bytes.items ≡ [] }
    ensures { IfOk result (λ code. Reports (pairs_of files.now) question.now lines.new.bytes.items code) }
{
    let sources = sources_of(alloc, files, question)?;
    let asked = asked_of(alloc, files, question)?;
    let findings = findings_of(alloc, hash, &asked, &sources)?;
    let text = findings.text(alloc, format_asked(question.format))?;
    lines.bytes.extend_from_slice(text.as_bytes())?;
    Ok(status_of(&findings))
}

/// Puts the findings into a text of the library's own. The status.
pub(crate) fn check_schema(
    alloc: Global,
    hash: NameHash,
    files: &[File<'_>],
    question: &Question<'_>,
    text: &mut Text,
) -> u8
    ensures { Answers (pairs_of files.now) question.now (bytes_in text.new.held) result }
{
    let Some(mut lines) = text.take_empty(alloc, 0) else {
        return 7;
    };
    let status = match report_into(alloc, hash, files, question, &mut lines) {
        Ok(status) => status,
        Err(stop) => {
            lines.bytes.clear();
            stop.status()
        }
    };
    text.put(alloc, lines);
    status
}
