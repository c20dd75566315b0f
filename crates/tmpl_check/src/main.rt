//! The command `tmpl-check`: reports every error in template files and data, where it is, and what to write instead.
#![tactic(auto)]

ghost use Rattle.std.specs.Prelude.{◌≡◌, ◌==◌, ◌&&◌, ◌||◌, if◌then◌else◌, length, not};
ghost use Rattle.tmpl_problems.specs.Finding.{has_error};

mod build;
mod files;
mod stop;
mod stops;
mod words;

use crate::build::version_line;
use crate::files::{load, load_all, name_hash};
use crate::stop::Stop;
use crate::stops::with_stops;
use crate::words::{Request, command, request_of};
use clap::error::ErrorKind;
use std::alloc::{AllocError, Global};
use std::env;
use std::io::{ErrorKind as IoErrorKind, Write};
use std::process::ExitCode;
use tmpl_formats::Format as Written;
use tmpl_problems::{Findings, Format, Source};
use tmpl_report::{Inferred, Sources, findings_of, infer_from};

/// Runs the command over the file system and the standard streams.
fn main(rt: HostRuntime) -> ExitCode {
    match run(&rt) {
        Ok(code) => ExitCode::from(code),
        Err(Stop::OutOfMemory) => {
            let _ = eprintln!(rt; "tmpl-check: out of memory");
            ExitCode::from(7)
        }
        Err(Stop::WriteFailed) => {
            let _ = eprintln!(rt; "tmpl-check: write failed");
            ExitCode::from(6)
        }
        Err(Stop::Words) => {
            let _ = eprintln!(rt; "tmpl-check: arguments refused; see tmpl-check --help");
            ExitCode::from(2)
        }
    }
}

/// Reads the words and does what they ask for.
fn run(rt: &HostRuntime) -> Result<u8, Stop> {
    let alloc = rt.alloc();
    let words: Vec<String> = match env::args(rt) {
        Ok(words) => words.collect(alloc)?,
        Err(error) if error.kind() == IoErrorKind::OutOfMemory => return Err(Stop::OutOfMemory),
        Err(_) => return Err(Stop::Words),
    };
    match command(alloc)?.try_get_matches_from(words.as_slice()) {
        Ok(matches) => {
            let request = request_of(alloc, &matches)?;
            check(rt, &request)
        }
        Err(error) if error.kind() == ErrorKind::OutOfMemory => Err(Stop::OutOfMemory),
        Err(error) if error.kind() == ErrorKind::DisplayVersion => {
            write_all(rt, version_line(rt)?.as_str())?;
            Ok(0)
        }
        // where no message can be written, the exit status still says it
        Err(error) if error.use_stderr() => {
            let _ = error.print(rt);
            Ok(2)
        }
        Err(error) => match error.print(rt) {
            Ok(()) => Ok(0),
            Err(_) => Err(Stop::WriteFailed),
        },
    }
}

/// Checks the files of a request, and prints what is found.
fn check(rt: &HostRuntime, request: &Request<'_>) -> Result<u8, Stop> {
    if request.is_to_infer {
        return infer(rt, request);
    }
    if !can_look_at_output(rt.alloc(), request)? {
        return Err(Stop::Words);
    }
    let sources = load_all(rt, request)?;
    check_over(rt, request, &sources)
}

/// Checks files that were read, and prints what is found.
fn check_over<'x>(
    rt: &HostRuntime,
    request: &'x Request<'x>,
    sources: &'x Sources<'x>,
) -> Result<u8, Stop> {
    let hash = name_hash(rt);
    let question = with_stops(rt.alloc(), hash, &request.question, called_in(sources))?;
    let findings = findings_of(rt.alloc(), hash, &question, sources)?;
    put_out(rt, request.format, &findings)?;
    Ok(status_of(sources, &findings, request.is_strict))
}

/// The template files whose calls of stops count: all where there is a schema, else none.
fn called_in<'x>(sources: &'x Sources<'x>) -> &'x [Source<'x>] {
    match &sources.schema {
        Some(_) => sources.templates.as_slice(),
        None => &[],
    }
}

/// Whether the name of the format is one, and there is something to render over; so too where none is asked for.
fn can_look_at_output(alloc: Global, request: &Request<'_>) -> Result<bool, AllocError> {
    match request.question.writes {
        Some(word) => {
            let is_over = request.data_file.is_some() || request.schema_file.is_some();
            Ok(is_over && Written::named(alloc, word.as_bytes())?.is_some())
        }
        None => Ok(true),
    }
}

/// The status: 3 where a file could not be read, else 1 where errors are found, or anything where that is asked for,
/// else 0.
fn status_of(sources: &Sources<'_>, findings: &Findings<'_>, is_strict: bool) -> u8
    ensures { result ≡ (if sources.now.is_short then 3
        else (if has_error findings.now || (is_strict && not (length findings.now == 0)) then 1 else 0)) }
{
    if sources.is_short {
        3
    } else if findings.has_errors() || (is_strict && !findings.is_empty()) {
        1
    } else {
        0
    }
}

/// Prints a schema of the files of a request, or what is wrong in them.
fn infer(rt: &HostRuntime, request: &Request<'_>) -> Result<u8, Stop> {
    let mut sources = Vec::new(rt.alloc());
    let mut is_short = false;
    for name in request.files.as_slice() {
        match load(rt, *name, u64::MAX)? {
            Some(source) => sources.push(source)?,
            None => is_short = true,
        }
    }
    match infer_from(rt.alloc(), sources.as_slice(), request.maps.as_slice())? {
        Inferred::Schema(mut schema) if !is_short => {
            schema.push('\n')?;
            write_all(rt, schema.as_str())?;
            Ok(0)
        }
        Inferred::Schema(_) => {
            put_out(rt, request.format, &Findings::new(rt.alloc()))?;
            Ok(3)
        }
        Inferred::Refused(findings) => {
            put_out(rt, request.format, &findings)?;
            Ok(if is_short { 3 } else { 1 })
        }
    }
}

/// Prints what is found.
fn put_out(rt: &HostRuntime, format: Format, findings: &Findings<'_>) -> Result<(), Stop> {
    write_all(rt, findings.text(rt.alloc(), format)?.as_str())
}

/// Writes a text to the standard output.
fn write_all(rt: &HostRuntime, text: &str) -> Result<(), Stop> {
    let mut out = rt.stdout();
    match out.write_all(text.as_bytes()) {
        Ok(()) => {}
        Err(_) => return Err(Stop::WriteFailed),
    }
    match out.flush() {
        Ok(()) => Ok(()),
        Err(_) => Err(Stop::WriteFailed),
    }
}
