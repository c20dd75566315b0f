//! All that is wrong in files, as lines.
ghost use Rattle.std.specs.Prelude.{◌≡◌, ◌≢◌, ◌⊎◌, [], IfOk};
ghost use Rattle.tmpl_syntax.specs.computed.Parse.{parsed};
ghost use Rattle.tmpl_c.specs.Checked.{check_status};
ghost use Rattle.tmpl_c.specs.Passed.{pairs_of};
ghost use Rattle.tmpl_c.specs.Texts.{bytes_in};
ghost use Rattle.tmpl_c.specs.computed.Load.{status_after};

use crate::gathered::Gathered;
use crate::passed::File;
use crate::text::Text;
use std::alloc::{AllocError, Global};
use std::str;
use tmpl_engine::{NameHash, Set};
use tmpl_problems::{Findings, Format, Problems, check_file};

/// The first of these problems; all, where 0 are asked for.
fn first_of(problems: Problems, most: usize) -> Problems {
    if most == 0 {
        return problems;
    }
    let Problems {
        mut refused,
        mut beyond,
        left,
    } = problems;
    let before = refused.len().saturating_add(beyond.len());
    refused.truncate(most);
    beyond.truncate(most.saturating_sub(refused.len()));
    let after = refused.len().saturating_add(beyond.len());
    Problems {
        refused,
        beyond,
        left: left.saturating_add(before.saturating_sub(after)),
    }
}

/// Adds the lines of what is wrong in a file, the first of them, and gives the status after it.
fn add_lines(
    alloc: Global,
    status: u8,
    file: &str,
    problems: Problems,
    most: usize,
    lines: &mut Gathered,
) -> Result<u8, AllocError>
    ensures { IfOk result (λ code. code ≡ status_after status problems.refused.items) }
{
    if problems.refused.is_empty() {
        return Ok(status);
    }
    let mut findings = Findings::new(alloc);
    findings.add_problems(file, &first_of(problems, most))?;
    let said = findings.text(alloc, Format::Text)?;
    lines.bytes.extend_from_slice(said.as_bytes())?;
    Ok(4)
}

/// Checks the files one after the other, and adds a line for each of the first errors of each. Gives the status.
fn check_each(
    alloc: Global,
    hash: NameHash,
    files: &[File<'_>],
    most: usize,
    lines: &mut Gathered,
) -> Result<u8, AllocError>
    ensures { IfOk result (λ code. code ≡ check_status parsed (pairs_of files.now)) }
{
    let mut set = Set::with_hash(alloc, hash);
    let mut status = 0;
    for file in files {
        let Ok(name) = str::from_utf8(file.name) else {
            return Ok(2);
        };
        let problems = check_file(alloc, &mut set, hash, name, file.bytes)?;
        status = add_lines(alloc, status, name, problems, most, lines)?;
    }
    Ok(status)
}

/// Checks the files, and gives the status. Where none is refused it says nothing.
fn check_into(
    alloc: Global,
    hash: NameHash,
    files: &[File<'_>],
    most: usize,
    lines: &mut Gathered,
) -> u8
    ensures status { (result ≡ check_status parsed (pairs_of files.now)) ⊎ (result ≡ 7) }
    ensures quiet { result ≢ 4 → lines.new.bytes.items ≡ [] }
{
    match check_each(alloc, hash, files, most, lines) {
        Ok(4) => 4,
        Ok(status) => {
            lines.bytes.clear();
            status
        }
        Err(AllocError) => {
            lines.bytes.clear();
            7
        }
    }
}

/// Does so into a text of the library's own.
pub(crate) fn check_files(
    alloc: Global,
    hash: NameHash,
    files: &[File<'_>],
    most: usize,
    text: &mut Text,
) -> u8
    ensures status { (result ≡ check_status parsed (pairs_of files.now)) ⊎ (result ≡ 7) }
    ensures quiet { result ≢ 4 → bytes_in text.new.held ≡ [] }
{
    let Some(mut lines) = text.take_empty(alloc, 0) else {
        return 7;
    };
    let status = check_into(alloc, hash, files, most, &mut lines);
    text.put(alloc, lines);
    status
}
