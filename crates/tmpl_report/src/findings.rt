//! What is found.
ghost use Rattle.std.specs.Prelude.{◌≡◌, List, ◌++◌, false, IfOk, OnOk};
ghost use Rattle.std.specs.Option.{option_map};
ghost use Rattle.serde_json.specs.View.{view};
ghost use Rattle.tmpl_problems.specs.Errors.{AreOfData, errors_in};
ghost use Rattle.tmpl_problems.specs.Finding.{Finding, has_error};
ghost use Rattle.tmpl_report.specs.Errors.{AreErrors};
ghost use Rattle.tmpl_report.specs.Rendered.{IsValued};
ghost use Rattle.tmpl_report.specs.Safe.{IsSafe};
ghost use Rattle.tmpl_report.specs.computed.Added.{AreFound, schema_document};

use crate::Result;
use crate::output::add_output;
use crate::schema::add_schema;
use crate::source::{Question, Sources};
use crate::values::add_values;
use serde_json::Value;
use std::alloc::{AllocError, Global};
use tmpl_problems::Findings;
use tmpl_syntax::{NameHash, Set};

/// What is found in template files, in the order of the files, in the schema, and then in data: errors, and what is
/// suspicious. Where all files are accepted, the template that is asked for is checked against the schema. Names are
/// hashed as is said.
///
/// The errors are, file by file, what `check_file` reports of it: the first 1,000 of what is refused and found beyond; then
/// those of the schema, of which there are none where none is given or a file has an error; then those of the data, of
/// which there are none exactly where it has a value; then where the data does not conform to the schema, or, if none is
/// given and nothing else is wrong, the fault of the run over the data; then, if a format is asked for and nothing else is
/// wrong, where the output is not of it. Where no error is found all files are accepted,
/// the data has a value, and, where no file is missing, no data of the schema makes the template fail, as
/// `check_document` says it; the data conforms to the schema, unless that has a `pattern` or a `format`; and without a
/// schema the run over the data has no fault, unless a warning says that it met a limit.
///
/// # Errors
///
/// Where memory ran out.
pub fn findings_of<'a>(
    alloc: Global,
    hash: NameHash,
    question: &Question<'a>,
    sources: &Sources<'a>,
) -> Result<Findings<'a>, AllocError>
    ensures safe { IfOk result (λ found. has_error found ≡ false → IsSafe question.now sources.now) }
    ensures matches_spec { IfOk result (λ found. AreErrors question.now sources.now (errors_in found)) }
    ensures values { IfOk result (λ found. has_error found ≡ false → IsValued question.now sources.now found) }
{
    let document = sources.document(alloc)?;
    let mut findings = findings_in(alloc, hash, question, sources, document.as_ref())?;
    add_output(hash, &mut findings, question, sources, document.as_ref())?;
    Ok(findings)
}

/// The same, whatever the output is of, where this is the document of the schema.
fn findings_in<'a>(
    alloc: Global,
    hash: NameHash,
    question: &Question<'a>,
    sources: &Sources<'a>,
    document: Option<&Value>,
) -> Result<Findings<'a>>
    requires { option_map (λ d. view d.now) document ≡ schema_document sources.now }
    ensures { IfOk result (λ found. AreFound question.now sources.now found) }
{
    let mut findings = Findings::new(alloc);
    let mut set = Set::with_hash(alloc, hash);
    let files = sources.templates.as_slice();
    findings.add_files(hash, question.first, question.name, files, &mut set)?;
    add_schema(&mut findings, &set, question, sources, document)?;
    add_given(&mut findings, sources)?;
    add_values(&mut findings, &set, question, sources, document)?;
    Ok(findings)
}

/// Adds what is wrong in the data, if there is some.
fn add_given<'a>(findings: &mut Findings<'a>, sources: &Sources<'a>) -> Result<()>
    ensures { OnOk result ((errors : List Finding) × AreOfData sources.now.«data» errors
        × (errors_in findings.new ≡ errors_in findings.old ++ errors)) }
{
    match &sources.data {
        Some(data) => {
            findings.add_data(data)?;
            Ok(())
        }
        None => Ok(()),
    }
}
