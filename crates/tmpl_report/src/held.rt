//! Whether the data conforms to the schema, and where it does not.
ghost use Rattle.std.specs.Prelude.{◌≡◌, OnOk, false, true};
ghost use Rattle.std.specs.Option.{option_map};
ghost use Rattle.serde_json.specs.View.{view};
ghost use Rattle.tmpl_json_schema.specs.Document.{document_of};
ghost use Rattle.tmpl_problems.specs.Finding.{has_error};
ghost use Rattle.tmpl_report.specs.Rendered.{IsHeldTo, IsInside, Mentions};
ghost use Rattle.tmpl_report.specs.computed.Added.{AddsUnfit};

use crate::Result;
use serde_json::Value;
use std::alloc::{AllocError, Global};
use tmpl_hints::Sentence;
use tmpl_json_schema::{SchemaFault, Violation, conforms_to, read_schema, violations_of};
use tmpl_problems::rule::DOES_NOT_CONFORM;
use tmpl_problems::{Finding, Findings, Source, line_of, position_of};

/// The most places that are reported.
const MOST: usize = 100;

/// Adds where the data does not conform to the schema, of which this is the document, if both are read.
pub(crate) fn add_held<'a>(
    findings: &mut Findings<'a>,
    schema: &Source<'a>,
    document: Option<&Value>,
    data: &Source<'a>,
) -> Result<()>
    requires { option_map (λ d. view d.now) document ≡ document_of schema.now.bytes.items }
    ensures held { OnOk result (has_error findings.new ≡ false → IsHeldTo schema.now «data».now) }
    ensures told { OnOk result (AddsUnfit findings.old findings.new) }
{
    let alloc = findings.alloc;
    let Some(document) = document else {
        return Ok(());
    };
    let value = match Value::from_slice(alloc, data.bytes.as_slice()) {
        Ok(value) => value,
        Err(error) if error.is_memory() => return Err(AllocError),
        Err(_) => return add_unheld(findings, data),
    };
    match read_schema(alloc, document) {
        Ok(_) => {}
        Err(SchemaFault::OutOfMemory) => return Err(AllocError),
        Err(SchemaFault::Refused(_)) => return add_unheld(findings, data),
    }
    if conforms_to(alloc, document, &value) {
        return Ok(());
    }
    let found = violations_of(alloc, document, &value, MOST)?;
    add_violations(findings, schema, data, found.as_slice())?;
    if has_text_rules(schema.bytes.as_slice()) {
        return Ok(());
    }
    add_unheld(findings, data)
}

/// Whether a schema asks for more of strings than is looked at.
fn has_text_rules(schema: &[u8]) -> bool
    ensures { result ≡ true → Mentions schema.now }
{
    mentions(schema, b"\"pattern\"") || mentions(schema, b"\"format\"")
}

/// Whether a text stands in another.
fn mentions(bytes: &[u8], text: &[u8]) -> bool
    ensures { result ≡ true → IsInside text.now bytes.now }
{
    for at in 0..bytes.len() {
        if bytes.get(at..).is_some_and(|rest| rest.starts_with(text)) {
            return true;
        }
    }
    false
}

/// Adds places at which the data does not conform to the schema.
fn add_violations<'a>(
    findings: &mut Findings<'a>,
    schema: &Source<'a>,
    data: &Source<'a>,
    violations: &[Violation],
) -> Result<()>
    ensures { OnOk result (AddsUnfit findings.old findings.new) }
{
    for violation in violations {
        let place = position_of(data.bytes.as_slice(), violation.path.as_slice());
        let text = violation_text(findings.alloc, schema, violation)?;
        findings.add(Finding::error(data.name, place, DOES_NOT_CONFORM, text))?;
    }
    Ok(())
}

/// Adds that it is not seen that the data conforms, unless there are errors.
fn add_unheld<'a>(findings: &mut Findings<'a>, data: &Source<'a>) -> Result<()>
    ensures found { OnOk result (has_error findings.new ≡ true) }
    ensures told { OnOk result (AddsUnfit findings.old findings.new) }
{
    if findings.has_errors() {
        return Ok(());
    }
    let text = "does not conform: it is not seen that it does";
    let text = String::from_str(findings.alloc, text)?;
    findings.add(Finding::error(data.name, (1, 1), DOES_NOT_CONFORM, text))
}

/// The message about a place at which the data does not conform to the schema.
fn violation_text(alloc: Global, schema: &Source<'_>, violation: &Violation) -> Result<String> {
    let line = line_of(alloc, schema.bytes.as_slice(), violation.keyword.as_str())?;
    let is_whole = violation.place.is_empty();
    let said = Sentence::new(alloc)
        .say("does not conform: ")
        .say(violation.place.as_str())
        .say(if is_whole { "" } else { ": " })
        .say(violation.text.as_str())
        .say(" at ")
        .say(schema.name);
    match line {
        Some(line) => said.say(":").count(line).finish(),
        None => said.finish(),
    }
}
