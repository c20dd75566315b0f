//! A schema of files of data.
ghost use Rattle.std.specs.Prelude.{◌≡◌, map, string_bytes, IfOk, IfSome, OnOk};
ghost use Rattle.std.specs.List.{AllByRecursion};
ghost use Rattle.serde_json.specs.View.{view};
ghost use Rattle.tmpl_values.specs.Json.{tree_value};
ghost use Rattle.tmpl_json_schema.specs.Document.{ConformsTo};
ghost use Rattle.tmpl_report.specs.Inferred.{IsInferred, IsSchemaInferred};
ghost use Rattle.tmpl_report.specs.computed.Inferred.{AddsSample};

use crate::Result;
use serde_json::Value;
use std::alloc::{AllocError, Global};
use tmpl_json_schema::{infer_schema, read_document};
use tmpl_problems::{Findings, Source};

/// What comes of files of data.
#[derive(Drop)]
pub enum Inferred<'a> {
    /// The text of a schema to which each of them conforms, without a newline at its end.
    Schema(String),
    /// What is wrong in them.
    Refused(Findings<'a>),
}

/// The text of a schema to which the value of each of these files conforms, or what is wrong in those that have none. The
/// paths, as `.metadata.labels`, are those of maps whose keys are data.
pub fn infer_from<'a>(
    alloc: Global,
    files: &[Source<'a>],
    paths: &[&str],
) -> Result<Inferred<'a>, AllocError>
    ensures { IfOk result (IsInferred files.now) }
{
    let mut findings = Findings::new(alloc);
    let mut samples: Vec<Value> = Vec::new(alloc);
    for file in files {
        add_sample(alloc, file, &mut findings, &mut samples)?;
    }
    if findings.has_errors() {
        return Ok(Inferred::Refused(findings));
    }
    let text = schema_text(alloc, samples.as_slice(), paths)?;
    Ok(Inferred::Schema(text))
}

/// The text of a schema of samples.
fn schema_text(alloc: Global, samples: &[Value], paths: &[&str]) -> Result<String>
    ensures conform { IfOk result (λ text. AllByRecursion
        (λ sample. IfSome (tree_value (view sample)) (ConformsTo (string_bytes text))) samples.now) }
    ensures inferred { IfOk result (λ text. IsSchemaInferred (string_bytes text)) }
{
    let lent = references_to(alloc, samples)?;
    let schema = infer_schema(alloc, lent.as_slice(), paths)?;
    let text = schema.to_string_pretty(alloc)?;
    // for what its contract says: the bytes of a text are UTF-8
    let _shown = text.as_str();
    Ok(text)
}

/// References to these values.
fn references_to<'s>(alloc: Global, values: &'s [Value]) -> Result<Vec<&'s Value>>
    ensures { IfOk result (λ lent. map (λ value. value.now) lent.items ≡ values.now) }
{
    values.iter().collect(alloc)
}

/// Adds the value of a file of data, or what is wrong in it.
fn add_sample<'a>(
    alloc: Global,
    file: &Source<'a>,
    findings: &mut Findings<'a>,
    samples: &mut Vec<Value>,
) -> Result<()>
    ensures { OnOk result (AddsSample file.now findings.old findings.new samples.old.items samples.new.items) }
{
    if !findings.add_data(file)? {
        return Ok(());
    }
    if let Some(value) = read_document(alloc, file.bytes.as_slice())? {
        samples.push(value)?;
    }
    Ok(())
}
