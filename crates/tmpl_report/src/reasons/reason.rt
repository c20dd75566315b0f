//! The reasons in a document for alarms.
ghost use Rattle.std.specs.Prelude.{◌≡◌, Some, IfOk, IfSome};
ghost use Rattle.std.specs.List.{AllZip};
ghost use Rattle.tmpl_json_schema.specs.Permission.{sort_of, sort_of_gap};
ghost use Rattle.tmpl_report.specs.Reason.{IsReason, IsTold, sort_for};

use crate::Result;
use crate::reasons::walk::asked_of;
use serde_json::Value;
use std::alloc::{AllocError, Global};
use tmpl_json_schema::{Document, Gap, Lost, Permission, Provenance, Why};
use tmpl_problems::line_of;
use tmpl_schema::{Cause, Doubt};
use tmpl_syntax::Set;

/// What in a document lets a value through for which a template may fail.
#[derive(Drop)]
pub struct Reason {
    pub why: Why,
    /// The line of the keyword, or of the schema that has none.
    pub line: u64,
}

/// For each alarm why what it speaks of may come, in a run of the template of this name over data of the document of
/// these bytes, where one place of that alone lets it through; else none. The alarms are those that `check_document`
/// gives.
pub fn reasons_of(
    alloc: Global,
    set: &Set,
    name: &[u8],
    root: &Value,
    bytes: &[u8],
    doubts: &[Doubt],
) -> Result<Vec<Option<Reason>>, AllocError>
    ensures { IfOk result (λ reasons. AllZip (IsTold bytes.now) doubts.now reasons.items) }
{
    let document = Document { root, alloc };
    let asked = asked_of(document, set, name, doubts)?;
    let mut reasons = Vec::new(alloc);
    for doubt in doubts {
        let asked = asked.get(reasons.len());
        reasons.push(reason_for(document, bytes, asked, doubt)?)?;
    }
    Ok(reasons)
}

/// What an alarm of this cause speaks of, if that is a gap of a document.
fn gap_of(cause: &Cause) -> Option<Gap<'_>>
    ensures { IfSome result (λ gap. Some (sort_of_gap gap) ≡ sort_for cause.now) }
{
    match cause {
        Cause::Absent(name) => match std::str::from_utf8(name.as_slice()) {
            Ok(name) => Some(Gap::Absence(name)),
            Err(_) => None,
        },
        Cause::NoFields(_, kind) | Cause::Range(kind) => Some(Gap::Kind(*kind)),
        Cause::FewItems(_, count) => Some(Gap::FewItems(*count)),
        _ => None,
    }
}

/// Why what the alarm speaks of may come, where its provenance is known.
fn reason_for(
    document: Document<'_>,
    bytes: &[u8],
    asked: Option<&Option<Provenance>>,
    doubt: &Doubt,
) -> Result<Option<Reason>>
    ensures { IfOk result (IsTold bytes.now doubt.now) }
{
    let (Some(Some(provenance)), Some(gap)) = (asked, gap_of(&doubt.cause)) else {
        return Ok(None);
    };
    match document.permission(provenance, gap) {
        Ok(Some(permission)) => reason_by(document.alloc, bytes, &permission),
        Ok(None) => Ok(None),
        Err(Lost::Untold) => Ok(None),
        Err(Lost::OutOfMemory) => Err(AllocError),
    }
}

/// The reason that a permission is, where its line is seen.
fn reason_by(alloc: Global, bytes: &[u8], permission: &Permission) -> Result<Option<Reason>>
    ensures { IfOk result (λ reason. IfSome reason (IsReason bytes.now (Some (sort_of permission.now.why)))) }
{
    let why = permission.why;
    match line_of(alloc, bytes, permission.pointer.as_str())? {
        Some(line) => Ok(Some(Reason { why, line })),
        None => Ok(None),
    }
}
