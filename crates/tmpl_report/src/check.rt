//! Whether a template never fails over the data of a JSON Schema.
ghost use Rattle.std.specs.Prelude.{OnOk};
ghost use Rattle.serde_json.specs.View.{view};
ghost use Rattle.tmpl_syntax.specs.View.{set_view};
ghost use Rattle.tmpl_report.specs.Safe.{NeverFailsOver};

use serde_json::Value;
use std::alloc::Global;
use tmpl_json_schema::{SchemaFault, read_schema};
use tmpl_meaning::MissingKey;
use tmpl_schema::{Refusal, check_schema};
use tmpl_syntax::Set;
use tmpl_values::Bytes;

/// Why a template is not accepted.
#[derive(Drop)]
pub enum CheckFault {
    /// The schema is not read.
    Schema(SchemaFault),
    /// The template is refused, or memory is.
    Template(Refusal),
}

/// Whether a template of the set never fails over data that conforms to the JSON Schema that the document is: in
/// this mode for missing keys, or, where none is given, in each of them. A call of a template that is not there is
/// allowed where its name is one of the stops.
///
/// Where it is accepted its run over each such value, whatever its limits, ends at no fault but that no step is left,
/// that calls are too deep, or that a stop is called. A template that never fails may be refused.
///
/// # Errors
///
/// `Schema` where the document is not read, and `Template` where it is not seen that the template never fails.
pub fn check_document(
    alloc: Global,
    set: &Set,
    name: &[u8],
    document: &Value,
    mode: Option<MissingKey>,
    stops: &[Bytes],
) -> Result<(), CheckFault>
    ensures { OnOk result (NeverFailsOver (view document.now) mode stops.now (set_view set.now) name.now) }
{
    let schema = match read_schema(alloc, document) {
        Ok(schema) => schema,
        Err(fault) => return Err(CheckFault::Schema(fault)),
    };
    match check_schema(alloc, set, name, &schema, mode, stops) {
        Ok(()) => Ok(()),
        Err(refusal) => Err(CheckFault::Template(refusal)),
    }
}
