//! The drafts of JSON Schema that are read.
ghost use Rattle.std.specs.Prelude.{◌≡◌, IfOk, Some};
ghost use Rattle.std.specs.Option.{unwrap_or};
ghost use Rattle.serde_json.specs.View.{view};
ghost use Rattle.tmpl_json_schema.specs.declared.draft.Draft.TheVariants as draft;
ghost use Rattle.tmpl_json_schema.specs.Document.{definitions_of, draft_in, draft_named, draft_of, has_const, identifier_of, is_since_2019};

use crate::fault::{SchemaFault, refusal, refusal_of, under};
use serde_json::Value;
use std::alloc::Global;

/// A draft of JSON Schema.
#[derive(Clone, Copy)]
pub enum Draft {
    Draft04,
    Draft06,
    Draft07,
    Draft2019,
    Draft2020,
}

impl Draft {
    /// Whether it is 2019-09 or a later one.
    pub(crate) fn is_since_2019(self) -> bool
        ensures { result ≡ is_since_2019 self }
    {
        matches!(self, Draft::Draft2019 | Draft::Draft2020)
    }

    /// The keyword of an identifier.
    pub(crate) fn identifier(self) -> &'static str
        ensures { result.now ≡ identifier_of self }
    {
        match self {
            Draft::Draft04 => "id",
            Draft::Draft06 | Draft::Draft07 | Draft::Draft2019 | Draft::Draft2020 => "$id",
        }
    }

    /// The keyword of definitions.
    pub(crate) fn definitions(self) -> &'static str
        ensures { result.now ≡ definitions_of self }
    {
        if self.is_since_2019() {
            "$defs"
        } else {
            "definitions"
        }
    }

    /// Whether it has `const`.
    pub(crate) fn has_const(self) -> bool
        ensures { result ≡ has_const self }
    {
        !matches!(self, Draft::Draft04)
    }
}

/// The draft that a URI names.
fn draft_named(uri: &str) -> Option<Draft>
    ensures { result ≡ draft_named uri.now }
{
    let uri = uri.as_bytes();
    if uri == b"http://json-schema.org/draft-04/schema".as_slice()
        || uri == b"http://json-schema.org/draft-04/schema#".as_slice()
    {
        Some(Draft::Draft04)
    } else if uri == b"http://json-schema.org/draft-06/schema".as_slice()
        || uri == b"http://json-schema.org/draft-06/schema#".as_slice()
    {
        Some(Draft::Draft06)
    } else if uri == b"http://json-schema.org/draft-07/schema".as_slice()
        || uri == b"http://json-schema.org/draft-07/schema#".as_slice()
    {
        Some(Draft::Draft07)
    } else if uri == b"https://json-schema.org/draft/2019-09/schema".as_slice()
        || uri == b"https://json-schema.org/draft/2019-09/schema#".as_slice()
    {
        Some(Draft::Draft2019)
    } else if uri == b"http://json-schema.org/draft/2019-09/schema".as_slice()
        || uri == b"http://json-schema.org/draft/2019-09/schema#".as_slice()
    {
        Some(Draft::Draft2019)
    } else if uri == b"https://json-schema.org/draft/2020-12/schema".as_slice()
        || uri == b"https://json-schema.org/draft/2020-12/schema#".as_slice()
    {
        Some(Draft::Draft2020)
    } else if uri == b"http://json-schema.org/draft/2020-12/schema".as_slice()
        || uri == b"http://json-schema.org/draft/2020-12/schema#".as_slice()
    {
        Some(Draft::Draft2020)
    } else {
        None
    }
}

/// The draft that `$schema` names, by what stands under it.
fn draft_in(alloc: Global, named: &Value) -> Result<Draft, SchemaFault>
    ensures { IfOk result (λ draft. draft_in (view named.now) ≡ Some draft) }
{
    let Value::String(uri) = named else {
        return Err(refusal(alloc, "a text is wanted"));
    };
    match draft_named(uri.as_str()) {
        Some(draft) => Ok(draft),
        None => Err(refusal_of(
            alloc,
            "the drafts that are read are 2020-12, 2019-09, draft-07, draft-06 and draft-04, and not ",
            uri.as_str(),
            "",
        )),
    }
}

/// The draft of a document that is read.
pub(crate) fn draft_seen(root: &Value) -> Draft
    ensures { result ≡ unwrap_or (draft_of (view root.now)) draft.Draft2020 }
{
    match root.get("$schema") {
        Some(Value::String(uri)) => draft_named(uri.as_str()).unwrap_or(Draft::Draft2020),
        _ => Draft::Draft2020,
    }
}

/// The draft of a document: 2020-12 where it names none.
pub(crate) fn draft_of(alloc: Global, root: &Value) -> Result<Draft, SchemaFault>
    ensures { IfOk result (λ draft. draft_of (view root.now) ≡ Some draft) }
{
    match root.get("$schema") {
        Some(named) => match draft_in(alloc, named) {
            Ok(draft) => Ok(draft),
            Err(fault) => Err(under(alloc, fault, "$schema")),
        },
        None => Ok(Draft::Draft2020),
    }
}
