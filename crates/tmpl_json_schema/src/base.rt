//! Whether each `$ref` of a document is looked up in the document itself.
ghost use Rattle.std.specs.Prelude.{◌≡◌, false, is_some, true};
ghost use Rattle.serde_json.specs.View.{items_view, members_view, view};
ghost use Rattle.tmpl_json_schema.specs.Document.{below_has_base, fragment_of, has_base, identifier_of, inside_has_base, is_base, item_has_base};
ghost use Rattle.tmpl_json_schema.specs.Document.{member_has_base};
ghost use Rattle.tmpl_json_schema.specs.computed.Defined.{IsUnbased};

use crate::draft::Draft;
use serde_json::{Map, Value};

/// How deep a document is looked through: more than JSON may nest.
const LEVELS: usize = 200;

/// Whether nothing below the top of a document of this draft has an identifier from which a `$ref` is looked up.
pub(crate) fn is_one_base(draft: Draft, root: &Value) -> bool
    ensures { result ≡ true → inside_has_base (identifier_of draft) (view root.now) ≡ false }
{
    match root {
        Value::Object(members) => are_unbased(draft.identifier(), members),
        _ => true,
    }
}

/// The same of each member.
fn are_unbased(key: &str, members: &Map<String, Value>) -> bool
    ensures { result ≡ true → below_has_base key.now (members_view members.now.entries) ≡ false }
{
    for (name, member) in members.iter() {
        if !is_unbased(LEVELS, key, member) {
            return false;
        }
    }
    true
}

/// Whether nothing in a value has such an identifier, as far as this many levels show.
#[cycle(base)]
fn is_unbased(levels: usize, key: &str, value: &Value) -> bool
    ensures { result ≡ true → has_base key.now (view value.now) ≡ false }
{
    if levels == 0 {
        return false;
    }
    match value {
        Value::Array(items) => items_unbased(levels - 1, key, items.as_slice()),
        Value::Object(members) => members_unbased(levels - 1, key, members),
        Value::Null | Value::Bool(_) | Value::Number(_) | Value::String(_) => true,
    }
}

/// The same of items.
#[cycle(base)]
fn items_unbased(levels: usize, key: &str, items: &[Value]) -> bool
    ensures { result ≡ true → item_has_base key.now (items_view items.now) ≡ false }
{
    for item in items {
        if !is_unbased(levels, key, item) {
            return false;
        }
    }
    true
}

/// The same of members.
#[cycle(base)]
fn members_unbased(levels: usize, key: &str, members: &Map<String, Value>) -> bool
    ensures { result ≡ true → member_has_base key.now (members_view members.now.entries) ≡ false }
{
    for (name, member) in members.iter() {
        if !is_member_unbased(levels, key, name.as_str(), member) {
            return false;
        }
    }
    true
}

/// The same of a member.
#[cycle(base)]
fn is_member_unbased(levels: usize, key: &str, name: &str, member: &Value) -> bool
    ensures { result ≡ true → IsUnbased key.now name.now (view member.now) }
{
    !(name == key && is_base(member)) && is_unbased(levels, key, member)
}

/// Whether it is an identifier from which a `$ref` is looked up.
fn is_base(value: &Value) -> bool
    ensures { result ≡ is_base (view value.now) }
{
    match value {
        Value::String(uri) => !is_fragment(uri.as_str()),
        _ => false,
    }
}

/// Whether a reference begins with `#`.
fn is_fragment(reference: &str) -> bool
    ensures { result ≡ is_some (fragment_of reference.now) }
{
    matches!(reference.as_bytes(), [b'#', ..])
}
