//! What a `$ref` points to.
ghost use Rattle.std.specs.Prelude.{◌≡◌, IfOk, IfSome, Some, option_map};
ghost use Rattle.serde_json.specs.View.{members_view, view};
ghost use Rattle.tmpl_json_schema.specs.Document.{definition_named, first_named, fragment_of, has_text, is_named, referent};
ghost use Rattle.tmpl_json_schema.specs.computed.Reading.{is_listed};

use crate::Result;
use crate::draft::{Draft, draft_seen};
use crate::fault::{SchemaFault, under};
use crate::provenance::below;
use percent_encoding::percent_decode;
use serde_json::{Map, Value};
use std::alloc::Global;
use std::str::from_utf8;
use tmpl_values::Bytes;

/// The most definitions that a schema may have.
pub(crate) const MOST_DEFINITIONS: usize = 1_000;

/// Whether it is one of the names.
pub(crate) fn is_listed(names: &[Bytes], name: &[u8]) -> bool
    ensures { result ≡ is_listed names.now name.now }
{
    match names {
        [] => false,
        [first, rest @ ..] => name == first.as_slice() || is_listed(rest, name),
    }
}

/// What stands after the `#` of a reference within the document, without the escapes of a URI; none where it points elsewhere.
pub(crate) fn fragment_of(alloc: Global, reference: &str) -> Result<Option<Bytes>>
    ensures { IfOk result (λ o. o ≡ fragment_of reference.now) }
{
    match reference.as_bytes() {
        [b'#', rest @ ..] => {
            let mut bytes = Vec::new(alloc);
            percent_decode(rest).append_to(&mut bytes)?;
            Ok(Some(Bytes::new(bytes)))
        }
        _ => Ok(None),
    }
}

/// A definition at the top of a document that has a name.
#[derive(Clone, Copy)]
pub(crate) struct NamedSchema<'d> {
    /// Under which keyword and key it stands.
    keyword: &'static str,
    key: &'d str,
    schema: &'d Value,
}

/// Whether this text stands under a keyword of a schema.
fn has_text(keyword: &str, text: &[u8], schema: &Value) -> bool
    ensures { result ≡ has_text keyword.now text.now (view schema.now) }
{
    match schema.get(keyword) {
        Some(Value::String(other)) => other.as_bytes() == text,
        _ => false,
    }
}

/// Whether a schema has this name, in a document of this draft.
fn is_named(draft: Draft, name: &[u8], schema: &Value) -> bool
    ensures { result ≡ is_named draft name.now (view schema.now) }
{
    if draft.is_since_2019() {
        return has_text("$anchor", name, schema) || has_text("$dynamicAnchor", name, schema);
    }
    match schema.get(draft.identifier()) {
        Some(Value::String(identifier)) => match identifier.as_bytes() {
            [b'#', rest @ ..] => rest == name,
            _ => false,
        },
        _ => false,
    }
}

/// The first of these definitions that has this name, and its key.
fn first_named<'d>(
    draft: Draft,
    name: &[u8],
    definitions: &'d Map<String, Value>,
) -> Option<(&'d str, &'d Value)>
    ensures { option_map (λ x. view x.1.now) result ≡ first_named draft name.now (members_view definitions.now.entries) }
{
    for (key, schema) in definitions.iter() {
        if is_named(draft, name, schema) {
            return Some((key.as_str(), schema));
        }
    }
    None
}

/// The definition at the top of a document that has this name.
fn definition_named<'d>(name: &[u8], root: &'d Value) -> Option<NamedSchema<'d>>
    ensures { option_map (λ n. view n.schema.now) result ≡ definition_named name.now (view root.now) }
{
    let draft = draft_seen(root);
    let keyword = draft.definitions();
    let Some(Value::Object(definitions)) = root.get(keyword) else {
        return None;
    };
    let (key, schema) = first_named(draft, name, definitions)?;
    Some(NamedSchema {
        keyword,
        key,
        schema,
    })
}

/// What a `$ref` points to in a document that is `#` and this.
pub(crate) fn follow_fragment<'d>(root: &'d Value, fragment: &[u8]) -> Option<&'d Value>
    ensures { IfSome result (λ v. referent fragment.now (view root.now) ≡ Some (view v.now)) }
{
    let Ok(text) = from_utf8(fragment) else {
        return None;
    };
    match root.pointer(text) {
        Some(schema) => Some(schema),
        None => Some(definition_named(fragment, root)?.schema),
    }
}

/// The JSON Pointer to what a `$ref` points to that is `#` and this.
pub(crate) fn pointer_to(alloc: Global, root: &Value, fragment: &str) -> Result<String> {
    match definition_named(fragment.as_bytes(), root) {
        Some(named) if !fragment.starts_with('/') => {
            let definitions = below(alloc, "", named.keyword)?;
            below(alloc, definitions.as_str(), named.key)
        }
        _ => String::from_str(alloc, fragment),
    }
}

/// The keys and indexes that lead to what a `$ref` points to that is `#` and this, the first one first.
pub(crate) fn parts_of(alloc: Global, root: &Value, fragment: &[u8]) -> Result<Vec<String>> {
    let mut parts = Vec::new(alloc);
    let pointer = pointer_to(alloc, root, from_utf8(fragment).unwrap_or(""))?;
    for part in pointer.as_str().split('/').skip(1) {
        parts.push(unescape(alloc, part)?)?;
    }
    Ok(parts)
}

/// A part of a pointer without its escapes.
fn unescape(alloc: Global, part: &str) -> Result<String> {
    let mut text = String::new(alloc);
    let mut is_escape = false;
    for letter in part.chars() {
        match letter {
            '~' => {}
            '0' if is_escape => text.push('~')?,
            '1' if is_escape => text.push('/')?,
            _ => text.push(letter)?,
        }
        is_escape = letter == '~';
    }
    Ok(text)
}

/// The fault, found in what a `$ref` points to that is `#` and this.
pub(crate) fn under_fragment(
    alloc: Global,
    root: &Value,
    fault: SchemaFault,
    fragment: &[u8],
) -> SchemaFault {
    let parts = match parts_of(alloc, root, fragment) {
        Ok(parts) => parts,
        Err(_) => return SchemaFault::OutOfMemory,
    };
    let mut fault = fault;
    for part in parts.iter().rev() {
        fault = under(alloc, fault, part.as_str());
    }
    fault
}
