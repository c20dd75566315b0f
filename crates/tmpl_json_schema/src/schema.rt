//! A schema of a document's bytes.
#![tactic(auto, using(tmpl_shape::proofs::ViewLemmas::parts))]

ghost use Rattle.std.specs.Prelude.{◌≡◌, All, IfOk, IfSome, IsSome, OnOk, Some, is_some, option_map, true};
ghost use Rattle.serde_json.specs.View.{view};
ghost use Rattle.tmpl_values.specs.Value.{Value as DataValue};
ghost use Rattle.tmpl_shape.specs.Shape.{Fits};
ghost use Rattle.tmpl_shape.specs.View.{defs_in, schema_of};
ghost use Rattle.tmpl_json_schema.specs.Document.{IsOfSchema, document_of, draft_of, referent};
ghost use Rattle.tmpl_json_schema.specs.Keywords.{AreKnownAt, IsKnown};
ghost use Rattle.tmpl_json_schema.specs.computed.Fitting.{IsDefinition, context_of};
ghost use Rattle.tmpl_json_schema.specs.computed.Defined.{AreLookedUp, are_defined};

use crate::Result;
use crate::base::is_one_base;
use crate::draft::{Draft, draft_of};
use crate::fault::{Refused, SchemaFault, refusal, refusal_of};
use crate::keyword::check_keywords;
use crate::known::is_known;
use crate::read::{Reader, shape_by};
use crate::reference::{MOST_DEFINITIONS, follow_fragment, fragment_of, is_listed, under_fragment};
use serde_json::Value;
use std::alloc::{AllocError, Global};
use std::str::from_utf8;
use tmpl_shape::{Definition, Effort, Schema, Shape, copy_name};
use tmpl_values::Bytes;

/// How many levels of a document are read, with those that are looked up: as many as 512 kB of stack take.
const LEVELS: usize = 90;

/// How many parts of `allOf` that are references are looked up, one in the other: past that they stand for themselves.
const LOOKUPS: usize = 3;

/// The most schemas that are read and shapes that are copied where parts of `allOf` are put together.
const MOST_EFFORT: u64 = 8_000_000;

/// The most values that a document may have, each item and member counted, and those that are read more than once as often.
const MOST_VALUES: usize = 30_000;

/// The most alternatives that a definition may come to, those of each reference among them counted.
const MOST_ALTERNATIVES: usize = 1_000;

/// How many names a schema requires that are no properties: each has the shape of the other properties.
fn unlisted_count(schema: &Value) -> usize {
    let Some(Value::Array(names)) = schema.get("required") else {
        return 0;
    };
    let mut count: usize = 0;
    for name in names {
        let is_property = match (name, schema.get("properties")) {
            (Value::String(name), Some(properties)) => properties.get(name.as_str()).is_some(),
            _ => false,
        };
        if !is_property {
            count = count.saturating_add(1);
        }
    }
    count
}

/// How many values there are, as far as they are counted; the schema of other properties counts once more for each name
/// that is required and no property.
fn count_values(value: &Value, counted: usize) -> usize {
    let mut count = counted.saturating_add(1);
    match value {
        Value::Array(items) => {
            for item in items {
                if count <= MOST_VALUES {
                    count = count_values(item, count);
                }
            }
        }
        Value::Object(members) => {
            let mut rest: usize = 0;
            for (key, member) in members.iter() {
                if count <= MOST_VALUES {
                    let before = count;
                    count = count_values(member, count);
                    if key.as_str() == "additionalProperties" {
                        rest = count.saturating_sub(before);
                    }
                }
            }
            count = count.saturating_add(rest.saturating_mul(unlisted_count(value)));
        }
        Value::Null | Value::Bool(_) | Value::Number(_) | Value::String(_) => {}
    }
    count
}

/// Adds the pointers of each `$ref` that points into the document.
fn add_names(alloc: Global, root: &Value, value: &Value, names: &mut Vec<Bytes>) -> Result<()> {
    match value {
        Value::Array(items) => {
            for item in items {
                add_names(alloc, root, item, names)?;
            }
        }
        Value::Object(members) => {
            for (key, member) in members.iter() {
                if key.as_str() == "$ref" {
                    add_name(alloc, root, member, names)?;
                }
                add_names(alloc, root, member, names)?;
            }
        }
        Value::Null | Value::Bool(_) | Value::Number(_) | Value::String(_) => {}
    }
    Ok(())
}

/// Adds the pointer of a `$ref`, if it points into the document and is new.
fn add_name(alloc: Global, root: &Value, reference: &Value, names: &mut Vec<Bytes>) -> Result<()> {
    let Value::String(text) = reference else {
        return Ok(());
    };
    let Some(name) = fragment_of(alloc, text.as_str())? else {
        return Ok(());
    };
    if names.len() > MOST_DEFINITIONS || is_listed(names.as_slice(), name.as_slice()) {
        return Ok(());
    }
    if follow_fragment(root, name.as_slice()).is_some() {
        names.push(name)?;
    }
    Ok(())
}

/// The definition of what a pointer points to.
fn definition_of(reader: &Reader<'_>, name: &[u8]) -> Result<Definition, SchemaFault>
    ensures { IfOk result (λ d. IsDefinition (context_of reader.now) d) }
{
    let Some(value) = follow_fragment(reader.root, name) else {
        return Err(refusal(
            reader.alloc,
            "a reference points to nothing in the document",
        ));
    };
    match shape_by(reader, reader.levels, value) {
        Ok(shape) => {
            let name = copy_name(reader.alloc, name)?;
            Ok(Definition { name, shape })
        }
        Err(fault) => Err(under_fragment(reader.alloc, reader.root, fault, name)),
    }
}

/// The definitions of what these pointers point to.
fn definitions_of(reader: &Reader<'_>) -> Result<Vec<Definition>, SchemaFault>
    ensures { IfOk result (λ ds. All (IsDefinition (context_of reader.now)) ds.items) }
{
    let mut definitions = Vec::new(reader.alloc);
    for name in reader.names {
        definitions.push(definition_of(reader, name.as_slice())?)?;
    }
    Ok(definitions)
}

/// Whether there is a definition of this name.
fn is_defined(definitions: &[Definition], name: &[u8]) -> bool
    ensures { result ≡ is_some (defs_in definitions.now name.now) }
{
    match definitions {
        [] => false,
        [first, rest @ ..] => name == first.name.as_slice() || is_defined(rest, name),
    }
}

/// Whether there is a definition of each name.
fn are_defined(definitions: &[Definition], names: &[Bytes]) -> bool
    ensures { result ≡ are_defined (defs_in definitions.now) names.now }
{
    match names {
        [] => true,
        [first, rest @ ..] => {
            is_defined(definitions, first.as_slice()) && are_defined(definitions, rest)
        }
    }
}

/// The place of the definition of a name.
fn place_of(definitions: &[Definition], name: &[u8]) -> Option<usize> {
    definitions
        .iter()
        .position(|definition| definition.name.as_slice() == name)
}

/// Adds the places of the definitions that a shape leads to through alternatives and references alone, each as many
/// times as it does, and gives how many other alternatives it has.
fn add_alternatives(
    definitions: &[Definition],
    shape: &Shape,
    places: &mut Vec<usize>,
) -> Result<usize> {
    let mut count: usize = 0;
    let mut rest = shape;
    while let Shape::Either(one, other) = rest {
        count = count.saturating_add(add_alternatives(definitions, one, places)?);
        rest = other;
    }
    match rest {
        Shape::Named(name) => {
            if let Some(place) = place_of(definitions, name.as_slice()) {
                places.push(place)?;
            }
            Ok(count)
        }
        _ => Ok(count.saturating_add(1)),
    }
}

/// What a definition leads to through alternatives and references alone.
#[derive(Drop)]
struct Alternatives {
    /// How many there are that are no references.
    plain: usize,
    /// The places of the definitions that references lead to.
    places: Vec<usize>,
}

/// What each definition leads to.
fn alternatives_of(alloc: Global, definitions: &[Definition]) -> Result<Vec<Alternatives>> {
    let mut all = Vec::new(alloc);
    for definition in definitions {
        let mut places = Vec::new(alloc);
        let plain = add_alternatives(definitions, &definition.shape, &mut places)?;
        all.push(Alternatives { plain, places })?;
    }
    Ok(all)
}

/// How many alternatives these come to, by what is known of each definition, and one more than is allowed where they are
/// too many.
fn count_of(alternatives: &Alternatives, counts: &[usize]) -> usize {
    let mut count = alternatives.plain;
    for place in alternatives.places.as_slice() {
        count = count.saturating_add(counts.get(*place).copied().unwrap_or(0));
    }
    count.min(MOST_ALTERNATIVES + 1)
}

/// Whether some definition has too many alternatives, where none leads back to itself.
fn has_too_many(alloc: Global, all: &[Alternatives]) -> Result<bool> {
    let mut counts: Vec<usize> = Vec::new(alloc);
    for alternatives in all {
        counts.push(alternatives.plain)?;
    }
    for _ in all {
        let mut more: Vec<usize> = Vec::new(alloc);
        for alternatives in all {
            more.push(count_of(alternatives, counts.as_slice()))?;
        }
        if more.as_slice() == counts.as_slice() {
            break;
        }
        counts = more;
    }
    Ok(counts.iter().any(|count| *count > MOST_ALTERNATIVES))
}

/// Adds the places that were not seen before.
fn add_places(found: &[usize], seen: &mut Vec<bool>, reached: &mut Vec<usize>) -> Result<()> {
    for place in found {
        if let Some(is_seen) = seen.get_mut(*place) {
            if !*is_seen {
                *is_seen = true;
                reached.push(*place)?;
            }
        }
    }
    Ok(())
}

/// Whether the definition of this place leads back to itself, where each leads to these places.
fn leads_back(alloc: Global, next: &[Alternatives], start: usize) -> Result<bool> {
    let mut seen: Vec<bool> = Vec::new(alloc);
    for _ in next {
        seen.push(false)?;
    }
    let mut reached: Vec<usize> = Vec::new(alloc);
    if let Some(found) = next.get(start) {
        add_places(found.places.as_slice(), &mut seen, &mut reached)?;
    }
    for index in 0..=next.len() {
        match reached.get(index).copied() {
            Some(place) if place == start => return Ok(true),
            Some(place) => {
                if let Some(found) = next.get(place) {
                    add_places(found.places.as_slice(), &mut seen, &mut reached)?;
                }
            }
            None => return Ok(false),
        }
    }
    Ok(false)
}

/// Refuses definitions that lead back to themselves through alternatives and references alone, or come to too many.
fn check_definitions(alloc: Global, definitions: &[Definition]) -> Result<(), SchemaFault> {
    let next = alternatives_of(alloc, definitions)?;
    for (place, definition) in definitions.iter().enumerate() {
        if leads_back(alloc, next.as_slice(), place)? {
            return Err(match from_utf8(definition.name.as_slice()) {
                Ok(name) => refusal_of(alloc, "what is at ", name, " stands for itself"),
                Err(_) => refusal(alloc, "a definition stands for itself"),
            });
        }
    }
    if has_too_many(alloc, next.as_slice())? {
        return Err(refusal(alloc, "more than 1000 alternatives of one definition"));
    }
    Ok(())
}

/// The pointers of the references in a document of this draft, if each is looked up in it; else none.
fn names_in(alloc: Global, draft: Draft, root: &Value) -> Result<Vec<Bytes>, SchemaFault> {
    let mut names = Vec::new(alloc);
    if is_one_base(draft, root) {
        add_names(alloc, root, root, &mut names)?;
    }
    Ok(names)
}

/// Whether pointers are looked up in a document of this draft, if there are any.
fn are_looked_up(draft: Draft, root: &Value, names: &[Bytes]) -> bool
    ensures { result ≡ true → draft_of (view root.now) ≡ Some draft → AreLookedUp (view root.now) names.now }
{
    match names {
        [] => true,
        [_, ..] => is_one_base(draft, root),
    }
}

/// Refuses a document that is too large, or has references to too many places.
fn check_limits(alloc: Global, root: &Value, names: &[Bytes]) -> Result<(), SchemaFault> {
    if count_values(root, 0) > MOST_VALUES {
        return Err(refusal(alloc, "more than 30000 values"));
    }
    if names.len() > MOST_DEFINITIONS {
        return Err(refusal(alloc, "references to more than 1000 places"));
    }
    Ok(())
}

/// Of what to warn in a document that is read: keywords that are not known, and each `$ref` that is not looked up.
///
/// # Errors
///
/// Where memory runs out.
pub fn warnings_of(alloc: Global, root: &Value) -> Result<Vec<Refused>, AllocError> {
    match warnings_in(alloc, root) {
        Ok(warnings) => Ok(warnings),
        Err(SchemaFault::OutOfMemory) => Err(AllocError),
        Err(SchemaFault::Refused(_)) => Ok(Vec::new(alloc)),
    }
}

/// The same, or why the document is not read.
fn warnings_in(alloc: Global, root: &Value) -> Result<Vec<Refused>, SchemaFault> {
    let draft = draft_of(alloc, root)?;
    let names = names_in(alloc, draft, root)?;
    check_keywords(alloc, root, is_one_base(draft, root), names.as_slice())
}

/// The schema of a document, of which as many levels are read, by this much work.
fn schema_in(
    alloc: Global,
    levels: usize,
    effort: &Effort,
    root: &Value,
) -> Result<Schema, SchemaFault>
    ensures draft { OnOk result (IsSome (draft_of (view root.now))) }
    ensures fits { IfOk result (λ s. (v : DataValue) → IsOfSchema (view root.now) v → Fits (schema_of s) v) }
{
    let draft = draft_of(alloc, root)?;
    let found = names_in(alloc, draft, root)?;
    let names = found.as_slice();
    if !are_looked_up(draft, root, names) {
        return Err(refusal(alloc, "a reference is not looked up"));
    }
    check_limits(alloc, root, names)?;
    check_keywords(alloc, root, is_one_base(draft, root), names)?;
    let reader = Reader {
        draft,
        names,
        root,
        levels,
        lookups: 0,
        inner_lookups: 0,
        effort,
        alloc,
    };
    // So a fault in a definition is reported where it stands, and not where a part of `allOf` refers to it.
    definitions_of(&reader)?;
    let reader = Reader {
        lookups: LOOKUPS,
        inner_lookups: LOOKUPS,
        ..reader
    };
    let shape = shape_by(&reader, levels, root)?;
    let definitions = definitions_of(&reader)?;
    if !are_defined(definitions.as_slice(), names) {
        return Err(refusal(alloc, "a reference has no definition"));
    }
    check_definitions(alloc, definitions.as_slice())?;
    Ok(Schema { definitions, shape })
}

/// Whether each keyword is allowed of what is at the pointers of these definitions.
fn are_known_at(root: &Value, definitions: &[Definition]) -> bool
    ensures { result ≡ true → AreKnownAt (view root.now) definitions.now }
{
    for definition in definitions {
        if !is_known_at(root, definition.name.as_slice()) {
            return false;
        }
    }
    true
}

/// Whether each keyword is allowed of what is at a pointer.
fn is_known_at(root: &Value, name: &[u8]) -> bool
    ensures { result ≡ true → IfSome (referent name.now (view root.now)) IsKnown }
{
    match follow_fragment(root, name) {
        Some(schema) => is_known(LEVELS, schema),
        None => false,
    }
}

/// The schema that a document of JSON Schema is, by the draft that it names or else 2020-12: each value that conforms to
/// the document fits it.
///
/// # Errors
///
/// `Refused` where a keyword in it is not known and near one that is, or what stands under one is not what it wants, and
/// `OutOfMemory` where memory runs out.
pub fn read_schema(alloc: Global, root: &Value) -> Result<Schema, SchemaFault>
    ensures draft { OnOk result (IsSome (draft_of (view root.now))) }
    ensures keywords { OnOk result (IsKnown (view root.now)) }
    ensures definitions { IfOk result (λ s. AreKnownAt (view root.now) s.definitions.items) }
    ensures fits { IfOk result (λ s. (v : DataValue) → IsOfSchema (view root.now) v → Fits (schema_of s) v) }
{
    let effort = Effort::new(MOST_EFFORT);
    let schema = schema_in(alloc, LEVELS, &effort, root)?;
    if !is_known(LEVELS, root) || !are_known_at(root, schema.definitions.as_slice()) {
        return Err(refusal(alloc, "a keyword is not known"));
    }
    Ok(schema)
}

/// The JSON value that a file is, if it is one.
///
/// # Errors
///
/// Where memory runs out.
pub fn read_document(alloc: Global, bytes: &[u8]) -> Result<Option<Value>, AllocError>
    ensures { IfOk result (λ root. option_map view root ≡ document_of bytes.now) }
{
    match Value::from_slice(alloc, bytes) {
        Ok(root) => Ok(Some(root)),
        Err(error) => {
            if error.is_memory() {
                Err(AllocError)
            } else {
                Ok(None)
            }
        }
    }
}
