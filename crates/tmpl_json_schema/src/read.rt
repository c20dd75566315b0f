//! The shape of a schema: each value that conforms to the schema has it. What would take too much is left out, which makes
//! the shape wider.
#![tactic(auto, using(tmpl_shape::proofs::ViewLemmas::parts))]

ghost use Rattle.std.specs.Prelude.{◌≡◌, IfOk, IfSome, OnOk, Some, codes, false};
ghost use Rattle.std.specs.Option.{option_and_then, option_map};
ghost use Rattle.serde_json.specs.Find.{get};
ghost use Rattle.serde_json.specs.View.{items_view, members_view, view};
ghost use Rattle.tmpl_shape.specs.Shape.{never};
ghost use Rattle.tmpl_shape.specs.View.{fields_of, shape_of};
ghost use Rattle.tmpl_json_schema.specs.Document.{EachItemOf, FitsEach, FitsPattern, FitsSome, SomeItem, SomeMember, items_in};
ghost use Rattle.tmpl_json_schema.specs.computed.Reading.{alternatives_in, choices_in, is_unread, listed_in};
ghost use Rattle.tmpl_json_schema.specs.computed.Fitting.{Adds, Additional, AreShared, At, Has, HasFields, IsBeside, IsReadOf, ItemOf, Keeps};
ghost use Rattle.tmpl_json_schema.specs.computed.Fitting.{Plain, PlainOf, Referred, Whole, WithEachOf, WithEachProperty, WithProperties, context_of};

use crate::Result;
use crate::draft::Draft;
use crate::fault::{SchemaFault, at_index, refusal, refusal_of, under};
use crate::fields::{has_content, is_required, least_in, required_in};
use crate::kinds::{Kinds, is_every_kind, kinds_in};
use crate::leaves::leaves_in;
use crate::reference::{follow_fragment, fragment_of, is_listed};
use crate::shapes::{by_kinds, is_anything, keep_kinds, rest_of};
use serde_json::{Map, Value};
use std::alloc::{AllocError, Global};
use tmpl_shape::{
    Base, Effort, Fields, Shape, Unmet, copy_name, count_alternatives, meet, or_shape, put_field,
};
use tmpl_values::Bytes;

/// The most alternatives that a shape may have: they are dropped one inside the other.
const MOST_ALTERNATIVES: usize = 1_500;

/// The most alternatives that are met with what stands beside them.
const MOST_MET: usize = 32;

/// What is asked of a document while it is read: its draft, the pointers that a `$ref` may have, itself, and what is needed
/// to compute with shapes.
#[derive(Clone, Copy)]
pub(crate) struct Reader<'s> {
    pub(crate) draft: Draft,
    pub(crate) names: &'s [Bytes],
    pub(crate) root: &'s Value,
    /// How many levels of a schema are read.
    pub(crate) levels: usize,
    /// How many references that are met with other shapes are looked up, one in the other.
    pub(crate) lookups: usize,
    /// How many inside what stands there: none inside what is looked up, since that multiplies.
    pub(crate) inner_lookups: usize,
    pub(crate) effort: &'s Effort,
    pub(crate) alloc: Global,
}

/// A shape that is read, or why it is not.
type Read = Result<Shape, SchemaFault>;

/// The pointer of a `$ref`, if it is one of the names. One that points nowhere in the document is refused.
fn listed_in(reader: &Reader<'_>, reference: &Value) -> Result<Option<Bytes>, SchemaFault>
    ensures { IfOk result (λ o. o ≡ listed_in reader.now.names.now (view reference.now)) }
{
    let Value::String(text) = reference else {
        return Err(refusal(reader.alloc, "a text is wanted"));
    };
    match fragment_of(reader.alloc, text.as_str())? {
        Some(pointer) => {
            if is_listed(reader.names, pointer.as_slice()) {
                Ok(Some(pointer))
            } else {
                Ok(None)
            }
        }
        None => Ok(None),
    }
}

/// The pointer of the `$ref` of a schema, if it has one that is one of the names.
#[inline(never)]
fn pointer_of(reader: &Reader<'_>, schema: &Value) -> Result<Option<Bytes>, SchemaFault>
    ensures { IfOk result (λ o. o ≡ option_and_then (listed_in reader.now.names.now) (get (codes "$ref") (view schema.now))) }
{
    match schema.get("$ref") {
        Some(reference) => match listed_in(reader, reference) {
            Ok(pointer) => Ok(pointer),
            Err(fault) => Err(under(reader.alloc, fault, "$ref")),
        },
        None => Ok(None),
    }
}

/// The alternatives of `anyOf`, or else of `oneOf`.
pub(crate) fn alternatives_in(schema: &Value) -> Option<&Value>
    ensures { option_map (λ v. view v.now) result ≡ alternatives_in (view schema.now) }
{
    match schema.get("anyOf") {
        Some(choices) => Some(choices),
        None => schema.get("oneOf"),
    }
}

/// The alternatives, where they are not beside keywords of fields and items.
pub(crate) fn choices_in(schema: &Value) -> Option<&Value>
    ensures { option_map (λ v. view v.now) result ≡ choices_in (view schema.now) }
{
    if has_content(schema) {
        return None;
    }
    alternatives_in(schema)
}

/// Whether schemas stand in it that a value itself conforms to: alternatives, or parts of `allOf`.
pub(crate) fn has_applicators(schema: &Value) -> bool {
    alternatives_in(schema).is_some() || schema.get("allOf").is_some()
}

/// Whether these stand under more than one keyword.
fn has_several_applicators(schema: &Value) -> bool {
    let has_any_of = schema.get("anyOf").is_some();
    let has_one_of = schema.get("oneOf").is_some();
    let has_all_of = schema.get("allOf").is_some();
    (has_any_of && has_one_of) || (has_all_of && (has_any_of || has_one_of))
}

/// Whether its own shape tells more than its kinds.
fn tells_more(schema: &Value) -> bool {
    let has_constants = schema.get("const").is_some() || schema.get("enum").is_some();
    has_constants || has_content(schema) || has_applicators(schema)
}

/// The shape of a schema, in which as many levels are read as there are steps.
#[cycle(read)]
pub(crate) fn shape_by(reader: &Reader<'_>, steps: usize, schema: &Value) -> Read
    ensures { IfOk result (λ s. IsReadOf (context_of reader.now) (view schema.now) (shape_of s)) }
{
    let inner = Reader {
        lookups: reader.inner_lookups,
        ..*reader
    };
    schema_shape(&inner, steps, false, schema)
}

/// The shape of a schema that a value itself conforms to: of a part that is met with others a reference is looked up.
#[cycle(read)]
fn part_shape(reader: &Reader<'_>, steps: usize, is_met: bool, schema: &Value) -> Read
    ensures { IfOk result (λ s. IsReadOf (context_of reader.now) (view schema.now) (shape_of s)) }
{
    if is_met {
        return schema_shape(reader, steps, true, schema);
    }
    shape_by(reader, steps, schema)
}

/// The shape of a schema, of which a reference is looked up or stands for itself.
#[cycle(read)]
fn schema_shape(reader: &Reader<'_>, steps: usize, is_met: bool, schema: &Value) -> Read
    ensures { IfOk result (λ s. IsReadOf (context_of reader.now) (view schema.now) (shape_of s)) }
{
    reader.effort.spend(1);
    if steps == 0 {
        return Err(refusal(reader.alloc, "too many levels"));
    }
    let fewer = steps - 1;
    match schema {
        Value::Bool(true) => Ok(Shape::Anything),
        Value::Bool(false) => Ok(Shape::Never),
        Value::Object(_) => object_shape(reader, fewer, is_met, schema),
        Value::Null | Value::Number(_) | Value::String(_) | Value::Array(_) => {
            Err(refusal(reader.alloc, "a schema is wanted: an object, true or false"))
        }
    }
}

/// The values that two shapes share, or those of the first where that takes too much.
fn meet_shapes(reader: &Reader<'_>, one: Shape, other: Shape) -> Result<Shape>
    ensures { IfOk result (λ s. AreShared (context_of reader.now) (shape_of one) (shape_of other) (shape_of s)) }
{
    if is_anything(&one) {
        return Ok(other);
    }
    if is_anything(&other) {
        return Ok(one);
    }
    let base = Base {
        definitions: &[],
        names: 0,
        limit: 0,
        effort: reader.effort,
        alloc: reader.alloc,
    };
    match meet(&base, reader.levels, &one, &other) {
        Ok(shape) => Ok(shape),
        Err(Unmet::OutOfMemory) => Err(AllocError),
        Err(Unmet::TooMuch) => Ok(one),
    }
}

/// The shape of a schema that is an object.
#[cycle(read)]
#[inline(never)]
fn object_shape(reader: &Reader<'_>, steps: usize, is_met: bool, schema: &Value) -> Read
    ensures { IfOk result (λ s. Has (context_of reader.now) (Whole (context_of reader.now) (view schema.now)) (shape_of s)) }
{
    check_const(reader, schema)?;
    match pointer_of(reader, schema)? {
        Some(pointer) => reference_shape(reader, steps, is_met, schema, pointer),
        None => {
            if schema.get("$ref").is_some() && !reader.draft.is_since_2019() {
                return Ok(Shape::Anything);
            }
            own_shape(reader, steps, schema)
        }
    }
}

/// The shape of what a reference stands for, and of what stands beside it.
#[cycle(read)]
#[inline(never)]
fn reference_shape(
    reader: &Reader<'_>,
    steps: usize,
    is_met: bool,
    schema: &Value,
    pointer: Bytes,
) -> Read
    ensures { IfOk result (λ s. is_unread reader.now.draft (view schema.now) ≡ false
        → Has (context_of reader.now) (Referred (context_of reader.now) (view schema.now) pointer) (shape_of s)) }
{
    if reader.draft.is_since_2019() && tells_more(schema) {
        let target = look_up(reader, steps, pointer.as_slice())?;
        let own = own_shape(reader, steps, schema)?;
        return Ok(meet_shapes(reader, target, own)?);
    }
    if reader.draft.is_since_2019() && schema.get("type").is_some() {
        let target = look_up(reader, steps, pointer.as_slice())?;
        let kinds = kinds_in(reader.alloc, schema)?;
        return Ok(keep_kinds(reader.alloc, kinds, target)?);
    }
    if is_met {
        return look_up(reader, steps, pointer.as_slice());
    }
    Ok(Shape::Named(pointer))
}

/// The shape of what stands at a pointer, as far as that is looked up. A fault in it is
/// reported where it stands, when the definitions are read.
#[cycle(read)]
fn look_up(reader: &Reader<'_>, steps: usize, pointer: &[u8]) -> Read
    ensures { IfOk result (λ s. Has (context_of reader.now) (At (context_of reader.now) pointer.now) (shape_of s)) }
{
    if reader.lookups == 0 || reader.effort.is_spent() {
        return Ok(Shape::Named(copy_name(reader.alloc, pointer)?));
    }
    let nearer = Reader {
        lookups: reader.lookups - 1,
        inner_lookups: 0,
        ..*reader
    };
    match follow_fragment(reader.root, pointer) {
        Some(schema) => schema_shape(&nearer, steps, true, schema),
        None => Err(refusal(
            reader.alloc,
            "a reference points to nothing in the document",
        )),
    }
}

/// Refuses a `const` that the draft does not have.
#[inline(never)]
fn check_const(reader: &Reader<'_>, schema: &Value) -> Result<(), SchemaFault>
    ensures { OnOk result (is_unread reader.now.draft (view schema.now) ≡ false) }
{
    if schema.get("const").is_some() && !reader.draft.has_const() {
        let fault = refusal(reader.alloc, "\"const\" has no effect in draft-04");
        return Err(under(reader.alloc, fault, "const"));
    }
    Ok(())
}

/// The shape of a schema by all but its `$ref`: of its kinds, fields and items, alternatives, and parts of `allOf`. Kinds alone
/// are looked at last, since a reference that is not looked up tells more.
#[cycle(read)]
#[inline(never)]
fn own_shape(reader: &Reader<'_>, steps: usize, schema: &Value) -> Read
    ensures { IfOk result (λ s. IsBeside (context_of reader.now) (view schema.now) → Has (context_of reader.now) (Plain (view schema.now)) (shape_of s)) }
{
    let kinds = kinds_in(reader.alloc, schema)?;
    if has_content(schema) || !has_applicators(schema) {
        let content = content_shape(reader, steps, schema, kinds)?;
        return with_applicators(reader, steps, schema, content);
    }
    let shape = with_applicators(reader, steps, schema, Shape::Anything)?;
    Ok(keep_kinds(reader.alloc, kinds, shape)?)
}

/// The shape, met with those of the alternatives and with that of each part of `allOf`.
#[cycle(read)]
fn with_applicators(reader: &Reader<'_>, steps: usize, schema: &Value, shape: Shape) -> Read
    ensures { IfOk result (λ s. Keeps (context_of reader.now) (Plain (view schema.now)) (shape_of shape) (shape_of s)) }
{
    let is_met = has_several_applicators(schema);
    let shape = with_alternatives(reader, steps, schema, "anyOf", is_met, shape)?;
    let shape = with_alternatives(reader, steps, schema, "oneOf", is_met, shape)?;
    with_all_of(reader, steps, schema, is_met, shape)
}

/// The shape, met with that of the alternatives under a keyword, if it is there.
#[cycle(read)]
fn with_alternatives(
    reader: &Reader<'_>,
    steps: usize,
    schema: &Value,
    keyword: &'static str,
    is_met: bool,
    shape: Shape,
) -> Read
    ensures { IfOk result (λ s. Keeps (context_of reader.now) (λ C v. IfSome (get keyword.now (view schema.now)) (FitsSome C v))
        (shape_of shape) (shape_of s)) }
{
    match schema.get(keyword) {
        Some(choices) => with_choices(reader, steps, keyword, is_met, shape, choices),
        None => Ok(shape),
    }
}

/// The shape, met with that of each part of `allOf`.
#[cycle(read)]
fn with_all_of(
    reader: &Reader<'_>,
    steps: usize,
    schema: &Value,
    is_met: bool,
    shape: Shape,
) -> Read
    ensures { IfOk result (λ s. Keeps (context_of reader.now) (Plain (view schema.now)) (shape_of shape) (shape_of s)) }
{
    match schema.get("allOf") {
        Some(parts) => with_parts(reader, steps, is_met, shape, parts),
        None => Ok(shape),
    }
}

/// The shape, met with that of the alternatives of a keyword, unless these are many: each would have all that the shape has.
#[cycle(read)]
#[inline(never)]
fn with_choices(
    reader: &Reader<'_>,
    steps: usize,
    keyword: &'static str,
    is_met: bool,
    shape: Shape,
    choices: &Value,
) -> Read
    ensures { IfOk result (λ s. Keeps (context_of reader.now) (λ C v. FitsSome C v (view choices.now)) (shape_of shape) (shape_of s)) }
{
    let is_narrowed = !is_anything(&shape);
    if is_narrowed
        && choices
            .as_array()
            .is_some_and(|choices| choices.len() > MOST_MET)
    {
        return Ok(shape);
    }
    match choice_shape(reader, steps, is_met || is_narrowed, choices) {
        Ok(choice) => {
            if is_narrowed && count_alternatives(&choice) > MOST_MET {
                return Ok(shape);
            }
            Ok(meet_shapes(reader, shape, choice)?)
        }
        Err(fault) => Err(under(reader.alloc, fault, keyword)),
    }
}

/// The keyword under which the alternatives stand that give the shape.
pub(crate) fn chosen_by(schema: &Value) -> &'static str {
    if schema.get("anyOf").is_some() {
        "anyOf"
    } else {
        "oneOf"
    }
}

/// The shape, met with that of each part of `allOf`. A part alone may stay a reference.
#[cycle(read)]
fn with_parts(reader: &Reader<'_>, steps: usize, is_met: bool, shape: Shape, parts: &Value) -> Read
    ensures { IfOk result (λ s. Keeps (context_of reader.now) (λ C v. FitsEach C v (view parts.now)) (shape_of shape) (shape_of s)) }
{
    match parts {
        Value::Array(parts) => {
            let is_met = is_met || parts.len() > 1 || !is_anything(&shape);
            match with_each_part(reader, steps, is_met, shape, parts.as_slice()) {
                Ok(shape) => Ok(shape),
                Err(fault) => Err(under(reader.alloc, fault, "allOf")),
            }
        }
        _ => Ok(shape),
    }
}

/// The shape, met with that of each of these.
#[cycle(read)]
fn with_each_part(
    reader: &Reader<'_>,
    steps: usize,
    is_met: bool,
    shape: Shape,
    parts: &[Value],
) -> Read
    ensures { IfOk result (λ s. Keeps (context_of reader.now) (λ C v. EachItemOf (λ d. C d v) (items_view parts.now)) (shape_of shape) (shape_of s)) }
{
    let mut all = shape;
    let mut index: usize = 0;
    for part in parts {
        let one = match part_shape(reader, steps, is_met, part) {
            Ok(one) => one,
            Err(fault) => return Err(at_index(reader.alloc, fault, index)),
        };
        all = meet_shapes(reader, all, one)?;
        index = index.saturating_add(1);
    }
    Ok(all)
}

/// The shape of any of these.
#[cycle(read)]
fn choice_shape(reader: &Reader<'_>, steps: usize, is_met: bool, choices: &Value) -> Read
    ensures { IfOk result (λ s. Has (context_of reader.now) (λ C v. FitsSome C v (view choices.now)) (shape_of s)) }
{
    match choices {
        Value::Array(choices) => some_shape(reader, steps, is_met, choices.as_slice()),
        _ => Err(refusal(reader.alloc, "a list of schemas is wanted")),
    }
}

/// The shape of any of the schemas.
#[cycle(read)]
fn some_shape(reader: &Reader<'_>, steps: usize, is_met: bool, choices: &[Value]) -> Read
    ensures { IfOk result (λ s. Adds (context_of reader.now) (λ C v. SomeItem (λ d. C d v) (items_view choices.now)) never (shape_of s)) }
{
    let mut shape = Shape::Never;
    let mut index: usize = 0;
    let mut count: usize = 0;
    for choice in choices {
        let one = match part_shape(reader, steps, is_met, choice) {
            Ok(one) => one,
            Err(fault) => return Err(at_index(reader.alloc, fault, index)),
        };
        count = count.saturating_add(count_alternatives(&one));
        if count > MOST_ALTERNATIVES {
            if is_met {
                return Ok(Shape::Anything);
            }
            return Err(refusal(reader.alloc, "more than 1500 alternatives"));
        }
        shape = or_shape(reader.alloc, one, shape)?;
        index = index.saturating_add(1);
    }
    Ok(shape)
}

/// The shape of values of these kinds, by the keywords of fields and items.
#[cycle(read)]
fn content_shape(reader: &Reader<'_>, steps: usize, schema: &Value, kinds: Kinds) -> Read
    ensures { IfOk result (λ s. Has (context_of reader.now) (PlainOf kinds (view schema.now)) (shape_of s)) }
{
    if is_every_kind(kinds) && !has_content(schema) {
        return Ok(Shape::Anything);
    }
    let item = items_shape(reader, steps, schema)?;
    let fields = fields_in(reader, steps, schema)?;
    let leaves = leaves_in(reader.alloc, schema)?;
    Ok(by_kinds(reader.alloc, kinds, leaves, least_in(schema), item, fields)?)
}

/// The schema of each item, if there is one.
pub(crate) fn items_in(schema: &Value) -> Option<&Value>
    ensures { option_map (λ v. view v.now) result ≡ items_in (view schema.now) }
{
    match schema.get("items") {
        Some(Value::Array(_)) => None,
        Some(items) => {
            if schema.get("prefixItems").is_some() {
                None
            } else {
                Some(items)
            }
        }
        None => None,
    }
}

/// The shape of items.
#[cycle(read)]
#[inline(never)]
fn items_shape(reader: &Reader<'_>, steps: usize, schema: &Value) -> Read
    ensures { IfOk result (λ s. Has (context_of reader.now) (ItemOf (view schema.now)) (shape_of s)) }
{
    match items_in(schema) {
        Some(items) => match shape_by(reader, steps, items) {
            Ok(shape) => Ok(shape),
            Err(fault) => Err(under(reader.alloc, fault, "items")),
        },
        None => Ok(Shape::Anything),
    }
}

/// The shape of fields that are not named.
#[cycle(read)]
#[inline(never)]
fn additional_shape(reader: &Reader<'_>, steps: usize, schema: &Value) -> Read
    ensures { IfOk result (λ s. Has (context_of reader.now) (Additional (view schema.now)) (shape_of s)) }
{
    match schema.get("additionalProperties") {
        Some(additional) => match shape_by(reader, steps, additional) {
            Ok(shape) => with_patterns(reader, steps, schema.get("patternProperties"), shape),
            Err(fault) => Err(under(reader.alloc, fault, "additionalProperties")),
        },
        None => Ok(Shape::Anything),
    }
}

/// The shape of fields whose names one of the patterns may match too.
#[cycle(read)]
fn with_patterns(reader: &Reader<'_>, steps: usize, patterns: Option<&Value>, shape: Shape) -> Read
    ensures { IfOk result (λ s. Adds (context_of reader.now) (λ C v. FitsPattern C (option_map (λ v. view v.now) patterns.entry) v) (shape_of shape) (shape_of s)) }
{
    match patterns {
        Some(Value::Object(patterns)) => {
            if is_anything(&shape) {
                return Ok(shape);
            }
            match with_each_pattern(reader, steps, patterns, shape) {
                Ok(shape) => Ok(shape),
                Err(fault) => Err(under(reader.alloc, fault, "patternProperties")),
            }
        }
        Some(_) => Ok(shape),
        None => Ok(shape),
    }
}

/// The same, where there are such.
#[cycle(read)]
fn with_each_pattern(
    reader: &Reader<'_>,
    steps: usize,
    patterns: &Map<String, Value>,
    shape: Shape,
) -> Read
    ensures { IfOk result (λ s. Adds (context_of reader.now) (λ C v. SomeMember (λ d. C d v) (members_view patterns.now.entries)) (shape_of shape) (shape_of s)) }
{
    let mut all = shape;
    let mut count: usize = 0;
    for (pattern, schema) in patterns.iter() {
        match shape_by(reader, steps, schema) {
            Ok(one) => {
                count = count.saturating_add(count_alternatives(&one));
                if count > MOST_ALTERNATIVES {
                    return Err(refusal(reader.alloc, "more than 1500 alternatives"));
                }
                all = or_shape(reader.alloc, one, all)?;
            }
            Err(fault) => return Err(under(reader.alloc, fault, pattern.as_str())),
        }
    }
    Ok(all)
}

/// The fields of a map.
#[cycle(read)]
#[inline(never)]
fn fields_in(reader: &Reader<'_>, steps: usize, schema: &Value) -> Result<Fields, SchemaFault>
    ensures { IfOk result (λ fs. HasFields (context_of reader.now) (view schema.now) (fields_of fs)) }
{
    let additional = additional_shape(reader, steps, schema)?;
    let rest = rest_of(reader.alloc, additional)?;
    let fields = required_in(reader.alloc, schema, rest)?;
    properties_in(reader, steps, schema, fields)
}

/// The fields, with the properties before them.
#[cycle(read)]
fn properties_in(
    reader: &Reader<'_>,
    steps: usize,
    schema: &Value,
    fields: Fields,
) -> Result<Fields, SchemaFault>
    ensures { IfOk result (λ fs. WithEachProperty (context_of reader.now) (view schema.now) (fields_of fields) (fields_of fs)) }
{
    match schema.get("properties") {
        Some(properties) => {
            match with_properties(reader, steps, schema.get("required"), fields, properties) {
                Ok(fields) => Ok(fields),
                Err(fault) => Err(under(reader.alloc, fault, "properties")),
            }
        }
        None => Ok(fields),
    }
}

/// The fields, with what stands under `properties` before them.
#[cycle(read)]
fn with_properties(
    reader: &Reader<'_>,
    steps: usize,
    required: Option<&Value>,
    fields: Fields,
    properties: &Value,
) -> Result<Fields, SchemaFault>
    ensures { IfOk result (λ fs. WithEachOf (context_of reader.now) (option_map (λ v. view v.now) required.entry)
        (Some (view properties.now)) (fields_of fields) (fields_of fs)) }
{
    match properties {
        Value::Object(members) => property_fields(reader, steps, required, fields, members),
        _ => Err(refusal(reader.alloc, "an object of schemas is wanted")),
    }
}

/// The fields, with these properties before them.
#[cycle(read)]
fn property_fields(
    reader: &Reader<'_>,
    steps: usize,
    required: Option<&Value>,
    fields: Fields,
    members: &Map<String, Value>,
) -> Result<Fields, SchemaFault>
    ensures { IfOk result (λ fs. WithProperties (context_of reader.now) (option_map (λ v. view v.now) required.entry) (members_view members.now.entries) (fields_of fields) (fields_of fs)) }
{
    let mut fields = fields;
    for (name, property) in members.iter() {
        let key = name.as_str();
        match shape_by(reader, steps, property) {
            Ok(shape) => {
                let is_required = is_required(key.as_bytes(), required);
                fields = put_field(reader.alloc, key.as_bytes(), is_required, shape, fields)?;
            }
            Err(fault) => return Err(under(reader.alloc, fault, key)),
        }
    }
    Ok(fields)
}
