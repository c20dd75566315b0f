//! The fields of maps, by `required`, and how many items a list has.
#![tactic(auto, using(tmpl_shape::proofs::ViewLemmas::parts))]

ghost use Rattle.std.specs.Prelude.{◌≡◌, IfOk, Some};
ghost use Rattle.std.specs.Option.{option_map};
ghost use Rattle.serde_json.specs.View.{items_view, view};
ghost use Rattle.tmpl_shape.specs.View.{fields_of, shape_of};
ghost use Rattle.tmpl_json_schema.specs.computed.Reading.{fold, has_content, is_key, is_required, least_in, required_fields, required_in, shape_of_rest, with_required};

use crate::fault::{SchemaFault, at_index, refusal, under};
use crate::shapes::shape_of_rest;
use serde_json::Value;
use std::alloc::Global;
use tmpl_shape::{Fields, Shape, copy_shape, put_field};

/// Whether the key is one of these.
fn is_key(key: &[u8], names: &[Value]) -> bool
    ensures { result ≡ is_key key.now (items_view names.now) }
{
    for name in names {
        if let Value::String(name) = name {
            if key == name.as_str().as_bytes() {
                return true;
            }
        }
    }
    false
}

/// How many items a list has at least, where that is said.
pub(crate) fn least_items(schema: &Value) -> Option<u64> {
    schema.get("minItems").and_then(Value::as_u64)
}

/// How many items a list has at least.
pub(crate) fn least_in(schema: &Value) -> u64
    ensures { result ≡ least_in (view schema.now) }
{
    match schema.get("minItems") {
        Some(least) => match least.as_u64() {
            Some(count) => count,
            None => 0,
        },
        None => 0,
    }
}

/// Whether the key is one of those that are always there.
pub(crate) fn is_required(key: &[u8], required: Option<&Value>) -> bool
    ensures { result ≡ is_required key.now (option_map (λ v. view v.now) required.entry) }
{
    match required {
        Some(Value::Array(names)) => is_key(key, names.as_slice()),
        Some(_) => false,
        None => false,
    }
}

/// Whether a schema requires this key.
pub(crate) fn requires_key(schema: &Value, key: &str) -> bool {
    is_required(key.as_bytes(), schema.get("required"))
}

/// The fields, with one more that is always there unless it is a property.
fn with_required(
    alloc: Global,
    properties: Option<&Value>,
    rest: &Shape,
    fields: Fields,
    name: &Value,
) -> Result<Fields, SchemaFault>
    ensures { IfOk result (λ fs. with_required (option_map (λ v. view v.now) properties.entry) (shape_of rest.now)
        (fields_of fields) (view name.now) ≡ Some (fields_of fs)) }
{
    let Value::String(key) = name else {
        return Err(refusal(alloc, "the name of a property is wanted"));
    };
    let is_property = match properties {
        Some(properties) => properties.get(key.as_str()).is_some(),
        None => false,
    };
    if is_property {
        return Ok(fields);
    }
    let shape = copy_shape(alloc, rest)?;
    Ok(put_field(alloc, key.as_str().as_bytes(), true, shape, fields)?)
}

/// The fields, with those that are always there.
fn all_required(
    alloc: Global,
    properties: Option<&Value>,
    rest: &Shape,
    fields: Fields,
    names: &[Value],
) -> Result<Fields, SchemaFault>
    ensures { IfOk result (λ fs. fold (with_required (option_map (λ v. view v.now) properties.entry)
        (shape_of rest.now)) (fields_of fields) (items_view names.now) ≡ Some (fields_of fs)) }
{
    let mut fields = fields;
    for (index, name) in names.iter().enumerate() {
        match with_required(alloc, properties, rest, fields, name) {
            Ok(more) => fields = more,
            Err(fault) => return Err(at_index(alloc, fault, index)),
        }
    }
    Ok(fields)
}

/// The fields that are always there, before the rest.
fn required_fields(
    alloc: Global,
    properties: Option<&Value>,
    rest: Fields,
    names: &[Value],
) -> Result<Fields, SchemaFault>
    ensures { IfOk result (λ fs. fold (with_required (option_map (λ v. view v.now) properties.entry)
        (shape_of_rest (fields_of rest))) (fields_of rest) (items_view names.now) ≡ Some (fields_of fs)) }
{
    let shape = shape_of_rest(alloc, &rest)?;
    all_required(alloc, properties, &shape, rest, names)
}

/// The fields that are always there, before the rest.
#[inline(never)]
pub(crate) fn required_in(
    alloc: Global,
    schema: &Value,
    rest: Fields,
) -> Result<Fields, SchemaFault>
    ensures { IfOk result (λ fs. required_in (view schema.now) (fields_of rest) ≡ Some (fields_of fs)) }
{
    match schema.get("required") {
        Some(Value::Array(names)) => {
            match required_fields(alloc, schema.get("properties"), rest, names.as_slice()) {
                Ok(fields) => Ok(fields),
                Err(fault) => Err(under(alloc, fault, "required")),
            }
        }
        Some(_) => Err(under(
            alloc,
            refusal(alloc, "a list of names is wanted"),
            "required",
        )),
        None => Ok(rest),
    }
}

/// Whether there are keywords of fields and items.
pub(crate) fn has_content(schema: &Value) -> bool
    ensures { result ≡ has_content (view schema.now) }
{
    schema.get("properties").is_some()
        || (schema.get("required").is_some()
            || (schema.get("additionalProperties").is_some()
                || (schema.get("items").is_some() || schema.get("minItems").is_some())))
}
