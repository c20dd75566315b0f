//! Parts of a schema to which no value conforms.
use crate::fault::{Refused, SchemaFault, at_index, refusal, under};
use crate::fields::is_required;
use crate::kinds::{is_no_kind, kinds_in};
use serde_json::Value;
use std::alloc::{AllocError, Global};

/// What is wrong with such a part.
const NO_VALUE: &str = "no value conforms to this schema";

/// What a value of a document is.
#[derive(Clone, Copy)]
enum Part {
    Schema,
    /// A list of schemas, or schemas by their names.
    Schemas,
    Other,
}

/// What stands under a keyword.
fn part_under(keyword: &str) -> Part {
    match keyword {
        "items" | "additionalProperties" => Part::Schema,
        "properties" | "anyOf" | "oneOf" | "$defs" | "definitions" => Part::Schemas,
        _ => Part::Other,
    }
}

/// Refuses `false` among alternatives.
fn check_alternatives(
    alloc: Global,
    schema: &Value,
    keyword: &'static str,
) -> Result<(), SchemaFault> {
    let Some(Value::Array(choices)) = schema.get(keyword) else {
        return Ok(());
    };
    for (index, choice) in choices.iter().enumerate() {
        if let Value::Bool(false) = choice {
            let fault = at_index(alloc, refusal(alloc, NO_VALUE), index);
            return Err(under(alloc, fault, keyword));
        }
    }
    Ok(())
}

/// Refuses `false` for a property that is always there.
fn check_properties(alloc: Global, schema: &Value) -> Result<(), SchemaFault> {
    let Some(Value::Object(properties)) = schema.get("properties") else {
        return Ok(());
    };
    for (name, property) in properties.iter() {
        let name = name.as_str();
        if let Value::Bool(false) = property {
            if is_required(name.as_bytes(), schema.get("required")) {
                let fault = under(alloc, refusal(alloc, NO_VALUE), name);
                return Err(under(alloc, fault, "properties"));
            }
        }
    }
    Ok(())
}

/// Refuses a schema whose keywords have no kind of values in common, or with a part that is `false` and has to have one.
fn check_schema(alloc: Global, schema: &Value) -> Result<(), SchemaFault> {
    match kinds_in(alloc, schema) {
        Ok(kinds) if is_no_kind(kinds) => return Err(refusal(alloc, NO_VALUE)),
        Err(SchemaFault::OutOfMemory) => return Err(SchemaFault::OutOfMemory),
        Ok(_) | Err(SchemaFault::Refused(_)) => {}
    }
    check_alternatives(alloc, schema, "anyOf")?;
    check_alternatives(alloc, schema, "oneOf")?;
    check_properties(alloc, schema)
}

/// Refuses the first schema in a part of a document to which no value conforms.
fn check_part(alloc: Global, part: Part, value: &Value) -> Result<(), SchemaFault> {
    match value {
        Value::Object(members) => {
            if let Part::Schema = part {
                check_schema(alloc, value)?;
            }
            for (key, member) in members.iter() {
                let inner = match part {
                    Part::Schema => part_under(key.as_str()),
                    Part::Schemas => Part::Schema,
                    Part::Other => Part::Other,
                };
                if let Err(fault) = check_part(alloc, inner, member) {
                    return Err(under(alloc, fault, key.as_str()));
                }
            }
        }
        Value::Array(items) => {
            if let Part::Schemas = part {
                for (index, item) in items.iter().enumerate() {
                    if let Err(fault) = check_part(alloc, Part::Schema, item) {
                        return Err(at_index(alloc, fault, index));
                    }
                }
            }
        }
        Value::Null | Value::Bool(_) | Value::Number(_) | Value::String(_) => {}
    }
    Ok(())
}

/// The first part of a schema to which no value conforms, where that is seen: by `type`, `enum` and `const` that have no
/// kind of values in common, or `false` for the whole, an alternative or a property that is always there.
///
/// # Errors
///
/// Where memory runs out.
pub fn part_without_values(alloc: Global, root: &Value) -> Result<Option<Refused>, AllocError> {
    let found = match root {
        Value::Bool(false) => Err(refusal(alloc, NO_VALUE)),
        _ => check_part(alloc, Part::Schema, root),
    };
    match found {
        Err(SchemaFault::Refused(refused)) => Ok(Some(refused)),
        Err(SchemaFault::OutOfMemory) => Err(AllocError),
        Ok(()) => Ok(None),
    }
}
