//! Kinds of values, by `type`, `const` and `enum`.
ghost use Rattle.std.specs.Prelude.{◌≡◌, IfOk, Some};
ghost use Rattle.serde_json.specs.View.{items_view, view};
ghost use Rattle.tmpl_json_schema.specs.computed.Reading.{both_kinds, const_in, constant_kind, either_kinds, enum_in, enum_kinds, every_kind};
ghost use Rattle.tmpl_json_schema.specs.computed.Reading.{constant_with, fold, is_every_kind, kind_named, kind_with, kinds_in, kinds_of, no_kind, type_kinds, types_in};

use crate::fault::{SchemaFault, at_index, refusal, refusal_of, under};
use serde_json::Value;
use std::alloc::Global;

/// Which kinds of values there may be.
#[derive(Clone, Copy)]
pub struct Kinds {
    pub null: bool,
    pub truth: bool,
    pub number: bool,
    pub text: bool,
    pub list: bool,
    pub map: bool,
}

/// None of them.
const NO_KIND: Kinds = Kinds {
    null: false,
    truth: false,
    number: false,
    text: false,
    list: false,
    map: false,
};

/// Each of them.
pub(crate) fn every_kind() -> Kinds
    ensures { result ≡ every_kind }
{
    Kinds {
        null: true,
        truth: true,
        number: true,
        text: true,
        list: true,
        map: true,
    }
}

/// None of them.
pub(crate) fn no_kind() -> Kinds
    ensures { result ≡ no_kind }
{
    NO_KIND
}

/// Those of the one and of the other.
fn either_kinds(one: Kinds, other: Kinds) -> Kinds
    ensures { result ≡ either_kinds one other }
{
    Kinds {
        null: one.null || other.null,
        truth: one.truth || other.truth,
        number: one.number || other.number,
        text: one.text || other.text,
        list: one.list || other.list,
        map: one.map || other.map,
    }
}

/// Those that are in both.
fn both_kinds(one: Kinds, other: Kinds) -> Kinds
    ensures { result ≡ both_kinds one other }
{
    Kinds {
        null: one.null && other.null,
        truth: one.truth && other.truth,
        number: one.number && other.number,
        text: one.text && other.text,
        list: one.list && other.list,
        map: one.map && other.map,
    }
}

/// Whether they are all kinds.
pub(crate) fn is_every_kind(kinds: Kinds) -> bool
    ensures { result ≡ is_every_kind kinds }
{
    kinds.null && (kinds.truth && (kinds.number && (kinds.text && (kinds.list && kinds.map))))
}

/// Whether there is none of them.
pub(crate) fn is_no_kind(kinds: Kinds) -> bool {
    !(kinds.null || kinds.truth || kinds.number || kinds.text || kinds.list || kinds.map)
}

/// The kind of the type of this name.
fn kind_named(word: &str) -> Option<Kinds>
    ensures { result ≡ kind_named word.now }
{
    let word = word.as_bytes();
    if word == b"null".as_slice() {
        Some(Kinds {
            null: true,
            ..NO_KIND
        })
    } else if word == b"boolean".as_slice() {
        Some(Kinds {
            truth: true,
            ..NO_KIND
        })
    } else if word == b"integer".as_slice() {
        Some(Kinds {
            number: true,
            ..NO_KIND
        })
    } else if word == b"number".as_slice() {
        Some(Kinds {
            number: true,
            ..NO_KIND
        })
    } else if word == b"string".as_slice() {
        Some(Kinds {
            text: true,
            ..NO_KIND
        })
    } else if word == b"array".as_slice() {
        Some(Kinds {
            list: true,
            ..NO_KIND
        })
    } else if word == b"object".as_slice() {
        Some(Kinds {
            map: true,
            ..NO_KIND
        })
    } else {
        None
    }
}

/// The kinds, with that of a type's name.
fn kind_with(alloc: Global, kinds: Kinds, name: &Value) -> Result<Kinds, SchemaFault>
    ensures { IfOk result (λ ks. kind_with kinds (view name.now) ≡ Some ks) }
{
    match name {
        Value::String(word) => match kind_named(word.as_str()) {
            Some(kind) => Ok(either_kinds(kinds, kind)),
            None => Err(refusal_of(alloc, "no type ", word.as_str(), "")),
        },
        _ => Err(refusal(alloc, "a type is named by a text")),
    }
}

/// The kinds of types' names.
fn kinds_with(alloc: Global, names: &[Value]) -> Result<Kinds, SchemaFault>
    ensures { IfOk result (λ ks. fold kind_with no_kind (items_view names.now) ≡ Some ks) }
{
    let mut kinds = no_kind();
    for (index, name) in names.iter().enumerate() {
        match kind_with(alloc, kinds, name) {
            Ok(more) => kinds = more,
            Err(fault) => return Err(at_index(alloc, fault, index)),
        }
    }
    Ok(kinds)
}

/// The kinds that `type` names.
fn type_kinds(alloc: Global, named: &Value) -> Result<Kinds, SchemaFault>
    ensures { IfOk result (λ ks. type_kinds (view named.now) ≡ Some ks) }
{
    match named {
        Value::String(word) => match kind_named(word.as_str()) {
            Some(kind) => Ok(kind),
            None => Err(refusal_of(alloc, "no type ", word.as_str(), "")),
        },
        Value::Array(names) => kinds_with(alloc, names.as_slice()),
        _ => Err(refusal(alloc, "the name of a type is wanted, or a list of them")),
    }
}

/// The kind of a constant.
fn constant_kind(constant: &Value) -> Kinds
    ensures { result ≡ constant_kind (view constant.now) }
{
    match constant {
        Value::Null => Kinds {
            null: true,
            ..NO_KIND
        },
        Value::Bool(_) => Kinds {
            truth: true,
            ..NO_KIND
        },
        Value::Number(_) => Kinds {
            number: true,
            ..NO_KIND
        },
        Value::String(_) => Kinds {
            text: true,
            ..NO_KIND
        },
        Value::Array(_) => Kinds {
            list: true,
            ..NO_KIND
        },
        Value::Object(_) => Kinds {
            map: true,
            ..NO_KIND
        },
    }
}

/// The kinds of constants.
fn constants_with(constants: &[Value]) -> Kinds
    ensures { fold constant_with no_kind (items_view constants.now) ≡ Some result }
{
    let mut kinds = no_kind();
    for constant in constants {
        kinds = either_kinds(kinds, constant_kind(constant));
    }
    kinds
}

/// The kinds of the constants of `enum`.
fn enum_kinds(alloc: Global, constants: &Value) -> Result<Kinds, SchemaFault>
    ensures { IfOk result (λ ks. enum_kinds (view constants.now) ≡ Some ks) }
{
    match constants {
        Value::Array(constants) => Ok(constants_with(constants.as_slice())),
        _ => Err(refusal(alloc, "a list of values is wanted")),
    }
}

/// The kinds that `type` leaves.
fn types_in(alloc: Global, schema: &Value) -> Result<Kinds, SchemaFault>
    ensures { IfOk result (λ ks. types_in (view schema.now) ≡ Some ks) }
{
    match schema.get("type") {
        Some(named) => match type_kinds(alloc, named) {
            Ok(kinds) => Ok(kinds),
            Err(fault) => Err(under(alloc, fault, "type")),
        },
        None => Ok(every_kind()),
    }
}

/// The kinds that `const` leaves.
fn const_in(schema: &Value) -> Kinds
    ensures { result ≡ const_in (view schema.now) }
{
    match schema.get("const") {
        Some(constant) => constant_kind(constant),
        None => every_kind(),
    }
}

/// The kinds that `enum` leaves.
fn enum_in(alloc: Global, schema: &Value) -> Result<Kinds, SchemaFault>
    ensures { IfOk result (λ ks. enum_in (view schema.now) ≡ Some ks) }
{
    match schema.get("enum") {
        Some(constants) => match enum_kinds(alloc, constants) {
            Ok(kinds) => Ok(kinds),
            Err(fault) => Err(under(alloc, fault, "enum")),
        },
        None => Ok(every_kind()),
    }
}

/// The kinds that all three leave.
pub(crate) fn kinds_in(alloc: Global, schema: &Value) -> Result<Kinds, SchemaFault>
    ensures { IfOk result (λ ks. kinds_in (view schema.now) ≡ Some ks) }
{
    let types = types_in(alloc, schema)?;
    let constants = enum_in(alloc, schema)?;
    Ok(both_kinds(types, both_kinds(constants, const_in(schema))))
}

/// The kinds of values that a schema lets through by its `type`, `enum` and `const`.
///
/// # Errors
///
/// `Refused` where what stands under one of these is not what it wants, and `OutOfMemory` where memory runs out.
pub(crate) fn kinds_of(alloc: Global, schema: &Value) -> Result<Kinds, SchemaFault>
    ensures { IfOk result (λ ks. kinds_of (view schema.now) ≡ Some ks) }
{
    match schema {
        Value::Bool(true) => Ok(every_kind()),
        Value::Bool(false) => Ok(no_kind()),
        _ => kinds_in(alloc, schema),
    }
}

/// Whether there is a kind among these but that of maps.
pub(crate) fn lets_no_map(kinds: Kinds) -> bool {
    !is_no_kind(Kinds {
        map: false,
        ..kinds
    })
}
