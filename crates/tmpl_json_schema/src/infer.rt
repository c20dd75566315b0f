//! A schema of samples.
ghost use Rattle.std.specs.Prelude.{◌≡◌, ◌⊎◌, ◌≤◌, ◌++◌, suc, IfOk, IfSome, OnOk, map, flat_map, filter_map};
ghost use Rattle.std.specs.List.{AllByRecursion, list_any};
ghost use Rattle.serde_json.specs.Data.{object, depth};
ghost use Rattle.serde_json.specs.Find.{as_object, get_member};
ghost use Rattle.serde_json.specs.Read.{max_depth};
ghost use Rattle.serde_json.specs.View.{view, items_view, members_view};
ghost use Rattle.tmpl_values.specs.Json.{tree_value};
ghost use Rattle.tmpl_json_schema.specs.Document.{IsInstance, IsOfType, type_of as type_name};
ghost use Rattle.tmpl_json_schema.specs.Inferred.{Conforms, HasInferred, IsInferred, NamesTypes};
ghost use Rattle.tmpl_json_schema.specs.computed.Inferred.{seen, maps_seen, items_of_list, EachValue, IsOnlyOrList, is_text};
ghost use Rattle.tmpl_json_schema.specs.computed.Inferred.{Fits, room, values_among, AddsItems, AreTold, AddsOthers, AddsProperties};

use crate::Result;
use crate::conform::count_keys;
use serde_json::{Map, Value, put};
use std::alloc::{AllocError, Global};
use std::collections::BTreeSet;

/// How many levels of samples the schema has: below them each value fits.
const LEVELS: usize = 40;

/// How many keys maps have at most for which there is a property each, if their values are of one type, and if not.
const MANY_ALIKE: usize = 40;

const MANY: usize = 300;

/// The draft of JSON Schema.
const DRAFT: &str = "https://json-schema.org/draft/2020-12/schema";

/// What is stated of the keys of maps.
#[derive(Drop)]
struct Keys {
    /// For each of them a schema of the values there.
    properties: Map<String, Value>,
    /// Those that each map has.
    required: Vec<Value>,
}

/// The type of a value.
fn type_of(value: &Value) -> &'static str
    ensures { IfSome (tree_value (view value.now)) (λ v. result.now ≡ type_name v) }
{
    match value {
        Value::Null => "null",
        Value::Bool(_) => "boolean",
        Value::Number(number) => { if number.is_f64() { "number" } else { "integer" } }
        Value::String(_) => "string",
        Value::Array(_) => "array",
        Value::Object(_) => "object",
    }
}

/// Whether a value is this text.
fn is_text(value: &Value, text: &str) -> bool
    ensures { result ≡ is_text text.now (view value.now) }
{
    match value.as_str() {
        Some(other) => other == text,
        None => false,
    }
}

/// Whether one of these values is this text.
fn has_text(values: &[Value], text: &str) -> bool
    ensures { result ≡ list_any (λ value. is_text text.now (view value)) values.now }
{
    values.iter().any(|value| is_text(value, text))
}

/// The types of samples: one, or a list of them, each once.
fn types_of(alloc: Global, samples: &[&Value]) -> Result<Value>
    ensures conform { IfOk result
        (λ types. EachValue (λ v. IsOfType v (view types)) (seen samples.now)) }
    ensures nests { IfOk result (λ types. depth (view types) ≤ 1) }
    ensures plain { IfOk result (λ types. NamesTypes (view types)) }
{
    let mut types: Vec<Value> = Vec::new(alloc);
    for sample in samples {
        let name = type_of(*sample);
        if !has_text(types.as_slice(), name) {
            types.push(Value::try_from_str(alloc, name)?)?;
        }
    }
    Ok(one_or_list(types))
}

/// The only one of these, or a list of them.
fn one_or_list(mut values: Vec<Value>) -> Value
    ensures { IsOnlyOrList (items_view values.items) (view result) }
{
    if values.len() != 1 {
        return Value::Array(values);
    }
    match values.pop() {
        Some(only) => only,
        None => Value::Array(values),
    }
}

/// The maps among samples.
fn maps_in<'s>(alloc: Global, samples: &[&'s Value]) -> Result<Vec<&'s Map<String, Value>>>
    ensures maps { IfOk result (λ maps. maps_seen maps.items ≡ filter_map as_object (seen samples.now)) }
    ensures instances { OnOk result (EachValue IsInstance (seen samples.now)) }
{
    let mut maps = Vec::new(alloc);
    for sample in samples {
        count_keys(*sample);
        if let Some(members) = sample.as_object() {
            maps.push(members)?;
        }
    }
    Ok(maps)
}

/// The items of the lists among samples.
fn items_in<'s>(alloc: Global, samples: &[&'s Value]) -> Result<Vec<&'s Value>>
    ensures { IfOk result (λ items. seen items.items ≡ flat_map items_of_list (seen samples.now)) }
{
    let mut all = Vec::new(alloc);
    for sample in samples {
        if let Some(items) = sample.as_array() {
            add_items_of(items.as_slice(), &mut all)?;
        }
    }
    Ok(all)
}

/// Adds these items.
fn add_items_of<'s>(items: &'s [Value], all: &mut Vec<&'s Value>) -> Result<()>
    ensures { OnOk result (seen all.new.items ≡ seen all.old.items ++ map view items.now) }
{
    for item in items {
        all.push(item)?;
    }
    Ok(())
}

/// What maps have under this key.
fn values_of<'s>(
    alloc: Global,
    maps: &[&'s Map<String, Value>],
    key: &str,
) -> Result<Vec<&'s Value>>
    ensures { IfOk result
        (λ values. seen values.items ≡ filter_map (get_member key.now) (maps_seen maps.now)) }
{
    let mut values = Vec::new(alloc);
    for map in maps {
        if let Some(value) = map.get(key) {
            values.push(value)?;
        }
    }
    Ok(values)
}

/// Adds the values of a map.
fn add_values_of<'s>(map: &'s Map<String, Value>, all: &mut Vec<&'s Value>) -> Result<()>
    ensures { OnOk result (seen all.new.items ≡ seen all.old.items ++ values_among (members_view map.now.entries)) }
{
    for (_, value) in map.iter() {
        all.push(value)?;
    }
    Ok(())
}

/// The values of maps.
fn values_in<'s>(alloc: Global, maps: &[&'s Map<String, Value>]) -> Result<Vec<&'s Value>>
    ensures { IfOk result (λ values. seen values.items ≡ flat_map values_among (maps_seen maps.now)) }
{
    let mut all = Vec::new(alloc);
    for map in maps {
        add_values_of(*map, &mut all)?;
    }
    Ok(all)
}

/// The paths that go on from a key, each without that key.
fn paths_under<'p>(alloc: Global, paths: &[&'p str], key: &str) -> Result<Vec<&'p str>> {
    let mut under = Vec::new(alloc);
    for path in paths {
        if let Some(rest) = path_after(*path, key) {
            under.push(rest)?;
        }
    }
    Ok(under)
}

/// What of a path stands after its first key, if that is this one.
fn path_after<'p>(path: &'p str, key: &str) -> Option<&'p str> {
    let rest = path.strip_prefix(".")?.strip_prefix(key)?;
    if rest.is_empty() || rest.starts_with(".") {
        Some(rest)
    } else {
        None
    }
}

/// Whether the keys of maps are data: where one of the paths ends there, or where they are many or each map has others,
/// and their values are of one type.
fn are_keys_data(alloc: Global, paths: &[&str], maps: &[&Map<String, Value>]) -> Result<bool> {
    if paths.iter().any(|path| path.is_empty() || *path == ".") {
        return Ok(true);
    }
    let mut names: BTreeSet<&str> = BTreeSet::new(alloc);
    let mut count: usize = 0;
    for map in maps {
        if names.len() <= MANY {
            add_names(*map, &mut names, &mut count)?;
        }
    }
    if names.len() > MANY {
        return Ok(true);
    }
    let is_apart = maps.len() > 1 && count > 1 && names.len() == count;
    Ok((is_apart || names.len() > MANY_ALIKE) && are_alike(maps))
}

/// Adds the keys of a map to those that are known, and counts them.
fn add_names<'s>(
    map: &'s Map<String, Value>,
    names: &mut BTreeSet<&'s str>,
    count: &mut usize,
) -> Result<()> {
    for name in map.keys() {
        names.insert(name.as_str())?;
        *count = count.saturating_add(1);
    }
    Ok(())
}

/// Whether all values of maps are of one type.
fn are_alike(maps: &[&Map<String, Value>]) -> bool {
    let mut first: Option<&Value> = None;
    for map in maps {
        for value in map.values() {
            match first {
                Some(first) if type_of(first) != type_of(value) => return false,
                Some(_) => {}
                None => first = Some(value),
            }
        }
    }
    true
}

/// The schema of samples.
#[cycle(infer)]
fn schema_of(
    alloc: Global,
    levels: usize,
    paths: &[&str],
    samples: &[&Value],
) -> Result<Map<String, Value>>
    ensures conform { IfOk result
        (λ schema. EachValue (Fits (suc levels) (object (members_view schema.entries))) (seen samples.now)) }
    ensures nests { IfOk result (λ schema. depth (object (members_view schema.entries)) ≤ room levels) }
    ensures plain { IfOk result (λ schema. HasInferred (members_view schema.entries)) }
{
    let mut schema: Map<String, Value> = Map::new(alloc);
    let maps = maps_in(alloc, samples)?;
    if levels == 0 || samples.is_empty() {
        return Ok(schema);
    }
    let fewer = levels - 1;
    put(&mut schema, alloc, "type", types_of(alloc, samples)?)?;
    add_items(alloc, fewer, paths, samples, &mut schema)?;
    add_keyed(alloc, fewer, paths, maps.as_slice(), &mut schema)?;
    Ok(schema)
}

/// Adds what is stated of the items of lists, if there are some.
#[cycle(infer)]
fn add_items(
    alloc: Global,
    levels: usize,
    paths: &[&str],
    samples: &[&Value],
    schema: &mut Map<String, Value>,
) -> Result<()>
    ensures { OnOk result (AddsItems levels (seen samples.now)
        (members_view schema.old.entries) (members_view schema.new.entries)) }
{
    let items = items_in(alloc, samples)?;
    if items.is_empty() {
        return Ok(());
    }
    let told = schema_of(alloc, levels, paths, items.as_slice())?;
    put(schema, alloc, "items", Value::Object(told))
}

/// Adds what is stated of the values of maps, if there are some.
#[cycle(infer)]
fn add_keyed(
    alloc: Global,
    levels: usize,
    paths: &[&str],
    maps: &[&Map<String, Value>],
    schema: &mut Map<String, Value>,
) -> Result<()>
    ensures { OnOk result (AddsOthers levels (maps_seen maps.now) (members_view schema.old.entries) (members_view schema.new.entries)
        ⊎ AddsProperties levels (maps_seen maps.now) (members_view schema.old.entries) (members_view schema.new.entries)) }
{
    if are_keys_data(alloc, paths, maps)? {
        add_others(alloc, levels, maps, schema)
    } else {
        add_properties(alloc, levels, paths, maps, schema)
    }
}

/// Adds what is stated of the values of maps whose keys are data, if there are some.
#[cycle(infer)]
fn add_others(
    alloc: Global,
    levels: usize,
    maps: &[&Map<String, Value>],
    schema: &mut Map<String, Value>,
) -> Result<()>
    ensures { OnOk result (AddsOthers levels (maps_seen maps.now)
        (members_view schema.old.entries) (members_view schema.new.entries)) }
{
    let values = values_in(alloc, maps)?;
    if values.is_empty() {
        return Ok(());
    }
    let told = schema_of(alloc, levels, &[], values.as_slice())?;
    put(schema, alloc, "additionalProperties", Value::Object(told))
}

/// Adds what is stated of the keys of maps, if there are some.
#[cycle(infer)]
fn add_properties(
    alloc: Global,
    levels: usize,
    paths: &[&str],
    maps: &[&Map<String, Value>],
    schema: &mut Map<String, Value>,
) -> Result<()>
    ensures { OnOk result (AddsProperties levels (maps_seen maps.now)
        (members_view schema.old.entries) (members_view schema.new.entries)) }
{
    let mut keys = Keys {
        properties: Map::new(alloc),
        required: Vec::new(alloc),
    };
    for map in maps {
        add_keys(alloc, levels, paths, maps, *map, &mut keys)?;
    }
    let Keys {
        properties,
        required,
    } = keys;
    if properties.is_empty() {
        return Ok(());
    }
    put(schema, alloc, "properties", Value::Object(properties))?;
    put(schema, alloc, "required", Value::Array(required))
}

/// Adds what is stated of the keys of one of the maps.
#[cycle(infer)]
fn add_keys(
    alloc: Global,
    levels: usize,
    paths: &[&str],
    maps: &[&Map<String, Value>],
    map: &Map<String, Value>,
    keys: &mut Keys,
) -> Result<()>
    requires { AreTold levels (maps_seen maps.now) (members_view keys.old.properties.entries)
        (items_view keys.old.required.items) }
    ensures { OnOk result (AreTold levels (maps_seen maps.now) (members_view keys.new.properties.entries)
        (items_view keys.new.required.items)) }
{
    for name in map.keys() {
        if keys.properties.get(name.as_str()).is_none() {
            add_key(alloc, levels, paths, maps, name.as_str(), &mut *keys)?;
        }
    }
    Ok(())
}

/// Adds what is stated of a key of maps.
#[cycle(infer)]
fn add_key(
    alloc: Global,
    levels: usize,
    paths: &[&str],
    maps: &[&Map<String, Value>],
    name: &str,
    keys: &mut Keys,
) -> Result<()>
    requires { AreTold levels (maps_seen maps.now) (members_view keys.old.properties.entries)
        (items_view keys.old.required.items) }
    ensures { OnOk result (AreTold levels (maps_seen maps.now) (members_view keys.new.properties.entries)
        (items_view keys.new.required.items)) }
{
    let values = values_of(alloc, maps, name)?;
    if values.len() == maps.len() {
        keys.required.push(Value::try_from_str(alloc, name)?)?;
    }
    let under = paths_under(alloc, paths, name)?;
    let property = schema_of(alloc, levels, under.as_slice(), values.as_slice())?;
    put(&mut keys.properties, alloc, name, Value::Object(property))
}

/// A JSON Schema to which each of the samples conforms: their types, each of them once, the properties of maps, of which
/// those are required that each has, and the items of lists; of maps whose keys are data one schema of all values. These
/// are the maps at the paths, as `.metadata.labels`, and those of which it is seen by their keys and values. It has no
/// other keywords but `$schema`.
pub fn infer_schema(alloc: Global, samples: &[&Value], paths: &[&str]) -> Result<Value, AllocError>
    ensures conform { IfOk result
        (λ schema. AllByRecursion (λ sample. Conforms (view schema) (view sample.now)) samples.now) }
    ensures nests { IfOk result (λ schema. depth (view schema) ≤ max_depth) }
    ensures plain { IfOk result (λ schema. IsInferred (view schema)) }
{
    let mut schema = schema_of(alloc, LEVELS, paths, samples)?;
    put(
        &mut schema,
        alloc,
        "$schema",
        Value::try_from_str(alloc, DRAFT)?,
    )?;
    Ok(Value::Object(schema))
}
