//! Whether a document has no keywords that are not allowed: each schema in it is looked at once more, after it is read.
ghost use Rattle.std.specs.Prelude.{◌≡◌, map, true};
ghost use Rattle.std.specs.List.{list_any};
ghost use Rattle.std.specs.Str.{bytes_eq};
ghost use Rattle.serde_json.specs.View.{items_view, members_view, view};
ghost use Rattle.tmpl_json_schema.specs.Keywords.{AreKnown, EachListed, EachNamed, HasListed, HasNamed, IsKnown};
ghost use Rattle.tmpl_json_schema.specs.Keywords.{has_listed, has_named, has_schema, is_allowed, is_keyword, is_near, keywords};
ghost use Rattle.tmpl_json_schema.specs.computed.Known.{IsRule};

use crate::edit::is_near;
use serde_json::{Map, Value};

/// Whether each keyword in a schema is allowed, and in those that stand in it, as far as this many levels show.
#[cycle(known)]
pub(crate) fn is_known(levels: usize, schema: &Value) -> bool
    ensures { result ≡ true → IsKnown (view schema.now) }
{
    let Value::Object(rules) = schema else {
        return true;
    };
    if levels == 0 {
        return false;
    }
    are_known(levels - 1, rules)
}

/// Whether each of these keywords is known, and those in the schemas under it.
#[cycle(known)]
fn are_known(levels: usize, rules: &Map<String, Value>) -> bool
    ensures { result ≡ true → AreKnown (members_view rules.now.entries) }
{
    for (keyword, rule) in rules.iter() {
        if !is_rule(levels, keyword.as_str(), rule) {
            return false;
        }
    }
    true
}

/// The same of one keyword.
#[cycle(known)]
fn is_rule(levels: usize, keyword: &str, rule: &Value) -> bool
    ensures { result ≡ true → IsRule keyword.now (view rule.now) }
{
    is_allowed(keyword)
        && is_schema(levels, keyword, rule)
        && are_named(levels, keyword, rule)
        && are_listed(levels, keyword, rule)
}

/// The same of the schema under a keyword, if it has one.
#[cycle(known)]
fn is_schema(levels: usize, keyword: &str, rule: &Value) -> bool
    ensures { result ≡ true → has_schema keyword.now ≡ true → IsKnown (view rule.now) }
{
    if has_schema(keyword) {
        is_known(levels, rule)
    } else {
        true
    }
}

/// The same of the schemas that stand by their names under a keyword, if it has such.
#[cycle(known)]
fn are_named(levels: usize, keyword: &str, rule: &Value) -> bool
    ensures { result ≡ true → has_named keyword.now ≡ true → HasNamed (view rule.now) }
{
    if !has_named(keyword) {
        return true;
    }
    match rule {
        Value::Object(schemas) => each_named(levels, schemas),
        _ => true,
    }
}

/// Whether each keyword of the schemas with these names is known.
#[cycle(known)]
fn each_named(levels: usize, schemas: &Map<String, Value>) -> bool
    ensures { result ≡ true → EachNamed (members_view schemas.now.entries) }
{
    for (name, schema) in schemas.iter() {
        if !is_known(levels, schema) {
            return false;
        }
    }
    true
}

/// The same of the list of schemas under a keyword, if it has one.
#[cycle(known)]
fn are_listed(levels: usize, keyword: &str, rule: &Value) -> bool
    ensures { result ≡ true → has_listed keyword.now ≡ true → HasListed (view rule.now) }
{
    if !has_listed(keyword) {
        return true;
    }
    match rule {
        Value::Array(schemas) => each_listed(levels, schemas.as_slice()),
        _ => true,
    }
}

/// Whether each keyword of these schemas is known.
#[cycle(known)]
fn each_listed(levels: usize, schemas: &[Value]) -> bool
    ensures { result ≡ true → EachListed (items_view schemas.now) }
{
    for schema in schemas {
        if !is_known(levels, schema) {
            return false;
        }
    }
    true
}

/// Whether a schema stands under this keyword.
fn has_schema(keyword: &str) -> bool
    ensures { result ≡ has_schema keyword.now }
{
    keyword == "items"
        || (keyword == "additionalProperties"
            || (keyword == "not"
                || (keyword == "if"
                    || (keyword == "then"
                        || (keyword == "else"
                            || (keyword == "contains"
                                || (keyword == "propertyNames"
                                    || (keyword == "additionalItems"
                                        || (keyword == "unevaluatedItems"
                                            || keyword == "unevaluatedProperties")))))))))
}

/// Whether schemas stand under this keyword by their names.
fn has_named(keyword: &str) -> bool
    ensures { result ≡ has_named keyword.now }
{
    keyword == "properties"
        || (keyword == "patternProperties"
            || (keyword == "dependentSchemas" || keyword == "dependencies"))
}

/// Whether a list of schemas stands under this keyword.
fn has_listed(keyword: &str) -> bool
    ensures { result ≡ has_listed keyword.now }
{
    keyword == "anyOf"
        || (keyword == "oneOf"
            || (keyword == "allOf" || (keyword == "prefixItems" || keyword == "items")))
}

/// Whether a name is a keyword, or none is near it.
fn is_allowed(name: &str) -> bool
    ensures { result ≡ is_allowed name.now }
{
    is_keyword(name) || !is_near_one(&keywords(), name)
}

/// Whether a name is near one of these.
fn is_near_one(keywords: &[&str], name: &str) -> bool
    ensures { result ≡ list_any (λ keyword. is_near keyword name.now) (map (λ keyword. keyword.now) keywords.now) }
{
    keywords.iter().any(|keyword| is_near(*keyword, name))
}

/// The keyword that a name is near to, if it is none itself.
pub(crate) fn near_keyword(name: &str) -> Option<&'static str> {
    if is_keyword(name) {
        return None;
    }
    let keywords = keywords();
    keywords
        .iter()
        .find(|keyword| is_near(**keyword, name))
        .copied()
}

/// Whether a keyword is known.
pub(crate) fn is_keyword(name: &str) -> bool
    ensures { result ≡ is_keyword name.now }
{
    is_among(&keywords(), name)
}

/// Whether a name is among these.
fn is_among(names: &[&str], name: &str) -> bool
    ensures { result ≡ list_any (λ other. bytes_eq other name.now) (map (λ other. other.now) names.now) }
{
    names.iter().any(|other| *other == name)
}

/// The keywords that are known: those that are read, those that only narrow further, and notes.
fn keywords() -> [&'static str; 64]
    ensures { map (λ keyword. keyword.now) result ≡ keywords }
{
    [
        "$schema",
        "$id",
        "id",
        "$ref",
        "$defs",
        "definitions",
        "type",
        "enum",
        "const",
        "properties",
        "required",
        "additionalProperties",
        "patternProperties",
        "items",
        "prefixItems",
        "anyOf",
        "oneOf",
        "allOf",
        "minimum",
        "maximum",
        "exclusiveMinimum",
        "exclusiveMaximum",
        "multipleOf",
        "minItems",
        "maxItems",
        "uniqueItems",
        "minLength",
        "maxLength",
        "pattern",
        "format",
        "minProperties",
        "maxProperties",
        "dependentRequired",
        "not",
        "if",
        "then",
        "else",
        "contains",
        "minContains",
        "maxContains",
        "propertyNames",
        "dependencies",
        "dependentSchemas",
        "additionalItems",
        "unevaluatedItems",
        "unevaluatedProperties",
        "$anchor",
        "$dynamicAnchor",
        "$dynamicRef",
        "$recursiveAnchor",
        "$recursiveRef",
        "$vocabulary",
        "default",
        "examples",
        "example",
        "title",
        "description",
        "$comment",
        "contentEncoding",
        "contentMediaType",
        "contentSchema",
        "deprecated",
        "readOnly",
        "writeOnly",
    ]
}
