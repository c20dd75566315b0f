//! Whether a value conforms to a schema, by all its keywords, or does not, or that is not known, as of most texts of a `pattern`.
ghost use Rattle.std.specs.Prelude.{◌≡◌, ◌<◌, ◌≤◌, Bool, IfSome, Some, codes, is_some, true};
ghost use Rattle.percent_encoding.specs.Percent.{percent_decode};
ghost use Rattle.serde_json.specs.Data.{object};
ghost use Rattle.serde_json.specs.Find.{as_object, get};
ghost use Rattle.serde_json.specs.View.{view, items_view, members_view};
ghost use Rattle.tmpl_values.specs.Value.{mapping, sequence};
ghost use Rattle.tmpl_values.specs.Json.{tree_value, tree_items, tree_entries};
ghost use Rattle.tmpl_json_schema.specs.declared.conform.Conformity.TheVariants as conformity;
ghost use Rattle.tmpl_json_schema.specs.Document.{FitsAdditional, FitsEach, FitsItems, FitsProperties, FitsSome, HasItems, HasKey, HasKeys};
ghost use Rattle.tmpl_json_schema.specs.Document.{HasType, IsConstant, IsOfSchema, IsOfType, IsOneOf, conforms_in, fragment_of};
ghost use Rattle.tmpl_json_schema.specs.Document.{in_properties, of_each, refer};
ghost use Rattle.tmpl_json_schema.specs.computed.Conformed.{AreApart, IsAtLeast, Meets, MeetsEach, MeetsOfKind};

use crate::base::is_one_base;
use crate::draft::{Draft, draft_of, draft_seen};
use crate::pattern::{is_of_pattern, is_pattern_met};
use crate::reference::follow_fragment;
use serde_json::{Map, Number, Value};
use std::alloc::Global;

/// The largest integer that has an exact neighbor among floats.
const EXACT: i64 = 9_007_199_254_740_992;

/// How many levels of a schema are followed, one into the other.
pub const LEVELS: usize = 120;

/// Texts of the formats that are met.
static FORMATS: [(&str, &str); 9] = [
    ("date", "2000-01-01"),
    ("date-time", "2000-01-01T00:00:00Z"),
    ("email", "a@example.org"),
    ("hostname", "example.org"),
    ("ipv4", "192.0.2.1"),
    ("ipv6", "2001:db8::1"),
    ("time", "00:00:00Z"),
    ("uri", "https://example.org"),
    ("uuid", "00000000-0000-4000-8000-000000000000"),
];

/// Whether a value conforms.
#[derive(Clone, Copy)]
pub(crate) enum Conformity {
    Yes,
    No,
    Unknown,
}

impl Conformity {
    /// What is known in either case.
    fn of(is_met: bool) -> Conformity
        ensures { result ≡ conformity.Yes → is_met ≡ true }
    {
        if is_met {
            Conformity::Yes
        } else {
            Conformity::No
        }
    }

    /// Whether it conforms to both.
    fn and(self, other: Conformity) -> Conformity
        ensures { result ≡ conformity.Yes → (self ≡ conformity.Yes) × (other ≡ conformity.Yes) }
    {
        match (self, other) {
            (Conformity::Yes, Conformity::Yes) => Conformity::Yes,
            (Conformity::No, _) | (_, Conformity::No) => Conformity::No,
            (Conformity::Unknown, _) | (_, Conformity::Unknown) => Conformity::Unknown,
        }
    }

    /// Whether it does not conform.
    fn inverse(self) -> Conformity {
        match self {
            Conformity::Yes => Conformity::No,
            Conformity::No => Conformity::Yes,
            Conformity::Unknown => Conformity::Unknown,
        }
    }

    /// The same, but that it does not conform counts only if that is certain.
    fn where_certain(self, is_certain: bool) -> Conformity
        ensures { result ≡ conformity.Yes → self ≡ conformity.Yes }
    {
        match self {
            Conformity::No if !is_certain => Conformity::Unknown,
            _ => self,
        }
    }
}

/// To how many schemas a value conforms, and of how many that is not known.
#[derive(Clone, Copy)]
pub(crate) struct Tally {
    pub(crate) met: usize,
    unknown: usize,
}

impl Tally {
    /// Whether one is met.
    fn any(self) -> Conformity
        ensures { result ≡ conformity.Yes → 1 ≤ self.met }
    {
        match self {
            Tally { met: 0, unknown: 0 } => Conformity::No,
            Tally { met: 0, .. } => Conformity::Unknown,
            Tally { .. } => Conformity::Yes,
        }
    }

    /// Whether one alone is met.
    fn one(self) -> Conformity
        ensures { result ≡ conformity.Yes → 1 ≤ self.met }
    {
        match self {
            Tally { met: 1, unknown: 0 } => Conformity::Yes,
            Tally {
                met: 0 | 1,
                unknown,
            } if unknown > 0 => Conformity::Unknown,
            Tally { .. } => Conformity::No,
        }
    }
}

/// The text of a format, if it is one of those.
pub(crate) fn text_of_format(format: &str) -> Option<&'static str> {
    for (name, text) in FORMATS.iter() {
        if *name == format {
            return Some(*text);
        }
    }
    None
}

/// What a `$ref` within a document points to; none where it has escapes of a URI.
pub(crate) fn follow_reference<'d>(root: &'d Value, reference: &Value) -> Option<&'d Value>
    ensures { IfSome result (λ schema. refer (view root.now) (view reference.now) ≡ Some (view schema.now)) }
{
    match reference {
        Value::String(reference) => follow_fragment(root, fragment_in(reference.as_str())?),
        _ => None,
    }
}

/// What stands after the `#` of a reference within the document; none where it has escapes of a URI.
fn fragment_in(reference: &str) -> Option<&[u8]>
    ensures { IfSome result (λ fragment. fragment_of reference.now ≡ Some fragment.now) }
{
    let fragment = after_mark(reference)?;
    if fragment.contains(&b'%') {
        return None;
    }
    Some(fragment)
}

/// What stands after the `#` with which a reference begins, if it does.
fn after_mark(reference: &str) -> Option<&[u8]>
    ensures { IfSome result (λ rest. fragment_of reference.now ≡ Some (percent_decode rest.now)) }
{
    match reference.as_bytes() {
        [b'#', rest @ ..] => Some(rest),
        _ => None,
    }
}

/// Whether a value conforms to a document.
pub fn conforms_to(alloc: Global, root: &Value, value: &Value) -> bool
    ensures { result ≡ true → IfSome (tree_value (view value.now)) (IsOfSchema (view root.now)) }
{
    let Ok(draft) = draft_of(alloc, root) else {
        return false;
    };
    if !is_one_base(draft, root) {
        return false;
    }
    conforms(root, LEVELS, root, value)
}

/// Whether a value conforms to a schema of the document, as far as this many levels show, where each `$ref` is looked up
/// in the document itself.
pub fn conforms(root: &Value, levels: usize, schema: &Value, value: &Value) -> bool
    ensures { result ≡ true → IfSome (tree_value (view value.now))
        (conforms_in (view root.now) levels (view schema.now)) }
{
    matches!(Judge { root, levels }.judge(schema, value), Conformity::Yes)
}

/// A document in which each `$ref` is looked up, and how many levels of it are followed.
#[derive(Clone, Copy)]
pub(crate) struct Judge<'d> {
    pub(crate) root: &'d Value,
    pub(crate) levels: usize,
}

impl Judge<'_> {
    /// Whether a value conforms to a schema.
    #[cycle(conform)]
    pub(crate) fn judge(self, schema: &Value, value: &Value) -> Conformity
        ensures { result ≡ conformity.Yes → IfSome (tree_value (view value.now))
            (conforms_in (view self.entry.root.now) self.entry.levels (view schema.now)) }
    {
        if self.levels == 0 {
            return Conformity::Unknown;
        }
        match schema {
            Value::Bool(is_any) => Conformity::of(*is_any),
            Value::Object(rules) => {
                count_keys(value);
                let levels = self.levels - 1;
                Judge { levels, ..self }.judge_rules(schema, rules, value)
            }
            _ => Conformity::Unknown,
        }
    }

    /// Whether a value meets each keyword of a schema.
    #[cycle(conform)]
    fn judge_rules(self, schema: &Value, rules: &Map<String, Value>, value: &Value) -> Conformity
        ensures { result ≡ conformity.Yes → IfSome (tree_value (view value.now)) (MeetsEach (view self.entry.root.now)
            (conforms_in (view self.entry.root.now) self.entry.levels) (view schema.now) (members_view rules.now.entries)) }
    {
        let mut judged = Conformity::Yes;
        for (keyword, rule) in rules.iter() {
            judged = judged.and(self.judge_rule(schema, keyword.as_str(), rule, value));
            if let Conformity::No = judged {
                return Conformity::No;
            }
        }
        judged
    }

    /// Whether a value meets a keyword of a schema. It is certain that it does not only where the draft knows the keyword, and
    /// for no number that is not compared exactly.
    #[cycle(conform)]
    pub(crate) fn judge_rule(
        self,
        schema: &Value,
        keyword: &str,
        rule: &Value,
        value: &Value,
    ) -> Conformity
        ensures { result ≡ conformity.Yes → IfSome (tree_value (view value.now)) (Meets (view self.entry.root.now)
            (conforms_in (view self.entry.root.now) self.entry.levels) (view schema.now) keyword.now (view rule.now)) }
    {
        let judged = match keyword {
            "type" => Conformity::of(is_of_types(rule, value)),
            "const" => Conformity::of(is_constant(rule, value)).where_certain(are_exact(
                rule, value,
            )),
            "enum" => Conformity::of(is_among(rule, value)).where_certain(are_exact(rule, value)),
            "$ref" => match follow_reference(self.root, rule) {
                Some(schema) => self.judge(schema, value),
                None => Conformity::Unknown,
            },
            "anyOf" => self.count_met(rule, value).any(),
            "oneOf" => self.count_met(rule, value).one(),
            "allOf" => self.judge_all(rule, value),
            "not" => self.judge(rule, value).inverse(),
            "if" => self.judge_if(schema, rule, value),
            "$dynamicRef" | "$recursiveRef" => Conformity::Unknown,
            _ => self.judge_of_kind(schema, keyword, rule, value),
        };
        judged.where_certain(!is_inexact(value) && has_effect(self.root, schema, keyword))
    }

    /// Whether a value meets a keyword that speaks of one kind of values.
    #[cycle(conform)]
    fn judge_of_kind(self, schema: &Value, keyword: &str, rule: &Value, value: &Value) -> Conformity
        ensures { result ≡ conformity.Yes → IfSome (tree_value (view value.now)) (MeetsOfKind
            (conforms_in (view self.entry.root.now) self.entry.levels) (view schema.now) keyword.now (view rule.now)) }
    {
        match value {
            Value::Null | Value::Bool(_) => Conformity::Yes,
            Value::Number(number) => judge_number(schema, keyword, rule, number),
            Value::String(text) => judge_text(keyword, rule, text.as_str()),
            Value::Array(items) => match keyword {
                "items" => self.judge_items(schema, rule, items.as_slice()),
                "prefixItems" => self.judge_first(rule, items.as_slice()),
                "additionalItems" => match schema.get("items") {
                    Some(Value::Array(first)) => self.judge_behind(
                        first.len(),
                        rule,
                        items.as_slice(),
                    ),
                    _ => Conformity::Yes,
                },
                "contains" => self.judge_contains(schema, rule, items.as_slice()),
                _ => judge_list(keyword, rule, items.as_slice()),
            },
            Value::Object(members) => match keyword {
                "properties" => self.judge_properties(rule, members),
                "additionalProperties" => self.judge_others(schema, rule, members),
                "patternProperties" => self.judge_patterns(rule, members),
                "propertyNames" => self.judge_names(rule, members),
                "dependentSchemas" | "dependencies" => {
                    self.judge_dependents(rule, value, members)
                }
                _ => judge_map(keyword, rule, members),
            },
        }
    }

    /// Whether a value meets `then` or `else`, whichever it has to.
    #[cycle(conform)]
    fn judge_if(self, schema: &Value, test: &Value, value: &Value) -> Conformity {
        let keyword = match self.judge(test, value) {
            Conformity::Yes => "then",
            Conformity::No => "else",
            Conformity::Unknown => return Conformity::Unknown,
        };
        match schema.get(keyword) {
            Some(branch) => self.judge(branch, value),
            None => Conformity::Yes,
        }
    }

    /// Whether a value conforms to each of the schemas.
    #[cycle(conform)]
    fn judge_all(self, schemas: &Value, value: &Value) -> Conformity
        ensures { result ≡ conformity.Yes → IfSome (tree_value (view value.now))
            (λ v. FitsEach (conforms_in (view self.entry.root.now) self.entry.levels) v (view schemas.now)) }
    {
        let Value::Array(schemas) = schemas else {
            return Conformity::Unknown;
        };
        let mut judged = Conformity::Yes;
        for schema in schemas {
            judged = judged.and(self.judge(schema, value));
        }
        judged
    }

    /// To how many of the schemas a value conforms.
    #[cycle(conform)]
    pub(crate) fn count_met(self, schemas: &Value, value: &Value) -> Tally
        ensures { 1 ≤ result.met → IfSome (tree_value (view value.now))
            (λ v. FitsSome (conforms_in (view self.entry.root.now) self.entry.levels) v (view schemas.now)) }
    {
        let mut met: usize = 0;
        let mut unknown: usize = 0;
        if let Value::Array(schemas) = schemas {
            for schema in schemas {
                match self.judge(schema, value) {
                    Conformity::Yes => met = met.saturating_add(1),
                    Conformity::No => {}
                    Conformity::Unknown => unknown = unknown.saturating_add(1),
                }
            }
        }
        Tally { met, unknown }
    }

    /// Whether each item conforms to `items`, of which there may be a list.
    #[cycle(conform)]
    fn judge_items(self, schema: &Value, rule: &Value, items: &[Value]) -> Conformity
        ensures { result ≡ conformity.Yes → IfSome (tree_items (items_view items.now)) (λ vs.
            IfSome (of_each (is_some (get (codes "prefixItems") (view schema.now))) (view rule.now))
            (FitsItems (conforms_in (view self.entry.root.now) self.entry.levels) (sequence vs))) }
    {
        match rule {
            Value::Array(_) => self.judge_first(rule, items),
            _ => {
                if schema.get("prefixItems").is_some() {
                    self.judge_behind(first_count(self.root, schema), rule, items)
                } else {
                    self.judge_each_item(rule, items)
                }
            }
        }
    }

    /// Whether each item conforms to a schema.
    #[cycle(conform)]
    fn judge_each_item(self, schema: &Value, items: &[Value]) -> Conformity
        ensures { result ≡ conformity.Yes → IfSome (tree_items (items_view items.now))
            (λ vs. FitsItems (conforms_in (view self.entry.root.now) self.entry.levels) (sequence vs) (view schema.now)) }
    {
        let mut judged = Conformity::Yes;
        for item in items {
            judged = judged.and(self.judge(schema, item));
        }
        judged
    }

    /// Whether each of the first items conforms to the schema of its place.
    #[cycle(conform)]
    fn judge_first(self, schemas: &Value, items: &[Value]) -> Conformity {
        let Value::Array(schemas) = schemas else {
            return Conformity::Unknown;
        };
        let mut judged = Conformity::Yes;
        for (schema, item) in schemas.iter().zip(items) {
            judged = judged.and(self.judge(schema, item));
        }
        judged
    }

    /// Whether the items after this many conform to a schema.
    #[cycle(conform)]
    fn judge_behind(self, first: usize, rule: &Value, items: &[Value]) -> Conformity {
        self.judge_each_item(rule, items.get(first..).unwrap_or(&[]))
    }

    /// Whether one of the items conforms to a schema. Where `minContains` stands beside it, it may be that none has to.
    #[cycle(conform)]
    fn judge_contains(self, schema: &Value, rule: &Value, items: &[Value]) -> Conformity {
        let mut judged = Conformity::No;
        for item in items {
            match self.judge(rule, item) {
                Conformity::Yes => return Conformity::Yes,
                Conformity::No => {}
                Conformity::Unknown => judged = Conformity::Unknown,
            }
        }
        judged.where_certain(schema.get("minContains").is_none())
    }

    /// Whether each property conforms to the schema of its name.
    #[cycle(conform)]
    fn judge_properties(self, properties: &Value, members: &Map<String, Value>) -> Conformity
        ensures { result ≡ conformity.Yes → IfSome (tree_entries (members_view members.now.entries))
            (λ es. FitsProperties (conforms_in (view self.entry.root.now) self.entry.levels) (mapping es) (view properties.now)) }
    {
        count_keys(properties);
        let mut judged = Conformity::Yes;
        for (name, member) in members.iter() {
            judged = judged.and(match properties.get(name.as_str()) {
                Some(schema) => self.judge(schema, member),
                None => Conformity::Yes,
            });
        }
        judged
    }

    /// Whether each member that is no property conforms to a schema, also where a pattern may match its key.
    #[cycle(conform)]
    fn judge_others(
        self,
        schema: &Value,
        others: &Value,
        members: &Map<String, Value>,
    ) -> Conformity
        ensures { result ≡ conformity.Yes → IfSome (tree_entries (members_view members.now.entries))
            (λ es. FitsAdditional (conforms_in (view self.entry.root.now) self.entry.levels) (get (codes "properties") (view schema.now))
            (get (codes "patternProperties") (view schema.now)) (mapping es) (view others.now)) }
    {
        let has_patterns = schema.get("patternProperties").is_some();
        let mut judged = Conformity::Yes;
        for (name, member) in members.iter() {
            if !is_property(schema, name.as_str()) {
                let met = self.judge(others, member).where_certain(!has_patterns);
                judged = judged.and(met);
            }
        }
        judged
    }

    /// Whether each member conforms to the schema of each pattern that its key may match.
    #[cycle(conform)]
    fn judge_patterns(self, patterns: &Value, members: &Map<String, Value>) -> Conformity {
        let Value::Object(patterns) = patterns else {
            return Conformity::Unknown;
        };
        let mut judged = Conformity::Yes;
        for (pattern, schema) in patterns.iter() {
            judged = judged.and(self.judge_matches(pattern.as_str(), schema, members));
        }
        judged
    }

    /// Whether each member whose key may match a pattern conforms to a schema.
    #[cycle(conform)]
    fn judge_matches(
        self,
        pattern: &str,
        schema: &Value,
        members: &Map<String, Value>,
    ) -> Conformity {
        let mut judged = Conformity::Yes;
        for (name, member) in members.iter() {
            let is_matched = is_pattern_met(pattern, name.as_str());
            if is_matched != Some(false) {
                let met = self
                    .judge(schema, member)
                    .where_certain(is_matched.is_some());
                judged = judged.and(met);
            }
        }
        judged
    }

    /// Whether each key conforms to a schema.
    #[cycle(conform)]
    fn judge_names(self, schema: &Value, members: &Map<String, Value>) -> Conformity {
        let mut judged = Conformity::Yes;
        for name in members.keys() {
            judged = judged.and(match name.clone() {
                Ok(name) => self.judge(schema, &Value::String(name)),
                Err(_) => Conformity::Unknown,
            });
        }
        judged
    }

    /// Whether a map conforms to the schema of each key that it has, or has each of a list of keys.
    #[cycle(conform)]
    fn judge_dependents(
        self,
        rules: &Value,
        value: &Value,
        members: &Map<String, Value>,
    ) -> Conformity {
        let Value::Object(rules) = rules else {
            return Conformity::Unknown;
        };
        let mut judged = Conformity::Yes;
        for (name, rule) in rules.iter() {
            if members.get(name.as_str()).is_some() {
                judged = judged.and(match rule {
                    Value::Array(_) => Conformity::of(has_all(rule, members)),
                    _ => self.judge(rule, value),
                });
            }
        }
        judged
    }
}

/// How many of the first items have a schema of their own: before 2020-12 `prefixItems` has no effect.
fn first_count(root: &Value, schema: &Value) -> usize {
    match (draft_seen(root), schema.get("prefixItems")) {
        (Draft::Draft2020, Some(Value::Array(prefixes))) => prefixes.len(),
        _ => 0,
    }
}

/// Counts the keys of a value, for what that says: a map has each of them once.
pub(crate) fn count_keys(value: &Value)
    ensures { IfSome (as_object (view value.now)) AreApart }
{
    if let Value::Object(members) = value {
        let _count = members.len();
    }
}

/// Whether a keyword has an effect by the draft of its document. Before 2019-09 none has beside a `$ref`.
pub(crate) fn has_effect(root: &Value, schema: &Value, keyword: &str) -> bool {
    let draft = draft_seen(root);
    let is_since_2019 = draft.is_since_2019();
    let is_read = is_since_2019 || keyword == "$ref" || schema.get("$ref").is_none();
    is_read
        && match keyword {
            "if" => is_since_2019 || matches!(draft, Draft::Draft07),
            "contains" | "propertyNames" => !matches!(draft, Draft::Draft04),
            "dependentRequired" | "dependentSchemas" => is_since_2019,
            "dependencies" => !is_since_2019,
            "prefixItems" => matches!(draft, Draft::Draft2020),
            "additionalItems" => !matches!(draft, Draft::Draft2020),
            _ => true,
        }
}

/// Whether the properties of a schema have this name.
pub(crate) fn is_property(schema: &Value, name: &str) -> bool
    ensures { result ≡ in_properties name.now (get (codes "properties") (view schema.now)) }
{
    match schema.get("properties") {
        Some(properties) => properties.get(name).is_some(),
        None => false,
    }
}

/// Whether a value is of the type of this name, or of one of these.
fn is_of_types(types: &Value, value: &Value) -> bool
    ensures { result ≡ true → IfSome (tree_value (view value.now)) (λ v. IsOfType v (view types.now)) }
{
    match types {
        Value::String(name) => is_of_type(name.as_str(), value),
        Value::Array(names) => {
            for name in names {
                if let Value::String(name) = name {
                    if is_of_type(name.as_str(), value) {
                        return true;
                    }
                }
            }
            false
        }
        _ => false,
    }
}

/// Whether a value is of the type of this name.
fn is_of_type(name: &str, value: &Value) -> bool
    ensures { result ≡ true → IfSome (tree_value (view value.now)) (HasType name.now) }
{
    match name {
        "null" => value.is_null(),
        "boolean" => value.is_boolean(),
        "integer" => value.is_i64() || value.is_u64(),
        "number" => value.is_number(),
        "string" => value.is_string(),
        _ => (name == "array" && value.is_array()) || (name == "object" && value.is_object()),
    }
}

/// Whether a value is this constant.
fn is_constant(constant: &Value, value: &Value) -> bool
    ensures { result ≡ true → IfSome (tree_value (view value.now)) (λ v. IsConstant v (view constant.now)) }
{
    match (constant, value) {
        (Value::Null, Value::Null) => true,
        (Value::Bool(one), Value::Bool(other)) => *one == *other,
        (Value::String(one), Value::String(other)) => one.as_str() == other.as_str(),
        (Value::Number(one), Value::Number(other)) => match one.as_i64() {
            Some(one) => match other.as_i64() {
                Some(other) => one == other,
                None => false,
            },
            None => *constant == *value,
        },
        (Value::Array(_), Value::Array(_)) | (Value::Object(_), Value::Object(_)) => *constant
            == *value,
        _ => false,
    }
}

/// Whether a value is one of these.
fn is_among(values: &Value, value: &Value) -> bool
    ensures { result ≡ true → IfSome (tree_value (view value.now)) (λ v. IsOneOf v (view values.now)) }
{
    let Value::Array(values) = values else {
        return false;
    };
    for one in values {
        if is_constant(one, value) {
            return true;
        }
    }
    false
}

/// Whether one number is at most the other, or below it where that is asked for.
fn is_in_order(one: &Number, other: &Number, is_strict: bool) -> bool {
    match (one.as_i64(), other.as_i64()) {
        (Some(one), Some(other)) => one < other || (one == other && !is_strict),
        _ => match (one.as_f64(), other.as_f64()) {
            (Some(one), Some(other)) => one < other || (one == other && !is_strict),
            _ => false,
        },
    }
}

/// Whether a bound of a schema is none of its values: draft-04 has it so, by a boolean.
pub(crate) fn is_excluded(schema: &Value, keyword: &str) -> bool {
    schema.get(keyword).and_then(Value::as_bool) == Some(true)
}

/// Whether a number is an integer whose neighbours are exact among floats.
fn is_small(number: &Number) -> bool {
    match number.as_i64() {
        Some(number) => -EXACT < number && number < EXACT,
        None => false,
    }
}

/// Whether a value is a number that is not compared exactly.
fn is_inexact(value: &Value) -> bool {
    match value {
        Value::Number(number) => !is_small(number),
        _ => false,
    }
}

/// Whether two values hold no number that is not compared exactly.
fn are_exact(one: &Value, other: &Value) -> bool {
    !has_inexact(one) && !has_inexact(other)
}

/// Whether a value is or holds such a number.
fn has_inexact(value: &Value) -> bool {
    match value {
        Value::Array(items) => {
            for item in items {
                if has_inexact(item) {
                    return true;
                }
            }
            false
        }
        Value::Object(members) => {
            for (_, member) in members.iter() {
                if has_inexact(member) {
                    return true;
                }
            }
            false
        }
        _ => is_inexact(value),
    }
}

/// Whether a number meets a keyword.
fn judge_number(schema: &Value, keyword: &str, rule: &Value, number: &Number) -> Conformity {
    let Value::Number(bound) = rule else {
        return Conformity::Yes;
    };
    let is_exact = is_small(number);
    let is_met = match keyword {
        "minimum" => {
            let is_strict = is_excluded(schema, "exclusiveMinimum");
            is_exact && is_in_order(bound, number, is_strict)
        }
        "maximum" => {
            let is_strict = is_excluded(schema, "exclusiveMaximum");
            is_exact && is_in_order(number, bound, is_strict)
        }
        "exclusiveMinimum" => is_exact && is_in_order(bound, number, true),
        "exclusiveMaximum" => is_exact && is_in_order(number, bound, true),
        "multipleOf" => is_multiple(number, bound),
        _ => true,
    };
    Conformity::of(is_met).where_certain(is_small(bound))
}

/// Whether a number is a multiple of another, as far as whole ones go.
fn is_multiple(number: &Number, step: &Number) -> bool {
    match (number.as_i64(), step.as_i64()) {
        (Some(number), Some(step)) if step > 0 => number % step == 0,
        (Some(number), _) => number == 0,
        _ => false,
    }
}

/// Whether a count is at least, or at most, what a rule says.
fn judge_least(count: usize, rule: &Value) -> Conformity
    ensures { result ≡ conformity.Yes → IsAtLeast count (view rule.now) }
{
    match rule.as_u64() {
        Some(least) => Conformity::of(count as u64 >= least),
        None => Conformity::Unknown,
    }
}

fn judge_most(count: usize, rule: &Value) -> Conformity {
    match rule.as_u64() {
        Some(most) => Conformity::of(count as u64 <= most),
        None => Conformity::Unknown,
    }
}

/// Whether a text meets a keyword.
fn judge_text(keyword: &str, rule: &Value, text: &str) -> Conformity {
    match keyword {
        "minLength" => judge_least(text.chars().count(), rule),
        "maxLength" => judge_most(text.chars().count(), rule),
        "pattern" => Conformity::of(
            rule.as_str()
                .is_some_and(|pattern| is_of_pattern(pattern, text)),
        )
        .where_certain(false),
        "format" => match rule.as_str().and_then(text_of_format) {
            Some(sample) => Conformity::of(text == sample).where_certain(false),
            None => Conformity::Yes,
        },
        _ => Conformity::Yes,
    }
}

/// Whether a list meets a keyword that does not speak of its items.
fn judge_list(keyword: &str, rule: &Value, items: &[Value]) -> Conformity
    ensures { result ≡ conformity.Yes → IfSome (tree_items (items_view items.now))
        (λ vs. keyword.now ≡ codes "minItems" → HasItems (sequence vs) (view rule.now)) }
{
    match keyword {
        "minItems" => judge_least(items.len(), rule),
        "minContains" | "maxContains" | "unevaluatedItems" => Conformity::Unknown,
        "maxItems" => judge_most(items.len(), rule),
        "uniqueItems" => Conformity::of(*rule == Value::Bool(false) || are_distinct(items)),
        _ => Conformity::Yes,
    }
}

/// Whether no item is there twice.
fn are_distinct(items: &[Value]) -> bool {
    match items {
        [] => true,
        [first, rest @ ..] => !rest.iter().any(|other| *other == *first) && are_distinct(rest),
    }
}

/// Whether a map meets a keyword that does not speak of its values.
fn judge_map(keyword: &str, rule: &Value, members: &Map<String, Value>) -> Conformity
    ensures { result ≡ conformity.Yes → IfSome (tree_entries (members_view members.now.entries))
        (λ es. keyword.now ≡ codes "required" → HasKeys (mapping es) (view rule.now)) }
{
    match keyword {
        "minProperties" => judge_least(members.len(), rule),
        "maxProperties" => judge_most(members.len(), rule),
        "required" => Conformity::of(has_all(rule, members)),
        "dependentRequired" => Conformity::of(has_dependent(rule, members)),
        "unevaluatedProperties" => Conformity::Unknown,
        _ => Conformity::Yes,
    }
}

/// Whether a map has each of these keys.
fn has_all(names: &Value, members: &Map<String, Value>) -> bool
    ensures { result ≡ true → IfSome (tree_entries (members_view members.now.entries))
        (λ es. HasKeys (mapping es) (view names.now)) }
{
    let Value::Array(names) = names else {
        return false;
    };
    for name in names {
        if !has_key(name, members) {
            return false;
        }
    }
    true
}

/// Whether a map has this key.
fn has_key(name: &Value, members: &Map<String, Value>) -> bool
    ensures { result ≡ true → IfSome (tree_entries (members_view members.now.entries))
        (λ es. HasKey es (view name.now)) }
{
    match name {
        Value::String(name) => members.get(name.as_str()).is_some(),
        _ => false,
    }
}

/// Whether a map has, for each key of these that it has, the keys under that.
fn has_dependent(rule: &Value, members: &Map<String, Value>) -> bool {
    let Value::Object(rules) = rule else {
        return false;
    };
    for (name, names) in rules.iter() {
        if members.get(name.as_str()).is_some() && !has_all(names, members) {
            return false;
        }
    }
    true
}
