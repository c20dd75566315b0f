//! Values of a schema: one for each way to choose, where there are several.

ghost use Rattle.std.specs.Prelude.{◌≡◌, []};

use crate::Result;
use crate::conform::{
    LEVELS, conforms, follow_reference, is_excluded, is_property, text_of_format,
};
use crate::fields::{has_content, least_in, requires_key};
use crate::pattern::{REPEATS, text_of_pattern};
use crate::read::{alternatives_in, has_applicators, items_in};
use serde_json::{Map, Value};
use std::alloc::{AllocError, Global};
use std::str::from_utf8;

/// After how many references, one into the other, what may be left out is, and after how many no value is made.
const FEW_REFERENCES: usize = 1;

const MOST_REFERENCES: usize = 12;

/// The most parts that a value has.
const MOST_PARTS: usize = 1_000;

/// The longest text that is made.
const LETTERS: &str =
    "aaaaaaaaaaaaaaaaaaaaaaaaaaaaaaaaaaaaaaaaaaaaaaaaaaaaaaaaaaaaaaaaaaaaaaaaaaaaaaaaaaaaaaaaaaaaaaaaaaaa";

/// The keywords of numbers, and what is added to what stands under them for a number that is of the schema.
static BOUNDS: [(&str, i64); 5] = [
    ("minimum", 0),
    ("maximum", 0),
    ("exclusiveMinimum", 1),
    ("exclusiveMaximum", -1),
    ("multipleOf", 0),
];

/// The longest list that is made.
const LONGEST: u64 = 100;

/// The key of a member that is no property.
const OTHER_KEY: &str = "other";

/// Another choice than the usual one, at the point of this number: the usual one is 0 away.
#[derive(Clone, Copy)]
pub struct Flip {
    pub point: usize,
    pub away: usize,
}

/// How a value is made: what is chosen, and between how many at each point.
#[derive(Drop)]
pub struct Draw<'d> {
    root: &'d Value,
    alloc: Global,
    flips: &'d [Flip],
    /// Whether usually what may be left out is.
    is_lean: bool,
    /// Between how many was chosen, at each point.
    pub counts: Vec<usize>,
    pub parts: usize,
    references: usize,
}

/// A value, if one is made.
type Drawn = Result<Option<Value>>;

impl<'d> Draw<'d> {
    /// Nothing is made or chosen yet.
    pub fn new(alloc: Global, root: &'d Value, is_lean: bool, flips: &'d [Flip]) -> Draw<'d>
        ensures { (result.counts.items ≡ []) × (result.parts ≡ 0) × (result.is_lean ≡ is_lean) × (result.flips.now ≡ flips.now) }
    {
        Draw {
            root,
            alloc,
            flips,
            is_lean,
            counts: Vec::new(alloc),
            parts: 0,
            references: 0,
        }
    }

    /// A value of the whole document, if one is made. It need not conform.
    pub fn whole(&mut self) -> Result<Option<Value>, AllocError> {
        let root = self.root;
        self.of_schema(LEVELS, root)
    }

    /// Chooses one of this many, which is usually this.
    fn choose(&mut self, count: usize, usual: usize) -> Result<usize> {
        let point = self.counts.len();
        self.counts.push(count)?;
        for flip in self.flips {
            if flip.point == point && count > 0 {
                return Ok(usual.saturating_add(flip.away) % count);
            }
        }
        Ok(usual)
    }

    /// Chooses whether what may be left out is there.
    fn keeps(&mut self) -> Result<bool> {
        let is_left = self.is_lean || self.references > FEW_REFERENCES;
        Ok(self.choose(2, usize::from(is_left))? == 0)
    }

    /// A value of a schema.
    #[cycle(draw)]
    fn of_schema(&mut self, levels: usize, schema: &Value) -> Drawn {
        self.parts = self.parts.saturating_add(1);
        if levels == 0 || self.parts > MOST_PARTS {
            return Ok(None);
        }
        let fewer = levels - 1;
        match schema {
            Value::Bool(true) => self.of_any(),
            Value::Object(_) => self.of_object(fewer, schema),
            _ => Ok(None),
        }
    }

    /// A value of a schema that is an object: of what its `$ref` points to, of its types, of one of its alternatives and of
    /// each part of `allOf`, as far as these are there; maps are merged.
    #[cycle(draw)]
    fn of_object(&mut self, levels: usize, schema: &Value) -> Drawn {
        if let Some(reference) = schema.get("$ref") {
            let target = self.of_reference(levels, reference)?;
            if !has_content(schema) && !has_applicators(schema) {
                return Ok(target);
            }
            let own = self.of_keywords(levels, schema)?;
            return Ok(merge(self.alloc, target, own)?);
        }
        if let Some(constant) = schema.get("const") {
            return Ok(Some(constant.clone()?));
        }
        if let Some(Value::Array(constants)) = schema.get("enum") {
            let index = self.choose(constants.len(), 0)?;
            return match constants.get(index) {
                Some(constant) => Ok(Some(constant.clone()?)),
                None => Ok(None),
            };
        }
        self.of_keywords(levels, schema)
    }

    /// A value of the types of a schema, of one of its alternatives and of each part of `allOf`.
    #[cycle(draw)]
    fn of_keywords(&mut self, levels: usize, schema: &Value) -> Drawn {
        let mut whole = if has_content(schema) || !has_applicators(schema) {
            self.of_types(levels, schema)?
        } else {
            None
        };
        if let Some(Value::Array(choices)) = alternatives_in(schema) {
            let index = self.choose(choices.len(), 0)?;
            if let Some(choice) = choices.get(index) {
                let value = self.of_schema(levels, choice)?;
                whole = merge(self.alloc, whole, value)?;
            }
        }
        match schema.get("allOf") {
            Some(Value::Array(parts)) => self.with_parts(levels, whole, parts.as_slice()),
            _ => Ok(whole),
        }
    }

    /// The value, merged with one of each part.
    #[cycle(draw)]
    fn with_parts(&mut self, levels: usize, whole: Option<Value>, parts: &[Value]) -> Drawn {
        let mut whole = whole;
        for part in parts {
            let value = self.of_schema(levels, part)?;
            whole = merge(self.alloc, whole, value)?;
        }
        Ok(whole)
    }

    /// A value of what a `$ref` points to.
    #[cycle(draw)]
    fn of_reference(&mut self, levels: usize, reference: &Value) -> Drawn {
        let root = self.root;
        let Some(schema) = follow_reference(root, reference) else {
            return Ok(None);
        };
        if self.references >= MOST_REFERENCES {
            return Ok(None);
        }
        self.references = self.references.saturating_add(1);
        let value = self.of_schema(levels, schema)?;
        self.references = self.references.saturating_sub(1);
        Ok(value)
    }

    /// A value of one of the types of a schema.
    #[cycle(draw)]
    fn of_types(&mut self, levels: usize, schema: &Value) -> Drawn {
        match schema.get("type") {
            Some(Value::String(name)) => self.of_type(levels, schema, name.as_str()),
            Some(Value::Array(names)) => {
                let index = self.choose(names.len(), 0)?;
                match names.get(index) {
                    Some(Value::String(name)) => self.of_type(levels, schema, name.as_str()),
                    _ => Ok(None),
                }
            }
            _ if is_map_schema(schema) && self.choose(2, 0)? == 0 => self.of_map(levels, schema),
            _ if is_list_schema(schema) && self.choose(2, 0)? == 0 => {
                self.of_list(levels, schema)
            }
            _ => self.of_any(),
        }
    }

    /// A value of the type of this name.
    #[cycle(draw)]
    fn of_type(&mut self, levels: usize, schema: &Value, name: &str) -> Drawn {
        match name {
            "null" => Ok(Some(Value::Null)),
            "boolean" => Ok(Some(Value::Bool(self.choose(2, 0)? == 0))),
            "string" => self.of_text(schema),
            "array" => self.of_list(levels, schema),
            "object" => self.of_map(levels, schema),
            _ => self.of_number(schema),
        }
    }

    /// A value of any kind.
    fn of_any(&mut self) -> Drawn {
        let alloc = self.alloc;
        Ok(Some(match self.choose(6, 0)? {
            0 => Value::try_from_str(alloc, "a")?,
            1 => Value::Null,
            2 => Value::Object(Map::new(alloc)),
            3 => Value::Array(Vec::new(alloc)),
            4 => Value::from(1_i64),
            _ => Value::Bool(true),
        }))
    }

    /// One of these values, of which those count that are of the schema.
    fn one_of(&mut self, schema: &Value, values: Vec<Value>) -> Drawn {
        let root = self.root;
        let mut fit = values;
        fit.retain(|value| conforms(root, LEVELS, schema, value));
        let mut index = self.choose(fit.len(), 0)?;
        for value in fit.into_iter() {
            if index == 0 {
                return Ok(Some(value));
            }
            index = index.saturating_sub(1);
        }
        Ok(None)
    }

    /// A number: a small one, or one at a bound.
    fn of_number(&mut self, schema: &Value) -> Drawn {
        let mut values: Vec<Value> = Vec::new(self.alloc);
        for number in [1_i64, 0, -1] {
            values.push(Value::from(number))?;
        }
        for (keyword, step) in BOUNDS.iter() {
            if let Some(number) = bound_in(schema, *keyword, *step) {
                values.push(Value::from(number))?;
            }
        }
        self.one_of(schema, values)
    }

    /// A text: a short one, or one of the least length, of a format or of a pattern.
    fn of_text(&mut self, schema: &Value) -> Drawn {
        let mut values: Vec<Value> = Vec::new(self.alloc);
        for text in ["a", "", least_text(schema), format_text(schema)] {
            values.push(Value::try_from_str(self.alloc, text)?)?;
        }
        self.add_of_pattern(schema, &mut values)?;
        values.dedup();
        self.one_of(schema, values)
    }

    /// Adds texts of the pattern of a schema, if it has one that is read.
    fn add_of_pattern(&self, schema: &Value, values: &mut Vec<Value>) -> Result<()> {
        let Some(Value::String(pattern)) = schema.get("pattern") else {
            return Ok(());
        };
        for repeats in REPEATS {
            if let Some(text) = text_of_pattern(pattern.as_str(), repeats) {
                let text = from_utf8(text.as_bytes()).unwrap_or("");
                values.push(Value::try_from_str(self.alloc, text)?)?;
            }
        }
        Ok(())
    }

    /// A list: usually of one item, or of as many as there have to be.
    #[cycle(draw)]
    fn of_list(&mut self, levels: usize, schema: &Value) -> Drawn {
        let least = least_in(schema);
        let is_empty = self.is_lean || self.references > FEW_REFERENCES;
        let length = match self.choose(3, usize::from(is_empty))? {
            0 => least.max(1),
            1 => least,
            _ => least.max(1).saturating_add(1),
        };
        let mut items: Vec<Value> = Vec::new(self.alloc);
        for index in 0..length.min(LONGEST) {
            let item = match item_schema(schema, index as usize) {
                Some(items) => self.of_schema(levels, items)?,
                None => self.of_any()?,
            };
            match item {
                Some(item) => items.push(item)?,
                None => break,
            }
        }
        Ok(Some(Value::Array(items)))
    }

    /// A map.
    #[cycle(draw)]
    fn of_map(&mut self, levels: usize, schema: &Value) -> Drawn {
        let mut members: Map<String, Value> = Map::new(self.alloc);
        if let Some(Value::Object(properties)) = schema.get("properties") {
            for (name, property) in properties.iter() {
                if requires_key(schema, name.as_str()) || self.keeps()? {
                    if let Some(value) = self.of_schema(levels, property)? {
                        serde_json::put(&mut members, self.alloc, name.as_str(), value)?;
                    }
                }
            }
        }
        if let Some(Value::Array(names)) = schema.get("required") {
            for name in names {
                if let Value::String(name) = name {
                    if !is_property(schema, name.as_str()) {
                        self.add_other(levels, schema, name.as_str(), &mut members)?;
                    }
                }
            }
        }
        if let Some(Value::Object(patterns)) = schema.get("patternProperties") {
            self.add_of_patterns(levels, patterns, &mut members)?;
        }
        if self.has_others(schema)? {
            self.add_other(levels, schema, OTHER_KEY, &mut members)?;
        }
        Ok(Some(Value::Object(members)))
    }

    /// Adds members whose keys match patterns.
    #[cycle(draw)]
    fn add_of_patterns(
        &mut self,
        levels: usize,
        patterns: &Map<String, Value>,
        members: &mut Map<String, Value>,
    ) -> Result<()> {
        for (pattern, schema) in patterns.iter() {
            let Some(text) = text_of_pattern(pattern.as_str(), 0) else {
                continue;
            };
            let name = from_utf8(text.as_bytes()).unwrap_or("");
            if members.get(name).is_none() && self.keeps()? {
                if let Some(value) = self.of_schema(levels, schema)? {
                    serde_json::put(members, self.alloc, name, value)?;
                }
            }
        }
        Ok(())
    }

    /// Chooses whether a map has a member that is no property: usually where it has no properties.
    fn has_others(&mut self, schema: &Value) -> Result<bool> {
        if is_property(schema, OTHER_KEY) || requires_key(schema, OTHER_KEY) {
            return Ok(false);
        }
        match schema.get("additionalProperties") {
            Some(Value::Bool(false)) => Ok(false),
            _ => {
                let is_left = self.is_lean || schema.get("properties").is_some();
                Ok(self.choose(2, usize::from(is_left))? == 0)
            }
        }
    }

    /// Adds a member that is no property.
    #[cycle(draw)]
    fn add_other(
        &mut self,
        levels: usize,
        schema: &Value,
        name: &str,
        members: &mut Map<String, Value>,
    ) -> Result<()> {
        let value = match schema.get("additionalProperties") {
            Some(others) => self.of_schema(levels, others)?,
            None => self.of_any()?,
        };
        match value {
            Some(value) => serde_json::put(members, self.alloc, name, value),
            None => Ok(()),
        }
    }
}

/// Two maps as one, or else the first value that there is.
fn merge(alloc: Global, first: Option<Value>, second: Option<Value>) -> Drawn {
    match (first, second) {
        (Some(Value::Object(members)), Some(Value::Object(more))) => {
            let mut members = members;
            for (name, member) in more.iter() {
                serde_json::put(&mut members, alloc, name.as_str(), member.clone()?)?;
            }
            Ok(Some(Value::Object(members)))
        }
        (Some(first), _) => Ok(Some(first)),
        (None, second) => Ok(second),
    }
}

/// The schema of the item of this index, if there is one.
fn item_schema(schema: &Value, index: usize) -> Option<&Value> {
    let prefixes = match schema.get("prefixItems") {
        Some(prefixes) => Some(prefixes),
        None => schema.get("items"),
    };
    match prefixes {
        Some(Value::Array(prefixes)) if index < prefixes.len() => prefixes.get(index),
        Some(Value::Array(_)) => match schema.get("items") {
            Some(Value::Array(_)) => schema.get("additionalItems"),
            items => items,
        },
        _ => items_in(schema),
    }
}

/// A number by what stands under a keyword.
fn bound_in(schema: &Value, keyword: &str, step: i64) -> Option<i64> {
    let step = match keyword {
        "minimum" if is_excluded(schema, "exclusiveMinimum") => 1,
        "maximum" if is_excluded(schema, "exclusiveMaximum") => -1,
        _ => step,
    };
    schema.get(keyword)?.as_i64()?.checked_add(step)
}

/// A text of the least length, if it is not too long.
fn least_text(schema: &Value) -> &'static str {
    match schema.get("minLength") {
        Some(Value::Number(least)) => match least.as_u64() {
            Some(least) if least < 100 => LETTERS.get(..least as usize).unwrap_or(""),
            _ => "",
        },
        _ => "",
    }
}

/// A text of the format.
fn format_text(schema: &Value) -> &'static str {
    match schema.get("format") {
        Some(Value::String(format)) => text_of_format(format.as_str()).unwrap_or(""),
        _ => "",
    }
}

/// Whether a schema speaks of fields.
fn is_map_schema(schema: &Value) -> bool {
    schema.get("properties").is_some()
        || schema.get("required").is_some()
        || schema.get("additionalProperties").is_some()
        || schema.get("patternProperties").is_some()
}

/// Whether a schema speaks of items.
fn is_list_schema(schema: &Value) -> bool {
    schema.get("items").is_some() || schema.get("prefixItems").is_some()
}
