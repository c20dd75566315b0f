//! Where a value does not conform to a schema: the keywords that it does not meet, each with the way to the value and
//! to the keyword. Only what is certain is reported.

use crate::Result;
use crate::conform::{Conformity, Judge, LEVELS, follow_reference, has_effect, is_property};
use crate::provenance::below;
use crate::reference::pointer_to;
use serde_json::{Map, Value, put};
use std::alloc::{AllocError, Global};
use std::mem::replace;

/// The most parts of a value that are held to a part of a schema.
const MOST_VISITS: usize = 200_000;

/// The most bytes of a value that are shown.
const MOST_SHOWN: usize = 60;

/// A keyword of a schema that a part of a value does not meet.
#[derive(Drop)]
pub struct Violation {
    /// The way to the part of the value from the top, the last part first: keys, and indexes as digits.
    pub path: Vec<String>,
    /// The same way as it is shown, as `.a[0].b`; empty at the top.
    pub place: String,
    /// The keyword, as a JSON Pointer into the document.
    pub keyword: String,
    /// What is wrong there, in words.
    pub text: String,
}

/// A part of the way to a value: a key, or the index of an item.
#[derive(Drop)]
struct Step {
    name: String,
    is_item: bool,
}

/// A walk over a value and the schema that it is held to.
#[derive(Drop)]
struct Walk<'w> {
    alloc: Global,
    root: &'w Value,
    /// The way to what is looked at in the value from the top, and in the document as a JSON Pointer.
    path: Vec<Step>,
    way: String,
    found: Vec<Violation>,
    /// How many are wanted at most, and how many parts may still be visited.
    most: usize,
    left: usize,
}

/// The places at which a value does not conform to a document, of which these are at most so many. There are none where it
/// conforms; and there may be none where that is not seen.
///
/// # Errors
///
/// Where memory ran out.
pub fn violations_of(
    alloc: Global,
    root: &Value,
    value: &Value,
    most: usize,
) -> Result<Vec<Violation>, AllocError> {
    let mut walk = Walk {
        alloc,
        root,
        path: Vec::new(alloc),
        way: String::new(alloc),
        found: Vec::new(alloc),
        most,
        left: MOST_VISITS,
    };
    walk.visit(LEVELS, root, value)?;
    Ok(walk.found)
}

impl<'w> Walk<'w> {
    /// Judges by this many levels.
    fn at(&self, levels: usize) -> Judge<'w> {
        let root = self.root;
        Judge { root, levels }
    }

    /// Adds where a value does not conform to a schema.
    #[cycle(violation)]
    fn visit(&mut self, levels: usize, schema: &'w Value, value: &Value) -> Result<()> {
        if levels == 0 || self.left == 0 || self.found.len() >= self.most {
            return Ok(());
        }
        self.left -= 1;
        if let Conformity::Yes = self.at(levels).judge(schema, value) {
            return Ok(());
        }
        match schema {
            Value::Bool(_) => self.add("the schema there allows no value"),
            Value::Object(rules) => self.visit_rules(levels - 1, schema, rules, value),
            _ => Ok(()),
        }
    }

    /// Adds where a value does not meet the keywords of a schema.
    #[cycle(violation)]
    fn visit_rules(
        &mut self,
        levels: usize,
        schema: &'w Value,
        rules: &'w Map<String, Value>,
        value: &Value,
    ) -> Result<()> {
        for (keyword, rule) in rules.iter() {
            let name = keyword.as_str();
            let before = self.go_to(name)?;
            self.visit_rule(levels, schema, name, rule, value)?;
            self.way = before;
        }
        Ok(())
    }

    /// Adds where a value does not meet a keyword.
    #[cycle(violation)]
    fn visit_rule(
        &mut self,
        levels: usize,
        schema: &'w Value,
        keyword: &str,
        rule: &'w Value,
        value: &Value,
    ) -> Result<()> {
        if !has_effect(self.root, schema, keyword) {
            return Ok(());
        }
        match (keyword, value) {
            ("$ref", _) => self.visit_reference(levels, rule, value),
            ("allOf", _) => self.visit_each(levels, rule, value),
            ("properties", Value::Object(members)) => self.visit_properties(levels, rule, members),
            ("additionalProperties", Value::Object(members))
                if schema.get("patternProperties").is_none() => {
                self.visit_others(levels, schema, rule, members)
            }
            ("items", Value::Array(items)) if schema.get("prefixItems").is_none() => {
                self.visit_items(levels, rule, items.as_slice())
            }
            ("required", Value::Object(members)) => self.visit_required(rule, members),
            _ => match self.at(levels).judge_rule(schema, keyword, rule, value) {
                Conformity::No => self.add_unmet(levels, keyword, rule, value),
                Conformity::Yes | Conformity::Unknown => Ok(()),
            },
        }
    }

    /// Adds where a value does not conform to what a `$ref` points to.
    #[cycle(violation)]
    fn visit_reference(
        &mut self,
        levels: usize,
        reference: &'w Value,
        value: &Value,
    ) -> Result<()> {
        let (Some(schema), Some(text)) = (
            follow_reference(self.root, reference),
            reference.as_str(),
        ) else {
            return Ok(());
        };
        let fragment = text.strip_prefix('#').unwrap_or("");
        let way = pointer_to(self.alloc, self.root, fragment)?;
        let before = replace(&mut self.way, way);
        self.visit(levels, schema, value)?;
        self.way = before;
        Ok(())
    }

    /// Adds where a value does not conform to one of these schemas, as each asks.
    #[cycle(violation)]
    fn visit_each(&mut self, levels: usize, schemas: &'w Value, value: &Value) -> Result<()> {
        let Value::Array(schemas) = schemas else {
            return Ok(());
        };
        for (index, schema) in schemas.iter().enumerate() {
            let index = format!(in self.alloc; "{index}")?;
            let before = self.go_to(index.as_str())?;
            self.visit(levels, schema, value)?;
            self.way = before;
        }
        Ok(())
    }

    /// Adds where the values of properties do not conform to their schemas.
    #[cycle(violation)]
    fn visit_properties(
        &mut self,
        levels: usize,
        properties: &'w Value,
        members: &Map<String, Value>,
    ) -> Result<()> {
        for (name, member) in members.iter() {
            if let Some(schema) = properties.get(name.as_str()) {
                let before = self.go_to(name.as_str())?;
                self.enter(name.clone()?, false)?;
                self.visit(levels, schema, member)?;
                let _ = self.path.pop();
                self.way = before;
            }
        }
        Ok(())
    }

    /// Adds where the values that are no properties do not conform to the schema of others.
    #[cycle(violation)]
    fn visit_others(
        &mut self,
        levels: usize,
        schema: &'w Value,
        others: &'w Value,
        members: &Map<String, Value>,
    ) -> Result<()> {
        for (name, member) in members.iter() {
            if is_property(schema, name.as_str()) {
                continue;
            }
            self.enter(name.clone()?, false)?;
            if *others == Value::Bool(false) {
                self.add("not in \"properties\", and \"additionalProperties\" is false")?;
            } else {
                self.visit(levels, others, member)?;
            }
            let _ = self.path.pop();
        }
        Ok(())
    }

    /// Adds where items do not conform to their schema.
    #[cycle(violation)]
    fn visit_items(&mut self, levels: usize, schema: &'w Value, items: &[Value]) -> Result<()> {
        for (index, item) in items.iter().enumerate() {
            let name = format!(in self.alloc; "{index}")?;
            self.enter(name, true)?;
            self.visit(levels, schema, item)?;
            let _ = self.path.pop();
        }
        Ok(())
    }

    /// Goes to a part of the schema that is looked at. Gives the way to that.
    fn go_to(&mut self, part: &str) -> Result<String> {
        let way = below(self.alloc, self.way.as_str(), part)?;
        Ok(replace(&mut self.way, way))
    }

    /// Goes to the value of a key, or to an item.
    fn enter(&mut self, name: String, is_item: bool) -> Result<()> {
        Ok(self.path.push(Step { name, is_item })?)
    }

    /// Adds which keys a map has not that it is required to have.
    fn visit_required(&mut self, names: &Value, members: &Map<String, Value>) -> Result<()> {
        let Value::Array(names) = names else {
            return Ok(());
        };
        for name in names {
            if let Value::String(name) = name {
                if members.get(name.as_str()).is_none() {
                    let text = format!(in self.alloc; "no \"{name}\", which is in \"required\"")?;
                    self.push(text)?;
                }
            }
        }
        Ok(())
    }

    /// Adds that a value does not meet a keyword.
    fn add_unmet(
        &mut self,
        levels: usize,
        keyword: &str,
        rule: &Value,
        value: &Value,
    ) -> Result<()> {
        let shown_value = shown(self.alloc, value)?;
        let text = match keyword {
            "anyOf" | "oneOf" => {
                let is_none = self.at(levels).count_met(rule, value).met == 0;
                let many = if is_none { "none" } else { "more than one" };
                format!(in self.alloc; "{shown_value} conforms to {many} of \"{keyword}\"")?
            }
            _ => {
                let words = words_for(keyword);
                let rule = shown(self.alloc, rule)?;
                format!(in self.alloc; "{shown_value} {words} \"{keyword}\": {rule}")?
            }
        };
        self.push(text)
    }

    /// Adds what is wrong.
    fn add(&mut self, text: &str) -> Result<()> {
        let text = String::from_str(self.alloc, text)?;
        self.push(text)
    }

    /// Adds what is wrong here.
    fn push(&mut self, text: String) -> Result<()> {
        if self.found.len() >= self.most {
            return Ok(());
        }
        let path = names_of(self.alloc, self.path.as_slice())?;
        let place = place_of(self.alloc, self.path.as_slice())?;
        let keyword = self.way.clone()?;
        self.found.push(Violation {
            path,
            place,
            keyword,
            text,
        })?;
        Ok(())
    }
}

/// The words about a value that does not meet a keyword, before the keyword.
fn words_for(keyword: &str) -> &'static str {
    match keyword {
        "type" => "is not of",
        "const" => "is not",
        "enum" => "is none of",
        "minimum" => "is below",
        "maximum" => "is above",
        "minLength" => "is shorter than",
        "maxLength" => "is longer than",
        "exclusiveMinimum" => "is not above",
        "exclusiveMaximum" => "is not below",
        "multipleOf" => "is no multiple of",
        "minItems" | "minProperties" => "has fewer than",
        "maxItems" | "maxProperties" => "has more than",
        "uniqueItems" => "has an item twice, against",
        "dependentRequired" => "lacks a key of",
        "contains" => "has no item of",
        "not" => "conforms to",
        _ => "breaks",
    }
}

/// A value as JSON, of which two dots follow the beginning where it is long.
fn shown(alloc: Global, value: &Value) -> Result<String> {
    match value {
        Value::Array(items) if items.len() > 9 => {
            let count = items.len();
            format!(in alloc; "a list of {count} items")
        }
        Value::Object(members) if members.len() > 3 => {
            let count = members.len();
            format!(in alloc; "a map of {count} keys")
        }
        _ => {
            let text = value.to_string(alloc)?;
            if text.len() <= MOST_SHOWN {
                return Ok(text);
            }
            shorten(alloc, text.as_str())
        }
    }
}

/// The first characters of a text, and two dots.
fn shorten(alloc: Global, text: &str) -> Result<String> {
    let mut short = String::new(alloc);
    for letter in text.chars().take(MOST_SHOWN) {
        short.push(letter)?;
    }
    short.push_str("..")?;
    Ok(short)
}

/// The names of a way, the last first.
fn names_of(alloc: Global, path: &[Step]) -> Result<Vec<String>> {
    let mut names = Vec::new(alloc);
    for step in path.iter().rev() {
        names.push(String::from_str(alloc, step.name.as_str())?)?;
    }
    Ok(names)
}

/// A way as it is shown.
fn place_of(alloc: Global, path: &[Step]) -> Result<String> {
    let mut place = String::new(alloc);
    for step in path {
        let name = step.name.as_str();
        if step.is_item {
            write!(place, "[{name}]")?;
        } else {
            write!(place, ".{name}")?;
        }
    }
    Ok(place)
}
