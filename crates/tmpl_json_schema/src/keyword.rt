//! Looks through the keywords of a document: what is wrong with one, and of which to warn.
use crate::Result;
use crate::fault::{Refused, SchemaFault, at_index, refusal, refusal_by, refusal_of, under};
use crate::known::{is_keyword, near_keyword};
use crate::reference::{follow_fragment, fragment_of, parts_of, under_fragment};
use serde_json::Value;
use std::alloc::Global;
use tmpl_values::Bytes;

/// The most warnings that are given.
const MOST_WARNINGS: usize = 100;

/// What stands under a keyword.
#[derive(Clone, Copy)]
enum Keyword {
    /// What is read elsewhere, or may be anything.
    Any,
    /// A reference to another schema.
    Reference,
    /// The draft.
    Draft,
    Number,
    /// A number, or, by draft-04, whether a bound is excluded.
    Bound,
    Count,
    Text,
    Truth,
    Object,
    Unknown,
}

/// The keyword of this name.
fn keyword_of(name: &str) -> Keyword {
    match name {
        "$ref" => Keyword::Reference,
        "$schema" => Keyword::Draft,
        "$id" | "pattern" | "format" => Keyword::Text,
        "minimum" | "maximum" | "multipleOf" => Keyword::Number,
        "exclusiveMinimum" | "exclusiveMaximum" => Keyword::Bound,
        "minItems" | "maxItems" | "minLength" | "maxLength" => Keyword::Count,
        "minProperties" | "maxProperties" => Keyword::Count,
        "uniqueItems" => Keyword::Truth,
        "dependentRequired" | "dependentSchemas" | "dependencies" => Keyword::Object,
        "properties" | "patternProperties" | "$defs" | "definitions" => Keyword::Object,
        _ if is_keyword(name) => Keyword::Any,
        _ => Keyword::Unknown,
    }
}

/// Whether it is an integer from 0 on, which may be written as `2.0`.
fn is_count(value: &Value) -> bool {
    value.as_u64().is_some()
        || value
            .as_f64()
            .is_some_and(|number| number >= 0.0 && number.fract() == 0.0)
}

/// Whether what stands under a keyword is what it wants; if not, what that is.
fn expectation(keyword: Keyword, value: &Value) -> Option<&'static str> {
    match keyword {
        Keyword::Number if !value.is_number() => Some("a number is wanted"),
        Keyword::Bound if !value.is_number() && !value.is_boolean() => Some("a number is wanted"),
        Keyword::Count if !is_count(value) => Some("an integer from 0 on is wanted"),
        Keyword::Text | Keyword::Reference | Keyword::Draft if !value.is_string() => {
            Some("a text is wanted")
        }
        Keyword::Truth if !value.is_boolean() => Some("true or false is wanted"),
        Keyword::Object if !value.is_object() => Some("an object is wanted"),
        _ => None,
    }
}

/// What a value of a document is.
#[derive(Clone, Copy)]
enum Part {
    /// A schema, or a list of them.
    Schema,
    /// Schemas by their names, or a list of them.
    Schemas,
    Other,
}

/// What stands under a keyword.
fn part_under(keyword: &str) -> Part {
    match keyword {
        "items" | "additionalProperties" | "additionalItems" | "contains" => Part::Schema,
        "not" | "if" | "then" | "else" | "propertyNames" => Part::Schema,
        "unevaluatedItems" | "unevaluatedProperties" => Part::Schema,
        "anyOf" | "oneOf" | "allOf" | "prefixItems" => Part::Schemas,
        "properties" | "patternProperties" | "dependentSchemas" | "dependencies" => Part::Schemas,
        _ => Part::Other,
    }
}

/// What is looked for in a document, and what was found.
#[derive(Drop)]
struct Search<'d> {
    alloc: Global,
    root: &'d Value,
    /// Whether each `$ref` is looked up in the document itself.
    is_one_base: bool,
    warnings: Vec<Refused>,
}

impl Search<'_> {
    /// Adds a warning, unless there is one of the same words.
    fn warn(&mut self, text: String) -> Result<()> {
        if self.warnings.len() >= MOST_WARNINGS
            || self.warnings.iter().any(|other| other.text == text)
        {
            return Ok(());
        }
        let path = Vec::new(self.alloc);
        self.warnings.push(Refused { path, text })?;
        Ok(())
    }

    /// Warns of what this text is about.
    fn warn_of(&mut self, before: &str, name: &str, after: &str) -> Result<(), SchemaFault> {
        match refusal_of(self.alloc, before, name, after) {
            SchemaFault::Refused(refused) => Ok(self.warn(refused.text)?),
            SchemaFault::OutOfMemory => Err(SchemaFault::OutOfMemory),
        }
    }

    /// Places the warnings from this one on under a key.
    fn place(&mut self, first: usize, key: &str) -> Result<()> {
        for warning in self.warnings.iter_mut().skip(first) {
            warning.path.push(String::from_str(self.alloc, key)?)?;
        }
        Ok(())
    }

    /// Looks at a `$ref`: what it points to, or warns that it is not looked up.
    fn look_at_reference(&mut self, reference: &str) -> Result<(), SchemaFault> {
        let fragment = fragment_of(self.alloc, reference)?;
        match fragment.as_ref().filter(|_| self.is_one_base) {
            Some(fragment) if follow_fragment(self.root, fragment.as_slice()).is_some() => Ok(()),
            Some(fragment) if is_pointer(fragment.as_slice()) => {
                Err(refusal_of(self.alloc, "nothing is at ", reference, " in the document"))
            }
            _ => self.warn_of("", reference, " is not looked up: any value may be there"),
        }
    }

    /// Whether it is what names the draft of the document.
    fn is_draft(&self, value: &Value) -> bool {
        match self.root.get("$schema") {
            Some(draft) => *draft == *value,
            None => false,
        }
    }

    /// Looks at a keyword of a schema.
    fn look_at(&mut self, name: &str, value: &Value) -> Result<(), SchemaFault> {
        let keyword = keyword_of(name);
        if let Some(text) = expectation(keyword, value) {
            return Err(refusal(self.alloc, text));
        }
        match (keyword, value) {
            (Keyword::Unknown, _) => match near_keyword(name) {
                Some(near) => Err(unknown(self.alloc, name, near)),
                None => self.warn_of("the keyword ", name, " is not known, and has no effect"),
            },
            (Keyword::Draft, _) if !self.is_draft(value) => Err(refusal_of(
                self.alloc,
                "another ",
                name,
                " than that of the document is not understood",
            )),
            (Keyword::Reference, Value::String(text)) => self.look_at_reference(text.as_str()),
            _ => Ok(()),
        }
    }

    /// Looks at each keyword of a schema.
    fn look_at_each(&mut self, schema: &Value) -> Result<(), SchemaFault> {
        let Value::Object(members) = schema else {
            return Ok(());
        };
        for (name, value) in members.iter() {
            let first = self.warnings.len();
            if let Err(fault) = self.look_at(name.as_str(), value) {
                return Err(under(self.alloc, fault, name.as_str()));
            }
            self.place(first, name.as_str())?;
        }
        Ok(())
    }
}

/// Whether it is a JSON Pointer, and no other name.
fn is_pointer(text: &[u8]) -> bool {
    matches!(text, [] | [b'/', ..])
}

/// The refusal of a keyword that is near another.
fn unknown(alloc: Global, name: &str, near: &str) -> SchemaFault {
    refusal_by(
        alloc,
        format!(in alloc; "the keyword \"{name}\" is not known: write \"{near}\""),
    )
}

/// Looks through a part of a document.
fn search_part(search: &mut Search<'_>, part: Part, value: &Value) -> Result<(), SchemaFault> {
    match value {
        Value::Object(members) => {
            if let Part::Schema = part {
                search.look_at_each(value)?;
            }
            for (key, member) in members.iter() {
                let inner = match part {
                    Part::Schema => part_under(key.as_str()),
                    Part::Schemas => Part::Schema,
                    Part::Other => return Ok(()),
                };
                let first = search.warnings.len();
                if let Err(fault) = search_part(search, inner, member) {
                    return Err(under(search.alloc, fault, key.as_str()));
                }
                search.place(first, key.as_str())?;
            }
        }
        Value::Array(items) => {
            for (index, item) in items.iter().enumerate() {
                let inner = match part {
                    Part::Schema | Part::Schemas => Part::Schema,
                    Part::Other => return Ok(()),
                };
                let first = search.warnings.len();
                if let Err(fault) = search_part(search, inner, item) {
                    return Err(at_index(search.alloc, fault, index));
                }
                let key = format!(in search.alloc; "{index}")?;
                search.place(first, key.as_str())?;
            }
        }
        Value::Null | Value::Bool(_) | Value::Number(_) | Value::String(_) => {}
    }
    Ok(())
}

/// Looks through what a `$ref` points to that is `#` and this.
fn search_at(search: &mut Search<'_>, fragment: &[u8]) -> Result<(), SchemaFault> {
    let Some(schema) = follow_fragment(search.root, fragment) else {
        return Ok(());
    };
    let first = search.warnings.len();
    let found = search_part(search, Part::Schema, schema);
    for part in parts_of(search.alloc, search.root, fragment)?.iter().rev() {
        search.place(first, part.as_str())?;
    }
    match found {
        Ok(()) => Ok(()),
        Err(fault) => Err(under_fragment(search.alloc, search.root, fault, fragment)),
    }
}

/// Refuses a document with a keyword that is near another, or under which stands what it does not want, in the schemas at
/// its top and to which these fragments refer. Gives of what to warn.
pub(crate) fn check_keywords(
    alloc: Global,
    root: &Value,
    is_one_base: bool,
    names: &[Bytes],
) -> Result<Vec<Refused>, SchemaFault> {
    let mut search = Search {
        alloc,
        root,
        is_one_base,
        warnings: Vec::new(alloc),
    };
    search_part(&mut search, Part::Schema, root)?;
    for name in names {
        search_at(&mut search, name.as_slice())?;
    }
    let Search { warnings, .. } = search;
    Ok(warnings)
}
