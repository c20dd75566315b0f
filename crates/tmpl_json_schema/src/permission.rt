//! Why a document lets through what may be a fault of a template.
ghost use Rattle.std.specs.Prelude.{IfOk, IfSome};
ghost use Rattle.tmpl_json_schema.specs.Permission.{Explains, IsFor, absence, few, kind, sort_of};

use crate::fields::{has_content, least_items, requires_key};
use crate::kinds::{Kinds, is_every_kind};
use crate::provenance::{Document, Lost, Provenance, below};
use serde_json::Value;

/// What a document may let through.
#[derive(Clone, Copy)]
pub enum Gap<'g> {
    /// That the field of this name is absent.
    Absence(&'g str),
    /// A value of the kind of this word.
    Kind(&'g str),
    /// A list of fewer items than this.
    FewItems(u64),
}

/// Why a document lets it through.
#[derive(Clone, Copy)]
pub enum Why {
    /// The field is none of the names in this `required`.
    NotRequired,
    /// The field is a property of this schema, which has no `required`.
    NoneRequired,
    /// The field is none of these `properties`.
    NotListed,
    /// This schema has no `properties`.
    NoneListed,
    /// This lets values of that kind through.
    Kind,
    /// This `minItems` is too small.
    LowMinItems,
    /// This schema of lists has no `minItems`.
    NoMinItems,
}

/// What in a document lets it through.
#[derive(Drop)]
pub struct Permission {
    pub why: Why,
    /// The JSON Pointer of the keyword, or of the schema that has none.
    pub pointer: String,
}

/// A permission, where there is one.
type Found = Result<Option<Permission>, Lost>;

/// Whether a schema without alternatives and with these kinds lets values of the kind of this word through; none where
/// that is not known.
fn lets_kind(schema: &Value, kinds: Kinds, word: &str) -> Option<bool> {
    match word {
        "any value" => Some(!has_content(schema) && is_every_kind(kinds)),
        "null" => Some(kinds.null),
        "a boolean" => Some(kinds.truth),
        "a number" => Some(kinds.number),
        "a text" => Some(kinds.text),
        "a list" => Some(kinds.list),
        _ => None,
    }
}

impl<'d> Document<'d> {
    /// Why the document lets a gap through at the values that come from there, where it does so at one place alone.
    pub fn permission(&self, provenance: &Provenance, gap: Gap<'_>) -> Found
        ensures { IfOk result (λ found. IfSome found (Explains gap.entry)) }
    {
        let plain = self.plain(provenance)?;
        let mut only: Option<Permission> = None;
        for place in plain.places.as_slice() {
            if let Some(permission) = self.permission_at(place.as_str(), plain.is_there, gap)? {
                if only.is_some() {
                    return Ok(None);
                }
                only = Some(permission);
            }
        }
        Ok(only)
    }

    /// Why the schema at a plain place lets a gap through, if it does.
    fn permission_at(&self, place: &str, is_there: bool, gap: Gap<'_>) -> Found
        ensures { IfOk result (λ found. IfSome found (Explains gap.entry)) }
    {
        match gap {
            Gap::Absence(name) => self.absence_at(place, name),
            Gap::Kind(word) => self.kind_at(place, is_there, word),
            Gap::FewItems(count) => self.few_items_at(place, count),
        }
    }

    /// Why a map of the schema at a plain place may have no such field.
    fn absence_at(&self, place: &str, name: &str) -> Found
        ensures { IfOk result (λ found. IfSome found (IsFor absence)) }
    {
        let schema = self.schema_at(place)?;
        if !self.kinds(schema)?.map || requires_key(schema, name) {
            return Ok(None);
        }
        match schema.get("properties") {
            Some(properties) if properties.get(name).is_none() => {
                self.permission_under(Why::NotListed, place, "properties")
            }
            Some(_) if schema.get("required").is_some() => {
                self.permission_under(Why::NotRequired, place, "required")
            }
            Some(_) => self.permission_by(Why::NoneRequired, place),
            None => self.permission_by(Why::NoneListed, place),
        }
    }

    /// Why a value of the schema at a plain place may be of the kind of this word.
    fn kind_at(&self, place: &str, is_there: bool, word: &str) -> Found
        ensures { IfOk result (λ found. IfSome found (IsFor kind)) }
    {
        let schema = self.schema_at(place)?;
        match lets_kind(schema, self.kinds(schema)?, word) {
            Some(_) if word == "null" && !is_there => Err(Lost::Untold),
            Some(true) => self.kind_by(schema, place),
            Some(false) => Ok(None),
            None => Err(Lost::Untold),
        }
    }

    /// What lets a kind of values through in this schema at a place.
    fn kind_by(&self, schema: &Value, place: &str) -> Found
        ensures { IfOk result (λ found. IfSome found (IsFor kind)) }
    {
        for keyword in ["type", "enum", "const"] {
            if schema.get(keyword).is_some() {
                return self.permission_under(Why::Kind, place, keyword);
            }
        }
        self.permission_by(Why::Kind, place)
    }

    /// Why a list of the schema at a plain place may have fewer items than this.
    fn few_items_at(&self, place: &str, count: u64) -> Found
        ensures { IfOk result (λ found. IfSome found (IsFor few)) }
    {
        let schema = self.schema_at(place)?;
        if !self.kinds(schema)?.list {
            return Ok(None);
        }
        match least_items(schema) {
            Some(least) if least >= count => Ok(None),
            Some(_) => self.permission_under(Why::LowMinItems, place, "minItems"),
            None => self.permission_by(Why::NoMinItems, place),
        }
    }

    /// The permission of a keyword of the schema at a place.
    fn permission_under(&self, why: Why, place: &str, keyword: &str) -> Found
        ensures { IfOk result (λ found. IfSome found (IsFor (sort_of why))) }
    {
        let pointer = below(self.alloc, place, keyword)?;
        Ok(Some(Permission { why, pointer }))
    }

    /// The permission of the schema at a place.
    fn permission_by(&self, why: Why, place: &str) -> Found
        ensures { IfOk result (λ found. IfSome found (IsFor (sort_of why))) }
    {
        let pointer = String::from_str(self.alloc, place)?;
        Ok(Some(Permission { why, pointer }))
    }
}
