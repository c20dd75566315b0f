//! Where in a document values come from: at which places a schema stands that they conform to.

ghost use Rattle.std.specs.Prelude.{◌≡◌, ◌&&◌, IfOk, OnOk, [], ◌∷◌, false, map};
ghost use Rattle.std.specs.List.{list_any};
ghost use Rattle.std.specs.Str.{bytes_eq};
ghost use Rattle.std.specs.String.{string_bytes};
ghost use Rattle.tmpl_json_schema.specs.declared.provenance.Lost.TheVariants as lost;
ghost use Rattle.tmpl_json_schema.specs.Provenance.{AreSame, IsAt, IsOfEither, places_of, with_place, with_places};

use crate::Result;
use crate::fault::SchemaFault;
use crate::fields::{has_content, requires_key};
use crate::kinds::{Kinds, is_every_kind, kinds_of, lets_no_map};
use crate::read::{choices_in, chosen_by, items_in};
use crate::reference::pointer_to;
use percent_encoding::{DecodeError, percent_decode};
use serde_json::Value;
use std::alloc::{AllocError, Global};

/// The most places that are followed at once.
const MOST_PLACES: usize = 64;

/// How many references and alternatives are followed, one into the other.
const LEVELS: usize = 50;

/// Why the provenance of values is not known.
#[derive(Clone, Copy)]
pub enum Lost {
    OutOfMemory,
    /// They come from elsewhere, or from too many places.
    Untold,
}

impl From<AllocError> for Lost {
    ghost from_gives = { λ _ e. e ≡ lost.OutOfMemory };

    fn from(_: AllocError) -> Lost {
        Lost::OutOfMemory
    }
}

/// A document in which the provenance of values is looked up.
#[derive(Clone, Copy)]
pub struct Document<'d> {
    pub root: &'d Value,
    pub alloc: Global,
}

/// Where a value comes from.
#[derive(Clone, Drop)]
pub struct Provenance {
    /// The JSON Pointers of the schemas of which it conforms to one.
    pub(crate) places: Vec<String>,
    /// Whether it is no field that may be absent, nor a field of such a one.
    pub(crate) is_there: bool,
    /// Whether it is no part of a list.
    pub is_whole: bool,
}

impl Provenance {
    /// That of no value.
    pub fn of_nothing(alloc: Global) -> Provenance
        ensures { IsAt [] result }
    {
        Provenance {
            places: Vec::new(alloc),
            is_there: true,
            is_whole: true,
        }
    }

    /// That of the data of the document.
    pub fn of_data(alloc: Global) -> Result<Provenance, Lost>
        ensures { IfOk result (IsAt ([] ∷ [])) }
    {
        let mut provenance = Provenance::of_nothing(alloc);
        provenance.add(String::new(alloc))?;
        Ok(provenance)
    }

    /// Adds a place.
    fn add(&mut self, place: String) -> Result<(), Lost>
        ensures places { OnOk result (places_of self.new ≡ with_place (places_of self.old) (string_bytes place)) }
        ensures known { (self.new.is_there ≡ self.old.is_there) × (self.new.is_whole ≡ self.old.is_whole) }
    {
        if has_place(self.places.as_slice(), place.as_str()) {
            return Ok(());
        }
        if self.places.len() >= MOST_PLACES {
            return Err(Lost::Untold);
        }
        self.places.push(place).map_err(|_| Lost::OutOfMemory)
    }

    /// Adds the place of a part of what is at a place.
    fn add_below(&mut self, alloc: Global, place: &str, part: &str) -> Result<(), Lost> {
        self.add(below(alloc, place, part)?)
    }

    /// Adds that of another value. Gives whether it is more than before.
    pub fn widen(&mut self, other: &Provenance) -> Result<bool, Lost>
        ensures either { OnOk result (IsOfEither self.old other.now self.new) }
        ensures same { IfOk result (λ is_more. is_more ≡ false → AreSame self.old self.new) }
    {
        let before = self.places.len();
        let is_less_known = self.doubt(other);
        self.add_all(other.places.as_slice())?;
        Ok(is_less_known || self.places.len() > before)
    }

    /// Knows no more than the other of whether it is there and whole. Gives whether that is less than before.
    fn doubt(&mut self, other: &Provenance) -> bool
        ensures places { places_of self.new ≡ places_of self.old }
        ensures there { self.new.is_there ≡ (self.old.is_there && other.now.is_there) }
        ensures whole { self.new.is_whole ≡ (self.old.is_whole && other.now.is_whole) }
        ensures same { result ≡ false → (self.new.is_there ≡ self.old.is_there) × (self.new.is_whole ≡ self.old.is_whole) }
    {
        let is_less_known = (self.is_there && !other.is_there)
            || (self.is_whole && !other.is_whole);
        self.is_there = self.is_there && other.is_there;
        self.is_whole = self.is_whole && other.is_whole;
        is_less_known
    }

    /// Adds copies of places.
    fn add_all(&mut self, places: &[String]) -> Result<(), Lost>
        ensures places { OnOk result (places_of self.new ≡ with_places (places_of self.old) (map string_bytes places.now)) }
        ensures known { (self.new.is_there ≡ self.old.is_there) × (self.new.is_whole ≡ self.old.is_whole) }
    {
        match places {
            [] => Ok(()),
            [first, rest @ ..] => {
                self.add(first.clone()?)?;
                self.add_all(rest)
            }
        }
    }
}

/// Whether it is one of the places.
fn has_place(places: &[String], place: &str) -> bool
    ensures { result ≡ list_any (bytes_eq place.now) (map string_bytes places.now) }
{
    match places {
        [] => false,
        [first, rest @ ..] => place == first.as_str() || has_place(rest, place),
    }
}

/// The JSON Pointer to a part of what another points to.
pub fn below(alloc: Global, place: &str, part: &str) -> Result<String> {
    let mut pointer = String::from_str(alloc, place)?;
    pointer.push('/')?;
    for letter in part.chars() {
        match letter {
            '~' => pointer.push_str("~0"),
            '/' => pointer.push_str("~1"),
            _ => pointer.push(letter),
        }?;
    }
    Ok(pointer)
}

impl<'d> Document<'d> {
    /// The kinds of values that a schema lets through by itself.
    pub(crate) fn kinds(&self, schema: &Value) -> Result<Kinds, Lost> {
        kinds_of(self.alloc, schema).map_err(|fault| match fault {
            SchemaFault::OutOfMemory => Lost::OutOfMemory,
            SchemaFault::Refused(_) => Lost::Untold,
        })
    }

    /// What stands at a place.
    pub(crate) fn schema_at(&self, place: &str) -> Result<&'d Value, Lost> {
        self.root.pointer(place).ok_or(Lost::Untold)
    }

    /// The place that a `$ref` points to.
    fn follow(&self, reference: &Value) -> Result<String, Lost> {
        let Some(fragment) = reference.as_str().and_then(|text| text.strip_prefix('#')) else {
            return Err(Lost::Untold);
        };
        match percent_decode(fragment.as_bytes()).decode_utf8(self.alloc) {
            Ok(fragment) => Ok(pointer_to(self.alloc, self.root, fragment.as_ref())?),
            Err(DecodeError::OutOfMemory) => Err(Lost::OutOfMemory),
            Err(_) => Err(Lost::Untold),
        }
    }

    /// Adds the places that a place stands for, with no reference and no alternatives at them.
    fn add_plain(&self, levels: usize, place: &str, plain: &mut Provenance) -> Result<(), Lost> {
        if levels == 0 {
            return Err(Lost::Untold);
        }
        let fewer = levels - 1;
        let schema = self.schema_at(place)?;
        if let Some(reference) = schema.get("$ref") {
            let place = self.follow(reference)?;
            return self.add_plain(fewer, place.as_str(), plain);
        }
        let choices = choices_in(schema);
        if choices.is_none() && (has_content(schema) || schema.get("allOf").is_none()) {
            return plain.add(String::from_str(self.alloc, place)?);
        }
        if !is_every_kind(self.kinds(schema)?) {
            return Err(Lost::Untold);
        }
        let Some(choices) = choices else {
            let part = format!(in self.alloc; "{place}/allOf/0")?;
            return self.add_plain(fewer, part.as_str(), plain);
        };
        let keyword = chosen_by(schema);
        for index in 0..choices.as_array().map_or(0, |choices| choices.len()) {
            let alternative = format!(in self.alloc; "{place}/{keyword}/{index}")?;
            self.add_plain(fewer, alternative.as_str(), plain)?;
        }
        Ok(())
    }

    /// The places that those of a provenance stand for.
    pub(crate) fn plain(&self, provenance: &Provenance) -> Result<Provenance, Lost> {
        let mut plain = Provenance::of_nothing(self.alloc);
        plain.is_there = provenance.is_there;
        plain.is_whole = provenance.is_whole;
        for place in provenance.places.as_slice() {
            self.add_plain(LEVELS, place.as_str(), &mut plain)?;
        }
        Ok(plain)
    }

    /// Adds the place of what stands under a keyword of the schema at a place.
    fn add_under(
        &self,
        place: &str,
        keyword: &str,
        provenance: &mut Provenance,
    ) -> Result<(), Lost> {
        let schema = self.schema_at(place)?;
        if keyword == "items" && items_in(schema).is_none() {
            return Err(Lost::Untold);
        }
        if keyword == "additionalProperties" && schema.get("patternProperties").is_some() {
            return Err(Lost::Untold);
        }
        match schema.get(keyword) {
            Some(Value::Bool(false)) => Ok(()),
            Some(_) => provenance.add_below(self.alloc, place, keyword),
            None => Err(Lost::Untold),
        }
    }

    /// Adds the place of the property of this name of the schema at a place.
    fn add_property(
        &self,
        place: &str,
        name: &str,
        provenance: &mut Provenance,
    ) -> Result<(), Lost> {
        let properties = below(self.alloc, place, "properties")?;
        provenance.add_below(self.alloc, properties.as_str(), name)
    }

    /// Adds where the field of this name of a map comes from that conforms to the schema at a plain place.
    fn add_field(&self, place: &str, name: &str, field: &mut Provenance) -> Result<(), Lost> {
        let schema = self.schema_at(place)?;
        if !requires_key(schema, name) {
            field.is_there = false;
        }
        match schema
            .get("properties")
            .and_then(|properties| properties.get(name))
        {
            Some(_) => self.add_property(place, name, field),
            None => self.add_under(place, "additionalProperties", field),
        }
    }

    /// Adds where the entries of a map come from that conforms to the schema at a plain place.
    fn add_entries(&self, place: &str, entries: &mut Provenance) -> Result<(), Lost> {
        self.add_under(place, "additionalProperties", entries)?;
        if let Some(Value::Object(properties)) = self.schema_at(place)?.get("properties") {
            for name in properties.keys() {
                self.add_property(place, name.as_str(), entries)?;
            }
        }
        Ok(())
    }

    /// Adds where the elements of lists and maps come from that conform to the schema at a plain place.
    fn add_elements(&self, place: &str, elements: &mut Provenance) -> Result<(), Lost> {
        let schema = self.schema_at(place)?;
        let kinds = self.kinds(schema)?;
        if kinds.list {
            self.add_under(place, "items", elements)?;
        }
        if kinds.map {
            self.add_entries(place, elements)?;
        }
        Ok(())
    }

    /// Where the field of this name of such values comes from.
    pub fn field(&self, provenance: &Provenance, name: &str) -> Result<Provenance, Lost> {
        let plain = self.plain(provenance)?;
        let mut field = Provenance::of_nothing(self.alloc);
        field.is_there = plain.is_there;
        for place in plain.places.as_slice() {
            let schema = self.schema_at(place.as_str())?;
            let kinds = self.kinds(schema)?;
            if kinds.map {
                self.add_field(place.as_str(), name, &mut field)?;
            }
            if lets_no_map(kinds) {
                field.is_there = false;
            }
        }
        Ok(field)
    }

    /// Where the elements of such lists and maps come from.
    pub fn elements(&self, provenance: &Provenance) -> Result<Provenance, Lost> {
        let plain = self.plain(provenance)?;
        let mut elements = Provenance::of_nothing(self.alloc);
        for place in plain.places.as_slice() {
            self.add_elements(place.as_str(), &mut elements)?;
        }
        Ok(elements)
    }
}
