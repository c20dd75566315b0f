//! What is done with tables.
ghost use Rattle.std.specs.Prelude.{◌≡◌, ◌++◌, ◌∷◌, [], IfOk, OnOk, drop, length, take};
ghost use Rattle.tmpl_code.specs.View.{letters_at, name_at, names_in, names_of, names_seen, text_at};
ghost use Rattle.tmpl_code.specs.computed.Tables.{Grows};

use super::{Names, Span, Tables};
use crate::pipeline::to_u32;
use std::alloc::{AllocError, Global};
use tmpl_syntax::Text;
use tmpl_values::Bytes;

/// A stretch of letters, as far as it is there.
#[tactic(auto, using(crate::proofs::TableLemmas::clamps))]
pub fn letters_at(letters: &[u8], span: Span) -> &[u8]
    ensures { result.now ≡ letters_at letters.now span }
{
    let rest = &letters[(span.start as usize).min(letters.len())..];
    &rest[..(span.count as usize).min(rest.len())]
}

/// Where the names of a chain lie, as far as they are there.
#[tactic(auto, using(crate::proofs::TableLemmas::clamps))]
fn spans_at(spans: &[Span], span: Span) -> &[Span]
    ensures { result.now ≡ take span.count (drop span.start spans.now) }
{
    let rest = &spans[(span.start as usize).min(spans.len())..];
    &rest[..(span.count as usize).min(rest.len())]
}

impl Tables {
    /// Tables of nothing.
    pub(crate) fn new(alloc: Global) -> Tables
        ensures texts { result.texts.items ≡ [] }
        ensures names { names_of result ≡ [] }
    {
        Tables {
            texts: Vec::new(alloc),
            letters: Vec::new(alloc),
            spans: Vec::new(alloc),
        }
    }

    /// The text at a place, which is empty where there is none.
    pub fn text(&self, place: u32) -> &[u8]
        ensures { result.now ≡ text_at self.now place }
    {
        match self.texts.get(place as usize) {
            Some(text) => text.as_slice(),
            None => b"",
        }
    }

    /// The name at a place, which is empty where there is none.
    pub fn name(&self, place: u32) -> &[u8]
        ensures { result.now ≡ name_at self.now place }
    {
        match self.spans.get(place as usize) {
            Some(span) => letters_at(self.letters.as_slice(), *span),
            None => b"",
        }
    }

    /// The names of a chain, as far as they are there.
    pub fn names(&self, span: Span) -> Names<'_>
        ensures { names_seen result ≡ names_in self.now span }
    {
        Names {
            letters: self.letters.as_slice(),
            spans: spans_at(self.spans.as_slice(), span),
        }
    }

    /// Adds a text, and tells its place. After an error the table may hold more than before.
    #[tactic(auto, using(crate::proofs::TableLemmas::growing))]
    pub(crate) fn add_text(&mut self, text: &Text) -> Result<u32, AllocError>
        ensures place { IfOk result (λ n. n ≡ length self.old.texts.items) }
        ensures text { OnOk result (self.new.texts.items ≡ self.old.texts.items ++ text.now ∷ []) }
        ensures grows { Grows self.old self.new }
    {
        let place = to_u32(self.texts.len())?;
        self.texts.push(text.share()?)?;
        Ok(place)
    }

    /// Adds a name, and tells its place.
    pub(crate) fn add_name(&mut self, name: &[u8]) -> Result<u32, AllocError>
        ensures place { IfOk result (λ n. n ≡ length self.old.spans.items) }
        ensures name { OnOk result (names_of self.new ≡ names_of self.old ++ name.now ∷ []) }
        ensures grows { Grows self.old self.new }
    {
        let place = to_u32(self.spans.len())?;
        let span = Span {
            start: to_u32(self.letters.len())?,
            count: to_u32(name.len())?,
        };
        self.letters.extend_from_slice(name)?;
        self.spans.push(span)?;
        Ok(place)
    }

    /// Adds the names of a chain, and tells their place.
    #[tactic(auto, using(crate::proofs::TableLemmas::growing))]
    pub(crate) fn add_names(&mut self, names: &[Bytes]) -> Result<Span, AllocError>
        ensures place { IfOk result (λ s. (s.start ≡ length self.old.spans.items) × (s.count ≡ length names.now)) }
        ensures names { OnOk result (names_of self.new ≡ names_of self.old ++ names.now) }
        ensures grows { Grows self.old self.new }
    {
        let start = to_u32(self.spans.len())?;
        let count = to_u32(names.len())?;
        for name in names {
            self.add_name(name.as_slice())?;
        }
        Ok(Span { start, count })
    }
}
