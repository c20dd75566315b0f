//! The field of a value.
use crate::value::Val;

/// What a value has under a name.
#[derive(Drop)]
pub enum Field<'a> {
    /// The entry of a map.
    Found(Val<'a>),
    /// A map has no such entry.
    Missing,
    /// The value is nothing itself.
    OfNothing,
    /// The value's kind has no fields.
    NoField,
}
