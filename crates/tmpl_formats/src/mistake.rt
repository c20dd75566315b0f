//! Where a text ceases to be of a format.
ghost use Rattle.std.specs.Prelude.{◌≡◌, option_map};
ghost use Rattle.tmpl_formats.specs.computed.Format.{earlier, utf8_mistake};

use std::str::from_utf8;

/// A byte of a text that no text of the format has there, or its end.
#[derive(Clone, Copy, Debug)]
pub struct Mistake {
    /// How many bytes there are before it; the length of the text where the text ends too early.
    pub offset: usize,
    /// What the format has there, as a noun phrase.
    pub wanted: &'static str,
}

/// The mistake that comes first, the second where both are at one place.
pub(crate) fn earlier_of(first: Option<Mistake>, second: Option<Mistake>) -> Option<Mistake>
    ensures { option_map (λ m. m.offset) result
        ≡ earlier (option_map (λ m. m.offset) first) (option_map (λ m. m.offset) second) }
{
    match (first, second) {
        (Some(a), Some(b)) if a.offset < b.offset => Some(a),
        (_, Some(b)) => Some(b),
        (first, None) => first,
    }
}

/// Where a text ceases to be UTF-8.
pub(crate) fn not_utf8(text: &[u8]) -> Option<Mistake>
    ensures { option_map (λ m. m.offset) result ≡ utf8_mistake text.now }
{
    match from_utf8(text) {
        Ok(_) => None,
        Err(error) => Some(Mistake {
            offset: error.valid_up_to(),
            wanted: "a character in UTF-8",
        }),
    }
}
