//! What instructions name by its place: texts and names.
ghost use Rattle.std.specs.List.{list_all};
ghost use Rattle.std.specs.Prelude.{◌≡◌, length, true};
ghost use Rattle.tmpl_code.specs.computed.Within.{ends_within};

mod methods;

pub use methods::letters_at;
use tmpl_syntax::Text;

/// A stretch: of a table, as the names of a chain of fields, or of a block of letters, as a name.
#[derive(Clone, Copy)]
pub struct Span {
    pub start: u32,
    pub count: u32,
}

/// What the instructions of a program name by its place.
#[derive(Drop)]
pub struct Tables {
    /// What is put out as it is.
    pub texts: Vec<Text>,
    /// The letters of all names, one name after the other, so that a name takes no memory of its own.
    pub letters: Vec<u8>,
    /// The names of fields, the texts of constants, and the names of templates that are not there: where each lies.
    pub spans: Vec<Span>,
    ghost inside: { list_all (ends_within (length letters.items)) spans.items ≡ true },
}

/// Names that lie in a block of letters.
#[derive(Clone, Copy)]
pub struct Names<'a> {
    pub letters: &'a [u8],
    pub spans: &'a [Span],
}
