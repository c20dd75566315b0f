//! CSV: a machine that reads it byte by byte.
ghost use Rattle.std.specs.Prelude.{◌≡◌, ◌+◌, ◌==◌, option_map};
ghost use Rattle.tmpl_formats.specs.computed.Csv as computed;

use crate::machine::{Machine, first_mistake};
use crate::mistake::Mistake;

/// A place in a record, with the number of fields before its field.
#[derive(Clone, Copy)]
pub enum Place {
    /// The start of a record.
    Start,
    /// The start of a field that is not the first.
    Field(u32),
    /// A field without quotes.
    Bare(u32),
    /// A field between quotes.
    Quoted(u32),
    /// A quote in a field between quotes: its end, or the first of two.
    Quote(u32),
    /// A carriage return after a record.
    Return,
}

/// The machine: how many columns there are, and a place.
#[derive(Clone, Copy)]
pub struct Csv {
    pub columns: u32,
    pub place: Place,
}

/// The kinds of bytes that CSV distinguishes.
#[derive(Drop)]
pub enum Sign {
    Null,
    Newline,
    Return,
    Comma,
    Quote,
    Other,
}

/// The kind of a byte.
fn sign_of(byte: u8) -> Sign
    ensures { result ≡ computed.sign_of byte }
{
    match byte {
        0 => Sign::Null,
        b'\n' => Sign::Newline,
        b'\r' => Sign::Return,
        b',' => Sign::Comma,
        b'"' => Sign::Quote,
        _ => Sign::Other,
    }
}

/// Whether this field is the last of its record.
fn is_last(columns: u32, fields: u32) -> bool
    ensures { result ≡ (fields + 1 == columns) }
{
    u64::from(fields) + 1 == u64::from(columns)
}

/// After a comma, if the record has one more field.
fn next_field(columns: u32, fields: u32) -> Option<Place>
    ensures { result ≡ computed.next_field columns fields }
{
    if u64::from(fields) + 1 < u64::from(columns) {
        Some(Place::Field(fields + 1))
    } else {
        None
    }
}

/// Where a field may end.
fn after_field(columns: u32, fields: u32, sign: Sign) -> Option<Place>
    ensures { result ≡ computed.after_field columns fields sign }
{
    match sign {
        Sign::Comma => next_field(columns, fields),
        Sign::Newline => is_last(columns, fields).then_some(Place::Start),
        Sign::Return => is_last(columns, fields).then_some(Place::Return),
        _ => None,
    }
}

/// What a byte of a kind leads to.
fn after_sign(columns: u32, place: Place, sign: Sign) -> Option<Place>
    ensures { result ≡ computed.after_sign columns place sign }
{
    match (place, sign) {
        (Place::Start, Sign::Quote) => Some(Place::Quoted(0)),
        (Place::Start, Sign::Other) => Some(Place::Bare(0)),
        (Place::Start, Sign::Comma) => next_field(columns, 0),
        (Place::Field(fields), Sign::Quote) => Some(Place::Quoted(fields)),
        (Place::Field(fields) | Place::Bare(fields), Sign::Other) => Some(Place::Bare(fields)),
        (Place::Quoted(_), Sign::Null) => None,
        (Place::Quoted(fields), Sign::Quote) => Some(Place::Quote(fields)),
        (Place::Quoted(fields), _) => Some(Place::Quoted(fields)),
        (Place::Quote(fields), Sign::Quote) => Some(Place::Quoted(fields)),
        (Place::Return, Sign::Newline) => Some(Place::Start),
        (Place::Field(fields) | Place::Bare(fields) | Place::Quote(fields), sign) => {
            after_field(columns, fields, sign)
        }
        _ => None,
    }
}

impl Machine for Csv {
    ghost after = { computed.step };

    ghost may_end = { computed.ends };

    fn step(self, byte: u8) -> Option<Csv> {
        let columns = self.columns;
        let place = after_sign(columns, self.place, sign_of(byte))?;
        Some(Csv { columns, place })
    }

    fn ends(self) -> bool {
        match self.place {
            Place::Start => true,
            Place::Field(fields) | Place::Bare(fields) | Place::Quote(fields) => {
                is_last(self.columns, fields)
            }
            Place::Quoted(_) | Place::Return => false,
        }
    }

    fn wanted(self) -> &'static str {
        match self.place {
            Place::Start => "a record with as many fields as there are columns",
            Place::Field(_) => "a field, and then as many as there are columns",
            Place::Bare(_) => "a field without a quote, and as many fields as there are columns",
            Place::Quoted(_) => "a closing quote",
            Place::Quote(_) => "the end of a field, and as many fields as there are columns",
            Place::Return => "a newline after a carriage return",
        }
    }
}

/// Where a text ceases to be CSV of this many columns.
pub fn csv_mistake(columns: u32, text: &[u8]) -> Option<Mistake>
    ensures { option_map (λ m. m.offset) result ≡ computed.csv_mistake columns text.now }
{
    first_mistake(
        Csv {
            columns,
            place: Place::Start,
        },
        text,
    )
}
