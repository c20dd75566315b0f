//! Lines and columns of places in a file.
ghost use Rattle.std.specs.Prelude.{◌≡◌, ◌≤◌, ◌<◌, ◌+◌, ◌^◌, ℕ, List, length};
ghost use Rattle.tmpl_syntax.specs.Column as spec;
ghost use Rattle.tmpl_syntax.specs.Column.{IsPlace};
ghost use Rattle.tmpl_syntax.specs.computed.Past.{column_past, line_past};

/// The place before which this many bytes of a file stand.
#[derive(Clone, Copy)]
pub struct Place {
    pub start: usize,
    /// Its line, counted from 1.
    pub line: u64,
    /// Its column, counted from 1 by characters.
    pub column: u64,
}

impl Place {
    /// The place of the first byte.
    pub fn first() -> Place
        ensures start { result.start ≡ 0 }
        ensures place { (file : List ℕ) → IsPlace file result }
    {
        Place {
            start: 0,
            line: 1,
            column: 1,
        }
    }

    /// The place of the byte of the same file before which this many stand. It takes time by how many bytes stand
    /// between the two places, if it is a later one.
    pub fn at(self, file: &[u8], start: usize) -> Place
        requires place { IsPlace file.now self }
        requires within { start ≤ length file.now }
        ensures start { result.start ≡ start }
        ensures place { IsPlace file.now result }
    {
        let mut place = self.no_later(start);
        for index in place.start..start {
            place = place.past(file, index);
        }
        place
    }

    /// This place, or the first where this one is a later one than that.
    fn no_later(self, start: usize) -> Place
        ensures place { (file : List ℕ) → IsPlace file self → IsPlace file result }
        ensures within { result.start ≤ start }
    {
        if self.start <= start {
            self
        } else {
            Place::first()
        }
    }

    /// The place after this byte.
    fn past(self, file: &[u8], index: usize) -> Place
        requires place { IsPlace file.now self }
        requires start { self.start ≡ index }
        requires within { index < length file.now }
        ensures start { result.start ≡ index + 1 }
        ensures place { IsPlace file.now result }
    {
        let byte = file[index];
        Place {
            start: index + 1,
            line: line_past(self.line, byte),
            column: column_past(self.column, byte),
        }
    }
}

/// The line after a byte on this line.
fn line_past(line: u64, byte: u8) -> u64
    requires { line < 2 ^ 63 + 1 }
    ensures { result ≡ line_past line byte }
{
    if byte == b'\n' { line + 1 } else { line }
}

/// The column after a byte at this column.
fn column_past(column: u64, byte: u8) -> u64
    requires { column < 2 ^ 63 + 1 }
    ensures { result ≡ column_past column byte }
{
    if byte == b'\n' {
        1
    } else if continues(byte) {
        column
    } else {
        column + 1
    }
}

/// Whether a byte begins no character of UTF-8.
fn continues(byte: u8) -> bool
    ensures { result ≡ spec.continues byte }
{
    128 <= byte && byte < 192
}
