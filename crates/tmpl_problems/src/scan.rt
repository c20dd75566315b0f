//! The actions of a file, also those after one that can't be read.
ghost use Rattle.std.specs.Prelude.{◌≡◌, ◌≤◌, ◌<◌, ◌+◌, length};
ghost use Rattle.tmpl_lex.specs.Part.{IsLeft, IsLeftAfter};
ghost use Rattle.tmpl_syntax.specs.Column.{IsPlace};
ghost use Rattle.tmpl_problems.specs.computed.Follows.{IsRestAfter};

use tmpl_hints::opens_comment;
use tmpl_lex::{AfterText, Part, Rest};
use tmpl_syntax::Place;

/// The place of this byte of a file, or of its end if it has fewer.
pub(crate) fn place_in(place: Place, file: &[u8], start: usize) -> Place
    requires { IsPlace file.now place }
    ensures start { start ≤ length file.now → result.start ≡ start }
    ensures place { IsPlace file.now result }
{
    place.at(file, start.min(file.len()))
}

/// What is left after a part; after an action that can't be read, what stands after its first `}}`, or from the next
/// `{{` on, if that comes first.
pub(crate) fn rest_after<'b>(file: &'b [u8], rest: Rest<'b>, part: Part<'b>) -> Option<Rest<'b>>
    requires left { IsLeft file.now rest }
    requires next { IsLeftAfter file.now rest part.rest }
    ensures left { IsLeftAfter file.now rest.entry result }
    ensures follows { IsRestAfter part.entry.after part.entry.rest result }
{
    match part.after {
        AfterText::Unreadable(_) => rest_past(file, rest, skip(file, rest, part.opens)?),
        _ => part.rest,
    }
}

/// How many bytes of what is left stand before the end of the action that begins there and can't be read; none where
/// nothing is left after it. A comment that is not closed takes all up to its `*/`.
fn skip(file: &[u8], rest: Rest<'_>, opens: usize) -> Option<usize> {
    let inside = file.get(opens.saturating_add(2)..)?;
    let taken = if opens_comment(inside) {
        let end = inside.windows(2).position(|pair| pair == b"*/".as_slice())?;
        end.saturating_add(2)
    } else {
        next_delimiter(inside)?
    };
    let after = file
        .len()
        .saturating_sub(inside.len())
        .saturating_add(taken);
    after.checked_sub(file.len().saturating_sub(rest.bytes.len()))
}

/// How many bytes stand before the next `{{`, or up to the end of the next `}}`, if that comes first.
fn next_delimiter(inside: &[u8]) -> Option<usize> {
    let next = inside.windows(2).position(|pair| pair == b"{{".as_slice()
        || pair == b"}}".as_slice())?;
    match inside.get(next) {
        Some(b'{') => Some(next),
        _ => Some(next.saturating_add(2)),
    }
}

/// What is left after this many bytes more.
fn rest_past<'b>(file: &'b [u8], rest: Rest<'b>, count: usize) -> Option<Rest<'b>>
    requires { IsLeft file.now rest }
    ensures { IsLeftAfter file.now rest.entry result }
{
    if count == 0 || count > rest.bytes.len() {
        return None;
    }
    let (taken, bytes) = rest.bytes.split_at(count);
    Some(Rest {
        bytes,
        line: rest.line + newlines(taken),
        trims: false,
    })
}

/// How many newlines the bytes have.
fn newlines(bytes: &[u8]) -> u64
    ensures { result ≤ length bytes.now }
{
    bytes.iter().filter(|b| **b == b'\n').count() as u64
}
