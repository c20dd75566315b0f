//! Lines with a match of a regular expression.
ghost use Rattle.std.specs.Prelude.{◌≡◌, ◌+◌, ◌<◌, ◌^◌, IfOk, option_map};
ghost use Rattle.tmpl_formats.specs.computed.Lines as computed;
ghost use Rattle.tmpl_formats.specs.PatternView.{marks_of};

use crate::mistake::{Mistake, not_utf8};
use crate::pattern::Pattern;
use crate::pattern_search::has_match;
use std::alloc::{AllocError, Global};
use std::str::from_utf8;

/// Where a line has no match, or is no UTF-8.
fn line_mistake(
    alloc: Global,
    pattern: &Pattern,
    line: &[u8],
) -> Result<Option<Mistake>, AllocError>
    ensures { IfOk result (λ m. option_map (λ m. m.offset) m ≡ computed.line_fault (marks_of pattern.now.root) line.now) }
{
    let Ok(text) = from_utf8(line) else {
        return Ok(not_utf8(line));
    };
    if has_match(alloc, &pattern.root, text)? {
        Ok(None)
    } else {
        Ok(Some(Mistake {
            offset: 0,
            wanted: "a line with a match of the pattern",
        }))
    }
}

/// A mistake of a line that begins there.
fn moved(start: usize, mistake: Mistake) -> Mistake
    requires { start + mistake.offset < 2 ^ 64 }
    ensures { result.offset ≡ start + mistake.offset }
{
    Mistake {
        offset: start + mistake.offset,
        wanted: mistake.wanted,
    }
}

/// Where the first line without a match begins.
pub(crate) fn lines_mistake(
    alloc: Global,
    pattern: &Pattern,
    text: &[u8],
) -> Result<Option<Mistake>, AllocError>
    ensures { IfOk result (λ m. option_map (λ m. m.offset) m ≡ computed.lines_mistake (marks_of pattern.now.root) text.now) }
{
    let mut start = 0;
    for (offset, byte) in text.iter().enumerate() {
        if *byte == b'\n' {
            if let Some(mistake) = line_mistake(alloc, pattern, &text[start..offset])? {
                return Ok(Some(moved(start, mistake)));
            }
            start = offset + 1;
        }
    }
    if start == text.len() {
        return Ok(None);
    }
    match line_mistake(alloc, pattern, &text[start..])? {
        Some(mistake) => Ok(Some(moved(start, mistake))),
        None => Ok(None),
    }
}
