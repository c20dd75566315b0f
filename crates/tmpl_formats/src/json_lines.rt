//! JSON lines: the machine for JSON, begun again on each line.
ghost use Rattle.std.specs.Prelude.{◌≡◌, IfOk, Some, None, option_map, if◌then◌else◌};
ghost use Rattle.tmpl_formats.specs.computed.JsonLines as computed;
ghost use Rattle.tmpl_formats.specs.computed.LineView.{lines_of};

use crate::json_text::{Json, advance, is_white, is_whole, wanted};
use crate::mistake::Mistake;
use std::alloc::{AllocError, Global};

/// The machine: whether the line has white space alone so far, and else the machine for its value.
#[derive(Drop)]
struct JsonLines {
    is_blank: bool,
    json: Json,
}

/// Whether a line may end there.
fn may_break(lines: &JsonLines) -> bool
    ensures { result ≡ computed.ends (lines_of lines.now) }
{
    lines.is_blank || is_whole(&lines.json)
}

/// Reads a byte that is no newline; whether a line may go on so.
fn advance_line(alloc: Global, lines: &mut JsonLines, byte: u8) -> Result<bool, AllocError>
    ensures { IfOk result (λ went. computed.within (lines_of lines.old) byte ≡ (if went then Some (lines_of lines.new) else None)) }
{
    if lines.is_blank {
        if is_white(byte) {
            return Ok(true);
        }
        lines.json = Json::new(alloc);
        lines.is_blank = false;
    }
    advance(&mut lines.json, byte)
}

/// Reads a byte; whether a text of JSON lines may go on so.
fn advance_lines(alloc: Global, lines: &mut JsonLines, byte: u8) -> Result<bool, AllocError>
    ensures { IfOk result (λ went. computed.step (lines_of lines.old) byte ≡ (if went then Some (lines_of lines.new) else None)) }
{
    if byte == b'\n' {
        let breaks = may_break(lines);
        lines.is_blank = true;
        Ok(breaks)
    } else {
        advance_line(alloc, lines, byte)
    }
}

/// Where a text ceases to be JSON lines.
pub(crate) fn json_lines_mistake(alloc: Global, text: &[u8]) -> Result<Option<Mistake>, AllocError>
    ensures { IfOk result (λ m. option_map (λ m. m.offset) m ≡ computed.json_lines_mistake text.now) }
{
    let mut lines = JsonLines {
        is_blank: true,
        json: Json::new(alloc),
    };
    for (offset, byte) in text.iter().enumerate() {
        let control = lines.json.control;
        if !advance_lines(alloc, &mut lines, *byte)? {
            return Ok(Some(Mistake {
                offset,
                wanted: wanted(control),
            }));
        }
    }
    if may_break(&lines) {
        Ok(None)
    } else {
        Ok(Some(Mistake {
            offset: text.len(),
            wanted: wanted(lines.json.control),
        }))
    }
}
