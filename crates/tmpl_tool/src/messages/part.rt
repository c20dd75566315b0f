//! Lines on the error sink, as lists of parts.
ghost use Rattle.std.specs.Prelude.{◌≡◌, ◌≤◌, ◌<◌, ◌^◌, ◌-◌, IfSome, length, take};
ghost use Rattle.tmpl_values.specs.Put.{IsPut};
ghost use Rattle.tmpl_meaning.specs.Sink.{as_puts};
ghost use Rattle.tmpl_tool.specs.Outcome.{line};
ghost use Rattle.tmpl_tool.specs.computed.View.{part_bytes, parts_bytes};

use crate::messages::fixed::{Fixed, Full};
use itoa::Buffer;
use tmpl_engine::{RunFaultKind, Sink, SinkFault, WholePuts, put_all, put_reason};
use tmpl_values::{Put, put_quoted};

/// A line of this many bytes goes out by one put, so that lines of programs that share a stream do not mix.
const LINE_SIZE: usize = 4096;

/// A part of a line.
#[derive(Clone, Copy)]
pub(crate) enum LinePart<'a> {
    /// A text as it is.
    Text(&'a str),
    /// Bytes as they are.
    Bytes(&'a [u8]),
    /// A name in its quotes.
    Quoted(&'a [u8]),
    /// A number in decimal.
    Number(u64),
    /// Why a run failed, in words.
    Reason(&'a RunFaultKind<'a>),
}

/// Puts a line: the program's name, the parts, and a newline. It goes out at once, or part by part where it is longer than
/// `LINE_SIZE`.
pub(crate) fn put_line<E: Sink>(err: &mut E, parts: &[LinePart<'_>]) -> Result<(), SinkFault>
    requires { (E.so_far err.old).failures < 2 ^ 64 - 1 }
    ensures { IsPut result (as_puts (E.so_far err.old))
        (as_puts (E.so_far err.new)) (line (parts_bytes parts.now)) }
{
    let mut memory = [0; LINE_SIZE];
    match line_in(memory.as_mut_slice(), parts) {
        Some(size) => put_all(err, &memory[..size]),
        None => {
            let mut puts = WholePuts { sink: err };
            write_line(&mut puts, parts)
        }
    }
}

/// Writes a line to the front of the memory, and says how long it is, if it fits.
fn line_in(memory: &mut [u8], parts: &[LinePart<'_>]) -> Option<usize>
    ensures line { IfSome result (λ size. take size memory.new
        ≡ line (parts_bytes parts.now)) }
    ensures within { IfSome result (λ size. size ≤ length memory.new) }
{
    let mut fixed = Fixed {
        bytes: memory,
        end: 0,
        failures: 0,
    };
    match write_line(&mut fixed, parts) {
        Ok(()) => Some(fixed.end),
        Err(Full) => None,
    }
}

/// Puts the program's name, the parts, and a newline.
fn write_line<P: Put>(put: &mut P, parts: &[LinePart<'_>]) -> Result<(), P::Fault>
    requires { (P.so_far put.old).failures < 2 ^ 64 - 1 }
    ensures { IsPut result (P.so_far put.old) (P.so_far put.new)
        (line (parts_bytes parts.now)) }
{
    put.put(b"tmpl: ")?;
    write_parts(put, parts)?;
    put.put(b"\n")
}

/// Puts the parts, one after the other.
fn write_parts<P: Put>(put: &mut P, parts: &[LinePart<'_>]) -> Result<(), P::Fault>
    requires { (P.so_far put.old).failures < 2 ^ 64 - 1 }
    ensures { IsPut result (P.so_far put.old) (P.so_far put.new) (parts_bytes parts.now) }
{
    for part in parts {
        write_part(put, part)?;
    }
    Ok(())
}

/// Puts a part, as its kind says.
fn write_part<P: Put>(put: &mut P, part: &LinePart<'_>) -> Result<(), P::Fault>
    requires { (P.so_far put.old).failures < 2 ^ 64 - 1 }
    ensures { IsPut result (P.so_far put.old) (P.so_far put.new) (part_bytes part.now) }
{
    match part {
        LinePart::Text(text) => put.put(text.as_bytes()),
        LinePart::Bytes(bytes) => put.put(bytes),
        LinePart::Quoted(name) => put_quoted(name, put),
        LinePart::Number(number) => {
            let mut buffer = Buffer::new();
            put.put(buffer.format(*number).as_bytes())
        }
        LinePart::Reason(kind) => put_reason(kind, put),
    }
}
