//! What the program says where it does not end well.
ghost use Rattle.std.specs.Prelude.{◌≡◌, ◌≢◌, ◌<◌, ◌^◌, ◌-◌, ◌++◌, option_map};
ghost use Rattle.tmpl_meaning.specs.Sink.{sunk};
ghost use Rattle.tmpl_meaning.specs.View.{fault_seen};
ghost use Rattle.tmpl_tool.specs.Outcome.{EndsWith, Once, Says, line, memory_line, write_line};
ghost use Rattle.tmpl_tool.specs.Tool.{fault_line};
ghost use Rattle.tmpl_tool.specs.Tool.{bad_words, reason_text, stop_answer, unnamed};
ghost use Rattle.tmpl_tool.specs.computed.View.{parts_bytes};
ghost use Rattle.tmpl_tool.specs.Inputs.{refusal_seen, said_of, stop_seen};
ghost use Rattle.tmpl_syntax.specs.Fault.{reason_of};

use crate::messages::part::LinePart::{self, Bytes, Number, Quoted, Reason, Text};
use crate::messages::part::put_line;
use crate::status::Status;
use crate::stop::Stop;
use tmpl_engine::{RunFault, Sink};
use tmpl_syntax::{ParseFault, ParseKind};

/// Says a line of these parts, and gives this status. A sink that fails cuts the line.
#[tactic(auto, using(crate::proofs::MessageLemmas::said))]
fn say<E: Sink>(err: &mut E, parts: &[LinePart<'_>], code: u8) -> Status
    requires { (E.so_far err.old).failures < 2 ^ 64 - 1 }
    ensures { EndsWith code (line (parts_bytes parts.now))
        (sunk (E.so_far err.old) (E.so_far err.new)) result.code }
{
    let _ = put_line(err, parts);
    Status { code }
}

/// Says that the words were refused.
pub fn words_refused<E: Sink>(err: &mut E) -> Status
    requires { (E.so_far err.old).failures < 2 ^ 64 - 1 }
    ensures { EndsWith 2 (stop_answer bad_words).line
        (sunk (E.so_far err.old) (E.so_far err.new)) result.code }
{
    say(
        err,
        [Text("arguments refused; see tmpl --help")].as_slice(),
        2,
    )
}

/// Says that a write failed.
pub fn write_failed<E: Sink>(err: &mut E) -> Status
    requires { (E.so_far err.old).failures < 2 ^ 64 - 1 }
    ensures { EndsWith 6 write_line (sunk (E.so_far err.old) (E.so_far err.new)) result.code }
{
    say(err, [Text("write failed")].as_slice(), 6)
}

/// Says that memory ran out.
pub fn out_of_memory<E: Sink>(err: &mut E) -> Status
    requires { (E.so_far err.old).failures < 2 ^ 64 - 1 }
    ensures { EndsWith 7 memory_line (sunk (E.so_far err.old) (E.so_far err.new)) result.code }
{
    say(err, [Text("out of memory")].as_slice(), 7)
}

/// Says that there is no template of this name.
pub(crate) fn template_missing<E: Sink>(err: &mut E, name: &[u8]) -> Status
    requires { (E.so_far err.old).failures < 2 ^ 64 - 1 }
    ensures { EndsWith 4 (stop_answer (unnamed name.now)).line
        (sunk (E.so_far err.old) (E.so_far err.new)) result.code }
{
    say(err, [Text("no template "), Quoted(name)].as_slice(), 4)
}

/// Why a template file was refused, in words; none where memory ran out.
fn reason_text(kind: ParseKind) -> Option<&'static str>
    ensures { option_map (λ text. text.now) result ≡ option_map reason_text (reason_of kind) }
{
    match kind {
        ParseKind::Unreadable => Some("unclosed or unreadable action"),
        ParseKind::NotAnAction => Some("action not understood"),
        ParseKind::OutOfPlace => Some("out of place"),
        ParseKind::UndeclaredVariable => Some("undeclared variable"),
        ParseKind::OpenAtEnd => Some("file ends inside a control"),
        ParseKind::NestedTooDeeply => Some("nested too deeply"),
        ParseKind::TooLong => Some("file longer than 16777216 bytes"),
        ParseKind::SecondDefinition => Some("second definition"),
        ParseKind::OutOfMemory => None,
    }
}

/// Says why a template file was refused.
fn refuse_template<E: Sink>(err: &mut E, fault: &ParseFault<'_>) -> Status
    requires { (E.so_far err.old).failures < 2 ^ 64 - 1 }
    ensures code { result.code ≡ (said_of (refusal_seen fault.now)).status }
    ensures not_write_failure { result.code ≢ 6 }
    ensures error_sink_fails_once { Once (E.so_far err.old).failures (E.so_far err.new).failures }
    ensures line { Says (said_of (refusal_seen fault.now)).line
        (sunk (E.so_far err.old) (E.so_far err.new)) }
{
    let Some(text) = reason_text(fault.kind) else {
        return out_of_memory(err);
    };
    let parts = [
        Text(fault.file),
        Text(":"),
        Number(fault.line),
        Text(": "),
        Text(text),
    ];
    say(err, parts.as_slice(), 4)
}

/// Says why a file, of which the name comes first, stops the program, and gives this status.
fn refuse_file<E: Sink>(err: &mut E, name: &str, why: &str, code: u8) -> Status
    requires { (E.so_far err.old).failures < 2 ^ 64 - 1 }
    ensures { EndsWith code (line (name.now ++ why.now))
        (sunk (E.so_far err.old) (E.so_far err.new)) result.code }
{
    say(err, [Text(name), Text(why)].as_slice(), code)
}

/// Says why the command stops, and gives the status of that.
pub fn refuse<E: Sink>(err: &mut E, stop: &Stop<'_>) -> Status
    requires { (E.so_far err.old).failures < 2 ^ 64 - 1 }
    ensures code { result.code ≡ (said_of (stop_seen stop.now)).status }
    ensures not_write_failure { result.code ≢ 6 }
    ensures error_sink_fails_once { Once (E.so_far err.old).failures (E.so_far err.new).failures }
    ensures line { Says (said_of (stop_seen stop.now)).line
        (sunk (E.so_far err.old) (E.so_far err.new)) }
{
    match *stop {
        Stop::NotFound(name) => refuse_file(err, name, ": no such file", 3),
        Stop::Failed(name) => refuse_file(err, name, ": read failed", 3),
        Stop::Template(fault) => refuse_template(err, &fault),
        Stop::NotJson(name) => refuse_file(err, name, ": not JSON", 5),
        Stop::NotWhole(name) => { refuse_file(err, name, ": number not whole or out of range", 5) }
        Stop::OutOfMemory => out_of_memory(err),
    }
}

/// Says where and why a run failed.
pub(crate) fn run_failed<E: Sink>(err: &mut E, fault: &RunFault<'_>) -> Status
    requires { (E.so_far err.old).failures < 2 ^ 64 - 1 }
    ensures { EndsWith 1 (fault_line (fault_seen fault.now))
        (sunk (E.so_far err.old) (E.so_far err.new)) result.code }
{
    let parts = [
        Bytes(fault.file),
        Text(":"),
        Number(fault.line),
        Text(": in "),
        Quoted(fault.template),
        Text(": "),
        Reason(&fault.kind),
    ];
    say(err, parts.as_slice(), 1)
}
