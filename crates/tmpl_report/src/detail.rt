//! What a fault of a run is about: the operands of its command, and of which kind their values are.

use crate::Result;
use crate::commands::{Found, Given, Root, Wanted, commands_at, is_called};
use crate::source::Task;
use serde_json::{Map, Value};
use std::alloc::Global;
use std::str::from_utf8;
use tmpl_engine::{RunFault, RunFaultKind};
use tmpl_funcs::{CallFault, Func};
use tmpl_hints::Sentence;
use tmpl_values::Bytes;

/// The most keys of a map that are shown.
const MOST_KEYS: usize = 5;

/// How the name of a template begins that is not there so that its call ends the run.
const STOP: &[u8] = b"stop: ";

/// What is known of a fault besides the words of `tmpl`.
#[derive(Drop)]
pub(crate) struct Detail {
    /// The message about it, which is empty where no more is known.
    pub(crate) text: String,
    /// How many bytes of the file stand before the action, where that is found.
    pub(crate) start: Option<usize>,
}

/// What is known of a fault of the template over these data.
pub(crate) fn detail_of(task: &Task<'_, '_>, data: &Value, fault: &RunFault<'_>) -> Result<Detail> {
    let found = found_for(task, data, fault)?;
    let text = text_of(task.alloc, fault, found.as_slice())?;
    let start = found.first().map(|first| first.start);
    Ok(Detail { text, start })
}

/// The message about a fault, where these commands are found.
fn text_of(alloc: Global, fault: &RunFault<'_>, found: &[Found<'_>]) -> Result<String> {
    let said = Sentence::new(alloc);
    match fault.kind {
        RunFaultKind::Call(func, why) => say_call(said, func, why, operands_of(found)),
        RunFaultKind::NoField(_) => say_no_field(said, value_of(found)),
        RunFaultKind::NoEntry(field) => say_no_entry(said, field, value_of(found)),
        RunFaultKind::NotARange => say_no_range(said, operands_of(found)),
        RunFaultKind::NotAFunction => said.say("what is no function takes no argument"),
        RunFaultKind::NilCommand => said.say("nil stands only as an argument"),
        RunFaultKind::NoTemplate(called) if !called.starts_with(STOP) => {
            said.say("no file defines it")
        }
        _ => said,
    }
    .finish()
}

/// The commands that the fault may be of.
fn found_for<'w>(
    task: &Task<'w, '_>,
    data: &'w Value,
    fault: &RunFault<'w>,
) -> Result<Vec<Found<'w>>> {
    let Task { alloc, set, .. } = *task;
    let wanted = match fault.kind {
        RunFaultKind::Call(func, _) => Wanted::Call(func),
        RunFaultKind::NoField(field) => Wanted::Field(field),
        RunFaultKind::NoEntry(field) => Wanted::Entry(field),
        RunFaultKind::NotARange => Wanted::Range,
        RunFaultKind::NoTemplate(called) => Wanted::Template(called),
        _ => Wanted::Any,
    };
    let Some(tree) = set.get(fault.template) else {
        return Ok(Vec::new(alloc));
    };
    let is_known = fault.template == task.name() && !is_called(set, task.name());
    let start = if is_known { Some(data) } else { None };
    let mut found = commands_at(alloc, tree, fault.line, wanted, start)?;
    found.retain(|found| !is_fine(wanted, found));
    if fails_at_first(wanted, found.as_slice()) {
        found.truncate(1);
    }
    Ok(found)
}

/// Whether it is the first of these commands that fails, since they are all of one action, and what does not fail is left
/// out.
fn fails_at_first(wanted: Wanted<'_>, found: &[Found<'_>]) -> bool {
    let [first, rest @ ..] = found else {
        return false;
    };
    let is_exact = matches!(
        wanted,
        Wanted::Call(Func::Len) | Wanted::Field(_) | Wanted::Entry(_)
    );
    is_exact && first.is_sure && rest.iter().all(|other| other.start == first.start)
}

/// Whether a command is seen not to fail: its value has a length, or what is asked for a field is none of these faults.
fn is_fine(wanted: Wanted<'_>, found: &Found<'_>) -> bool {
    let [given] = found.operands.as_slice() else {
        return false;
    };
    let Given::Chain { value, .. } = given else {
        return false;
    };
    match wanted {
        Wanted::Call(Func::Len) => value.is_string() || value.is_array() || value.is_object(),
        Wanted::Field(_) => value.is_object(),
        Wanted::Entry(name) => {
            !value.is_object() || from_utf8(name).is_ok_and(|name| value.get(name).is_some())
        }
        _ => false,
    }
}

/// The operands of the only command, if there is one.
fn operands_of<'f>(found: &'f [Found<'_>]) -> &'f [Given<'f>] {
    let [only] = found else {
        return &[];
    };
    only.operands.as_slice()
}

/// The only operand of the only command, if there is one.
fn value_of<'f>(found: &'f [Found<'_>]) -> Given<'f> {
    match operands_of(found) {
        [only] => *only,
        _ => Given::Unknown,
    }
}

/// Says why a call of a function fails.
fn say_call(said: Sentence, func: Func, why: CallFault, operands: &[Given<'_>]) -> Sentence {
    if let (Func::Len, [operand]) = (func, operands) {
        if is_known(operand) {
            return say_known(said, operand).say(", which has no length");
        }
    }
    if matches!(why, CallFault::WrongCount) {
        return said;
    }
    let mut said = said;
    let mut between = "";
    for operand in operands {
        if is_known(operand) {
            said = say_known(said.say(between), operand);
            between = ", ";
        }
    }
    let said = said.say(if between.is_empty() { "" } else { "; " });
    said.say(taken_by(func, why))
}

/// What a function takes.
fn taken_by(func: Func, why: CallFault) -> &'static str {
    match (func, why) {
        (Func::Len, _) => "it takes a string, a list or a map",
        (Func::Index, CallFault::OutOfRange) => "an index is from 0 to one below the length",
        (Func::Index, _) => "it takes a list or a string and integers, or a map and strings",
        (Func::Slice, CallFault::OutOfRange) => "the bounds rise from 0 to the length",
        (Func::Slice, _) => "it takes a string or a list, and integers",
        (Func::Eq | Func::Ne, _) => {
            "it compares two booleans, two integers, two strings, or anything with nil"
        }
        (Func::Lt | Func::Le | Func::Gt | Func::Ge, _) => {
            "it compares two integers or two strings"
        }
        (Func::Printf, CallFault::FormatRefused) => {
            "each form of the format takes one argument, of its kind"
        }
        (Func::Printf, _) => "its format is a string",
        _ => "it takes arguments of other kinds",
    }
}

/// Whether something is known of an operand.
fn is_known(operand: &Given<'_>) -> bool {
    !matches!(operand, Given::Unknown)
}

/// Says that a value has no fields.
fn say_no_field(said: Sentence, given: Given<'_>) -> Sentence {
    match given {
        Given::Unknown => said.say("only a map has fields"),
        _ => say_known(said, &given).say(", which has no fields"),
    }
}

/// Says which keys a map has instead.
fn say_no_entry(said: Sentence, field: &[u8], given: Given<'_>) -> Sentence {
    match given {
        Given::Chain {
            value: Value::Object(members),
            ..
        } => {
            let said = say_keys(say_subject(said, &given), members);
            say_given(said.say(": where it may be absent write index "), &given)
                .say(" ")
                .quote(field)
        }
        _ => said
            .say("where it may be absent write index, as in index . ")
            .quote(field),
    }
}

/// Says which keys a map has.
fn say_keys(said: Sentence, members: &Map<String, Value>) -> Sentence {
    if members.is_empty() {
        return said.say(" is an empty map");
    }
    let mut said = said.say(" has ");
    for (index, key) in members.keys().enumerate() {
        if index == MOST_KEYS {
            return said.say(" and more");
        }
        let comma = if index == 0 { "" } else { ", " };
        said = said.say(comma).quote(key.as_bytes());
    }
    said
}

/// Says that a range does not visit a value.
fn say_no_range(said: Sentence, operands: &[Given<'_>]) -> Sentence {
    let said = match operands {
        [operand] if is_known(operand) => say_known(said, operand).say(": "),
        _ => said,
    };
    said.say("a range visits a list, a map or the numbers below an integer")
}

/// Says what an operand is.
fn say_known(said: Sentence, given: &Given<'_>) -> Sentence {
    say_kind(say_subject(said, given).say(" is "), given)
}

/// Says an operand as the subject of a sentence, which is no dot alone.
fn say_subject(said: Sentence, given: &Given<'_>) -> Sentence {
    match given {
        Given::Chain {
            root: Root::Dot,
            names,
            ..
        } if names.is_empty() => said.say("dot"),
        _ => say_given(said, given),
    }
}

/// Says an operand as a template has it.
fn say_given(said: Sentence, given: &Given<'_>) -> Sentence {
    match given {
        Given::Chain { root, names, .. } => say_chain(said, *root, *names),
        Given::Number(number) => say_number(said, *number),
        Given::Text(text) => said.quote(*text),
        Given::Bool(is_true) => said.say(if *is_true { "true" } else { "false" }),
        Given::Unknown => said,
    }
}

/// Says a chain of fields.
fn say_chain(said: Sentence, root: Root, names: &[Bytes]) -> Sentence {
    let mut said = match root {
        Root::Dot if names.is_empty() => said.say("."),
        Root::Dot => said,
        Root::Start => said.say("$"),
        Root::Parentheses => said.say("(..)"),
    };
    for name in names {
        said = said.say(".").show(name.as_slice());
    }
    said
}

/// Says of which kind the value of an operand is, and which it is.
fn say_kind(said: Sentence, given: &Given<'_>) -> Sentence {
    match given {
        Given::Chain { value, .. } => say_value(said, *value),
        Given::Number(_) => said.say("an integer"),
        Given::Text(_) => said.say("a string"),
        Given::Bool(_) => said.say("a boolean"),
        Given::Unknown => said,
    }
}

/// Says a value, with its kind.
fn say_value(said: Sentence, value: &Value) -> Sentence {
    match value {
        Value::Null => said.say("null"),
        Value::Bool(true) => said.say("a boolean (true)"),
        Value::Bool(false) => said.say("a boolean (false)"),
        Value::Number(number) => match number.as_i64() {
            Some(number) => say_number(said.say("an integer ("), number).say(")"),
            None => said.say("a number"),
        },
        Value::String(text) => said.say("a string (").quote(text.as_bytes()).say(")"),
        Value::Array(items) => say_count(said.say("a list of "), items.len(), "item"),
        Value::Object(members) => say_count(said.say("a map of "), members.len(), "key"),
    }
}

/// Says how many there are of something.
fn say_count(said: Sentence, count: usize, name: &str) -> Sentence {
    let said = said.count(count as u64).say(" ").say(name);
    if count == 1 { said } else { said.say("s") }
}

/// Says an integer.
fn say_number(said: Sentence, number: i64) -> Sentence {
    let said = if number < 0 { said.say("-") } else { said };
    said.count(number.unsigned_abs())
}
