//! Whether a template never fails over the data of a schema, and where it may.
ghost use Rattle.std.specs.Prelude.{◌≡◌, ◌++◌, List, false, true, IfOk, OnOk, map};
ghost use Rattle.std.specs.Option.{option_map};
ghost use Rattle.serde_json.specs.View.{view};
ghost use Rattle.tmpl_syntax.specs.View.{set_view};
ghost use Rattle.tmpl_problems.specs.Errors.{errors_in};
ghost use Rattle.tmpl_problems.specs.Finding.{Finding, has_error};
ghost use Rattle.tmpl_report.specs.Errors.{MayBeOfSchema};
ghost use Rattle.tmpl_report.specs.Safe.{IsSafeOver};
ghost use Rattle.tmpl_report.specs.computed.Added.{schema_document};
ghost use Rattle.tmpl_problems.specs.computed.Added.{HasMore};

use crate::Result;
use crate::check::{CheckFault, check_document};
use crate::reasons::{Reason, reasons_of};
use crate::samples::{Failure, failures_of};
use crate::source::{Question, Sources, Task};
use serde_json::Value;
use std::alloc::{AllocError, Global};
use tmpl_funcs::Func;
use tmpl_hints::Sentence;
use tmpl_json_schema::{Refused, SchemaFault, Why, below, part_without_values, warnings_of};
use tmpl_problems::rule::{MAY_FAIL, Rule, SCHEMA_NOT_UNDERSTOOD, SCHEMA_WITHOUT_VALUES};
use tmpl_problems::{Finding, Findings, Source, position_of};
use tmpl_schema::{Cause, Doubt, Refusal};
use tmpl_syntax::{Place, Set};
use tmpl_values::Bytes;

/// Adds the findings about the template that is asked for over data of the schema, of which this is the document, once the
/// files are accepted.
pub(crate) fn add_schema<'a>(
    findings: &mut Findings<'a>,
    set: &Set,
    question: &Question<'a>,
    sources: &Sources<'a>,
    document: Option<&Value>,
) -> Result<()>
    requires { option_map (λ d. view d.now) document ≡ schema_document sources.now }
    ensures safe { OnOk result (has_error findings.new ≡ false → sources.now.is_short ≡ false
        → IsSafeOver question.now sources.now (set_view set.now)) }
    ensures matches_spec { OnOk result ((errors : List Finding) × MayBeOfSchema sources.now.schema findings.old errors
        × (errors_in findings.new ≡ errors_in findings.old ++ errors)) }
{
    if sources.schema.is_none() {
        return Ok(());
    }
    if findings.has_errors() {
        return Ok(());
    }
    add_judged(findings, set, question, sources, document)?;
    Ok(())
}

/// The same, whether or not a file has an error.
#[tactic(auto, using(tmpl_problems::proofs::ErrorLemmas::more))]
fn add_judged<'a>(
    findings: &mut Findings<'a>,
    set: &Set,
    question: &Question<'a>,
    sources: &Sources<'a>,
    document: Option<&Value>,
) -> Result<()>
    requires { option_map (λ d. view d.now) document ≡ schema_document sources.now }
    ensures safe { OnOk result (has_error findings.new ≡ false → sources.now.is_short ≡ false
        → IsSafeOver question.now sources.now (set_view set.now)) }
    ensures more { OnOk result (HasMore findings.old findings.new) }
{
    let Some(schema) = &sources.schema else {
        return Ok(());
    };
    let Some(first) = question.first else {
        return Ok(());
    };
    if sources.is_short {
        return Ok(());
    }
    let alloc = findings.alloc;
    let task = Task {
        alloc,
        set,
        question,
        sources,
        first,
    };
    let stops = names_of(alloc, question.stops.as_slice())?;
    let stops = stops.as_slice();
    let Some(document) = document else {
        add_unread(findings, question, schema)?;
        return Ok(());
    };
    match check_document(alloc, set, task.name(), document, question.mode, stops) {
        Ok(()) => warn_of_schema(findings, schema, document),
        Err(fault) => {
            add_fault(&task, &mut *findings, schema, document, stops, fault)?;
            add_unseen(findings, question)?;
            Ok(())
        }
    }
}

/// Adds an error where none tells what is wrong. Each check tells one, but no clause of theirs says so.
fn add_unseen<'a>(findings: &mut Findings<'a>, question: &Question<'a>) -> Result<()>
    ensures found { OnOk result (has_error findings.new ≡ true) }
    ensures kept { OnOk result (has_error findings.old ≡ true → findings.new ≡ findings.old) }
    ensures more { OnOk result (HasMore findings.old findings.new) }
{
    let is_told = findings.has_errors();
    if is_told {
        return Ok(());
    }
    let text = String::from_str(findings.alloc, "may fail: it is not seen why")?;
    let file = question.first.unwrap_or("");
    findings.add(Finding::error(file, (1, 1), MAY_FAIL, text))?;
    Ok(())
}

/// Adds what is wrong in a schema that is not read, and that it is, if nothing else tells it.
fn add_unread<'a>(
    findings: &mut Findings<'a>,
    question: &Question<'a>,
    schema: &Source<'a>,
) -> Result<()>
    ensures found { OnOk result (has_error findings.new ≡ true) }
    ensures more { OnOk result (HasMore findings.old findings.new) }
{
    findings.add_data(schema)?;
    add_unseen(findings, question)?;
    Ok(())
}

/// Adds a warning of a part of a schema, by a rule.
fn warn_of_part<'a>(
    findings: &mut Findings<'a>,
    schema: &Source<'a>,
    rule: Rule,
    part: &Refused,
) -> Result<()>
    ensures { OnOk result (errors_in findings.new ≡ errors_in findings.old) }
{
    let place = position_of(schema.bytes.as_slice(), part.path.as_slice());
    let text = refused_text(findings.alloc, "", part)?;
    findings.warn(schema.name, place, rule, text)
}

/// Warns of what is suspicious in a schema: a part to which no value conforms, if one is found, and what is not used.
fn warn_of_schema<'a>(
    findings: &mut Findings<'a>,
    schema: &Source<'a>,
    document: &Value,
) -> Result<()>
    ensures { OnOk result (errors_in findings.new ≡ errors_in findings.old) }
{
    if let Some(part) = part_without_values(findings.alloc, document)? {
        warn_of_part(findings, schema, SCHEMA_WITHOUT_VALUES, &part)?;
    }
    for warning in warnings_of(findings.alloc, document)?.as_slice() {
        warn_of_part(findings, schema, SCHEMA_NOT_UNDERSTOOD, warning)?;
    }
    Ok(())
}

/// Adds why it is not seen that the template never fails.
fn add_fault<'a>(
    task: &Task<'_, 'a>,
    findings: &mut Findings<'a>,
    schema: &Source<'a>,
    document: &Value,
    stops: &[Bytes],
    fault: CheckFault,
) -> Result<()>
    ensures { OnOk result (HasMore findings.old findings.new) }
{
    match fault {
        CheckFault::Schema(SchemaFault::Refused(refused)) => {
            let place = position_of(schema.bytes.as_slice(), refused.path.as_slice());
            let text = refused_text(task.alloc, "schema not understood: ", &refused)?;
            findings.add_once(Finding::error(schema.name, place, SCHEMA_NOT_UNDERSTOOD, text))
        }
        CheckFault::Template(Refusal::MayFail(doubts)) => {
            add_doubts(task, findings, schema, document, stops, doubts.as_slice())
        }
        CheckFault::Schema(SchemaFault::OutOfMemory) => Err(AllocError),
        CheckFault::Template(Refusal::OutOfMemory) => Err(AllocError),
    }
}

/// Adds each place at which the template may fail, with the reason in the schema and a value for which it does, where
/// these are found.
fn add_doubts<'a>(
    task: &Task<'_, 'a>,
    findings: &mut Findings<'a>,
    schema: &Source<'a>,
    document: &Value,
    stops: &[Bytes],
    doubts: &[Doubt],
) -> Result<()>
    ensures { OnOk result (HasMore findings.old findings.new) }
{
    let Task { alloc, set, .. } = *task;
    let mode = task.question.mode;
    let bytes = schema.bytes.as_slice();
    let reasons = reasons_of(alloc, set, task.name(), document, bytes, doubts)?;
    let failures = if task.question.is_searched {
        failures_of(alloc, set, task.name(), document, mode, stops, doubts)?
    } else {
        Vec::new(alloc)
    };
    for (index, doubt) in doubts.iter().enumerate() {
        let reason = reasons.get(index).and_then(Option::as_ref);
        let failure = failures.get(index).and_then(Option::as_ref);
        let finding = doubt_finding(task, doubt, schema.name, reason, failure)?;
        findings.add_once(finding)?;
    }
    Ok(())
}

/// What is found of an alarm, with its reason in the schema of this name and a value for which the template fails.
fn doubt_finding<'a>(
    task: &Task<'_, 'a>,
    doubt: &Doubt,
    schema: &str,
    reason: Option<&Reason>,
    failure: Option<&Failure>,
) -> Result<Finding<'a>> {
    let tree = task.set.get(doubt.template.as_slice());
    let found = tree.and_then(|tree| task.sources.place(tree.file.as_slice(), doubt.start));
    let (file, place) = found.unwrap_or((task.first, Place::first()));
    let text = text_of(task.alloc, &doubt.cause, schema, reason)?;
    let mut finding = Finding::error(file, (doubt.line.max(1), place.column), MAY_FAIL, text);
    if let Some(failure) = failure {
        finding.note = Some(failure_text(task.alloc, failure, task.question.mode.is_some())?);
    }
    Ok(finding)
}

/// The message about a value for which a template fails, by the mode that was asked for or by each.
fn failure_text(alloc: Global, failure: &Failure, is_by_mode: bool) -> Result<String> {
    let is_by_error = failure.is_strict && !is_by_mode;
    Sentence::new(alloc)
        .say("fails ")
        .say(if is_by_error {
            "with --missingkey error "
        } else {
            ""
        })
        .say("for ")
        .say(failure.data.as_str())
        .say(": ")
        .say(failure.said.as_str())
        .finish()
}

/// Names, each as bytes of its own.
fn names_of(alloc: Global, given: &[&str]) -> Result<Vec<Bytes>>
    ensures { IfOk result (λ names. names.items ≡ map (λ name. name.now) given.now) }
{
    let mut names = Vec::new(alloc);
    for name in given {
        names.push(Bytes::new(name.as_bytes().to_vec(alloc)?))?;
    }
    Ok(names)
}

/// The message about a part of a schema: after these words the way to it, and what is wrong there.
fn refused_text(alloc: Global, words: &str, refused: &Refused) -> Result<String> {
    let mut pointer = String::new(alloc);
    for part in refused.path.as_slice().iter().rev() {
        pointer = below(alloc, pointer.as_str(), part.as_str())?;
    }
    Sentence::new(alloc)
        .say(words)
        .say(pointer.as_str())
        .say(if pointer.is_empty() { "" } else { ": " })
        .say(refused.text.as_str())
        .finish()
}

/// The message about a cause, for which there may be a reason in the schema of this name.
fn text_of(alloc: Global, cause: &Cause, schema: &str, reason: Option<&Reason>) -> Result<String> {
    let said = Sentence::new(alloc).say("may fail: ");
    let said = match cause {
        Cause::Absent(name) => {
            let said = said.say(".").show(name.as_slice()).say(" may be absent: ");
            say_absence(said, schema, reason)
        }
        Cause::NoFields(name, kind) => {
            let said = said.say(".").show(name.as_slice()).say(" of ");
            say_kind(said, kind, schema, reason).say(" and has no fields")
        }
        Cause::Arguments(func) => say_func(said, *func).say(" may get what it refuses"),
        Cause::FewItems(func, count) => {
            let said = say_func(said, *func).say(" may get a list of too few items: ");
            say_guard(say_shortness(said, *count, schema, reason), *count)
        }
        Cause::NotFollowed(func) => say_func(said, *func).say(" is not followed by this check"),
        Cause::Range(kind) => say_kind(said.say("a range over "), kind, schema, reason),
        Cause::NoTemplate(name) => { said.say("there is no template ").quote(name.as_slice()) }
        Cause::Variables => said.say("what the variables hold after it is not followed"),
        Cause::Command => said.say("what it gives is not followed by this check"),
        Cause::TooComplex => said.say("it is too complex for this check"),
    };
    said.finish()
}

/// Says why a field may be absent.
fn say_absence(said: Sentence, schema: &str, reason: Option<&Reason>) -> Sentence {
    match reason {
        Some(reason) => say_reason(said, schema, reason),
        None => said.say("the schema does not require it"),
    }
}

/// Says why a list may have fewer items than this, where that is known.
fn say_shortness(said: Sentence, count: u64, schema: &str, reason: Option<&Reason>) -> Sentence {
    let Some(reason) = reason else {
        return said;
    };
    let said = say_reason(said, schema, reason);
    match reason.why {
        Why::LowMinItems => said.say(" is below ").count(count),
        _ => said,
    }
    .say("; ")
}

/// Says a reason: what of the schema it is, and the line of that.
fn say_reason(said: Sentence, schema: &str, reason: &Reason) -> Sentence {
    let words = match reason.why {
        Why::NotRequired => "not in \"required\" of ",
        Why::NotListed => "not in \"properties\" of ",
        Why::NoneRequired => "no \"required\" at ",
        Why::NoneListed => "no \"properties\" at ",
        Why::LowMinItems => "\"minItems\" at ",
        Why::NoMinItems => "no \"minItems\" at ",
        Why::Kind => "",
    };
    said.say(words).say(schema).say(":").count(reason.line)
}

/// Says how a template or a schema tells that a list has as many items.
fn say_guard(said: Sentence, count: u64) -> Sentence {
    let said = if count == 1 {
        said.say("guard it by \"if\" or \"with\"")
    } else {
        said.say("guard it by \"if ge (len LIST) ")
            .count(count)
            .say("\"")
    };
    said.say(", or write \"minItems\": ").count(count)
}

/// Says a kind of values, and what lets them through.
fn say_kind(said: Sentence, kind: &str, schema: &str, reason: Option<&Reason>) -> Sentence {
    let said = said.say(kind).say(", which may come here");
    match reason {
        Some(reason) => say_reason(said.say(" ("), schema, reason).say(")"),
        None => said,
    }
}

/// Says the name of a function.
fn say_func(said: Sentence, func: Func) -> Sentence {
    said.say("\"").say(func.name()).say("\"")
}
