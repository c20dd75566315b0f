//! The data beside the files: whether it conforms to the schema, or, where no schema is given, whether the template
//! renders over it.
ghost use Rattle.std.specs.Prelude.{◌≡◌, ◌++◌, List, IfOk, Ok, OnOk, false, true, unwrap_or};
ghost use Rattle.std.specs.Option.{option_map};
ghost use Rattle.serde_json.specs.View.{view};
ghost use Rattle.tmpl_values.specs.Json.{data_of};
ghost use Rattle.tmpl_values.specs.View.{value_of};
ghost use Rattle.tmpl_syntax.specs.View.{set_view};
ghost use Rattle.tmpl_meaning.specs.View.{fault_seen};
ghost use Rattle.tmpl_meaning.specs.declared.missing_key.MissingKey.TheVariants.{Default};
ghost use Rattle.tmpl_problems.specs.Errors.{errors_in};
ghost use Rattle.tmpl_problems.specs.Finding.{Finding, has_error};
ghost use Rattle.tmpl_report.specs.Rendered.{AreOfValues, IsHeld, IsOfFault, IsRendered, IsRenderedOver, is_cut, run_rules};
ghost use Rattle.tmpl_report.specs.Safe.{asked_name};
ghost use Rattle.tmpl_report.specs.computed.Ended.{IsEnd};
ghost use Rattle.tmpl_report.specs.computed.Added.{AddsFault, AddsFaults, schema_document};

use crate::Result;
use crate::detail::{Detail, detail_of};
use crate::held::add_held;
use crate::rendered::{End, MOST_RENDERED, Render};
use crate::samples::{Nowhere, said_of};
use crate::source::{Question, Sources, Task};
use serde_json::Value;
use std::alloc::{AllocError, Global};
use tmpl_engine::{Data, DataFault, MissingKey, Renderer, RunFault};
use tmpl_problems::rule::{FAILS_OVER_DATA, NOT_RENDERED_WHOLE};
use tmpl_problems::{Finding, Findings, Source, reason_text};
use tmpl_syntax::{Place, Set};

/// The warning where a run meets a limit.
const CUT: &str =
    "the run over the data ended at a limit of this check, and what comes after is not checked: 1,000,000 steps, 500 templates inside one another or 16,000,000 bytes of output";

/// Adds what is found of the data beside the files: where it does not conform to the schema; or, if none is given and
/// nothing is wrong, the fault of the run over it. This is the document of the schema.
pub(crate) fn add_values<'a>(
    findings: &mut Findings<'a>,
    set: &Set,
    question: &Question<'a>,
    sources: &Sources<'a>,
    document: Option<&Value>,
) -> Result<()>
    requires { option_map (λ d. view d.now) document ≡ schema_document sources.now }
    ensures rendered { OnOk result (has_error findings.new ≡ false → sources.now.is_short ≡ false
        → IsRendered question.now sources.now (set_view set.now) findings.new) }
    ensures held { OnOk result (has_error findings.new ≡ false → IsHeld sources.now) }
    ensures matches_spec { OnOk result ((errors : List Finding) × AreOfValues question.now sources.now (set_view set.now) errors
        × (errors_in findings.new ≡ errors_in findings.old ++ errors)) }
{
    let Some(data) = &sources.data else {
        return Ok(());
    };
    match &sources.schema {
        Some(schema) => add_held(findings, schema, document, data),
        None => match question.first {
            Some(first) => {
                let task = Task {
                    alloc: findings.alloc,
                    set,
                    question,
                    sources,
                    first,
                };
                add_rendered(&task, findings, data)
            }
            None => Ok(()),
        },
    }
}

/// Adds the fault of the run over the data, if nothing else is wrong.
#[tactic(auto, using(crate::proofs::ValueLemmas::runs))]
fn add_rendered<'a>(
    task: &Task<'_, 'a>,
    findings: &mut Findings<'a>,
    data: &Source<'a>,
) -> Result<()>
    ensures whole { OnOk result (has_error findings.new ≡ false → task.now.sources.now.is_short ≡ false
        → IsRenderedOver task.now.question.now task.now.first.now «data».now (set_view task.now.set.now) findings.new) }
    ensures told { OnOk result (AddsFaults task.now.question.now task.now.first.now «data».now (set_view task.now.set.now)
        findings.old findings.new) }
{
    if task.sources.is_short || findings.has_errors() {
        return Ok(());
    }
    match Data::from_json(task.alloc, data.bytes.as_slice()) {
        Ok(tree) => add_run_over(task, findings, data, &tree),
        Err(DataFault::OutOfMemory) => Err(AllocError),
        Err(_) => Ok(()),
    }
}

/// The same, over data that was read.
fn add_run_over<'a>(
    task: &Task<'_, 'a>,
    findings: &mut Findings<'a>,
    data: &Source<'a>,
    tree: &Data,
) -> Result<()>
    requires { data_of «data».now.bytes.items ≡ Ok (value_of tree.now) }
    ensures whole { OnOk result (has_error findings.new ≡ false
        → IsRenderedOver task.now.question.now task.now.first.now «data».now (set_view task.now.set.now) findings.new) }
    ensures told { OnOk result (AddsFaults task.now.question.now task.now.first.now «data».now (set_view task.now.set.now)
        findings.old findings.new) }
{
    let renderer = Renderer::new(task.alloc, task.set)?;
    let render = Render {
        renderer: &renderer,
        name: task.name(),
        mode: task.question.mode.unwrap_or(MissingKey::Default),
    };
    let end = render.over(task.alloc, tree, &mut Nowhere::of(MOST_RENDERED))?;
    add_end(task, findings, data, tree, end)
}

/// Adds the fault at which the run over the data ended, or warns that it met a limit.
fn add_end<'a>(
    task: &Task<'_, 'a>,
    findings: &mut Findings<'a>,
    data: &Source<'a>,
    tree: &Data,
    end: End<'_>,
) -> Result<()>
    requires value { data_of «data».now.bytes.items ≡ Ok (value_of tree.now) }
    requires end { IsEnd (run_rules (unwrap_or task.now.question.now.mode Default)) (set_view task.now.set.now)
        (asked_name task.now.question.now task.now.first.now) (value_of tree.now) end }
    ensures whole { OnOk result (has_error findings.new ≡ false
        → IsRenderedOver task.now.question.now task.now.first.now «data».now (set_view task.now.set.now) findings.new) }
    ensures told { OnOk result (AddsFaults task.now.question.now task.now.first.now «data».now (set_view task.now.set.now)
        findings.old findings.new) }
{
    match end {
        End::Whole => Ok(()),
        End::Limit => add_cut(task, findings),
        End::Fault(fault) => add_fault(task, findings, data, &fault),
    }
}

/// Warns that the run met a limit.
#[tactic(auto, using(crate::proofs::ValueLemmas::values))]
fn add_cut<'a>(task: &Task<'_, 'a>, findings: &mut Findings<'a>) -> Result<()>
    ensures found { OnOk result (is_cut findings.new ≡ true) }
    ensures errors { OnOk result (errors_in findings.new ≡ errors_in findings.old) }
{
    let text = String::from_str(task.alloc, CUT)?;
    findings.warn(task.first, (1, 1), NOT_RENDERED_WHOLE, text)
}

/// Adds the fault of the run.
#[tactic(auto, using(crate::proofs::ValueLemmas::values))]
fn add_fault<'a>(
    task: &Task<'_, 'a>,
    findings: &mut Findings<'a>,
    data: &Source<'a>,
    fault: &RunFault<'_>,
) -> Result<()>
    ensures found { OnOk result (has_error findings.new ≡ true) }
    ensures added { OnOk result (AddsFault (fault_seen fault.now) findings.old findings.new) }
{
    let detail = detail_over(task, data.bytes.as_slice(), fault)?;
    let finding = fault_finding(task, fault, &detail)?;
    findings.add(finding)
}

/// What is known of a fault over these data.
fn detail_over(task: &Task<'_, '_>, data: &[u8], fault: &RunFault<'_>) -> Result<Detail> {
    match Value::from_slice(task.alloc, data) {
        Ok(value) => detail_of(task, &value, fault),
        Err(error) if error.is_memory() => Err(AllocError),
        Err(_) => Ok(Detail {
            text: String::new(task.alloc),
            start: None,
        }),
    }
}

/// The fault of a run.
fn fault_finding<'a>(
    task: &Task<'_, 'a>,
    fault: &RunFault<'_>,
    detail: &Detail,
) -> Result<Finding<'a>>
    ensures { IfOk result (IsOfFault (fault_seen fault.now)) }
{
    let said = said_of(task.alloc, &fault.kind)?;
    let found = task.sources.place(fault.file, detail.start.unwrap_or(0));
    let (file, place) = found.unwrap_or((task.first, Place::first()));
    let text = reason_text(task.alloc, said.as_str(), detail.text.as_str())?;
    let place = (fault.line, place.column);
    Ok(Finding::error(file, place, FAILS_OVER_DATA, text))
}
