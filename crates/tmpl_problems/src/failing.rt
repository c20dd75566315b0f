//! Commands that fail at each run that gets to them, whatever the data is.
ghost use Rattle.std.specs.Prelude.{◌≡◌, ◌||◌, false, IfOk, is_some, option_map};
ghost use Rattle.tmpl_funcs.specs.View.{values_of};
ghost use Rattle.tmpl_grammar.specs.View.{commands_in, operand_of, operands_in};
ghost use Rattle.tmpl_grammar.specs.computed.View.{action_reading};
ghost use Rattle.tmpl_problems.specs.Failing as spec;
ghost use Rattle.tmpl_problems.specs.computed.Failing.{reading_fails};
ghost use Rattle.tmpl_values.specs.View.{val_of};

use std::alloc::{AllocError, Global};
use tmpl_funcs::{CallError, Func, call};
use tmpl_grammar::{Action, Command, Operand, Reading};
use tmpl_values::{Cell, Val};

/// What fails at each run that gets to it.
#[derive(Clone, Copy)]
pub(crate) enum Failing<'t> {
    /// A command, and whether a value is piped to it.
    Command(&'t [Operand], bool),
    /// A function that is an argument of a command, and so gets none.
    Argument(&'t [Operand], Func),
}

/// What fails first in an action, if something does.
pub(crate) fn failing_in_reading<'t>(
    alloc: Global,
    reading: &'t Reading,
) -> Result<Option<Failing<'t>>, AllocError>
    ensures { IfOk result (λ o. is_some o ≡ reading_fails (action_reading reading.now)) }
{
    match reading {
        Reading::Read(
            Action::Pipeline(header) | Action::Open(_, header) | Action::ElseBranch(_, header),
        ) => failing_in(alloc, header.pipeline.commands.as_slice()),
        Reading::Read(Action::Template(_, Some(pipeline)) | Action::Block(_, pipeline)) => {
            failing_in(alloc, pipeline.commands.as_slice())
        }
        _ => Ok(None),
    }
}

/// What fails first in a pipeline, if something does.
#[cycle(walk)]
#[tactic(auto, using(tmpl_grammar::proofs::WeightLemmas::lighter))]
fn failing_in<'t>(alloc: Global, commands: &'t [Command]) -> Result<Option<Failing<'t>>, AllocError>
    ensures { IfOk result (λ o. is_some o ≡ spec.fails_within (commands_in commands.now) false) }
{
    let mut is_piped = false;
    for command in commands {
        let found = failing_command(alloc, command.operands.as_slice(), is_piped)?;
        if found.is_some() {
            return Ok(found);
        }
        is_piped = true;
    }
    Ok(None)
}

/// What fails first in a command, which may be itself, if something does.
#[cycle(walk)]
fn failing_command<'t>(
    alloc: Global,
    operands: &'t [Operand],
    is_piped: bool,
) -> Result<Option<Failing<'t>>, AllocError>
    ensures { IfOk result (λ o. is_some o
        ≡ (spec.always_fails (operands_in operands.now) is_piped || spec.fails_inside (operands_in operands.now))) }
{
    if always_fails(alloc, operands, is_piped)? {
        return Ok(Some(Failing::Command(operands, is_piped)));
    }
    match operands {
        [Operand::Function(_), arguments @ ..] => failing_among(alloc, operands, arguments),
        _ => failing_among(alloc, operands, operands),
    }
}

/// What fails first in these operands of a command, if something does.
#[cycle(walk)]
#[tactic(auto, using(tmpl_grammar::proofs::WeightLemmas::lighter))]
fn failing_among<'t>(
    alloc: Global,
    whole: &'t [Operand],
    operands: &'t [Operand],
) -> Result<Option<Failing<'t>>, AllocError>
    ensures { IfOk result (λ o. is_some o ≡ spec.fails_among (operands_in operands.now)) }
{
    for operand in operands {
        let found = failing_alone(alloc, whole, operand)?;
        if found.is_some() {
            return Ok(found);
        }
    }
    Ok(None)
}

/// What fails first in an operand of a command that is not what it calls, if something does.
#[cycle(walk)]
#[tactic(auto, using(tmpl_grammar::proofs::ViewLemmas::group_seen))]
fn failing_alone<'t>(
    alloc: Global,
    whole: &'t [Operand],
    operand: &'t Operand,
) -> Result<Option<Failing<'t>>, AllocError>
    ensures { IfOk result (λ o. is_some o ≡ spec.fails_alone (operand_of operand.now)) }
{
    match operand {
        Operand::Function(func) => {
            if func.takes(0) {
                Ok(None)
            } else {
                Ok(Some(Failing::Argument(whole, *func)))
            }
        }
        Operand::Group { commands, .. } => failing_in(alloc, commands.as_slice()),
        _ => Ok(None),
    }
}

/// Whether a command fails at each run that gets to it.
fn always_fails(alloc: Global, operands: &[Operand], is_piped: bool) -> Result<bool, AllocError>
    ensures { IfOk result (λ b. b ≡ spec.always_fails (operands_in operands.now) is_piped) }
{
    match operands {
        [Operand::Function(func), arguments @ ..] => call_fails(alloc, *func, arguments, is_piped),
        [] | [Operand::Nil, ..] => Ok(true),
        [_, arguments @ ..] => Ok(has_argument(arguments, is_piped)),
    }
}

/// Whether what is no function has an argument, or a value is piped to it.
fn has_argument(arguments: &[Operand], is_piped: bool) -> bool
    ensures { result ≡ spec.has_argument (operands_in arguments.now) is_piped }
{
    match arguments {
        [] => is_piped,
        [_, ..] => true,
    }
}

/// Whether a call of a function fails at each run that gets to it.
#[tactic(auto, using(tmpl_grammar::proofs::WeightLemmas::counts))]
fn call_fails(
    alloc: Global,
    func: Func,
    arguments: &[Operand],
    is_piped: bool,
) -> Result<bool, AllocError>
    ensures { IfOk result (λ b. b ≡ spec.call_fails func (operands_in arguments.now) is_piped) }
{
    let count = arguments.len() as u64;
    if is_piped {
        return Ok(!func.takes(count + 1));
    }
    if func.takes(count) {
        refuses(alloc, func, arguments)
    } else {
        Ok(true)
    }
}

/// Whether a function that makes no text refuses these arguments, which are constants.
fn refuses(alloc: Global, func: Func, operands: &[Operand]) -> Result<bool, AllocError>
    ensures { IfOk result (λ b. b ≡ spec.refuses func (operands_in operands.now)) }
{
    if matches!(func, Func::And | Func::Or) || func.makes_text() {
        return Ok(false);
    }
    match constants(alloc, operands)? {
        Some(mut cells) => match call(alloc, func, cells.as_mut_slice()) {
            Ok(_) => Ok(false),
            Err(CallError::Fault(_)) => Ok(true),
            Err(CallError::OutOfMemory) => Err(AllocError),
        },
        None => Ok(false),
    }
}

/// The values of operands that are constants.
fn constants<'t>(
    alloc: Global,
    operands: &'t [Operand],
) -> Result<Option<Vec<Cell<'t>>>, AllocError>
    ensures { IfOk result (λ o. option_map (λ cells. values_of cells.items) o
        ≡ spec.constant_values (operands_in operands.now)) }
{
    let mut cells = Vec::new(alloc);
    for operand in operands {
        match constant(operand) {
            Some(val) => cells.push(Cell { val, num: 0 })?,
            None => return Ok(None),
        }
    }
    Ok(Some(cells))
}

/// The value of a constant.
fn constant<'t>(operand: &'t Operand) -> Option<Val<'t>>
    ensures { option_map val_of result ≡ spec.constant_value (operand_of operand.now) }
{
    match operand {
        Operand::Bool(truth) => Some(Val::Bool(*truth)),
        Operand::Number(number) => Some(Val::Num(*number)),
        Operand::Text(text) => Some(Val::Text(text.as_slice())),
        Operand::Nil => Some(Val::Nothing),
        _ => None,
    }
}
