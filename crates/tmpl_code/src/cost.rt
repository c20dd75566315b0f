//! What pipelines need and do. They call no template.
ghost use Rattle.std.specs.Prelude.{false, IfOk, option_map};
ghost use Rattle.tmpl_code.specs.MakesText as texts;
ghost use Rattle.tmpl_code.specs.computed.Surveyed.{Surveys};
ghost use Rattle.tmpl_grammar.specs.Need as needs;
ghost use Rattle.tmpl_grammar.specs.View.{commands_in, operand_of, operands_in, pipeline_of};

use crate::pipeline::sum;
use crate::survey::Survey;
use std::alloc::AllocError;
use tmpl_grammar::{Command, Operand, Pipeline};

pub(crate) fn cost_of_pipeline(pipeline: &Pipeline) -> Result<Survey, AllocError>
    ensures { IfOk result (Surveys (needs.need_of_pipeline (pipeline_of pipeline.now))
        (texts.pipeline_makes_text (pipeline_of pipeline.now)) false) }
{
    cost_of_commands(pipeline.commands.as_slice())
}

/// What commands cost, to the first of which nothing is piped.
#[cycle(pipes)]
fn cost_of_commands(commands: &[Command]) -> Result<Survey, AllocError>
    ensures { IfOk result (Surveys (needs.need_of_commands 0 (commands_in commands.now))
        (texts.commands_make_text (commands_in commands.now)) false) }
{
    match commands {
        [first, rest @ ..] => {
            let first = cost_of_command(0, first.operands.as_slice())?;
            Ok(first.with(cost_of_piped(rest)?))
        }
        [] => Ok(Survey::cells(1)),
    }
}

/// What commands cost to each of which a value is piped.
#[cycle(pipes)]
#[tactic(auto, using(tmpl_grammar::proofs::WeightLemmas::lighter, crate::proofs::BackwardLemmas::from_none))]
fn cost_of_piped(commands: &[Command]) -> Result<Survey, AllocError>
    ensures { IfOk result (Surveys (needs.need_of_commands 1 (commands_in commands.now))
        (texts.commands_make_text (commands_in commands.now)) false) }
{
    let mut cost = Survey::cells(1);
    let mut i = commands.len();
    while i > 0 {
        i -= 1;
        cost = cost_of_command(1, commands[i].operands.as_slice())?.with(cost);
    }
    Ok(cost)
}

/// What a command costs to which this many values are piped: a call needs what its arguments do, while after another
/// operand nothing is computed, though it may name a function.
#[cycle(pipes)]
fn cost_of_command(piped: usize, operands: &[Operand]) -> Result<Survey, AllocError>
    ensures { IfOk result (Surveys (needs.need_of_command piped (operands_in operands.now))
        (texts.operands_make_text (operands_in operands.now)) false) }
{
    match operands {
        [first, rest @ ..] => {
            let alone = cost_of_operand(first)?;
            let rest = cost_of_arguments(piped, rest)?;
            let both = alone.with(rest);
            match first {
                Operand::Function(_) => Ok(both),
                _ => Ok(Survey {
                    need: alone.need,
                    ..both
                }),
            }
        }
        [] => Ok(Survey::cells(1)),
    }
}

/// What the arguments of a call cost, above this many values.
#[cycle(pipes)]
#[tactic(auto, using(crate::proofs::OperandLemmas::no_argument, tmpl_grammar::proofs::WeightLemmas::lighter, crate::proofs::BackwardLemmas::from_none))]
fn cost_of_arguments(held: usize, operands: &[Operand]) -> Result<Survey, AllocError>
    ensures { IfOk result (Surveys (needs.need_of_arguments held (operands_in operands.now))
        (texts.operands_make_text (operands_in operands.now)) false) }
{
    let mut i = operands.len();
    let mut below = sum(held, i)?;
    let mut cost = Survey::cells(below);
    while i > 0 {
        i -= 1;
        below -= 1;
        cost = cost_of_operand(&operands[i])?.above(below)?.with(cost);
    }
    Ok(cost)
}

#[cycle(pipes)]
#[tactic(auto, using(tmpl_grammar::proofs::ViewLemmas::group_seen))]
fn cost_of_operand(operand: &Operand) -> Result<Survey, AllocError>
    ensures { IfOk result (Surveys (needs.need_of_operand (operand_of operand.now))
        (texts.operand_makes_text (operand_of operand.now)) false) }
{
    match operand {
        Operand::Function(func) => Ok(Survey {
            makes_text: func.makes_text(),
            ..Survey::cells(1)
        }),
        Operand::Group { commands, .. } => cost_of_commands(commands.as_slice()),
        _ => Ok(Survey::cells(1)),
    }
}

pub(crate) fn cost_of_given(given: &Option<Pipeline>) -> Result<Survey, AllocError>
    ensures { IfOk result (Surveys (needs.need_of_given (option_map pipeline_of given.now))
        (texts.given_makes_text (option_map pipeline_of given.now)) false) }
{
    match given {
        Some(pipeline) => cost_of_pipeline(pipeline),
        None => Ok(Survey::cells(1)),
    }
}
