//! Pipelines to code, each from its last operand to its first.
#![tactic(auto, using(crate::proofs::TailLemmas::ends))]

ghost use Rattle.std.specs.Prelude.{◌≡◌, ◌+◌, ◌^◌, ◌≤◌, ◌<◌, IfOk, IsOk, OnOk, false, length, true};
ghost use Rattle.tmpl_funcs.specs.Func.{takes};
ghost use Rattle.tmpl_grammar.specs.Tree as tree;
ghost use Rattle.tmpl_grammar.specs.View.{commands_in, operand_of, operands_in, pipeline_of};
ghost use Rattle.tmpl_code.specs.Code as spec;
ghost use Rattle.tmpl_code.specs.computed.Held.{CalledAt, Ends, Placed, code_of, after_decision, layout_of};

use crate::code::Code;
use crate::instruction::{CommandError, Instruction};
use crate::scope::Scope;
use std::alloc::AllocError;
use tmpl_funcs::Func;
use tmpl_grammar::{Command, Operand, Pipeline};
use tmpl_values::Bytes;

/// The sum; no memory would hold that many if it were larger than a number.
pub(crate) fn sum(a: usize, b: usize) -> Result<usize, AllocError>
    ensures value { IfOk result (λ n. n ≡ a + b) }
    ensures fits { a + b < 2 ^ 64 → IsOk result }
{
    a.checked_add(b).ok_or(AllocError)
}

/// The number in 32 bits; the code that counts so far would take 64 GiB.
pub(crate) fn to_u32(n: usize) -> Result<u32, AllocError>
    ensures value { IfOk result (λ m. m ≡ n) }
    ensures fits { n < 2 ^ 32 → IsOk result }
{
    if n <= u32::MAX as usize {
        Ok(n as u32)
    } else {
        Err(AllocError)
    }
}

/// Puts a pipeline.
pub(crate) fn put_pipeline(
    code: &mut Code,
    scope: &Scope<'_>,
    pipeline: &Pipeline,
) -> Result<(), AllocError>
    ensures { OnOk result (Placed (spec.PipelineAt (pipeline_of pipeline.now) (layout_of scope.now))
        code.old code.new) }
{
    put_commands(code, scope, 0, pipeline.commands.as_slice())
}

/// Puts commands, to the first of which nothing is piped, above this many values.
#[cycle(pipeline)]
fn put_commands(
    code: &mut Code,
    scope: &Scope<'_>,
    above: usize,
    commands: &[Command],
) -> Result<(), AllocError>
    ensures { OnOk result (Placed (spec.CommandsAt (commands_in commands.now) false above (layout_of scope.now))
        code.old code.new) }
{
    match commands {
        [first, rest @ ..] => {
            put_piped(code, scope, above, rest)?;
            code.push(Instruction::Settle)?;
            put_command(code, scope, above, false, first.operands.as_slice())
        }
        [] => code.push(Instruction::PushNothing),
    }
}

/// Puts commands to each of which a value is piped.
#[cycle(pipeline)]
#[tactic(auto, using(tmpl_grammar::proofs::WeightLemmas::lighter, crate::proofs::TailLemmas::ends))]
fn put_piped(
    code: &mut Code,
    scope: &Scope<'_>,
    above: usize,
    commands: &[Command],
) -> Result<(), AllocError>
    ensures { OnOk result (Placed (spec.CommandsAt (commands_in commands.now) true above (layout_of scope.now))
        code.old code.new) }
{
    let below = sum(above, 1)?;
    let mut i = commands.len();
    while i > 0 {
        i -= 1;
        code.push(Instruction::Settle)?;
        put_command(code, scope, below, true, commands[i].operands.as_slice())?;
    }
    Ok(())
}

/// Puts a command, above this many values, of which a piped one is the newest.
#[cycle(pipeline)]
fn put_command(
    code: &mut Code,
    scope: &Scope<'_>,
    above: usize,
    piped: bool,
    operands: &[Operand],
) -> Result<(), AllocError>
    ensures { OnOk result (Placed (spec.CommandAt (operands_in operands.now) piped above (layout_of scope.now))
        code.old code.new) }
{
    match operands {
        [first, rest @ ..] => match first {
            Operand::Function(func) => put_call(code, scope, above, piped, *func, rest),
            _ if is_last(rest, piped) => put_alone(code, scope, above, first),
            _ => code.push(Instruction::Refuse(CommandError::NotAFunction)),
        },
        [] => code.push(Instruction::Refuse(CommandError::NotAFunction)),
    }
}

/// Whether no argument stands after an operand before these.
#[tactic(auto, using(crate::proofs::OperandLemmas::counts))]
fn is_last(rest: &[Operand], piped: bool) -> bool
    ensures { result ≡ spec.is_last (operands_in rest.now) piped }
{
    match rest {
        [] => !piped,
        [_, ..] => false,
    }
}

/// Puts an operand that is a whole command, and no function.
#[cycle(pipeline)]
fn put_alone(
    code: &mut Code,
    scope: &Scope<'_>,
    above: usize,
    operand: &Operand,
) -> Result<(), AllocError>
    ensures { OnOk result (Placed (spec.AloneAt (operand_of operand.now)
        (spec.OperandAt (operand_of operand.now) above (layout_of scope.now))) code.old code.new) }
{
    match operand {
        Operand::Nil => code.push(Instruction::Refuse(CommandError::NilCommand)),
        _ => put_operand(code, scope, above, operand),
    }
}

#[tactic(auto, using(crate::proofs::OperandLemmas::counts))]
fn argument_count(operands: &[Operand], piped: bool) -> u64
    ensures { result ≡ spec.argument_count (operands_in operands.now) piped }
{
    if piped {
        operands.len() as u64 + 1
    } else {
        operands.len() as u64
    }
}

#[tactic(auto, using(crate::proofs::OperandLemmas::counts))]
fn operand_count(operands: &[Operand]) -> usize
    ensures { result ≡ tree.operand_count (operands_in operands.now) }
{
    operands.len()
}

/// Puts a call of a function.
#[cycle(pipeline)]
#[tactic(auto, using(crate::proofs::TailLemmas::ends, crate::proofs::TailLemmas::placed_on))]
fn put_call(
    code: &mut Code,
    scope: &Scope<'_>,
    above: usize,
    piped: bool,
    func: Func,
    operands: &[Operand],
) -> Result<(), AllocError>
    ensures { OnOk result (Placed (CalledAt func (operands_in operands.now) piped above (layout_of scope.now))
        code.old code.new) }
{
    if !func.takes(argument_count(operands, piped)) {
        return code.push(Instruction::Refuse(CommandError::WrongCount(func)));
    }
    match func {
        Func::And => put_junction(code, scope, above, false, piped, operands),
        Func::Or => put_junction(code, scope, above, true, piped, operands),
        _ => {
            let count = to_u32(operand_count(operands))?;
            code.push(Instruction::Call { func, count, piped })?;
            put_operands(code, scope, above, operands)
        }
    }
}

/// Puts the operands of a call.
#[cycle(pipeline)]
#[tactic(auto, using(tmpl_grammar::proofs::WeightLemmas::lighter, crate::proofs::TailLemmas::ends))]
fn put_operands(
    code: &mut Code,
    scope: &Scope<'_>,
    above: usize,
    operands: &[Operand],
) -> Result<(), AllocError>
    ensures { OnOk result (Placed (spec.OperandsAt (operands_in operands.now) above (layout_of scope.now))
        code.old code.new) }
{
    let mut i = operands.len();
    while i > 0 {
        i -= 1;
        put_operand(code, scope, sum(above, i)?, &operands[i])?;
    }
    Ok(())
}

/// Puts the operands of an `or`, or else of an `and`.
#[cycle(pipeline)]
#[tactic(auto, using(tmpl_grammar::proofs::WeightLemmas::lighter, crate::proofs::TailLemmas::ends, crate::proofs::TailLemmas::longer))]
fn put_junction(
    code: &mut Code,
    scope: &Scope<'_>,
    above: usize,
    is_or: bool,
    piped: bool,
    operands: &[Operand],
) -> Result<(), AllocError>
    ensures { OnOk result (Placed (spec.JunctionAt is_or (operands_in operands.now) piped above (layout_of scope.now))
        code.old code.new) }
{
    let end = code.len();
    let mut last = !piped;
    let mut i = operands.len();
    while i > 0 {
        i -= 1;
        put_decide(code, end, is_or, piped, last)?;
        put_operand(code, scope, above, &operands[i])?;
        last = false;
    }
    Ok(())
}

/// Puts what decides after an operand, unless that is the last argument; what the others put ends at the end.
fn put_decide(
    code: &mut Code,
    end: usize,
    is_or: bool,
    piped: bool,
    last: bool,
) -> Result<(), AllocError>
    requires { end ≤ length (code_of code.old) }
    ensures code { OnOk result (code_of code.new ≡ after_decision last is_or piped end (code_of code.old)) }
    ensures ends { OnOk result (Ends (code_of code.old) (code_of code.new)) }
{
    if last {
        return Ok(());
    }
    let skip = to_u32(code.len() - end)?;
    code.push(Instruction::Decide { is_or, piped, skip })
}

/// Puts an operand, above this many values.
#[cycle(pipeline)]
#[tactic(auto, using(tmpl_grammar::proofs::ViewLemmas::group_seen, crate::proofs::TailLemmas::ends, crate::proofs::TailLemmas::placed_on))]
fn put_operand(
    code: &mut Code,
    scope: &Scope<'_>,
    above: usize,
    operand: &Operand,
) -> Result<(), AllocError>
    ensures { OnOk result (Placed (spec.OperandAt (operand_of operand.now) above (layout_of scope.now))
        code.old code.new) }
{
    match operand {
        Operand::Dot => code.push(Instruction::PushDot),
        Operand::Fields(names) => code.push_fields(names.as_slice()),
        Operand::Variable { name, fields } => {
            put_chain(code, fields)?;
            put_variable(code, scope.slot(name.as_slice()), above)
        }
        Operand::Bool(held) => code.push(Instruction::PushBool(*held)),
        Operand::Number(number) => code.push(Instruction::PushNumber(*number)),
        Operand::Text(bytes) => code.push_text(bytes),
        Operand::Nil => code.push(Instruction::PushNothing),
        Operand::Function(func) => put_bare(code, *func),
        Operand::Group { commands, fields } => {
            put_chain(code, fields)?;
            put_commands(code, scope, above, commands.as_slice())
        }
    }
}

/// Puts a chain of fields after a value, if there is one.
fn put_chain(code: &mut Code, names: &Vec<Bytes>) -> Result<(), AllocError>
    ensures code { OnOk result (code_of code.new ≡ spec.chain_before names.now.items (code_of code.old)) }
    ensures ends { OnOk result (Ends (code_of code.old) (code_of code.new)) }
{
    match names.as_slice() {
        [] => Ok(()),
        [_, ..] => code.push_chain(names.as_slice()),
    }
}

/// Puts the variable of a slot, below this many values.
fn put_variable(code: &mut Code, slot: Option<usize>, above: usize) -> Result<(), AllocError>
    ensures { OnOk result (Placed (spec.VariableAt slot above) code.old code.new) }
{
    match slot {
        Some(slot) => code.push(Instruction::PushSlot(to_u32(sum(above, slot)?)?)),
        None => code.push(Instruction::PushNothing),
    }
}

/// Puts a function as an argument: a call without arguments.
fn put_bare(code: &mut Code, func: Func) -> Result<(), AllocError>
    ensures { OnOk result (Placed (spec.BareAt (takes func 0) func) code.old code.new) }
{
    if func.takes(0) {
        code.push(Instruction::Call {
            func,
            count: 0,
            piped: false,
        })
    } else {
        code.push(Instruction::Refuse(CommandError::WrongCount(func)))
    }
}
