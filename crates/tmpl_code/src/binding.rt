//! What binds the value of a pipeline: headers to code, and their variables in scope.
#![tactic(auto, using(crate::proofs::TailLemmas::ends))]

ghost use Rattle.std.specs.Prelude.{◌≡◌, OnOk, None, option_map};
ghost use Rattle.tmpl_grammar.specs.Need.{declared_count};
ghost use Rattle.tmpl_grammar.specs.View.{binding_of, header_of, operand_of, pipeline_of};
ghost use Rattle.tmpl_code.specs.Code as spec;
ghost use Rattle.tmpl_code.specs.Layout.{bound_on, declares, declares_key};
ghost use Rattle.tmpl_code.specs.computed.Held.{Ends, Placed, bound_off, code_of, layout_of};

use crate::code::Code;
use crate::instruction::Instruction;
use crate::pipeline::{put_pipeline, to_u32};
use crate::scope::Scope;
use std::alloc::AllocError;
use tmpl_grammar::{Binding, Header, Operand};

/// Puts the pipeline of a header, and what binds its value.
#[tactic(auto, using(crate::proofs::TailLemmas::ends, crate::proofs::TailLemmas::placed_on))]
pub(crate) fn put_header(
    code: &mut Code,
    scope: &Scope<'_>,
    header: &Header,
) -> Result<(), AllocError>
    ensures { OnOk result (Placed (spec.HeaderAt (header_of header.now) (layout_of scope.now)) code.old code.new) }
{
    put_bind(code, scope, &header.binding)?;
    put_pipeline(code, scope, &header.pipeline)
}

/// Puts what binds variables to the value on top.
fn put_bind(code: &mut Code, scope: &Scope<'_>, binding: &Binding) -> Result<(), AllocError>
    ensures { OnOk result (Placed (spec.BindAt (binding_of binding.now) (layout_of scope.now)) code.old code.new) }
{
    match binding {
        Binding::Unbound => Ok(()),
        Binding::Declare(_) => code.push(Instruction::Hold { key: false }),
        Binding::Assign(name) => put_set(code, scope.slot(name.as_slice())),
        Binding::DeclarePair(_) => code.push(Instruction::Hold { key: true }),
    }
}

fn put_set(code: &mut Code, slot: Option<usize>) -> Result<(), AllocError>
    ensures { OnOk result (Placed (spec.SetAt slot) code.old code.new) }
{
    match slot {
        Some(slot) => code.push(Instruction::Set(to_u32(slot)?)),
        None => Ok(()),
    }
}

/// Puts an action of this line: one instruction, where that shows what lies somewhere.
pub(crate) fn put_action(
    code: &mut Code,
    scope: &Scope<'_>,
    line: u64,
    header: &Header,
) -> Result<(), AllocError>
    ensures { OnOk result (Placed (spec.ActionAt
        (spec.show_in line (spec.sole_of (binding_of header.now.binding) (pipeline_of header.now.pipeline)) (layout_of scope.now))
        line (header_of header.now) (layout_of scope.now)) code.old code.new) }
{
    match sole_operand(header) {
        Some(Operand::Dot) => code.push(Instruction::ShowDot {
            line: to_u32(line as usize)?,
        }),
        Some(Operand::Fields(names)) => {
            code.push_show_fields(names.as_slice(), to_u32(line as usize)?)
        }
        Some(Operand::Variable { name, fields }) => match scope.slot(name.as_slice()) {
            Some(slot) => match fields.as_slice() {
                [] => code.push(Instruction::ShowSlot {
                    slot: to_u32(slot)?,
                    line: to_u32(line as usize)?,
                }),
                [field] => {
                    code.push_show_slot_field(to_u32(slot)?, field, to_u32(line as usize)?)
                }
                [_, _, ..] => put_parts(code, scope, line, header),
            },
            None => put_parts(code, scope, line, header),
        },
        _ => put_parts(code, scope, line, header),
    }
}

/// The operand of an action that binds no variable and has no other operand.
#[tactic(auto, using(crate::proofs::ActionLemmas::soles))]
fn sole_operand(header: &Header) -> Option<&Operand>
    ensures { option_map (λ o. operand_of o.now) result
        ≡ spec.sole_of (binding_of header.now.binding) (pipeline_of header.now.pipeline) }
{
    match &header.binding {
        Binding::Unbound => match header.pipeline.commands.as_slice() {
            [command] => match command.operands.as_slice() {
                [operand] => Some(operand),
                [] => None,
                [_, _, ..] => None,
            },
            [] => None,
            [_, _, ..] => None,
        },
        Binding::Declare(_) | Binding::Assign(_) | Binding::DeclarePair(_) => None,
    }
}

/// Puts an action of this line as its step, its header and its end.
#[tactic(auto, using(crate::proofs::TailLemmas::ends, crate::proofs::TailLemmas::placed_on))]
fn put_parts(
    code: &mut Code,
    scope: &Scope<'_>,
    line: u64,
    header: &Header,
) -> Result<(), AllocError>
    ensures { OnOk result (Placed (spec.ActionAt None line (header_of header.now) (layout_of scope.now)) code.old code.new) }
{
    put_shown(code, &header.binding)?;
    put_header(code, scope, header)?;
    code.push(Instruction::Spend(line))
}

/// Puts the end of an action, whose value was bound.
fn put_shown(code: &mut Code, binding: &Binding) -> Result<(), AllocError>
    ensures { OnOk result (Placed (spec.ShownAt (binding_of binding.now)) code.old code.new) }
{
    match binding {
        Binding::Unbound => code.push(Instruction::Show),
        Binding::Assign(_) => code.push(Instruction::Forget { count: 1, skip: 0 }),
        _ => Ok(()),
    }
}

/// Puts what binds the variables of a range to the element that it visits.
pub(crate) fn put_turn(
    code: &mut Code,
    scope: &Scope<'_>,
    binding: &Binding,
) -> Result<(), AllocError>
    ensures code { OnOk result (spec.TurnAt (binding_of binding.now) (layout_of scope.now)
        (code_of code.new) (code_of code.old)) }
    ensures ends { OnOk result (Ends (code_of code.old) (code_of code.new)) }
{
    if let Binding::Assign(name) = binding {
        put_set_dot(code, scope.slot(name.as_slice()))?;
    }
    code.push(Instruction::Turn(to_u32(declared_count(binding))?))
}

fn put_set_dot(code: &mut Code, slot: Option<usize>) -> Result<(), AllocError>
    ensures { OnOk result (Placed (spec.SetDotAt slot) code.old code.new) }
{
    match slot {
        Some(slot) => code.push(Instruction::SetDot(to_u32(slot)?)),
        None => Ok(()),
    }
}

/// Whether variables are declared.
pub(crate) fn declares(binding: &Binding) -> bool
    ensures { result ≡ declares (binding_of binding.now) }
{
    match binding {
        Binding::Declare(_) | Binding::DeclarePair(_) => true,
        _ => false,
    }
}

/// Whether one is declared for an index or key.
pub(crate) fn declares_key(binding: &Binding) -> bool
    ensures { result ≡ declares_key (binding_of binding.now) }
{
    match binding {
        Binding::DeclarePair(_) => true,
        _ => false,
    }
}

/// How many are declared.
pub(crate) fn declared_count(binding: &Binding) -> usize
    ensures { result ≡ declared_count (binding_of binding.now) }
{
    match binding {
        Binding::Declare(_) => 1,
        Binding::DeclarePair(_) => 2,
        _ => 0,
    }
}

/// The variables that are declared come into scope.
pub(crate) fn open<'s>(scope: &mut Scope<'s>, binding: &'s Binding) -> Result<(), AllocError>
    ensures { OnOk result (layout_of scope.new ≡ bound_on (binding_of binding.now) (layout_of scope.old)) }
{
    match binding {
        Binding::Declare(name) => scope.declare(name.as_slice()),
        Binding::DeclarePair(pair) => {
            scope.declare(pair.key.as_slice())?;
            scope.declare(pair.element.as_slice())
        }
        _ => Ok(()),
    }
}

/// They go out of scope.
pub(crate) fn close(scope: &mut Scope<'_>, binding: &Binding)
    ensures { layout_of scope.new ≡ bound_off (binding_of binding.now) (layout_of scope.old) }
{
    match binding {
        Binding::Declare(_) => scope.forget(),
        Binding::DeclarePair(_) => {
            scope.forget();
            scope.forget();
        }
        _ => {}
    }
}
