//! What is known of dot and the variables, and what a pipeline that is empty or not tells of them.
#![tactic(auto, using(tmpl_grammar::proofs::ViewLemmas::group_seen))]

ghost use Rattle.std.specs.Prelude.{◌≡◌, IfOk};
ghost use Rattle.std.specs.Option.{option_and_then, option_map};
ghost use Rattle.tmpl_grammar.specs.View.{commands_in, operand_of, operands_in};
ghost use Rattle.tmpl_shape.specs.View.{shape_of};
ghost use Rattle.tmpl_shape.specs.computed.View.{base_of, test_seen};
ghost use Rattle.tmpl_schema.specs.computed.Check.{at_start, narrow, narrow_all, narrow_as, narrow_by, narrow_command, narrow_from, narrow_operand, narrow_root, narrow_to};
ghost use Rattle.tmpl_schema.specs.computed.Check.{operand_origin, pipeline_origin, place_origin, root_origin};
ghost use Rattle.tmpl_schema.specs.computed.View.{fact_seen, narrow_call, narrow_piped, origin_of, place_seen, state_of};

use crate::facts::{
    Fact, Head, Place, call_fact, command_call, counts_in, head_of, index_place, piped_fact,
    pipeline_place, place_of,
};
use crate::known::{
    Known, copy_known, find_variable, put_variable, refine_all, refine_from, refine_variable,
};
use crate::origin::{Tie, copy_origin, place_path};
use std::alloc::{AllocError, Global};
use std::rc::Rc;
use tmpl_funcs::Func;
use tmpl_grammar::{Command, Operand};
use tmpl_shape::{Base, Shape, Test, copy_counted, refine};
use tmpl_values::Bytes;

/// What is known of dot and of the variables.
#[derive(Drop)]
pub(crate) struct State {
    pub(crate) dot: Rc<Shape>,
    pub(crate) origin: Option<Vec<Bytes>>,
    pub(crate) known: Known,
}

/// A copy of what is known.
pub(crate) fn copy_state(alloc: Global, state: &State) -> Result<State, AllocError>
    ensures { IfOk result (λ k. state_of k ≡ state_of state.now) }
{
    let dot = Rc::clone(&state.dot)?;
    let origin = copy_origin(alloc, &state.origin)?;
    Ok(State {
        dot,
        origin,
        known: copy_known(&state.known)?,
    })
}

/// Where a template starts.
pub(crate) fn at_start(base: &Base<'_>, shape: &Shape) -> Result<State, AllocError>
    ensures { IfOk result (λ k. state_of k ≡ at_start (shape_of shape.now)) }
{
    let alloc = base.alloc;
    let dot = Rc::new(alloc, copy_counted(base, shape)?)?;
    let origin: Vec<Bytes> = Vec::new(alloc);
    let of_variable: Vec<Bytes> = Vec::new(alloc);
    let shape = Rc::clone(&dot)?;
    let known = put_variable(alloc, &[], shape, Tie::Valued(of_variable), Known::Empty)?;
    Ok(State {
        dot,
        origin: Some(origin),
        known,
    })
}

/// The provenance of the root of a place.
fn root_origin<'s>(state: &'s State, root: Option<&[u8]>) -> Option<&'s [Bytes]>
    ensures { option_map (λ p. p.now) result
        ≡ root_origin (state_of state.now) (option_map (λ name. name.now) root.entry) }
{
    match root {
        Some(name) => find_variable(name, &state.known)?.tie.path(),
        None => match &state.origin {
            Some(path) => Some(path.as_slice()),
            None => None,
        },
    }
}

/// Where the value of a place is from, if there is one.
fn place_origin(
    alloc: Global,
    place: Option<Place<'_>>,
    state: &State,
) -> Result<Option<Vec<Bytes>>, AllocError>
    ensures { IfOk result (λ o. origin_of o
        ≡ option_and_then (place_origin (state_of state.now)) (option_map place_seen place.entry)) }
{
    let Some(place) = place else {
        return Ok(None);
    };
    match root_origin(state, place.root) {
        Some(path) => Ok(Some(place_path(alloc, path, &place)?)),
        None => Ok(None),
    }
}

/// Where the value of a pipeline is from.
pub(crate) fn pipeline_origin(
    alloc: Global,
    commands: &[Command],
    state: &State,
) -> Result<Option<Vec<Bytes>>, AllocError>
    ensures { IfOk result (λ o. origin_of o ≡ pipeline_origin (state_of state.now) (commands_in commands.now)) }
{
    place_origin(alloc, pipeline_place(commands), state)
}

/// Where the value of an operand is from.
pub(crate) fn operand_origin(
    alloc: Global,
    operand: &Operand,
    state: &State,
) -> Result<Option<Vec<Bytes>>, AllocError>
    ensures { IfOk result (λ o. origin_of o ≡ operand_origin (state_of state.now) (operand_of operand.now)) }
{
    place_origin(alloc, place_of(operand), state)
}

/// Where a test shows what it does of the value of a place of no known provenance.
fn narrow_root(
    base: &Base<'_>,
    test: Test<'_>,
    place: &Place<'_>,
    state: &State,
) -> Result<State, AllocError>
    ensures { IfOk result (λ k. state_of k
        ≡ narrow_root (base_of base.now) (test_seen test.entry) (place_seen place.now) (state_of state.now)) }
{
    let origin = copy_origin(base.alloc, &state.origin)?;
    let path = place_path(base.alloc, &[], place)?;
    let names = path.as_slice();
    match place.root {
        None => {
            let dot = Rc::new(base.alloc, refine(base, test, names, &state.dot)?)?;
            let known = copy_known(&state.known)?;
            Ok(State { dot, origin, known })
        }
        Some(name) => {
            let dot = Rc::clone(&state.dot)?;
            let known = refine_variable(base, test, name, names, &state.known)?;
            Ok(State { dot, origin, known })
        }
    }
}

/// Where what has this provenance is so.
fn narrow_from(
    base: &Base<'_>,
    test: Test<'_>,
    names: &[Bytes],
    state: &State,
) -> Result<State, AllocError>
    ensures { IfOk result (λ k. state_of k
        ≡ narrow_from (base_of base.now) (test_seen test.entry) names.now (state_of state.now)) }
{
    let dot = refine_from(base, test, names, root_origin(state, None), &state.dot)?;
    let origin = copy_origin(base.alloc, &state.origin)?;
    let known = refine_all(base, test, names, &state.known)?;
    Ok(State { dot, origin, known })
}

/// Where the value of a place is so, and with it all that has its provenance.
fn narrow_to(
    base: &Base<'_>,
    test: Test<'_>,
    place: Option<Place<'_>>,
    state: &State,
) -> Result<State, AllocError>
    ensures { IfOk result (λ k. state_of k
        ≡ narrow_to (base_of base.now) (test_seen test.entry) (option_map place_seen place.entry) (state_of state.now)) }
{
    match place {
        None => copy_state(base.alloc, state),
        Some(found) => match place_origin(base.alloc, place, state)? {
            Some(names) => narrow_from(base, test, names.as_slice(), state),
            None => narrow_root(base, test, &found, state),
        },
    }
}

/// Where a test shows what it does of an operand.
pub(crate) fn narrow_by(
    base: &Base<'_>,
    test: Test<'_>,
    operand: &Operand,
    state: &State,
) -> Result<State, AllocError>
    ensures { IfOk result (λ k. state_of k
        ≡ narrow_by (base_of base.now) (test_seen test.entry) (operand_of operand.now) (state_of state.now)) }
{
    narrow_to(base, test, place_of(operand), state)
}

/// Where this holds, if anything does.
fn narrow_as(base: &Base<'_>, fact: Option<Fact<'_>>, state: &State) -> Result<State, AllocError>
    ensures { IfOk result (λ k. state_of k
        ≡ narrow_as (base_of base.now) (option_map fact_seen fact.entry) (state_of state.now)) }
{
    match fact {
        Some(fact) => narrow_by(base, fact.test, fact.about, state),
        None => copy_state(base.alloc, state),
    }
}

/// Where the value of two commands is not empty, or else where it is.
fn narrow_piped(
    base: &Base<'_>,
    full: bool,
    first: &[Operand],
    last: &[Operand],
    state: &State,
) -> Result<State, AllocError>
    ensures { IfOk result (λ k. state_of k
        ≡ narrow_piped (base_of base.now) full (operands_in first.now) (operands_in last.now) (state_of state.now)) }
{
    let counted = counts_in(command_call(first));
    narrow_as(base, piped_fact(full, counted, command_call(last)), state)
}

/// Where an operand is not empty, or else where it is.
#[cycle(narrow)]
pub(crate) fn narrow_operand(
    base: &Base<'_>,
    full: bool,
    operand: &Operand,
    state: &State,
) -> Result<State, AllocError>
    ensures { IfOk result (λ k. state_of k
        ≡ narrow_operand (base_of base.now) full (operand_of operand.now) (state_of state.now)) }
{
    match operand {
        Operand::Group { commands, fields } => match fields.as_slice() {
            [] => narrow(base, full, commands.as_slice(), state),
            [_, _more @ ..] => copy_state(base.alloc, state),
        },
        _ => {
            if full {
                return narrow_by(base, Test::There(1), operand, state);
            }
            copy_state(base.alloc, state)
        }
    }
}

/// Where each of the operands is so.
#[cycle(narrow)]
fn narrow_all(
    base: &Base<'_>,
    full: bool,
    operands: &[Operand],
    state: &State,
) -> Result<State, AllocError>
    ensures { IfOk result (λ k. state_of k
        ≡ narrow_all (base_of base.now) full (operands_in operands.now) (state_of state.now)) }
{
    match operands {
        [] => copy_state(base.alloc, state),
        [first, rest @ ..] => {
            let state = narrow_operand(base, full, first, state)?;
            narrow_all(base, full, rest, &state)
        }
    }
}

/// Where a call gives what is not empty, or else what is.
#[cycle(narrow)]
fn narrow_call(
    base: &Base<'_>,
    full: bool,
    func: Func,
    operands: &[Operand],
    state: &State,
) -> Result<State, AllocError>
    ensures { IfOk result (λ k. state_of k
        ≡ narrow_call (base_of base.now) full func (operands_in operands.now) (state_of state.now)) }
{
    match func {
        Func::And => {
            if full {
                return narrow_all(base, true, operands, state);
            }
            copy_state(base.alloc, state)
        }
        Func::Or => {
            if full {
                return copy_state(base.alloc, state);
            }
            narrow_all(base, false, operands, state)
        }
        Func::Not => match operands {
            [] => copy_state(base.alloc, state),
            [only, rest @ ..] => match rest {
                [] => narrow_operand(base, !full, only, state),
                [_, _more @ ..] => copy_state(base.alloc, state),
            },
        },
        Func::Index => {
            if full {
                return narrow_to(base, Test::There(1), index_place(operands), state);
            }
            copy_state(base.alloc, state)
        }
        _ => narrow_as(base, call_fact(full, func, operands), state),
    }
}

/// Where the value of a command is not empty, or else where it is.
#[cycle(narrow)]
fn narrow_command(
    base: &Base<'_>,
    full: bool,
    operands: &[Operand],
    state: &State,
) -> Result<State, AllocError>
    ensures { IfOk result (λ k. state_of k
        ≡ narrow_command (base_of base.now) full (operands_in operands.now) (state_of state.now)) }
{
    match operands {
        [] => copy_state(base.alloc, state),
        [first, rest @ ..] => match head_of(first) {
            Head::Function(func) => narrow_call(base, full, func, rest, state),
            Head::Nil | Head::Value => match rest {
                [] => narrow_operand(base, full, first, state),
                [_, _more @ ..] => copy_state(base.alloc, state),
            },
        },
    }
}

/// Where the value of a pipeline is not empty, or else where it is.
#[cycle(narrow)]
pub(crate) fn narrow(
    base: &Base<'_>,
    full: bool,
    commands: &[Command],
    state: &State,
) -> Result<State, AllocError>
    ensures { IfOk result (λ k. state_of k
        ≡ narrow (base_of base.now) full (commands_in commands.now) (state_of state.now)) }
{
    match commands {
        [] => copy_state(base.alloc, state),
        [first, rest @ ..] => match rest {
            [] => narrow_command(base, full, first.operands.as_slice(), state),
            [last, more @ ..] => match more {
                [] => {
                    let first = first.operands.as_slice();
                    narrow_piped(base, full, first, last.operands.as_slice(), state)
                }
                [_, _more @ ..] => copy_state(base.alloc, state),
            },
        },
    }
}
