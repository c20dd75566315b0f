//! Whether templates are copy loops that do not fail: those that copy a text byte by byte and write others for some bytes, as
//! templates that quote. They index and cut their text, so shapes say too little of them, and they are found by their form.
#![tactic(auto, using(tmpl_shape::proofs::ViewLemmas::parts, tmpl_syntax::proofs::ViewLemmas::controls))]

ghost use Rattle.std.specs.Prelude.{◌≡◌, OnOk, IfOk};
ghost use Rattle.tmpl_grammar.specs.View.{commands_in, header_of};
ghost use Rattle.tmpl_syntax.specs.View.{control_of, nodes_in, set_view};
ghost use Rattle.tmpl_loops.specs.computed.View.{parts_seen};
ghost use Rattle.tmpl_shape.specs.computed.View.{base_of};
ghost use Rattle.tmpl_schema.specs.computed.Loops.{AreLoop, IsFound, IsStop, byte_state};
ghost use Rattle.tmpl_schema.specs.computed.Judge.{ActsIn, ChoosesIn, EndsIn, HasValueIn};
ghost use Rattle.tmpl_schema.specs.computed.View.{state_of};

use crate::check::is_stop;
use crate::failure::{Failure, Position};
use crate::known::{Known, put_variable};
use crate::origin::Tie;
use crate::pipeline::Context;
use crate::state::State;
use std::alloc::AllocError;
use std::rc::Rc;
use tmpl_funcs::Func;
use tmpl_grammar::{Binding, Command, Header};
use tmpl_loops::{
    Parts, after_texts, are_all_seen, are_apart, differ, is_end, is_yes, parts_of, slices,
};
use tmpl_meaning::MissingKey;
use tmpl_shape::{Base, Cause, Shape, copy_name};
use tmpl_syntax::{Control, ControlNode, Node, NodeKind, Set};
use tmpl_values::Bytes;

/// What the turns of a loop are held to: its parts, what is known of its byte, and the stops.
#[derive(Clone, Copy)]
struct Judge<'j> {
    base: &'j Base<'j>,
    set: &'j Set,
    stops: &'j [Bytes],
    parts: &'j Parts<'j>,
    state: &'j State,
}

/// That this is no copy loop.
fn other(judge: &Judge<'_>) -> Failure {
    Failure::may_fail(judge.base.alloc, Cause::NotFollowed(Func::Index), None)
}

/// That a pipeline of the byte alone has a value, whatever number that is.
fn has_value(judge: &Judge<'_>, commands: &[Command]) -> Result<(), Failure>
    ensures { OnOk result (HasValueIn judge.now (commands_in commands.now)) }
{
    if !are_all_seen(judge.parts.byte, commands) {
        return Err(other(judge));
    }
    let context = Context {
        base: judge.base,
        mode: MissingKey::Zero,
        state: judge.state,
    };
    context.pipeline_shape(commands)?;
    Ok(())
}

/// That a template that is called is a stop.
fn stops(judge: &Judge<'_>, name: &Bytes, node: &Node) -> Result<(), Failure>
    ensures { OnOk result (IsStop (set_view judge.now.set.now) judge.now.stops.now name.now) }
{
    match judge.set.get(name.as_slice()) {
        Some(_) => Err(other(judge)),
        None => {
            if is_stop(judge.stops, name.as_slice()) {
                return Ok(());
            }
            let name = copy_name(judge.base.alloc, name.as_slice())?;
            let position = Some(Position::of(node));
            Err(Failure::may_fail(judge.base.alloc, Cause::NoTemplate(name), position))
        }
    }
}

/// That an action and the nodes after it end well, from where the bytes before are written or not, and begin anew or not.
#[cycle(well)]
fn acts(
    judge: &Judge<'_>,
    header: &Header,
    rest: &[Node],
    kept: bool,
    anew: bool,
) -> Result<(), Failure>
    ensures { OnOk result (ActsIn judge.now (header_of header.now) (nodes_in rest.now) kept anew) }
{
    let commands = header.pipeline.commands.as_slice();
    match &header.binding {
        Binding::Unbound => {
            let names = [judge.parts.text, judge.parts.from, judge.parts.index];
            if kept {
                has_value(judge, commands)?;
            } else if !slices(&names, commands) {
                return Err(other(judge));
            }
            ends_well(judge, rest, true, anew)
        }
        Binding::Assign(name) => {
            if !differ(judge.parts.new, name.as_slice()) && is_yes(commands) {
                return ends_well(judge, rest, kept, true);
            }
            Err(other(judge))
        }
        Binding::Declare(_) | Binding::DeclarePair(_) => Err(other(judge)),
    }
}

/// That an `if` ends well on both its ways.
#[cycle(well)]
fn chooses(
    judge: &Judge<'_>,
    control: &ControlNode,
    rest: &[Node],
    kept: bool,
    anew: bool,
) -> Result<(), Failure>
    ensures { OnOk result (ChoosesIn judge.now (control_of control.now) (nodes_in rest.now) kept anew) }
{
    match rest {
        [] => {}
        [_, _more @ ..] => return Err(other(judge)),
    }
    match (control.control, &control.header.binding) {
        (Control::If, Binding::Unbound) => {
            has_value(judge, control.header.pipeline.commands.as_slice())?;
            ends_well(judge, control.body.as_slice(), kept, anew)?;
            ends_well(judge, control.other.as_slice(), kept, anew)
        }
        _ => Err(other(judge)),
    }
}

/// That nodes end well: they keep the byte, or write others for it and begin anew, or stop, on each way.
#[cycle(well)]
fn ends_well(judge: &Judge<'_>, nodes: &[Node], kept: bool, anew: bool) -> Result<(), Failure>
    ensures { OnOk result (EndsIn judge.now (nodes_in nodes.now) kept anew) }
{
    match nodes {
        [] => {
            if kept == anew {
                return Ok(());
            }
            Err(other(judge))
        }
        [first, rest @ ..] => match &first.what {
            NodeKind::Text(_) => {
                if !kept {
                    return Err(other(judge));
                }
                ends_well(judge, rest, true, anew)
            }
            NodeKind::Action(header) => acts(judge, header, rest, kept, anew),
            NodeKind::Control(control) => chooses(judge, control, rest, kept, anew),
            NodeKind::Template(name, _) => stops(judge, name, first),
            NodeKind::Break | NodeKind::Continue => Err(other(judge)),
        },
    }
}

/// What is known of the variables that a pipeline of the byte may see.
fn byte_state(base: &Base<'_>, parts: &Parts<'_>) -> Result<State, AllocError>
    ensures { IfOk result (λ k. state_of k ≡ byte_state (parts_seen parts.now)) }
{
    let alloc = base.alloc;
    let text = Rc::new(alloc, Shape::Texts)?;
    let known = put_variable(alloc, parts.text, text, Tie::Untied, Known::Empty)?;
    let index = Rc::new(alloc, Shape::Numbers)?;
    let known = put_variable(alloc, parts.index, index, Tie::Untied, known)?;
    let byte = Rc::new(alloc, Shape::Numbers)?;
    let known = put_variable(alloc, parts.byte, byte, Tie::Untied, known)?;
    Ok(State {
        dot: Rc::new(alloc, Shape::Nothings)?,
        origin: None,
        known,
    })
}

/// That nodes of these parts are a copy loop.
fn check_parts(
    base: &Base<'_>,
    set: &Set,
    stops: &[Bytes],
    parts: &Parts<'_>,
) -> Result<(), Failure>
    ensures { OnOk result (AreLoop (base_of base.now) (set_view set.now) stops.now (parts_seen parts.now)) }
{
    let state = byte_state(base, parts)?;
    let judge = Judge {
        base,
        set,
        stops,
        parts,
        state: &state,
    };
    if !is_end(after_texts(parts.tail)) || !are_apart(parts) {
        return Err(other(&judge));
    }
    ends_well(&judge, parts.steps, false, false)
}

/// That the nodes of a template are a copy loop, each of whose bytes has a turn that does not fail but at a stop.
pub(crate) fn check_loop(
    base: &Base<'_>,
    set: &Set,
    stops: &[Bytes],
    nodes: &[Node],
) -> Result<(), Failure>
    ensures { OnOk result (IsFound (base_of base.now) (set_view set.now) stops.now (nodes_in nodes.now)) }
{
    match parts_of(nodes) {
        Some(parts) => check_parts(base, set, stops, &parts),
        None => Err(Failure::may_fail(base.alloc, Cause::NotFollowed(Func::Index), None)),
    }
}
