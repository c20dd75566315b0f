//! The check of nodes.
#![tactic(auto, using(tmpl_shape::proofs::ViewLemmas::parts))]

ghost use Rattle.std.specs.Prelude.{◌≡◌, IfOk, None, Some, option_map};
ghost use Rattle.std.specs.Option.{option_map_or};
ghost use Rattle.tmpl_grammar.specs.View.{header_of, pipeline_of};
ghost use Rattle.tmpl_shape.specs.Shape.{nothings};
ghost use Rattle.tmpl_shape.specs.View.{shape_of};
ghost use Rattle.tmpl_shape.specs.computed.View.{base_of, visit_seen};
ghost use Rattle.tmpl_schema.specs.computed.Check.{after_node, after_nodes, at_head, bind_value, in_body, in_part, in_turn};
ghost use Rattle.tmpl_schema.specs.computed.Check.{pipeline_shape, settle_known, settle_soon};
ghost use Rattle.tmpl_schema.specs.computed.View.{after_choice_by, after_of, after_range_by, known_of, known_seen, origin_of, state_of, table_of, turn_by};
ghost use Rattle.tmpl_syntax.specs.Tree.{action, template_node};
ghost use Rattle.tmpl_syntax.specs.View.{control_of, node_of, nodes_in};

use crate::after::{After, end_parts, join_left, leave_with, with_left};
use crate::failure::{Failure, at_node};
use crate::flow::{dot_after, fall_through, past_parts};
use crate::known::{Bound, Known, all_within, bind, copy_known, holds_loop, join_all, oldest};
use crate::pipeline::Context;
use crate::state::{State, copy_state, narrow, pipeline_origin};
use crate::table::{Call, Callee, Entry, find_callee};
use std::alloc::{AllocError, Global};
use std::rc::Rc;
use tmpl_grammar::{Control, Header, Pipeline};
use tmpl_meaning::MissingKey;
use tmpl_shape::{
    Base, Cause, Shape, Trouble, Visit, copy_counted, copy_name, fill, visit_of, within,
};
use tmpl_syntax::{ControlNode, Node, NodeKind};
use tmpl_values::Bytes;

/// How much work a node is at the least.
const NODE: u64 = 4;

/// What nodes are checked by: the definitions of names, the mode for missing keys, and the templates that are called.
#[derive(Clone, Copy)]
pub(crate) struct Checker<'s> {
    pub(crate) base: Base<'s>,
    pub(crate) mode: MissingKey,
    pub(crate) table: &'s [Entry],
}

impl Checker<'_> {
    /// Whether no work is left.
    pub(crate) fn is_spent(&self) -> bool {
        self.base.effort.is_spent()
    }

    /// The shape of the value of a pipeline, where this is known, if it never is a fault.
    pub(crate) fn pipeline_shape(
        &self,
        state: &State,
        pipeline: &Pipeline,
    ) -> Result<Shape, Trouble>
        ensures { IfOk result (λ s. pipeline_shape (base_of self.now.base) self.now.mode (state_of state.now)
            (pipeline_of pipeline.now) ≡ Some (shape_of s)) }
    {
        let context = Context {
            base: &self.base,
            mode: self.mode,
            state,
        };
        context.pipeline_shape(pipeline.commands.as_slice())
    }
}

/// The variables, where a header binds them to its value, which has this shape.
fn bind_value(
    base: &Base<'_>,
    header: &Header,
    state: &State,
    shape: &Shape,
    known: &Known,
) -> Result<Known, AllocError>
    ensures { IfOk result (λ ks. known_of ks
        ≡ bind_value (header_of header.now) (state_of state.now) (shape_of shape.now) (known_of known.now)) }
{
    let origin = pipeline_origin(base.alloc, header.pipeline.commands.as_slice(), state)?;
    let bound = Bound {
        key: &Shape::Nothings,
        over: &None,
        element: shape,
        origin: &origin,
    };
    bind(base, &header.binding, &bound, known)
}

/// Where a part of an `if` or a `with` begins, whose value is not empty there, or else is, and has this shape.
pub(crate) fn in_part(
    base: &Base<'_>,
    full: bool,
    header: &Header,
    state: &State,
    shape: &Shape,
) -> Result<State, AllocError>
    ensures { IfOk result (λ k. state_of k
        ≡ in_part (base_of base.now) full (header_of header.now) (state_of state.now) (shape_of shape.now)) }
{
    let before = narrow(base, full, header.pipeline.commands.as_slice(), state)?;
    let known = bind_value(base, header, state, shape, &before.known)?;
    let State { dot, origin, .. } = before;
    Ok(State { dot, origin, known })
}

/// Where the body begins.
pub(crate) fn in_body(
    base: &Base<'_>,
    control: Control,
    header: &Header,
    state: &State,
    shape: &Shape,
) -> Result<State, AllocError>
    ensures { IfOk result (λ k. state_of k
        ≡ in_body (base_of base.now) control (header_of header.now) (state_of state.now) (shape_of shape.now)) }
{
    let full = fill(base, shape)?;
    let State { dot, origin, known } = in_part(base, true, header, state, &full)?;
    match control {
        Control::With => Ok(State {
            dot: Rc::new(base.alloc, full)?,
            origin: pipeline_origin(base.alloc, header.pipeline.commands.as_slice(), state)?,
            known,
        }),
        Control::If | Control::Range => Ok(State { dot, origin, known }),
    }
}

/// What is known where the first turn of a range begins: what it ranges over is not empty.
pub(crate) fn at_head(base: &Base<'_>, header: &Header, state: &State) -> Result<Known, AllocError>
    ensures { IfOk result (λ ks. known_of ks ≡ at_head (base_of base.now) (header_of header.now) (state_of state.now)) }
{
    let State { known, .. } = narrow(base, true, header.pipeline.commands.as_slice(), state)?;
    Ok(known)
}

/// The turns of a range: its header, what it visits and where that is from, and its body.
#[derive(Clone, Copy)]
pub(crate) struct Turns<'t> {
    pub(crate) header: &'t Header,
    pub(crate) visit: &'t Visit,
    pub(crate) over: &'t Option<Vec<Bytes>>,
    pub(crate) body: &'t [Node],
}

/// Where a turn of a range begins.
pub(crate) fn in_turn(
    base: &Base<'_>,
    turns: &Turns<'_>,
    known: &Known,
) -> Result<State, AllocError>
    ensures { IfOk result (λ k. state_of k
        ≡ in_turn (header_of turns.now.header.now) (visit_seen turns.now.visit.now) (origin_of turns.now.over.now) (known_of known.now)) }
{
    let dot = Rc::new(base.alloc, copy_counted(base, &turns.visit.element)?)?;
    let bound = Bound {
        key: &turns.visit.key,
        over: turns.over,
        element: &turns.visit.element,
        origin: &None,
    };
    let known = bind(base, &turns.header.binding, &bound, known)?;
    Ok(State {
        dot,
        origin: None,
        known,
    })
}

/// After an action.
fn after_action(checker: &Checker<'_>, state: &State, header: &Header) -> Result<After, Failure>
    ensures { IfOk result (λ a. after_node (base_of checker.now.base) checker.now.mode
        (table_of checker.now.table.now) None (state_of state.now) (action (header_of header.now)) ≡ Some (after_of a)) }
{
    let shape = checker.pipeline_shape(state, &header.pipeline)?;
    let known = bind_value(&checker.base, header, state, &shape, &state.known)?;
    Ok(After::past(known))
}

/// The shape of what is handed to a template.
fn handed_shape(
    checker: &Checker<'_>,
    state: &State,
    given: &Option<Pipeline>,
) -> Result<Shape, Failure>
    ensures { IfOk result (λ s. option_map_or (pipeline_shape (base_of checker.now.base) checker.now.mode
        (state_of state.now)) (option_map pipeline_of given.now) (Some nothings) ≡ Some (shape_of s)) }
{
    match given {
        Some(pipeline) => Ok(checker.pipeline_shape(state, pipeline)?),
        None => Ok(Shape::Nothings),
    }
}

/// A call of a template with values of this shape.
fn call_with(alloc: Global, name: &Bytes, shape: Shape) -> Result<Box<Call>, AllocError> {
    let name = copy_name(alloc, name.as_slice())?;
    Ok(Box::new(alloc, Call { name, shape })?)
}

/// After a call of a template.
fn after_call(
    checker: &Checker<'_>,
    state: &State,
    name: &Bytes,
    given: &Option<Pipeline>,
) -> Result<After, Failure>
    ensures { IfOk result (λ a. after_node (base_of checker.now.base) checker.now.mode
        (table_of checker.now.table.now) None (state_of state.now) (template_node name.now
        (option_map pipeline_of given.now)) ≡ Some (after_of a)) }
{
    checker.base.effort.spend(checker.table.len() as u64 / 8);
    match find_callee(checker.table, name.as_slice()) {
        Some(Callee::Absent) => Ok(After::past(copy_known(&state.known)?)),
        Some(Callee::Handed(shape)) => {
            let given = handed_shape(checker, state, given)?;
            if !within(&checker.base, &given, shape) {
                return Err(Failure::Wanted(call_with(checker.base.alloc, name, given)?));
            }
            Ok(After::past(copy_known(&state.known)?))
        }
        None => {
            let given = handed_shape(checker, state, given)?;
            Err(Failure::Wanted(call_with(checker.base.alloc, name, given)?))
        }
    }
}

/// The parts of a control.
#[derive(Clone, Copy)]
struct Parts<'t> {
    header: &'t Header,
    body: &'t [Node],
    other: &'t [Node],
}

/// After an `if` or a `with` whose value has the shape.
#[cycle(node)]
#[tactic(auto, using(crate::proofs::ControlLemmas::choices))]
fn after_choice(
    checker: &Checker<'_>,
    head: Option<&Known>,
    state: &State,
    control: Control,
    parts: &Parts<'_>,
    shape: &Shape,
) -> Result<After, Failure>
    ensures { IfOk result (λ a. after_choice_by (base_of checker.now.base) checker.now.mode
        (table_of checker.now.table.now) (known_seen head.entry) control (header_of parts.now.header.now)
        (state_of state.now) (nodes_in parts.now.body.now) (nodes_in parts.now.other.now) (shape_of shape.now)
        ≡ Some (after_of a)) }
{
    let inside = in_body(&checker.base, control, parts.header, state, shape)?;
    let one = after_nodes(checker, head, inside, parts.body)?;
    let outside = in_part(&checker.base, false, parts.header, state, shape)?;
    let other = after_nodes(checker, head, outside, parts.other)?;
    let through = fall_through(checker, parts.body, parts.other);
    Ok(end_parts(&checker.base, through, &state.known, one, other)?)
}

/// The variables after a turn of a range, however it ends.
#[cycle(node)]
fn turn(checker: &Checker<'_>, known: &Known, turns: &Turns<'_>) -> Result<Known, Failure>
    ensures { IfOk result (λ ks. turn_by (base_of checker.now.base) checker.now.mode
        (table_of checker.now.table.now) (header_of turns.now.header.now) (visit_seen turns.now.visit.now)
        (origin_of turns.now.over.now) (nodes_in turns.now.body.now) (known_of known.now) ≡ Some (known_of ks)) }
{
    let inside = in_turn(&checker.base, turns, known)?;
    let after = after_nodes(checker, Some(known), inside, turns.body)?;
    Ok(with_left(&checker.base, oldest(&after.known, known), &after.left)?)
}

/// The variables at the head of a range, looked for in as many rounds as these.
#[cycle(node)]
#[tactic(auto, using(crate::proofs::StepLemmas::rounds))]
fn settle(
    checker: &Checker<'_>,
    rounds: usize,
    known: Known,
    turns: &Turns<'_>,
) -> Result<Known, Failure>
    ensures { IfOk result (λ ks. settle_known (base_of checker.now.base) rounds (turn_by
        (base_of checker.now.base) checker.now.mode (table_of checker.now.table.now) (header_of turns.now.header.now)
        (visit_seen turns.now.visit.now) (origin_of turns.now.over.now) (nodes_in turns.now.body.now)) (known_of known)
        ≡ Some (known_of ks)) }
{
    if rounds == 0 {
        return Err(Failure::may_fail(checker.base.alloc, Cause::Variables, None));
    }
    let end = turn(checker, &known, turns)?;
    if all_within(&checker.base, &end, &known) {
        return Ok(known);
    }
    let more = join_all(&checker.base, &known, &end)?;
    settle(checker, rounds - 1, more, turns)
}

/// The variables at the head of a range, from those before it.
#[cycle(node)]
pub(crate) fn settle_soon(
    checker: &Checker<'_>,
    known: &Known,
    turns: &Turns<'_>,
) -> Result<Known, Failure>
    ensures { IfOk result (λ ks. settle_soon (base_of checker.now.base) (turn_by
        (base_of checker.now.base) checker.now.mode (table_of checker.now.table.now) (header_of turns.now.header.now)
        (visit_seen turns.now.visit.now) (origin_of turns.now.over.now) (nodes_in turns.now.body.now)) (known_of known.now)
        ≡ Some (known_of ks)) }
{
    let start = copy_known(known)?;
    settle(checker, 12, start, turns)
}

/// After a range over values of this shape.
#[cycle(node)]
fn after_range(
    checker: &Checker<'_>,
    head: Option<&Known>,
    state: &State,
    parts: &Parts<'_>,
    shape: &Shape,
) -> Result<After, Failure>
    ensures { IfOk result (λ a. after_range_by (base_of checker.now.base) checker.now.mode
        (table_of checker.now.table.now) (known_seen head.entry) (header_of parts.now.header.now)
        (state_of state.now) (nodes_in parts.now.body.now) (nodes_in parts.now.other.now) (shape_of shape.now)
        ≡ Some (after_of a)) }
{
    let base = &checker.base;
    let visit = visit_of(base, &parts.header.binding, shape)?;
    let start = at_head(base, parts.header, state)?;
    let over = pipeline_origin(base.alloc, parts.header.pipeline.commands.as_slice(), state)?;
    let turns = Turns {
        header: parts.header,
        visit: &visit,
        over: &over,
        body: parts.body,
    };
    let settled_head = settle_soon(checker, &start, &turns)?;
    let outside = copy_state(base.alloc, state)?;
    let other = after_nodes(checker, head, outside, parts.other)?;
    let through = past_parts(checker, Control::Range, parts.body, parts.other);
    let settled = After::past(settled_head);
    Ok(end_parts(base, through, &state.known, settled, other)?)
}

/// After a control.
#[cycle(node)]
fn after_control(
    checker: &Checker<'_>,
    head: Option<&Known>,
    state: &State,
    control: &ControlNode,
) -> Result<After, Failure>
    ensures { IfOk result (λ a. after_node (base_of checker.now.base) checker.now.mode
        (table_of checker.now.table.now) (known_seen head.entry) (state_of state.now) (control_of control.now)
        ≡ Some (after_of a)) }
{
    if !holds_loop(head, &state.known) {
        return Err(Failure::may_fail(checker.base.alloc, Cause::Variables, None));
    }
    let shape = checker.pipeline_shape(state, &control.header.pipeline)?;
    let parts = Parts {
        header: &control.header,
        body: control.body.as_slice(),
        other: control.other.as_slice(),
    };
    match control.control {
        Control::If => after_choice(checker, head, state, Control::If, &parts, &shape),
        Control::With => after_choice(checker, head, state, Control::With, &parts, &shape),
        Control::Range => after_range(checker, head, state, &parts, &shape),
    }
}

/// After a node.
#[cycle(node)]
pub(crate) fn after_node(
    checker: &Checker<'_>,
    head: Option<&Known>,
    state: &State,
    node: &Node,
) -> Result<After, Failure>
    ensures { IfOk result (λ a. after_node (base_of checker.now.base) checker.now.mode
        (table_of checker.now.table.now) (known_seen head.entry) (state_of state.now) (node_of node.now).what
        ≡ Some (after_of a)) }
{
    checker.base.effort.spend(NODE);
    if checker.base.effort.is_spent() {
        return Err(Failure::may_fail(checker.base.alloc, Cause::TooComplex, None));
    }
    match &node.what {
        NodeKind::Text(_) => Ok(After::past(copy_known(&state.known)?)),
        NodeKind::Action(header) => after_action(checker, state, header),
        NodeKind::Control(control) => after_control(checker, head, state, control),
        NodeKind::Break | NodeKind::Continue => Ok(leave_with(&checker.base, &state.known, head)?),
        NodeKind::Template(name, given) => after_call(checker, state, name, given),
    }
}

/// After nodes.
#[cycle(node)]
#[tactic(auto, using(tmpl_syntax::proofs::WeightLemmas::lighter))]
pub(crate) fn after_nodes(
    checker: &Checker<'_>,
    head: Option<&Known>,
    state: State,
    nodes: &[Node],
) -> Result<After, Failure>
    ensures { IfOk result (λ a. after_nodes (base_of checker.now.base) checker.now.mode
        (table_of checker.now.table.now) (known_seen head.entry) None (state_of state) (nodes_in nodes.now)
        ≡ Some (after_of a)) }
{
    let State { dot, origin, known } = state;
    let mut state = State { dot, origin, known };
    let mut left: Option<Known> = None;
    for node in nodes {
        match after_node(checker, head, &state, node) {
            Ok(after) => {
                let After { known, left: more } = after;
                state.dot = dot_after(checker, &state, node)?;
                state.known = known;
                left = join_left(&checker.base, left, more)?;
            }
            Err(trouble) => return Err(at_node(trouble, node)),
        }
    }
    Ok(After {
        known: state.known,
        left,
    })
}
