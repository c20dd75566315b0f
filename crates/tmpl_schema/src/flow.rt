//! Which parts of a control fall through.
#![tactic(auto)]

ghost use Rattle.std.specs.Prelude.{◌≡◌, IfOk};
ghost use Rattle.tmpl_grammar.specs.View.{commands_in};
ghost use Rattle.tmpl_shape.specs.View.{shape_of};
ghost use Rattle.tmpl_shape.specs.computed.View.{base_of};
ghost use Rattle.tmpl_schema.specs.computed.Check.{dot_after, dot_by, is_absent, diverges, any_diverges, fall_through, past_parts};
ghost use Rattle.tmpl_schema.specs.computed.View.{state_of, table_of};
ghost use Rattle.tmpl_syntax.specs.View.{node_of, nodes_in};

use crate::node::Checker;
use crate::state::{State, narrow};
use crate::table::{Callee, find_callee};
use std::alloc::AllocError;
use std::rc::Rc;
use tmpl_grammar::{Command, Control};
use tmpl_shape::{Base, Shape};
use tmpl_syntax::{Node, NodeKind};

/// Which of the two parts of a control fall through: a run may come past them.
#[derive(Clone, Copy)]
pub(crate) enum FallThrough {
    Both,
    Body,
    Other,
}

/// Whether a template is known not to be there, so that its call ends the run.
fn is_absent(checker: &Checker<'_>, name: &[u8]) -> bool
    ensures { result ≡ is_absent (table_of checker.now.table.now name.now) }
{
    checker.base.effort.spend(checker.table.len() as u64 / 8);
    match find_callee(checker.table, name) {
        Some(Callee::Absent) => true,
        Some(Callee::Handed(_)) => false,
        None => false,
    }
}

/// Whether a node diverges: a run never comes past it, since it leaves the range, or ends there.
fn diverges(checker: &Checker<'_>, node: &Node) -> bool
    ensures { result ≡ diverges (table_of checker.now.table.now) (node_of node.now).what }
{
    match &node.what {
        NodeKind::Break | NodeKind::Continue => true,
        NodeKind::Template(name, _) => is_absent(checker, name.as_slice()),
        NodeKind::Text(_) | NodeKind::Action(_) | NodeKind::Control(_) => false,
    }
}

/// Whether one of the nodes does.
fn any_diverges(checker: &Checker<'_>, nodes: &[Node]) -> bool
    ensures { result ≡ any_diverges (table_of checker.now.table.now) (nodes_in nodes.now) }
{
    for node in nodes {
        if diverges(checker, node) {
            return true;
        }
    }
    false
}

/// Which of these parts a run may come past.
pub(crate) fn fall_through(checker: &Checker<'_>, body: &[Node], other: &[Node]) -> FallThrough
    ensures { result ≡ fall_through (table_of checker.now.table.now) (nodes_in body.now) (nodes_in other.now) }
{
    if any_diverges(checker, body) {
        return FallThrough::Other;
    }
    if any_diverges(checker, other) {
        return FallThrough::Body;
    }
    FallThrough::Both
}

/// Which parts of a control a run may come past: a range goes on past a body that diverges.
pub(crate) fn past_parts(
    checker: &Checker<'_>,
    control: Control,
    body: &[Node],
    other: &[Node],
) -> FallThrough
    ensures { result ≡ past_parts control (table_of checker.now.table.now) (nodes_in body.now) (nodes_in other.now) }
{
    match control {
        Control::If | Control::With => fall_through(checker, body, other),
        Control::Range => {
            if any_diverges(checker, other) {
                return FallThrough::Body;
            }
            FallThrough::Both
        }
    }
}

/// What is known of dot after a control of which a run may come past these parts.
fn dot_by(
    base: &Base<'_>,
    through: FallThrough,
    commands: &[Command],
    state: &State,
) -> Result<Rc<Shape>, AllocError>
    ensures { IfOk result (λ dot. shape_of dot.value
        ≡ dot_by (base_of base.now) through (commands_in commands.now) (state_of state.now)) }
{
    match through {
        FallThrough::Both => Rc::clone(&state.dot),
        FallThrough::Body => {
            let State { dot, .. } = narrow(base, true, commands, state)?;
            Ok(dot)
        }
        FallThrough::Other => {
            let State { dot, .. } = narrow(base, false, commands, state)?;
            Ok(dot)
        }
    }
}

/// What is known of dot after a node.
pub(crate) fn dot_after(
    checker: &Checker<'_>,
    state: &State,
    node: &Node,
) -> Result<Rc<Shape>, AllocError>
    ensures { IfOk result (λ dot. shape_of dot.value
        ≡ dot_after (base_of checker.now.base) (table_of checker.now.table.now) (state_of state.now) (node_of node.now).what) }
{
    match &node.what {
        NodeKind::Control(control) => {
            let (body, other) = (control.body.as_slice(), control.other.as_slice());
            let commands = control.header.pipeline.commands.as_slice();
            match control.control {
                Control::Range => {
                    let through = past_parts(checker, Control::Range, body, other);
                    dot_by(&checker.base, through, commands, state)
                }
                Control::If | Control::With => {
                    let through = fall_through(checker, body, other);
                    dot_by(&checker.base, through, commands, state)
                }
            }
        }
        NodeKind::Text(_) | NodeKind::Action(_) | NodeKind::Break => Rc::clone(&state.dot),
        NodeKind::Continue | NodeKind::Template(_, _) => Rc::clone(&state.dot),
    }
}
