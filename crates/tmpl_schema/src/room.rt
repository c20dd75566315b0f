//! Whether the stack of the machine has room for the check of a template. A check goes down by what a template has inside
//! one another or one after the other: controls, variables, commands, operands and fields. What each of these takes at the
//! most is added up along the way down, and a template that needs more than there is for it is not looked at.
#![tactic(auto, using(tmpl_syntax::proofs::WeightLemmas::lighter, tmpl_grammar::proofs::WeightLemmas::lighter, crate::proofs::RoomLemmas::lighter))]

use crate::failure::Position;
use tmpl_grammar::{Binding, Command, Header, Operand};
use tmpl_syntax::{ControlNode, Node, NodeKind};

/// How many bytes of the stack there are for what a template has.
const ROOM: usize = 300_000;

/// How many a control takes, a variable in scope, a pipeline in parentheses, and a command, an operand or a field that
/// follows others: what the functions take that go down by it, compiled for x86-64.
const CONTROL: usize = 2_700;

const VARIABLE: usize = 800;

const GROUP: usize = 3_100;

const COMMAND: usize = 1_100;

const OPERAND: usize = 1_400;

const FIELD: usize = 850;

/// The most nodes of a template in which a loop is looked for.
const MOST_NODES: usize = 200;

/// Where the first action begins for which there is no room, in nodes for which there is all of it.
pub(crate) fn first_crowded(nodes: &[Node]) -> Option<Position> {
    crowded_in(nodes, ROOM)
}

/// Whether a template has so few nodes that a loop may be looked for in it, which goes down by each of them, and has room.
pub(crate) fn is_small(nodes: &[Node]) -> bool {
    left_in(nodes, MOST_NODES).is_some() && first_crowded(nodes).is_none()
}

/// How many nodes more there may be after these, if they are not too many.
#[cycle(few)]
fn left_in(nodes: &[Node], left: usize) -> Option<usize> {
    let mut left = left;
    for node in nodes {
        left = left_at(node, left)?;
    }
    Some(left)
}

/// .. after a node.
#[cycle(few)]
fn left_at(node: &Node, left: usize) -> Option<usize> {
    let left = left.checked_sub(1)?;
    match &node.what {
        NodeKind::Control(control) => left_inside(control, left),
        NodeKind::Text(_) | NodeKind::Action(_) | NodeKind::Break => Some(left),
        NodeKind::Continue | NodeKind::Template(_, _) => Some(left),
    }
}

/// .. after the parts of a control.
#[cycle(few)]
fn left_inside(control: &ControlNode, left: usize) -> Option<usize> {
    let left = left_in(control.body.as_slice(), left)?;
    left_in(control.other.as_slice(), left)
}

/// Where the first action begins for which there is no room, where this much is left.
#[cycle(room)]
fn crowded_in(nodes: &[Node], left: usize) -> Option<Position> {
    let mut left = left;
    for node in nodes {
        if let Some(position) = crowded_at(node, left) {
            return Some(position);
        }
        left = left.saturating_sub(kept_need(node));
    }
    None
}

/// .. in a node.
#[cycle(room)]
fn crowded_at(node: &Node, left: usize) -> Option<Position> {
    if node_need(node) > left {
        return Some(Position::of(node));
    }
    match &node.what {
        NodeKind::Control(control) => crowded_inside(control, left),
        NodeKind::Text(_) | NodeKind::Action(_) | NodeKind::Break => None,
        NodeKind::Continue | NodeKind::Template(_, _) => None,
    }
}

/// .. in the parts of a control.
#[cycle(room)]
fn crowded_inside(control: &ControlNode, left: usize) -> Option<Position> {
    let inside = left.saturating_sub(variables_need(&control.header.binding));
    let inside = inside.saturating_sub(CONTROL);
    match crowded_in(control.body.as_slice(), inside) {
        Some(position) => Some(position),
        None => crowded_in(control.other.as_slice(), inside),
    }
}

/// How much a node needs, apart from the nodes in it.
fn node_need(node: &Node) -> usize {
    match &node.what {
        NodeKind::Text(_) | NodeKind::Break | NodeKind::Continue => 0,
        NodeKind::Action(header) => header_need(header),
        NodeKind::Control(control) => header_need(&control.header).saturating_add(CONTROL),
        NodeKind::Template(_, Some(given)) => pipeline_need(given.commands.as_slice()),
        NodeKind::Template(_, None) => 0,
    }
}

/// How much is needed after a node for the variables that it leaves in scope.
fn kept_need(node: &Node) -> usize {
    match &node.what {
        NodeKind::Action(header) => variables_need(&header.binding),
        NodeKind::Text(_) | NodeKind::Control(_) | NodeKind::Break => 0,
        NodeKind::Continue | NodeKind::Template(_, _) => 0,
    }
}

/// How much a pipeline needs that is bound to variables.
fn header_need(header: &Header) -> usize {
    let need = pipeline_need(header.pipeline.commands.as_slice());
    need.saturating_add(variables_need(&header.binding))
}

/// How much the variables need that are declared.
fn variables_need(binding: &Binding) -> usize {
    match binding {
        Binding::Unbound | Binding::Assign(_) => 0,
        Binding::Declare(_) => VARIABLE,
        Binding::DeclarePair(_) => 2 * VARIABLE,
    }
}

/// How much a pipeline needs.
#[cycle(need)]
fn pipeline_need(commands: &[Command]) -> usize {
    let mut before: usize = 0;
    let mut most: usize = 0;
    for command in commands {
        let need = command_need(command.operands.as_slice());
        most = most.max(before.saturating_add(need));
        before = before.saturating_add(COMMAND);
    }
    most
}

/// How much a command needs.
#[cycle(need)]
fn command_need(operands: &[Operand]) -> usize {
    let mut before: usize = 0;
    let mut most: usize = 0;
    for operand in operands {
        let need = operand_need(operand);
        most = most.max(before.saturating_add(need));
        before = before.saturating_add(OPERAND);
    }
    most
}

/// How much an operand needs.
#[cycle(need)]
fn operand_need(operand: &Operand) -> usize {
    match operand {
        Operand::Fields(names) => names.len().saturating_mul(FIELD),
        Operand::Variable { fields, .. } => fields.len().saturating_mul(FIELD),
        Operand::Group { commands, fields } => {
            let inside = pipeline_need(commands.as_slice()).saturating_add(GROUP);
            inside.max(fields.len().saturating_mul(FIELD))
        }
        Operand::Dot | Operand::Bool(_) | Operand::Number(_) | Operand::Text(_) => 0,
        Operand::Nil | Operand::Function(_) => 0,
    }
}
