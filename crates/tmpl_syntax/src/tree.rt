//! The tree of a template.
use crate::text::Text;
use std::sync::Arc;
use tmpl_grammar::{Control, Header, Pipeline};
use tmpl_values::Bytes;

/// A node of a template ("Actions"). Its line counts from 1 in the file that the node stands in: an action's is that of
/// its `{{`, a text's that of its first byte.
#[cycle(node)]
#[derive(Drop)]
pub struct Node {
    pub line: u64,
    /// How many bytes of the file stand before that `{{`, or that byte.
    pub start: usize,
    pub what: NodeKind,
}

/// What a node is.
#[cycle(node)]
#[derive(Drop)]
pub enum NodeKind {
    /// Bytes that are put out as they are.
    Text(Text),
    /// An action that puts out the text of its value, or binds a variable to it.
    Action(Header),
    Control(Box<ControlNode>),
    /// Ends the innermost range whose body this stands in.
    Break,
    /// Goes to the next element of that range.
    Continue,
    /// A call: runs the template of this name with the value of the pipeline, or with nothing. A `block` is one too.
    Template(Bytes, Option<Pipeline>),
}

/// A control. A part that is left out is one of no nodes, and an `else if` is an `if` that is the whole else part,
/// as an `else with` is a `with`.
///
/// An `if`: the body where the value is not empty, else the other part. A `with`: the same, and the body has the value
/// as its dot. A `range`: the body once for each element, or the other part where there is none.
#[cycle(node)]
#[derive(Drop)]
pub struct ControlNode {
    pub control: Control,
    pub header: Header,
    pub body: Vec<Node>,
    pub other: Vec<Node>,
}

/// The body of a template, and the file that it stands in.
#[derive(Drop)]
pub struct Tree {
    /// The path of the file as it was given, which all templates of a file share.
    pub file: Arc<Bytes>,
    pub nodes: Vec<Node>,
}

/// A template that a file defines.
#[derive(Drop)]
pub(crate) struct Definition {
    /// That of its header, or 1 for the file's own template.
    pub(crate) line: u64,
    /// How many bytes of the file stand before its header, and none before the file's own.
    pub(crate) start: usize,
    pub(crate) name: Bytes,
    pub(crate) nodes: Vec<Node>,
}
