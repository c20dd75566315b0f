//! Regular expressions as trees.
ghost use Rattle.std.specs.Prelude.{◌≡◌, IfOk};
ghost use Rattle.std.specs.List.{list_any};
ghost use Rattle.tmpl_formats.specs.Pattern.{is_in, in_class};
ghost use Rattle.tmpl_formats.specs.PatternView.{marks_of};

use std::alloc::{AllocError, Global};

/// The code points from the first to the last.
#[derive(Clone, Copy)]
pub struct Span {
    pub first: u32,
    pub last: u32,
}

/// A set of code points: those in the spans, or all others.
#[derive(Drop)]
pub struct Class {
    pub is_negated: bool,
    pub spans: Vec<Span>,
}

/// A regular expression, with the marks that a search leaves in it.
#[derive(Drop)]
pub enum Node {
    Empty,
    /// A character of the class; marked where it is the last that was read.
    One(Class, bool),
    /// The beginning of the text.
    Begin,
    /// The end of the text.
    End,
    Both(Box<Node>, Box<Node>),
    Either(Box<Node>, Box<Node>),
    /// Any number of turns; marked where one may have ended with the last character that was read.
    Many(Box<Node>, bool),
}

/// A regular expression.
#[derive(Drop)]
pub struct Pattern {
    pub root: Node,
}

/// Whether the code point is in one of the spans.
fn is_within(spans: &[Span], code: u32) -> bool
    ensures { result ≡ list_any (λ s. is_in s code) spans.now }
{
    spans.iter().any(|s| s.first <= code && code <= s.last)
}

/// Whether the code point is in the class.
pub(crate) fn holds(class: &Class, code: u32) -> bool
    ensures { result ≡ in_class class.now.is_negated class.now.spans.items code }
{
    is_within(class.spans.as_slice(), code) != class.is_negated
}

/// A copy of a class.
fn copy_class(alloc: Global, class: &Class) -> Result<Class, AllocError>
    ensures is_negated { IfOk result (λ copy. copy.is_negated ≡ class.now.is_negated) }
    ensures spans { IfOk result (λ copy. copy.spans.items ≡ class.now.spans.items) }
{
    let spans = class.spans.clone()?;
    Ok(Class {
        is_negated: class.is_negated,
        spans,
    })
}

/// A copy of a pattern, with its marks.
pub(crate) fn copy(alloc: Global, node: &Node) -> Result<Node, AllocError>
    ensures { IfOk result (λ copy. marks_of copy ≡ marks_of node.now) }
{
    Ok(match node {
        Node::Empty => Node::Empty,
        Node::One(class, is_last) => Node::One(copy_class(alloc, class)?, *is_last),
        Node::Begin => Node::Begin,
        Node::End => Node::End,
        Node::Both(first, second) => Node::Both(
            Box::new(alloc, copy(alloc, first)?)?,
            Box::new(alloc, copy(alloc, second)?)?,
        ),
        Node::Either(one, other) => Node::Either(
            Box::new(alloc, copy(alloc, one)?)?,
            Box::new(alloc, copy(alloc, other)?)?,
        ),
        Node::Many(turn, ended) => Node::Many(Box::new(alloc, copy(alloc, turn)?)?, *ended),
    })
}
