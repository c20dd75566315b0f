//! The search for a match, by marks in the tree: one pass over the tree for each character.
ghost use Rattle.std.specs.Prelude.{◌≡◌, ◌||◌, ◌&&◌, ◌↔◌, not, false, IfOk, IsTrue};
ghost use Rattle.std.specs.Str.{chars};
ghost use Rattle.tmpl_formats.specs.Pattern.{Finds};
ghost use Rattle.tmpl_formats.specs.PatternView.{marks_of, tree_of};
ghost use Rattle.tmpl_formats.specs.computed.PatternMarks.{passes, ends, shifted, begun};
ghost use Rattle.tmpl_formats.specs.computed.PatternMarks as computed;
ghost use Rattle.tmpl_formats.specs.computed.SearchView.{search_of};

use crate::pattern::{Node, Pattern, copy, holds};
use std::alloc::{AllocError, Global};

/// A character, and whether it is the first of the text.
#[derive(Clone, Copy)]
struct Step {
    code: u32,
    is_first: bool,
}

/// Whether a place in the tree is reached before a character, and after it.
#[derive(Clone, Copy)]
struct Flow {
    before: bool,
    after: bool,
}

/// A place that is not reached.
const NOWHERE: Flow = Flow {
    before: false,
    after: false,
};

/// Whether one of two places is reached.
fn either_of(a: Flow, b: Flow) -> Flow
    ensures before { result.before ≡ (a.before || b.before) }
    ensures after { result.after ≡ (a.after || b.after) }
{
    Flow {
        before: a.before || b.before,
        after: a.after || b.after,
    }
}

/// Whether a character may be read at this leaf; it is marked then.
fn shift_one(mark: &mut bool, step: Step, may: bool, enters: Flow) -> Flow
    ensures mark { mark.new ≡ (enters.before && may) }
    ensures before { result.before ≡ (mark.old && not step.is_first) }
    ensures after { result.after ≡ mark.new }
{
    let before = *mark && !step.is_first;
    *mark = enters.before && may;
    Flow {
        before,
        after: *mark,
    }
}

/// Reads a character: marks each leaf that it may be read at. What is reached at the beginning of the tree leads to what
/// is reached at its end.
fn shift(node: &mut Node, step: Step, enters: Flow) -> Flow
    ensures marks { marks_of node.new ≡ shifted step.is_first step.code (marks_of node.old) enters.before }
    ensures before { result.before ≡ passes step.is_first (marks_of node.old) enters.before }
    ensures after { result.after ≡ passes false (marks_of node.new) enters.after }
{
    match node {
        Node::Empty => enters,
        Node::One(class, mark) => shift_one(mark, step, holds(class, step.code), enters),
        Node::Begin => Flow {
            before: enters.before && step.is_first,
            after: false,
        },
        Node::End => NOWHERE,
        Node::Both(first, second) => {
            let between = shift(first, step, enters);
            shift(second, step, between)
        }
        Node::Either(one, other) => {
            let a = shift(one, step, enters);
            let b = shift(other, step, enters);
            either_of(a, b)
        }
        Node::Many(turn, ended) => {
            let before = enters.before || *ended && !step.is_first;
            let turns = shift(
                turn,
                step,
                Flow {
                    before,
                    after: false,
                },
            );
            *ended = turns.after;
            Flow {
                before,
                after: enters.after || turns.after,
            }
        }
    }
}

/// Whether the end of the tree is reached at the end of the text.
fn ends_match(node: &Node, is_first: bool, enters: bool) -> bool
    ensures { result ≡ ends is_first (marks_of node.now) enters }
{
    match node {
        Node::Empty | Node::End => enters,
        Node::One(_, mark) => *mark && !is_first,
        Node::Begin => enters && is_first,
        Node::Both(first, second) => {
            let between = ends_match(first, is_first, enters);
            ends_match(second, is_first, between)
        }
        Node::Either(one, other) => {
            let a = ends_match(one, is_first, enters);
            let b = ends_match(other, is_first, enters);
            a || b
        }
        Node::Many(turn, _) => enters || ends_match(turn, is_first, false),
    }
}

/// A search for a match in a text that is read character by character.
#[derive(Drop)]
pub(crate) struct Search {
    root: Node,
    /// No character was read.
    is_first: bool,
    /// A match has ended before the last character.
    found: bool,
}

impl Search {
    /// A search that has read nothing.
    pub(crate) fn new(root: Node) -> Search
        ensures { search_of result ≡ begun (marks_of root) }
    {
        Search {
            root,
            is_first: true,
            found: false,
        }
    }

    /// Reads a character.
    pub(crate) fn read(&mut self, code: u32)
        ensures { search_of self.new ≡ computed.read (search_of self.old) code }
    {
        if !self.found {
            let step = Step {
                code,
                is_first: self.is_first,
            };
            let enters = Flow {
                before: true,
                after: false,
            };
            self.found = shift(&mut self.root, step, enters).before;
        }
        self.is_first = false;
    }

    /// Whether there is a match, where the text ends.
    pub(crate) fn has_found(&self) -> bool
        ensures { result ≡ computed.has_found (search_of self.now) }
    {
        self.found || ends_match(&self.root, self.is_first, true)
    }
}

/// Whether some part of the text is a match.
pub(crate) fn has_match(alloc: Global, root: &Node, text: &str) -> Result<bool, AllocError>
    ensures { IfOk result (λ found. IsTrue found ↔ Finds (tree_of root.now) (chars text.now)) }
{
    let mut search = Search::new(copy(alloc, root)?);
    for character in text.chars() {
        search.read(u32::from(character));
    }
    Ok(search.has_found())
}

impl Pattern {
    /// Whether some part of the text is a match.
    pub fn is_in(&self, alloc: Global, text: &str) -> Result<bool, AllocError>
        ensures { IfOk result (λ found. IsTrue found ↔ Finds (tree_of self.now.root) (chars text.now)) }
    {
        has_match(alloc, &self.root, text)
    }
}
