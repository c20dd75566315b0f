//! Reading a regular expression: repetitions, and rows of parts as trees.
ghost use Rattle.std.specs.Prelude.{◌≡◌, ◌<◌, ◌≤◌, ◌+◌, ℕ, Some, List, true, ◌∷◌, ◌++◌, length, IfOk, IfSome, OnOk};
ghost use Rattle.std.specs.Str.{byte};
ghost use Rattle.tmpl_formats.specs.PatternText.{HasTimes, HasQuantifier, IsRepeated};
ghost use Rattle.tmpl_formats.specs.computed.PatternRows.{trees_of, joint, separator, HasPiece, HasRow, further};
ghost use Rattle.tmpl_formats.specs.PatternView.{tree_of};

use crate::pattern::{Node, copy};
use crate::pattern_text::{Reader, starts};
use std::alloc::{AllocError, Global};

/// How many turns: at least this many, and at most that many, if there is a bound.
#[derive(Clone, Copy)]
pub(crate) struct Times {
    pub(crate) least: u32,
    pub(crate) most: Option<u32>,
}

/// Whether this is one turn.
pub(crate) fn is_once(times: Times) -> bool
    ensures { result ≡ true → (times.least ≡ 1) × (times.most ≡ Some 1) }
{
    times.least == 1 && matches!(times.most, Some(1))
}

/// Two trees as one.
fn joint_of(alloc: Global, is_either: bool, first: Node, second: Node) -> Result<Node, AllocError>
    ensures { IfOk result (λ node. tree_of node ≡ joint is_either (tree_of first) (tree_of second)) }
{
    let one = Box::new(alloc, first)?;
    let other = Box::new(alloc, second)?;
    if is_either {
        Ok(Node::Either(one, other))
    } else {
        Ok(Node::Both(one, other))
    }
}

/// The last parts as one tree, which is halved again and again, so that it is not deep.
fn join(
    alloc: Global,
    is_either: bool,
    parts: &mut Vec<Node>,
    count: usize,
) -> Result<Node, AllocError>
    requires some { 0 < count }
    requires enough { count ≤ length parts.old.items }
    ensures count { OnOk result (length parts.new.items + count ≡ length parts.old.items) }
    ensures written { IfOk result (λ node. (text rest : List ℕ) → HasRow is_either text (trees_of parts.old.items) rest → (more : List ℕ) × HasRow is_either text (trees_of parts.new.items) (separator is_either ++ more) × HasPiece is_either more (tree_of node) rest) }
{
    if count == 1 {
        match parts.pop() {
            Some(part) => return Ok(part),
            None => unreachable!(),
        }
    }
    let half = count / 2;
    let second = join(alloc, is_either, parts, half)?;
    let first = join(alloc, is_either, parts, count - half)?;
    joint_of(alloc, is_either, first, second)
}

/// All parts as one tree.
pub(crate) fn whole(
    alloc: Global,
    is_either: bool,
    mut parts: Vec<Node>,
) -> Result<Node, AllocError>
    requires { 0 < length parts.items }
    ensures { IfOk result (λ node. (text rest : List ℕ) → HasRow is_either (separator is_either ++ text) (trees_of parts.items) rest → HasPiece is_either text (tree_of node) rest) }
{
    let count = parts.len();
    let root = join(alloc, is_either, &mut parts, count)?;
    Ok(root)
}

/// This many turns.
fn copies(alloc: Global, turn: &Node, count: u32) -> Result<Node, AllocError>
    ensures { IfOk result (λ node. IsRepeated (tree_of turn.now) count (Some count) (tree_of node)) }
{
    if count == 0 {
        return Ok(Node::Empty);
    }
    if count == 1 {
        return copy(alloc, turn);
    }
    let half = count / 2;
    let first = copies(alloc, turn, half)?;
    let second = copies(alloc, turn, count - half)?;
    joint_of(alloc, false, first, second)
}

/// One turn or none.
fn maybe(alloc: Global, turn: &Node) -> Result<Node, AllocError>
    ensures { IfOk result (λ node. IsRepeated (tree_of turn.now) 0 (Some 1) (tree_of node)) }
{
    let one = copy(alloc, turn)?;
    joint_of(alloc, true, one, Node::Empty)
}

/// At most this many turns.
fn maybes(alloc: Global, turn: &Node, count: u32) -> Result<Node, AllocError>
    ensures { IfOk result (λ node. IsRepeated (tree_of turn.now) 0 (Some count) (tree_of node)) }
{
    if count == 0 {
        return Ok(Node::Empty);
    }
    if count == 1 {
        return maybe(alloc, turn);
    }
    let half = count / 2;
    let first = maybes(alloc, turn, half)?;
    let second = maybes(alloc, turn, count - half)?;
    joint_of(alloc, false, first, second)
}

/// The turns after those that must be.
fn further_of(alloc: Global, turn: &Node, times: Times) -> Result<Node, AllocError>
    ensures { IfOk result (λ node. IsRepeated (tree_of turn.now) 0 (further times.least times.most) (tree_of node)) }
{
    match times.most {
        Some(most) => maybes(alloc, turn, most.saturating_sub(times.least)),
        None => {
            let one = copy(alloc, turn)?;
            let turns = Box::new(alloc, one)?;
            Ok(Node::Many(turns, false))
        }
    }
}

/// As many turns as are asked for.
pub(crate) fn repeat(alloc: Global, turn: &Node, times: Times) -> Result<Node, AllocError>
    requires { IfSome times.most (λ most. times.least ≤ most) }
    ensures { IfOk result (λ node. IsRepeated (tree_of turn.now) times.least times.most (tree_of node)) }
{
    let more = further_of(alloc, turn, times)?;
    let least = copies(alloc, turn, times.least)?;
    joint_of(alloc, false, least, more)
}

impl<'t> Reader<'t> {
    /// Whether there may be one node more, which is counted.
    pub(crate) fn spend(&mut self) -> bool
        ensures { self.new.rest.now ≡ self.old.rest.now }
    {
        if self.left == 0 {
            return false;
        }
        self.left -= 1;
        true
    }

    /// Whether there may be as many nodes more as turns of this size have beside the first, which are counted.
    pub(crate) fn affords(&mut self, size: usize, times: Times) -> bool
        ensures { self.new.rest.now ≡ self.old.rest.now }
    {
        let turns = match times.most {
            Some(most) => most as usize,
            None => times.least as usize + 1,
        };
        let more = turns.saturating_sub(1).saturating_mul(size);
        let cost = more.saturating_add(turns.saturating_mul(2));
        if cost > self.left {
            return false;
        }
        self.left -= cost;
        true
    }

    /// Reads the numbers of a repetition whose brace was read.
    fn counts(&mut self) -> Option<Times>
        ensures { IfSome result (λ times. HasTimes (byte "{" ∷ self.old.rest.now) times.least times.most self.new.rest.now) }
    {
        let least = self.number(10)?;
        if self.takes('}') {
            return Some(Times {
                least,
                most: Some(least),
            });
        }
        if !self.takes(',') {
            return None;
        }
        if self.takes('}') {
            return Some(Times { least, most: None });
        }
        let most = self.number(10)?;
        if most < least {
            return None;
        }
        if self.takes('}') {
            Some(Times {
                least,
                most: Some(most),
            })
        } else {
            None
        }
    }

    /// Reads a repetition.
    fn times(&mut self) -> Option<Times>
        ensures { IfSome result (λ times. HasTimes self.old.rest.now times.least times.most self.new.rest.now) }
    {
        let c = self.next()?;
        match c {
            '*' => Some(Times {
                least: 0,
                most: None,
            }),
            '+' => Some(Times {
                least: 1,
                most: None,
            }),
            '?' => Some(Times {
                least: 0,
                most: Some(1),
            }),
            '{' => self.counts(),
            _ => None,
        }
    }

    /// Whether a repetition is next.
    fn begins_times(&self) -> bool {
        starts(self.rest, '*')
            || starts(self.rest, '+')
            || starts(self.rest, '?')
            || starts(self.rest, '{')
    }

    /// Reads a repetition, if one is next; else there is one turn.
    pub(crate) fn quantifier(&mut self) -> Option<Times>
        ensures { IfSome result (λ times. HasQuantifier self.old.rest.now times.least times.most self.new.rest.now) }
    {
        if !self.begins_times() {
            return Some(Times {
                least: 1,
                most: Some(1),
            });
        }
        let times = self.times()?;
        if self.takes('?') {
            Some(times)
        } else {
            Some(times)
        }
    }
}
