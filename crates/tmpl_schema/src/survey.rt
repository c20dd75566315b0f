//! The search for what is passed to templates that are called, and for each place at which a template may fail. It is
//! in no contract: what it finds is checked once more, or is reported in messages. Where an action may fail the
//! analysis continues as if the action gave no value at all, so that nothing more is reported of it.
#![tactic(auto)]

use crate::after::After;
use crate::check::{Refusal, is_stop, mode_for};
use crate::failure::{Doubt, Failure, Position};
use crate::flow::{dot_after, past_parts};
use crate::known::{Bound, Known, after_parts, bind, copy_known};
use crate::loops::check_loop;
use crate::node::{Checker, Turns, after_node, at_head, in_body, in_part, in_turn, settle_soon};
use crate::room::first_crowded;
use crate::state::{State, at_start, copy_state, pipeline_origin};
use crate::table::{Call, Callee, Entry};
use std::alloc::{AllocError, Global};
use std::mem;
use tmpl_meaning::MissingKey;
use tmpl_shape::{
    Base, Cause, Shape, Visit, copy_counted, copy_name, copy_shape, either, has_name, visit_of,
    within,
};
use tmpl_syntax::{Control, ControlNode, Node, NodeKind, Set, Tree};
use tmpl_values::Bytes;

/// The most places that are reported.
const MOST_DOUBTS: usize = 100;

/// The most times that templates are visited, and how often each may be on the average: what is passed reaches a
/// fixpoint in a few rounds, or is not followed.
const MOST_VISITS: usize = 100_000;

pub(crate) const MOST_ROUNDS: usize = 16;

/// The most work that all searches and checks take, and again the survey of what they found to be too much.
pub(crate) const MOST_EFFORT: u64 = 120_000_000;

/// How many templates that are called are followed: each call looks for its own among all.
const MOST_CALLED: usize = 12_000;

/// What a template is asked for: the set and the name in it, the shape of its data, the mode for missing keys or else each,
/// and the templates that need not be there.
#[derive(Clone, Copy)]
pub(crate) struct Question<'q> {
    pub(crate) set: &'q Set,
    pub(crate) name: &'q [u8],
    pub(crate) shape: &'q Shape,
    pub(crate) asked: Option<MissingKey>,
    pub(crate) stops: &'q [Bytes],
}

/// What is found.
#[derive(Drop)]
struct Found {
    /// Whether it is given up, since no work is left.
    is_over: bool,
    doubts: Vec<Doubt>,
    /// Calls for which the table has less than they pass.
    wanted: Vec<Call>,
}

/// The template that is visited, by its name, and the variables at the head of the range around.
#[derive(Clone, Copy)]
struct Walk<'w, 'h> {
    checker: &'w Checker<'w>,
    question: &'w Question<'w>,
    name: &'w [u8],
    head: Option<&'h Known>,
}

impl Found {
    /// Nothing.
    fn new(alloc: Global) -> Found {
        Found {
            is_over: false,
            doubts: Vec::new(alloc),
            wanted: Vec::new(alloc),
        }
    }

    /// Adds a failure that was met in the action that begins there.
    fn add(
        &mut self,
        walk: &Walk<'_, '_>,
        failure: Failure,
        position: Position,
    ) -> Result<(), AllocError> {
        match failure {
            Failure::OutOfMemory => Err(AllocError),
            Failure::MayFail(cause, inner) => {
                let position = inner.unwrap_or(position);
                self.add_doubt(walk, Box::into_inner(cause), Some(position))
            }
            Failure::Wanted(call) => {
                let call = Box::into_inner(call);
                let name = call.name.as_slice();
                if walk.question.set.get(name).is_some() || is_stop(walk.question.stops, name) {
                    self.wanted.push(call)?;
                    return Ok(());
                }
                self.add_doubt(walk, Cause::NoTemplate(call.name), Some(position))
            }
        }
    }

    /// Gives up, since no work is left where the action that begins there failed.
    fn give_up(
        &mut self,
        walk: &Walk<'_, '_>,
        failure: &Failure,
        position: Position,
    ) -> Result<(), AllocError> {
        if self.is_over {
            return Ok(());
        }
        self.is_over = true;
        let inner = match failure {
            Failure::MayFail(_, inner) => *inner,
            Failure::OutOfMemory | Failure::Wanted(_) => None,
        };
        self.add_doubt(walk, Cause::TooComplex, Some(inner.unwrap_or(position)))
    }

    /// Adds an alarm, if there is room for one more.
    fn add_doubt(
        &mut self,
        walk: &Walk<'_, '_>,
        cause: Cause,
        position: Option<Position>,
    ) -> Result<(), AllocError> {
        if self.doubts.len() < MOST_DOUBTS {
            let template = copy_name(walk.checker.base.alloc, walk.name)?;
            let (line, start) = match position {
                Some(position) => (position.line, position.start),
                None => (0, 0),
            };
            self.doubts.push(Doubt {
                template,
                line,
                start,
                cause,
            })?;
        }
        Ok(())
    }
}

/// Visits nodes, and gives what is known after them.
#[cycle(survey)]
#[tactic(auto, using(tmpl_syntax::proofs::WeightLemmas::lighter))]
fn survey_nodes(
    walk: &Walk<'_, '_>,
    state: State,
    nodes: &[Node],
    found: &mut Found,
) -> Result<Known, AllocError> {
    let checker = walk.checker;
    let State { dot, origin, known } = state;
    let mut state = State { dot, origin, known };
    for node in nodes {
        let known = match after_node(checker, walk.head, &state, node) {
            Ok(after) => {
                let After { known, .. } = after;
                known
            }
            Err(failure) => {
                if checker.is_spent() {
                    found.give_up(walk, &failure, Position::of(node))?;
                    break;
                }
                survey_node(walk, &state, node, failure, found)?
            }
        };
        state.dot = dot_after(checker, &state, node)?;
        state.known = known;
    }
    Ok(state.known)
}

/// Visits a node that has this trouble.
#[cycle(survey)]
fn survey_node(
    walk: &Walk<'_, '_>,
    state: &State,
    node: &Node,
    failure: Failure,
    found: &mut Found,
) -> Result<Known, AllocError> {
    let checker = walk.checker;
    match &node.what {
        NodeKind::Control(control) => {
            survey_control(walk, state, control, Position::of(node), found)
        }
        NodeKind::Action(header) => {
            found.add(walk, failure, Position::of(node))?;
            let bound = Bound {
                key: &Shape::Never,
                over: &None,
                element: &Shape::Never,
                origin: &None,
            };
            bind(&checker.base, &header.binding, &bound, &state.known)
        }
        NodeKind::Text(_) | NodeKind::Break | NodeKind::Continue | NodeKind::Template(_, _) => {
            found.add(walk, failure, Position::of(node))?;
            copy_known(&state.known)
        }
    }
}

/// Visits a control.
#[cycle(survey)]
fn survey_control(
    walk: &Walk<'_, '_>,
    state: &State,
    control: &ControlNode,
    position: Position,
    found: &mut Found,
) -> Result<Known, AllocError> {
    let checker = walk.checker;
    let shape = match checker.pipeline_shape(state, &control.header.pipeline) {
        Ok(shape) => shape,
        Err(failure) => {
            found.add(walk, failure.into(), position)?;
            Shape::Never
        }
    };
    match control.control {
        Control::If | Control::With => {
            survey_choice(walk, state, control, &shape, position, found)
        }
        Control::Range => survey_range(walk, state, control, &shape, position, found),
    }
}

/// Visits an `if` or a `with` whose value has the shape.
#[cycle(survey)]
fn survey_choice(
    walk: &Walk<'_, '_>,
    state: &State,
    control: &ControlNode,
    shape: &Shape,
    position: Position,
    found: &mut Found,
) -> Result<Known, AllocError> {
    let base = &walk.checker.base;
    let inside = in_body(base, control.control, &control.header, state, shape)?;
    let one = survey_nodes(walk, inside, control.body.as_slice(), found)?;
    let outside = in_part(base, false, &control.header, state, shape)?;
    let other = survey_nodes(walk, outside, control.other.as_slice(), found)?;
    survey_end(walk, state, control, &one, &other, position, found)
}

/// What is known after the two parts of a control.
fn survey_end(
    walk: &Walk<'_, '_>,
    state: &State,
    control: &ControlNode,
    one: &Known,
    other: &Known,
    position: Position,
    found: &mut Found,
) -> Result<Known, AllocError> {
    let (body, rest) = (control.body.as_slice(), control.other.as_slice());
    let through = past_parts(walk.checker, control.control, body, rest);
    match after_parts(&walk.checker.base, through, &state.known, one, other) {
        Ok(known) => Ok(known),
        Err(failure) => {
            found.add(walk, failure.into(), position)?;
            copy_known(&state.known)
        }
    }
}

/// Visits a range over values of the shape.
#[cycle(survey)]
fn survey_range(
    walk: &Walk<'_, '_>,
    state: &State,
    control: &ControlNode,
    shape: &Shape,
    position: Position,
    found: &mut Found,
) -> Result<Known, AllocError> {
    let base = &walk.checker.base;
    let header = &control.header;
    let visit = match visit_of(base, &header.binding, shape) {
        Ok(visit) => visit,
        Err(failure) => {
            found.add(walk, failure.into(), position)?;
            Visit {
                key: Shape::Never,
                element: Shape::Never,
            }
        }
    };
    let start = at_head(base, header, state)?;
    let body = control.body.as_slice();
    let over = pipeline_origin(base.alloc, header.pipeline.commands.as_slice(), state)?;
    let turns = Turns {
        header,
        visit: &visit,
        over: &over,
        body,
    };
    let known = match settle_soon(walk.checker, &start, &turns) {
        Ok(known) => known,
        Err(failure) => {
            let before = found.doubts.len().saturating_add(found.wanted.len());
            let inside = in_turn(base, &turns, &start)?;
            let turn = Walk {
                head: Some(&start),
                ..*walk
            };
            survey_nodes(&turn, inside, body, found)?;
            if found.doubts.len().saturating_add(found.wanted.len()) == before {
                found.add(walk, failure.into(), position)?;
            }
            start
        }
    };
    let outside = copy_state(base.alloc, state)?;
    let other = survey_nodes(walk, outside, control.other.as_slice(), found)?;
    survey_end(walk, state, control, &known, &other, position, found)
}

/// Whether a template is a copy loop over texts; of one that calls what is neither there nor a stop, that is reported.
fn survey_loop(
    walk: &Walk<'_, '_>,
    shape: &Shape,
    tree: &Tree,
    found: &mut Found,
) -> Result<bool, AllocError> {
    let base = &walk.checker.base;
    if !within(base, shape, &Shape::Texts) {
        return Ok(false);
    }
    let question = walk.question;
    match check_loop(base, question.set, question.stops, tree.nodes.as_slice()) {
        Ok(()) => Ok(true),
        Err(Failure::OutOfMemory) => Err(AllocError),
        Err(Failure::MayFail(cause, position)) => match Box::into_inner(cause) {
            Cause::NoTemplate(name) => {
                found.add_doubt(walk, Cause::NoTemplate(name), position)?;
                Ok(true)
            }
            _ => Ok(false),
        },
        Err(Failure::Wanted(_)) => Ok(false),
    }
}

/// Visits the template of a name, whose dot has the shape.
fn survey_template(
    checker: &Checker<'_>,
    question: &Question<'_>,
    name: &[u8],
    shape: &Shape,
    found: &mut Found,
) -> Result<(), AllocError> {
    let walk = Walk {
        checker,
        question,
        name,
        head: None,
    };
    match question.set.get(name) {
        Some(tree) => {
            if let Some(position) = first_crowded(tree.nodes.as_slice()) {
                return found.add_doubt(&walk, Cause::TooComplex, Some(position));
            }
            if survey_loop(&walk, shape, tree, found)? {
                return Ok(());
            }
            let start = at_start(&checker.base, shape)?;
            survey_nodes(&walk, start, tree.nodes.as_slice(), found)?;
            Ok(())
        }
        None => {
            let wanted = copy_name(checker.base.alloc, name)?;
            found.add_doubt(&walk, Cause::NoTemplate(wanted), None)
        }
    }
}

/// Where the table has a template of this name.
fn place(table: &[Entry], name: &[u8]) -> Option<usize> {
    let mark = mark_of(name);
    for (place, entry) in table.iter().enumerate() {
        if entry.mark == mark && entry.name.as_slice() == name {
            return Some(place);
        }
    }
    None
}

/// A number of a name, which few others have.
fn mark_of(name: &[u8]) -> u64 {
    let mut mark: u64 = 0;
    for byte in name {
        mark = mark.wrapping_mul(31).wrapping_add(u64::from(*byte));
    }
    mark
}

/// The alternatives of the one that are not within the other. A definition that is not one of its alternatives by its name
/// is not looked for inside of them, which would take long where there are many.
fn part_beyond(base: &Base<'_>, shape: &Shape, other: &Shape) -> Result<Shape, AllocError> {
    let is_within = match shape {
        Shape::Either(one, two) => {
            let one = part_beyond(base, one, other)?;
            return with_alternatives(base.alloc, one, part_beyond(base, two, other)?);
        }
        Shape::Named(name) => has_name(name.as_slice(), other),
        _ => within(base, shape, other),
    };
    if is_within {
        return Ok(Shape::Never);
    }
    copy_counted(base, shape)
}

/// The values of both. The alternatives of the first change sides, so that however many are added, one by one, each is
/// reached in few steps.
fn with_alternative(alloc: Global, all: Shape, more: Shape) -> Result<Shape, AllocError> {
    match all {
        Shape::Never => Ok(more),
        Shape::Either(one, other) => {
            let one = with_alternative(alloc, Box::into_inner(one), more)?;
            either(alloc, Box::into_inner(other), one)
        }
        _ => either(alloc, all, more),
    }
}

/// The values of both, where the alternatives of the second are added one by one.
fn with_alternatives(alloc: Global, all: Shape, more: Shape) -> Result<Shape, AllocError> {
    match more {
        Shape::Never => Ok(all),
        Shape::Either(one, other) => {
            let all = with_alternatives(alloc, all, Box::into_inner(one))?;
            with_alternatives(alloc, all, Box::into_inner(other))
        }
        _ => with_alternative(alloc, all, more),
    }
}

/// Puts a template that is not in the table there. Gives the values for which it is yet to be visited.
fn add_entry(
    base: &Base<'_>,
    set: &Set,
    table: &mut Vec<Entry>,
    name: &[u8],
    shape: &Shape,
) -> Result<Shape, AllocError> {
    let (callee, more) = match set.get(name) {
        Some(_) => (
            Callee::Handed(copy_counted(base, shape)?),
            copy_counted(base, shape)?,
        ),
        None => (Callee::Absent, Shape::Never),
    };
    table.push(Entry {
        name: copy_name(base.alloc, name)?,
        mark: mark_of(name),
        callee,
    })?;
    Ok(more)
}

/// Adds values to those of an entry. Gives those of them that are new to it.
fn widen(base: &Base<'_>, held: &mut Shape, shape: &Shape) -> Result<Shape, AllocError> {
    let more = part_beyond(base, shape, held)?;
    let added = copy_shape(base.alloc, &more)?;
    let all = mem::replace(held, Shape::Never);
    *held = with_alternatives(base.alloc, all, added)?;
    Ok(more)
}

/// Puts a call into the table. Gives the values for which the template is yet to be visited.
fn put_call(
    base: &Base<'_>,
    set: &Set,
    table: &mut Vec<Entry>,
    call: &Call,
) -> Result<Shape, AllocError> {
    base.effort.spend(table.len() as u64 / 8);
    if table.len() >= MOST_CALLED {
        base.effort.spend(MOST_EFFORT);
    }
    let Some(place) = place(table.as_slice(), call.name.as_slice()) else {
        return add_entry(base, set, table, call.name.as_slice(), &call.shape);
    };
    match table.get_mut(place) {
        Some(
            Entry {
                callee: Callee::Handed(held),
                ..
            },
        ) => widen(base, held, &call.shape),
        _ => Ok(Shape::Never),
    }
}

/// Visits the template that is asked for, and each of the table.
fn survey_all(
    base: &Base<'_>,
    question: &Question<'_>,
    table: &[Entry],
) -> Result<Found, AllocError> {
    let checker = Checker {
        base: *base,
        mode: mode_for(question.asked),
        table,
    };
    let mut found = Found::new(base.alloc);
    survey_template(
        &checker,
        question,
        question.name,
        question.shape,
        &mut found,
    )?;
    for entry in table {
        if found.is_over {
            break;
        }
        if let Callee::Handed(shape) = &entry.callee {
            survey_template(&checker, question, entry.name.as_slice(), shape, &mut found)?;
        }
    }
    Ok(found)
}

/// That it is not seen why a template may fail, since that takes too much work.
fn unknown_doubt(alloc: Global, name: &[u8]) -> Result<Vec<Doubt>, AllocError> {
    let mut doubts: Vec<Doubt> = Vec::new(alloc);
    doubts.push(Doubt {
        template: copy_name(alloc, name)?,
        line: 0,
        start: 0,
        cause: Cause::TooComplex,
    })?;
    Ok(doubts)
}

/// The stops that are not there, as entries of a table.
fn absent_stops(base: &Base<'_>, question: &Question<'_>) -> Result<Vec<Entry>, AllocError> {
    let mut table = Vec::new(base.alloc);
    for name in question.stops {
        if question.set.get(name.as_slice()).is_none() {
            add_entry(
                base,
                question.set,
                &mut table,
                name.as_slice(),
                &Shape::Never,
            )?;
        }
    }
    Ok(table)
}

/// The search for what is handed to templates that are called: the table of them, which begins with the stops, and calls of
/// those that are yet to be visited.
#[derive(Drop)]
pub(crate) struct Search {
    pub(crate) table: Vec<Entry>,
    waiting: Vec<Call>,
    /// The places that were found in the template in which the search was given up.
    given_up: Vec<Doubt>,
}

impl Search {
    /// Where the template that is asked for is yet to be visited.
    pub(crate) fn new(base: &Base<'_>, question: &Question<'_>) -> Result<Search, AllocError> {
        let name = copy_name(base.alloc, question.name)?;
        let shape = copy_counted(base, question.shape)?;
        let mut waiting: Vec<Call> = Vec::new(base.alloc);
        waiting.push(Call { name, shape })?;
        Ok(Search {
            table: absent_stops(base, question)?,
            waiting,
            given_up: Vec::new(base.alloc),
        })
    }

    /// Visits the template of a call, and puts what it calls into the table.
    fn visit(
        &mut self,
        checker: &Checker<'_>,
        question: &Question<'_>,
        call: &Call,
    ) -> Result<(), AllocError> {
        let mut found = Found::new(checker.base.alloc);
        let name = call.name.as_slice();
        survey_template(checker, question, name, &call.shape, &mut found)?;
        let Found {
            is_over,
            doubts,
            wanted,
        } = found;
        if is_over {
            self.given_up = doubts;
            return Ok(());
        }
        self.grow(&checker.base, question, wanted.as_slice())
    }

    /// Puts calls into the table, and those templates that are yet to be visited with them to those that wait.
    fn grow(
        &mut self,
        base: &Base<'_>,
        question: &Question<'_>,
        wanted: &[Call],
    ) -> Result<(), AllocError> {
        for call in wanted {
            if base.effort.is_spent() {
                break;
            }
            let shape = put_call(base, question.set, &mut self.table, call)?;
            if !matches!(shape, Shape::Never) {
                let name = copy_name(base.alloc, call.name.as_slice())?;
                self.waiting.push(Call { name, shape })?;
            }
        }
        Ok(())
    }

    /// Visits templates that wait, each for the values alone that are new to it, and those that they call. Gives
    /// whether none is left: what a template is passed reaches a fixpoint in a few rounds for each definition, or is
    /// not followed.
    pub(crate) fn spread(
        &mut self,
        base: &Base<'_>,
        question: &Question<'_>,
    ) -> Result<bool, AllocError> {
        // by a table of stops alone each other call is one for which the table has less than it passes
        let stops = absent_stops(base, question)?;
        let checker = Checker {
            base: *base,
            mode: mode_for(question.asked),
            table: stops.as_slice(),
        };
        for visits in 0..MOST_VISITS {
            let Some(call) = self.waiting.pop() else {
                return Ok(true);
            };
            let count = self.table.len().saturating_add(base.definitions.len());
            if visits / MOST_ROUNDS > count {
                return Ok(false);
            }
            self.visit(&checker, question, &call)?;
            if !self.given_up.is_empty() {
                return Ok(false);
            }
        }
        Ok(false)
    }

    /// Why the search came to no end.
    pub(crate) fn refusal(self, alloc: Global, name: &[u8]) -> Refusal {
        let Search { given_up, .. } = self;
        if !given_up.is_empty() {
            return Refusal::MayFail(given_up);
        }
        match unknown_doubt(alloc, name) {
            Ok(doubts) => Refusal::MayFail(doubts),
            Err(_) => Refusal::OutOfMemory,
        }
    }

    /// Each place that may fail by the table, or nothing where the table lacks a call, which is put there.
    pub(crate) fn doubts(
        &mut self,
        base: &Base<'_>,
        question: &Question<'_>,
    ) -> Result<Option<Vec<Doubt>>, AllocError> {
        let Found {
            is_over,
            doubts,
            wanted,
        } = survey_all(base, question, self.table.as_slice())?;
        if !is_over && !wanted.is_empty() {
            self.grow(base, question, wanted.as_slice())?;
            return Ok(None);
        }
        if doubts.is_empty() {
            return Ok(Some(unknown_doubt(base.alloc, question.name)?));
        }
        Ok(Some(doubts))
    }
}
