//! Whether a template never fails over the values of a schema.
#![tactic(auto)]

ghost use Rattle.std.specs.Prelude.{◌≡◌, Contains, OnOk, true};
ghost use Rattle.tmpl_syntax.specs.View.{set_view, tree_of};
ghost use Rattle.tmpl_schema.specs.Safe.{NeverFails};
ghost use Rattle.tmpl_schema.specs.declared.check.Refusal.TheVariants as refusal;
ghost use Rattle.tmpl_shape.specs.View.{schema_of, shape_of};
ghost use Rattle.tmpl_schema.specs.computed.Check.{is_safe};
ghost use Rattle.tmpl_schema.specs.computed.Safe.{EachCallee, IsAccepted, IsCallee, NeverFailsIn, mode_for};
ghost use Rattle.tmpl_shape.specs.computed.View.{base_of};
ghost use Rattle.tmpl_schema.specs.computed.View.{callee_of, entries_of, table_of};

use crate::failure::{Doubt, Failure};
use crate::loops::check_loop;
use crate::node::{Checker, after_nodes};
use crate::room::{first_crowded, is_small};
use crate::state::at_start;
use crate::survey::{MOST_EFFORT, MOST_ROUNDS, Question, Search};
use crate::table::{Callee, Entry};
use std::alloc::{AllocError, Global};
use tmpl_meaning::MissingKey;
use tmpl_shape::{Base, Cause, Effort, Schema, Shape, null_gone, within};
use tmpl_syntax::{Set, Tree};
use tmpl_values::Bytes;

/// Why a template is not accepted.
#[derive(Drop)]
pub enum Refusal {
    /// Out of memory.
    OutOfMemory,
    /// It may fail for a value of the schema, or it is not seen that it never does: at these places, of which at most
    /// 100 are reported.
    MayFail(Vec<Doubt>),
}

impl From<AllocError> for Refusal {
    ghost from_gives = { λ _ e. e ≡ refusal.OutOfMemory };

    fn from(_: AllocError) -> Refusal {
        Refusal::OutOfMemory
    }
}

/// Whether a template is accepted for values of this shape.
fn check_tree(checker: &Checker<'_>, shape: &Shape, tree: &Tree) -> Result<(), Failure>
    ensures { OnOk result (is_safe (base_of checker.now.base) checker.now.mode (table_of checker.now.table.now)
        (shape_of shape.now) (tree_of tree.now).nodes ≡ true) }
{
    if let Some(position) = first_crowded(tree.nodes.as_slice()) {
        return Err(Failure::may_fail(checker.base.alloc, Cause::TooComplex, Some(position)));
    }
    let start = at_start(&checker.base, shape)?;
    after_nodes(checker, None, start, tree.nodes.as_slice())?;
    Ok(())
}

/// Whether one of the names is this.
pub(crate) fn is_stop(stops: &[Bytes], name: &[u8]) -> bool
    ensures { result ≡ true → Contains stops.now name.now }
{
    match stops {
        [] => false,
        [first, rest @ ..] => first.as_slice() == name || is_stop(rest, name),
    }
}

/// Whether a template is accepted for values of this shape: by its nodes, or, for texts, as a copy loop.
fn check_handed(
    checker: &Checker<'_>,
    set: &Set,
    stops: &[Bytes],
    shape: &Shape,
    tree: &Tree,
) -> Result<(), Failure>
    ensures { OnOk result (IsAccepted (base_of checker.now.base) checker.now.mode stops.now (set_view set.now)
        (table_of checker.now.table.now) (shape_of shape.now) (tree_of tree.now)) }
{
    if within(&checker.base, shape, &Shape::Texts) && is_small(tree.nodes.as_slice()) {
        match check_loop(&checker.base, set, stops, tree.nodes.as_slice()) {
            Ok(()) => return Ok(()),
            Err(Failure::OutOfMemory) => return Err(Failure::OutOfMemory),
            Err(_) => {}
        }
    }
    check_tree(checker, shape, tree)
}

/// Whether what the table says of a template that is called is so.
fn check_callee(
    checker: &Checker<'_>,
    set: &Set,
    stops: &[Bytes],
    entry: &Entry,
) -> Result<(), Failure>
    ensures { OnOk result (IsCallee (base_of checker.now.base) checker.now.mode stops.now (set_view set.now)
        (table_of checker.now.table.now) entry.now.name (callee_of entry.now.callee)) }
{
    match (&entry.callee, set.get(entry.name.as_slice())) {
        (Callee::Handed(shape), Some(tree)) => check_handed(checker, set, stops, shape, tree),
        (Callee::Absent, None) if is_stop(stops, entry.name.as_slice()) => Ok(()),
        _ => Err(Failure::may_fail(checker.base.alloc, Cause::Command, None)),
    }
}

/// Whether what the table says of each template that is called is so.
fn check_callees(
    checker: &Checker<'_>,
    set: &Set,
    stops: &[Bytes],
    entries: &[Entry],
) -> Result<(), Failure>
    ensures { OnOk result (EachCallee (base_of checker.now.base) checker.now.mode stops.now (set_view set.now)
        (table_of checker.now.table.now) (entries_of entries.now)) }
{
    for entry in entries {
        check_callee(checker, set, stops, entry)?;
    }
    Ok(())
}

/// The mode in which a template is checked: the one that is asked for, or where each is, `Error`. There a field that
/// may be absent has no shape, so what is accepted in it is accepted in each.
pub(crate) fn mode_for(asked: Option<MissingKey>) -> MissingKey
    ensures { result ≡ mode_for asked }
{
    asked.unwrap_or(MissingKey::Error)
}

/// Whether a template is accepted, and each that is called, as the table says.
fn check_all(base: &Base<'_>, question: &Question<'_>, table: &[Entry]) -> Result<(), Failure>
    ensures { OnOk result (NeverFailsIn (base_of base.now) question.now.asked question.now.stops.now
        (set_view question.now.set.now) question.now.name.now (shape_of question.now.shape.now)) }
{
    let checker = Checker {
        base: *base,
        mode: mode_for(question.asked),
        table,
    };
    match question.set.get(question.name) {
        Some(tree) => {
            check_tree(&checker, question.shape, tree)?;
            check_callees(&checker, question.set, question.stops, table)?;
            Ok(())
        }
        None => Err(Failure::may_fail(checker.base.alloc, Cause::Command, None)),
    }
}

/// Whether a template never fails for values of this shape, by a table that is looked for: each round ends with one that
/// may do, and only where it does not is it asked why.
fn check_shape(base: &Base<'_>, question: &Question<'_>) -> Result<(), Refusal>
    ensures { OnOk result (NeverFailsIn (base_of base.now) question.now.asked question.now.stops.now
        (set_view question.now.set.now) question.now.name.now (shape_of question.now.shape.now)) }
{
    let mut search = Search::new(base, question)?;
    for _ in 0..MOST_ROUNDS {
        if !search.spread(base, question)? {
            break;
        }
        match check_all(base, question, search.table.as_slice()) {
            Ok(()) => return Ok(()),
            Err(Failure::OutOfMemory) => return Err(Refusal::OutOfMemory),
            Err(_) => {}
        }
        let is_spent = base.effort.is_spent();
        if is_spent {
            base.effort.renew(MOST_EFFORT);
        }
        if let Some(doubts) = search.doubts(base, question)? {
            return Err(Refusal::MayFail(doubts));
        }
        if is_spent {
            break;
        }
    }
    Err(search.refusal(base.alloc, question.name))
}

/// Whether a template of the set never fails over the values of a schema: in this mode for missing keys, or, where none
/// is given, in each of them. A call of a template that is not there is allowed where its name is one of the stops.
///
/// Where it is accepted its run over data of the schema, whatever its limits, ends at no fault but that no step is left,
/// that calls are too deep, or that a stop is called. A template that never fails may be refused.
///
/// # Errors
///
/// `MayFail` where that is not seen, and `OutOfMemory` where memory runs out.
pub fn check_schema(
    alloc: Global,
    set: &Set,
    name: &[u8],
    schema: &Schema,
    mode: Option<MissingKey>,
    stops: &[Bytes],
) -> Result<(), Refusal>
    ensures { OnOk result (NeverFails (schema_of schema.now) mode stops.now (set_view set.now) name.now) }
{
    let effort = Effort::new(MOST_EFFORT);
    let base = Base {
        definitions: schema.definitions.as_slice(),
        names: 6,
        limit: 150,
        effort: &effort,
        alloc,
    };
    let shape = null_gone(&base, &schema.shape)?;
    let question = Question {
        set,
        name,
        shape: &shape,
        asked: mode,
        stops,
    };
    check_shape(&base, &question)
}
