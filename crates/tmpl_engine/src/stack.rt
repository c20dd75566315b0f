//! The stack of a run, in cells that are lent to it.
#![tactic(auto, using(crate::proofs::StackLemmas::stacks, crate::proofs::PlainLemmas::plains), unfolding(crate::specs::computed::View::cells_of, crate::specs::computed::Plain::IsPlainStack))]

ghost use Rattle.std.specs.List.{AllWithin};
ghost use Rattle.std.specs.Prelude.{◌≡◌, ◌+◌, ◌-◌, ◌<◌, ◌≤◌, ◌∷◌, ◌++◌, [], drop, get_or, length, nat_lt, option_map};
ghost use Rattle.std.specs.Prelude.{reverse};
ghost use Rattle.std.specs.Prelude.{take, false, true, ◌^◌, slice_set, if◌then◌else◌, IfOk, IfSome, IsOkAnd, OnOk};
ghost use Rattle.std.specs.Prelude.{MatchOption};
ghost use Rattle.tmpl_values.specs.Elements.{item_at};
ghost use Rattle.tmpl_values.specs.Field.{field_at};
ghost use Rattle.tmpl_values.specs.Value.{nothing};
ghost use Rattle.tmpl_values.specs.View.{element_of, is_kept, is_made, val_of};
ghost use Rattle.tmpl_values.specs.Text.{text_of};
ghost use Rattle.tmpl_values.specs.Truth.{truth};
ghost use Rattle.tmpl_funcs.specs.Answer.{AreBorrowed, IsBorrowed};
ghost use Rattle.tmpl_funcs.specs.Dispatch.{IsCall};
ghost use Rattle.tmpl_funcs.specs.Func.{is_called, makes_text};
ghost use Rattle.tmpl_funcs.specs.View.{values_of};
ghost use Rattle.tmpl_meaning.specs.Pipeline.{field_value, without_null};
ghost use Rattle.tmpl_meaning.specs.View.{value_seen};
ghost use Rattle.tmpl_meaning.specs.Sink.{IsPut};
ghost use Rattle.tmpl_code.specs.Code.{piped_count};
ghost use Rattle.tmpl_engine.specs.Cell.{cell};
ghost use Rattle.tmpl_engine.specs.computed.Held.{Tells, cell_at, cell_of, cells_in, made_at};
ghost use Rattle.tmpl_engine.specs.computed.Output.{Grows, given_of};

use crate::piece::LentPiece;
use std::alloc::{AllocError, Global};
use std::mem;
use tmpl_funcs::{CallError, Func, call};
use tmpl_meaning::{MissingKey, RunFaultKind, Sink, SinkFault};
use tmpl_values::{Cell, Val, count_below};

/// What a range has after the element that it visits.
#[derive(Clone, Copy)]
pub(crate) enum More {
    None,
    /// The elements of a number.
    Number,
    /// Those of any other value.
    Other,
}

/// The cells below `top` are live, the newest last.
#[derive(Drop)]
pub(crate) struct Stack<'s, 'a> {
    pub(crate) cells: &'s mut [Cell<'a>],
    pub(crate) top: usize,
    ghost within: { top ≤ length cells.now },
}

impl<'s, 'a> Stack<'s, 'a> {
    ghost use Rattle.tmpl_engine.specs.Cell.{slot, slot_cell, values_in};
    ghost use Rattle.tmpl_engine.specs.computed.Plain.{IsPlainStack, Spared, SteadyStack};
    ghost use Rattle.tmpl_engine.specs.computed.View.{IsSameRoom, cells_of, size_of};

    /// No cell is live.
    pub(crate) fn new(cells: &'s mut [Cell<'a>]) -> Stack<'s, 'a>
        ensures cells { cells_of result ≡ [] }
        ensures size { size_of result ≡ length cells.old }
        ensures plain { IsPlainStack result }
    {
        Stack { cells, top: 0 }
    }

    /// How many cells are live.
    #[inline(always)]
    pub(crate) fn height(&self) -> usize
        ensures { result ≡ length (cells_of self.now) }
    {
        self.top
    }

    /// Puts a cell.
    #[tactic(auto, using(crate::proofs::StackLemmas::pushes, crate::proofs::PlainLemmas::pushes), unfolding(crate::specs::computed::View::cells_of, crate::specs::computed::Plain::IsPlainStack))]
    pub(crate) fn push(&mut self, val: Val<'a>, num: u64)
        requires { length (cells_of self.old) < size_of self.old }
        ensures cells { cells_of self.new ≡ cell (val_of val.entry) num ∷ cells_of self.old }
        ensures count { length (cells_of self.new) ≡ length (cells_of self.old) + 1 }
        ensures size { IsSameRoom self.old self.new }
        ensures plain { is_made val.entry ≡ false → IsPlainStack self.old → IsPlainStack self.new }
    {
        self.cells[self.top] = Cell { val, num };
        self.top += 1;
    }

    /// Takes the newest cell.
    #[tactic(auto, using(crate::proofs::StackLemmas::takes, crate::proofs::PlainLemmas::takes), unfolding(crate::specs::computed::View::cells_of, crate::specs::computed::Plain::IsPlainStack))]
    pub(crate) fn take(&mut self) -> Cell<'a>
        requires { 1 ≤ length (cells_of self.old) }
        ensures cells { cells_of self.old ≡ cell_of result ∷ cells_of self.new }
        ensures count { length (cells_of self.old) ≡ length (cells_of self.new) + 1 }
        ensures room { length (cells_of self.new) < size_of self.new }
        ensures size { IsSameRoom self.old self.new }
        ensures plain { IsPlainStack self.old → (is_made result.val ≡ false) × IsPlainStack self.new }
    {
        self.top -= 1;
        take_at(self.cells, self.top)
    }

    /// Takes the newest cell, its value ready to be shared.
    #[tactic(auto)]
    #[inline(always)]
    pub(crate) fn take_shared(&mut self, alloc: Global) -> Result<Cell<'a>, AllocError>
        requires { 1 ≤ length (cells_of self.old) }
        ensures cells { IfOk result (λ c. cells_of self.old ≡ cell_of c ∷ cells_of self.new) }
        ensures count { length (cells_of self.old) ≡ length (cells_of self.new) + 1 }
        ensures room { length (cells_of self.new) < size_of self.new }
        ensures kept { IfOk result (λ c. is_kept c.val ≡ true) }
        ensures size { IsSameRoom self.old self.new }
        ensures plain { IsPlainStack self.old → IsOkAnd result (λ c. (is_made c.val ≡ false) × IsPlainStack self.new) }
    {
        let Cell { val, num } = self.take();
        let val = val.into_shared(alloc)?;
        Ok(Cell { val, num })
    }

    /// Forgets this many cells.
    #[inline(always)]
    pub(crate) fn pop(&mut self, count: usize)
        requires { count ≤ length (cells_of self.old) }
        ensures cells { cells_of self.new ≡ drop count (cells_of self.old) }
        ensures count { length (cells_of self.old) ≡ length (cells_of self.new) + count }
        ensures steady { SteadyStack self.old self.new }
    {
        let old = self.top;
        self.top -= count;
        clear(self.cells, self.top, old);
    }

    /// Puts a value once more.
    #[tactic(auto)]
    #[inline(always)]
    pub(crate) fn push_shared(&mut self, val: &Val<'a>) -> Result<(), AllocError>
        requires { length (cells_of self.old) < size_of self.old }
        ensures cells { OnOk result (cells_of self.new ≡ cell (val_of val.now) 0 ∷ cells_of self.old) }
        ensures size { IsSameRoom self.old self.new }
        ensures plain { is_made val.now ≡ false → IsPlainStack self.old → Spared result (IsPlainStack self.new) }
    {
        match unowned(val) {
            Some(val) => self.push(val, 0),
            None => self.push(val.share()?, 0),
        }
        Ok(())
    }

    /// Puts the value of a slot once more.
    #[tactic(auto, using(crate::proofs::StackLemmas::stacks, crate::proofs::PlainLemmas::looks), unfolding(crate::specs::computed::View::cells_of, crate::specs::computed::Plain::IsPlainStack))]
    #[inline(always)]
    pub(crate) fn push_slot(&mut self, index: usize) -> Result<(), AllocError>
        requires found { index < length (cells_of self.old) }
        requires room { length (cells_of self.old) < size_of self.old }
        ensures cells { OnOk result (cells_of self.new ≡ cell (slot index (cells_of self.old)) 0 ∷ cells_of self.old) }
        ensures size { IsSameRoom self.old self.new }
        ensures plain { IsPlainStack self.old → Spared result (IsPlainStack self.new) }
    {
        copy_value(self.cells, self.top - 1 - index, self.top)?;
        self.top += 1;
        Ok(())
    }

    /// Whether the newest value is not empty.
    pub(crate) fn holds(&mut self) -> bool
        requires { 1 ≤ length (cells_of self.old) }
        ensures cells { cells_of self.new ≡ cells_of self.old }
        ensures steady { SteadyStack self.old self.new }
        ensures holds { result ≡ truth (slot 0 (cells_of self.old)) }
    {
        holds_at(self.cells, self.top - 1)
    }

    /// The field of this name of the value of a slot.
    #[inline(always)]
    pub(crate) fn field(
        &mut self,
        index: usize,
        missing_key: MissingKey,
        name: &'a [u8],
    ) -> Result<Val<'a>, RunFaultKind<'a>>
        requires { index < length (cells_of self.old) }
        ensures cells { cells_of self.new ≡ cells_of self.old }
        ensures steady { SteadyStack self.old self.new }
        ensures value { value_seen result
            ≡ field_value missing_key name.now (field_at name.now (slot index (cells_of self.old))) }
        ensures borrowed { IsBorrowed result }
    {
        field_at(self.cells, self.top - 1 - index, missing_key, name)
    }

    /// Puts out the text of the value of a slot.
    pub(crate) fn show_slot<S: Sink>(
        &mut self,
        index: usize,
        piece: &mut LentPiece<'_>,
        sink: &mut S,
    ) -> Result<(), SinkFault>
        requires found { index < length (cells_of self.old) }
        requires countable { (S.so_far sink.old).failures < 2 ^ 64 - 1 }
        ensures cells { cells_of self.new ≡ cells_of self.old }
        ensures steady { SteadyStack self.old self.new }
        ensures given { IsPut result (given_of (S.so_far sink.old) piece.old) (given_of (S.so_far sink.new) piece.new)
            (text_of (slot index (cells_of self.old))) }
        ensures taken { Grows (S.so_far sink.old) (S.so_far sink.new) }
    {
        show_at(self.cells, self.top - 1 - index, piece, sink)
    }

    /// Whether the newest value is a null.
    #[tactic(auto, using(crate::proofs::StackLemmas::reads), unfolding(crate::specs::computed::View::cells_of))]
    pub(crate) fn has_null(&self) -> bool
        requires { 1 ≤ length (cells_of self.now) }
        ensures { without_null (slot 0 (cells_of self.now)) ≡ (if result then nothing else slot 0 (cells_of self.now)) }
    {
        match self.cells[self.top - 1].val {
            Val::Null => true,
            _ => false,
        }
    }

    /// What a cell counts.
    #[tactic(auto, using(crate::proofs::StackLemmas::reads), unfolding(crate::specs::computed::View::cells_of))]
    pub(crate) fn counted(&self, index: usize) -> u64
        requires { index < length (cells_of self.now) }
        ensures { result ≡ (slot_cell index (cells_of self.now)).num }
    {
        self.cells[self.top - 1 - index].num
    }

    /// Changes what a cell counts.
    #[tactic(auto, using(crate::proofs::StackLemmas::stacks, crate::proofs::StackLemmas::cells, crate::proofs::PlainLemmas::looks), unfolding(crate::specs::computed::View::cells_of, crate::specs::computed::Plain::IsPlainStack))]
    pub(crate) fn recount(&mut self, index: usize, num: u64)
        requires { index < length (cells_of self.old) }
        ensures cells { cells_of self.new
            ≡ slice_set (cells_of self.old) index (cell (slot index (cells_of self.old)) num) }
        ensures count { length (cells_of self.new) ≡ length (cells_of self.old) }
        ensures size { IsSameRoom self.old self.new }
        ensures plain { IsPlainStack self.old → IsPlainStack self.new }
    {
        let at = self.top - 1 - index;
        self.cells[at].num = num;
    }

    /// Makes a null on top nothing, and has the newest cell count nothing.
    #[tactic(auto)]
    pub(crate) fn settle(&mut self)
        requires { 1 ≤ length (cells_of self.old) }
        ensures cells { cells_of self.new
            ≡ slice_set (cells_of self.old) 0 (cell (without_null (slot 0 (cells_of self.old))) 0) }
        ensures steady { SteadyStack self.old self.new }
    {
        if self.has_null() {
            self.set(0, Val::Nothing);
        } else {
            self.recount(0, 0);
        }
    }

    /// Changes the value of a slot.
    pub(crate) fn set(&mut self, index: usize, val: Val<'a>)
        requires { index < length (cells_of self.old) }
        ensures cells { cells_of self.new ≡ slice_set (cells_of self.old) index (cell (val_of val.entry) 0) }
        ensures count { length (cells_of self.new) ≡ length (cells_of self.old) }
        ensures size { IsSameRoom self.old self.new }
        ensures plain { is_made val.entry ≡ false → IsPlainStack self.old → IsPlainStack self.new }
    {
        let at = self.top - 1 - index;
        self.cells[at] = Cell { val, num: 0 };
    }

    /// Exchanges the newest value with another, and has its cell count this.
    #[tactic(auto, using(crate::proofs::StackLemmas::stacks, crate::proofs::StackLemmas::exchanges), unfolding(crate::specs::computed::View::cells_of, crate::specs::computed::Plain::IsPlainStack))]
    #[inline(always)]
    pub(crate) fn exchange(&mut self, val: &mut Val<'a>, num: u64)
        requires { 1 ≤ length (cells_of self.old) }
        ensures cells { cells_of self.new ≡ cell (val_of val.old) num ∷ drop 1 (cells_of self.old) }
        ensures value { val_of val.new ≡ slot 0 (cells_of self.old) }
        ensures size { IsSameRoom self.old self.new }
        ensures plain { is_made val.old ≡ false → IsPlainStack self.old
            → (is_made val.new ≡ false) × IsPlainStack self.new }
    {
        exchange_at(self.cells, self.top - 1, val, num);
    }

    /// The element that a range visits, after its index or key: the cells of the range are the newest two.
    pub(crate) fn element(&mut self) -> Option<(Val<'a>, Val<'a>)>
        requires { 2 ≤ length (cells_of self.old) }
        ensures cells { cells_of self.new ≡ cells_of self.old }
        ensures steady { SteadyStack self.old self.new }
        ensures element { option_map element_of result
            ≡ item_at (slot_cell 1 (cells_of self.old)).num (slot_cell 1 (cells_of self.old)).val }
        ensures borrowed { IfSome result (λ p. (is_made p.0 ≡ false) × (is_made p.1 ≡ false)) }
    {
        element_at(self.cells, self.top - 2)
    }

    /// What a range, whose cells are the newest two, has after the element that it visits.
    pub(crate) fn more(&mut self) -> More
        requires { 2 ≤ length (cells_of self.old) }
        ensures cells { cells_of self.new ≡ cells_of self.old }
        ensures steady { SteadyStack self.old self.new }
        ensures more { Tells result (slot_cell 1 (cells_of self.old)) }
    {
        more_at(self.cells, self.top - 2)
    }

    /// What a function gives for this many of the newest values, the oldest of them first, and for a piped one after them,
    /// if it lies below. Forgets them all.
    #[tactic(auto, using(crate::proofs::StackLemmas::stacks, crate::proofs::ArgumentLemmas::arguments), unfolding(crate::specs::computed::View::cells_of))]
    pub(crate) fn call(
        &mut self,
        alloc: Global,
        func: Func,
        count: usize,
        piped: bool,
    ) -> Result<Val<'a>, CallError>
        requires called { is_called func ≡ true }
        requires found { count + piped_count piped ≤ length (cells_of self.old) }
        ensures table { IsCall func (values_in (reverse (take count (cells_of self.old))
            ++ take (piped_count piped) (drop count (cells_of self.old)))) result }
        ensures cells { cells_of self.new ≡ drop (count + piped_count piped) (cells_of self.old) }
        ensures count { length (cells_of self.old) ≡ length (cells_of self.new) + (count + piped_count piped) }
        ensures size { IsSameRoom self.old self.new }
        ensures plain { makes_text func ≡ false → IsPlainStack self.old → IsBorrowed result × IsPlainStack self.new }
    {
        let below = piped_count(piped);
        let to = self.top;
        self.top -= count + below;
        let result = call_between(self.cells, self.top, to, below, alloc, func);
        clear(self.cells, self.top, to);
        result
    }
}

/// How many cells a piped value takes.
pub(crate) fn piped_count(piped: bool) -> usize
    ensures { result ≡ piped_count piped }
{
    usize::from(piped)
}

/// What a function gives for the values from a place to before another, this many of the lowest of them after the others.
#[tactic(auto, using(crate::proofs::ArgumentLemmas::arguments))]
fn call_between<'a>(
    cells: &mut [Cell<'a>],
    from: usize,
    to: usize,
    below: usize,
    alloc: Global,
    func: Func,
) -> Result<Val<'a>, CallError>
    requires called { is_called func ≡ true }
    requires found { from + below ≤ to }
    requires within { to ≤ length cells.old }
    ensures table { let arguments = take (to - from) (drop from cells.old) in
        IsCall func (values_of (drop below arguments ++ take below arguments)) result }
    ensures borrowed { makes_text func ≡ false → AreBorrowed (take to cells.old) → IsBorrowed result }
    ensures left { take from cells.new ≡ take from cells.old }
    ensures size { length cells.new ≡ length cells.old }
{
    let arguments = &mut cells[from..to];
    arguments.rotate_left(below);
    call(alloc, func, arguments)
}

/// Puts the value of a cell once more into another.
#[tactic(auto, using(crate::proofs::StackLemmas::cells, crate::proofs::StackLemmas::stacks, crate::proofs::PlainLemmas::looks))]
#[inline(always)]
fn copy_value<'a>(cells: &mut [Cell<'a>], from: usize, to: usize) -> Result<(), AllocError>
    requires found { from < length cells.old }
    requires room { to < length cells.old }
    ensures cells { OnOk result (cells_in (to + 1) cells.new
        ≡ cell (cell_at cells.old from).val 0 ∷ cells_in to cells.old) }
    ensures size { length cells.new ≡ length cells.old }
    ensures plain { AreBorrowed (take to cells.old) → made_at cells.old from ≡ false
        → IsOkAnd result (λ _. AreBorrowed (take (to + 1) cells.new)) }
{
    let whole = &cells[..];
    let val = &whole[from].val;
    match unowned(val) {
        Some(val) => cells[to] = Cell { val, num: 0 },
        None => {
            let val = val.share()?;
            cells[to] = Cell { val, num: 0 };
        }
    }
    Ok(())
}

/// The same value once more, unless it is a made text. That is wider than all others, so it is copied by itself.
#[inline(always)]
fn unowned<'a>(val: &Val<'a>) -> Option<Val<'a>>
    ensures same { MatchOption result (is_made val.now ≡ true) (λ v. val_of v ≡ val_of val.now) }
    ensures borrowed { IfSome result (λ v. is_made v ≡ false) }
{
    match val {
        Val::Nothing => Some(Val::Nothing),
        Val::Null => Some(Val::Null),
        Val::Bool(truth) => Some(Val::Bool(*truth)),
        Val::Num(number) => Some(Val::Num(*number)),
        Val::Text(text) => Some(Val::Text(text)),
        Val::Made(_) => None,
        Val::List(items) => Some(Val::List(items)),
        Val::Map(table) => Some(Val::Map(table)),
    }
}

/// The field of this name of the value of a cell.
#[tactic(auto, using(crate::proofs::StackLemmas::cells))]
#[inline(always)]
fn field_at<'a>(
    cells: &mut [Cell<'a>],
    at: usize,
    missing_key: MissingKey,
    name: &'a [u8],
) -> Result<Val<'a>, RunFaultKind<'a>>
    requires within { at < length cells.old }
    ensures same { cells.new ≡ cells.old }
    ensures value { value_seen result
        ≡ field_value missing_key name.now (field_at name.now (cell_at cells.old at).val) }
    ensures borrowed { IsBorrowed result }
{
    let whole = &cells[..];
    missing_key.field(&whole[at].val, name)
}

/// Puts out the text of the value of a cell.
#[tactic(auto, using(crate::proofs::StackLemmas::cells))]
fn show_at<S: Sink>(
    cells: &mut [Cell<'_>],
    at: usize,
    piece: &mut LentPiece<'_>,
    sink: &mut S,
) -> Result<(), SinkFault>
    requires within { at < length cells.old }
    requires countable { (S.so_far sink.old).failures < 2 ^ 64 - 1 }
    ensures same { cells.new ≡ cells.old }
    ensures given { IsPut result (given_of (S.so_far sink.old) piece.old) (given_of (S.so_far sink.new) piece.new)
        (text_of (cell_at cells.old at).val) }
    ensures taken { Grows (S.so_far sink.old) (S.so_far sink.new) }
{
    let whole = &cells[..];
    piece.show(sink, &whole[at].val)
}

/// Whether the value of a cell is not empty.
#[tactic(auto, using(crate::proofs::StackLemmas::cells))]
fn holds_at(cells: &mut [Cell<'_>], at: usize) -> bool
    requires { at < length cells.old }
    ensures same { cells.new ≡ cells.old }
    ensures holds { result ≡ truth (cell_at cells.old at).val }
{
    cells[at].val.truth()
}

/// The element at the place that a cell counts, of its value.
#[tactic(auto, using(crate::proofs::StackLemmas::cells))]
fn element_at<'a>(cells: &mut [Cell<'a>], at: usize) -> Option<(Val<'a>, Val<'a>)>
    requires { at < length cells.old }
    ensures same { cells.new ≡ cells.old }
    ensures element { option_map element_of result ≡ item_at (cell_at cells.old at).num (cell_at cells.old at).val }
    ensures borrowed { IfSome result (λ p. (is_made p.0 ≡ false) × (is_made p.1 ≡ false)) }
{
    let whole = &cells[..];
    let cell = &whole[at];
    cell.val.item(cell.num)
}

/// What there is after the place that a cell counts, of the elements of its value.
#[tactic(auto, using(crate::proofs::StackLemmas::cells))]
fn more_at(cells: &mut [Cell<'_>], at: usize) -> More
    requires { at < length cells.old }
    ensures same { cells.new ≡ cells.old }
    ensures more { Tells result (cell_at cells.old at) }
{
    let whole = &cells[..];
    let cell = &whole[at];
    more_in(&cell.val, cell.num)
}

/// What there is after a place among the elements of a value.
#[tactic(auto, using(crate::proofs::TurnLemmas::counts))]
fn more_in(value: &Val<'_>, place: u64) -> More
    ensures { Tells result (cell (val_of value.now) place) }
{
    match value {
        Val::Num(number) => {
            if is_before_last(place, count_below(*number)) {
                More::Number
            } else {
                More::None
            }
        }
        _ => match value.element_count() {
            Some(count) => {
                if is_before_last(place, count) {
                    More::Other
                } else {
                    More::None
                }
            }
            None => More::None,
        },
    }
}

/// Whether a place comes before the last of this many.
fn is_before_last(place: u64, count: u64) -> bool
    ensures { result ≡ nat_lt place (count - 1) }
{
    count > 0 && place < count - 1
}

/// Exchanges the value of a cell with another, and has the cell count this.
#[tactic(auto, using(crate::proofs::StackLemmas::cells, crate::proofs::StackLemmas::stacks, crate::proofs::PlainLemmas::looks))]
#[inline(always)]
fn exchange_at<'a>(cells: &mut [Cell<'a>], at: usize, val: &mut Val<'a>, num: u64)
    requires { at < length cells.old }
    ensures cells { cells_in (at + 1) cells.new ≡ cell (val_of val.old) num ∷ cells_in at cells.old }
    ensures value { val_of val.new ≡ (cell_at cells.old at).val }
    ensures size { length cells.new ≡ length cells.old }
    ensures plain { is_made val.old ≡ false → AreBorrowed (take (at + 1) cells.old)
        → (is_made val.new ≡ false) × AreBorrowed (take (at + 1) cells.new) }
{
    let cell = &mut cells[at];
    mem::swap(&mut cell.val, val);
    cell.num = num;
}

/// Makes a value ready to be shared, in its place.
#[inline(always)]
pub(crate) fn keep(val: &mut Val<'_>, alloc: Global) -> Result<(), AllocError>
    ensures value { OnOk result (val_of val.new ≡ val_of val.old) }
    ensures kept { OnOk result (is_kept val.new ≡ true) }
    ensures plain { is_made val.old ≡ false → IsOkAnd result (λ _. is_made val.new ≡ false) }
{
    if is_made(val) {
        let made = mem::replace(val, Val::Nothing);
        *val = made.into_shared(alloc)?;
    }
    Ok(())
}

/// Takes a cell, and leaves nothing.
fn take_at<'a>(cells: &mut [Cell<'a>], at: usize) -> Cell<'a>
    requires { at < length cells.old }
    ensures took { result ≡ get_or cells.old at result }
    ensures left { take at cells.new ≡ take at cells.old }
    ensures size { length cells.new ≡ length cells.old }
{
    mem::replace(
        &mut cells[at],
        Cell {
            val: Val::Nothing,
            num: 0,
        },
    )
}

/// Leaves no made text in the cells from a place to before another. What owns nothing is left as it is, since most
/// cells own nothing and it costs more to write them than to look.
#[tactic(auto)]
#[inline(always)]
fn clear(cells: &mut [Cell<'_>], from: usize, to: usize)
    requires { to ≤ length cells.old }
    ensures left { take from cells.new ≡ take from cells.old }
    ensures cleared { AllWithin (λ cell. is_made cell.val ≡ false) cells.new from to }
    ensures size { length cells.new ≡ length cells.old }
{
    for i in from..to {
        if is_made(&cells[i].val) {
            cells[i].val = Val::Nothing;
        }
    }
}

fn is_made(value: &Val<'_>) -> bool
    ensures { result ≡ is_made value.now }
{
    match value {
        Val::Made(_) => true,
        _ => false,
    }
}
