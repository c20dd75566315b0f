//! Ranges.
ghost use Rattle.std.specs.Prelude.{◌≡◌, ◌+◌, ◌-◌, ◌<◌, ◌≤◌, ◌^◌, [], drop, false, length, nat_eq, option_map, pos, true, OnOk};
ghost use Rattle.std.specs.Prelude.{Some, None, Ok, slice_set};
ghost use Rattle.tmpl_values.specs.Elements.{item_at};
ghost use Rattle.tmpl_values.specs.Value as value;
ghost use Rattle.tmpl_values.specs.View.{is_made, val_of};
ghost use Rattle.tmpl_meaning.specs.View.{rules_of};
ghost use Rattle.tmpl_code.specs.Instruction as code;
ghost use Rattle.tmpl_engine.specs.Cell.{cell, slot, slot_cell};
ghost use Rattle.tmpl_engine.specs.Machine.{elements_for, is_number, variables_on};
ghost use Rattle.tmpl_engine.specs.computed.Machines.{state_of, without_bytes};
ghost use Rattle.tmpl_engine.specs.computed.Near.{HasRoomFor};
ghost use Rattle.tmpl_engine.specs.computed.Plain.{IsPlain, Spared, Steady, SteadyOr, StopsIn};
ghost use Rattle.tmpl_engine.specs.computed.Turned.{Executed, TurnedOr, TurnedUnder};
ghost use Rattle.tmpl_engine.specs.computed.View.{IsSameRoom, cells_of, size_of};
ghost use Rattle.tmpl_engine.specs.computed.Held.{has_more};

use crate::flow::Flow;
use crate::halt::Halt;
use crate::machine::Machine;
use crate::stack::More;
use std::alloc::AllocError;
use std::mem;
use tmpl_meaning::{Options, RunFaultKind};
use tmpl_values::Val;

/// How many elements a range visits of the value, by whether it wants their index or key; none where it may not be
/// ranged over so.
fn visited_count(key: bool, value: &Val<'_>) -> Option<u64>
    ensures { result ≡ option_map length (elements_for key (val_of value.now)) }
{
    if key {
        value.pair_count()
    } else {
        value.element_count()
    }
}

impl<'m, 'a> Machine<'m, 'a> {
    /// Opens a range over the newest value and takes a step, or goes on with its other part where it has no element.
    pub(crate) fn open_range(
        &mut self,
        options: &Options,
        key: bool,
        skip: usize,
    ) -> Result<Flow, Halt<'a>>
        requires found { 1 ≤ length (cells_of self.old.stack) }
        requires room { length (cells_of self.old.stack) < size_of self.old.stack }
        requires body { self.old.place + 1 < 2 ^ 64 }
        requires other { elements_for key (slot 0 (cells_of self.old.stack)) ≡ Some []
            → self.old.place + 1 + skip < 2 ^ 64 }
        ensures step { TurnedUnder (rules_of options.now) (λ _. Unit {0}) (code.enter key skip)
            self.old self.new result }
        ensures steady { SteadyOr result self.old self.new }
    {
        let val = self.stack.take().val;
        match visited_count(key, &val) {
            None => Err(Halt::Fault(RunFaultKind::NotARange)),
            Some(0) => {
                self.place += 1 + skip;
                Ok(Flow::On)
            }
            Some(_) => {
                if self.left == 0 {
                    return Err(Halt::Fault(RunFaultKind::StepsSpent(options.steps)));
                }
                self.left -= 1;
                self.place += 1;
                self.stack.push(val, 0);
                let outer = mem::replace(&mut self.dot, Val::Nothing);
                self.stack.push(outer, self.place as u64);
                Ok(Flow::On)
            }
        }
    }

    /// The element that the range visits becomes dot, and the values of this many variables.
    #[tactic(auto, using(crate::proofs::TurnLemmas::lefts))]
    pub(crate) fn turn(&mut self, count: usize) -> Result<Flow, Halt<'a>>
        requires found { 2 ≤ length (cells_of self.old.stack) }
        requires element { item_at (slot_cell 1 (cells_of self.old.stack)).num
            (slot_cell 1 (cells_of self.old.stack)).val ≡ None → ⊥ }
        requires room { HasRoomFor count (length (cells_of self.old.stack)) (size_of self.old.stack) }
        requires place { self.old.place + 1 < 2 ^ 64 }
        ensures step { TurnedOr without_bytes (code.turn count) self.old self.new result }
        ensures steady { SteadyOr result self.old self.new }
    {
        let Some((key, element)) = self.stack.element() else {
            unreachable!()
        };
        self.place += 1;
        self.declare(count, key, &element)?;
        self.replace_dot(element);
        Ok(Flow::On)
    }

    /// Puts the values of this many variables, the element above its index or key.
    fn declare(&mut self, count: usize, key: Val<'a>, element: &Val<'a>) -> Result<(), AllocError>
        requires { HasRoomFor count (length (cells_of self.old.stack)) (size_of self.old.stack) }
        ensures step { OnOk result (state_of self.new ≡ record (state_of self.old) {
          cells = variables_on count (val_of key.entry, val_of element.now) (cells_of self.old.stack);
        }) }
        ensures plain { is_made key.entry ≡ false → is_made element.now ≡ false
            → IsPlain self.old → Spared result (IsPlain self.new) }
        ensures size { IsSameRoom self.old.stack self.new.stack }
        ensures template { StopsIn result self.old self.new }
    {
        match count {
            0 => {}
            1 => self.stack.push(element.share()?, 0),
            _ => {
                let element = element.share()?;
                self.stack.push(key, 0);
                self.stack.push(element, 0);
            }
        }
        Ok(())
    }

    /// Goes to the next element, which takes a step at this line; where there is none ends the range. Where no cell is
    /// forgotten no variable was declared, and a number becomes dot here, since its turn would do no more.
    #[tactic(auto, using(crate::proofs::TurnLemmas::nexts))]
    pub(crate) fn next(
        &mut self,
        options: &Options,
        count: usize,
        skip: usize,
        line: u64,
    ) -> Result<Flow, Halt<'a>>
        requires found { count + 2 ≤ length (cells_of self.old.stack) }
        requires after { has_more (slot_cell 1 (drop count (cells_of self.old.stack))) ≡ false
            → self.old.place + 1 + skip < 2 ^ 64 }
        requires beyond { let cells = drop count (cells_of self.old.stack) in nat_eq self.old.left 0 ≡ false → count ≡ 0
            → has_more (slot_cell 1 cells) ≡ true → is_number (slot 1 cells) ≡ true → (slot_cell 0 cells).num + 1 < 2 ^ 64 }
        ensures step { TurnedUnder (rules_of options.now) (λ _. Unit {0}) (code.next count skip line)
            self.old self.new result }
        ensures steady { SteadyOr result self.old self.new }
    {
        self.stack.pop(count);
        match self.stack.more() {
            More::None => self.close_range(skip),
            More::Number => {
                self.take_step(options, line)?;
                let number = self.go_to_turn();
                if count == 0 {
                    self.pass_turn(number);
                }
            }
            More::Other => {
                self.take_step(options, line)?;
                self.go_to_turn();
            }
        }
        Ok(Flow::On)
    }

    /// Goes to the turn of the element after the one that the range visits, and gives the index of that.
    #[inline(always)]
    fn go_to_turn(&mut self) -> u64
        requires found { 2 ≤ length (cells_of self.old.stack) }
        requires fits { (slot_cell 1 (cells_of self.old.stack)).num + 1 < 2 ^ 64 }
        ensures index { result ≡ (slot_cell 1 (cells_of self.old.stack)).num + 1 }
        ensures step { state_of self.new ≡ record (state_of self.old) {
          cells = slice_set (cells_of self.old.stack) 1 (cell (slot 1 (cells_of self.old.stack)) result);
          place = (slot_cell 0 (cells_of self.old.stack)).num;
        } }
        ensures steady { Steady self.old self.new }
    {
        self.place = self.stack.counted(0) as usize;
        let index = self.stack.counted(1) + 1;
        self.stack.recount(1, index);
        index
    }

    /// Makes a number dot, and goes past the instruction at this place. A dot that is a number gives way in place.
    #[inline(always)]
    fn pass_turn(&mut self, number: u64)
        requires number { number < 2 ^ 63 }
        requires place { self.old.place + 1 < 2 ^ 64 }
        ensures step { state_of self.new
            ≡ record (state_of self.old) { dot = value.number (pos number); place = self.old.place + 1 } }
        ensures steady { Steady self.old self.new }
    {
        match &mut self.dot {
            Val::Num(dot) => *dot = number as i64,
            _ => self.replace_dot(Val::Num(number as i64)),
        }
        self.place += 1;
    }

    /// Ends the range: forgets this many cells and its own, and takes dot back.
    pub(crate) fn leave(&mut self, count: usize, skip: usize) -> Flow
        requires found { count + 2 ≤ length (cells_of self.old.stack) }
        requires place { self.old.place + 1 + skip < 2 ^ 64 }
        ensures step { Executed without_bytes (code.leave count skip) self.old self.new (Ok result) }
        ensures steady { Steady self.old self.new }
    {
        self.stack.pop(count);
        self.close_range(skip);
        Flow::On
    }

    /// Ends a range whose cells are the newest two: forgets them, and takes dot back.
    #[inline(always)]
    fn close_range(&mut self, skip: usize)
        requires found { 2 ≤ length (cells_of self.old.stack) }
        requires place { self.old.place + 1 + skip < 2 ^ 64 }
        ensures step { state_of self.new ≡ record (state_of self.old) {
          cells = drop 2 (cells_of self.old.stack);
          dot = slot 0 (cells_of self.old.stack);
          place = self.old.place + 1 + skip;
        } }
        ensures steady { Steady self.old self.new }
    {
        let outer = self.stack.take().val;
        self.stack.pop(1);
        self.replace_dot(outer);
        self.place += 1 + skip;
    }
}
