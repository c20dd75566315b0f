//! Steps, `if` and `with`.
ghost use Rattle.std.specs.Prelude.{◌≡◌, ◌+◌, ◌<◌, ◌≤◌, ◌^◌, false, length, true, Ok, OnOk};
ghost use Rattle.tmpl_values.specs.Truth.{truth};
ghost use Rattle.tmpl_values.specs.View.{is_kept};
ghost use Rattle.tmpl_meaning.specs.View.{rules_of};
ghost use Rattle.tmpl_code.specs.Instruction as code;
ghost use Rattle.tmpl_engine.specs.Cell.{slot};
ghost use Rattle.tmpl_engine.specs.computed.Machines.{without_bytes};
ghost use Rattle.tmpl_engine.specs.computed.Plain.{Steady, SteadyOr};
ghost use Rattle.tmpl_engine.specs.Ready.{RoomIf};
ghost use Rattle.tmpl_engine.specs.computed.Turned.{Executed, StepTaken, TurnedOr, TurnedUnder};
ghost use Rattle.tmpl_engine.specs.computed.View.{cells_of, size_of};

use crate::flow::Flow;
use crate::halt::Halt;
use crate::machine::Machine;
use std::mem;
use tmpl_meaning::{Options, RunFaultKind};
use tmpl_values::Cell;

impl<'m, 'a> Machine<'m, 'a> {
    /// Takes a step at this line, or stops where none is left.
    #[inline(always)]
    pub(crate) fn take_step(&mut self, options: &Options, line: u64) -> Result<(), Halt<'a>>
        ensures { StepTaken options.now.steps line self.old self.new result }
    {
        self.line = line;
        if self.left == 0 {
            return Err(Halt::Fault(RunFaultKind::StepsSpent(options.steps)));
        }
        self.left -= 1;
        Ok(())
    }

    /// Takes a step at this line, and goes to the next instruction.
    pub(crate) fn spend(&mut self, options: &Options, line: u64) -> Result<Flow, Halt<'a>>
        requires place { self.old.place + 1 < 2 ^ 64 }
        ensures step { TurnedUnder (rules_of options.now) (λ _. Unit {0}) (code.spend line) self.old self.new result }
        ensures steady { SteadyOr result self.old self.new }
    {
        self.take_step(options, line)?;
        self.place += 1;
        Ok(Flow::On)
    }

    /// Forgets this many cells and goes to where a jump ends.
    pub(crate) fn forget(&mut self, count: usize, skip: usize) -> Flow
        requires place { self.old.place + 1 + skip < 2 ^ 64 }
        requires found { count ≤ length (cells_of self.old.stack) }
        ensures step { Executed without_bytes (code.forget count skip) self.old self.new (Ok result) }
        ensures steady { Steady self.old self.new }
    {
        self.stack.pop(count);
        self.place += 1 + skip;
        Flow::On
    }

    /// Goes on with the body of an `if` where the newest value is not empty, and with its other part else.
    pub(crate) fn branch(&mut self, kept: bool, skip: usize) -> Flow
        requires found { 1 ≤ length (cells_of self.old.stack) }
        requires body { self.old.place + 1 < 2 ^ 64 }
        requires other { truth (slot 0 (cells_of self.old.stack)) ≡ false → self.old.place + 1 + skip < 2 ^ 64 }
        ensures step { Executed without_bytes (code.unless kept skip) self.old self.new (Ok result) }
        ensures steady { Steady self.old self.new }
    {
        self.place += 1;
        if !self.stack.holds() {
            self.place += skip;
        }
        if !kept {
            self.stack.pop(1);
        }
        Flow::On
    }

    /// Where the newest value is not empty it becomes dot, and the dot from outside is saved; else goes on with the
    /// other part.
    pub(crate) fn open_with(&mut self, kept: bool, skip: usize) -> Result<Flow, Halt<'a>>
        requires found { 1 ≤ length (cells_of self.old.stack) }
        requires room { RoomIf kept (length (cells_of self.old.stack)) (size_of self.old.stack) }
        requires body { self.old.place + 1 < 2 ^ 64 }
        requires other { truth (slot 0 (cells_of self.old.stack)) ≡ false → self.old.place + 1 + skip < 2 ^ 64 }
        ensures step { TurnedOr without_bytes (code.enter_with kept skip) self.old self.new result }
        ensures dot { truth (slot 0 (cells_of self.old.stack)) ≡ true
            → OnOk result (is_kept self.new.dot ≡ true) }
        ensures steady { SteadyOr result self.old self.new }
    {
        let Cell { val, num } = self.stack.take();
        self.place += 1;
        if !val.truth() {
            self.place += skip;
            if kept {
                self.stack.push(val, num);
            }
            return Ok(Flow::On);
        }
        let val = val.into_shared(self.alloc)?;
        if kept {
            self.stack.push(val.share()?, num);
        }
        let outer = mem::replace(&mut self.dot, val);
        self.stack.push(outer, 0);
        Ok(Flow::On)
    }

    /// Ends the body of a `with`: takes dot back from the cell below this many, and forgets the variables of the header.
    pub(crate) fn close_with(&mut self, count: usize, variables: usize, skip: usize) -> Flow
        requires place { self.old.place + 1 + skip < 2 ^ 64 }
        requires found { count + 1 + variables ≤ length (cells_of self.old.stack) }
        ensures step { Executed without_bytes (code.end_with count variables skip) self.old self.new (Ok result) }
        ensures steady { Steady self.old self.new }
    {
        self.stack.pop(count);
        let outer = self.stack.take().val;
        self.replace_dot(outer);
        self.stack.pop(variables);
        self.place += 1 + skip;
        Flow::On
    }
}
