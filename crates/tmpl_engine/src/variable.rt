//! Variables.
ghost use Rattle.std.specs.Prelude.{◌+◌, ◌<◌, ◌≤◌, ◌^◌, length};
ghost use Rattle.tmpl_code.specs.Instruction as code;
ghost use Rattle.tmpl_engine.specs.computed.Machines.{without_bytes};
ghost use Rattle.tmpl_engine.specs.computed.Plain.{SteadyOr};
ghost use Rattle.tmpl_engine.specs.Ready.{RoomIf};
ghost use Rattle.tmpl_engine.specs.computed.Turned.{TurnedOr};
ghost use Rattle.tmpl_engine.specs.computed.View.{cells_of, size_of};

use crate::flow::Flow;
use crate::halt::Halt;
use crate::machine::Machine;
use tmpl_values::{Cell, Val};

impl<'m, 'a> Machine<'m, 'a> {
    /// The newest value becomes a variable; where an index or key is declared too, nothing becomes one below it.
    pub(crate) fn hold(&mut self, key: bool) -> Result<Flow, Halt<'a>>
        requires found { 1 ≤ length (cells_of self.old.stack) }
        requires room { RoomIf key (length (cells_of self.old.stack)) (size_of self.old.stack) }
        requires place { self.old.place + 1 < 2 ^ 64 }
        ensures step { TurnedOr without_bytes (code.hold key) self.old self.new result }
        ensures steady { SteadyOr result self.old self.new }
    {
        let Cell { val, num } = self.stack.take_shared(self.alloc)?;
        if key {
            self.stack.push(Val::Nothing, 0);
        }
        self.stack.push(val, num);
        self.place += 1;
        Ok(Flow::On)
    }

    /// Copies the newest value to a slot, which counts from below it.
    pub(crate) fn set(&mut self, slot: usize) -> Result<Flow, Halt<'a>>
        requires found { slot + 1 < length (cells_of self.old.stack) }
        requires place { self.old.place + 1 < 2 ^ 64 }
        ensures step { TurnedOr without_bytes (code.set slot) self.old self.new result }
        ensures steady { SteadyOr result self.old self.new }
    {
        let Cell { val, num } = self.stack.take_shared(self.alloc)?;
        self.stack.set(slot, val.share()?);
        self.stack.push(val, num);
        self.place += 1;
        Ok(Flow::On)
    }

    /// Copies dot to a slot.
    pub(crate) fn set_dot(&mut self, slot: usize) -> Result<Flow, Halt<'a>>
        requires found { slot < length (cells_of self.old.stack) }
        requires place { self.old.place + 1 < 2 ^ 64 }
        ensures step { TurnedOr without_bytes (code.set_dot slot) self.old self.new result }
        ensures steady { SteadyOr result self.old self.new }
    {
        self.stack.set(slot, self.dot.share()?);
        self.place += 1;
        Ok(Flow::On)
    }
}
