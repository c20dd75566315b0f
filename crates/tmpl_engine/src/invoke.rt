//! Calls of templates.
ghost use Rattle.std.specs.Prelude.{◌≡◌, ◌+◌, ◌<◌, ◌≤◌, ◌^◌, Ok, OnOk, length, true};
ghost use Rattle.tmpl_values.specs.View.{is_kept};
ghost use Rattle.tmpl_meaning.specs.View.{rules_of};
ghost use Rattle.tmpl_code.specs.Instruction as code;
ghost use Rattle.tmpl_engine.specs.computed.Machines.{without_bytes};
ghost use Rattle.tmpl_engine.specs.computed.Plain.{Steady, SteadyOr};
ghost use Rattle.tmpl_engine.specs.computed.Plan.{plan_of};
ghost use Rattle.tmpl_engine.specs.computed.Turned.{Executed, TurnedOr, TurnedUnder};
ghost use Rattle.tmpl_engine.specs.computed.View.{cells_of, size_of};

use crate::flow::Flow;
use crate::halt::Halt;
use crate::machine::Machine;
use crate::stack::keep;
use tmpl_code::Parts;
use tmpl_meaning::{Options, RunFaultKind};
use tmpl_values::Val;

impl<'m, 'a> Machine<'m, 'a> {
    /// Looks, before a call at this line, whether a step is left and one more template may be inside the others.
    pub(crate) fn deepen(&mut self, options: &Options, line: u64) -> Result<Flow, Halt<'a>>
        requires place { self.old.place + 1 < 2 ^ 64 }
        ensures step { TurnedUnder (rules_of options.now) (λ _. Unit {0}) (code.deepen line) self.old self.new result }
        ensures steady { SteadyOr result self.old self.new }
    {
        self.line = line;
        if self.left == 0 {
            return Err(Halt::Fault(RunFaultKind::StepsSpent(options.steps)));
        }
        if self.depth >= options.depth as u64 {
            return Err(Halt::Fault(RunFaultKind::CallsTooDeep(options.depth)));
        }
        self.place += 1;
        Ok(Flow::On)
    }

    /// Takes a step and runs the template of this number over the newest value.
    #[tactic(auto, using(crate::proofs::TurnLemmas::starts))]
    pub(crate) fn invoke(
        &mut self,
        program: &Parts,
        options: &Options,
        number: usize,
    ) -> Result<Flow, Halt<'a>>
        requires number { number < length program.now.starts.items }
        requires found { 1 ≤ length (cells_of self.old.stack) }
        requires room { length (cells_of self.old.stack) + 2 ≤ size_of self.old.stack }
        requires depth { self.old.depth + 1 < 2 ^ 64 }
        requires place { self.old.place + 1 < 2 ^ 64 }
        ensures step { TurnedOr (plan_of options.now program.now) (code.invoke number) self.old self.new result }
        ensures kept { OnOk result (is_kept self.new.dot ≡ true) }
        ensures steady { SteadyOr result self.old self.new }
    {
        if self.left == 0 {
            return Err(Halt::Fault(RunFaultKind::StepsSpent(options.steps)));
        }
        self.left -= 1;
        self.stack.exchange(&mut self.dot, self.template as u64);
        keep(&mut self.dot, self.alloc)?;
        self.stack.push(Val::Nothing, self.place as u64 + 1);
        self.stack.push_shared(&self.dot)?;
        self.template = number;
        self.depth += 1;
        self.place = program.starts.as_slice()[number];
        Ok(Flow::On)
    }

    /// Ends a template: forgets this many cells and its own, and goes on where its caller does. The run is over where
    /// there is no caller.
    pub(crate) fn return_from(&mut self, count: usize) -> Flow
        requires found { 1 < self.old.depth → count + 3 ≤ length (cells_of self.old.stack) }
        ensures step { Executed without_bytes (code.return_from count) self.old self.new (Ok result) }
        ensures steady { Steady self.old self.new }
    {
        if self.depth <= 1 {
            return Flow::Over;
        }
        self.stack.pop(count);
        self.stack.pop(1);
        let back = self.stack.counted(0);
        self.stack.pop(1);
        self.template = self.stack.counted(0) as usize;
        self.stack.exchange(&mut self.dot, 0);
        self.stack.pop(1);
        self.depth -= 1;
        self.place = back as usize;
        Flow::On
    }
}
