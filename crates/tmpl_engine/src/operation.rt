//! Steps of pipelines.
ghost use Rattle.std.specs.Prelude.{◌≡◌, ◌+◌, ◌-◌, ◌<◌, ◌≤◌, ◌∷◌, ◌^◌, Ok, false, length, true};
ghost use Rattle.tmpl_values.specs.View.{is_made, val_of};
ghost use Rattle.tmpl_funcs.specs.Answer.{IsBorrowed};
ghost use Rattle.tmpl_funcs.specs.Func.{is_called, makes_text};
ghost use Rattle.tmpl_meaning.specs.Pipeline.{chain, decides};
ghost use Rattle.tmpl_meaning.specs.View.{cause_of, value_seen};
ghost use Rattle.tmpl_code.specs.Code.{piped_count};
ghost use Rattle.tmpl_code.specs.Instruction.{act, call_with, chained, decide, push_dot, push_fields, push_slot};
ghost use Rattle.tmpl_code.specs.Instruction.{settle};
ghost use Rattle.tmpl_code.specs.View.{names_seen, refusal_of};
ghost use Rattle.tmpl_engine.specs.Cell.{fresh, slot};
ghost use Rattle.tmpl_engine.specs.computed.Machines.{by_mode, state_of, without_bytes};
ghost use Rattle.tmpl_engine.specs.computed.Plain.{IsPlain, SparedOr, Steady, SteadyOr, SteadyUnless};
ghost use Rattle.tmpl_engine.specs.Step as pipe;
ghost use Rattle.tmpl_engine.specs.computed.Turned.{Executed, IsFound, TurnedOr};
ghost use Rattle.tmpl_engine.specs.computed.View.{IsSameRoom, cells_of, size_of};

use crate::flow::Flow;
use crate::halt::Halt;
use crate::machine::Machine;
use crate::stack::piped_count;
use tmpl_code::{CommandError, Names, letters_at};
use tmpl_funcs::{CallError, CallFault, Func};
use tmpl_meaning::{MissingKey, RunFaultKind, decides};
use tmpl_values::Val;

/// Why a run stops at what the form of a command refuses.
pub(crate) fn fault_for<'a>(why: CommandError) -> RunFaultKind<'a>
    ensures { cause_of result ≡ pipe.cause_of (refusal_of why) }
{
    match why {
        CommandError::NotAFunction => RunFaultKind::NotAFunction,
        CommandError::NilCommand => RunFaultKind::NilCommand,
        CommandError::WrongCount(func) => RunFaultKind::Call(func, CallFault::WrongCount),
    }
}

/// The field of the field of .. of a value, by these names.
fn field_chain<'a>(
    missing_key: MissingKey,
    value: Val<'a>,
    names: Names<'a>,
) -> Result<Val<'a>, RunFaultKind<'a>>
    ensures value { value_seen result ≡ chain missing_key (names_seen names.entry) (val_of value.entry) }
    ensures borrowed { is_made value.entry ≡ false → IsBorrowed result }
{
    let mut value = value;
    for span in names.spans {
        value = missing_key.field(&value, letters_at(names.letters, *span))?;
    }
    Ok(value)
}

impl<'m, 'a> Machine<'m, 'a> {
    /// Puts a value, and goes to the next instruction.
    pub(crate) fn give(&mut self, val: Val<'a>)
        requires room { length (cells_of self.old.stack) < size_of self.old.stack }
        requires place { self.old.place + 1 < 2 ^ 64 }
        ensures step { state_of self.new ≡ record (state_of self.old) {
          cells = fresh (val_of val.entry) ∷ cells_of self.old.stack;
          place = self.old.place + 1;
        } }
        ensures plain { is_made val.entry ≡ false → IsPlain self.old → IsPlain self.new }
        ensures size { IsSameRoom self.old.stack self.new.stack }
    {
        self.stack.push(val, 0);
        self.place += 1;
    }

    /// Puts dot.
    pub(crate) fn push_dot(&mut self) -> Result<Flow, Halt<'a>>
        requires room { length (cells_of self.old.stack) < size_of self.old.stack }
        requires place { self.old.place + 1 < 2 ^ 64 }
        ensures step { TurnedOr without_bytes (act push_dot) self.old self.new result }
        ensures steady { SteadyOr result self.old self.new }
    {
        self.stack.push_shared(&self.dot)?;
        self.place += 1;
        Ok(Flow::On)
    }

    /// The field of the field of .. of dot, by these names.
    #[inline(always)]
    pub(crate) fn field_of_dot(
        &self,
        missing_key: MissingKey,
        names: Names<'a>,
    ) -> Result<Val<'a>, Halt<'a>>
        ensures found { IsFound missing_key (names_seen names.entry) (val_of self.now.dot) result }
        ensures no_spurious_oom { is_made self.now.dot ≡ false → SparedOr result (Unit {0}) }
        ensures borrowed { is_made self.now.dot ≡ false → IsBorrowed result }
    {
        Ok(match names.spans {
            [span] => missing_key.field(&self.dot, letters_at(names.letters, *span))?,
            _ => field_chain(missing_key, self.dot.share()?, names)?,
        })
    }

    /// Puts the field of the field of .. of dot, by these names.
    pub(crate) fn push_fields(
        &mut self,
        missing_key: MissingKey,
        names: Names<'a>,
    ) -> Result<Flow, Halt<'a>>
        requires room { length (cells_of self.old.stack) < size_of self.old.stack }
        requires place { self.old.place + 1 < 2 ^ 64 }
        ensures step { TurnedOr (by_mode missing_key) (act (push_fields (names_seen names.entry))) self.old self.new result }
        ensures steady { SteadyOr result self.old self.new }
    {
        let val = self.field_of_dot(missing_key, names)?;
        self.give(val);
        Ok(Flow::On)
    }

    /// Puts the value of a slot once more.
    pub(crate) fn push_slot(&mut self, slot: usize) -> Result<Flow, Halt<'a>>
        requires found { slot < length (cells_of self.old.stack) }
        requires room { length (cells_of self.old.stack) < size_of self.old.stack }
        requires place { self.old.place + 1 < 2 ^ 64 }
        ensures step { TurnedOr without_bytes (act (push_slot slot)) self.old self.new result }
        ensures steady { SteadyOr result self.old self.new }
    {
        self.stack.push_slot(slot)?;
        self.place += 1;
        Ok(Flow::On)
    }

    /// Takes the newest value for its field of a field of .., by these names.
    pub(crate) fn chain(
        &mut self,
        missing_key: MissingKey,
        names: Names<'a>,
    ) -> Result<Flow, Halt<'a>>
        requires found { 1 ≤ length (cells_of self.old.stack) }
        requires place { self.old.place + 1 < 2 ^ 64 }
        ensures step { TurnedOr (by_mode missing_key) (act (chained (names_seen names.entry))) self.old self.new result }
        ensures steady { SteadyOr result self.old self.new }
    {
        let whole = self.stack.take().val;
        let val = field_chain(missing_key, whole, names)?;
        self.give(val);
        Ok(Flow::On)
    }

    /// Calls a function over this many of the newest values, and a piped one, if it lies below them.
    #[tactic(auto, using(crate::proofs::ArgumentLemmas::calls))]
    pub(crate) fn call(&mut self, func: Func, count: usize, piped: bool) -> Result<Flow, Halt<'a>>
        requires called { is_called func ≡ true }
        requires found { count + piped_count piped ≤ length (cells_of self.old.stack) }
        requires room { length (cells_of self.old.stack) - (count + piped_count piped) < size_of self.old.stack }
        requires place { self.old.place + 1 < 2 ^ 64 }
        ensures step { TurnedOr without_bytes (act (call_with func count piped)) self.old self.new result }
        ensures steady { SteadyUnless (makes_text func) result self.old self.new }
    {
        let alloc = self.alloc;
        match self.stack.call(alloc, func, count, piped) {
            Ok(val) => {
                self.give(val);
                Ok(Flow::On)
            }
            Err(CallError::Fault(fault)) => Err(Halt::Fault(RunFaultKind::Call(func, fault))),
            Err(CallError::OutOfMemory) => Err(Halt::OutOfMemory),
        }
    }

    /// If the top value decides an `or`, or else an `and`, keeps it, drops the piped one and jumps; else pops it.
    pub(crate) fn decide(&mut self, is_or: bool, piped: bool, skip: usize) -> Flow
        requires found { 1 + piped_count piped ≤ length (cells_of self.old.stack) }
        requires place { self.old.place + 1 < 2 ^ 64 }
        requires over { decides is_or (slot 0 (cells_of self.old.stack)) ≡ true → self.old.place + 1 + skip < 2 ^ 64 }
        ensures step { Executed without_bytes (act (decide is_or piped skip)) self.old self.new (Ok result) }
        ensures steady { Steady self.old self.new }
    {
        let val = self.stack.take().val;
        self.place += 1;
        if !decides(is_or, &val) {
            return Flow::On;
        }
        self.place += skip;
        self.stack.pop(piped_count(piped));
        self.stack.push(val, 0);
        Flow::On
    }

    /// A null on top becomes nothing.
    pub(crate) fn settle(&mut self) -> Flow
        requires found { 1 ≤ length (cells_of self.old.stack) }
        requires place { self.old.place + 1 < 2 ^ 64 }
        ensures step { Executed without_bytes (act settle) self.old self.new (Ok result) }
        ensures steady { Steady self.old self.new }
    {
        self.stack.settle();
        self.place += 1;
        Flow::On
    }
}
