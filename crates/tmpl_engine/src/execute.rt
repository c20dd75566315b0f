//! One instruction, whichever it is.
ghost use Rattle.std.specs.Prelude.{◌+◌, ◌-◌, ◌<◌, ◌^◌, false, length};
ghost use Rattle.tmpl_meaning.specs.Sink.{IsPut};
ghost use Rattle.tmpl_code.specs.View.{instruction_of};
ghost use Rattle.tmpl_engine.specs.Machine.{carry_out};
ghost use Rattle.tmpl_engine.specs.computed.Machines.{no_template, state_of};
ghost use Rattle.tmpl_engine.specs.computed.Output.{Grows, given_of};
ghost use Rattle.tmpl_engine.specs.computed.Plain.{SteadyUnless};
ghost use Rattle.tmpl_engine.specs.computed.Near.{HasNear};
ghost use Rattle.tmpl_engine.specs.computed.Plan.{plan_of};
ghost use Rattle.tmpl_engine.specs.computed.Turned.{Executed, IsAble, Lands, mark_after, put_by, put_out};
ghost use Rattle.tmpl_engine.specs.computed.View.{cells_of, size_of};

use crate::flow::Flow;
use crate::halt::Halt;
use crate::machine::Machine;
use crate::operation::fault_for;
use crate::piece::LentPiece;
use tmpl_code::{Instruction, Parts};
use tmpl_meaning::{Options, RunFaultKind, Sink};
use tmpl_values::Val;

impl<'m, 'a> Machine<'m, 'a> {
    /// Carries out an instruction. It is inlined into the loop of a run, so that its answer is not written to memory and
    /// read back for each instruction.
    #[tactic(auto, using(crate::proofs::TurnLemmas::lands))]
    #[inline(always)]
    pub(crate) fn execute<S: Sink>(
        &mut self,
        program: &'a Parts,
        options: &Options,
        instruction: &Instruction,
        piece: &mut LentPiece<'_>,
        sink: &mut S,
    ) -> Result<Flow, Halt<'a>>
        requires place { self.old.place + 1 < 2 ^ 64 }
        requires depth { self.old.depth + 1 < 2 ^ 64 }
        requires ready { HasNear (instruction_of program.now.tables instruction.now) (length (cells_of self.old.stack))
            (size_of self.old.stack) }
        requires lands { Lands (carry_out (plan_of options.now program.now) no_template (instruction_of program.now.tables instruction.now)
            (state_of self.old)) }
        requires able { IsAble (plan_of options.now program.now) (instruction_of program.now.tables instruction.now) (state_of self.old) }
        requires countable { (S.so_far sink.old).failures < 2 ^ 64 - 1 }
        ensures step { Executed (plan_of options.now program.now) (instruction_of program.now.tables instruction.now)
            self.old self.new result }
        ensures given { IsPut (put_by result) (given_of (S.so_far sink.old) piece.old)
            (given_of (S.so_far sink.new) piece.new)
            (put_out options.now.missing_key (instruction_of program.now.tables instruction.now) self.old result) }
        ensures taken { Grows (S.so_far sink.old) (S.so_far sink.new) }
        ensures steady { SteadyUnless (mark_after (instruction_of program.now.tables instruction.now) false)
            result self.old self.new }
    {
        match *instruction {
            Instruction::Spend(line) => self.spend(options, line),
            Instruction::Put { text, line } => {
                self.take_step(options, line as u64)?;
                self.place += 1;
                piece.put(sink, program.tables.text(text))?;
                Ok(Flow::On)
            }
            Instruction::PushNothing => {
                self.give(Val::Nothing);
                Ok(Flow::On)
            }
            Instruction::PushBool(truth) => {
                self.give(Val::Bool(truth));
                Ok(Flow::On)
            }
            Instruction::PushNumber(number) => {
                self.give(Val::Num(number));
                Ok(Flow::On)
            }
            Instruction::PushText(place) => {
                self.give(Val::Text(program.tables.name(place)));
                Ok(Flow::On)
            }
            Instruction::PushDot => self.push_dot(),
            Instruction::PushFields(span) => {
                self.push_fields(options.missing_key, program.tables.names(span))
            }
            Instruction::PushSlot(slot) => self.push_slot(slot as usize),
            Instruction::Chain(span) => self.chain(options.missing_key, program.tables.names(span)),
            Instruction::Call { func, count, piped } => { self.call(func, count as usize, piped) }
            Instruction::Decide { is_or, piped, skip } => {
                Ok(self.decide(is_or, piped, skip as usize))
            }
            Instruction::Settle => Ok(self.settle()),
            Instruction::Refuse(why) => Err(Halt::Fault(fault_for(why))),
            Instruction::RefuseTemplate(place) => {
                Err(Halt::Fault(RunFaultKind::NoTemplate(program.tables.name(place))))
            }
            Instruction::Show => {
                self.show(piece, sink)?;
                Ok(Flow::On)
            }
            Instruction::ShowDot { line } => {
                self.take_step(options, line as u64)?;
                self.place += 1;
                piece.show(sink, &self.dot)?;
                Ok(Flow::On)
            }
            Instruction::ShowFields { names, line } => {
                self.show_fields(
                    options,
                    line as u64,
                    program.tables.names(names),
                    piece,
                    sink,
                )
            }
            Instruction::ShowSlot { slot, line } => {
                self.take_step(options, line as u64)?;
                self.place += 1;
                self.stack.show_slot(slot as usize, piece, sink)?;
                Ok(Flow::On)
            }
            Instruction::ShowSlotField { slot, name, line } => {
                self.show_slot_field(
                    options,
                    line as u64,
                    slot as usize,
                    program.tables.name(name),
                    piece,
                    sink,
                )
            }
            Instruction::Hold { key } => self.hold(key),
            Instruction::Set(slot) => self.set(slot as usize),
            Instruction::SetDot(slot) => self.set_dot(slot as usize),
            Instruction::Unless { kept, skip } => Ok(self.branch(kept, skip as usize)),
            Instruction::EnterWith { kept, skip } => self.open_with(kept, skip as usize),
            Instruction::EndWith {
                count,
                variables,
                skip,
            } => Ok(self.close_with(count as usize, variables as usize, skip as usize)),
            Instruction::Forget { count, skip } => Ok(self.forget(count as usize, skip as usize)),
            Instruction::Enter { key, skip } => { self.open_range(options, key, skip as usize) }
            Instruction::Turn(count) => self.turn(count as usize),
            Instruction::Next { count, skip, line } => {
                self.next(options, count as usize, skip as usize, line as u64)
            }
            Instruction::Leave { count, skip } => Ok(self.leave(count as usize, skip as usize)),
            Instruction::Deepen(line) => self.deepen(options, line),
            Instruction::Invoke(number) => self.invoke(program, options, number as usize),
            Instruction::Return(count) => Ok(self.return_from(count as usize)),
        }
    }
}
