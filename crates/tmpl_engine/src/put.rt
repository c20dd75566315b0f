//! Instructions that put out bytes.
ghost use Rattle.std.specs.Prelude.{◌∷◌, [], ◌+◌, ◌-◌, ◌<◌, ◌≤◌, ◌^◌, Ok, length};
ghost use Rattle.tmpl_values.specs.Text.{text_of};
ghost use Rattle.tmpl_meaning.specs.Sink.{IsPut};
ghost use Rattle.tmpl_meaning.specs.View.{rules_of};
ghost use Rattle.tmpl_code.specs.Instruction as code;
ghost use Rattle.tmpl_code.specs.View.{names_seen};
ghost use Rattle.tmpl_engine.specs.Cell.{slot};
ghost use Rattle.tmpl_engine.specs.computed.Machines.{without_bytes};
ghost use Rattle.tmpl_engine.specs.computed.Output.{Grows, given_of};
ghost use Rattle.tmpl_engine.specs.computed.Plain.{Steady, SteadyOr, StopsIn};
ghost use Rattle.tmpl_engine.specs.computed.Turned.{Executed, HoldsOfEach, put_by, put_out};
ghost use Rattle.tmpl_engine.specs.computed.View.{cells_of};
ghost use Rattle.tmpl_engine.specs.declared.flow.Flow.TheVariants as flow;

use crate::flow::Flow;
use crate::halt::Halt;
use crate::machine::Machine;
use crate::piece::LentPiece;
use tmpl_code::Names;
use tmpl_meaning::{Options, Sink, SinkFault};

impl<'m, 'a> Machine<'m, 'a> {
    /// Takes the newest value, and puts out its text.
    pub(crate) fn show<S: Sink>(
        &mut self,
        piece: &mut LentPiece<'_>,
        sink: &mut S,
    ) -> Result<(), SinkFault>
        requires place { self.old.place + 1 < 2 ^ 64 }
        requires found { 1 ≤ length (cells_of self.old.stack) }
        requires failures { (S.so_far sink.old).failures < 2 ^ 64 - 1 }
        ensures step { Executed without_bytes code.show self.old self.new (Ok flow.On) }
        ensures given { IsPut result (given_of (S.so_far sink.old) piece.old) (given_of (S.so_far sink.new) piece.new)
            (text_of (slot 0 (cells_of self.old.stack))) }
        ensures taken { Grows (S.so_far sink.old) (S.so_far sink.new) }
        ensures steady { Steady self.old self.new }
        ensures template { StopsIn result self.old self.new }
    {
        self.place += 1;
        let put = self.stack.show_slot(0, piece, sink);
        self.stack.pop(1);
        put
    }

    /// Takes a step at this line, and puts out the text of a field of a field of .. of dot.
    #[inline(always)]
    pub(crate) fn show_fields<S: Sink>(
        &mut self,
        options: &Options,
        line: u64,
        names: Names<'a>,
        piece: &mut LentPiece<'_>,
        sink: &mut S,
    ) -> Result<Flow, Halt<'a>>
        requires place { self.old.place + 1 < 2 ^ 64 }
        requires failures { (S.so_far sink.old).failures < 2 ^ 64 - 1 }
        ensures step { HoldsOfEach (rules_of options.now) (λ plan.
            Executed plan (code.show_fields line (names_seen names.entry)) self.old self.new result) }
        ensures given { IsPut (put_by result) (given_of (S.so_far sink.old) piece.old)
            (given_of (S.so_far sink.new) piece.new)
            (put_out options.now.missing_key (code.show_fields line (names_seen names.entry)) self.old result) }
        ensures taken { Grows (S.so_far sink.old) (S.so_far sink.new) }
        ensures steady { SteadyOr result self.old self.new }
    {
        self.take_step(options, line)?;
        let val = self.field_of_dot(options.missing_key, names)?;
        self.place += 1;
        piece.show(sink, &val)?;
        Ok(Flow::On)
    }

    /// Takes a step at this line, and puts out the text of a field of the value of a slot.
    #[inline(always)]
    pub(crate) fn show_slot_field<S: Sink>(
        &mut self,
        options: &Options,
        line: u64,
        slot: usize,
        name: &'a [u8],
        piece: &mut LentPiece<'_>,
        sink: &mut S,
    ) -> Result<Flow, Halt<'a>>
        requires found { slot < length (cells_of self.old.stack) }
        requires place { self.old.place + 1 < 2 ^ 64 }
        requires failures { (S.so_far sink.old).failures < 2 ^ 64 - 1 }
        ensures step { HoldsOfEach (rules_of options.now) (λ plan.
            Executed plan (code.show_slot line slot (name.now ∷ [])) self.old self.new result) }
        ensures given { IsPut (put_by result) (given_of (S.so_far sink.old) piece.old)
            (given_of (S.so_far sink.new) piece.new)
            (put_out options.now.missing_key (code.show_slot line slot (name.now ∷ [])) self.old result) }
        ensures taken { Grows (S.so_far sink.old) (S.so_far sink.new) }
        ensures steady { SteadyOr result self.old self.new }
    {
        self.take_step(options, line)?;
        let val = self.stack.field(slot, options.missing_key, name)?;
        self.place += 1;
        piece.show(sink, &val)?;
        Ok(Flow::On)
    }
}
