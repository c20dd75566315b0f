//! What a run puts out.
ghost use Rattle.std.specs.Prelude.{◌≡◌, ◌-◌, ◌<◌, ◌^◌, [], OnOk};
ghost use Rattle.std.specs.Fmt.{signed_decimal};
ghost use Rattle.tmpl_values.specs.Text.{text_of};
ghost use Rattle.tmpl_values.specs.View.{val_of};
ghost use Rattle.tmpl_meaning.specs.Sink.{IsPut};
ghost use Rattle.tmpl_engine.specs.computed.Output.{Grew, Grows, given_of};

use crate::piece::{LentPiece, MOST_DIGITS};
use itoa::Buffer;
use std::marker::{Brand, PhantomData};
use tmpl_meaning::{Sink, SinkFault, put_all};
use tmpl_values::{Put, Val, put_text};

impl LentPiece<'_> {
    ghost use Rattle.tmpl_engine.specs.computed.Output.{waiting};

    /// Gives the sink what waits. Where it fails, what it did not take still waits.
    pub(crate) fn flush<S: Sink>(&mut self, sink: &mut S) -> Result<(), SinkFault>
        requires { (S.so_far sink.old).failures < 2 ^ 64 - 1 }
        ensures given { IsPut result (given_of (S.so_far sink.old) self.old)
            (given_of (S.so_far sink.new) self.new) [] }
        ensures taken { Grows (S.so_far sink.old) (S.so_far sink.new) }
        ensures rest { OnOk result (waiting self.new ≡ []) }
    {
        while !self.is_empty() {
            let count = sink.put(self.waiting())?;
            self.pass(count);
        }
        self.clear();
        Ok(())
    }

    /// Puts bytes. Where they do not fit after what waits, that goes first.
    #[inline(always)]
    pub(crate) fn put<S: Sink>(&mut self, sink: &mut S, bytes: &[u8]) -> Result<(), SinkFault>
        requires { (S.so_far sink.old).failures < 2 ^ 64 - 1 }
        ensures given { IsPut result (given_of (S.so_far sink.old) self.old)
            (given_of (S.so_far sink.new) self.new) bytes.now }
        ensures taken { Grows (S.so_far sink.old) (S.so_far sink.new) }
    {
        if bytes.len() > self.room() {
            return self.put_after(sink, bytes);
        }
        self.keep(bytes);
        Ok(())
    }

    /// Gives the sink what waits, and puts bytes after it; those that do not fit at all do not wait.
    #[tactic(auto, using(crate::proofs::OutputLemmas::putting))]
    #[inline(never)]
    fn put_after<S: Sink>(&mut self, sink: &mut S, bytes: &[u8]) -> Result<(), SinkFault>
        requires { (S.so_far sink.old).failures < 2 ^ 64 - 1 }
        ensures given { IsPut result (given_of (S.so_far sink.old) self.old)
            (given_of (S.so_far sink.new) self.new) bytes.now }
        ensures taken { Grows (S.so_far sink.old) (S.so_far sink.new) }
    {
        self.flush(sink)?;
        if bytes.len() > self.room() {
            return put_all(sink, bytes);
        }
        self.keep(bytes);
        Ok(())
    }

    /// Puts a number in base 10.
    pub(crate) fn put_number<S: Sink>(&mut self, sink: &mut S, number: i64) -> Result<(), SinkFault>
        requires { (S.so_far sink.old).failures < 2 ^ 64 - 1 }
        ensures given { IsPut result (given_of (S.so_far sink.old) self.old) (given_of (S.so_far sink.new) self.new)
            (signed_decimal number) }
        ensures taken { Grows (S.so_far sink.old) (S.so_far sink.new) }
    {
        if number >= 0 && self.room() >= MOST_DIGITS {
            self.keep_number(number as u64);
            return Ok(());
        }
        self.put_any_number(sink, number)
    }

    /// Puts a number in base 10, whatever the room. It is no part of what puts most numbers, whose frame it would widen.
    #[inline(never)]
    fn put_any_number<S: Sink>(&mut self, sink: &mut S, number: i64) -> Result<(), SinkFault>
        requires { (S.so_far sink.old).failures < 2 ^ 64 - 1 }
        ensures given { IsPut result (given_of (S.so_far sink.old) self.old) (given_of (S.so_far sink.new) self.new)
            (signed_decimal number) }
        ensures taken { Grows (S.so_far sink.old) (S.so_far sink.new) }
    {
        let mut buffer = Buffer::new();
        self.put(sink, buffer.format(number).as_bytes())
    }

    /// Puts the text that a value has as an action. Numbers take the short way.
    #[inline(always)]
    pub(crate) fn show<S: Sink>(&mut self, sink: &mut S, value: &Val<'_>) -> Result<(), SinkFault>
        requires { (S.so_far sink.old).failures < 2 ^ 64 - 1 }
        ensures given { IsPut result (given_of (S.so_far sink.old) self.old) (given_of (S.so_far sink.new) self.new)
            (text_of (val_of value.now)) }
        ensures taken { Grows (S.so_far sink.old) (S.so_far sink.new) }
    {
        match value {
            Val::Num(number) => self.put_number(sink, *number),
            _ => self.show_other(sink, value),
        }
    }

    /// Puts the text of a value that is no number. Those that are a single put take the short way.
    #[tactic(auto, using(crate::proofs::OutputLemmas::text_of_bytes))]
    fn show_other<S: Sink>(&mut self, sink: &mut S, value: &Val<'_>) -> Result<(), SinkFault>
        requires { (S.so_far sink.old).failures < 2 ^ 64 - 1 }
        ensures given { IsPut result (given_of (S.so_far sink.old) self.old) (given_of (S.so_far sink.new) self.new)
            (text_of (val_of value.now)) }
        ensures taken { Grows (S.so_far sink.old) (S.so_far sink.new) }
    {
        if let Some(text) = value.bytes() {
            return self.put(sink, text);
        }
        match value {
            Val::Bool(true) => self.put(sink, b"true"),
            Val::Bool(false) => self.put(sink, b"false"),
            _ => put_any::<S, Brand>(self, sink, value),
        }
    }
}

/// Where an output began, for proofs: what its sink had taken.
trait Beginning {
    ghost use Rattle.tmpl_meaning.specs.Sink.{Told};

    ghost taken: { Told };
}

impl Beginning for Brand {
    ghost use Rattle.std.specs.Prelude.{None};

    ghost taken = { record { bytes = None; failures = 0 } };
}

/// A piece and the sink after it, as one that takes bytes.
#[derive(Drop)]
struct Output<'p, 'm, 's, S: Sink, B: Beginning> {
    piece: &'p mut LentPiece<'m>,
    sink: &'s mut S,
    beginning: PhantomData<B>,
    ghost grew: { Grew B.taken (S.so_far sink.now) },
}

impl<'p, 'm, 's, S: Sink, B: Beginning> Put for Output<'p, 'm, 's, S, B> {
    ghost use Rattle.tmpl_engine.specs.computed.Output.{both};

    type Fault = SinkFault;

    ghost so_far = { λ p. record (given_of (S.so_far p.sink.now) p.piece.now) {
      through = both p.piece.ghost_name p.sink.ghost_name;
    } };

    fn put(&mut self, bytes: &[u8]) -> Result<(), SinkFault> {
        self.piece.put(self.sink, bytes)
    }
}

/// Puts the text that a value has as an action, whatever it is.
fn put_any<S: Sink, B: Beginning>(
    piece: &mut LentPiece<'_>,
    sink: &mut S,
    value: &Val<'_>,
) -> Result<(), SinkFault>
    requires failures { (S.so_far sink.old).failures < 2 ^ 64 - 1 }
    requires beginning { S.so_far sink.old ≡ B.taken }
    ensures given { IsPut result (given_of (S.so_far sink.old) piece.old) (given_of (S.so_far sink.new) piece.new)
        (text_of (val_of value.now)) }
    ensures taken { Grows (S.so_far sink.old) (S.so_far sink.new) }
{
    let mut output = Output {
        piece,
        sink,
        beginning: PhantomData::<B>,
    };
    put_text(value, &mut output)
}
