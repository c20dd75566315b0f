//! A writer, such as standard output, as a sink.
ghost use Rattle.std.specs.Prelude.{◌≡◌, true};
ghost use Rattle.std.specs.Io.KnownBytes.{Keeps};
ghost use Rattle.tmpl_engine.specs.Writer.{known_if, write_result};
ghost use Rattle.std.specs.Option.{is_some};

use std::io::{self, Write};
use tmpl_meaning::{Sink, SinkFault};

/// A writer, such as standard output, as a sink. A write of no byte is a failure. What it took is told if the bytes
/// that the writer holds are known, as those of a `Vec<u8>` are, and the sink was made by `over`.
#[derive(Drop)]
pub struct WriterSink<W: Write + Drop> {
    /// The writer. What it holds is what the sink tells that it took, if it tells that.
    pub writer: W,
    /// Whether the sink tells what it took.
    pub tells: bool,
    /// How many puts failed.
    pub failures: u64,
    ghost known: { tells ≡ true → is_some (W.contents writer) ≡ true },
}

impl<W: Write + Drop> WriterSink<W> {
    /// A sink over the writer, with no failure yet, that does not tell what it took.
    pub fn new(writer: W) -> WriterSink<W>
        ensures holds { result.writer ≡ writer }
        ensures no_failures { result.failures ≡ 0 }
    {
        WriterSink {
            writer,
            tells: false,
            failures: 0,
        }
    }

    /// A sink over a writer whose bytes are known, with no failure yet. It tells these bytes and what it took after them.
    pub fn over(writer: W) -> WriterSink<W>
        requires known { is_some (W.contents writer) ≡ true }
        ensures holds { result.writer ≡ writer }
        ensures states_contents { result.tells ≡ true }
        ensures no_failures { result.failures ≡ 0 }
    {
        WriterSink {
            writer,
            tells: true,
            failures: 0,
        }
    }

    /// Flushes the writer.
    pub fn flush(&mut self) -> Result<(), SinkFault>
        ensures bytes { Keeps (W.contents self.old.writer) (W.contents self.new.writer) }
        ensures states_contents { self.new.tells ≡ self.old.tells }
        ensures failures { self.new.failures ≡ self.old.failures }
    {
        match self.writer.flush() {
            Ok(()) => Ok(()),
            Err(_) => Err(SinkFault),
        }
    }
}

impl<W: Write + Drop> Sink for WriterSink<W> {
    ghost so_far = { λ s. record { bytes = known_if s.tells (W.contents s.writer); failures = s.failures } };

    fn put(&mut self, bytes: &[u8]) -> Result<usize, SinkFault> {
        let taken = bytes_taken(self.writer.write(bytes));
        if taken.is_err() {
            self.failures += 1;
        }
        taken
    }
}

/// How many bytes a write took; that it took none is a failure.
fn bytes_taken(written: io::Result<usize>) -> Result<usize, SinkFault>
    ensures { result ≡ write_result written }
{
    match written {
        Ok(0) | Err(_) => Err(SinkFault),
        Ok(count) => Ok(count),
    }
}
