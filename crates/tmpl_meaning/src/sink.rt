//! Where text goes.
ghost use Rattle.std.specs.Prelude.{◌≡◌, ◌-◌, ◌^◌, ◌<◌, ◌≤◌, length, take, IfOk, OnErr};
ghost use Rattle.tmpl_meaning.specs.Sink.{IsPut, Told, as_puts, with_bytes, with_failure};

use tmpl_values::Put;

/// A put that failed.
#[derive(Clone, Copy, Debug, PartialEq, Eq)]
pub struct SinkFault;

/// Takes bytes. Its meaning is the bytes taken so far, which it may leave untold, and how many puts failed, which it
/// always tells.
pub trait Sink {
    ghost so_far: { Self → Told };

    /// Takes some of the bytes, at least one, from the first on, and says how many; or takes none and fails.
    fn put(&mut self, bytes: &[u8]) -> Result<usize, SinkFault>
        requires some { 0 < length bytes.now }
        requires countable { (so_far self.old).failures < 2 ^ 64 - 1 }
        ensures count { IfOk result (λ n. (1 ≤ n) × (n ≤ length bytes.now)) }
        ensures taken { IfOk result (λ n. so_far self.new ≡ with_bytes (take n bytes.now) (so_far self.old)) }
        ensures failed { OnErr result (so_far self.new ≡ with_failure (so_far self.old)) };
}

/// Puts the whole text, by as many puts as it takes. A put that fails is the last one.
pub fn put_all<S: Sink>(sink: &mut S, text: &[u8]) -> Result<(), SinkFault>
    requires { (S.so_far sink.old).failures < 2 ^ 64 - 1 }
    ensures { IsPut result (as_puts (S.so_far sink.old))
        (as_puts (S.so_far sink.new)) text.now }
{
    let mut taken = 0;
    while taken < text.len() {
        taken += sink.put(&text[taken..])?;
    }
    Ok(())
}

/// A sink as something that takes whole texts.
#[derive(Drop)]
pub struct WholePuts<'a, S> {
    /// What takes their bytes.
    pub sink: &'a mut S,
}

impl<'a, S: Sink> Put for WholePuts<'a, S> {
    type Fault = SinkFault;

    ghost so_far = { λ p. record {
      bytes = (S.so_far p.sink.now).bytes;
      failures = (S.so_far p.sink.now).failures;
      through = p.sink.ghost_name;
    } };

    fn put(&mut self, bytes: &[u8]) -> Result<(), SinkFault> {
        put_all(self.sink, bytes)
    }
}
