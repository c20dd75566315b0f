//! Memory of a fixed size as something that takes whole texts.
ghost use Rattle.std.specs.Prelude.{◌≤◌, length, take, Some};

use tmpl_values::Put;

/// A text does not fit.
#[derive(Clone, Copy)]
pub(crate) struct Full;

/// Memory that takes texts after the bytes before `end`, until one does not fit: of that it takes nothing.
#[derive(Drop)]
pub(crate) struct Fixed<'m> {
    pub(crate) bytes: &'m mut [u8],
    pub(crate) end: usize,
    /// How many texts did not fit.
    pub(crate) failures: u64,
    ghost within: { end ≤ length bytes.now },
}

impl Put for Fixed<'_> {
    type Fault = Full;

    ghost so_far = { λ p. record {
      bytes = Some (take p.end p.bytes.now);
      failures = p.failures;
      through = p.bytes.ghost_name;
    } };

    fn put(&mut self, bytes: &[u8]) -> Result<(), Full> {
        let end = self.end;
        if bytes.len() > self.bytes.len() - end {
            self.failures += 1;
            return Err(Full);
        }
        let after = end + bytes.len();
        self.bytes[end..after].copy_from_slice(bytes);
        self.end = after;
        Ok(())
    }
}
