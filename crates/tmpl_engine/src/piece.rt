//! Memory in which bytes wait for a sink.
ghost use Rattle.std.specs.Prelude.{◌≡◌, ◌+◌, ◌-◌, ◌<◌, ◌≤◌, ◌++◌, [], drop, false, length, take, true};
ghost use Rattle.std.specs.Fmt.{decimal};

use itoa::write_digits;

/// How many digits a number of 64 bits has at most.
pub(crate) const MOST_DIGITS: usize = 20;

/// Memory in which bytes wait for a sink, so that it is given many at once.
#[derive(Drop)]
pub(crate) struct LentPiece<'m> {
    bytes: &'m mut [u8],
    /// Those before it were given.
    start: usize,
    /// Those from it on are free.
    end: usize,
    ghost order: { start ≤ end },
    ghost within: { end ≤ length bytes.now },
}

impl<'m> LentPiece<'m> {
    ghost use Rattle.tmpl_engine.specs.computed.Output.{waiting};

    /// Nothing waits.
    pub(crate) fn new(bytes: &'m mut [u8]) -> LentPiece<'m>
        ensures { waiting result ≡ [] }
    {
        LentPiece {
            bytes,
            start: 0,
            end: 0,
        }
    }

    /// Whether nothing waits.
    pub(crate) fn is_empty(&self) -> bool
        ensures none { result ≡ true → waiting self.now ≡ [] }
        ensures some { result ≡ false → 0 < length (waiting self.now) }
    {
        self.start == self.end
    }

    /// How many bytes fit after what waits.
    pub(crate) fn room(&self) -> usize
        ensures { result ≡ length self.now.bytes.now - self.now.end }
    {
        self.bytes.len() - self.end
    }

    /// What waits.
    pub(crate) fn waiting(&self) -> &[u8]
        ensures { result.now ≡ waiting self.now }
    {
        &self.bytes[self.start..self.end]
    }

    /// The bytes wait after those that do.
    pub(crate) fn keep(&mut self, bytes: &[u8])
        requires { length bytes.now ≤ length self.old.bytes.now - self.old.end }
        ensures { waiting self.new ≡ waiting self.old ++ bytes.now }
    {
        let end = self.end;
        copy_after(self.bytes, end, bytes);
        self.end += bytes.len();
    }

    /// The digits of a number wait after what does. There is room for the most digits that one has.
    #[tactic(auto, using(crate::proofs::PieceLemmas::kept))]
    pub(crate) fn keep_number(&mut self, number: u64)
        requires { 20 ≤ length self.old.bytes.now - self.old.end }
        ensures { waiting self.new ≡ waiting self.old ++ decimal number }
    {
        let end = self.end;
        self.end = copy_number(self.bytes, end, number);
    }

    /// This many of the bytes that waited were given.
    #[tactic(auto, using(crate::proofs::PieceLemmas::passed))]
    pub(crate) fn pass(&mut self, count: usize)
        requires { count ≤ length (waiting self.old) }
        ensures { waiting self.new ≡ drop count (waiting self.old) }
    {
        self.start += count;
    }

    /// Nothing waits any more, and all the memory is free.
    pub(crate) fn clear(&mut self)
        ensures { waiting self.new ≡ [] }
    {
        self.start = 0;
        self.end = 0;
    }
}

/// Copies the bytes to after those before `end`. A single one, as the end of a line, is worth no call.
#[inline(always)]
fn copy_after(all: &mut [u8], end: usize, bytes: &[u8])
    requires { end + length bytes.now ≤ length all.old }
    ensures copied { take (end + length bytes.now) all.new ≡ take end all.old ++ bytes.now }
    ensures size { length all.new ≡ length all.old }
{
    match bytes {
        [byte] => all[end] = *byte,
        _ => {
            let after = end + bytes.len();
            all[end..after].copy_from_slice(bytes);
        }
    }
}

/// Writes the digits of a number after the bytes before `end`, and says where they end. As many bytes are copied as
/// the most digits take, since a copy of a known length is no call; what lies after the digits is free.
fn copy_number(all: &mut [u8], end: usize, number: u64) -> usize
    requires { end + 20 ≤ length all.old }
    ensures copied { take result all.new ≡ take end all.old ++ decimal number }
    ensures order { end ≤ result }
    ensures within { result ≤ length all.new }
{
    let mut digits = [0; 2 * MOST_DIGITS];
    let start = write_digits(number, &mut digits, MOST_DIGITS);
    copy_after(all, end, &digits[start..start + MOST_DIGITS]);
    end + (MOST_DIGITS - start)
}
