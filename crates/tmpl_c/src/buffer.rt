//! Memory for output.
ghost use Rattle.std.specs.Prelude.{◌≡◌, length, take};
ghost use Rattle.tmpl_c.specs.Filled.{Fills, buffer_seen, room};
ghost use Rattle.tmpl_c.specs.computed.Outputs.{IsSameMemory};

/// A buffer that the caller provides for output. What it held before a call is overwritten from the first byte on.
#[repr(C)]
pub struct Buffer<'a> {
    pub bytes: &'a mut [u8],
    /// How many of the bytes hold output.
    pub taken: usize,
    /// How many bytes the output has in all. Where this is more than there is room for, only the first of them are
    /// there.
    pub needed: usize,
}

impl<'a> Buffer<'a> {
    /// Holds as many of these bytes as there is room for.
    pub(crate) fn hold(&mut self, bytes: &[u8])
        ensures seen { Fills bytes.now (room self.old) (buffer_seen self.new) }
        ensures borrows { IsSameMemory self.old self.new }
    {
        self.taken = copy_to(self.bytes, bytes);
        self.needed = bytes.len();
    }
}

/// Copies as many of the bytes to memory as there is room for, and gives their number.
fn copy_to(memory: &mut [u8], bytes: &[u8]) -> usize
    ensures count { result ≡ length (take (length memory.old) bytes.now) }
    ensures copied { take result memory.new ≡ take (length memory.old) bytes.now }
{
    let count = memory.len().min(bytes.len());
    memory[..count].copy_from_slice(&bytes[..count]);
    count
}
