//! Kinds of bytes in a format.
ghost use Rattle.std.specs.Prelude.{◌≡◌, ◌≤◌, length};
ghost use Rattle.std.specs.List.{prefix_len};
ghost use Rattle.tmpl_funcs.specs.computed.Class.{in_class};

/// A kind of bytes.
#[derive(Clone, Copy)]
pub(crate) enum Class {
    /// Any byte but `%`.
    Plain,
    /// One of `-`, `+`, `0` and space.
    Flag,
    /// A decimal digit.
    Digit,
}

impl Class {
    /// How many bytes of this kind stand at the front.
    pub(crate) fn front_len(self, bytes: &[u8]) -> usize
        ensures within { result ≤ length bytes.now }
        ensures longest { result ≡ prefix_len (in_class self) bytes.now }
    {
        for (i, byte) in bytes.iter().enumerate() {
            if !self.has(*byte) {
                return i;
            }
        }
        bytes.len()
    }

    /// Whether a byte is of this kind.
    fn has(self, byte: u8) -> bool
        ensures { result ≡ in_class self byte }
    {
        match self {
            Class::Plain => byte != b'%',
            Class::Flag => matches!(byte, b'-' | b'+' | b'0' | b' '),
            Class::Digit => byte.is_ascii_digit(),
        }
    }
}
