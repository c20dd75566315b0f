//! The rune at the front of a text.
ghost use Rattle.std.specs.Prelude.{◌≡◌, ◌+◌, ◌<◌, ◌≤◌, length, slice_index, MatchOption};
ghost use Rattle.std.specs.Char.{len_utf8};
ghost use Rattle.std.specs.Str.{continuation_len};
ghost use Rattle.tmpl_values.specs.Rune.{char as char_rune, byte as byte_rune};
ghost use Rattle.tmpl_values.specs.computed.Rune.{first_rune};

/// The character whose well-formed UTF-8 encoding stands at the front, if there is one.
pub fn first_char(bytes: &[u8]) -> Option<char>
    requires { 0 < length bytes.now }
    ensures { MatchOption result
        (first_rune bytes.now ≡ byte_rune (slice_index bytes.now 0))
        (λ c. (first_rune bytes.now ≡ char_rune c) × (len_utf8 c ≤ length bytes.now)) }
{
    let n = char_len(bytes[0]).min(bytes.len());
    match std::str::from_utf8(&bytes[..n]) {
        Ok(text) => text.chars().next(),
        Err(_) => None,
    }
}

/// How many bytes an encoding has that begins with this byte, if one does.
fn char_len(first: u8) -> usize
    ensures { result ≡ continuation_len first + 1 }
{
    match first {
        0..=0x7F => 1,
        0x80..=0xDF => 2,
        0xE0..=0xEF => 3,
        0xF0..=0xFF => 4,
    }
}
