//! What stands after an opening quote, up to its closing one.
ghost use Rattle.std.specs.Prelude.{◌≡◌, ◌≤◌, ◌==◌, ◌&&◌, IfSome, false, length, not};
ghost use Rattle.tmpl_lex.specs.computed.Quoted as spec;
ghost use Rattle.tmpl_lex.specs.computed.View.{taken_of};

use memchr::memchr;

/// How many bytes there are up to and with the next such byte.
#[tactic(auto, using(crate::proofs::QuotedLemmas::finds))]
pub(crate) fn through_len(byte: u8, bytes: &[u8]) -> Option<usize>
    ensures value { taken_of bytes.now result ≡ spec.through byte bytes.now }
    ensures within { IfSome result (λ n. n ≤ length bytes.now) }
{
    Some(memchr(byte, bytes)? + 1)
}

/// How many bytes there are up to and with the next such quote that no backslash escapes, with no
/// newline among them.
pub(crate) fn quoted_len(quote: u8, bytes: &[u8]) -> Option<usize>
    ensures value { taken_of bytes.now result ≡ spec.quoted_front quote false bytes.now }
    ensures within { IfSome result (λ n. n ≤ length bytes.now) }
{
    let mut escaped = false;
    for (i, byte) in bytes.iter().enumerate() {
        if *byte == b'\n' {
            return None;
        }
        if is_bare(*byte, quote, escaped) {
            return Some(i + 1);
        }
        escaped = is_bare(*byte, b'\\', escaped);
    }
    None
}

/// Whether the byte is this sign, and no backslash before it escapes it.
fn is_bare(byte: u8, sign: u8, escaped: bool) -> bool
    ensures { result ≡ (byte == sign && not escaped) }
{
    byte == sign && !escaped
}
