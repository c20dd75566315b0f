//! The bytes that tokens are made of, runs of them, and where two bytes follow one another.
ghost use Rattle.std.specs.Prelude.{◌≡◌, ◌≤◌, length, drop};
ghost use Rattle.std.specs.List.{prefix_len};
ghost use Rattle.tmpl_lex.specs.Bytes as spec;
ghost use Rattle.tmpl_lex.specs.computed.Bytes as computed;
ghost use Rattle.tmpl_lex.specs.computed.View.{pair_of};

use memchr::memchr;

/// Whether this is white space: space, tab, carriage return or newline ("Text and spaces" in the
/// documentation of Go's text/template).
pub fn is_space(byte: u8) -> bool
    ensures { result ≡ spec.is_space byte }
{
    matches!(byte, b' ' | b'\t' | b'\r' | b'\n')
}

/// Whether this byte may stand in a name.
pub(crate) fn is_name_byte(byte: u8) -> bool
    ensures { result ≡ spec.is_name_byte byte }
{
    byte.is_ascii_alphanumeric() || byte == b'_' || byte >= 0x80
}

/// Whether this byte may stand in a number after its first digit.
fn is_number_byte(byte: u8) -> bool
    ensures { result ≡ spec.is_number_byte byte }
{
    is_name_byte(byte) || byte == b'.'
}

/// How many bytes of white space there are at the front.
pub(crate) fn white_len(bytes: &[u8]) -> usize
    ensures value { result ≡ prefix_len spec.is_space bytes.now }
    ensures within { result ≤ length bytes.now }
{
    bytes.iter().take_while(|b| is_space(**b)).count()
}

/// How many bytes of a name there are at the front.
pub(crate) fn name_len(bytes: &[u8]) -> usize
    ensures value { result ≡ prefix_len spec.is_name_byte bytes.now }
    ensures within { result ≤ length bytes.now }
{
    bytes.iter().take_while(|b| is_name_byte(**b)).count()
}

/// How many bytes of a number there are at the front, after its first digit.
pub(crate) fn number_len(bytes: &[u8]) -> usize
    ensures value { result ≡ prefix_len spec.is_number_byte bytes.now }
    ensures within { result ≤ length bytes.now }
{
    bytes.iter().take_while(|b| is_number_byte(**b)).count()
}

/// The bytes after this many.
pub(crate) fn skip(bytes: &[u8], len: usize) -> &[u8]
    requires { len ≤ length bytes.now }
    ensures { result.now ≡ drop len bytes.now }
{
    &bytes[len..]
}

/// What stands before the first place where these two bytes follow one another, and what stands
/// after them.
#[tactic(auto, using(crate::proofs::PairLemmas::pairs))]
pub(crate) fn split_pair(bytes: &[u8], first: u8, second: u8) -> Option<(&[u8], &[u8])>
    ensures { pair_of result ≡ computed.split_pair first second bytes.now }
{
    let mut i = find_from(bytes, first, second, 0);
    while i + 1 < bytes.len() {
        if bytes[i] == first && bytes[i + 1] == second {
            return Some((&bytes[..i], &bytes[i + 2..]));
        }
        i = find_from(bytes, first, second, i + 1);
    }
    None
}

/// The next place of the first of these two bytes from this one on, or the end where there is none:
/// the pair does not stand before it.
#[tactic(auto, using(crate::proofs::PairLemmas::passes))]
fn find_from(bytes: &[u8], first: u8, second: u8, from: usize) -> usize
    requires { from ≤ length bytes.now }
    ensures further { from ≤ result }
    ensures within { result ≤ length bytes.now }
    ensures same { computed.split_from first second from bytes.now
        ≡ computed.split_from first second result bytes.now }
{
    match memchr(first, skip(bytes, from)) {
        Some(skipped) => from + skipped,
        None => bytes.len(),
    }
}
