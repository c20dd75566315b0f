//! Whole constants ("Integer literals" in the specification of Go's language).
ghost use Rattle.std.specs.Prelude.{◌≡◌, ◌≤◌, ◌^◌, IfSome, false, filter, option_and_then, true};
ghost use Rattle.std.specs.Char.{is_digit};
ghost use Rattle.std.specs.List.{list_all};
ghost use Rattle.tmpl_grammar.specs.computed.Integer as spec;
ghost use Rattle.tmpl_grammar.specs.computed.Within.{within};

/// The largest magnitude that a whole constant has.
const MOST: u128 = 1 << 63;

/// The number that these bytes spell, if they spell one that fits.
#[tactic(auto, using(crate::proofs::IntegerLemmas::signs), unfolding(crate::specs::computed::Integer::integer))]
pub(crate) fn integer(bytes: &[u8]) -> Option<i64>
    ensures { result ≡ spec.integer bytes.now }
{
    match bytes {
        [] => None,
        [sign, rest @ ..] => {
            if *sign == b'-' {
                apply_sign(true, magnitude(rest))
            } else if *sign == b'+' {
                apply_sign(false, magnitude(rest))
            } else {
                apply_sign(false, magnitude(bytes))
            }
        }
    }
}

/// The magnitude with its sign, if there is one and the number has 64 bits.
fn apply_sign(is_negative: bool, magnitude: Option<u64>) -> Option<i64>
    ensures { result ≡ option_and_then (spec.with_sign is_negative) magnitude }
{
    let n = magnitude?;
    if is_negative {
        negative(n)
    } else {
        positive(n)
    }
}

/// The negative number of this magnitude, if it has 64 bits.
fn negative(n: u64) -> Option<i64>
    ensures { result ≡ spec.with_sign true n }
{
    if n < 1 << 63 {
        Some(-(n as i64))
    } else if n == 1 << 63 {
        Some(i64::MIN)
    } else {
        None
    }
}

/// The positive number of this magnitude, if it has 64 bits.
fn positive(n: u64) -> Option<i64>
    ensures { result ≡ spec.with_sign false n }
{
    i64::try_from(n).ok()
}

/// The number without its sign, if it is at most 2^63.
fn magnitude(bytes: &[u8]) -> Option<u64>
    ensures { result ≡ within (spec.magnitude bytes.now) }
{
    match bytes {
        [b'0', rest @ ..] => after_zero(rest),
        [] | [b'_', ..] => None,
        _ => parted_number(10, bytes),
    }
}

/// The number that a zero and these bytes after it spell, if it is at most 2^63.
fn after_zero(bytes: &[u8]) -> Option<u64>
    ensures { result ≡ within (spec.after_zero bytes.now) }
{
    match bytes {
        [] => Some(0),
        [letter, digits @ ..] => match base_named(*letter) {
            Some(base) => some_number(base, digits),
            None => parted_number(8, bytes),
        },
    }
}

/// The base that a letter after a leading zero names.
fn base_named(letter: u8) -> Option<u32>
    ensures value { result ≡ spec.base_named letter }
    ensures fits { IfSome result (λ base. (2 ≤ base) × (base ≤ 16)) }
{
    match letter {
        b'x' | b'X' => Some(16),
        b'o' | b'O' => Some(8),
        b'b' | b'B' => Some(2),
        _ => None,
    }
}

/// The number that digits write, of which there is at least one.
fn some_number(base: u32, bytes: &[u8]) -> Option<u64>
    requires low { 2 ≤ base }
    requires high { base ≤ 16 }
    ensures { result ≡ within (spec.some_number base bytes.now) }
{
    match bytes {
        [] => None,
        _ => parted_number(base, bytes),
    }
}

/// The number that digits write which single underscores may part.
fn parted_number(base: u32, bytes: &[u8]) -> Option<u64>
    requires low { 2 ≤ base }
    requires high { base ≤ 16 }
    ensures { result ≡ within (spec.parted_number base bytes.now) }
{
    if underscores_part(bytes) {
        number_without(base, bytes)
    } else {
        None
    }
}

/// Whether a byte other than an underscore stands after each underscore.
fn underscores_part(bytes: &[u8]) -> bool
    ensures { result ≡ spec.underscores_part bytes.now }
{
    let mut plain = true;
    for byte in bytes {
        let next = *byte != b'_';
        if !plain && !next {
            return false;
        }
        plain = next;
    }
    plain
}

/// The number that the bytes apart from underscores write.
fn number_without(base: u32, bytes: &[u8]) -> Option<u64>
    requires low { 2 ≤ base }
    requires high { base ≤ 16 }
    ensures { result ≡ within (spec.number_in base (filter spec.is_plain bytes.now)) }
{
    let mut value = 0u64;
    'digits: for byte in bytes {
        if *byte != b'_' {
            let digit = char::from(*byte).to_digit(base)?;
            let next = u128::from(value) * u128::from(base) + u128::from(digit);
            if next > MOST {
                return None;
            }
            value = next as u64;
        }
    }
    Some(value)
}

/// The number that these digits write in a base.
#[tactic(auto, using(crate::proofs::IntegerLemmas::plain))]
pub(crate) fn number_in(base: u32, digits: &[u8]) -> Option<u64>
    requires low { 2 ≤ base }
    requires high { base ≤ 16 }
    ensures { result ≡ within (spec.number_in base digits.now) }
{
    if are_digits(base, digits) {
        number_without(base, digits)
    } else {
        None
    }
}

/// Whether all bytes are digits in a base.
fn are_digits(base: u32, bytes: &[u8]) -> bool
    requires low { 2 ≤ base }
    requires high { base ≤ 16 }
    ensures { result ≡ list_all (λ d. is_digit d base) bytes.now }
{
    bytes.iter().all(|d| char::from(*d).is_digit(base))
}
