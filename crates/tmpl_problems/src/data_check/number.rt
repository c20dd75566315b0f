//! The numbers of JSON.

use std::str::from_utf8;

/// How many bytes of a number come before the first that makes it none.
pub(crate) fn number_flaw(text: &[u8]) -> Option<usize> {
    let sign = if text.starts_with(b"-") { 1 } else { 0 };
    let digits = text.get(sign..).unwrap_or(&[]);
    let whole = digits_at(digits);
    if whole == 0 {
        return Some(sign);
    }
    if whole > 1 && digits.starts_with(b"0") {
        return Some(sign.saturating_add(1));
    }
    let after = sign.saturating_add(whole);
    match fraction_len(text.get(after..).unwrap_or(&[])) {
        Ok(count) if after.saturating_add(count) == text.len() => None,
        Ok(count) | Err(count) => Some(after.saturating_add(count)),
    }
}

/// How many digits stand at the front.
fn digits_at(text: &[u8]) -> usize {
    text.iter().take_while(|b| b.is_ascii_digit()).count()
}

/// How many bytes the fraction and the exponent at the front have, or how many come before what makes them none.
fn fraction_len(text: &[u8]) -> Result<usize, usize> {
    let mut len = 0;
    if text.starts_with(b".") {
        let count = digits_at(text.get(1..).unwrap_or(&[]));
        if count == 0 {
            return Err(1);
        }
        len = count.saturating_add(1);
    }
    let rest = text.get(len..).unwrap_or(&[]);
    let sign = match rest {
        [b'e' | b'E', b'+' | b'-', ..] => 2,
        [b'e' | b'E', ..] => 1,
        _ => return Ok(len),
    };
    let count = digits_at(rest.get(sign..).unwrap_or(&[]));
    let len = len.saturating_add(sign);
    if count == 0 {
        return Err(len);
    }
    Ok(len.saturating_add(count))
}

/// Whether a number of JSON is whole and has 64 signed bits, as `-0`, `1.0` and `1e3` are not.
pub(crate) fn is_whole(text: &[u8]) -> bool {
    if text == b"-0".as_slice() || text.iter().any(|b| matches!(*b, b'.' | b'e' | b'E')) {
        return false;
    }
    match from_utf8(text) {
        Ok(digits) => digits.parse::<i64>().is_ok(),
        Err(_) => false,
    }
}
