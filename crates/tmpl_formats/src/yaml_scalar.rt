//! Plain scalars of YAML: whether YAML 1.1 and YAML 1.2 take one for the same.
ghost use Rattle.std.specs.Prelude.{◌≡◌, ◌==◌, false, drop, take};
ghost use Rattle.std.specs.Char.{is_ascii_digit};
ghost use Rattle.std.specs.List.{list_all, slice_get};
ghost use Rattle.std.specs.Str.{bytes_eq};
ghost use Rattle.tmpl_formats.specs.YamlScalar as spec;
ghost use Rattle.tmpl_formats.specs.computed.YamlScalar as computed;

/// A byte that a plain scalar may begin with.
pub(crate) fn is_start(byte: u8) -> bool
    ensures { result ≡ spec.is_start byte }
{
    byte.is_ascii_alphanumeric()
        || matches!(byte, b'_' | b'/' | b'$' | b'(' | b'^' | b';' | b'\\')
        || byte >= 128
}

/// The byte of this text at an index, if there is one.
fn byte_at(text: &[u8], index: usize) -> Option<u8>
    ensures { result ≡ slice_get text.now index }
{
    text.get(index).copied()
}

/// Whether a byte is there and is this one.
fn is_byte(byte: Option<u8>, wanted: u8) -> bool
    ensures { result ≡ spec.passes (λ b. b == wanted) byte }
{
    matches!(byte, Some(byte) if byte == wanted)
}

/// Whether a byte is there and may begin a plain scalar.
fn starts(byte: Option<u8>) -> bool
    ensures { result ≡ spec.passes spec.is_start byte }
{
    matches!(byte, Some(byte) if is_start(byte))
}

/// Whether a byte may follow a dot at the start: no digit, and no letter of `.inf` and `.nan`.
fn may_follow_dot(byte: u8) -> bool
    ensures { result ≡ spec.may_follow_dot byte }
{
    is_start(byte) && !byte.is_ascii_digit() && !matches!(byte, b'_' | b'i' | b'I' | b'n' | b'N')
}

/// Whether a byte is there and may follow a dot at the start.
fn follows_dot(byte: Option<u8>) -> bool
    ensures { result ≡ spec.passes spec.may_follow_dot byte }
{
    matches!(byte, Some(byte) if may_follow_dot(byte))
}

/// Whether a plain scalar may begin with these bytes.
fn may_begin(first: Option<u8>, second: Option<u8>, third: Option<u8>) -> bool
    ensures { result ≡ spec.may_begin first second third }
{
    starts(first)
        || is_byte(first, b'+') && starts(second)
        || is_byte(first, b'.') && follows_dot(second)
        || is_byte(first, b'-') && (starts(second) || is_byte(second, b'-') && starts(third))
}

/// Whether a byte may come at the start of a plain scalar after these.
pub(crate) fn starts_well(scalar: &[u8], byte: u8) -> bool
    ensures { result ≡ computed.starts_well scalar.now byte }
{
    if is_same(scalar, b".") {
        may_follow_dot(byte)
    } else if is_same(scalar, b"+") || is_same(scalar, b"--") {
        is_start(byte)
    } else {
        true
    }
}

/// A bracket.
fn is_bracket(byte: u8) -> bool
    ensures { result ≡ spec.is_bracket byte }
{
    matches!(byte, b'[' | b']' | b'{' | b'}')
}

/// Whether a byte may follow another in a plain scalar.
pub(crate) fn may_follow(in_flow: bool, before: u8, byte: u8) -> bool
    ensures { result ≡ spec.may_follow in_flow before byte }
{
    byte != b'\t'
        && byte != b'\n'
        && !(in_flow && (is_bracket(byte) || byte == b',' || byte == b'?'))
        && !(before == b':' && byte == b' ')
        && !(before == b' ' && byte == b'#')
}

/// Whether a plain scalar may end after a byte.
fn may_end(byte: u8) -> bool
    ensures { result ≡ spec.may_end byte }
{
    byte != b':' && byte != b' '
}

/// Whether each byte may follow the one before it, and a scalar may end after the last.
fn is_joined(in_flow: bool, text: &[u8]) -> bool
    ensures { result ≡ spec.is_joined in_flow 0 text.now }
{
    let mut before = 0;
    for byte in text {
        if !may_follow(in_flow, before, *byte) {
            return false;
        }
        before = *byte;
    }
    may_end(before)
}

/// Whether the bytes are the same.
pub(crate) fn is_same(text: &[u8], word: &[u8]) -> bool
    ensures { result ≡ bytes_eq text.now word.now }
{
    text == word
}

/// What YAML 1.1 takes for a boolean, and YAML 1.2 for a string.
fn is_boolean(text: &[u8]) -> bool
    ensures { result ≡ spec.is_boolean text.now }
{
    is_same(text, b"y")
        || is_same(text, b"Y")
        || is_same(text, b"yes")
        || is_same(text, b"Yes")
        || is_same(text, b"YES")
        || is_same(text, b"n")
        || is_same(text, b"N")
        || is_same(text, b"no")
        || is_same(text, b"No")
        || is_same(text, b"NO")
        || is_same(text, b"on")
        || is_same(text, b"On")
        || is_same(text, b"ON")
        || is_same(text, b"off")
        || is_same(text, b"Off")
        || is_same(text, b"OFF")
}

/// A sign of a number.
pub(crate) fn is_sign(byte: u8) -> bool
    ensures { result ≡ spec.is_sign byte }
{
    byte == b'+' || byte == b'-'
}

/// A byte of some number, time or date.
fn is_numeric(byte: u8) -> bool
    ensures { result ≡ spec.is_numeric byte }
{
    byte.is_ascii_digit()
        || is_sign(byte)
        || matches!(byte, b'A'..=b'F' | b'a'..=b'f' | b'_' | b':' | b' ')
        || matches!(byte, b'x' | b'X' | b'o' | b'O' | b't' | b'T' | b'z' | b'Z')
}

/// Whether there was a dot, after a byte of some number, or none where a number has no such byte.
fn after_numeric(has_dot: bool, byte: u8) -> Option<bool>
    ensures { result ≡ computed.after_numeric has_dot byte }
{
    if byte == b'.' {
        if has_dot { None } else { Some(true) }
    } else if is_numeric(byte) {
        Some(has_dot)
    } else {
        None
    }
}

/// Whether a text has such bytes and at most one dot.
fn is_numeric_text(text: &[u8]) -> bool
    ensures { result ≡ spec.is_numeric_text false text.now }
{
    let mut has_dot = false;
    for byte in text {
        match after_numeric(has_dot, *byte) {
            Some(next) => has_dot = next,
            None => return false,
        }
    }
    true
}

/// Whether a byte is there and is a digit.
fn is_digit(byte: Option<u8>) -> bool
    ensures { result ≡ spec.passes is_ascii_digit byte }
{
    matches!(byte, Some(byte) if byte.is_ascii_digit())
}

/// Whether a byte is there and is a sign.
fn is_signed(byte: Option<u8>) -> bool
    ensures { result ≡ spec.passes spec.is_sign byte }
{
    matches!(byte, Some(byte) if is_sign(byte))
}

/// A byte of what some readers take for a number without digits.
fn is_digit_mark(byte: u8) -> bool
    ensures { result ≡ spec.is_digit_mark byte }
{
    byte.is_ascii_digit() || is_sign(byte) || byte == b'_'
}

/// Whether a text has such bytes alone.
fn has_digit_marks(text: &[u8]) -> bool
    ensures { result ≡ list_all spec.is_digit_mark text.now }
{
    text.iter().all(|byte| is_digit_mark(*byte))
}

/// A text that may be a number, a time or a date.
fn is_number(text: &[u8]) -> bool
    ensures { result ≡ spec.is_number text.now }
{
    has_digit_marks(text)
        || (is_digit(byte_at(text, 0)) || is_signed(byte_at(text, 0)) && is_digit(byte_at(text, 1)))
            && is_numeric_text(text)
}

/// Whether a text has digits alone.
fn has_digits(text: &[u8]) -> bool
    ensures { result ≡ list_all is_ascii_digit text.now }
{
    text.iter().all(|byte| byte.is_ascii_digit())
}

/// Digits that do not begin with a zero.
fn is_decimal(text: &[u8]) -> bool
    ensures { result ≡ spec.is_decimal text.now }
{
    is_digit(byte_at(text, 0)) && !is_byte(byte_at(text, 0), b'0') && has_digits(text)
}

/// The bytes after the first.
fn after_first(text: &[u8]) -> &[u8]
    ensures { result.now ≡ drop 1 text.now }
{
    match text.split_first() {
        Some((_, rest)) => rest,
        None => text,
    }
}

/// A number that has one meaning.
fn is_integer(text: &[u8]) -> bool
    ensures { result ≡ spec.is_integer text.now }
{
    is_same(text, b"0")
        || is_decimal(text)
        || is_byte(byte_at(text, 0), b'-') && is_decimal(after_first(text))
}

/// A plain scalar that is read the same.
fn is_plain(in_flow: bool, text: &[u8]) -> bool
    ensures { result ≡ spec.is_plain in_flow text.now }
{
    may_begin(byte_at(text, 0), byte_at(text, 1), byte_at(text, 2))
        && is_joined(in_flow, text)
        && !is_boolean(text)
        && (is_integer(text) || !is_number(text))
}

/// Bytes up to a place, and those from there on.
fn parts(text: &[u8], end: usize) -> (&[u8], &[u8])
    ensures first { result.0.now ≡ take end text.now }
    ensures second { result.1.now ≡ drop end text.now }
{
    if end <= text.len() {
        text.split_at(end)
    } else {
        (text, &[])
    }
}

/// Whether a text has spaces alone.
fn is_blank(text: &[u8]) -> bool
    ensures { result ≡ list_all (λ b. b == 32) text.now }
{
    text.iter().all(|byte| *byte == b' ')
}

/// Whether there is a plain scalar up to a place, and spaces after it.
pub(crate) fn is_scalar(in_flow: bool, text: &[u8], end: usize) -> bool
    ensures { result ≡ computed.is_scalar in_flow text.now end }
{
    let (scalar, rest) = parts(text, end);
    is_plain(in_flow, scalar) && is_blank(rest)
}

/// Whether there is a plain scalar up to a place, and a space after it.
pub(crate) fn is_spaced_scalar(in_flow: bool, text: &[u8], end: usize) -> bool
    ensures { result ≡ computed.is_spaced_scalar in_flow text.now end }
{
    let (scalar, rest) = parts(text, end);
    is_plain(in_flow, scalar) && is_byte(byte_at(rest, 0), b' ') && is_blank(rest)
}

/// Whether there is a plain scalar up to a place, and a colon after it.
pub(crate) fn is_name(in_flow: bool, text: &[u8], end: usize) -> bool
    ensures { result ≡ computed.is_name in_flow text.now end }
{
    let (scalar, rest) = parts(text, end);
    is_plain(in_flow, scalar) && is_same(rest, b":")
}
