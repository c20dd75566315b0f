//! Names that are one edit away.

/// What begins an action, and the functions.
const NAMES: [&str; 29] = [
    "and", "html", "index", "slice", "len", "not", "or", "print", "printf", "println", "urlquery",
    "eq", "ge", "gt", "le", "lt", "ne", "if", "with", "range", "else", "end", "break", "continue",
    "define", "template", "block", "true", "false",
];

/// The name that is one edit away from this word: two neighbours exchanged, or else one byte more, less or other.
pub(crate) fn near(word: &[u8]) -> Option<&'static str> {
    if word.len() < 3 {
        return None;
    }
    let exchanged = NAMES
        .iter()
        .find(|name| has_exchanged(word, name.as_bytes()));
    let near = exchanged.or(NAMES.iter().find(|name| is_near(word, name.as_bytes())));
    near.copied()
}

/// Two words without the bytes with which both begin.
fn past_common<'w, 'n>(word: &'w [u8], name: &'n [u8]) -> (&'w [u8], &'n [u8]) {
    let common = word
        .iter()
        .zip(name)
        .take_while(|(left, right)| left == right)
        .count();
    (
        word.get(common..).unwrap_or(&[]),
        name.get(common..).unwrap_or(&[]),
    )
}

/// Whether two words differ in the order of two neighbours alone.
fn has_exchanged(word: &[u8], name: &[u8]) -> bool {
    match past_common(word, name) {
        ([a, b, left @ ..], [c, d, right @ ..]) => a == d && b == c && left == right,
        _ => false,
    }
}

/// Whether one word has one byte more, less or other than the other.
fn is_near(word: &[u8], name: &[u8]) -> bool {
    match past_common(word, name) {
        ([_, left @ ..], [_, right @ ..]) if left == right => true,
        ([_, left @ ..], right) if left == right => true,
        (left, [_, right @ ..]) => left == right,
        _ => false,
    }
}
