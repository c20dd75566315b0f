//! The trim markers, and where an action or comment ends.
ghost use Rattle.std.specs.Prelude.{◌≡◌, option_map};
ghost use Rattle.tmpl_lex.specs.computed.Trim as spec;
ghost use Rattle.tmpl_lex.specs.computed.View.{end_of};

use crate::bytes::is_space;

/// The end of an action or comment: whether a right trim marker ends it, and the bytes after it.
#[derive(Clone, Copy)]
pub(crate) struct End<'b> {
    pub(crate) trims: bool,
    pub(crate) rest: &'b [u8],
}

/// Whether a left trim marker stands at the front: `-` and a byte of white space.
pub(crate) fn has_left_marker(bytes: &[u8]) -> bool
    ensures { result ≡ spec.left_marked bytes.now }
{
    match bytes {
        [b'-', space, ..] => is_space(*space),
        _ => false,
    }
}

/// The bytes after the left trim marker, where there is one.
pub(crate) fn skip_left_marker(bytes: &[u8]) -> &[u8]
    ensures { result.now ≡ spec.past_left bytes.now }
{
    match bytes {
        [b'-', space, rest @ ..] if is_space(*space) => rest,
        _ => bytes,
    }
}

/// Whether the bytes begin with `-}}`.
pub(crate) fn has_dashed_delimiter(bytes: &[u8]) -> bool
    ensures { result ≡ spec.has_dashed_delimiter bytes.now }
{
    matches!(bytes, [b'-', b'}', b'}', ..])
}

/// The right delimiter that the bytes begin with, its trim marker included, if they do.
pub(crate) fn right_delimiter(bytes: &[u8]) -> Option<End<'_>>
    ensures { option_map end_of result ≡ spec.right_delimiter bytes.now }
{
    match bytes {
        [b'}', b'}', rest @ ..] => Some(End { trims: false, rest }),
        [space, b'-', b'}', b'}', rest @ ..] if is_space(*space) => Some(End { trims: true, rest }),
        _ => None,
    }
}
