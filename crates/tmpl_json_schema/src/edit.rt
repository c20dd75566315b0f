//! Names that are one edit away from each other.
ghost use Rattle.std.specs.Prelude.{◌≡◌};
ghost use Rattle.tmpl_json_schema.specs.Keywords.{is_exchanged, is_long, is_marked, is_near, is_one_byte, is_one_edit};

/// Whether a name is one edit away from that of a keyword that is not too short, and does not begin with `$`.
pub(crate) fn is_near(keyword: &str, name: &str) -> bool
    ensures { result ≡ is_near keyword.now name.now }
{
    let keyword = keyword.as_bytes();
    (is_long(keyword) && !is_marked(keyword)) && is_one_edit(keyword, name.as_bytes())
}

/// Whether it has four bytes or more.
fn is_long(name: &[u8]) -> bool
    ensures { result ≡ is_long name.now }
{
    matches!(name, [_, _, _, _, ..])
}

/// Whether it begins with `$`.
fn is_marked(name: &[u8]) -> bool
    ensures { result ≡ is_marked name.now }
{
    match name {
        [first, ..] => *first == b'$',
        [] => false,
    }
}

/// Whether the one has one byte more, less or other than the other, or two neighbours exchanged.
fn is_one_edit(one: &[u8], other: &[u8]) -> bool
    ensures { result ≡ is_one_edit one.now other.now }
{
    match one {
        [] => is_one_byte(other),
        [first, rest @ ..] => match other {
            [] => rest.is_empty(),
            [second, others @ ..] => {
                if *first == *second {
                    is_one_edit(rest, others)
                } else {
                    rest == others
                        || rest == other
                        || one == others
                        || is_exchanged(*first, rest, *second, others)
                }
            }
        },
    }
}

/// Whether it is one byte.
fn is_one_byte(bytes: &[u8]) -> bool
    ensures { result ≡ is_one_byte bytes.now }
{
    matches!(bytes, [_])
}

/// Whether two texts that begin with these bytes differ in the order of the first two alone.
fn is_exchanged(first: u8, rest: &[u8], second: u8, others: &[u8]) -> bool
    ensures { result ≡ is_exchanged first rest.now second others.now }
{
    match rest {
        [] => false,
        [after, rest @ ..] => match others {
            [] => false,
            [next, others @ ..] => first == *next && *after == second && rest == others,
        },
    }
}
