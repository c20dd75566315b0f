//! Configuration files of nginx: a machine that reads them byte by byte.
ghost use Rattle.std.specs.Prelude.{◌≡◌, option_map};
ghost use Rattle.tmpl_formats.specs.computed.Nginx as computed;

use crate::machine::{Machine, first_mistake};
use crate::mistake::Mistake;

/// A place in a file.
#[derive(Clone, Copy)]
pub enum Control {
    /// Before a directive.
    Start,
    /// After a word of a directive and a space.
    Gap,
    /// In a word without quotes.
    Word,
    /// After a `$` in such a word, and braces.
    Dollar,
    /// After a backslash in such a word.
    Escape,
    /// Between double quotes.
    Double,
    DoubleEscape,
    /// Between single quotes.
    Single,
    SingleEscape,
    /// After a closing quote.
    Closed,
    /// In a comment before a directive.
    StartComment,
    /// In a comment inside a directive.
    GapComment,
}

/// The machine: a place, and how many blocks are open there.
#[derive(Clone, Copy)]
pub struct Nginx {
    pub control: Control,
    pub depth: u64,
}

/// The kinds of bytes that a file distinguishes.
#[derive(Drop)]
pub enum Sign {
    Null,
    Newline,
    Gap,
    Semicolon,
    Open,
    Close,
    Hash,
    Double,
    Single,
    Backslash,
    Dollar,
    Parenthesis,
    Other,
}

/// The kind of a byte.
fn sign_of(byte: u8) -> Sign
    ensures { result ≡ computed.sign_of byte }
{
    match byte {
        0 => Sign::Null,
        b'\n' => Sign::Newline,
        b' ' | b'\t' | b'\r' => Sign::Gap,
        b';' => Sign::Semicolon,
        b'{' => Sign::Open,
        b'}' => Sign::Close,
        b'#' => Sign::Hash,
        b'"' => Sign::Double,
        b'\'' => Sign::Single,
        b'\\' => Sign::Backslash,
        b'$' => Sign::Dollar,
        b')' => Sign::Parenthesis,
        _ => Sign::Other,
    }
}

/// A place, as deep as before.
fn to(control: Control, depth: u64) -> Option<Nginx>
    ensures { result ≡ computed.to control depth }
{
    Some(Nginx { control, depth })
}

/// Where a word begins.
fn at_word(depth: u64, sign: Sign) -> Option<Nginx>
    ensures { result ≡ computed.at_word depth sign }
{
    match sign {
        Sign::Double => to(Control::Double, depth),
        Sign::Single => to(Control::Single, depth),
        Sign::Backslash => to(Control::Escape, depth),
        Sign::Dollar => to(Control::Dollar, depth),
        Sign::Parenthesis | Sign::Other => to(Control::Word, depth),
        _ => None,
    }
}

/// What a byte of a kind leads to.
fn after_sign(control: Control, depth: u64, sign: Sign) -> Option<Nginx>
    ensures { result ≡ computed.after_sign control depth sign }
{
    match (control, sign) {
        (_, Sign::Null) => None,
        (Control::Start, Sign::Newline | Sign::Gap) => to(Control::Start, depth),
        (Control::Start, Sign::Close) => to(Control::Start, depth.checked_sub(1)?),
        (Control::Start, Sign::Hash) => to(Control::StartComment, depth),
        (Control::Start, sign) => at_word(depth, sign),
        (Control::StartComment, Sign::Newline) => to(Control::Start, depth),
        (Control::StartComment, _) => to(Control::StartComment, depth),
        (Control::GapComment, Sign::Newline) => to(Control::Gap, depth),
        (Control::GapComment, _) => to(Control::GapComment, depth),
        (Control::Double, Sign::Double) => to(Control::Closed, depth),
        (Control::Double, Sign::Backslash) => to(Control::DoubleEscape, depth),
        (Control::Double | Control::DoubleEscape, _) => to(Control::Double, depth),
        (Control::Single, Sign::Single) => to(Control::Closed, depth),
        (Control::Single, Sign::Backslash) => to(Control::SingleEscape, depth),
        (Control::Single | Control::SingleEscape, _) => to(Control::Single, depth),
        (Control::Escape, _) => to(Control::Word, depth),
        (Control::Dollar, Sign::Open) => to(Control::Dollar, depth),
        // a word or a quoted one has ended, or may end
        (_, Sign::Newline | Sign::Gap) => to(Control::Gap, depth),
        (_, Sign::Semicolon) => to(Control::Start, depth),
        (_, Sign::Open) => to(Control::Start, depth.checked_add(1)?),
        (Control::Gap, Sign::Hash) => to(Control::GapComment, depth),
        (Control::Gap, sign) => at_word(depth, sign),
        // a `)` begins a word after a closing quote
        (Control::Closed, Sign::Parenthesis) => to(Control::Word, depth),
        (Control::Closed, _) => None,
        (_, Sign::Backslash) => to(Control::Escape, depth),
        (_, Sign::Dollar) => to(Control::Dollar, depth),
        _ => to(Control::Word, depth),
    }
}

impl Machine for Nginx {
    ghost after = { computed.step };

    ghost may_end = { computed.ends };

    fn step(self, byte: u8) -> Option<Nginx> {
        after_sign(self.control, self.depth, sign_of(byte))
    }

    fn ends(self) -> bool {
        self.depth == 0 && matches!(self.control, Control::Start | Control::StartComment)
    }

    fn wanted(self) -> &'static str {
        match self.control {
            Control::Start | Control::StartComment =>
                "a directive, or } for each block that is open",
            Control::Gap | Control::GapComment => "a word, ; or {",
            Control::Word | Control::Dollar => "more of a word, ; or {",
            Control::Escape | Control::DoubleEscape | Control::SingleEscape => "a character",
            Control::Double => "a closing \"",
            Control::Single => "a closing '",
            Control::Closed => "a space, ; or {",
        }
    }
}

/// Where a text ceases to be a configuration file.
pub(crate) fn nginx_mistake(text: &[u8]) -> Option<Mistake>
    ensures { option_map (λ m. m.offset) result ≡ computed.nginx_mistake text.now }
{
    first_mistake(
        Nginx {
            control: Control::Start,
            depth: 0,
        },
        text,
    )
}
