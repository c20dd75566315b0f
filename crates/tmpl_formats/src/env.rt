//! Environment files: a machine that reads them byte by byte.
ghost use Rattle.std.specs.Prelude.{◌≡◌, option_map};
ghost use Rattle.tmpl_formats.specs.computed.Env as computed;

use crate::machine::{Machine, first_mistake};
use crate::mistake::Mistake;

/// What was read last of an environment file.
#[derive(Clone, Copy)]
pub enum Control {
    /// Nothing of this line.
    Start,
    Comment,
    Name,
    /// The `=` after a name.
    Equals,
    /// A value without quotes.
    Bare,
    /// A part between single quotes.
    Single,
    /// A part between double quotes.
    Double,
    /// A backslash between double quotes.
    Escape,
    /// A closing quote.
    Closed,
}

/// The kinds of bytes that an environment file distinguishes.
#[derive(Drop)]
pub enum Sign {
    Null,
    Newline,
    Hash,
    Equals,
    Single,
    Double,
    Backslash,
    /// `$` and the backtick, which a shell expands between double quotes.
    Expanding,
    /// A mark that needs no quotes.
    Plain,
    /// A letter of ASCII or `_`.
    Letter,
    Digit,
    Other,
}

/// The kind of a byte.
fn sign_of(byte: u8) -> Sign
    ensures { result ≡ computed.sign_of byte }
{
    match byte {
        0 => Sign::Null,
        b'\n' => Sign::Newline,
        b'#' => Sign::Hash,
        b'=' => Sign::Equals,
        b'\'' => Sign::Single,
        b'"' => Sign::Double,
        b'\\' => Sign::Backslash,
        b'$' | b'`' => Sign::Expanding,
        b'%' | b'+' | b',' | b'.' | b'/' | b':' | b'@' | b'-' | b'?' => Sign::Plain,
        _ if byte == b'_' || byte.is_ascii_alphabetic() => Sign::Letter,
        _ if byte.is_ascii_digit() => Sign::Digit,
        _ => Sign::Other,
    }
}

/// What a byte of a kind leads to.
fn after_sign(control: Control, sign: Sign) -> Option<Control>
    ensures { result ≡ computed.after_sign control sign }
{
    match (control, sign) {
        (Control::Start, Sign::Newline) => Some(Control::Start),
        (Control::Start, Sign::Hash) => Some(Control::Comment),
        (Control::Start, Sign::Letter) => Some(Control::Name),
        (Control::Comment, Sign::Newline) => Some(Control::Start),
        (Control::Comment, Sign::Null | Sign::Backslash) => None,
        (Control::Comment, _) => Some(Control::Comment),
        (Control::Name, Sign::Equals) => Some(Control::Equals),
        (Control::Name, Sign::Letter | Sign::Digit) => Some(Control::Name),
        (Control::Equals, Sign::Single) => Some(Control::Single),
        (Control::Equals, Sign::Double) => Some(Control::Double),
        (Control::Equals | Control::Bare, Sign::Newline) => Some(Control::Start),
        (
            Control::Equals | Control::Bare,
            Sign::Equals | Sign::Plain | Sign::Letter | Sign::Digit,
        ) => Some(Control::Bare),
        (Control::Single, Sign::Null) => None,
        (Control::Single, Sign::Single) => Some(Control::Closed),
        (Control::Single, _) => Some(Control::Single),
        (Control::Double, Sign::Null | Sign::Expanding) => None,
        (Control::Double, Sign::Double) => Some(Control::Closed),
        (Control::Double, Sign::Backslash) => Some(Control::Escape),
        (Control::Double, _) => Some(Control::Double),
        (Control::Escape, Sign::Double | Sign::Backslash | Sign::Expanding) => Some(
            Control::Double,
        ),
        (Control::Closed, Sign::Newline) => Some(Control::Start),
        _ => None,
    }
}

impl Machine for Control {
    ghost after = { computed.step };

    ghost may_end = { computed.ends };

    fn step(self, byte: u8) -> Option<Control> {
        after_sign(self, sign_of(byte))
    }

    fn ends(self) -> bool {
        match self {
            Control::Name | Control::Single | Control::Double | Control::Escape => false,
            _ => true,
        }
    }

    fn wanted(self) -> &'static str {
        match self {
            Control::Start => "a line NAME=VALUE, a comment or an empty line",
            Control::Comment => "a comment without a backslash",
            Control::Name => "= after a name",
            Control::Equals => "a value",
            Control::Bare => "a value that needs no quotes, or the end of the line",
            Control::Single => "a closing '",
            Control::Double => "a closing \"; a $ or ` needs a backslash",
            Control::Escape => "\", \\, $ or ` after a backslash",
            Control::Closed => "the end of the line",
        }
    }
}

/// Where a text ceases to be an environment file.
pub fn env_mistake(text: &[u8]) -> Option<Mistake>
    ensures { option_map (λ m. m.offset) result ≡ computed.env_mistake text.now }
{
    first_mistake(Control::Start, text)
}
