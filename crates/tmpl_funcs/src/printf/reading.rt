//! The reading of a form.
ghost use Rattle.std.specs.Prelude.{◌≡◌, ◌≤◌, ◌++◌, length, option_map, Some};
ghost use Rattle.tmpl_funcs.specs.printf.Form.{form_of, number_in};
ghost use Rattle.tmpl_funcs.specs.computed.Scan.{form_at, verb_after, verb_of};
ghost use Rattle.tmpl_funcs.specs.computed.Reading.{form_by, precision_text, precision_after, width_after, IsRead};
ghost use Rattle.tmpl_funcs.specs.computed.View.{form_seen, letter_of};

use super::class::Class;
use super::form::{Form, Verb};

/// The most digits that a width or a precision has.
const MOST_WIDTH_DIGITS: usize = 4;

/// Reads the form at the front of what stands after a `%`, and gives what stands after it.
pub(crate) fn read_form(bytes: &[u8]) -> Option<(Form, &[u8])>
    ensures { IsRead (form_at bytes.now) bytes.now result }
{
    let n = Class::Flag.front_len(bytes);
    read_width(&bytes[..n], &bytes[n..])
}

/// Reads a form from its width on.
fn read_width<'a>(flags: &[u8], bytes: &'a [u8]) -> Option<(Form, &'a [u8])>
    ensures { IsRead (width_after flags.now bytes.now) (flags.now ++ bytes.now) result }
{
    let n = Class::Digit.front_len(bytes);
    read_precision(flags, &bytes[..n], &bytes[n..])
}

/// Reads a form from its precision on.
fn read_precision<'a>(flags: &[u8], width: &[u8], bytes: &'a [u8]) -> Option<(Form, &'a [u8])>
    ensures { IsRead (precision_after flags.now width.now bytes.now)
        (flags.now ++ (width.now ++ bytes.now)) result }
{
    match bytes {
        [b'.', digits @ ..] => {
            let n = Class::Digit.front_len(digits);
            read_verb(flags, width, Some(&digits[..n]), &digits[n..])
        }
        _ => read_verb(flags, width, None, bytes),
    }
}

/// Reads a form from its verb on.
fn read_verb<'a>(
    flags: &[u8],
    width: &[u8],
    precision: Option<&[u8]>,
    bytes: &'a [u8],
) -> Option<(Form, &'a [u8])>
    ensures { let p = option_map (λ d. d.now) precision.entry in
        IsRead (verb_after flags.now width.now p bytes.now)
        (flags.now ++ (width.now ++ (precision_text p ++ bytes.now))) result }
{
    match bytes {
        [] => None,
        [letter, rest @ ..] => {
            let form = make_form(flags, width, precision, Verb::of(*letter)?)?;
            Some((form, rest))
        }
    }
}

/// The form of these parts, if they are one.
fn make_form(flags: &[u8], width: &[u8], precision: Option<&[u8]>, verb: Verb) -> Option<Form>
    ensures { option_map form_seen result ≡ option_map form_of (form_by flags.now width.now
        (option_map (λ d. d.now) precision.entry) (Some (letter_of verb))) }
{
    if width.len() > MOST_WIDTH_DIGITS {
        return None;
    }
    let precision = match precision {
        None => None,
        Some(digits) => {
            if digits.len() > MOST_WIDTH_DIGITS || verb != Verb::Text {
                return None;
            }
            Some(number(digits))
        }
    };
    Some(Form {
        minus: flags.contains(&b'-'),
        plus: flags.contains(&b'+'),
        zero: flags.contains(&b'0'),
        space: flags.contains(&b' '),
        width: number(width),
        precision,
        verb,
    })
}

impl Verb {
    /// The verb of a letter.
    fn of(letter: u8) -> Option<Verb>
        ensures { option_map letter_of result ≡ verb_of letter }
    {
        match letter {
            b'v' => Some(Verb::Value),
            b'd' => Some(Verb::Decimal),
            b'o' => Some(Verb::Octal),
            b'b' => Some(Verb::Binary),
            b'x' => Some(Verb::Hex),
            b'X' => Some(Verb::UpperHex),
            b's' => Some(Verb::Text),
            b'q' => Some(Verb::Quoted),
            b'c' => Some(Verb::Char),
            b't' => Some(Verb::Truth),
            _ => None,
        }
    }
}

/// The number that a few decimal digits write.
#[tactic(auto, using(crate::proofs::NumberLemmas::most_few))]
fn number(digits: &[u8]) -> usize
    requires { length digits.now ≤ 4 }
    ensures { result ≡ number_in digits.now }
{
    let mut n = 0;
    for digit in digits {
        n = 10 * n + usize::from(digit.saturating_sub(b'0'));
    }
    n
}
