//! Reading a regular expression: characters, numbers and what follows a backslash.
ghost use Rattle.std.specs.Prelude.{◌≡◌, ◌<◌, ◌+◌, ◌*◌, ◌||◌, ◌==◌, ℕ, true, false, ◌∷◌, IfSome, MatchOption};
ghost use Rattle.std.specs.Str.{byte};
ghost use Rattle.tmpl_formats.specs.PatternText.{is_syntax, digit_value, HasDigits, begins_with, begins_with_digit, is_scalar, HasEscape};

use crate::pattern::Span;

/// The greatest code point.
pub(crate) const MOST_CODE: u32 = 0x10_FFFF;

/// What is left of a pattern, and how many nodes and ranges it may still have.
#[derive(Drop)]
pub(crate) struct Reader<'t> {
    pub(crate) rest: &'t [char],
    pub(crate) left: usize,
}

/// Whether the text begins with the character.
pub(crate) fn starts(text: &[char], c: char) -> bool
    ensures { result ≡ begins_with c text.now }
{
    matches!(text.split_first(), Some((first, _)) if *first == c)
}

/// Whether the character has a meaning, which a backslash takes from it.
pub(crate) fn has_meaning(c: char) -> bool
    ensures { result ≡ is_syntax c }
{
    matches!(
        c,
        '^' | '$' | '\\' | '.' | '*' | '+' | '?' | '(' | ')' | '[' | ']' | '{' | '}' | '|'
    )
}

/// Whether a backslash before the character stands for the character itself.
fn escapes_itself(c: char) -> bool
    ensures { result ≡ (is_syntax c || c == byte "/") }
{
    has_meaning(c) || c == '/'
}

/// The value of a digit, and 16 for another character.
fn digit_of(c: char) -> u32
    ensures { result ≡ digit_value c }
{
    match c {
        '0'..='9' => c as u32 - 48,
        'A'..='F' => c as u32 - 55,
        'a'..='f' => c as u32 - 87,
        _ => 16,
    }
}

/// Whether the code point is no surrogate.
fn is_character(code: u32) -> bool
    ensures { result ≡ is_scalar code }
{
    code < 0xD800 || 0xDFFF < code && code <= MOST_CODE
}

impl<'t> Reader<'t> {
    /// Whether a digit is next.
    fn begins_digit(&self) -> bool
        ensures { result ≡ begins_with_digit self.now.rest.now }
    {
        matches!(self.rest.split_first(), Some((first, _)) if first.is_ascii_digit())
    }

    /// Reads this character if it is next.
    pub(crate) fn takes(&mut self, c: char) -> bool
        ensures taken { result ≡ true → self.old.rest.now ≡ c ∷ self.new.rest.now }
        ensures kept { result ≡ false → self.new.rest.now ≡ self.old.rest.now }
        ensures begins { result ≡ begins_with c self.old.rest.now }
    {
        match self.rest.split_first() {
            Some((first, rest)) if *first == c => {
                self.rest = rest;
                true
            }
            _ => false,
        }
    }

    /// Reads a character.
    pub(crate) fn next(&mut self) -> Option<char>
        ensures { IfSome result (λ c. self.old.rest.now ≡ c ∷ self.new.rest.now) }
    {
        let (first, rest) = self.rest.split_first()?;
        self.rest = rest;
        Some(*first)
    }

    /// Reads one digit more of a number, if one is next and the number is then no greater than a code point.
    fn digit(&mut self, base: u32, number: u32) -> Option<u32>
        ensures { MatchOption result (self.new.rest.now ≡ self.old.rest.now)
            (λ n. (c : ℕ) × (self.old.rest.now ≡ c ∷ self.new.rest.now) × (digit_value c < base) × (n ≡ number * base + digit_value c)) }
    {
        let (first, rest) = self.rest.split_first()?;
        let digit = digit_of(*first);
        if digit >= base {
            return None;
        }
        let product = number.checked_mul(base)?;
        let next = product.checked_add(digit)?;
        if next > MOST_CODE {
            return None;
        }
        self.rest = rest;
        Some(next)
    }

    /// Reads a number of one digit or more.
    pub(crate) fn number(&mut self, base: u32) -> Option<u32>
        ensures { IfSome result (λ n. (count : ℕ) × (0 < count) × HasDigits base count 0 self.old.rest.now n self.new.rest.now) }
    {
        let first = self.digit(base, 0)?;
        let mut number = first;
        while let Some(next) = self.digit(base, number) {
            number = next;
        }
        Some(number)
    }

    /// Reads a number of this many hexadecimal digits.
    fn hexadecimal(&mut self, count: usize) -> Option<u32>
        ensures { IfSome result (λ n. HasDigits 16 count 0 self.old.rest.now n self.new.rest.now) }
    {
        let mut number = 0;
        for _ in 0..count {
            let next = self.digit(16, number)?;
            number = next;
        }
        Some(number)
    }

    /// Reads what follows `\u`.
    fn unicode(&mut self) -> Option<u32>
        ensures { IfSome result (λ n. HasEscape (byte "u" ∷ self.old.rest.now) n self.new.rest.now) }
    {
        if !self.takes('{') {
            let code = self.hexadecimal(4)?;
            return if is_character(code) { Some(code) } else { None };
        }
        let code = self.number(16)?;
        if self.takes('}') && is_character(code) {
            Some(code)
        } else {
            None
        }
    }

    /// Reads what follows a backslash and stands for one character.
    pub(crate) fn escape(&mut self) -> Option<u32>
        ensures { IfSome result (λ n. HasEscape self.old.rest.now n self.new.rest.now) }
    {
        let c = self.next()?;
        match c {
            't' => Some(9),
            'n' => Some(10),
            'v' => Some(11),
            'f' => Some(12),
            'r' => Some(13),
            '0' => { if self.begins_digit() { None } else { Some(0) } }
            'x' => self.hexadecimal(2),
            'u' => self.unicode(),
            _ => {
                if escapes_itself(c) {
                    Some(u32::from(c))
                } else {
                    None
                }
            }
        }
    }
}
