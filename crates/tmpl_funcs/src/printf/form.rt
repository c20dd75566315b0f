//! The forms of a format.
ghost use Rattle.std.specs.Prelude.{◌≡◌};

/// What a form prints.
#[derive(Clone, Copy, Debug, PartialEq, Eq)]
pub(crate) enum Verb {
    /// `%v`, any value.
    Value,
    /// `%d`, a number in base 10.
    Decimal,
    /// `%o`, a number in base 8.
    Octal,
    /// `%b`, a number in base 2.
    Binary,
    /// `%x`, a number in base 16, or the bytes of a text.
    Hex,
    /// `%X`, the same with capital letters.
    UpperHex,
    /// `%s`, a text.
    Text,
    /// `%q`, the quote of a text.
    Quoted,
    /// `%c`, the character of a code.
    Char,
    /// `%t`, a truth value.
    Truth,
}

/// A form: its flags, its width, which is 0 where it has none, its precision, and its verb.
#[derive(Clone, Copy)]
pub(crate) struct Form {
    pub minus: bool,
    pub plus: bool,
    pub zero: bool,
    pub space: bool,
    /// The least number of runes.
    pub width: usize,
    /// The greatest number of runes of a text.
    pub precision: Option<usize>,
    pub verb: Verb,
}

impl Form {
    ghost use Rattle.tmpl_funcs.specs.computed.Directive.{has_minus_alone};
    ghost use Rattle.tmpl_funcs.specs.computed.View.{form_seen};
    ghost use Rattle.tmpl_funcs.specs.printf.Form.{is_bare};

    /// Whether it has no flag but `-`.
    pub(crate) fn has_minus_alone(self) -> bool
        ensures { result ≡ has_minus_alone (form_seen self) }
    {
        !(self.plus | (self.zero | self.space))
    }

    /// Whether it has neither flags nor a width.
    pub(crate) fn is_bare(self) -> bool
        ensures { result ≡ is_bare (form_seen self) }
    {
        self.has_minus_alone() & (!self.minus & (self.width == 0))
    }
}
