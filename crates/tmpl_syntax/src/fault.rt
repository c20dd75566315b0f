//! Why a file is refused.
ghost use Rattle.std.specs.Prelude.{◌≡◌, ℕ, List, Some};
ghost use Rattle.tmpl_lex.specs.Begin.{BeginsAt};
ghost use Rattle.tmpl_syntax.specs.Examine.{StartsAt};
ghost use Rattle.tmpl_syntax.specs.computed.Begun.{IsSecondStart};
ghost use Rattle.tmpl_syntax.specs.Fault.{reason_of};
ghost use Rattle.tmpl_syntax.specs.computed.Fault.{of_action, out_of_memory};

use std::alloc::AllocError;

/// A file that was refused, and the line, counted from 1, at which it was.
#[derive(Clone, Copy, Debug)]
pub struct ParseFault<'f> {
    /// The path of the file as it was given.
    pub file: &'f str,
    pub line: u64,
    pub kind: ParseKind,
}

/// Why a file was refused.
#[derive(Clone, Copy, Debug, PartialEq, Eq)]
pub enum ParseKind {
    /// An action that is not closed by `}}`, or that has a place where no token begins.
    Unreadable,
    /// An action whose tokens have no reading.
    NotAnAction,
    /// An `end`, `else`, `else if` or `else with` at which nothing is open; one of the last three after
    /// the `else` of the same control, or directly in a `define` or `block`; an `else if` of no `if`, an
    /// `else with` of no `with`; a `define` inside anything; a `break` or `continue` that stands in no
    /// range's body of its template.
    OutOfPlace,
    /// A control, `block`, `else if` or `else with` inside 500 others, or parentheses inside 100 others (our own
    /// limits).
    NestedTooDeeply,
    /// A variable that is used or assigned where none of its name is in scope.
    UndeclaredVariable,
    /// A control, `define` or `block` that has no `end`; the line is the last one of the file.
    OpenAtEnd,
    /// More than 16,777,216 bytes; the line is 1.
    TooLong,
    /// A template of a name of which the file has an earlier one, neither being blank; the line is that of the later
    /// header, or 1 for the file's own template.
    SecondDefinition,
    /// Memory ran out; the line is 1.
    OutOfMemory,
}

/// Why an action of a file is refused, in the order in which that is asked.
#[derive(Clone, Copy)]
pub(crate) enum Fault {
    Unreadable,
    NotAnAction,
    OutOfPlace,
    NestedTooDeeply,
    UndeclaredVariable,
}

impl Fault {
    /// The kind of the refusal that this fault makes.
    pub(crate) fn kind(self) -> ParseKind
        ensures reason { reason_of result ≡ Some (of_action self) }
        ensures starts { (file : List ℕ) (place start : ℕ) → BeginsAt file place start → StartsAt file result place start }
        ensures first { (file : List ℕ) (start : ℕ) → IsSecondStart file result start }
    {
        match self {
            Fault::Unreadable => ParseKind::Unreadable,
            Fault::NotAnAction => ParseKind::NotAnAction,
            Fault::OutOfPlace => ParseKind::OutOfPlace,
            Fault::NestedTooDeeply => ParseKind::NestedTooDeeply,
            Fault::UndeclaredVariable => ParseKind::UndeclaredVariable,
        }
    }
}

/// Why a file was refused, and where, but not which file it was.
#[derive(Clone, Copy)]
pub(crate) struct Refusal {
    pub(crate) line: u64,
    /// How many bytes of the file stand before what is refused.
    pub(crate) start: usize,
    pub(crate) kind: ParseKind,
    /// Of a second definition the line of the first of its name.
    pub(crate) first: u64,
}

impl From<AllocError> for Refusal {
    ghost from_gives = { λ _ r. r ≡ out_of_memory };

    fn from(_error: AllocError) -> Refusal {
        Refusal {
            line: 1,
            start: 0,
            kind: ParseKind::OutOfMemory,
            first: 0,
        }
    }
}
