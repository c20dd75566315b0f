//! The words for a reason.
ghost use Rattle.std.specs.Prelude.{◌≡◌};
ghost use Rattle.tmpl_problems.specs.Words.{words_for};

use tmpl_syntax::ParseKind;

/// Why a file is refused, in the words that `tmpl` has for it.
pub fn reason_words(kind: ParseKind) -> &'static str
    ensures { result.now ≡ words_for kind }
{
    match kind {
        ParseKind::Unreadable => "unclosed or unreadable action",
        ParseKind::NotAnAction => "action not understood",
        ParseKind::OutOfPlace => "out of place",
        ParseKind::UndeclaredVariable => "undeclared variable",
        ParseKind::OpenAtEnd => "file ends inside a control",
        ParseKind::NestedTooDeeply => "nested too deeply",
        ParseKind::TooLong => "file longer than 16777216 bytes",
        ParseKind::SecondDefinition => "second definition",
        ParseKind::OutOfMemory => "out of memory",
    }
}
