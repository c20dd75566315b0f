//! The words that begin an action.
ghost use Rattle.std.specs.Prelude.{◌≡◌};
ghost use Rattle.tmpl_lex.specs.View.{token_of};
ghost use Rattle.tmpl_grammar.specs.computed.Keyword.{spelling};
ghost use Rattle.tmpl_grammar.specs.computed.Reading.{branch_of, keyword_of, spells_keyword};
ghost use Rattle.tmpl_grammar.specs.computed.Reading.{spells_template_keyword};

use crate::action::Branch;
use crate::tree::Control;
use tmpl_lex::{Token, TokenKind};

/// A word that begins an action ("Actions" in the documentation of Go's text/template).
#[derive(Clone, Copy)]
pub(crate) enum Keyword {
    Control(Control),
    Else,
    End,
    Break,
    Continue,
    Define,
    Template,
    Block,
}

impl Keyword {
    /// Its spelling.
    pub(crate) fn spelling(self) -> &'static [u8]
        ensures { result.now ≡ spelling self }
    {
        match self {
            Keyword::Control(Control::If) => b"if",
            Keyword::Control(Control::With) => b"with",
            Keyword::Control(Control::Range) => b"range",
            Keyword::Else => b"else",
            Keyword::End => b"end",
            Keyword::Break => b"break",
            Keyword::Continue => b"continue",
            Keyword::Define => b"define",
            Keyword::Template => b"template",
            Keyword::Block => b"block",
        }
    }

    /// The control with which an else part begins where this stands after `else`, if one does.
    pub(crate) fn branch(self) -> Option<Branch>
        ensures { result ≡ branch_of self }
    {
        match self {
            Keyword::Control(Control::If) => Some(Branch::If),
            Keyword::Control(Control::With) => Some(Branch::With),
            _ => None,
        }
    }
}

/// The keyword that a token is, if it is one.
#[tactic(auto, unfolding(crate::specs::computed::Reading::keyword_of))]
pub(crate) fn keyword_in(token: Token<'_>) -> Option<Keyword>
    ensures { result ≡ keyword_of (token_of token.entry) }
{
    match token.kind {
        TokenKind::Word => keyword_named(token.bytes),
        _ => None,
    }
}

/// The keyword of this spelling.
fn keyword_named(name: &[u8]) -> Option<Keyword>
    ensures { result ≡ spells_keyword name.now }
{
    if name == b"if".as_slice() {
        Some(Keyword::Control(Control::If))
    } else if name == b"with".as_slice() {
        Some(Keyword::Control(Control::With))
    } else if name == b"range".as_slice() {
        Some(Keyword::Control(Control::Range))
    } else if name == b"else".as_slice() {
        Some(Keyword::Else)
    } else if name == b"end".as_slice() {
        Some(Keyword::End)
    } else if name == b"break".as_slice() {
        Some(Keyword::Break)
    } else if name == b"continue".as_slice() {
        Some(Keyword::Continue)
    } else {
        template_keyword_named(name)
    }
}

/// The keyword of this spelling, of those that speak of templates.
fn template_keyword_named(name: &[u8]) -> Option<Keyword>
    ensures { result ≡ spells_template_keyword name.now }
{
    if name == b"define".as_slice() {
        Some(Keyword::Define)
    } else if name == b"template".as_slice() {
        Some(Keyword::Template)
    } else if name == b"block".as_slice() {
        Some(Keyword::Block)
    } else {
        None
    }
}
