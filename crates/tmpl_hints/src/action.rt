//! What an action is by its first words, whether it can be read or not.
ghost use Rattle.std.specs.Prelude.{◌≡◌, ◌↔◌, IsTrue, Contains, find, option_map, slice_get};
ghost use Rattle.std.specs.Str.{bytes_eq};
ghost use Rattle.tmpl_hints.specs.Action as spec;
ghost use Rattle.tmpl_hints.specs.Action.{is_among, jumps, own_word, template_openings};

use tmpl_grammar::Branch;
use tmpl_lex::{Token, TokenKind};

/// What begins a part that an `end` closes.
#[derive(Clone, Copy)]
pub enum Opening {
    If,
    With,
    Range,
    Define,
    Block,
}

/// What is open, and the line of what opens it.
#[derive(Clone, Copy)]
pub struct Open {
    pub opening: Opening,
    pub line: u64,
}

/// What an action does where it stands.
#[derive(Clone, Copy)]
pub enum Role {
    Plain,
    Open(Opening),
    Else(Option<Branch>),
    End,
    Jump,
}

impl Opening {
    /// Its word.
    pub fn word(self) -> &'static str
        ensures { result.now ≡ own_word self }
    {
        match self {
            Opening::If => "if",
            Opening::With => "with",
            Opening::Range => "range",
            Opening::Define => "define",
            Opening::Block => "block",
        }
    }

    /// Whether its body is a template of its own.
    pub fn is_template(self) -> bool
        ensures { IsTrue result ↔ Contains template_openings self }
    {
        matches!(self, Opening::Define | Opening::Block)
    }
}

/// The tokens that are no white space.
pub fn significant<'t, 'b>(tokens: &'t [Token<'b>], index: usize) -> Option<Token<'b>>
    ensures { result ≡ slice_get (spec.significant tokens.now) index }
{
    tokens
        .iter()
        .filter(|token| token.kind != TokenKind::Space)
        .nth(index)
        .copied()
}

/// The bytes of the significant token of this number, if it is a word.
fn word_at<'b>(tokens: &[Token<'b>], index: usize) -> &'b [u8]
    ensures { result.now ≡ spec.word_at tokens.now index }
{
    match significant(tokens, index) {
        Some(token) if token.kind == TokenKind::Word => token.bytes,
        _ => &[],
    }
}

/// What an action of these tokens does.
pub fn role_of(tokens: &[Token<'_>]) -> Role
    ensures { result ≡ spec.role_of tokens.now }
{
    let first = word_at(tokens, 0);
    if first == b"else".as_slice() {
        return Role::Else(branch_named(word_at(tokens, 1)));
    }
    role_named(first)
}

/// What an action of these tokens counts as that has no reading: a bare opening or end by its first word, or as not
/// there.
pub fn role_unread(tokens: &[Token<'_>]) -> Role
    ensures { result ≡ spec.role_unread tokens.now }
{
    match role_named(word_at(tokens, 0)) {
        Role::Jump => Role::Plain,
        role => role,
    }
}

/// What an action does that begins with this word, which is not `else`. The words with which other languages open and
/// end a part are among them, so that what stands inside is not out of place.
pub fn role_named(word: &[u8]) -> Role
    ensures { result ≡ spec.role_named word.now }
{
    match opening_named(word) {
        Some(opening) => Role::Open(opening),
        None if is_jump(word) => Role::Jump,
        None if word.starts_with(b"end".as_slice()) => Role::End,
        None => Role::Plain,
    }
}

/// What this word opens.
fn opening_named(word: &[u8]) -> Option<Opening>
    ensures { result ≡ spec.opening_named word.now }
{
    let known: [(&[u8], Opening); 9] = [
        (b"if", Opening::If),
        (b"unless", Opening::If),
        (b"with", Opening::With),
        (b"range", Opening::Range),
        (b"for", Opening::Range),
        (b"foreach", Opening::Range),
        (b"each", Opening::Range),
        (b"define", Opening::Define),
        (b"block", Opening::Block),
    ];
    opening_in(known.as_slice(), word)
}

/// What the first of these rows says that has the word.
fn opening_in(rows: &[(&[u8], Opening)], word: &[u8]) -> Option<Opening>
    ensures { result ≡ option_map (λ row. row.1) (find (λ row. bytes_eq row.0.now word.now) rows.now) }
{
    rows.iter().find(|row| row.0 == word).map(|row| row.1)
}

/// Whether this word leaves a turn of a range.
fn is_jump(word: &[u8]) -> bool
    ensures { result ≡ is_among jumps word.now }
{
    let jumps: [&[u8]; 2] = [b"break", b"continue"];
    jumps.contains(&word)
}

/// The control with which an else part begins that has this word after its `else`.
fn branch_named(word: &[u8]) -> Option<Branch>
    ensures { result ≡ spec.branch_named word.now }
{
    if word == b"if".as_slice() {
        Some(Branch::If)
    } else if word == b"with".as_slice() {
        Some(Branch::With)
    } else {
        None
    }
}
