//! The items of a file, each with what it counts as once it is refused.
ghost use Rattle.std.specs.Prelude.{◌≡◌, ◌≤◌, ◌++◌, ℕ, IfOk, List, OnOk, length, map, not, option_map};
ghost use Rattle.tmpl_lex.specs.Begin.{BeginsAt};
ghost use Rattle.tmpl_lex.specs.Part.{pieces_after};
ghost use Rattle.tmpl_lex.specs.Place.{StandsAt};
ghost use Rattle.tmpl_lex.specs.Text.{text_piece};
ghost use Rattle.tmpl_lex.specs.View.{token_of};
ghost use Rattle.tmpl_lex.specs.computed.Cut.{cut_of};
ghost use Rattle.tmpl_grammar.specs.View.{action_of};
ghost use Rattle.tmpl_syntax.specs.Refusals as spec;
ghost use Rattle.tmpl_syntax.specs.computed.Begun.{AllFrom, BeginsThere, IsSited};
ghost use Rattle.tmpl_syntax.specs.computed.Refusals.{site_in, sites_in};
ghost use Rattle.tmpl_syntax.specs.computed.Refusals.{mend_kind, site_of};
ghost use Rattle.tmpl_syntax.specs.computed.Refusals.{names_held};
ghost use Rattle.tmpl_syntax.specs.computed.View.{item_kind};
ghost use Rattle.tmpl_syntax.specs.Place.Role.{Names};
ghost use Rattle.tmpl_lex.specs.Piece.{action};

use crate::item::{Item, ItemKind, item_read};
use crate::text::Text;
use std::alloc::{AllocError, Global};
use std::sync::Arc;
use tmpl_grammar::{Action, Branch, Control, read_action};
use tmpl_lex::{AfterText, Part, Rest, Token, TokenKind, first_part};
use tmpl_values::Bytes;

/// An item, and what it counts as once it is refused.
#[derive(Drop)]
pub(crate) struct Site<'b> {
    pub(crate) item: Item,
    pub(crate) mend: Mend<'b>,
}

/// What an item that is refused counts as, with the variables that it then declares.
#[derive(Drop)]
pub(crate) struct Mend<'b> {
    pub(crate) kind: MendKind,
    pub(crate) names: Vec<&'b [u8]>,
}

#[derive(Clone, Copy)]
pub(crate) enum MendKind {
    /// Something that is not there.
    Absent,
    Open(Control),
    OpenBlock,
    ElseBranch(Branch),
    Close,
}

/// The items of a file with these contents, of which each part is read as it is cut.
#[tactic(auto, using(crate::proofs::SiteLemmas::none_so_far))]
pub(crate) fn read_sites<'b>(
    alloc: Global,
    contents: &'b Arc<Bytes>,
) -> Result<Vec<Site<'b>>, AllocError>
    requires { length contents.now.value ≤ 16777216 }
    ensures sites { IfOk result (λ v. map site_of v.items ≡ sites_in (cut_of contents.now.value)) }
    ensures begins { IfOk result (λ v. AllFrom (IsSited contents.now.value) 0 v.items) }
{
    let file = contents.as_slice();
    let mut sites = Vec::new(alloc);
    let mut tokens = Vec::new(alloc);
    let mut rest = Rest::of(file);
    loop {
        let part = first_part(file, rest, &mut tokens)?;
        push_text(alloc, contents, &mut sites, &part)?;
        push_after(alloc, &mut sites, tokens.as_slice(), part.after, part.opens)?;
        match part.rest {
            Some(next) => rest = next,
            None => return Ok(sites),
        }
    }
}

/// Adds the text of a part of a file with these contents, unless it is empty.
fn push_text<'b>(
    alloc: Global,
    contents: &Arc<Bytes>,
    sites: &mut Vec<Site<'b>>,
    part: &Part<'_>,
) -> Result<(), AllocError>
    requires placed { StandsAt contents.now.value part.now.start part.now.text.now }
    requires within { length contents.now.value ≤ 16777216 }
    ensures sites { OnOk result (map site_of sites.new.items
        ≡ map site_of sites.old.items ++ sites_in (text_piece part.now.line part.now.text.now)) }
    ensures begins { (file : List ℕ) → AllFrom (IsSited file) 0 sites.old.items
        → OnOk result (AllFrom (IsSited file) 0 sites.new.items) }
{
    if !part.text.is_empty() {
        let what = ItemKind::Text(Text::new(contents, part.start, part.text)?);
        sites.push(text_site(alloc, part.line, part.start, what))?;
    }
    Ok(())
}

/// Adds what stands after a text, with these tokens and after this many bytes, unless it is nothing.
fn push_after<'b>(
    alloc: Global,
    sites: &mut Vec<Site<'b>>,
    tokens: &[Token<'b>],
    after: AfterText,
    start: usize,
) -> Result<(), AllocError>
    ensures sites { OnOk result (map site_of sites.new.items
        ≡ map site_of sites.old.items ++ sites_in (pieces_after tokens.now after)) }
    ensures begins { (file : List ℕ) → BeginsThere file after (length sites.old.items) start
        → AllFrom (IsSited file) 0 sites.old.items → OnOk result (AllFrom (IsSited file) 0 sites.new.items) }
{
    match after {
        AfterText::Nothing => Ok(()),
        AfterText::Action(line) => Ok(sites.push(action_site(alloc, line, start, tokens)?)?),
        AfterText::Unreadable(line) => Ok(sites.push(text_site(
            alloc,
            line,
            start,
            ItemKind::Unreadable,
        ))?),
    }
}

/// An item that counts as not there once it is refused.
fn text_site<'b>(alloc: Global, line: u64, start: usize, what: ItemKind) -> Site<'b>
    ensures item { result.item ≡ record { line = line; start = start; what = what } }
    ensures mended { (site_of result).mended ≡ spec.absent }
{
    Site {
        item: Item { line, start, what },
        mend: Mend {
            kind: MendKind::Absent,
            names: Vec::new(alloc),
        },
    }
}

/// The item of an action with these tokens.
fn action_site<'b>(
    alloc: Global,
    line: u64,
    start: usize,
    tokens: &[Token<'b>],
) -> Result<Site<'b>, AllocError>
    ensures site { IfOk result (λ x. site_of x ≡ site_in (action line (map token_of tokens.now))) }
    ensures begins { IfOk result (λ x. (file : List ℕ) (place : ℕ) → BeginsAt file place start
        → IsSited file place x) }
{
    let what = item_read(read_action(alloc, tokens)?);
    let kind = kind_of(&what, tokens);
    let names = variables_in(alloc, tokens)?;
    Ok(Site {
        item: Item { line, start, what },
        mend: Mend { kind, names },
    })
}

/// What an action counts as once it is refused.
fn kind_of(what: &ItemKind, tokens: &[Token<'_>]) -> MendKind
    ensures { (names : Names) → mend_kind result names
        ≡ spec.mended_by (item_kind what.now) (map token_of tokens.now) names }
{
    match what {
        ItemKind::Action(action) => kind_by_action(action),
        _ => kind_by_word(first_word(tokens)),
    }
}

/// What an action that is read counts as.
fn kind_by_action(action: &Action) -> MendKind
    ensures { (names : Names) → mend_kind result names ≡ spec.by_action (action_of action.now) names }
{
    match action {
        Action::Open(control, _) => MendKind::Open(*control),
        Action::ElseBranch(branch, _) => MendKind::ElseBranch(*branch),
        Action::Define(_) | Action::Block(_, _) => MendKind::OpenBlock,
        _ => MendKind::Absent,
    }
}

/// What an action that begins with this word and is not read counts as.
fn kind_by_word(word: &[u8]) -> MendKind
    ensures { (names : Names) → mend_kind result names ≡ spec.by_word word.now names }
{
    if opens_if(word) {
        MendKind::Open(Control::If)
    } else if word == b"with".as_slice() {
        MendKind::Open(Control::With)
    } else if opens_range(word) {
        MendKind::Open(Control::Range)
    } else if word == b"define".as_slice() || word == b"block".as_slice() {
        MendKind::OpenBlock
    } else if word.starts_with(b"end") {
        MendKind::Close
    } else {
        MendKind::Absent
    }
}

/// Whether this word opens an `if`, also in another language.
fn opens_if(word: &[u8]) -> bool
    ensures { result ≡ spec.opens_if word.now }
{
    word == b"if".as_slice() || word == b"unless".as_slice()
}

/// Whether this word opens a `range`, also in another language.
fn opens_range(word: &[u8]) -> bool
    ensures { result ≡ spec.opens_range word.now }
{
    word == b"range".as_slice()
        || word == b"for".as_slice()
        || word == b"foreach".as_slice()
        || word == b"each".as_slice()
}

/// The word that comes first in an action, and nothing where something else does.
fn first_word<'b>(tokens: &[Token<'b>]) -> &'b [u8]
    ensures { result.now ≡ spec.first_word (map token_of tokens.now) }
{
    for token in tokens {
        if !is_white(token) {
            return word_in(token);
        }
    }
    b""
}

/// Whether a token is white space.
fn is_white(token: &Token<'_>) -> bool
    ensures { result ≡ spec.is_white token.now.kind }
{
    matches!(token.kind, TokenKind::Space)
}

/// A word, and of another token nothing.
fn word_in<'b>(token: &Token<'b>) -> &'b [u8]
    ensures { result.now ≡ spec.word_by token.now.kind token.now.bytes.now }
{
    match token.kind {
        TokenKind::Word => token.bytes,
        _ => b"",
    }
}

/// The names of the variables that stand among these tokens.
fn variables_in<'b>(alloc: Global, tokens: &[Token<'b>]) -> Result<Vec<&'b [u8]>, AllocError>
    ensures { IfOk result (λ v. names_held v.items ≡ spec.declared_in (map token_of tokens.now)) }
{
    let mut names = Vec::new(alloc);
    for token in tokens {
        if let Some(name) = variable_in(token) {
            names.push(name)?;
        }
    }
    Ok(names)
}

/// The name in a token, if it is a variable that has one.
fn variable_in<'b>(token: &Token<'b>) -> Option<&'b [u8]>
    ensures { option_map (λ n. n.now) result ≡ spec.variable_in (token_of token.now) }
{
    match (token.kind, token.bytes) {
        (TokenKind::Variable, [_, name @ ..]) if !name.is_empty() => Some(name),
        _ => None,
    }
}
