//! What is open at a place of a YAML text: maps, sequences and brackets.
ghost use Rattle.std.specs.Prelude.{◌≡◌, IfOk, OnOk, Some, reverse, if◌then◌else◌};
ghost use Rattle.tmpl_formats.specs.computed.YamlNest as computed;
ghost use Rattle.tmpl_formats.specs.computed.YamlNestView.{nest_of};

use std::alloc::{AllocError, Global};

/// Brackets of a kind.
#[derive(Clone, Copy)]
pub enum Bracket {
    List,
    Map,
}

/// What lines say, with columns.
#[derive(Clone, Copy)]
pub enum Token {
    /// The dash of an item.
    Item(u64),
    Key(u64),
    Scalar(u64),
    Open(Bracket, u64),
    Close(Bracket),
    Comma,
    /// Three dashes, before a document.
    Marker,
}

/// A map or a sequence that is open, with the column of its entries.
#[derive(Clone, Copy)]
pub enum Level {
    Map(u64),
    Sequence(u64),
}

/// What may come next.
#[derive(Clone, Copy)]
pub enum Expects {
    /// A value, or nothing in its place.
    Value,
    /// An entry in brackets, or their end.
    Entry,
    /// What follows a value.
    Nothing,
}

/// What a token does.
#[derive(Drop)]
pub enum Change {
    Expect(Expects),
    Push(Level),
    Open(Bracket),
    Close,
    Reset,
}

/// What a byte says of tokens.
#[derive(Clone, Copy)]
pub enum Event {
    Nothing,
    /// A key or a value begins at a column.
    Begin(u64),
    /// A dash comes at a column, with which an item, a key or a value may begin.
    Dash(u64),
    /// A key or a value begins in brackets.
    Enter,
    /// An item of a sequence begins at a column.
    Item(u64),
    One(Token),
    Two(Token, Token),
}

/// What is open.
#[derive(Drop)]
pub(crate) struct Nest {
    pub(crate) expects: Expects,
    pub(crate) levels: Vec<Level>,
    pub(crate) brackets: Vec<Bracket>,
}

/// Whether a value is wanted.
fn is_value(expects: Expects) -> bool
    ensures { result ≡ computed.is_value expects }
{
    matches!(expects, Expects::Value)
}

/// Whether an entry is wanted.
fn is_entry(expects: Expects) -> bool
    ensures { result ≡ computed.is_entry expects }
{
    matches!(expects, Expects::Entry)
}

/// Whether nothing is wanted but what follows a value.
fn is_nothing(expects: Expects) -> bool
    ensures { result ≡ computed.is_nothing expects }
{
    matches!(expects, Expects::Nothing)
}

/// Whether a value may begin at a column, outside brackets.
fn holds(column: u64, expects: Expects, top: Option<Level>) -> bool
    ensures { result ≡ computed.holds column expects top }
{
    match top {
        None => is_value(expects),
        Some(Level::Map(own) | Level::Sequence(own)) => is_value(expects) && own < column,
    }
}

/// Whether a value may come.
fn holds_at(column: u64, expects: Expects, top: Option<Level>, bracket: Option<Bracket>) -> bool
    ensures { result ≡ computed.holds_at column expects top bracket }
{
    match bracket {
        None => holds(column, expects, top),
        Some(Bracket::List) => is_entry(expects),
        Some(Bracket::Map) => is_value(expects),
    }
}

/// An item of a sequence.
fn item(column: u64, expects: Expects, top: Option<Level>) -> Option<Change>
    ensures { result ≡ computed.item column expects top }
{
    let opens = match top {
        Some(Level::Sequence(own)) if own == column => return Some(Change::Expect(Expects::Value)),
        Some(Level::Map(own)) => is_value(expects) && own <= column,
        _ => holds(column, expects, top),
    };
    opens.then_some(Change::Push(Level::Sequence(column)))
}

/// A key of a map.
fn key(column: u64, expects: Expects, top: Option<Level>) -> Option<Change>
    ensures { result ≡ computed.key column expects top }
{
    match top {
        Some(Level::Map(own)) if own == column => Some(Change::Expect(Expects::Value)),
        _ => holds(column, expects, top).then_some(Change::Push(Level::Map(column))),
    }
}

/// What a token does, or none where it may not come.
fn change_of(
    token: Token,
    expects: Expects,
    top: Option<Level>,
    bracket: Option<Bracket>,
) -> Option<Change>
    ensures { result ≡ computed.change_of token expects top bracket }
{
    match (token, bracket) {
        (Token::Item(column), None) => item(column, expects, top),
        (Token::Key(column), None) => key(column, expects, top),
        (Token::Key(_), Some(Bracket::Map)) => {
            is_entry(expects).then_some(Change::Expect(Expects::Value))
        }
        (Token::Scalar(column), _) => {
            holds_at(column, expects, top, bracket).then_some(Change::Expect(Expects::Nothing))
        }
        (Token::Open(own, column), _) => {
            holds_at(column, expects, top, bracket).then_some(Change::Open(own))
        }
        (Token::Close(Bracket::List), Some(Bracket::List))
        | (Token::Close(Bracket::Map), Some(Bracket::Map)) => {
            (!is_value(expects)).then_some(Change::Close)
        }
        (Token::Comma, Some(_)) => is_nothing(expects).then_some(Change::Expect(Expects::Entry)),
        (Token::Marker, None) => Some(Change::Reset),
        _ => None,
    }
}

/// The innermost of the levels or of the brackets.
fn innermost<T: Copy>(stack: &Vec<T>) -> Option<T>
    ensures { result ≡ computed.head_of (reverse stack.now.items) }
{
    stack.last().copied()
}

/// Does what a token does.
fn apply(nest: &mut Nest, change: Change) -> Result<(), AllocError>
    ensures { OnOk result (nest_of nest.new ≡ computed.applied change (nest_of nest.old)) }
{
    match change {
        Change::Expect(expects) => nest.expects = expects,
        Change::Push(level) => {
            nest.levels.push(level)?;
            nest.expects = Expects::Value;
        }
        Change::Open(bracket) => {
            nest.brackets.push(bracket)?;
            nest.expects = Expects::Entry;
        }
        Change::Close => {
            nest.brackets.pop();
            nest.expects = Expects::Nothing;
        }
        Change::Reset => {
            nest.levels.clear();
            nest.expects = Expects::Value;
        }
    }
    Ok(())
}

/// Whether the innermost level ends before an entry at a column: a sequence at the column of a key ends there too.
fn is_top_over(top: Option<Level>, column: u64, is_item: bool) -> bool
    ensures { result ≡ computed.is_top_over top column is_item }
{
    match top {
        None => false,
        Some(Level::Sequence(own)) if !is_item => column <= own,
        Some(Level::Map(own) | Level::Sequence(own)) => column < own,
    }
}

/// Ends the innermost level.
fn end_innermost(levels: &mut Vec<Level>)
    ensures { reverse levels.new.items ≡ computed.tail_of (reverse levels.old.items) }
{
    levels.pop();
}

/// Ends the levels that end before an entry at a column.
fn unwind(nest: &mut Nest, column: u64, is_item: bool)
    ensures { nest_of nest.new ≡ computed.unwound column is_item (nest_of nest.old) }
{
    while is_top_over(innermost(&nest.levels), column, is_item) {
        end_innermost(&mut nest.levels);
        nest.expects = Expects::Nothing;
    }
}

/// Ends the levels that end before an entry at a column, unless the entry is in the value that is wanted.
fn settle(nest: &mut Nest, column: u64, is_item: bool)
    ensures { nest_of nest.new ≡ computed.settled column is_item (nest_of nest.old) }
{
    if !holds(column, nest.expects, innermost(&nest.levels)) {
        unwind(nest, column, is_item);
    }
}

/// Reads a token; whether it may come.
fn take(nest: &mut Nest, token: Token) -> Result<bool, AllocError>
    ensures { IfOk result (λ went. computed.taken token (nest_of nest.old) ≡ (if went then Some (nest_of nest.new) else None)) }
{
    let top = innermost(&nest.levels);
    let Some(change) = change_of(token, nest.expects, top, innermost(&nest.brackets)) else {
        return Ok(false);
    };
    apply(nest, change)?;
    Ok(true)
}

/// Whether a key, a value or, if asked for, an item may begin at a column.
fn may_begin(column: u64, is_item: bool, expects: Expects, top: Option<Level>) -> bool
    ensures { result ≡ computed.may_begin column is_item expects top }
{
    match top {
        Some(Level::Map(own)) => own == column || holds(column, expects, top),
        Some(Level::Sequence(own)) => is_item && own == column || holds(column, expects, top),
        None => holds(column, expects, top),
    }
}

/// Ends what ends before an entry at a column; whether one may begin there.
fn begin(nest: &mut Nest, column: u64, is_item: bool) -> bool
    ensures { computed.begun column is_item (nest_of nest.old) ≡ (if result then Some (nest_of nest.new) else None) }
{
    match innermost(&nest.brackets) {
        None => {
            settle(nest, column, is_item);
            may_begin(column, is_item, nest.expects, innermost(&nest.levels))
        }
        Some(_) => false,
    }
}

/// Ends what ends before an item at a column, and reads its token; whether it may come.
fn take_item(nest: &mut Nest, column: u64) -> Result<bool, AllocError>
    ensures { IfOk result (λ went. computed.taken_item column (nest_of nest.old) ≡ (if went then Some (nest_of nest.new) else None)) }
{
    match innermost(&nest.brackets) {
        None => {
            settle(nest, column, true);
            take(nest, Token::Item(column))
        }
        Some(_) => Ok(false),
    }
}

/// Reads two tokens; whether they may come.
fn take_two(nest: &mut Nest, first: Token, second: Token) -> Result<bool, AllocError>
    ensures { IfOk result (λ went. computed.taken_two first second (nest_of nest.old) ≡ (if went then Some (nest_of nest.new) else None)) }
{
    if take(nest, first)? {
        take(nest, second)
    } else {
        Ok(false)
    }
}

/// Reads what a byte says of tokens; whether it may come.
pub(crate) fn happen(nest: &mut Nest, event: Event) -> Result<bool, AllocError>
    ensures { IfOk result (λ went. computed.happened event (nest_of nest.old) ≡ (if went then Some (nest_of nest.new) else None)) }
{
    match event {
        Event::Nothing => Ok(true),
        Event::Begin(column) => Ok(begin(nest, column, false)),
        Event::Dash(column) => Ok(begin(nest, column, true)),
        Event::Enter => Ok(!is_nothing(nest.expects)),
        Event::Item(column) => take_item(nest, column),
        Event::One(token) => take(nest, token),
        Event::Two(first, second) => take_two(nest, first, second),
    }
}

/// Whether brackets are open.
pub(crate) fn is_in_brackets(nest: &Nest) -> bool
    ensures { result ≡ computed.is_in_brackets (nest_of nest.now) }
{
    innermost(&nest.brackets).is_some()
}

impl Nest {
    /// Nothing is open, and a document begins.
    pub(crate) fn new(alloc: Global) -> Nest
        ensures { nest_of result ≡ computed.start }
    {
        Nest {
            expects: Expects::Value,
            levels: Vec::new(alloc),
            brackets: Vec::new(alloc),
        }
    }
}
