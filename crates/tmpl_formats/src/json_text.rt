//! JSON: a machine that reads it byte by byte.
ghost use Rattle.std.specs.Prelude.{◌≡◌, ◌==◌, ◌++◌, IfOk, OnOk, reverse, option_map, if◌then◌else◌};
ghost use Rattle.std.specs.Option.{option_to_list};
ghost use Rattle.tmpl_formats.specs.computed.JsonBytes as spec;
ghost use Rattle.tmpl_formats.specs.computed.Json as computed;
ghost use Rattle.tmpl_formats.specs.computed.View.{config_of};

use crate::mistake::Mistake;
use std::alloc::{AllocError, Global};

/// An array or an object that is open.
#[derive(Clone, Copy)]
pub enum Open {
    Array,
    Object,
}

/// What a string is.
#[derive(Clone, Copy)]
pub enum Role {
    Value,
    Key,
}

/// A place in an escape.
#[derive(Clone, Copy)]
pub enum Escape {
    Backslash,
    /// The first digit of a code unit.
    Unit,
    /// The second digit of a code unit that begins with `d`.
    Surrogate,
    /// Three more digits.
    Hex3,
    Hex2,
    Hex1,
    /// Two more digits of a high surrogate.
    High2,
    High1,
    /// The backslash before a low surrogate.
    Pair,
    PairUnit,
    /// The first digit of a low surrogate.
    Low,
    LowSecond,
}

/// The letters of a literal that are left.
#[derive(Clone, Copy)]
pub enum Literal {
    Rue,
    Ue,
    E,
    Alse,
    Lse,
    Se,
    Ull,
    Ll,
    L,
}

/// A place in a number.
#[derive(Clone, Copy)]
pub enum Number {
    Minus,
    Zero,
    Whole,
    Point,
    Fraction,
    Exponent,
    Sign,
    Power,
}

/// A place in a text.
#[derive(Clone, Copy)]
pub enum Control {
    /// A value.
    Value,
    /// A value or the end of an array.
    Item,
    /// A key or the end of an object.
    Member,
    /// A key.
    Key,
    Colon,
    /// After a value.
    End,
    Text(Role),
    Escape(Role, Escape),
    Literal(Literal),
    Number(Number),
}

/// The kinds of bytes that JSON distinguishes.
#[derive(Drop)]
pub enum Sign {
    Space,
    /// White space other than a space.
    White,
    Control,
    Comma,
    Colon,
    OpenArray,
    CloseArray,
    OpenObject,
    CloseObject,
    Quote,
    Backslash,
    Minus,
    Plus,
    Dot,
    Zero,
    Digit,
    Exponent,
    True,
    False,
    Null,
    Other,
}

/// What a byte does to a machine.
#[derive(Drop)]
pub enum Action {
    To(Control),
    Push(Open, Control),
    Pop(Control),
}

/// White space.
pub(crate) fn is_white(byte: u8) -> bool
    ensures { result ≡ spec.is_white byte }
{
    matches!(byte, b' ' | b'\t' | b'\n' | b'\r')
}

/// The kind of a byte.
fn sign_of(byte: u8) -> Sign
    ensures { result ≡ computed.sign_of byte }
{
    match byte {
        b' ' => Sign::Space,
        _ if is_white(byte) => Sign::White,
        _ if byte < 32 => Sign::Control,
        b',' => Sign::Comma,
        b':' => Sign::Colon,
        b'[' => Sign::OpenArray,
        b']' => Sign::CloseArray,
        b'{' => Sign::OpenObject,
        b'}' => Sign::CloseObject,
        b'"' => Sign::Quote,
        b'\\' => Sign::Backslash,
        b'-' => Sign::Minus,
        b'+' => Sign::Plus,
        b'.' => Sign::Dot,
        b'0' => Sign::Zero,
        _ if byte.is_ascii_digit() => Sign::Digit,
        b'e' | b'E' => Sign::Exponent,
        b't' => Sign::True,
        b'f' => Sign::False,
        b'n' => Sign::Null,
        _ => Sign::Other,
    }
}

/// Where a value begins.
fn at_value(sign: Sign) -> Option<Action>
    ensures { result ≡ computed.at_value sign }
{
    match sign {
        Sign::Space | Sign::White => Some(Action::To(Control::Value)),
        Sign::Quote => Some(Action::To(Control::Text(Role::Value))),
        Sign::OpenArray => Some(Action::Push(Open::Array, Control::Item)),
        Sign::OpenObject => Some(Action::Push(Open::Object, Control::Member)),
        Sign::Minus => Some(Action::To(Control::Number(Number::Minus))),
        Sign::Zero => Some(Action::To(Control::Number(Number::Zero))),
        Sign::Digit => Some(Action::To(Control::Number(Number::Whole))),
        Sign::True => Some(Action::To(Control::Literal(Literal::Rue))),
        Sign::False => Some(Action::To(Control::Literal(Literal::Alse))),
        Sign::Null => Some(Action::To(Control::Literal(Literal::Ull))),
        _ => None,
    }
}

/// After the opening bracket of an array.
fn at_item(sign: Sign) -> Option<Action>
    ensures { result ≡ computed.at_item sign }
{
    match sign {
        Sign::Space | Sign::White => Some(Action::To(Control::Item)),
        Sign::CloseArray => Some(Action::Pop(Control::End)),
        _ => at_value(sign),
    }
}

/// After a comma in an object.
fn at_key(sign: Sign) -> Option<Action>
    ensures { result ≡ computed.at_key sign }
{
    match sign {
        Sign::Space | Sign::White => Some(Action::To(Control::Key)),
        Sign::Quote => Some(Action::To(Control::Text(Role::Key))),
        _ => None,
    }
}

/// After the opening brace of an object.
fn at_member(sign: Sign) -> Option<Action>
    ensures { result ≡ computed.at_member sign }
{
    match sign {
        Sign::Space | Sign::White => Some(Action::To(Control::Member)),
        Sign::Quote => Some(Action::To(Control::Text(Role::Key))),
        Sign::CloseObject => Some(Action::Pop(Control::End)),
        _ => None,
    }
}

/// After a key.
fn at_colon(sign: Sign) -> Option<Action>
    ensures { result ≡ computed.at_colon sign }
{
    match sign {
        Sign::Space | Sign::White => Some(Action::To(Control::Colon)),
        Sign::Colon => Some(Action::To(Control::Value)),
        _ => None,
    }
}

/// After a value.
fn at_end(top: Option<Open>, sign: Sign) -> Option<Action>
    ensures { result ≡ computed.at_end top sign }
{
    match (sign, top) {
        (Sign::Space | Sign::White, _) => Some(Action::To(Control::End)),
        (Sign::Comma, Some(Open::Array)) => Some(Action::To(Control::Value)),
        (Sign::Comma, Some(Open::Object)) => Some(Action::To(Control::Key)),
        (Sign::CloseArray, Some(Open::Array)) => Some(Action::Pop(Control::End)),
        (Sign::CloseObject, Some(Open::Object)) => Some(Action::Pop(Control::End)),
        _ => None,
    }
}

/// After the closing quote of a string.
fn closed(role: Role) -> Control
    ensures { result ≡ computed.closed role }
{
    match role {
        Role::Value => Control::End,
        Role::Key => Control::Colon,
    }
}

/// In a string.
fn at_text(role: Role, sign: Sign) -> Option<Action>
    ensures { result ≡ computed.at_text role sign }
{
    match sign {
        Sign::Control | Sign::White => None,
        Sign::Quote => Some(Action::To(closed(role))),
        Sign::Backslash => Some(Action::To(Control::Escape(role, Escape::Backslash))),
        _ => Some(Action::To(Control::Text(role))),
    }
}

/// The next control where a test passes.
fn next(passes: bool, control: Control) -> Option<Action>
    ensures { result ≡ computed.next passes control }
{
    passes.then_some(Action::To(control))
}

/// The value of a hexadecimal digit, and 16 for another byte.
pub(crate) fn hex_value(byte: u8) -> u8
    ensures { result ≡ spec.hex_value byte }
{
    match byte {
        b'0'..=b'9' => byte - b'0',
        b'A'..=b'F' => byte - b'A' + 10,
        b'a'..=b'f' => byte - b'a' + 10,
        _ => 16,
    }
}

/// A byte that a backslash may stand before, apart from `u`.
fn is_short_escape(byte: u8) -> bool
    ensures { result ≡ spec.is_short_escape byte }
{
    matches!(byte, b'"' | b'\\' | b'/' | b'b' | b'f' | b'n' | b'r' | b't')
}

/// In an escape.
fn at_escape(role: Role, escape: Escape, byte: u8) -> Option<Action>
    ensures { result ≡ computed.at_escape role escape byte }
{
    let value = hex_value(byte);
    match escape {
        Escape::Backslash if byte == b'u' => next(true, Control::Escape(role, Escape::Unit)),
        Escape::Backslash => next(is_short_escape(byte), Control::Text(role)),
        Escape::Unit if value == 13 => next(true, Control::Escape(role, Escape::Surrogate)),
        Escape::Unit => next(value < 16, Control::Escape(role, Escape::Hex3)),
        Escape::Surrogate if value < 8 => next(true, Control::Escape(role, Escape::Hex2)),
        Escape::Surrogate => next(value < 12, Control::Escape(role, Escape::High2)),
        Escape::Hex3 => next(value < 16, Control::Escape(role, Escape::Hex2)),
        Escape::Hex2 => next(value < 16, Control::Escape(role, Escape::Hex1)),
        Escape::Hex1 => next(value < 16, Control::Text(role)),
        Escape::High2 => next(value < 16, Control::Escape(role, Escape::High1)),
        Escape::High1 => next(value < 16, Control::Escape(role, Escape::Pair)),
        Escape::Pair => next(byte == b'\\', Control::Escape(role, Escape::PairUnit)),
        Escape::PairUnit => next(byte == b'u', Control::Escape(role, Escape::Low)),
        Escape::Low => next(value == 13, Control::Escape(role, Escape::LowSecond)),
        Escape::LowSecond => next(
            (12..16).contains(&value),
            Control::Escape(role, Escape::Hex2),
        ),
    }
}

/// In a literal.
fn at_literal(literal: Literal, byte: u8) -> Option<Action>
    ensures { result ≡ computed.at_literal literal byte }
{
    match literal {
        Literal::Rue => next(byte == b'r', Control::Literal(Literal::Ue)),
        Literal::Ue => next(byte == b'u', Control::Literal(Literal::E)),
        Literal::E => next(byte == b'e', Control::End),
        Literal::Alse => next(byte == b'a', Control::Literal(Literal::Lse)),
        Literal::Lse => next(byte == b'l', Control::Literal(Literal::Se)),
        Literal::Se => next(byte == b's', Control::Literal(Literal::E)),
        Literal::Ull => next(byte == b'u', Control::Literal(Literal::Ll)),
        Literal::Ll => next(byte == b'l', Control::Literal(Literal::L)),
        Literal::L => next(byte == b'l', Control::End),
    }
}

/// In a number.
fn at_number(number: Number, top: Option<Open>, sign: Sign) -> Option<Action>
    ensures { result ≡ computed.at_number number top sign }
{
    let place = match (number, sign) {
        (Number::Minus, Sign::Zero) => Number::Zero,
        (Number::Minus, Sign::Digit) => Number::Whole,
        (Number::Whole, Sign::Zero | Sign::Digit) => Number::Whole,
        (Number::Zero | Number::Whole, Sign::Dot) => Number::Point,
        (Number::Point | Number::Fraction, Sign::Zero | Sign::Digit) => Number::Fraction,
        (Number::Zero | Number::Whole | Number::Fraction, Sign::Exponent) => Number::Exponent,
        (Number::Exponent, Sign::Plus | Sign::Minus) => Number::Sign,
        (Number::Exponent | Number::Sign | Number::Power, Sign::Zero | Sign::Digit) =>
            Number::Power,
        (Number::Minus | Number::Point | Number::Exponent | Number::Sign, _) => return None,
        (_, sign) => return at_end(top, sign),
    };
    Some(Action::To(Control::Number(place)))
}

/// What a byte does, or none where no JSON text goes on so.
fn after(control: Control, top: Option<Open>, byte: u8) -> Option<Action>
    ensures { result ≡ computed.after control top byte }
{
    match control {
        Control::Value => at_value(sign_of(byte)),
        Control::Item => at_item(sign_of(byte)),
        Control::Member => at_member(sign_of(byte)),
        Control::Key => at_key(sign_of(byte)),
        Control::Colon => at_colon(sign_of(byte)),
        Control::End => at_end(top, sign_of(byte)),
        Control::Text(role) => at_text(role, sign_of(byte)),
        Control::Escape(role, escape) => at_escape(role, escape, byte),
        Control::Literal(literal) => at_literal(literal, byte),
        Control::Number(number) => at_number(number, top, sign_of(byte)),
    }
}

/// Whether a number may end there.
fn ends_number(number: Number) -> bool
    ensures { result ≡ computed.ends_number number }
{
    matches!(
        number,
        Number::Zero | Number::Whole | Number::Fraction | Number::Power
    )
}

/// Whether a value may end there.
fn ends_value(control: Control) -> bool
    ensures { result ≡ computed.ends_value control }
{
    match control {
        Control::End => true,
        Control::Number(number) => ends_number(number),
        _ => false,
    }
}

/// The machine: a control, the innermost of what is open, and what is open around it.
#[derive(Drop)]
pub(crate) struct Json {
    pub(crate) control: Control,
    top: Option<Open>,
    below: Vec<Open>,
}

/// Keeps what was the innermost.
fn keep(top: Option<Open>, below: &mut Vec<Open>) -> Result<(), AllocError>
    ensures { OnOk result (reverse below.new.items ≡ option_to_list top ++ reverse below.old.items) }
{
    if let Some(open) = top {
        below.push(open)?;
    }
    Ok(())
}

/// Takes the innermost of what is open around.
fn take(below: &mut Vec<Open>) -> Option<Open>
    ensures innermost { result ≡ computed.head_of (reverse below.old.items) }
    ensures rest { reverse below.new.items ≡ computed.tail_of (reverse below.old.items) }
{
    below.pop()
}

/// Does what a byte does.
fn apply(json: &mut Json, action: Action) -> Result<(), AllocError>
    ensures { OnOk result (config_of json.new ≡ computed.applied json.old.top (reverse json.old.below.items) action) }
{
    match action {
        Action::To(control) => json.control = control,
        Action::Push(open, control) => {
            keep(json.top, &mut json.below)?;
            json.top = Some(open);
            json.control = control;
        }
        Action::Pop(control) => {
            json.top = take(&mut json.below);
            json.control = control;
        }
    }
    Ok(())
}

impl Json {
    /// The machine at the start of a text.
    pub(crate) fn new(alloc: Global) -> Json
        ensures { config_of result ≡ computed.start }
    {
        Json {
            control: Control::Value,
            top: None,
            below: Vec::new(alloc),
        }
    }
}

/// Reads a byte; whether a JSON text may go on so.
pub(crate) fn advance(json: &mut Json, byte: u8) -> Result<bool, AllocError>
    ensures { IfOk result (λ went. computed.step (config_of json.old) byte ≡ (if went then Some (config_of json.new) else None)) }
{
    match after(json.control, json.top, byte) {
        Some(action) => {
            apply(json, action)?;
            Ok(true)
        }
        None => Ok(false),
    }
}

/// Whether a text may end there.
pub(crate) fn is_whole(json: &Json) -> bool
    ensures { result ≡ computed.ends (config_of json.now) }
{
    json.top.is_none() && ends_value(json.control)
}

/// What may stand there, by a control.
pub(crate) fn wanted(control: Control) -> &'static str {
    match control {
        Control::Value => "a value",
        Control::Item => "a value or ]",
        Control::Member => "a key or }",
        Control::Key => "a key",
        Control::Colon => "a colon",
        Control::End => "a comma or the end of what is open",
        Control::Text(_) => "a character of a string or its closing quote",
        Control::Escape(_, _) => "an escape of a string",
        Control::Literal(_) => "true, false or null",
        Control::Number(_) => "a digit or the end of a number",
    }
}

/// Where a text ceases to be JSON.
pub(crate) fn json_mistake(alloc: Global, text: &[u8]) -> Result<Option<Mistake>, AllocError>
    ensures { IfOk result (λ m. option_map (λ m. m.offset) m ≡ computed.json_mistake text.now) }
{
    let mut json = Json::new(alloc);
    for (offset, byte) in text.iter().enumerate() {
        if !advance(&mut json, *byte)? {
            return Ok(Some(Mistake {
                offset,
                wanted: wanted(json.control),
            }));
        }
    }
    if is_whole(&json) {
        Ok(None)
    } else {
        Ok(Some(Mistake {
            offset: text.len(),
            wanted: wanted(json.control),
        }))
    }
}
