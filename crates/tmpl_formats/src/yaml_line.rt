//! Lines of YAML: what each byte says of scalars and tokens.
ghost use Rattle.std.specs.Prelude.{◌≡◌};
ghost use Rattle.tmpl_formats.specs.Yaml as spec;
ghost use Rattle.tmpl_formats.specs.YamlScalar as scalar_spec;
ghost use Rattle.tmpl_formats.specs.computed.YamlLine as computed;

use crate::json_text::hex_value;
use crate::yaml_nest::{Bracket, Event, Token};
use crate::yaml_scalar::{
    is_name, is_scalar, is_sign, is_spaced_scalar, is_start, may_follow, starts_well,
};

/// What may stand at a place of a line.
#[derive(Clone, Copy)]
pub enum Place {
    /// The start of a line, after its spaces.
    Line,
    /// After the dash of an item at a column.
    Item(u64),
    /// After a key at a column, and its colon.
    Value(u64),
    /// After a value.
    End,
    /// In brackets.
    Flow,
}

/// A place at a column.
#[derive(Clone, Copy)]
pub struct Spot {
    pub place: Place,
    pub column: u64,
}

/// What was read last. A spot is that of the scalar, or of its key.
#[derive(Clone, Copy)]
pub enum Control {
    At(Spot),
    /// A dash, which may begin an item or a scalar.
    Dash(Spot),
    /// Two dashes at the start of a line.
    Dashes,
    /// A closing bracket, or `---`.
    Closed,
    Comment,
    Plain(Spot),
    /// A colon in a plain scalar, with the length of the scalar before it.
    PlainColon(Spot, usize),
    /// Spaces in a plain scalar, with the length of the scalar before them.
    PlainSpace(Spot, usize),
    Double(Spot),
    /// A backslash between double quotes.
    Escape(Spot),
    /// Digits of a character, with how many are left, and what they are so far.
    Code(Spot, u8, u32),
    Single(Spot),
    /// A quote between single quotes: the last, or the first of two.
    Quote(Spot),
    /// A closing double quote.
    Quoted(Spot),
    /// A colon after a quoted scalar.
    QuotedColon(Spot),
    /// The mark of a block scalar under an entry at a column.
    Header(u64),
    /// A sign or a space after it.
    HeaderEnd(u64),
    /// Spaces of a line before the first text of a block scalar under an entry at a column.
    Block(u64, u64),
    /// Spaces of a line of a block scalar, whose text begins at a column, under an entry at a column.
    Indent(u64, u64, u64),
    /// The text of a line of a block scalar.
    Text(u64, u64),
}

/// The kinds of bytes that a line distinguishes.
#[derive(Clone, Copy)]
pub enum Sign {
    Newline,
    Space,
    Hash,
    Dash,
    Colon,
    Comma,
    Double,
    Single,
    /// `|` and `>`.
    Mark,
    Open(Bracket),
    Close(Bracket),
    /// A byte that a plain scalar may begin with.
    Start,
    /// `+` and `.`, after which not all bytes may come at the start of a plain scalar.
    Lead,
    Other,
}

/// What becomes of the bytes of a plain scalar.
#[derive(Clone, Copy)]
pub enum Write {
    Keep,
    Start(u8),
    Add(u8),
    /// A dash, and a byte after it.
    Dash(u8),
    /// Two dashes, and a byte after them.
    Dashes(u8),
}

/// What a byte does.
#[derive(Clone, Copy)]
pub struct Move {
    pub control: Control,
    pub write: Write,
    pub event: Event,
}

/// The kind of a byte.
fn sign_of(byte: u8) -> Sign
    ensures { result ≡ computed.sign_of byte }
{
    match byte {
        b'\n' => Sign::Newline,
        b' ' => Sign::Space,
        b'#' => Sign::Hash,
        b'-' => Sign::Dash,
        b':' => Sign::Colon,
        b',' => Sign::Comma,
        b'"' => Sign::Double,
        b'\'' => Sign::Single,
        b'|' | b'>' => Sign::Mark,
        b'[' => Sign::Open(Bracket::List),
        b'{' => Sign::Open(Bracket::Map),
        b']' => Sign::Close(Bracket::List),
        b'}' => Sign::Close(Bracket::Map),
        b'+' | b'.' => Sign::Lead,
        _ if is_start(byte) => Sign::Start,
        _ => Sign::Other,
    }
}

/// A place at a column.
fn spot_at(place: Place, column: u64) -> Spot
    ensures { result ≡ computed.spot_at place column }
{
    Spot { place, column }
}

/// To a control, with the bytes of a plain scalar as they are.
fn to(control: Control, event: Event) -> Option<Move>
    ensures { result ≡ computed.to control event }
{
    move_to(control, Write::Keep, event)
}

/// To a control, with bytes of a plain scalar.
fn move_to(control: Control, write: Write, event: Event) -> Option<Move>
    ensures { result ≡ computed.move_to control write event }
{
    Some(Move {
        control,
        write,
        event,
    })
}

/// Whether a place is in brackets.
fn is_flow(place: Place) -> bool
    ensures { result ≡ spec.is_flow place }
{
    matches!(place, Place::Flow)
}

/// Whether a value may come at a place.
fn takes_values(place: Place) -> bool
    ensures { result ≡ spec.takes_values place }
{
    !matches!(place, Place::End)
}

/// Whether a key may come at a place.
fn takes_keys(place: Place) -> bool
    ensures { result ≡ spec.takes_keys place }
{
    !matches!(place, Place::End | Place::Value(_))
}

/// The column of the item or key before a place on its line.
fn parent_of(place: Place) -> Option<u64>
    ensures { result ≡ spec.parent_of place }
{
    match place {
        Place::Item(column) | Place::Value(column) => Some(column),
        _ => None,
    }
}

/// The place after a key.
fn after_key(spot: Spot) -> Place
    ensures { result ≡ spec.after_key spot.place spot.column }
{
    match spot.place {
        Place::Flow => Place::Flow,
        _ => Place::Value(spot.column),
    }
}

/// After a space: the next column.
fn next_spot(place: Place, column: u64, event: Event) -> Option<Move>
    ensures { result ≡ computed.next_spot place column event }
{
    to(Control::At(spot_at(place, column.checked_add(1)?)), event)
}

/// After the end of a line, which does not come in brackets.
fn next_line(place: Place, event: Event) -> Option<Move>
    ensures { result ≡ computed.next_line place event }
{
    if is_flow(place) {
        None
    } else {
        to(Control::At(spot_at(Place::Line, 0)), event)
    }
}

/// A space or the end of a line, at a place.
fn at_gap(place: Place, column: u64, sign: Sign, event: Event) -> Option<Move>
    ensures { result ≡ computed.at_gap place column sign event }
{
    match sign {
        Sign::Space => next_spot(place, column, event),
        Sign::Newline => next_line(place, event),
        _ => None,
    }
}

/// The same, one column further.
fn at_next_gap(place: Place, column: u64, sign: Sign, event: Event) -> Option<Move>
    ensures { result ≡ computed.at_next_gap place column sign event }
{
    at_gap(place, column.checked_add(1)?, sign, event)
}

/// A key or a value begins at a spot.
fn begin(spot: Spot) -> Event
    ensures { result ≡ computed.begin spot.place spot.column }
{
    match spot.place {
        Place::Flow => Event::Enter,
        _ => Event::Begin(spot.column),
    }
}

/// A dash comes at a spot, which may begin an item, a key or a value, and at the start of a line another document.
fn lead(spot: Spot) -> Event
    ensures { result ≡ computed.lead spot.place spot.column }
{
    match spot.place {
        Place::Flow => Event::Enter,
        _ if is_margin(spot) => Event::Nothing,
        _ => Event::Dash(spot.column),
    }
}

/// A block scalar, which stands after an item or a key.
fn at_mark(spot: Spot) -> Option<Move>
    ensures { result ≡ computed.at_mark spot }
{
    let parent = parent_of(spot.place)?;
    to(
        Control::Header(parent),
        Event::One(Token::Scalar(spot.column)),
    )
}

/// Where a key or a value begins.
fn at_node(spot: Spot, sign: Sign, byte: u8) -> Option<Move>
    ensures { result ≡ computed.at_node spot sign byte }
{
    match sign {
        Sign::Dash => to(Control::Dash(spot), lead(spot)),
        Sign::Start | Sign::Lead => move_to(Control::Plain(spot), Write::Start(byte), begin(spot)),
        Sign::Double => to(Control::Double(spot), begin(spot)),
        Sign::Single => to(Control::Single(spot), begin(spot)),
        Sign::Mark => at_mark(spot),
        Sign::Open(bracket) => to(
            Control::At(spot_at(Place::Flow, 0)),
            Event::One(Token::Open(bracket, spot.column)),
        ),
        _ => None,
    }
}

/// In brackets.
fn at_flow(column: u64, sign: Sign, byte: u8) -> Option<Move>
    ensures { result ≡ computed.at_flow column sign byte }
{
    match sign {
        Sign::Space => next_spot(Place::Flow, column, Event::Nothing),
        Sign::Comma => to(
            Control::At(spot_at(Place::Flow, 0)),
            Event::One(Token::Comma),
        ),
        Sign::Close(bracket) => to(Control::Closed, Event::One(Token::Close(bracket))),
        _ => at_node(spot_at(Place::Flow, column), sign, byte),
    }
}

/// On a line, outside brackets.
fn on_line(spot: Spot, sign: Sign, byte: u8) -> Option<Move>
    ensures { result ≡ computed.on_line spot sign byte }
{
    match sign {
        Sign::Space | Sign::Newline => at_gap(spot.place, spot.column, sign, Event::Nothing),
        Sign::Hash => to(Control::Comment, Event::Nothing),
        _ if takes_values(spot.place) => at_node(spot, sign, byte),
        _ => None,
    }
}

/// At a place.
fn at_place(spot: Spot, sign: Sign, byte: u8) -> Option<Move>
    ensures { result ≡ computed.at_place spot sign byte }
{
    match spot.place {
        Place::Flow => at_flow(spot.column, sign, byte),
        _ => on_line(spot, sign, byte),
    }
}

/// After the scalar of a value.
fn after_scalar(spot: Spot, sign: Sign) -> Option<Move>
    ensures { result ≡ computed.after_scalar spot.place spot.column sign }
{
    match spot.place {
        Place::Flow => after_flow_scalar(Token::Scalar(spot.column), sign),
        _ => at_gap(Place::End, 0, sign, Event::One(Token::Scalar(spot.column))),
    }
}

/// After the scalar of a value in brackets.
fn after_flow_scalar(token: Token, sign: Sign) -> Option<Move>
    ensures { result ≡ computed.after_flow_scalar token sign }
{
    match sign {
        Sign::Space => next_spot(Place::Flow, 0, Event::One(token)),
        Sign::Comma => to(
            Control::At(spot_at(Place::Flow, 0)),
            Event::Two(token, Token::Comma),
        ),
        Sign::Close(bracket) => to(Control::Closed, Event::Two(token, Token::Close(bracket))),
        _ => None,
    }
}

/// A value ends before a byte, if a test passes.
fn value_if(passes: bool, spot: Spot, sign: Sign) -> Option<Move>
    ensures { result ≡ computed.value_if passes spot sign }
{
    if passes && takes_values(spot.place) {
        after_scalar(spot, sign)
    } else {
        None
    }
}

/// A key has ended before a colon, if a test passes; a space or the end of the line comes.
fn key_if(passes: bool, spot: Spot, sign: Sign) -> Option<Move>
    ensures { result ≡ computed.key_if passes spot sign }
{
    if passes && takes_keys(spot.place) {
        at_next_gap(
            after_key(spot),
            spot.column,
            sign,
            Event::One(Token::Key(spot.column)),
        )
    } else {
        None
    }
}

/// An item, after its dash.
fn item_if(spot: Spot, sign: Sign) -> Option<Move>
    ensures { result ≡ computed.item_if spot sign }
{
    if takes_keys(spot.place) && !is_flow(spot.place) {
        at_next_gap(
            Place::Item(spot.column),
            spot.column,
            sign,
            Event::Item(spot.column),
        )
    } else {
        None
    }
}

/// Whether a place is the start of a line without spaces.
pub(crate) fn is_margin(spot: Spot) -> bool
    ensures { result ≡ computed.is_margin spot.place spot.column }
{
    matches!(spot.place, Place::Line) && spot.column == 0
}

/// After a dash.
fn after_dash(spot: Spot, sign: Sign, byte: u8) -> Option<Move>
    ensures { result ≡ computed.after_dash spot sign byte }
{
    match sign {
        Sign::Space | Sign::Newline => item_if(spot, sign),
        Sign::Dash if is_margin(spot) => to(Control::Dashes, Event::Nothing),
        Sign::Dash | Sign::Start => move_to(Control::Plain(spot), Write::Dash(byte), begin(spot)),
        _ => None,
    }
}

/// After two dashes at the start of a line.
fn after_dashes(sign: Sign, byte: u8) -> Option<Move>
    ensures { result ≡ computed.after_dashes sign byte }
{
    match sign {
        Sign::Dash => to(Control::Closed, Event::One(Token::Marker)),
        Sign::Start => move_to(
            Control::Plain(spot_at(Place::Line, 0)),
            Write::Dashes(byte),
            Event::Begin(0),
        ),
        _ => None,
    }
}

/// After a closing bracket or `---`.
fn after_closed(in_brackets: bool, sign: Sign, byte: u8) -> Option<Move>
    ensures { result ≡ computed.after_closed in_brackets sign byte }
{
    if in_brackets {
        at_flow(0, sign, byte)
    } else {
        at_gap(Place::End, 0, sign, Event::Nothing)
    }
}

/// In a comment.
fn in_comment(sign: Sign) -> Option<Move>
    ensures { result ≡ computed.in_comment sign }
{
    match sign {
        Sign::Newline => to(Control::At(spot_at(Place::Line, 0)), Event::Nothing),
        _ => to(Control::Comment, Event::Nothing),
    }
}

/// More of a plain scalar.
fn more_plain(spot: Spot, byte: u8) -> Option<Move>
    ensures { result ≡ computed.more_plain spot byte }
{
    if may_follow(is_flow(spot.place), 0, byte) {
        move_to(Control::Plain(spot), Write::Add(byte), Event::Nothing)
    } else {
        None
    }
}

/// What ends an entry in brackets.
fn ends_entry(sign: Sign) -> bool
    ensures { result ≡ computed.ends_entry sign }
{
    matches!(sign, Sign::Comma | Sign::Close(_))
}

/// After bytes of a plain scalar.
fn after_plain(spot: Spot, scalar: &[u8], sign: Sign, byte: u8) -> Option<Move>
    ensures { result ≡ computed.after_plain spot scalar.now sign byte }
{
    let in_flow = is_flow(spot.place);
    match sign {
        Sign::Newline => value_if(is_scalar(in_flow, scalar, scalar.len()), spot, sign),
        Sign::Colon => move_to(
            Control::PlainColon(spot, scalar.len()),
            Write::Add(byte),
            Event::Nothing,
        ),
        Sign::Space => move_to(
            Control::PlainSpace(spot, scalar.len()),
            Write::Add(byte),
            Event::Nothing,
        ),
        _ if in_flow && ends_entry(sign) => {
            value_if(is_scalar(in_flow, scalar, scalar.len()), spot, sign)
        }
        _ => more_plain(spot, byte),
    }
}

/// After a colon in a plain scalar.
fn after_colon(spot: Spot, scalar: &[u8], end: usize, sign: Sign, byte: u8) -> Option<Move>
    ensures { result ≡ computed.after_colon spot scalar.now end sign byte }
{
    match sign {
        Sign::Space | Sign::Newline => key_if(
            is_name(is_flow(spot.place), scalar, end),
            spot,
            sign,
        ),
        Sign::Colon => move_to(
            Control::PlainColon(spot, scalar.len()),
            Write::Add(byte),
            Event::Nothing,
        ),
        _ => more_plain(spot, byte),
    }
}

/// A comment after a value, which does not come in brackets.
fn comment_if(passes: bool, spot: Spot) -> Option<Move>
    ensures { result ≡ computed.comment_if passes spot }
{
    if passes && takes_values(spot.place) && !is_flow(spot.place) {
        to(Control::Comment, Event::One(Token::Scalar(spot.column)))
    } else {
        None
    }
}

/// After a space in a plain scalar.
fn after_space(spot: Spot, scalar: &[u8], end: usize, sign: Sign, byte: u8) -> Option<Move>
    ensures { result ≡ computed.after_space spot scalar.now end sign byte }
{
    let in_flow = is_flow(spot.place);
    match sign {
        Sign::Space => move_to(
            Control::PlainSpace(spot, end),
            Write::Add(byte),
            Event::Nothing,
        ),
        Sign::Newline => value_if(is_spaced_scalar(in_flow, scalar, end), spot, sign),
        Sign::Hash => comment_if(is_spaced_scalar(in_flow, scalar, end), spot),
        Sign::Colon => None,
        _ if in_flow && ends_entry(sign) => {
            value_if(is_spaced_scalar(in_flow, scalar, end), spot, sign)
        }
        _ => more_plain(spot, byte),
    }
}

/// Between double quotes.
fn in_double(spot: Spot, byte: u8) -> Option<Move>
    ensures { result ≡ computed.in_double spot byte }
{
    match byte {
        b'"' => to(Control::Quoted(spot), Event::Nothing),
        b'\\' => to(Control::Escape(spot), Event::Nothing),
        b'\n' => None,
        _ => to(Control::Double(spot), Event::Nothing),
    }
}

/// A byte that a backslash may stand before alone.
fn is_escape(byte: u8) -> bool
    ensures { result ≡ scalar_spec.is_escape byte }
{
    matches!(
        byte,
        b'0' | b'a' | b'b' | b't' | b'n' | b'v' | b'f' | b'r' | b'e' | b'"' | b'\\'
    )
}

/// How many hexadecimal digits there are after a letter.
fn digits_after(byte: u8) -> u8
    ensures { result ≡ scalar_spec.digits_after byte }
{
    match byte {
        b'x' => 2,
        b'u' => 4,
        b'U' => 8,
        _ => 0,
    }
}

/// After a backslash.
fn in_escape(spot: Spot, byte: u8) -> Option<Move>
    ensures { result ≡ computed.in_escape spot byte }
{
    if is_escape(byte) {
        to(Control::Double(spot), Event::Nothing)
    } else if digits_after(byte) > 0 {
        to(Control::Code(spot, digits_after(byte), 0), Event::Nothing)
    } else {
        None
    }
}

/// Whether a number is that of a character.
fn is_character(code: u32) -> bool
    ensures { result ≡ scalar_spec.is_character code }
{
    code < 0xD800 || code >= 0xE000 && code < 0x11_0000
}

/// After a digit of a character.
fn after_digit(spot: Spot, left: u8, code: u32) -> Option<Move>
    ensures { result ≡ computed.after_digit spot left code }
{
    if left > 1 {
        to(Control::Code(spot, left - 1, code), Event::Nothing)
    } else if left == 1 && is_character(code) {
        to(Control::Double(spot), Event::Nothing)
    } else {
        None
    }
}

/// A digit of a character.
fn in_code(spot: Spot, left: u8, code: u32, byte: u8) -> Option<Move>
    ensures { result ≡ computed.in_code spot left code byte }
{
    let value = hex_value(byte);
    let next = u64::from(code) * 16 + u64::from(value);
    if value < 16 && next < 0x11_0000 {
        after_digit(spot, left, next as u32)
    } else {
        None
    }
}

/// Between single quotes.
fn in_single(spot: Spot, sign: Sign) -> Option<Move>
    ensures { result ≡ computed.in_single spot sign }
{
    match sign {
        Sign::Single => to(Control::Quote(spot), Event::Nothing),
        Sign::Newline => None,
        _ => to(Control::Single(spot), Event::Nothing),
    }
}

/// A colon after a quoted scalar: in brackets the value may follow at once.
fn at_quoted_colon(spot: Spot) -> Option<Move>
    ensures { result ≡ computed.at_quoted_colon spot }
{
    match spot.place {
        Place::Flow => next_spot(
            Place::Flow,
            spot.column,
            Event::One(Token::Key(spot.column)),
        ),
        place if takes_keys(place) => to(Control::QuotedColon(spot), Event::Nothing),
        _ => None,
    }
}

/// After a quoted scalar.
fn after_quoted(spot: Spot, sign: Sign) -> Option<Move>
    ensures { result ≡ computed.after_quoted spot sign }
{
    match sign {
        Sign::Colon => at_quoted_colon(spot),
        _ => value_if(true, spot, sign),
    }
}

/// After a quote between single quotes.
fn after_quote(spot: Spot, sign: Sign) -> Option<Move>
    ensures { result ≡ computed.after_quote spot sign }
{
    match sign {
        Sign::Single => to(Control::Single(spot), Event::Nothing),
        _ => after_quoted(spot, sign),
    }
}

/// After the mark of a block scalar, and a sign.
fn at_header_end(parent: u64, sign: Sign) -> Option<Move>
    ensures { result ≡ computed.at_header_end parent sign }
{
    match sign {
        Sign::Space => to(Control::HeaderEnd(parent), Event::Nothing),
        Sign::Newline => to(Control::Block(parent, 0), Event::Nothing),
        _ => None,
    }
}

/// After the mark of a block scalar.
fn at_header(parent: u64, sign: Sign, byte: u8) -> Option<Move>
    ensures { result ≡ computed.at_header parent sign byte }
{
    if is_sign(byte) {
        to(Control::HeaderEnd(parent), Event::Nothing)
    } else {
        at_header_end(parent, sign)
    }
}

/// Before the first text of a block scalar. A blank line there is no longer than the least indentation of the text.
fn in_block(parent: u64, column: u64, sign: Sign, byte: u8) -> Option<Move>
    ensures { result ≡ computed.in_block parent column sign byte }
{
    match sign {
        Sign::Newline if column == 0 || column - 1 <= parent => {
            to(Control::Block(parent, 0), Event::Nothing)
        }
        Sign::Newline => None,
        Sign::Space => to(
            Control::Block(parent, column.checked_add(1)?),
            Event::Nothing,
        ),
        _ if column <= parent => at_place(spot_at(Place::Line, column), sign, byte),
        _ if byte == b'\t' => None,
        _ => to(Control::Text(parent, column), Event::Nothing),
    }
}

/// Before the text of a line of a block scalar.
fn in_indent(parent: u64, own: u64, column: u64, sign: Sign, byte: u8) -> Option<Move>
    ensures { result ≡ computed.in_indent parent own column sign byte }
{
    match sign {
        Sign::Newline => to(Control::Indent(parent, own, 0), Event::Nothing),
        _ if column == own => to(Control::Text(parent, own), Event::Nothing),
        Sign::Space => to(
            Control::Indent(parent, own, column.checked_add(1)?),
            Event::Nothing,
        ),
        _ if column <= parent => at_place(spot_at(Place::Line, column), sign, byte),
        _ => None,
    }
}

/// In a line of a block scalar.
fn in_text(parent: u64, own: u64, sign: Sign) -> Option<Move>
    ensures { result ≡ computed.in_text parent own sign }
{
    match sign {
        Sign::Newline => to(Control::Indent(parent, own, 0), Event::Nothing),
        _ => to(Control::Text(parent, own), Event::Nothing),
    }
}

/// What a byte does, or none where no text goes on so.
pub(crate) fn move_of(control: Control, scalar: &[u8], in_brackets: bool, byte: u8) -> Option<Move>
    ensures { result ≡ computed.move_of control scalar.now in_brackets byte }
{
    let sign = sign_of(byte);
    match control {
        Control::At(spot) => at_place(spot, sign, byte),
        Control::Dash(spot) => after_dash(spot, sign, byte),
        Control::Dashes => after_dashes(sign, byte),
        Control::Closed => after_closed(in_brackets, sign, byte),
        Control::Comment => in_comment(sign),
        Control::Plain(_) if !starts_well(scalar, byte) => None,
        Control::Plain(spot) => after_plain(spot, scalar, sign, byte),
        Control::PlainColon(spot, end) => after_colon(spot, scalar, end, sign, byte),
        Control::PlainSpace(spot, end) => after_space(spot, scalar, end, sign, byte),
        Control::Double(spot) => in_double(spot, byte),
        Control::Escape(spot) => in_escape(spot, byte),
        Control::Code(spot, left, code) => in_code(spot, left, code, byte),
        Control::Single(spot) => in_single(spot, sign),
        Control::Quote(spot) => after_quote(spot, sign),
        Control::Quoted(spot) => after_quoted(spot, sign),
        Control::QuotedColon(spot) => key_if(true, spot, sign),
        Control::Header(parent) => at_header(parent, sign, byte),
        Control::HeaderEnd(parent) => at_header_end(parent, sign),
        Control::Block(parent, column) => in_block(parent, column, sign, byte),
        Control::Indent(parent, own, column) => in_indent(parent, own, column, sign, byte),
        Control::Text(parent, own) => in_text(parent, own, sign),
    }
}
