//! Where in the bytes of a document its parts stand.
ghost use Rattle.std.specs.Prelude.{◌≡◌, ◌≤◌, ◌+◌, true, IfOk, IfSome, length, drop, map, slice_get, Some};
ghost use Rattle.std.specs.Str.{byte};
ghost use Rattle.std.specs.List.{prefix_len};
ghost use Rattle.std.specs.String.{string_bytes};
ghost use Rattle.std.specs.Str.Parse.{IsNumeral, without_leading_plus};
ghost use Rattle.tmpl_problems.specs.Position as spec;
ghost use Rattle.tmpl_problems.specs.Position.{Begins, IsLine, IsNamed, IsPosition, IsKey, IsStart};
ghost use Rattle.tmpl_syntax.specs.Column.{column_at, line_at};

use crate::Result;
use std::alloc::Global;
use tmpl_syntax::Place;

/// The line and the column of a byte, or of the end.
fn place_of(bytes: &[u8], start: usize) -> (u64, u64)
    requires { start ≤ length bytes.now }
    ensures line { result.0 ≡ line_at bytes.now start }
    ensures column { result.1 ≡ column_at bytes.now start }
{
    let place = Place::first().at(bytes, start);
    (place.line, place.column)
}

/// A member or an item: where its key or itself begins, and its value.
#[derive(Clone, Copy)]
struct Part {
    start: usize,
    value: usize,
}

/// Where what is at a path stands in a JSON text: the last part of the path stands first.
fn start_of(bytes: &[u8], path: &[String]) -> usize
    ensures start { IsStart bytes.now result }
    ensures begins { Begins bytes.now (map (λ name. string_bytes name) path.now) result }
{
    let mut part = whole(bytes);
    for index in (0..path.len()).rev() {
        match inner_part(bytes, part.value, path[index].as_str()) {
            Some(inner) => part = inner,
            None => return part.start,
        }
    }
    part.start
}

/// The line and the column of what is at a path in a JSON text, or around it: the last part of the path stands first.
pub fn position_of(bytes: &[u8], path: &[String]) -> (u64, u64)
    ensures { IsPosition bytes.now (map (λ name. string_bytes name) path.now) result }
{
    place_of(bytes, start_of(bytes, path))
}

/// The line of what a JSON Pointer points to, or of its key; none where that is not seen, as a key with escapes is not.
pub fn line_of(alloc: Global, bytes: &[u8], pointer: &str) -> Result<Option<u64>>
    ensures { IfOk result (λ line. IfSome line (IsLine bytes.now)) }
{
    let mut part = whole(bytes);
    for name in pointer.split('/').skip(1) {
        let name = without_escapes(alloc, name)?;
        match inner_part(bytes, part.value, name.as_str()) {
            Some(inner) => part = inner,
            None => return Ok(None),
        }
    }
    let (line, _) = place_of(bytes, part.start);
    Ok(Some(line))
}

/// A part of a JSON Pointer without its escapes.
fn without_escapes(alloc: Global, part: &str) -> Result<String> {
    let mut text = String::new(alloc);
    let mut is_escaped = false;
    for letter in part.chars() {
        let meant = match letter {
            '0' if is_escaped => '~',
            '1' if is_escaped => '/',
            _ => letter,
        };
        if letter != '~' {
            text.push(meant)?;
        }
        is_escaped = letter == '~';
    }
    Ok(text)
}

/// The value that a JSON text is.
fn whole(bytes: &[u8]) -> Part
    ensures start { IsStart bytes.now result.start }
    ensures first { result.start ≡ prefix_len spec.is_space bytes.now }
{
    let value = after_space(bytes, 0);
    Part {
        start: value,
        value,
    }
}

/// The member of this key, or the item of this index, of the value that begins here: of several the last.
fn inner_part(bytes: &[u8], start: usize, name: &str) -> Option<Part>
    ensures { IfSome result (λ part. IsStart bytes.now part.start × IsNamed bytes.now part.start name.now) }
{
    let is_object = bytes.get(start).copied() == Some(b'{');
    let mut at = after_space(bytes, start.saturating_add(1));
    let mut found = None;
    for index in 0..bytes.len() {
        let part = part_at(bytes, at, is_object);
        if is_named(bytes, part.start, is_object, index, name) {
            found = Some(part);
        }
        let next = after_space(bytes, after_value(bytes, part.value));
        if bytes.get(next).copied() != Some(b',') {
            break;
        }
        at = after_space(bytes, next.saturating_add(1));
    }
    found
}

/// The member or the item that begins here.
fn part_at(bytes: &[u8], start: usize, is_member: bool) -> Part
    ensures { result.start ≡ start }
{
    let mut value = start;
    if is_member {
        let colon = after_space(bytes, after_value(bytes, start));
        value = after_space(bytes, colon.saturating_add(1));
    }
    Part { start, value }
}

/// Whether the member that begins here has this key, or the item of this index this name.
fn is_named(bytes: &[u8], start: usize, is_member: bool, index: usize, name: &str) -> bool
    requires { start ≤ length bytes.now }
    ensures { result ≡ true → IsNamed bytes.now start name.now }
{
    if is_member {
        is_key(bytes, start, after_value(bytes, start), name)
    } else {
        is_index(index, name)
    }
}

/// Whether the key stands in quotes between these places.
#[tactic(auto, using(crate::proofs::PositionLemmas::stands_between))]
fn is_key(bytes: &[u8], start: usize, end: usize, key: &str) -> bool
    requires { start ≤ length bytes.now }
    ensures { result ≡ true → IsKey bytes.now start key.now }
{
    let last = end.saturating_sub(1);
    match bytes.get(start + 1..last) {
        Some(inside) => {
            inside == key.as_bytes() && is_quote(bytes, start) && is_quote(bytes, last)
        }
        None => false,
    }
}

/// Whether a quotation mark stands here.
fn is_quote(bytes: &[u8], at: usize) -> bool
    ensures { result ≡ true → slice_get bytes.now at ≡ Some (byte "\"") }
{
    bytes.get(at).copied() == Some(b'"')
}

/// Whether the digits are those of the index.
fn is_index(index: usize, digits: &str) -> bool
    ensures { result ≡ true → IsNumeral 10 (without_leading_plus digits.now) }
{
    match digits.parse::<u64>() {
        Ok(wanted) => wanted == index as u64,
        Err(_) => false,
    }
}

/// The place after white space, or the end where there is nothing here.
#[tactic(auto, using(crate::proofs::PositionLemmas::at_end))]
fn after_space(bytes: &[u8], start: usize) -> usize
    ensures start { IsStart bytes.now result }
    ensures value { start ≤ length bytes.now → result ≡ start + prefix_len spec.is_space (drop start bytes.now) }
{
    if start <= bytes.len() {
        start + space_len(&bytes[start..])
    } else {
        bytes.len()
    }
}

/// How many bytes of white space there are at the front.
fn space_len(bytes: &[u8]) -> usize
    ensures value { result ≡ prefix_len spec.is_space bytes.now }
    ensures within { result ≤ length bytes.now }
{
    bytes.iter().take_while(|b| is_space(**b)).count()
}

/// Whether this is white space of JSON.
fn is_space(byte: u8) -> bool
    ensures { result ≡ spec.is_space byte }
{
    matches!(byte, b' ' | b'\t' | b'\n' | b'\r')
}

/// The place after the value, or the key, that begins here.
fn after_value(bytes: &[u8], start: usize) -> usize {
    let mut depth: usize = 0;
    let mut is_text = false;
    let mut is_escaped = false;
    let mut at = start;
    for byte in bytes.get(start..).unwrap_or(&[]) {
        if is_escaped {
            is_escaped = false;
        } else if is_text {
            is_escaped = *byte == b'\\';
            is_text = *byte != b'"';
            if !is_text && depth == 0 {
                return at.saturating_add(1);
            }
        } else {
            match *byte {
                b'"' => is_text = true,
                b'{' | b'[' => depth = depth.saturating_add(1),
                b'}' | b']' if depth == 0 => return at,
                b'}' | b']' => {
                    depth = depth.saturating_sub(1);
                    if depth == 0 {
                        return at.saturating_add(1);
                    }
                }
                b',' | b':' if depth == 0 => return at,
                _ => {}
            }
        }
        at = at.saturating_add(1);
    }
    at
}
