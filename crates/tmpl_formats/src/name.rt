//! The names of formats.
ghost use Rattle.std.specs.Prelude.{◌≡◌, ◌++◌, false, codes, nat_eq, IfOk, IfSome};
ghost use Rattle.std.specs.List.{starts_with};
ghost use Rattle.tmpl_formats.specs.Name.{with_digit, columns_of, plain_named, format_named, IsNamed};

use crate::format::Format;
use crate::pattern::Pattern;
use crate::yaml_scalar::is_same;
use std::alloc::{AllocError, Global};
use std::str::from_utf8;

/// One digit more of a number of columns.
fn with_digit(columns: u32, byte: u8) -> Option<u32>
    ensures { result ≡ with_digit columns byte }
{
    if !byte.is_ascii_digit() || columns == 0 && byte == b'0' {
        return None;
    }
    let next = u64::from(columns) * 10 + u64::from(byte - b'0');
    if next < 0x1_0000_0000 {
        Some(next as u32)
    } else {
        None
    }
}

/// The number of columns that digits write, from 1 on, without a zero before it.
fn columns_of(digits: &[u8]) -> Option<u32>
    ensures { result ≡ columns_of digits.now }
{
    let mut columns = 0;
    for byte in digits {
        match with_digit(columns, *byte) {
            Some(next) => columns = next,
            None => return None,
        }
    }
    if columns == 0 { None } else { Some(columns) }
}

/// The format of a name that has no number.
fn plain_named(name: &[u8]) -> Option<Format>
    ensures { result ≡ plain_named name.now }
{
    if is_same(name, b"json") {
        Some(Format::Json)
    } else if is_same(name, b"jsonl") {
        Some(Format::JsonLines)
    } else if is_same(name, b"env") {
        Some(Format::Env)
    } else if is_same(name, b"nginx") {
        Some(Format::Nginx)
    } else if is_same(name, b"yaml") {
        Some(Format::Yaml)
    } else {
        None
    }
}

/// The format of a name that has no pattern.
fn simply_named(name: &[u8]) -> Option<Format>
    ensures { result ≡ format_named name.now }
{
    if name.starts_with(b"csv:") {
        Some(Format::Csv(columns_of(&name[4..])?))
    } else {
        plain_named(name)
    }
}

/// Lines with a match of the pattern that this writes.
fn lines_named(alloc: Global, written: &[u8]) -> Result<Option<Format>, AllocError>
    ensures { IfOk result (λ read. IfSome read (λ format. IsNamed (codes "lines:" ++ written.now) format)) }
{
    let Ok(text) = from_utf8(written) else {
        return Ok(None);
    };
    let Some(pattern) = Pattern::read(alloc, text)? else {
        return Ok(None);
    };
    Ok(Some(Format::Lines(pattern)))
}

impl Format {
    /// The format of this name: `json`, `jsonl`, `env`, `nginx`, `yaml`, `csv:N` of N columns, or `lines:PATTERN`.
    pub fn named(alloc: Global, name: &[u8]) -> Result<Option<Format>, AllocError>
        ensures named { IfOk result (λ read. IfSome read (λ format. IsNamed name.now format)) }
        ensures no_pattern { starts_with nat_eq name.now (codes "lines:") ≡ false → IfOk result (λ read. read ≡ format_named name.now) }
    {
        if name.starts_with(b"lines:") {
            return lines_named(alloc, &name[6..]);
        }
        Ok(simply_named(name))
    }
}
