//! Which build the program is, as `make install` writes it into the program's file.

use crate::stop::Stop;
use std::alloc::{AllocError, Global};
use std::fs::File;
use std::io::{self, ErrorKind, Read};
use std::str::from_utf8;

/// The file of the program that runs.
const OWN_FILE: &str = "/proc/self/exe";

/// The name of the section that says which build a program is.
const SECTION: &[u8] = b".tmpl.build";

/// What `--version` says.
pub(crate) fn version_line(rt: &HostRuntime) -> Result<String, Stop> {
    let alloc = rt.alloc();
    match own_bytes(rt) {
        Ok(bytes) => Ok(line_in(alloc, bytes.as_slice())?),
        Err(error) if error.kind() == ErrorKind::OutOfMemory => Err(Stop::OutOfMemory),
        Err(_) => Ok(String::from_str(
            alloc,
            "tmpl-check: which build it is can't be read from /proc/self/exe\n",
        )?),
    }
}

/// The bytes of the program's own file.
fn own_bytes(rt: &HostRuntime) -> io::Result<Vec<u8>> {
    let mut bytes = Vec::new(rt.alloc());
    File::open(rt, OWN_FILE)?.read_to_end(&mut bytes)?;
    Ok(bytes)
}

/// What a program's file says of its build.
fn line_in(alloc: Global, file: &[u8]) -> Result<String, AllocError> {
    match section_text(file) {
        Some(build) => {
            let mut line = String::from_str(alloc, "tmpl-check of ")?;
            line.push_str(build.trim_ascii())?;
            line.push('\n')?;
            Ok(line)
        }
        None => String::from_str(
            alloc,
            "tmpl-check of a checkout: make install writes into it which build it is\n",
        ),
    }
}

/// The text of the section that says which build it is, in a file of ELF of 64 bits, the lowest byte of a number first.
fn section_text(file: &[u8]) -> Option<&str> {
    if !file.starts_with(b"\x7fELF\x02\x01") {
        return None;
    }
    let table = number_at(file, 0x28, 8)?;
    let size = number_at(file, 0x3a, 2)?;
    let count = number_at(file, 0x3c, 2)?;
    let names = section(file, table, size, number_at(file, 0x3e, 2)?)?;
    for index in 0..count {
        let header = table.checked_add(size.checked_mul(index)?)?;
        let name = names.get(number_at(file, header, 4)?..)?;
        if is_named(name, SECTION) {
            return from_utf8(section(file, table, size, index)?).ok();
        }
    }
    None
}

/// The bytes of the section of this number.
fn section(file: &[u8], table: usize, size: usize, index: usize) -> Option<&[u8]> {
    let header = table.checked_add(size.checked_mul(index)?)?;
    let start = number_at(file, header.checked_add(0x18)?, 8)?;
    let end = start.checked_add(number_at(file, header.checked_add(0x20)?, 8)?)?;
    file.get(start..end)
}

/// Whether a name that a zero ends is this one.
fn is_named(bytes: &[u8], name: &[u8]) -> bool {
    bytes.starts_with(name) && bytes.get(name.len()) == Some(&0)
}

/// The number of this many bytes there, the lowest first.
fn number_at(file: &[u8], start: usize, len: usize) -> Option<usize> {
    let bytes = file.get(start..start.checked_add(len)?)?;
    let mut number = 0_usize;
    for byte in bytes.iter().rev() {
        number = number.checked_mul(256)?.checked_add(*byte as usize)?;
    }
    Some(number)
}
