//! The files of a request, read from the file system.

use crate::stop::Stop;
use crate::words::Request;
use std::fs::File;
use std::io::{self, ErrorKind, Read};
use std::random::RandomSource;
use tmpl_problems::Source;
use tmpl_report::Sources;
use tmpl_syntax::NameHash;

/// The name by which standard input is read.
const STANDARD_INPUT: &str = "/dev/stdin";

/// The most bytes that are read of a template file: one more than it may have.
const MOST_READ: u64 = 16_777_217;

/// Reads the files of a request, and says of each that can't be read why.
pub(crate) fn load_all<'a>(rt: &HostRuntime, request: &Request<'a>) -> Result<Sources<'a>, Stop> {
    let mut all = Sources {
        templates: Vec::new(rt.alloc()),
        data: None,
        schema: None,
        is_short: false,
    };
    load_templates(rt, request.files.as_slice(), false, &mut all)?;
    load_templates(rt, request.libraries.as_slice(), true, &mut all)?;
    if let Some(name) = request.data_file {
        all.data = load(rt, name, u64::MAX)?;
        if all.data.is_none() {
            all.is_short = true;
        }
    }
    if let Some(name) = request.schema_file {
        all.schema = load(rt, name, u64::MAX)?;
        if all.schema.is_none() {
            all.is_short = true;
        }
    }
    Ok(all)
}

/// Reads template files, and says of each that can't be read why.
fn load_templates<'a>(
    rt: &HostRuntime,
    names: &[&'a str],
    is_library: bool,
    all: &mut Sources<'a>,
) -> Result<(), Stop> {
    for name in names {
        match load(rt, *name, MOST_READ)? {
            Some(loaded) => all.templates.push(Source {
                is_library,
                ..loaded
            })?,
            None => all.is_short = true,
        }
    }
    Ok(())
}

/// Reads a file; none where that can't be done, which is said.
pub(crate) fn load<'a>(
    rt: &HostRuntime,
    name: &'a str,
    most: u64,
) -> Result<Option<Source<'a>>, Stop> {
    match read_front(rt, name, most) {
        Ok(bytes) => Ok(Some(Source {
            name,
            bytes,
            is_library: false,
        })),
        Err(error) => match error.kind() {
            ErrorKind::OutOfMemory => Err(Stop::OutOfMemory),
            ErrorKind::NotFound => {
                let _ = eprintln!(rt; "tmpl-check: {name}: no such file");
                Ok(None)
            }
            kind => {
                let _ = eprintln!(rt; "tmpl-check: {name}: can't be read: {kind}");
                Ok(None)
            }
        },
    }
}

/// The first bytes of a file, as many as are asked for if it has them.
fn read_front(rt: &HostRuntime, name: &str, count: u64) -> io::Result<Vec<u8>> {
    let mut bytes = Vec::new(rt.alloc());
    if name == STANDARD_INPUT {
        rt.reader().take(count).read_to_end(&mut bytes)?;
    } else {
        File::open(rt, name)?.take(count).read_to_end(&mut bytes)?;
    }
    Ok(bytes)
}

/// How names are hashed: by random keys, so that nobody can choose names that are hashed alike; by known keys where the
/// system has no random bytes to give.
pub(crate) fn name_hash(rt: &impl RandomSource) -> NameHash {
    match (random_key(rt), random_key(rt)) {
        (Ok(first), Ok(second)) => NameHash::keyed(first, second),
        _ => NameHash::fixed(),
    }
}

/// A number that nobody outside can know.
fn random_key(rt: &impl RandomSource) -> io::Result<u64> {
    let mut bytes = [0; 8];
    rt.fill_bytes(&mut bytes)?;
    Ok(u64::from_le_bytes(bytes))
}
