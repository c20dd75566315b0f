//! The file system and standard input as a source, of which nothing is told but its failures, and random numbers.
ghost use Rattle.std.specs.Prelude.{◌≡◌, IfOk, IfSome, None, take};
ghost use Rattle.tmpl.specs.Adapter.{read_result, source_fault};

use std::alloc::Global;
use std::fs::File;
use std::io::{self, ErrorKind, Input, Read};
use std::random::RandomSource;
use std::rt::Files;
use tmpl_tool::{Source, SourceFault};

/// The name by which standard input is read. It is never opened by its name: the system refuses to open a socket so, and a
/// file that another user opened.
const STANDARD_INPUT: &str = "/dev/stdin";

/// The file system, with standard input.
#[derive(Drop)]
pub(crate) struct FileSource<'a, R> {
    rt: &'a R,
    failures: u64,
}

impl<'a, R: Files + Input + AllocGlobal> FileSource<'a, R> {
    /// The file system of the runtime.
    pub(crate) fn new(rt: &'a R) -> FileSource<'a, R>
        ensures { result.failures ≡ 0 }
    {
        FileSource { rt, failures: 0 }
    }
}

impl<'a, R: Files + Input + AllocGlobal> Source for FileSource<'a, R> {
    ghost contents = { λ _. None };

    ghost failures = { λ s. s.failures };

    fn read(&mut self, alloc: Global, name: &str) -> Result<Vec<u8>, SourceFault> {
        let read = result_of_read(read_named(alloc, self.rt, name, u64::MAX));
        if let Err(SourceFault::Failed) = read {
            self.failures += 1;
        }
        read
    }

    fn read_up_to(&mut self, alloc: Global, name: &str, most: u64) -> Result<Vec<u8>, SourceFault> {
        let read = result_of_read(read_named(alloc, self.rt, name, most.saturating_add(1)));
        if let Err(SourceFault::Failed) = read {
            self.failures += 1;
        }
        read
    }
}

/// The first bytes of a file, as many as are asked for if it has them.
fn read_named<R: Files + Input>(
    alloc: Global,
    rt: &R,
    name: &str,
    count: u64,
) -> io::Result<Vec<u8>> {
    if name == STANDARD_INPUT {
        read_front(alloc, rt.reader(), count)
    } else {
        read_front(alloc, File::open(rt, name)?, count)
    }
}

/// The first bytes that a reader has left, as many as are asked for if it has them.
fn read_front<R: Read + Drop>(alloc: Global, reader: R, count: u64) -> io::Result<Vec<u8>>
    ensures front { IfOk result (λ bytes. IfSome (R.remaining reader) (λ xs. bytes.items ≡ take count xs)) }
{
    let mut bytes = Vec::new(alloc);
    reader.take(count).read_to_end(&mut bytes)?;
    Ok(bytes)
}

/// A number that nobody outside can know.
pub(crate) fn random_key(rt: &impl RandomSource) -> io::Result<u64> {
    let mut bytes = [0; 8];
    rt.fill_bytes(&mut bytes)?;
    Ok(u64::from_le_bytes(bytes))
}

/// What a read of the system answers.
fn result_of_read(read: io::Result<Vec<u8>>) -> Result<Vec<u8>, SourceFault>
    ensures { result ≡ read_result read }
{
    match read {
        Ok(bytes) => Ok(bytes),
        Err(error) => Err(source_fault(error.kind())),
    }
}

/// Why a file could not be read.
fn source_fault(kind: ErrorKind) -> SourceFault
    ensures { result ≡ source_fault kind }
{
    match kind {
        ErrorKind::NotFound => SourceFault::NotFound,
        ErrorKind::OutOfMemory => SourceFault::OutOfMemory,
        _ => SourceFault::Failed,
    }
}
