//! The command `tmpl`: renders templates of the language of Go's `text/template` with data from JSON.
#![tactic(auto)]

ghost use Rattle.std.specs.Prelude.{◌≡◌, ◌<◌, ◌-◌, ◌^◌};
ghost use Rattle.std.specs.Process.{exit_status};
ghost use Rattle.tmpl_meaning.specs.Sink.{sunk};
ghost use Rattle.tmpl.specs.Adapter.{SaysFlush, status_after_flush};

mod adapters;

use crate::adapters::{FileSource, random_key};
use std::io::ErrorKind;
use std::process::ExitCode;
use std::random::RandomSource;
use std::{env, mem};
use tmpl_engine::{NameHash, Sink, SinkFault, WriterSink};
use tmpl_tool::{Status, out_of_memory, tool_keeping, words_refused, write_failed};

/// Runs the command over the file system and the standard streams.
fn main(rt: HostRuntime) -> ExitCode {
    let alloc = rt.alloc();
    let mut source = FileSource::new(&rt);
    let mut out = WriterSink::new(rt.stdout());
    let mut err = WriterSink::new(rt.stderr());
    let words: Vec<String> = match env::args(&rt) {
        Ok(words) => match words.collect(alloc) {
            Ok(words) => words,
            Err(_) => return exit(out_of_memory(&mut err)),
        },
        Err(error) if error.kind() == ErrorKind::OutOfMemory => {
            return exit(out_of_memory(&mut err));
        }
        Err(_) => return exit(words_refused(&mut err)),
    };
    let ended = tool_keeping(
        alloc,
        name_hash(&rt),
        words.as_slice(),
        &mut source,
        &mut out,
        &mut err,
    );
    let status = after_flush(out.flush(), ended.status, &mut err);
    // The process ends here, which gives all memory back at once; to free each value of a large file takes longer.
    mem::forget(ended.inputs);
    exit(status)
}

/// How names are hashed: by random keys, so that nobody can choose names that are hashed alike. Where the system has no
/// random bytes to give, it is by known keys, and every answer is the same.
fn name_hash(rt: &impl RandomSource) -> NameHash {
    match (random_key(rt), random_key(rt)) {
        (Ok(first), Ok(second)) => NameHash::keyed(first, second),
        _ => NameHash::fixed(),
    }
}

/// The status after the last flush of the output; where that fails and all went well before, it says so.
fn after_flush<E: Sink>(flush: Result<(), SinkFault>, status: Status, err: &mut E) -> Status
    requires { (E.so_far err.old).failures < 2 ^ 64 - 1 }
    ensures code { result.code ≡ status_after_flush flush status.code }
    ensures line { SaysFlush flush status.code (sunk (E.so_far err.old) (E.so_far err.new)) }
{
    match flush {
        Err(SinkFault) if status.code == 0 => write_failed(err),
        _ => status,
    }
}

/// The status as the process's exit code.
fn exit(status: Status) -> ExitCode
    ensures { exit_status result ≡ status.code }
{
    ExitCode::from(status.code)
}
