//! The command over a source and two sinks.
ghost use Rattle.std.specs.Prelude.{◌≡◌, ◌≢◌, ◌<◌, ◌^◌, ◌-◌, IfSome, None, Ok, map, true};
ghost use Rattle.std.specs.Result.{result_ok};
ghost use Rattle.std.specs.String.{string_bytes};
ghost use Rattle.tmpl_syntax.specs.View.{hash_view};
ghost use Rattle.tmpl_meaning.specs.Sink.{sunk};
ghost use Rattle.tmpl_tool.specs.Help.{asks_help};
ghost use Rattle.tmpl_tool.specs.Inputs.{inputs_of, inputs_seen};
ghost use Rattle.tmpl_tool.specs.Outcome.{Counted, Once};
ghost use Rattle.tmpl_tool.specs.Tool.{EndsAtWords, FollowsFiles, IsParse, Parse, asked_by, no_read};

use crate::answer::answer;
use crate::files::inputs::{Inputs, read_inputs};
use crate::files::source::Source;
use crate::messages::lines::{out_of_memory, refuse, words_refused};
use crate::render::put_out;
use crate::status::Status;
use crate::words::help::asks_help;
use crate::words::request::WordsFault;
use crate::words::request_of;
use std::alloc::Global;
use tmpl_engine::Sink;
use tmpl_syntax::NameHash;

/// What `--help` prints.
static USAGE: &[u8] =
    b"usage: tmpl [--data FILE] [--missingkey default|invalid|zero|error] [--name NAME] \
    [--depth N] [--steps N] [--print] FILE...\n";

/// How the command ended, and what it has read.
#[derive(Drop)]
pub struct Ended {
    pub status: Status,
    /// The templates and the data; none where it ended before it had all that it needs.
    pub inputs: Option<Inputs>,
}

/// The command `tmpl` over a source of files, an output and an error sink.
///
/// What is written, the line on the error sink and the status are one function of the arguments and of what the files
/// hold. Where a write fails the output is a prefix of that text, and the exit status 6. Where memory runs out it is a
/// prefix too, and nothing where no string is made, and the exit status 7. Arguments that ask for help or are refused
/// read no file. One read is made for each FILE and then one for the data of a run, in order, up to where the command
/// stops. All memory that the call takes it gives back.
pub fn tool<S: Source, O: Sink, E: Sink>(
    alloc: Global,
    words: &[String],
    source: &mut S,
    out: &mut O,
    err: &mut E,
) -> Status
    requires source { S.failures source.old < 2 ^ 64 - 1 }
    requires out { (O.so_far out.old).failures < 2 ^ 64 - 1 }
    requires err { (E.so_far err.old).failures < 2 ^ 64 - 1 }
    ensures source_fails_once { Once (S.failures source.old) (S.failures source.new) }
    ensures output_fails_once { Counted (O.so_far out.old).failures (O.so_far out.new).failures result.code }
    ensures error_sink_fails_once { Once (E.so_far err.old).failures (E.so_far err.new).failures }
    ensures help_needs_no_memory { asks_help (map (λ word. string_bytes word) words.now) ≡ true → result.code ≢ 7 }
    ensures reads_nothing { EndsAtWords (map (λ word. string_bytes word) words.now) (source.new ≡ source.old)
        (sunk (O.so_far out.old) (O.so_far out.new)) (sunk (E.so_far err.old) (E.so_far err.new)) result.code }
    ensures matches_spec { FollowsFiles (map (λ word. string_bytes word) words.now) (S.contents source.old) (record {
      failed_before = S.failures source.old;
      failed_after = S.failures source.new;
      asked_before = S.asked source.old;
      asked_after = S.asked source.new;
      out = sunk (O.so_far out.old) (O.so_far out.new);
      err = sunk (E.so_far err.old) (E.so_far err.new);
      code = result.code;
    }) }
{
    tool_keeping(alloc, NameHash::fixed(), words, source, out, err).status
}

/// Does what `tool` does, and hands back what was read in place of giving back its memory: a program that ends next can
/// leave that to the system. The names of templates and of variables are hashed by the keys that it is given, which
/// makes no difference to any answer.
pub fn tool_keeping<S: Source, O: Sink, E: Sink>(
    alloc: Global,
    names: NameHash,
    words: &[String],
    source: &mut S,
    out: &mut O,
    err: &mut E,
) -> Ended
    requires source { S.failures source.old < 2 ^ 64 - 1 }
    requires out { (O.so_far out.old).failures < 2 ^ 64 - 1 }
    requires err { (E.so_far err.old).failures < 2 ^ 64 - 1 }
    ensures source_fails_once { Once (S.failures source.old) (S.failures source.new) }
    ensures output_fails_once { Counted (O.so_far out.old).failures (O.so_far out.new).failures result.status.code }
    ensures error_sink_fails_once { Once (E.so_far err.old).failures (E.so_far err.new).failures }
    ensures help_needs_no_memory { asks_help (map (λ word. string_bytes word) words.now) ≡ true → result.status.code ≢ 7 }
    ensures reads_nothing { EndsAtWords (map (λ word. string_bytes word) words.now) (source.new ≡ source.old)
        (sunk (O.so_far out.old) (O.so_far out.new)) (sunk (E.so_far err.old) (E.so_far err.new)) result.status.code }
    ensures matches_spec { FollowsFiles (map (λ word. string_bytes word) words.now) (S.contents source.old) (record {
      failed_before = S.failures source.old;
      failed_after = S.failures source.new;
      asked_before = S.asked source.old;
      asked_after = S.asked source.new;
      out = sunk (O.so_far out.old) (O.so_far out.new);
      err = sunk (E.so_far err.old) (E.so_far err.new);
      code = result.status.code;
    }) }
    ensures inputs { IfSome result.inputs (λ inputs. (hash_view inputs.set ≡ names)
        × ((parse : Parse) → IsParse parse → IfSome (S.contents source.old) (λ files.
        IfSome (result_ok (asked_by (map (λ word. string_bytes word) words.now))) (λ w.
        inputs_of parse files w no_read ≡ Ok (inputs_seen inputs))))) }
{
    if asks_help(words) {
        return end_with(put_out(USAGE, out, err));
    }
    match request_of(alloc, words) {
        Ok(request) => match read_inputs(alloc, names, &request, source) {
            Ok(inputs) => Ended {
                status: answer(alloc, &request, &inputs.set, inputs.data.as_ref(), out, err),
                inputs: Some(inputs),
            },
            Err(stop) => end_with(refuse(err, &stop)),
        },
        Err(WordsFault::NotAccepted) => end_with(words_refused(err)),
        Err(WordsFault::OutOfMemory) => end_with(out_of_memory(err)),
    }
}

/// An end before all was read.
fn end_with(status: Status) -> Ended
    ensures status { result.status ≡ status }
    ensures inputs { result.inputs ≡ None }
{
    Ended {
        status,
        inputs: None,
    }
}
