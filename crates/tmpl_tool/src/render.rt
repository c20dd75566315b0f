//! The template looked up and run, and its text written.
ghost use Rattle.std.specs.Prelude.{◌≡◌, ◌≢◌, ◌<◌, ◌^◌, ◌-◌, List, Option, option_map};
ghost use Rattle.std.specs.Option.{ok_or};
ghost use Rattle.tmpl_values.specs.View.{value_of};
ghost use Rattle.tmpl_syntax.specs.Set.{Template};
ghost use Rattle.tmpl_syntax.specs.View.{set_view};
ghost use Rattle.tmpl_meaning.specs.Meaning.{Ran};
ghost use Rattle.tmpl_meaning.specs.Sink.{Told, sunk};
ghost use Rattle.tmpl_meaning.specs.View.{rules_of};
ghost use Rattle.tmpl_engine.specs.Prepared.{IsPrepared};
ghost use Rattle.tmpl_engine.specs.Render.{IsRender};
ghost use Rattle.tmpl_tool.specs.Outcome.{Counted, Gives, Once, Outcome};
ghost use Rattle.tmpl_tool.specs.Tool.{answer_of, asked_name, named_run, only_text, unnamed};
ghost use Rattle.tmpl_tool.specs.View.{request_seen};

use crate::messages::lines::{out_of_memory, run_failed, template_missing, write_failed};
use crate::status::Status;
use crate::words::request::Request;
use std::alloc::Global;
use tmpl_engine::{Options, RenderError, Renderer, Sink, put_all};
use tmpl_syntax::{Set, base_name};
use tmpl_values::Data;

/// Puts a whole text out.
pub(crate) fn put_out<O: Sink, E: Sink>(text: &[u8], out: &mut O, err: &mut E) -> Status
    requires out { (O.so_far out.old).failures < 2 ^ 64 - 1 }
    requires err { (E.so_far err.old).failures < 2 ^ 64 - 1 }
    ensures gives { Gives (only_text text.now)
        (sunk (O.so_far out.old) (O.so_far out.new)) (sunk (E.so_far err.old) (E.so_far err.new)) result.code }
    ensures no_spurious_oom { result.code ≢ 7 }
{
    match put_all(out, text) {
        Ok(()) => Status { code: 0 },
        Err(_) => write_failed(err),
    }
}

/// Says on the error sink how a render of the template of this name ended, and gives its status.
pub fn tell_end<E: Sink>(end: Result<(), RenderError<'_>>, name: &[u8], err: &mut E) -> Status
    requires { (E.so_far err.old).failures < 2 ^ 64 - 1 }
    ensures error_sink_fails_once { Once (E.so_far err.old).failures (E.so_far err.new).failures }
    ensures output_fails_once { (r : Option Ran) (before after : Told) → IsRender r (sunk before after) end.entry
        → Counted before.failures after.failures result.code }
    ensures outcome { (r : Option Ran) (before after : Told) → IsRender r (sunk before after) end.entry
        → Outcome (answer_of (ok_or r (unnamed name.now)))
        (sunk before after)
        (sunk (E.so_far err.old) (E.so_far err.new))
        result.code }
{
    match end {
        Ok(()) => Status { code: 0 },
        Err(error) => tell_error(error, name, err),
    }
}

/// Says why a render of the template of this name ended, and gives the status of that.
fn tell_error<E: Sink>(error: RenderError<'_>, name: &[u8], err: &mut E) -> Status
    requires { (E.so_far err.old).failures < 2 ^ 64 - 1 }
    ensures error_sink_fails_once { Once (E.so_far err.old).failures (E.so_far err.new).failures }
    ensures output_fails_once { (r : Option Ran) (before after : Told) → IsRender r (sunk before after) (Err error.entry)
        → Counted before.failures after.failures result.code }
    ensures outcome { (r : Option Ran) (before after : Told) → IsRender r (sunk before after) (Err error.entry)
        → Outcome (answer_of (ok_or r (unnamed name.now)))
        (sunk before after)
        (sunk (E.so_far err.old) (E.so_far err.new))
        result.code }
{
    match error {
        RenderError::NoTemplate => template_missing(err, name),
        RenderError::Fault(fault) => run_failed(err, &fault),
        RenderError::WriteFailed => write_failed(err),
        RenderError::OutOfMemory => out_of_memory(err),
    }
}

/// The name of the template that is asked for: the one that the words say, or that of the first file's own template.
pub fn asked_name<'a>(request: &Request<'a>) -> &'a [u8]
    ensures { result.now ≡ asked_name (request_seen request.now) }
{
    match request.name {
        Some(name) => name.as_bytes(),
        None => match request.files.first() {
            Some(name) => base_name(*name),
            None => b"",
        },
    }
}

/// Looks the name up, and runs its template.
///
/// The text goes to the output, up to the end or the fault of the run, and what else there is to say to the error sink,
/// as one line. Where a write fails or memory runs out the output is a prefix of the text. It waits in the piece, of
/// any size, until that is full.
pub fn render_named<O: Sink, E: Sink>(
    alloc: Global,
    options: &Options,
    set: &Set,
    name: &[u8],
    data: Option<&Data>,
    piece: &mut [u8],
    out: &mut O,
    err: &mut E,
) -> Status
    requires out { (O.so_far out.old).failures < 2 ^ 64 - 1 }
    requires err { (E.so_far err.old).failures < 2 ^ 64 - 1 }
    ensures { Gives (answer_of (named_run (rules_of options.now) name.now (set_view set.now)
        (option_map (λ d. value_of d.now) «data».entry)))
        (sunk (O.so_far out.old) (O.so_far out.new)) (sunk (E.so_far err.old) (E.so_far err.new)) result.code }
{
    let prepared = Renderer::for_template(alloc, set, name);
    render_prepared(alloc, options, prepared, name, data, piece, out, err)
}

/// Does what [`render_named`] does, with what a render of the template was prepared with: a renderer that may be used
/// again, or why there is none.
pub fn render_prepared<O: Sink, E: Sink>(
    alloc: Global,
    options: &Options,
    prepared: Result<Renderer, RenderError<'_>>,
    name: &[u8],
    data: Option<&Data>,
    piece: &mut [u8],
    out: &mut O,
    err: &mut E,
) -> Status
    requires out { (O.so_far out.old).failures < 2 ^ 64 - 1 }
    requires err { (E.so_far err.old).failures < 2 ^ 64 - 1 }
    ensures { (ts : List Template) → IsPrepared ts name.now prepared.entry
        → Gives (answer_of (named_run (rules_of options.now) name.now ts (option_map (λ d. value_of d.now) «data».entry)))
        (sunk (O.so_far out.old) (O.so_far out.new)) (sunk (E.so_far err.old) (E.so_far err.new)) result.code }
{
    match prepared {
        Ok(renderer) => {
            let end = renderer.render_through(alloc, name, data, options, piece, out);
            tell_end(end, name, err)
        }
        Err(error) => tell_end(Err(error), name, err),
    }
}
