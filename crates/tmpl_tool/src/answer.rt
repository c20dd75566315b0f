//! What is written of the templates: the printed set, or the text of a run.
ghost use Rattle.std.specs.Prelude.{◌<◌, ◌^◌, ◌-◌, option_map};
ghost use Rattle.tmpl_values.specs.View.{value_of};
ghost use Rattle.tmpl_syntax.specs.View.{set_view};
ghost use Rattle.tmpl_syntax.specs.Print.Printed.{printed_set};
ghost use Rattle.tmpl_meaning.specs.Sink.{sunk};
ghost use Rattle.tmpl_tool.specs.Outcome.{Gives};
ghost use Rattle.tmpl_tool.specs.Tool.{answer_of, only_text};
ghost use Rattle.tmpl_tool.specs.View.{request_seen};
ghost use Rattle.tmpl_tool.specs.computed.Load.{finish_wanted};

use crate::messages::lines::out_of_memory;
use crate::render::{asked_name, put_out, render_named};
use crate::status::Status;
use crate::words::request::Request;
use std::alloc::Global;
use tmpl_engine::Sink;
use tmpl_syntax::{Set, print_set};
use tmpl_values::Data;

/// Puts the printed set out.
pub fn print<O: Sink, E: Sink>(alloc: Global, set: &Set, out: &mut O, err: &mut E) -> Status
    requires out { (O.so_far out.old).failures < 2 ^ 64 - 1 }
    requires err { (E.so_far err.old).failures < 2 ^ 64 - 1 }
    ensures { Gives (only_text (printed_set (set_view set.now)))
        (sunk (O.so_far out.old) (O.so_far out.new)) (sunk (E.so_far err.old) (E.so_far err.new)) result.code }
{
    match print_set(alloc, set) {
        Ok(text) => put_out(text.as_slice(), out, err),
        Err(_) => out_of_memory(err),
    }
}

/// How many bytes of the output wait until they are written together.
const PIECE_SIZE: usize = 4096;

/// Prints the set where the arguments ask for that, and else runs the template that they ask for.
pub(crate) fn answer<O: Sink, E: Sink>(
    alloc: Global,
    request: &Request<'_>,
    set: &Set,
    data: Option<&Data>,
    out: &mut O,
    err: &mut E,
) -> Status
    requires out { (O.so_far out.old).failures < 2 ^ 64 - 1 }
    requires err { (E.so_far err.old).failures < 2 ^ 64 - 1 }
    ensures { Gives (answer_of (finish_wanted (request_seen request.now) (set_view set.now)
        (option_map (λ d. value_of d.now) «data».entry)))
        (sunk (O.so_far out.old) (O.so_far out.new)) (sunk (E.so_far err.old) (E.so_far err.new)) result.code }
{
    if request.print {
        print(alloc, set, out, err)
    } else {
        let name = asked_name(request);
        let mut piece = [0; PIECE_SIZE];
        let piece = piece.as_mut_slice();
        render_named(alloc, &request.options, set, name, data, piece, out, err)
    }
}
