//! A render of what the caller keeps.
ghost use Rattle.std.specs.Prelude.{◌≡◌, ◌<◌, ◌^◌, ◌-◌, [], option_map};
ghost use Rattle.tmpl_values.specs.View.{value_of};
ghost use Rattle.tmpl_meaning.specs.Sink.{sunk};
ghost use Rattle.tmpl_engine.specs.View.{templates_of};
ghost use Rattle.tmpl_tool.specs.Outcome.{Outcome};
ghost use Rattle.tmpl_tool.specs.Tool.{printed, stop_answer};
ghost use Rattle.tmpl_c.specs.Filled.{limit_text};
ghost use Rattle.tmpl_c.specs.Given.{HoldsBy};
ghost use Rattle.tmpl_c.specs.Held.{templates_in, templates_run, value_in};
ghost use Rattle.tmpl_c.specs.Texts.{Holds, bytes_in};
ghost use Rattle.tmpl_c.specs.computed.Gathering.{told_of, nothing_put};
ghost use Rattle.tmpl_c.specs.computed.Outputs.{IsFilledBy, IsSameMemory, answer_by, run_by, templates_borrowed};

use crate::buffer::Buffer;
use crate::data_handle::DataHandle;
use crate::gathered::Gathered;
use crate::program_handle::ProgramHandle;
use crate::render::{PIECE_SIZE, conclude, finish, run_prepared, settle};
use crate::set_handle::SetHandle;
use crate::settings::{Settings, options_in};
use crate::text::Text;
use std::alloc::Global;
use tmpl_engine::{Engine, RenderError, Renderer};
use tmpl_tool::{print, tell_end};
use tmpl_values::Data;

/// The settings that ask for the printed set.
const PRINTED: Settings<'static> = Settings {
    size: 0,
    steps: 0,
    depth: 0,
    missing_key: 0,
    print: 1,
    output: 0,
    writes: &[],
};

/// Prints a set, or runs the template of this name of it.
fn run_engine(
    alloc: Global,
    settings: &Settings<'_>,
    engine: &mut Engine,
    name: &[u8],
    data: Option<&Data>,
    out: &mut Gathered,
    err: &mut Gathered,
) -> u8
    requires out { out.old.failures < 2 ^ 64 - 1 }
    requires err { err.old.failures < 2 ^ 64 - 1 }
    ensures outcome { Outcome
        (answer_by settings.now (templates_of engine.old) name.now (option_map (λ d. value_of d.now) «data».entry))
        (sunk (told_of out.old) (told_of out.new)) (sunk (told_of err.old) (told_of err.new)) result }
    ensures same { engine.new ≡ engine.old }
{
    if settings.print == 1 {
        return print(alloc, engine.templates(), out, err).code;
    }
    let prepared = engine.renderer_for(alloc, name);
    run_prepared(alloc, settings, prepared, name, data, out, err)
}

/// Prints a set that is kept, or one of no templates, or runs the template of this name of it.
fn run_set_with(
    alloc: Global,
    settings: &Settings<'_>,
    set: &mut SetHandle,
    name: &[u8],
    data: Option<&Data>,
    out: &mut Gathered,
    err: &mut Gathered,
) -> u8
    requires out { out.old.failures < 2 ^ 64 - 1 }
    requires err { err.old.failures < 2 ^ 64 - 1 }
    ensures outcome { Outcome
        (answer_by settings.now (templates_in set.old.held) name.now (option_map (λ d. value_of d.now) «data».entry))
        (sunk (told_of out.old) (told_of out.new)) (sunk (told_of err.old) (told_of err.new)) result }
    ensures set { set.new.held ≡ set.old.held }
{
    match set.take(alloc) {
        None => run_engine(
            alloc,
            settings,
            &mut Engine::new(alloc),
            name,
            data,
            out,
            err,
        ),
        Some(mut kept) => {
            let code = run_engine(alloc, settings, &mut kept, name, data, out, err);
            set.put(alloc, kept);
            code
        }
    }
}

/// Does so with data that is kept. Both are taken out for that, and put back.
fn run_set(
    alloc: Global,
    settings: &Settings<'_>,
    set: &mut SetHandle,
    data: &mut DataHandle,
    name: &[u8],
    out: &mut Gathered,
    err: &mut Gathered,
) -> u8
    requires out { out.old.failures < 2 ^ 64 - 1 }
    requires err { err.old.failures < 2 ^ 64 - 1 }
    ensures outcome { Outcome (answer_by settings.now (templates_in set.old.held) name.now (value_in «data».old.held))
        (sunk (told_of out.old) (told_of out.new)) (sunk (told_of err.old) (told_of err.new)) result }
    ensures set { set.new.held ≡ set.old.held }
    ensures kept { «data».new.held ≡ «data».old.held }
{
    match data.take(alloc) {
        None => run_set_with(alloc, settings, set, name, None, out, err),
        Some(kept) => {
            let code = run_set_with(alloc, settings, set, name, Some(&kept.data), out, err);
            data.put(alloc, kept);
            code
        }
    }
}

/// Renders what is kept into the caller's buffers.
pub(crate) fn render_set(
    alloc: Global,
    settings: &Settings<'_>,
    set: &mut SetHandle,
    data: &mut DataHandle,
    name: &[u8],
    out: &mut Buffer<'_>,
    err: &mut Buffer<'_>,
) -> u8
    ensures filled { IsFilledBy settings.now.writes.now (limit_text settings.now.output
        (answer_by settings.now (templates_in set.old.held) name.now (value_in «data».old.held)))
        out.old out.new err.old err.new result }
    ensures borrows { IsSameMemory out.old out.new × IsSameMemory err.old err.new }
    ensures set { set.new.held ≡ set.old.held }
    ensures kept { «data».new.held ≡ «data».old.held }
{
    let mut text = Gathered::new(alloc, settings.output);
    let mut line = Gathered::new(alloc, 0);
    let code = run_set(alloc, settings, set, data, name, &mut text, &mut line);
    finish(alloc, settings, code, text, line, out, err)
}

/// Runs the template of this name of a program, or of one of no templates.
fn run_with(
    alloc: Global,
    settings: &Settings<'_>,
    renderer: Option<&Renderer>,
    name: &[u8],
    data: Option<&Data>,
    out: &mut Gathered,
    err: &mut Gathered,
) -> u8
    requires out { out.old.failures < 2 ^ 64 - 1 }
    requires err { err.old.failures < 2 ^ 64 - 1 }
    ensures { Outcome (run_by settings.now (templates_borrowed renderer.entry) name.now
        (option_map (λ d. value_of d.now) «data».entry))
        (sunk (told_of out.old) (told_of out.new)) (sunk (told_of err.old) (told_of err.new)) result }
{
    match renderer {
        None => tell_end(Err(RenderError::NoTemplate), name, err).code,
        Some(renderer) => {
            let options = options_in(settings);
            let mut piece = [0; PIECE_SIZE];
            let piece = piece.as_mut_slice();
            let end = renderer.render_through(alloc, name, data, &options, piece, out);
            tell_end(end, name, err).code
        }
    }
}

/// Runs the template of this name of a program that is kept, with this data.
fn run_kept(
    alloc: Global,
    settings: &Settings<'_>,
    program: &mut ProgramHandle,
    name: &[u8],
    data: Option<&Data>,
    out: &mut Gathered,
    err: &mut Gathered,
) -> u8
    requires out { out.old.failures < 2 ^ 64 - 1 }
    requires err { err.old.failures < 2 ^ 64 - 1 }
    ensures outcome { Outcome (run_by settings.now (templates_run program.old.held) name.now
        (option_map (λ d. value_of d.now) «data».entry))
        (sunk (told_of out.old) (told_of out.new)) (sunk (told_of err.old) (told_of err.new)) result }
    ensures program { program.new.held ≡ program.old.held }
{
    match program.take(alloc) {
        None => run_with(alloc, settings, None, name, data, out, err),
        Some(kept) => {
            let code = run_with(alloc, settings, Some(&kept), name, data, out, err);
            program.put(alloc, kept);
            code
        }
    }
}

/// Runs the template of this name of a program that is kept, with data that is kept. Both are taken out for that, and
/// put back.
fn run_program(
    alloc: Global,
    settings: &Settings<'_>,
    program: &mut ProgramHandle,
    data: &mut DataHandle,
    name: &[u8],
    out: &mut Gathered,
    err: &mut Gathered,
) -> u8
    requires out { out.old.failures < 2 ^ 64 - 1 }
    requires err { err.old.failures < 2 ^ 64 - 1 }
    ensures outcome { Outcome (run_by settings.now (templates_run program.old.held) name.now (value_in «data».old.held))
        (sunk (told_of out.old) (told_of out.new)) (sunk (told_of err.old) (told_of err.new)) result }
    ensures program { program.new.held ≡ program.old.held }
    ensures kept { «data».new.held ≡ «data».old.held }
{
    match data.take(alloc) {
        None => run_kept(alloc, settings, program, name, None, out, err),
        Some(kept) => {
            let code = run_kept(alloc, settings, program, name, Some(&kept.data), out, err);
            data.put(alloc, kept);
            code
        }
    }
}

/// Renders a program into the caller's buffers.
pub(crate) fn render_program(
    alloc: Global,
    settings: &Settings<'_>,
    program: &mut ProgramHandle,
    data: &mut DataHandle,
    name: &[u8],
    out: &mut Buffer<'_>,
    err: &mut Buffer<'_>,
) -> u8
    ensures filled { IsFilledBy settings.now.writes.now (limit_text settings.now.output
        (run_by settings.now (templates_run program.old.held) name.now (value_in «data».old.held)))
        out.old out.new err.old err.new result }
    ensures borrows { IsSameMemory out.old out.new × IsSameMemory err.old err.new }
    ensures program { program.new.held ≡ program.old.held }
    ensures kept { «data».new.held ≡ «data».old.held }
{
    let mut text = Gathered::new(alloc, settings.output);
    let mut line = Gathered::new(alloc, 0);
    let code = run_program(alloc, settings, program, data, name, &mut text, &mut line);
    finish(alloc, settings, code, text, line, out, err)
}

/// Renders a program to two sinks that hold nothing yet.
fn gather(
    alloc: Global,
    settings: &Settings<'_>,
    program: &mut ProgramHandle,
    data: &mut DataHandle,
    name: &[u8],
    out: &mut Gathered,
    err: &mut Gathered,
) -> u8
    requires empty { (told_of out.old ≡ nothing_put) × (told_of err.old ≡ nothing_put) }
    ensures outcome { HoldsBy settings.now.writes.now (limit_text settings.now.output
        (run_by settings.now (templates_run program.old.held) name.now (value_in «data».old.held)))
        out.new.bytes.items err.new.bytes.items result }
    ensures program { program.new.held ≡ program.old.held }
    ensures kept { «data».new.held ≡ «data».old.held }
{
    let code = run_program(alloc, settings, program, data, name, out, err);
    conclude(alloc, settings, code, out, err)
}

/// Renders a program into texts of the library's own.
pub(crate) fn render_text(
    alloc: Global,
    settings: &Settings<'_>,
    program: &mut ProgramHandle,
    data: &mut DataHandle,
    name: &[u8],
    text: &mut Text,
    line: &mut Text,
) -> u8
    ensures outcome { HoldsBy settings.now.writes.now (limit_text settings.now.output
        (run_by settings.now (templates_run program.old.held) name.now (value_in «data».old.held)))
        (bytes_in text.new.held) (bytes_in line.new.held) result }
    ensures program { program.new.held ≡ program.old.held }
    ensures kept { «data».new.held ≡ «data».old.held }
{
    let out = text.take_empty(alloc, settings.output);
    let err = line.take_empty(alloc, 0);
    let Some(mut out) = out else {
        return 7;
    };
    let Some(mut err) = err else {
        return 7;
    };
    let code = gather(alloc, settings, program, data, name, &mut out, &mut err);
    text.put(alloc, out);
    line.put(alloc, err);
    code
}

/// Prints a set to a sink that holds nothing yet.
fn gather_printed(alloc: Global, set: &mut SetHandle, out: &mut Gathered) -> u8
    requires empty { told_of out.old ≡ nothing_put }
    ensures outcome { Holds (stop_answer (printed (templates_in set.old.held))) out.new.bytes.items [] result }
    ensures set { set.new.held ≡ set.old.held }
{
    let mut line = Gathered::new(alloc, 0);
    let code = run_set_with(alloc, &PRINTED, set, &[], None, out, &mut line);
    settle(alloc, 0, code, out, &mut line)
}

/// Prints a set into a text of the library's own.
pub(crate) fn print_text(alloc: Global, set: &mut SetHandle, text: &mut Text) -> u8
    ensures outcome { Holds (stop_answer (printed (templates_in set.old.held))) (bytes_in text.new.held) [] result }
    ensures set { set.new.held ≡ set.old.held }
{
    let Some(mut out) = text.take_empty(alloc, 0) else {
        return 7;
    };
    let code = gather_printed(alloc, set, &mut out);
    text.put(alloc, out);
    code
}
