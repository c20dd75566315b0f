//! The engine for C: one call over buffers that the caller provides, and calls for sets, programs, data and texts that
//! the caller keeps.
#![tactic(auto)]

ghost use Rattle.std.specs.Prelude.{◌≡◌, [], None, codes, eqb, false};
ghost use Rattle.tmpl_tool.specs.Tool.{IsParse, Parse, printed, stop_answer};
ghost use Rattle.tmpl_c.specs.Checked.{Checks};
ghost use Rattle.tmpl_c.specs.Filled.{limit_text, room, buffer_seen};
ghost use Rattle.tmpl_c.specs.Given.{HoldsBy, RenderedBy};
ghost use Rattle.tmpl_c.specs.Held.{Keeps, Replaces, held_answer, templates_in, templates_run, value_in};
ghost use Rattle.tmpl_c.specs.Passed.{data_passed, pair_of, pairs_of, render_answer, rules_in, with_passed};
ghost use Rattle.tmpl_c.specs.Question.{Answers};
ghost use Rattle.tmpl_c.specs.Texts.{Holds, bytes_in};

mod address;
mod buffer;
mod check;
mod data_handle;
mod gathered;
mod give;
mod held;
mod keep;
mod keys;
mod laws;
mod load;
mod loose;
mod passed;
mod program_handle;
mod question;
mod render;
mod set_handle;
mod settings;
mod shared_data;
mod text;
mod text_handle;

pub use address::Address;
pub use buffer::Buffer;
pub use data_handle::DataHandle;
pub use gathered::Gathered;
pub use keys::Keys;
pub use laws::{
    as_command, crosses_threads, kept, of_format, safe_command, seen_by_caller, stages,
    text_seen_by_caller,
};
pub use passed::{File, Name, Question};
pub use program_handle::ProgramHandle;
pub use set_handle::SetHandle;
pub use settings::Settings;
pub use shared_data::SharedData;
use std::alloc::Global;
pub use text::Text;
pub use text_handle::TextHandle;

/// Renders the template of this name of the files, with data in JSON; no bytes are no data.
///
/// The text goes to `out`, and where not all went well one line to `err`; of each as much as there is room for. Both
/// buffers say how much they hold, and how many bytes there are in all. The status is that of the command: 0 done, 1 a
/// fault of the run, 2 a file's name is not UTF-8, 4 a file is refused or no template has the name, 5 the data is
/// refused, 6 the text has more bytes than there is room for or than the settings allow, 7 memory ran out, 8 the text is
/// not of the format that the settings ask for.
///
/// C calls it as `tmpl_render`, with no keys, as it does the other calls that take keys.
#[unsafe(no_mangle)]
pub extern "C" fn keyed_render(
    alloc: Global,
    keys: &Keys,
    settings: &Settings<'_>,
    files: &[File<'_>],
    name: &[u8],
    input: &[u8],
    out: &mut Buffer<'_>,
    err: &mut Buffer<'_>,
) -> u8
    ensures outcome { (parse : Parse) → IsParse parse → RenderedBy settings.now.writes.now (limit_text settings.now.output
        (render_answer parse (rules_in settings.now) (eqb settings.now.print 1) (pairs_of files.now) name.now input.now))
        (room out.old) (buffer_seen out.new) (room err.old) (buffer_seen err.new) result }
    ensures borrows { (out.new.bytes.ghost_name ≡ out.old.bytes.ghost_name)
        × (err.new.bytes.ghost_name ≡ err.old.bytes.ghost_name) }
{
    render::fill(alloc, keys.hash(), settings, files, name, input, out, err)
}

/// Reports what is wrong in files, added one after the other, in a text that the library owns: a line for each error, as
/// compilers write it. Of a file the first errors are reported, up to `most`, or where that is 0 up to 1,000; then a line
/// says at least how many more there are. A file that is refused adds nothing. The status is 0 where nothing is wrong, 4
/// where a file is refused, 2 where the name of one is not UTF-8, and 7 where memory ran out; but for 4 the text is empty.
#[unsafe(no_mangle)]
pub extern "C" fn keyed_check(
    alloc: Global,
    keys: &Keys,
    files: &[File<'_>],
    most: usize,
    text: &mut Text,
) -> u8
    ensures { (parse : Parse) → IsParse parse → Checks parse (pairs_of files.now) (bytes_in text.new.held) result }
{
    check::check_files(alloc, keys.hash(), files, most, text)
}

/// Reports where a template may fail over data of a JSON Schema, in a text that the library owns, as `tmpl-check` does:
/// every error in the files, or else in the schema, or else each alarm, with a counterexample where one is found. With
/// status 0 there is no error, and the template never fails, but by its limits and its stops. The status is 4 where there
/// is an error, 2 where a name is not UTF-8, and 7 where memory ran out; of the last two the text is empty.
#[unsafe(no_mangle)]
pub extern "C" fn keyed_check_schema(
    alloc: Global,
    keys: &Keys,
    files: &[File<'_>],
    question: &Question<'_>,
    text: &mut Text,
) -> u8
    ensures { Answers (pairs_of files.now) question.now (bytes_in text.new.held) result }
{
    question::check_schema(alloc, keys.hash(), files, question, text)
}

/// Adds the templates of a file to a set that the caller keeps, or says why not: with status 0 nothing is said, and
/// else the set is as it was. The statuses are those of a render whose files are the set's and this one.
#[unsafe(no_mangle)]
pub extern "C" fn keyed_set_add(
    alloc: Global,
    keys: &Keys,
    set: &mut SetHandle,
    file: &File<'_>,
    err: &mut Buffer<'_>,
) -> u8
    ensures outcome { (parse : Parse) → IsParse parse → Keeps (with_passed parse (templates_in set.old.held) (pair_of file.now))
        (templates_in set.old.held) (templates_in set.new.held) (room err.old) (buffer_seen err.new) result }
    ensures borrows { err.new.bytes.ghost_name ≡ err.old.bytes.ghost_name }
{
    keep::add(alloc, keys.hash(), set, file, err)
}

/// Frees a set, which has no templates then.
#[unsafe(no_mangle)]
pub extern "C" fn tmpl_set_free(alloc: Global, set: &mut SetHandle)
    ensures { set.new.held ≡ None }
{
    drop(set.take(alloc));
}

/// Reads data in JSON and keeps it, or says why not: with status 0 nothing is said, and else the data is as it was. No
/// bytes are no data.
#[unsafe(no_mangle)]
pub extern "C" fn tmpl_data_read(
    alloc: Global,
    kept: &mut DataHandle,
    input: &[u8],
    err: &mut Buffer<'_>,
) -> u8
    ensures outcome { Keeps (data_passed (codes "data") input.now) (value_in kept.old.held) (value_in kept.new.held)
        (room err.old) (buffer_seen err.new) result }
    ensures borrows { err.new.bytes.ghost_name ≡ err.old.bytes.ghost_name }
{
    keep::read(alloc, kept, input, err)
}

/// Frees data, which is none then.
#[unsafe(no_mangle)]
pub extern "C" fn tmpl_data_free(alloc: Global, kept: &mut DataHandle)
    ensures { kept.new.held ≡ None }
{
    drop(kept.take(alloc));
}

/// Keeps the same data once more, as for another thread: with status 0 `copy` has it too, and else, with status 7, what
/// it had. Both are freed, in any order.
#[unsafe(no_mangle)]
pub extern "C" fn tmpl_data_share(alloc: Global, kept: &mut DataHandle, copy: &mut DataHandle) -> u8
    ensures replaces { Replaces (value_in kept.old.held) (value_in copy.old.held) (value_in copy.new.held) result }
    ensures kept { kept.new.held ≡ kept.old.held }
{
    keep::share_data(alloc, kept, copy)
}

/// Renders the template of this name of a set that the caller keeps, with data that it keeps, as `tmpl_render` does of
/// the files and the data that these were made of. Both stay as they are.
///
/// C calls it as `tmpl_render_set`, with the settings that it has, and so the other renders.
#[unsafe(no_mangle)]
pub extern "C" fn inner_render_set(
    alloc: Global,
    settings: &Settings<'_>,
    set: &mut SetHandle,
    kept: &mut DataHandle,
    name: &[u8],
    out: &mut Buffer<'_>,
    err: &mut Buffer<'_>,
) -> u8
    ensures outcome { RenderedBy settings.now.writes.now (limit_text settings.now.output
        (held_answer (rules_in settings.now) (eqb settings.now.print 1) (templates_in set.old.held) name.now
        (value_in kept.old.held)))
        (room out.old) (buffer_seen out.new) (room err.old) (buffer_seen err.new) result }
    ensures borrows { (out.new.bytes.ghost_name ≡ out.old.bytes.ghost_name)
        × (err.new.bytes.ghost_name ≡ err.old.bytes.ghost_name) }
    ensures set { set.new.held ≡ set.old.held }
    ensures kept { kept.new.held ≡ kept.old.held }
{
    held::render_set(alloc, settings, set, kept, name, out, err)
}

/// Prints a set into a text that the library owns. The status is 0, or 7 where memory ran out: then the text is a
/// prefix of it.
#[unsafe(no_mangle)]
pub extern "C" fn tmpl_set_print(alloc: Global, set: &mut SetHandle, text: &mut Text) -> u8
    ensures outcome { Holds (stop_answer (printed (templates_in set.old.held))) (bytes_in text.new.held) [] result }
    ensures set { set.new.held ≡ set.old.held }
{
    held::print_text(alloc, set, text)
}

/// Keeps a program of what a set has now, in the place of the program that was there: with status 0 that is rendered by
/// it, whatever becomes of the set, and else, with status 7, what was rendered before.
#[unsafe(no_mangle)]
pub extern "C" fn tmpl_program_make(
    alloc: Global,
    set: &mut SetHandle,
    program: &mut ProgramHandle,
) -> u8
    ensures replaces { Replaces (templates_in set.old.held)
        (templates_run program.old.held) (templates_run program.new.held) result }
    ensures set { set.new.held ≡ set.old.held }
{
    keep::make_program(alloc, set, program)
}

/// Keeps the same program once more, as for another thread: with status 0 `copy` has it too, and else, with status 7,
/// what it had. Both are freed, in any order.
#[unsafe(no_mangle)]
pub extern "C" fn tmpl_program_share(
    alloc: Global,
    program: &mut ProgramHandle,
    copy: &mut ProgramHandle,
) -> u8
    ensures replaces { Replaces (templates_run program.old.held)
        (templates_run copy.old.held) (templates_run copy.new.held) result }
    ensures program { program.new.held ≡ program.old.held }
{
    keep::share_program(alloc, program, copy)
}

/// Frees a program, which has no templates then.
#[unsafe(no_mangle)]
pub extern "C" fn tmpl_program_free(alloc: Global, program: &mut ProgramHandle)
    ensures { program.new.held ≡ None }
{
    drop(program.take(alloc));
}

/// Renders the template of this name of a program, with data that the caller keeps, as `tmpl_render_set` does of the
/// set when the program was made. `print` of the settings is not looked at. Both stay as they are.
#[unsafe(no_mangle)]
pub extern "C" fn inner_render_program(
    alloc: Global,
    settings: &Settings<'_>,
    program: &mut ProgramHandle,
    kept: &mut DataHandle,
    name: &[u8],
    out: &mut Buffer<'_>,
    err: &mut Buffer<'_>,
) -> u8
    ensures outcome { RenderedBy settings.now.writes.now (limit_text settings.now.output
        (held_answer (rules_in settings.now) false (templates_run program.old.held) name.now (value_in kept.old.held)))
        (room out.old) (buffer_seen out.new) (room err.old) (buffer_seen err.new) result }
    ensures borrows { (out.new.bytes.ghost_name ≡ out.old.bytes.ghost_name)
        × (err.new.bytes.ghost_name ≡ err.old.bytes.ghost_name) }
    ensures program { program.new.held ≡ program.old.held }
    ensures kept { kept.new.held ≡ kept.old.held }
{
    held::render_program(alloc, settings, program, kept, name, out, err)
}

/// Does what `tmpl_render_program` does, and keeps text and line in memory of the library's own, which is used again by
/// the next call. Nothing is cut but past the limit of the settings. With status 7 there is no line.
#[unsafe(no_mangle)]
pub extern "C" fn inner_render_text(
    alloc: Global,
    settings: &Settings<'_>,
    program: &mut ProgramHandle,
    kept: &mut DataHandle,
    name: &[u8],
    text: &mut Text,
    line: &mut Text,
) -> u8
    ensures outcome { HoldsBy settings.now.writes.now (limit_text settings.now.output
        (held_answer (rules_in settings.now) false (templates_run program.old.held) name.now (value_in kept.old.held)))
        (bytes_in text.new.held) (bytes_in line.new.held) result }
    ensures program { program.new.held ≡ program.old.held }
    ensures kept { kept.new.held ≡ kept.old.held }
{
    held::render_text(alloc, settings, program, kept, name, text, line)
}

/// Frees a text, which is empty then.
#[unsafe(no_mangle)]
pub extern "C" fn tmpl_text_free(alloc: Global, text: &mut Text)
    ensures { text.new.held.held ≡ None }
{
    drop(text.take(alloc));
}
