//! What is offered is kept, or said why not.
ghost use Rattle.std.specs.Prelude.{◌≡◌, [], IfErr, IfOk, Some, codes};
ghost use Rattle.tmpl_values.specs.View.{value_of};
ghost use Rattle.tmpl_syntax.specs.computed.Parse.{parsed};
ghost use Rattle.tmpl_engine.specs.View.{templates_of};
ghost use Rattle.tmpl_tool.specs.Inputs.{said_of};
ghost use Rattle.tmpl_c.specs.Filled.{Fills, buffer_seen, room};
ghost use Rattle.tmpl_c.specs.Held.{Keeps, Replaces, templates_in, templates_run, value_in};
ghost use Rattle.tmpl_c.specs.Passed.{data_passed, pair_of, with_passed};
ghost use Rattle.tmpl_c.specs.computed.Load.{IsSaid, halt_seen};
ghost use Rattle.tmpl_c.specs.computed.Outputs.{IsSameMemory};

use crate::buffer::Buffer;
use crate::data_handle::DataHandle;
use crate::gathered::Gathered;
use crate::load::{Halt, add_file, read_data, tell};
use crate::passed::File;
use crate::program_handle::ProgramHandle;
use crate::render::say_refused;
use crate::set_handle::SetHandle;
use crate::shared_data::SharedData;
use std::alloc::{AllocError, Global};
use tmpl_engine::{Engine, NameHash};
use tmpl_values::Data;

/// Says nothing.
fn say_kept(err: &mut Buffer<'_>) -> u8
    ensures said { Fills [] (room err.old) (buffer_seen err.new) × (result ≡ 0) }
    ensures borrows { IsSameMemory err.old err.new }
{
    err.hold(b"");
    0
}

/// Says why nothing is kept.
fn say(alloc: Global, why: &Halt<'_>, err: &mut Buffer<'_>) -> u8
    ensures said { IsSaid (said_of (halt_seen why.now)) (room err.old) (buffer_seen err.new) result }
    ensures borrows { IsSameMemory err.old err.new }
{
    let mut line = Gathered::new(alloc, 0);
    let code = tell(&mut line, why);
    if line.failures != 0 {
        return say_refused(err);
    }
    err.hold(line.bytes.as_slice());
    code
}

/// Adds the templates of a file to a set, or says why not.
fn add_to(alloc: Global, engine: &mut Engine, file: &File<'_>, err: &mut Buffer<'_>) -> u8
    ensures outcome { Keeps (with_passed parsed (templates_of engine.old) (pair_of file.now)) (templates_of engine.old) (templates_of engine.new)
        (room err.old) (buffer_seen err.new) result }
    ensures borrows { IsSameMemory err.old err.new }
{
    match add_file(alloc, engine, file) {
        Ok(()) => say_kept(err),
        Err(why) => say(alloc, &why, err),
    }
}

/// Adds the templates of a file to a set that is kept, or says why not.
pub(crate) fn add(
    alloc: Global,
    hash: NameHash,
    kept: &mut SetHandle,
    file: &File<'_>,
    err: &mut Buffer<'_>,
) -> u8
    ensures outcome { Keeps (with_passed parsed (templates_in kept.old.held) (pair_of file.now))
        (templates_in kept.old.held) (templates_in kept.new.held)
        (room err.old) (buffer_seen err.new) result }
    ensures borrows { IsSameMemory err.old err.new }
{
    let mut engine = match kept.take(alloc) {
        Some(engine) => engine,
        None => match Box::new(alloc, Engine::with_hash(alloc, hash)) {
            Ok(engine) => engine,
            Err(_) => return say_refused(err),
        },
    };
    let said = add_to(alloc, &mut engine, file, err);
    kept.put(alloc, engine);
    said
}

/// Keeps a value. An error means that memory ran out, and leaves what was kept.
fn keep_value(alloc: Global, kept: &mut DataHandle, value: Data) -> Result<(), AllocError>
    ensures new { IfOk result (λ u. value_in kept.new.held ≡ Some (value_of value)) }
    ensures old { IfErr result (λ e. kept.new.held ≡ kept.old.held) }
{
    let value = SharedData::new(alloc, value)?;
    kept.keep(alloc, value)
}

/// Keeps data, or says why not.
pub(crate) fn read(alloc: Global, kept: &mut DataHandle, input: &[u8], err: &mut Buffer<'_>) -> u8
    ensures outcome { Keeps (data_passed (codes "data") input.now) (value_in kept.old.held) (value_in kept.new.held)
        (room err.old) (buffer_seen err.new) result }
    ensures borrows { IsSameMemory err.old err.new }
{
    match read_data(alloc, input) {
        Ok(None) => {
            drop(kept.take(alloc));
            say_kept(err)
        }
        Ok(Some(value)) => {
            let Ok(()) = keep_value(alloc, kept, value) else {
                return say_refused(err);
            };
            say_kept(err)
        }
        Err(why) => say(alloc, &why, err),
    }
}

/// The status of what was kept, or of out of memory.
fn status_of(kept: Result<(), AllocError>) -> u8
    ensures kept { IfOk kept (λ u. result ≡ 0) }
    ensures refused { IfErr kept (λ e. result ≡ 7) }
{
    match kept {
        Ok(()) => 0,
        Err(AllocError) => 7,
    }
}

/// Keeps a program of what a set has now, and gives the status: 0, or 7 where memory ran out.
pub(crate) fn make_program(alloc: Global, set: &mut SetHandle, program: &mut ProgramHandle) -> u8
    ensures replaces { Replaces (templates_in set.old.held)
        (templates_run program.old.held) (templates_run program.new.held) result }
    ensures set { set.new.held ≡ set.old.held }
{
    let Some(mut engine) = set.take(alloc) else {
        drop(program.take(alloc));
        return 0;
    };
    let renderer = engine.renderer(alloc);
    set.put(alloc, engine);
    match renderer {
        Ok(renderer) => status_of(program.keep(alloc, renderer)),
        Err(AllocError) => 7,
    }
}

/// Keeps the same program once more, and gives the status.
pub(crate) fn share_program(
    alloc: Global,
    program: &mut ProgramHandle,
    copy: &mut ProgramHandle,
) -> u8
    ensures replaces { Replaces (templates_run program.old.held)
        (templates_run copy.old.held) (templates_run copy.new.held) result }
    ensures program { program.new.held ≡ program.old.held }
{
    let Some(renderer) = program.take(alloc) else {
        drop(copy.take(alloc));
        return 0;
    };
    let second = renderer.share();
    program.put(alloc, renderer);
    match second {
        Ok(renderer) => status_of(copy.keep(alloc, renderer)),
        Err(AllocError) => 7,
    }
}

/// Keeps the same data once more, and gives the status.
pub(crate) fn share_data(alloc: Global, kept: &mut DataHandle, copy: &mut DataHandle) -> u8
    ensures replaces { Replaces (value_in kept.old.held) (value_in copy.old.held) (value_in copy.new.held) result }
    ensures kept { kept.new.held ≡ kept.old.held }
{
    let Some(shared) = kept.take(alloc) else {
        drop(copy.take(alloc));
        return 0;
    };
    let second = shared.share();
    kept.put(alloc, shared);
    match second {
        Ok(shared) => status_of(copy.keep(alloc, shared)),
        Err(AllocError) => 7,
    }
}
