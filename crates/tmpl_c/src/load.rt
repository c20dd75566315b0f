//! The files added and the data read, or why they are not.
ghost use Rattle.std.specs.Prelude.{◌≡◌, ◌<◌, ◌^◌, ◌-◌, IfErr, codes, option_map};
ghost use Rattle.tmpl_values.specs.View.{value_of};
ghost use Rattle.tmpl_syntax.specs.computed.Parse.{parsed};
ghost use Rattle.tmpl_meaning.specs.Sink.{sunk};
ghost use Rattle.tmpl_engine.specs.View.{templates_of};
ghost use Rattle.tmpl_tool.specs.Inputs.{said_of};
ghost use Rattle.tmpl_tool.specs.Outcome.{Says};
ghost use Rattle.tmpl_c.specs.Passed.{data_passed, each_added, pair_of, pairs_of, with_passed};
ghost use Rattle.tmpl_c.specs.computed.Gathering.{told_of};
ghost use Rattle.tmpl_c.specs.computed.Load.{ComesTo, halt_seen};

use crate::gathered::Gathered;
use crate::passed::File;
use std::alloc::Global;
use std::str;
use tmpl_engine::Engine;
use tmpl_tool::{Stop, refuse, words_refused};
use tmpl_values::{Data, DataFault};

/// What the data is called in lines.
const DATA: &str = "data";

/// Why nothing is run.
#[derive(Clone, Copy)]
pub(crate) enum Halt<'a> {
    /// The name of a file is no text.
    NotText,
    /// What stops the command too.
    Stop(Stop<'a>),
}

/// Adds the templates of a file to the set.
pub(crate) fn add_file<'a>(
    alloc: Global,
    engine: &mut Engine,
    file: &'a File<'a>,
) -> Result<(), Halt<'a>>
    ensures comes { ComesTo (λ u. templates_of engine.new) (with_passed parsed (templates_of engine.old) (pair_of file.entry.now))
        result }
    ensures kept { IfErr result (λ h. templates_of engine.new ≡ templates_of engine.old) }
{
    let Ok(name) = str::from_utf8(file.name) else {
        return Err(Halt::NotText);
    };
    match engine.add(alloc, name, file.bytes) {
        Ok(()) => Ok(()),
        Err(fault) => Err(Halt::Stop(Stop::Template(fault))),
    }
}

/// Adds the templates of the files to the set, one file after the other.
pub(crate) fn add_files<'a>(
    alloc: Global,
    engine: &mut Engine,
    files: &'a [File<'a>],
) -> Result<(), Halt<'a>>
    ensures { ComesTo (λ u. templates_of engine.new) (each_added parsed (templates_of engine.old) (pairs_of files.entry.now)) result }
{
    for file in files {
        add_file(alloc, engine, file)?;
    }
    Ok(())
}

/// The data, or none where there are no bytes.
pub(crate) fn read_data(alloc: Global, input: &[u8]) -> Result<Option<Data>, Halt<'static>>
    ensures { ComesTo (option_map value_of) (data_passed (codes "data") input.now) result }
{
    if input.is_empty() {
        return Ok(None);
    }
    match Data::from_json(alloc, input) {
        Ok(data) => Ok(Some(data)),
        Err(DataFault::NotJson) => Err(Halt::Stop(Stop::NotJson(DATA))),
        Err(DataFault::NotWhole) => Err(Halt::Stop(Stop::NotWhole(DATA))),
        Err(DataFault::OutOfMemory) => Err(Halt::Stop(Stop::OutOfMemory)),
    }
}

/// Says why nothing is run, and gives the status of that.
pub(crate) fn tell(err: &mut Gathered, why: &Halt<'_>) -> u8
    requires { err.old.failures < 2 ^ 64 - 1 }
    ensures code { result ≡ (said_of (halt_seen why.now)).status }
    ensures line { Says (said_of (halt_seen why.now)).line (sunk (told_of err.old) (told_of err.new)) }
{
    match why {
        Halt::NotText => words_refused(err).code,
        Halt::Stop(stop) => refuse(err, stop).code,
    }
}
