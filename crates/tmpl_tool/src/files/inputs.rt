//! What the command needs of the files: the templates, and the data of a run.
ghost use Rattle.std.specs.Prelude.{◌≡◌, ◌-◌, ◌^◌, ◌<◌, IfOk};
ghost use Rattle.tmpl_syntax.specs.View.{hash_view};
ghost use Rattle.tmpl_tool.specs.View.{request_seen};
ghost use Rattle.tmpl_tool.specs.Inputs.{ComesOfFiles, Counts, inputs_of, inputs_reads, inputs_seen};
ghost use Rattle.tmpl_tool.specs.Tool.{IsParse, Parse};

use crate::files::data_file::read_data;
use crate::files::load::load_files;
use crate::files::source::Source;
use crate::stop::Stop;
use crate::words::request::Request;
use std::alloc::Global;
use tmpl_syntax::{NameHash, Set};
use tmpl_values::Data;

/// What the command needs of the files.
#[derive(Drop)]
pub struct Inputs {
    /// The templates of all the files.
    pub set: Set,
    /// The data; none where the words name no file of it, or nothing is to be run.
    pub data: Option<Data>,
}

/// Reads the templates, whose names are hashed so, and then the data of a run. A read that fails is the last one.
pub fn read_inputs<'a, S: Source>(
    alloc: Global,
    names: NameHash,
    request: &Request<'a>,
    source: &mut S,
) -> Result<Inputs, Stop<'a>>
    requires { S.failures source.old < 2 ^ 64 - 1 }
    ensures failed_reads { Counts (S.failures source.old) (S.failures source.new) result }
    ensures follows_files { (parse : Parse) → IsParse parse →
        ComesOfFiles (S.contents source.old) (S.asked source.old) (S.asked source.new)
        (λ files. inputs_of parse files (request_seen request.now)) (λ files. inputs_reads parse files (request_seen request.now))
        inputs_seen result }
    ensures hash { IfOk result (λ inputs. hash_view inputs.set ≡ names) }
{
    let mut set = Set::with_hash(alloc, names);
    load_files(alloc, &mut set, source, request.files.as_slice())?;
    if request.print {
        return Ok(Inputs { set, data: None });
    }
    let data = read_data(alloc, source, request.data_file)?;
    Ok(Inputs { set, data })
}
