//! The data, read and parsed.
ghost use Rattle.std.specs.Prelude.{◌<◌, ◌^◌, ◌-◌, ◌∷◌, [], option_map, option_to_list, Some};
ghost use Rattle.tmpl_tool.specs.Tool.{data_found};
ghost use Rattle.tmpl_values.specs.View.{value_of};
ghost use Rattle.tmpl_tool.specs.Inputs.{ComesOfFiles, Counts};

use crate::files::source::{Source, SourceFault};
use crate::stop::Stop;
use std::alloc::Global;
use tmpl_values::{Data, DataFault};

/// The data of the file of this name, or none where no file is named.
pub(crate) fn read_data<'a, S: Source>(
    alloc: Global,
    source: &mut S,
    name: Option<&'a str>,
) -> Result<Option<Data>, Stop<'a>>
    requires { S.failures source.old < 2 ^ 64 - 1 }
    ensures failed_reads { Counts (S.failures source.old) (S.failures source.new) result }
    ensures follows_files { ComesOfFiles (S.contents source.old) (S.asked source.old) (S.asked source.new)
        (λ files fails. data_found files (fails 0) (option_map (λ s. s.now) name.entry))
        (λ files fails. option_to_list (option_map (λ s. s.now) name.entry)) (option_map value_of) result }
{
    match name {
        None => Ok(None),
        Some(name) => read_named(alloc, source, name),
    }
}

/// The data of the file of this name.
fn read_named<'a, S: Source>(
    alloc: Global,
    source: &mut S,
    name: &'a str,
) -> Result<Option<Data>, Stop<'a>>
    requires { S.failures source.old < 2 ^ 64 - 1 }
    ensures failed_reads { Counts (S.failures source.old) (S.failures source.new) result }
    ensures follows_files { ComesOfFiles (S.contents source.old) (S.asked source.old) (S.asked source.new)
        (λ files fails. data_found files (fails 0) (Some name.entry.now)) (λ files fails. name.entry.now ∷ [])
        (option_map value_of) result }
{
    match source.read(alloc, name) {
        Ok(bytes) => match Data::from_json(alloc, bytes.as_slice()) {
            Ok(data) => Ok(Some(data)),
            Err(DataFault::NotJson) => Err(Stop::NotJson(name)),
            Err(DataFault::NotWhole) => Err(Stop::NotWhole(name)),
            Err(DataFault::OutOfMemory) => Err(Stop::OutOfMemory),
        },
        Err(SourceFault::NotFound) => Err(Stop::NotFound(name)),
        Err(SourceFault::Failed) => Err(Stop::Failed(name)),
        Err(SourceFault::OutOfMemory) => Err(Stop::OutOfMemory),
    }
}
