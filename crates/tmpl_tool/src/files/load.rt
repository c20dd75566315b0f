//! Each FILE in turn, read and then parsed.
ghost use Rattle.std.specs.Prelude.{◌≡◌, ◌<◌, ◌^◌, ◌-◌, ◌∷◌, [], map};
ghost use Rattle.tmpl_syntax.specs.View.{hash_view, set_view};
ghost use Rattle.tmpl_syntax.specs.computed.Parse.{parsed};
ghost use Rattle.tmpl_tool.specs.Tool.{file_reads, load_each, with_file};
ghost use Rattle.tmpl_tool.specs.Inputs.{Adds, ComesOfFiles, Counts};

use crate::files::source::{Source, SourceFault};
use crate::stop::Stop;
use std::alloc::Global;
use tmpl_syntax::{MOST_BYTES, Set, parse_owned};

/// Adds the templates of the files to the set.
pub(crate) fn load_files<'a, S: Source>(
    alloc: Global,
    set: &mut Set,
    source: &mut S,
    names: &[&'a str],
) -> Result<(), Stop<'a>>
    requires { S.failures source.old < 2 ^ 64 - 1 }
    ensures contents { S.contents source.new ≡ S.contents source.old }
    ensures failed_reads { Counts (S.failures source.old) (S.failures source.new) result }
    ensures loads { ComesOfFiles (S.contents source.old) (S.asked source.old) (S.asked source.new)
        (λ files fails. load_each parsed files fails 0 (set_view set.old) (map (λ s. s.now) names.now))
        (λ files fails. file_reads parsed files fails 0 (set_view set.old) (map (λ s. s.now) names.now))
        (λ u. set_view set.new) result }
    ensures hash { hash_view set.new ≡ hash_view set.old }
{
    for name in names {
        load_file(alloc, set, source, *name)?;
    }
    Ok(())
}

/// Adds the templates of one file.
fn load_file<'a, S: Source>(
    alloc: Global,
    set: &mut Set,
    source: &mut S,
    name: &'a str,
) -> Result<(), Stop<'a>>
    requires { S.failures source.old < 2 ^ 64 - 1 }
    ensures contents { S.contents source.new ≡ S.contents source.old }
    ensures failed_reads { Counts (S.failures source.old) (S.failures source.new) result }
    ensures loads { ComesOfFiles (S.contents source.old) (S.asked source.old) (S.asked source.new)
        (λ files fails. with_file parsed files (fails 0) (set_view set.old) name.entry.now)
        (λ files fails. name.entry.now ∷ []) (λ u. set_view set.new) result }
    ensures hash { hash_view set.new ≡ hash_view set.old }
{
    match source.read_up_to(alloc, name, MOST_BYTES as u64) {
        Ok(bytes) => add_file(alloc, set, name, bytes),
        Err(SourceFault::NotFound) => Err(Stop::NotFound(name)),
        Err(SourceFault::Failed) => Err(Stop::Failed(name)),
        Err(SourceFault::OutOfMemory) => Err(Stop::OutOfMemory),
    }
}

/// Adds the templates of a file of these bytes.
fn add_file<'a>(alloc: Global, set: &mut Set, name: &'a str, bytes: Vec<u8>) -> Result<(), Stop<'a>>
    ensures adds { Adds (parsed (set_view set.old) name.entry.now bytes.items) name.entry.now (set_view set.new) result }
    ensures hash { hash_view set.new ≡ hash_view set.old }
{
    match parse_owned(alloc, set, name, bytes) {
        Ok(()) => Ok(()),
        Err(fault) => Err(Stop::Template(fault)),
    }
}
