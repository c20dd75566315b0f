//! What is checked.
ghost use Rattle.std.specs.Prelude.{◌≡◌, IfOk};
ghost use Rattle.std.specs.Option.{option_map};
ghost use Rattle.serde_json.specs.View.{view};
ghost use Rattle.tmpl_report.specs.Safe.{asked_name};
ghost use Rattle.tmpl_report.specs.computed.Added.{schema_document};

use crate::Result;
use serde_json::Value;
use std::alloc::Global;
use tmpl_json_schema::read_document;
use tmpl_meaning::MissingKey;
use tmpl_problems::Source;
use tmpl_syntax::{Place, Set, base_name};

/// The files that were read.
#[derive(Drop)]
pub struct Sources<'a> {
    pub templates: Vec<Source<'a>>,
    pub data: Option<Source<'a>>,
    pub schema: Option<Source<'a>>,
    /// Whether others could not be read, so that no template is checked against the schema.
    pub is_short: bool,
}

impl<'a> Sources<'a> {
    /// The JSON value that the schema is, if one is given and is one.
    pub(crate) fn document(&self, alloc: Global) -> Result<Option<Value>>
        ensures { IfOk result (λ document. option_map view document ≡ schema_document self.now) }
    {
        match &self.schema {
            Some(schema) => read_document(alloc, schema.bytes.as_slice()),
            None => Ok(None),
        }
    }

    /// The template file of this path, and the place in it before which this many bytes stand.
    pub(crate) fn place(&self, path: &[u8], start: usize) -> Option<(&'a str, Place)> {
        let mut files = self.templates.as_slice().iter();
        let file = files.find(|file| file.name.as_bytes() == path)?;
        let bytes = file.bytes.as_slice();
        Some((file.name, Place::first().at(bytes, start.min(bytes.len()))))
    }
}

/// What is asked about them.
#[derive(Drop)]
pub struct Question<'a> {
    /// The path of the first template file, whose own template is rendered where no other is named.
    pub first: Option<&'a str>,
    /// The name of the template that is rendered.
    pub name: Option<&'a str>,
    /// The mode for missing keys by which the template is checked; none where it is checked by each.
    pub mode: Option<MissingKey>,
    /// The names of templates that need not be there.
    pub stops: Vec<&'a str>,
    /// Whether data are searched for over which the template fails.
    pub is_searched: bool,
    /// The name of the format of which the output has to be; none for any output.
    pub writes: Option<&'a str>,
}

/// The template that is checked beside data or a schema: of which files, and what is asked about it.
#[derive(Clone, Copy)]
pub(crate) struct Task<'t, 'a> {
    pub(crate) alloc: Global,
    pub(crate) set: &'t Set,
    pub(crate) question: &'t Question<'a>,
    pub(crate) sources: &'t Sources<'a>,
    /// The path of the first file.
    pub(crate) first: &'a str,
}

impl<'a> Task<'_, 'a> {
    /// The name of the template.
    pub(crate) fn name(&self) -> &'a [u8]
        ensures { result.now ≡ asked_name self.now.question.now self.now.first.now }
    {
        match self.question.name {
            Some(name) => name.as_bytes(),
            None => base_name(self.first),
        }
    }
}
