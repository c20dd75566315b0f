//! The output over data of a schema: values for which it is not of the format are searched for. That none is found proves
//! nothing.
ghost use Rattle.std.specs.Prelude.{OnOk};
ghost use Rattle.tmpl_report.specs.computed.Added.{AddsBroken};

use crate::Result;
use crate::output::message::{Found, broken_finding};
use crate::output::render::Writer;
use crate::output::strings::{HOSTILE, count_strings, with_string};
use crate::source::Task;
use serde_json::Value;
use std::alloc::AllocError;
use tmpl_engine::{Data, DataFault, Renderer};
use tmpl_formats::Format;
use tmpl_json_schema::{Draw, Flip, LEVELS, conforms};
use tmpl_problems::Findings;

/// The most renders, and the most bytes of data and output of all of them.
const MOST_RENDERS: usize = 2_000;

const MOST_BYTES: usize = 8_000_000;

/// How many renders one of a long run counts for, and one in whose output an action is looked for.
const LONG: usize = 50;

const LONG_AND_SEARCHED: usize = 500;

/// The most actions that are reported.
const MOST_FOUND: usize = 20;

/// The most bytes of data that are shown.
const MOST_SHOWN: usize = 500;

/// A search for outputs over data of a document that are not of the format: what it has found, and how much of it is left.
#[derive(Drop)]
struct Hunt<'w, 't, 'd, 'a> {
    writer: Writer<'w, 't, 'a>,
    root: &'d Value,
    found: Vec<Found<'a>>,
    renders: usize,
    bytes: usize,
}

/// Adds where the output is not of the format for data of the schema that are found.
pub(crate) fn add_over_schema<'t, 'a>(
    task: &Task<'t, 'a>,
    findings: &mut Findings<'a>,
    document: &Value,
    format: &'t Format,
) -> Result<()>
    ensures { OnOk result (AddsBroken findings.old findings.new) }
{
    let renderer = Renderer::new(task.alloc, task.set)?;
    let mut hunt = Hunt {
        writer: Writer::new(task, &renderer, format),
        root: document,
        found: Vec::new(task.alloc),
        renders: MOST_RENDERS,
        bytes: MOST_BYTES,
    };
    hunt.look(true)?;
    hunt.look(false)?;
    let Hunt { found, .. } = hunt;
    add_found(task, findings, found)
}

/// Adds what is found.
fn add_found<'a>(
    task: &Task<'_, 'a>,
    findings: &mut Findings<'a>,
    found: Vec<Found<'a>>,
) -> Result<()>
    ensures { OnOk result (AddsBroken findings.old findings.new) }
{
    for one in found.into_iter() {
        let finding = broken_finding(task, one);
        findings.add(finding)?;
    }
    Ok(())
}

impl Hunt<'_, '_, '_, '_> {
    /// Counts renders.
    fn spend(&mut self, renders: usize) {
        self.renders = self.renders.saturating_sub(renders);
    }

    fn is_over(&self) -> bool {
        self.renders == 0 || self.bytes == 0 || self.found.len() >= MOST_FOUND
    }

    /// Tries the usual value of the schema, and each that differs from it by one choice.
    fn look(&mut self, is_lean: bool) -> Result<()> {
        let counts = self.try_drawn(is_lean, &[])?;
        for (point, count) in counts.iter().enumerate() {
            for away in 1..*count {
                if self.is_over() {
                    return Ok(());
                }
                self.try_drawn(is_lean, &[Flip { point, away }])?;
            }
        }
        Ok(())
    }

    /// Tries the value of these choices, also with other strings in it. Gives between how many was chosen, at each point.
    fn try_drawn(&mut self, is_lean: bool, flips: &[Flip]) -> Result<Vec<usize>> {
        let mut draw = Draw::new(self.writer.task.alloc, self.root, is_lean, flips);
        let drawn = draw.whole()?;
        let Draw { counts, .. } = draw;
        if let Some(value) = drawn {
            self.try_value(&value)?;
            self.try_strings(&value)?;
        }
        Ok(counts)
    }

    /// Tries a value with each hostile string in the place of each of its strings.
    fn try_strings(&mut self, value: &Value) -> Result<()> {
        let count = count_strings(value, LEVELS);
        for number in 1..=count.min(MOST_RENDERS) {
            for text in HOSTILE {
                if self.is_over() {
                    return Ok(());
                }
                let mut left = number;
                let other = with_string(self.writer.task.alloc, value, text, &mut left)?;
                self.try_value(&other)?;
            }
        }
        Ok(())
    }

    /// Renders the template over a value, if that conforms, and keeps what is found.
    fn try_value(&mut self, value: &Value) -> Result<()> {
        self.spend(1);
        if !conforms(self.root, LEVELS, self.root, value) {
            return Ok(());
        }
        let data = value.to_string(self.writer.task.alloc)?;
        self.bytes = self.bytes.saturating_sub(data.len());
        let tree = match Data::from_json(self.writer.task.alloc, data.as_bytes()) {
            Ok(tree) => tree,
            Err(DataFault::OutOfMemory) => return Err(AllocError),
            Err(_) => return Ok(()),
        };
        self.try_data(&tree, data.as_str())
    }

    /// Keeps what is found of the output over data, unless it is of an action of which something is found.
    fn try_data(&mut self, tree: &Data, data: &str) -> Result<()> {
        let is_long = self.writer.is_long(tree)?;
        let Some(broken) = self.writer.broken_over(tree)? else {
            self.spend(if is_long { LONG } else { 0 });
            return Ok(());
        };
        self.spend(if is_long { LONG_AND_SEARCHED } else { 0 });
        self.bytes = self.bytes.saturating_sub(broken.output.len());
        let shown = Some(data).filter(|data| data.len() <= MOST_SHOWN);
        let found = self.writer.found(tree, &broken, "may write no ", shown)?;
        if !self.found.iter().any(|other| other.origin == found.origin) {
            self.found.push(found)?;
        }
        Ok(())
    }
}
