//! What is wrong in data, and where.
ghost use Rattle.std.specs.Prelude.{◌≡◌, IfOk};
ghost use Rattle.tmpl_problems.specs.Judged.{IsJudgedData, words_for};

mod number;
mod reader;

use crate::data_check::reader::{Flaw, Reader};
use crate::scan::place_in;
use std::alloc::{AllocError, Global};
use tmpl_syntax::Place;
use tmpl_values::{Data, DataFault};

/// What is wrong at a place of a data file, or only suspicious.
#[derive(Drop)]
pub struct DataProblem {
    /// How many bytes of the file stand before it.
    pub start: usize,
    /// Its line and its column, each counted from 1, the column in characters.
    pub line: u64,
    pub column: u64,
    /// What it is, in words.
    pub text: String,
}

/// Why bytes are no data.
#[derive(Clone, Copy)]
pub enum DataReason {
    NotJson,
    NotWhole,
}

/// What is found of data: why it is refused, if it is, each place at which it is wrong, up to 100, and what is only
/// suspicious.
#[derive(Drop)]
pub struct DataReport {
    pub refused: Option<DataReason>,
    pub problems: Vec<DataProblem>,
    pub warnings: Vec<DataProblem>,
}

impl DataReason {
    /// The words that `tmpl` has for it.
    pub fn words(self) -> &'static str
        ensures { result.now ≡ words_for self }
    {
        match self {
            DataReason::NotJson => "not JSON",
            DataReason::NotWhole => "number not whole or out of range",
        }
    }
}

/// Says all that is wrong in a data file.
///
/// # Errors
///
/// Where memory ran out.
pub fn check_data(alloc: Global, bytes: &[u8]) -> Result<DataReport, AllocError>
    ensures { IfOk result (λ report. IsJudgedData bytes.now report.refused) }
{
    let refused = refusal_of(alloc, bytes)?;
    report(alloc, bytes, refused)
}

/// Why bytes are no data, if they are none.
fn refusal_of(alloc: Global, bytes: &[u8]) -> Result<Option<DataReason>, AllocError>
    ensures { IfOk result (λ refused. IsJudgedData bytes.now refused) }
{
    match Data::from_json(alloc, bytes) {
        Ok(_) => Ok(None),
        Err(DataFault::NotJson) => Ok(Some(DataReason::NotJson)),
        Err(DataFault::NotWhole) => Ok(Some(DataReason::NotWhole)),
        Err(DataFault::OutOfMemory) => Err(AllocError),
    }
}

/// The places at which data is wrong, which is refused for this reason or for none.
fn report(
    alloc: Global,
    bytes: &[u8],
    refused: Option<DataReason>,
) -> Result<DataReport, AllocError>
    ensures { IfOk result (λ report. report.refused ≡ refused) }
{
    let mut reader = Reader::new(alloc, bytes);
    reader.read()?;
    let mut problems = Vec::new(alloc);
    let mut warnings = Vec::new(alloc);
    let mut place = Place::first();
    for wrong in reader.found.into_iter() {
        place = place_in(place, bytes, wrong.start);
        let problem = DataProblem {
            start: wrong.start,
            line: place.line,
            column: place.column,
            text: wrong.text,
        };
        match (wrong.flaw, refused) {
            (Flaw::SecondKey, _) => warnings.push(problem)?,
            (Flaw::NotJson, Some(DataReason::NotJson))
            | (Flaw::NotWhole, Some(DataReason::NotWhole)) => problems.push(problem)?,
            _ => {}
        }
    }
    Ok(DataReport {
        refused,
        problems,
        warnings,
    })
}
