//! The search for values of a schema for which a template fails.
ghost use Rattle.std.specs.Prelude.{IfOk, unwrap_or};
ghost use Rattle.serde_json.specs.View.{view};
ghost use Rattle.tmpl_meaning.specs.declared.missing_key.MissingKey.{MissingKey};
ghost use Rattle.tmpl_syntax.specs.View.{set_view};
ghost use Rattle.tmpl_report.specs.Failing.{AreRight, rules_by};

use crate::Result;
use crate::samples::failing::{Failure, MOST_TEXT, Nowhere, Suspect, is_doubted};
use crate::samples::smaller::without;
use serde_json::Value;
use std::alloc::{AllocError, Global};
use tmpl_engine::{Data, DataFault, MissingKey, RenderError, Renderer, RunFault, Set};
use tmpl_json_schema::{Draw, Flip, LEVELS, conforms};
use tmpl_schema::{Cause, Doubt};
use tmpl_values::Bytes;

/// The most renders from one beginning, and the most bytes of all values that are rendered and of what is rendered.
const MOST_TRIES: usize = 500;

const MOST_SEARCHED: usize = 4_000_000;

/// The most renders of making one value smaller and of making all values smaller, and the most bytes for all of that.
const MOST_SMALLER: usize = 200;

const MOST_ALL_SMALLER: usize = 1_000;

const MOST_SMALLER_BYTES: usize = 1_000_000;

/// The most parts of all values that are made.
const MOST_WORK: usize = 50_000;

/// How often it continues from the value over which the template comes farthest.
const MOST_ROUNDS: usize = 10;

/// How far a run comes: to its end, or else to a line, and less by its text.
const END: u64 = u64::MAX;

const LINE: u64 = 10_000_000;

/// The most bytes of a value that is rendered.
const MOST_BYTES: usize = 100_000;

/// How far a run comes, how many bytes it reads and prints, and the number of the alarm that it shows to be right, if it
/// shows one.
#[derive(Clone, Copy)]
struct Outcome {
    progress: u64,
    bytes: usize,
    shown: Option<usize>,
}

/// That of a value that is not rendered.
const NO_RUN: Outcome = Outcome {
    progress: 0,
    bytes: 0,
    shown: None,
};

/// How many renders may still be made, and over how many bytes.
#[derive(Clone, Copy)]
struct Budget {
    renders: usize,
    bytes: usize,
}

impl Budget {
    /// What is left after a render.
    fn after(self, outcome: Outcome) -> Budget {
        Budget {
            renders: self.renders.saturating_sub(1),
            bytes: self.bytes.saturating_sub(outcome.bytes),
        }
    }

    /// Whether nothing is left.
    fn is_spent(self) -> bool {
        self.renders == 0 || self.bytes == 0
    }
}

/// Between how many was chosen at each point, and how far the run came.
#[derive(Drop)]
struct Trial {
    counts: Vec<usize>,
    progress: u64,
}

/// A search: for each alarm a value for which it is right, and how much may still be done.
#[derive(Drop)]
struct Hunt<'h, 'q> {
    suspect: &'h Suspect<'q>,
    cases: Vec<Option<Value>>,
    missing: usize,
    budget: Budget,
    work: usize,
}

impl Suspect<'_> {
    /// Renders the template over a value, if that conforms. Gives what comes of it: of one alarm alone, where it is
    /// asked for.
    fn outcome(&self, value: &Value, only: Option<usize>) -> Result<Outcome> {
        if !conforms(self.root, LEVELS, self.root, value) {
            return Ok(NO_RUN);
        }
        let data = value.to_string(self.alloc)?;
        if data.len() > MOST_BYTES {
            return Ok(NO_RUN);
        }
        let tree = match Data::from_json(self.alloc, data.as_bytes()) {
            Ok(tree) => tree,
            Err(DataFault::OutOfMemory) => return Err(AllocError),
            Err(_) => return Ok(NO_RUN),
        };
        let mut out = Nowhere::of(MOST_TEXT);
        let ended = self.render(&tree, &mut out);
        let text = MOST_TEXT.saturating_sub(out.room);
        let bytes = data.len().saturating_add(text);
        match ended {
            Err(RenderError::Fault(fault)) => {
                let is_own = fault.template == self.name;
                let line = if is_own { fault.line } else { 0 };
                Ok(Outcome {
                    progress: line.saturating_mul(LINE).saturating_add(text as u64),
                    shown: self.right_doubt(&fault, only),
                    bytes,
                })
            }
            Err(RenderError::OutOfMemory) => Err(AllocError),
            Ok(()) => Ok(Outcome {
                progress: END,
                bytes,
                shown: None,
            }),
            Err(RenderError::NoTemplate | RenderError::WriteFailed) => Ok(Outcome {
                bytes,
                ..NO_RUN
            }),
        }
    }

    /// The number of the first alarm that a fault shows to be right, or of one of them alone.
    fn right_doubt(&self, fault: &RunFault<'_>, only: Option<usize>) -> Option<usize> {
        self.doubts.iter().enumerate().position(|(index, doubt)| {
            (only.is_none() || only == Some(index)) && is_doubted(doubt, fault, self.stops)
        })
    }

    /// The value of an alarm, made smaller as long as the template fails in the same way.
    fn smaller(&self, index: usize, value: Value, budget: &mut Budget) -> Result<Value> {
        let mut smallest = value;
        let mut part: usize = 1;
        for _ in 0..MOST_SMALLER {
            if budget.is_spent() {
                break;
            }
            let mut left = part;
            let value = without(self.alloc, &smallest, &mut left)?;
            if left > 0 {
                break;
            }
            let outcome = self.outcome(&value, Some(index))?;
            *budget = budget.after(outcome);
            match outcome.shown {
                Some(_) => smallest = value,
                None => part = part.saturating_add(1),
            }
        }
        Ok(smallest)
    }
}

impl Hunt<'_, '_> {
    /// Makes the value of these choices, and renders the template over it.
    fn try_flips(&mut self, is_lean: bool, flips: &[Flip]) -> Result<Trial> {
        let mut draw = Draw::new(self.suspect.alloc, self.suspect.root, is_lean, flips);
        let drawn = draw.whole()?;
        self.work = self.work.saturating_sub(draw.parts);
        let Draw { counts, .. } = draw;
        let outcome = match &drawn {
            Some(value) => self.suspect.outcome(value, None)?,
            None => NO_RUN,
        };
        self.budget = self.budget.after(outcome);
        if let (Some(value), Some(doubt)) = (drawn, outcome.shown) {
            self.keep(doubt, value);
        }
        let progress = outcome.progress;
        Ok(Trial { counts, progress })
    }

    /// Tries each other choice at each point beside these, and adds to them the one with which the template comes
    /// farther, if there is one.
    fn sweep(&mut self, is_lean: bool, flips: &mut Vec<Flip>) -> Result<bool> {
        let Trial { counts, progress } = self.try_flips(is_lean, flips.as_slice())?;
        let mut best = progress;
        let mut better: Option<Flip> = None;
        for (point, count) in counts.iter().enumerate() {
            for away in 1..*count {
                if self.is_done() {
                    return Ok(false);
                }
                let flip = Flip { point, away };
                flips.push(flip)?;
                let Trial { progress, .. } = self.try_flips(is_lean, flips.as_slice())?;
                let _ = flips.pop();
                if progress > best {
                    best = progress;
                    better = Some(flip);
                }
            }
        }
        if let Some(flip) = better {
            flips.push(flip)?;
        }
        Ok(better.is_some())
    }

    /// Goes from value to value over which the template comes farther, and looks around each; at last two steps.
    fn climb(&mut self, is_lean: bool) -> Result<()> {
        let mut flips: Vec<Flip> = Vec::new(self.suspect.alloc);
        for _ in 0..MOST_ROUNDS {
            if !self.sweep(is_lean, &mut flips)? {
                break;
            }
        }
        let Trial { counts, .. } = self.try_flips(is_lean, flips.as_slice())?;
        for (point, count) in counts.iter().enumerate() {
            for away in 1..*count {
                if self.is_done() {
                    return Ok(());
                }
                flips.push(Flip { point, away })?;
                self.sweep(is_lean, &mut flips)?;
                let _ = flips.pop();
            }
        }
        Ok(())
    }

    /// Whether each alarm has a value, or enough was done.
    fn is_done(&self) -> bool {
        self.missing == 0 || self.work == 0 || self.budget.is_spent()
    }

    /// Keeps a value for the alarm of this number, unless there is one.
    fn keep(&mut self, doubt: usize, value: Value) {
        if let Some(place) = self.cases.get_mut(doubt) {
            if place.is_none() {
                *place = Some(value);
                self.missing = self.missing.saturating_sub(1);
            }
        }
    }
}

/// Searches for a value for each alarm, first from little data, then from much, and makes it smaller.
fn values_found(suspect: &Suspect<'_>) -> Result<Vec<Option<Value>>> {
    let mut hunt = Hunt {
        suspect,
        cases: Vec::new(suspect.alloc),
        missing: 0,
        budget: Budget {
            renders: MOST_TRIES,
            bytes: MOST_SEARCHED,
        },
        work: MOST_WORK,
    };
    for doubt in suspect.doubts {
        hunt.cases.push(None)?;
        if !matches!(doubt.cause, Cause::Variables) {
            hunt.missing = hunt.missing.saturating_add(1);
        }
    }
    hunt.climb(true)?;
    hunt.budget.renders = MOST_TRIES;
    hunt.climb(false)?;
    let Hunt { cases, .. } = hunt;
    let mut values = Vec::new(suspect.alloc);
    let mut budget = Budget {
        renders: MOST_ALL_SMALLER,
        bytes: MOST_SMALLER_BYTES,
    };
    for (index, case) in cases.into_iter().enumerate() {
        values.push(match case {
            Some(case) => Some(suspect.smaller(index, case, &mut budget)?),
            None => None,
        })?;
    }
    Ok(values)
}

/// For each alarm of a template over data of the document a value for which it is right, as small as was found, if one
/// was: it conforms to the document by all its keywords, and the template fails over it at the place of the alarm.
///
/// The alarms are those that `check_document` gives for the set, the name, the document, the mode and the stops.
///
/// Each failure that is given is right of the alarm at its place: its data conform to the document, as far as
/// `check_document` looks, and the run over them has a fault at the line and in the template of the alarm that is no
/// call of a stop, by the mode that is asked for, or else `MissingKey::Error`, 20,000 steps and a depth of 50. So the
/// alarm is no false alarm (law `failure_refutes`).
///
/// # Errors
///
/// Where memory ran out.
pub fn failures_of(
    alloc: Global,
    set: &Set,
    name: &[u8],
    document: &Value,
    mode: Option<MissingKey>,
    stops: &[Bytes],
    doubts: &[Doubt],
) -> Result<Vec<Option<Failure>>, AllocError>
    ensures { IfOk result (λ failures. AreRight (record {
      rules = rules_by (unwrap_or mode MissingKey.Error);
      stops = stops.now;
      set = set_view set.now;
      name = name.now;
      schema = view document.now;
    }) doubts.now failures.items) }
{
    let renderer = Renderer::new(alloc, set)?;
    let suspect = Suspect {
        alloc,
        renderer: &renderer,
        name,
        root: document,
        mode: mode.unwrap_or(MissingKey::Error),
        stops,
        doubts,
    };
    let values = values_found(&suspect)?;
    suspect.failures(values)
}
