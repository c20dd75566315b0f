//! What is told of a file that is refused.
ghost use Rattle.std.specs.Prelude.{◌≡◌, ℕ, All, IfOk, List, map};
ghost use Rattle.tmpl_syntax.specs.Column.{IsPlace};
ghost use Rattle.tmpl_syntax.specs.Examine.{IsLocated, firsts, is_at, is_unreadable};
ghost use Rattle.tmpl_syntax.specs.Fault.{reason_of};
ghost use Rattle.tmpl_syntax.specs.Refusals.{refused_seen};
ghost use Rattle.tmpl_syntax.specs.computed.Begun.{IsStarted};
ghost use Rattle.tmpl_syntax.specs.computed.Refusals.{found_seen};

use crate::column::Place;
use crate::fault::ParseKind;
use crate::found::Found;
use crate::place::frame::Open;
use std::alloc::{AllocError, Global};

/// What is refused of a file, and where that begins.
#[derive(Debug, Drop)]
pub struct Refused {
    /// How many texts and actions stand before it, as the file is cut.
    pub place: usize,
    /// How many bytes of the file stand before the `{{` of a refused action; all of them where something is open at the
    /// end, and none where the file is too long.
    pub start: usize,
    /// Its line, counted from 1.
    pub line: u64,
    /// Its column, counted from 1 by characters: a byte of 80h to BFh, with which a character of UTF-8 goes on, counts
    /// none.
    pub column: u64,
    pub kind: ParseKind,
    pub about: About,
}

/// What more is known of what is refused.
#[derive(Debug, Drop)]
pub enum About {
    Nothing,
    /// What was opened last where an action is out of place, if anything is open there.
    Inside(Option<Open>),
    /// The name of a variable that is not in scope.
    Name(Vec<u8>),
    /// What was opened last of what is open at the end, and how much is.
    LeftOpen(Open, usize),
    /// The line of the first definition of the name that is defined once more.
    First(u64),
}

impl About {
    /// The same once more.
    fn share(&self, alloc: Global) -> Result<About, AllocError> {
        Ok(match self {
            About::Nothing => About::Nothing,
            About::Inside(open) => About::Inside(*open),
            About::Name(name) => About::Name(name.as_slice().to_vec(alloc)?),
            About::LeftOpen(open, count) => About::LeftOpen(*open, *count),
            About::First(line) => About::First(*line),
        })
    }
}

/// What is told of all that is found of a file: nothing of the place of the one before, and nothing after an action that
/// can't be read.
#[tactic(auto, using(crate::proofs::BegunLemmas::started_within))]
pub(crate) fn firsts(alloc: Global, bytes: &[u8], all: &[Found]) -> Result<Vec<Refused>, AllocError>
    requires { All (IsStarted bytes.now) all.now }
    ensures refused { IfOk result (λ v. map refused_seen v.items ≡ firsts (map found_seen all.now)) }
    ensures located { IfOk result (λ v. All (IsLocated bytes.now) v.items) }
{
    let mut told = Vec::new(alloc);
    let mut place = Place::first();
    let mut last = None;
    for found in all {
        if !is_at(last, found.place) {
            place = place.at(bytes, found.start);
            told.push(refused_at(alloc, place, found)?)?;
            if is_unreadable(found.kind) {
                return Ok(told);
            }
        }
        last = Some(found.place);
    }
    Ok(told)
}

/// What is told of this, which begins there.
fn refused_at(alloc: Global, place: Place, found: &Found) -> Result<Refused, AllocError>
    ensures seen { IfOk result (λ r. refused_seen r ≡ found_seen found.now) }
    ensures located { (bytes : List ℕ) → IsPlace bytes place → place.start ≡ found.now.start
        → IsStarted bytes found.now → IfOk result (λ r. IsLocated bytes r) }
{
    Ok(Refused {
        place: found.place,
        start: found.start,
        line: found.line,
        column: place.column,
        kind: found.kind,
        about: found.about.share(alloc)?,
    })
}

/// Whether this place is there, and is that one.
fn is_at(last: Option<usize>, place: usize) -> bool
    ensures { result ≡ is_at last place }
{
    match last {
        None => false,
        Some(other) => other == place,
    }
}

/// Whether it is that an action can't be read.
fn is_unreadable(kind: ParseKind) -> bool
    ensures { result ≡ is_unreadable (reason_of kind) }
{
    matches!(kind, ParseKind::Unreadable)
}
