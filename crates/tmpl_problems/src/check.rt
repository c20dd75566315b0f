//! The call that says all that is wrong in a file.
ghost use Rattle.std.specs.Prelude.{◌≡◌, ◌≤◌, All, IfOk, List, map};
ghost use Rattle.tmpl_syntax.specs.Fault.{reason_of};
ghost use Rattle.tmpl_syntax.specs.View.{set_view};
ghost use Rattle.tmpl_syntax.specs.Examine.{Examined, IsLocated, is_unreadable};
ghost use Rattle.tmpl_syntax.specs.declared.refused.Refused.{Refused};
ghost use Rattle.tmpl_problems.specs.Checked.{Reports, has_unreadable, refused_in};

use crate::explain::explain;
use crate::merge::{beyond_of, merge};
use crate::problem::{MOST_PROBLEMS, Problem, Problems};
use crate::readable::read_on;
use std::alloc::{AllocError, Global};
use tmpl_syntax::{NameHash, ParseKind, Refused, Set, examine_file};

/// Adds the templates of a file to the set, or says for what it is refused, in the order of the file: the first of what
/// `examine_file` gives, each with what is wrong in words; and what more is wrong after an action that can't be read. At
/// most 1,000 problems are reported. After a refusal the set is as it was.
///
/// # Errors
///
/// Where memory ran out; the set is then as it was, or has the file's templates.
#[tactic(auto, using(crate::proofs::BeyondLemmas::reports_all))]
pub fn check_file(
    alloc: Global,
    set: &mut Set,
    hash: NameHash,
    file: &str,
    bytes: &[u8],
) -> Result<Problems, AllocError>
    ensures { IfOk result (λ p. (all : List Refused)
        × Examined (set_view set.old) file.now bytes.now (set_view set.new) all
        × All (IsLocated bytes.now) all × Reports all p) }
{
    let mut refusals = examine_file(alloc, hash, set, file, bytes)?;
    let left = refusals.len().saturating_sub(MOST_PROBLEMS);
    refusals.truncate(MOST_PROBLEMS);
    if has_unreadable(refusals.as_slice()) {
        Ok(explain_past(alloc, hash, bytes, refusals, left)?)
    } else {
        Ok(Problems {
            refused: explain(alloc, file, bytes, refusals)?,
            beyond: Vec::new(alloc),
            left,
        })
    }
}

/// Whether one of these refusals is of an action that can't be read.
fn has_unreadable(refusals: &[Refused]) -> bool
    ensures { result ≡ has_unreadable refusals.now }
{
    refusals.iter().any(|refused| is_unreadable(refused))
}

/// Whether it is an action that can't be read.
fn is_unreadable(refused: &Refused) -> bool
    ensures { result ≡ is_unreadable (reason_of refused.now.kind) }
{
    matches!(refused.kind, ParseKind::Unreadable)
}

/// The refusals of a file of which one is of an action that can't be read, each with what is wrong, and what is found
/// after that one; so many refusals are left already.
fn explain_past(
    alloc: Global,
    hash: NameHash,
    bytes: &[u8],
    refusals: Vec<Refused>,
    left: usize,
) -> Result<Problems, AllocError>
    ensures refused { IfOk result (λ p. map refused_in p.refused.items ≡ refusals.items) }
    ensures left { IfOk result (λ p. left ≤ p.left) }
{
    let mut past = found_past(alloc, hash, bytes)?;
    let refused = with_details(alloc, refusals, &mut past.found)?;
    let room = MOST_PROBLEMS.saturating_sub(refused.len());
    let beyond = beyond_of(alloc, bytes, past.found, room)?;
    let reported = refused.len().saturating_add(beyond.len());
    Ok(Problems {
        refused,
        beyond,
        left: left.saturating_add(past.total.saturating_sub(reported)),
    })
}

/// What is wrong with the actions of a file of which one can't be read: the first of it.
#[derive(Drop)]
struct Past {
    /// The last of these comes first.
    found: Vec<Problem>,
    /// At least how many there are in all.
    total: usize,
}

/// What is wrong with the actions of a file of which one can't be read.
fn found_past(alloc: Global, hash: NameHash, bytes: &[u8]) -> Result<Past, AllocError> {
    let readable = read_on(alloc, bytes)?;
    let mut set = Set::with_hash(alloc, hash);
    let read = readable.bytes.as_slice();
    let mut refusals = examine_file(alloc, hash, &mut set, "", read)?;
    let refused = refusals.len();
    refusals.truncate(MOST_PROBLEMS);
    let problems = explain(alloc, "", read, refusals)?;
    let found = merge(alloc, readable.gaps, problems)?;
    // a place may be among both, so their numbers are not added
    let total = refused.max(found.len()).saturating_add(readable.left);
    Ok(Past { found, total })
}

/// These refusals, each with what is wrong with the last of what is left of what was found.
fn with_details(
    alloc: Global,
    refusals: Vec<Refused>,
    found: &mut Vec<Problem>,
) -> Result<Vec<Problem>, AllocError>
    ensures { IfOk result (λ v. map refused_in v.items ≡ refusals.items) }
{
    let mut problems = Vec::new(alloc);
    for refused in refusals {
        let detail = match found.pop() {
            Some(problem) => problem.detail,
            None => String::new(alloc),
        };
        problems.push(Problem { refused, detail })?;
    }
    Ok(problems)
}
