//! What is wrong, by its place.

use crate::problem::Problem;
use crate::scan::place_in;
use std::alloc::{AllocError, Global};
use tmpl_syntax::Place;

/// The actions that can't be read, and what is wrong where they can, in one list, the last one first. Of two at one
/// place the former stays.
pub(crate) fn merge(
    alloc: Global,
    mut gaps: Vec<Problem>,
    mut others: Vec<Problem>,
) -> Result<Vec<Problem>, AllocError> {
    let mut merged = Vec::new(alloc);
    for _ in 0..gaps.len().saturating_add(others.len()) {
        if let Some(problem) = pop_last(&mut gaps, &mut others) {
            merged.push(problem)?;
        }
    }
    Ok(merged)
}

/// The later of the last of both; none where it is the second and the first stands there too.
fn pop_last(gaps: &mut Vec<Problem>, others: &mut Vec<Problem>) -> Option<Problem> {
    match (start_of_last(gaps), start_of_last(others)) {
        (Some(gap), Some(other)) if gap == other => {
            let _ = others.pop();
            None
        }
        (Some(gap), Some(other)) if gap < other => others.pop(),
        (None, _) => others.pop(),
        _ => gaps.pop(),
    }
}

/// Where the last begins.
fn start_of_last(problems: &Vec<Problem>) -> Option<usize> {
    Some(problems.last()?.refused.start)
}

/// The first of these, of which the last comes first: at most so many, in their order in the file, with its lines and columns.
pub(crate) fn beyond_of(
    alloc: Global,
    bytes: &[u8],
    mut reversed: Vec<Problem>,
    most: usize,
) -> Result<Vec<Problem>, AllocError> {
    let mut beyond = Vec::new(alloc);
    let mut place = Place::first();
    for _ in 0..reversed.len().min(most) {
        if let Some(mut problem) = reversed.pop() {
            place = place_in(place, bytes, problem.refused.start);
            problem.refused.line = place.line;
            problem.refused.column = place.column;
            beyond.push(problem)?;
        }
    }
    Ok(beyond)
}
