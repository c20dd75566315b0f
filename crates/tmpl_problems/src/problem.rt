//! What is wrong in a file, and where.

use tmpl_syntax::Refused;

/// A refusal, and what is wrong in words.
#[derive(Drop)]
pub struct Problem {
    pub refused: Refused,
    /// What is wrong, and what to write instead; it may be empty.
    pub detail: String,
}

/// The most problems of a file that are reported.
pub const MOST_PROBLEMS: usize = 1000;

/// What is wrong in a file: the first problems of it.
#[derive(Drop)]
pub struct Problems {
    /// What is refused of it; nothing where it is accepted.
    pub refused: Vec<Problem>,
    /// What is found after an action that can't be read, which is then the last that is refused: if that ends where it
    /// seems to end, and so does each other one that can't be read.
    pub beyond: Vec<Problem>,
    /// At least how many more there are; none where all are here.
    pub left: usize,
}
