//! What the program says on the error sink.
mod fixed;
pub(crate) mod lines;
mod part;
