//! The files that the program reads.
mod data_file;
pub(crate) mod inputs;
mod load;
pub(crate) mod source;
