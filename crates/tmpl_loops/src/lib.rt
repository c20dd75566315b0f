//! The law of copy loops: what templates write that copy a text and write others for some of its bytes; and how such loops are
//! found in trees.
#![tactic(auto)]

mod find;
mod laws;

pub use find::{
    Parts, after_texts, are_all_seen, are_apart, differ, is_end, is_yes, parts_of, slices,
};
pub use laws::copies;
