//! What is wrong with an action that is refused, in words, and what to write instead.
#![tactic(auto)]

mod action;
mod detail;
mod instead;
mod near;
mod operators;
mod sentence;
mod unread;

pub use action::{Open, Opening, Role, role_named, role_of, role_unread, significant};
pub use detail::{detail_of, left_open, misplaced_text, undeclared_text};
pub use sentence::Sentence;
pub use unread::{marker_len, opens_comment, unreadable};
