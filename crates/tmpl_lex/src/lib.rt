//! A template file cut into texts and actions.
#![tactic(auto)]

mod action;
mod bytes;
mod cutter;
mod laws;
mod part;
mod piece;
mod quoted;
mod text;
mod token;
mod trim;

pub use bytes::is_space;
pub use cutter::cut;
pub use laws::{one_cut, one_token};
pub use part::{AfterText, Part, Rest, first_part};
pub use piece::{Piece, Token, TokenKind};
