//! The grammar of one action: what its tokens are read as ("Actions", "Arguments", "Pipelines" and "Variables" in the
//! documentation of Go's text/template).
#![tactic(auto)]

mod action;
mod constant;
mod header;
mod keyword;
mod laws;
mod operand;
mod pipeline;
mod print;
mod read;
mod tree;

pub use action::{Action, Branch, Reading};
pub use laws::{
    one_action, one_constant, one_operand, one_reading, printed_spelling, printed_tokens,
};
pub use print::PrintedAction;
pub use read::read_action;
pub use tree::{Binding, Command, Control, Header, Operand, Pair, Pipeline};
