//! Flat code: the templates of a set as one list of instructions with jumps.
#![tactic(auto)]

mod binding;
mod bound;
mod call_graph;
mod claims;
mod code;
mod compiler;
mod cost;
mod heaviest;
mod instruction;
mod laws;
mod node;
mod numbers;
mod pipeline;
mod program;
mod scope;
mod stack_weights;
mod survey;
mod tables;

pub use compiler::compile;
pub use instruction::{CommandError, Instruction};
pub use laws::formed_slots;
pub use program::{Entry, Parts, Program};
pub use tables::{Names, Span, Tables, letters_at};
