//! The check of a template against a schema of its data.
#![tactic(auto)]

mod after;
mod check;
mod facts;
mod failure;
mod flow;
mod known;
mod laws;
mod loops;
mod node;
mod origin;
mod pipeline;
mod room;
mod state;
mod survey;
mod table;

pub use check::{Refusal, check_schema};
pub use failure::Doubt;
pub use laws::runs_safely;
pub use tmpl_shape::{
    Cause, Definition, Field, Fields, Schema, Shape, copy_name, copy_shape, either, list_of,
    put_field,
};
