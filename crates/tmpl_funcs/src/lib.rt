//! The functions of templates over values ("Functions" in the documentation of `text/template`),
//! and the formats of `printf` ("Printing" in the documentation of `fmt`).
#![tactic(auto)]

mod capacity;
mod compare;
mod count;
mod dispatch;
mod escape;
mod fault;
mod func;
mod index;
mod join;
mod laws;
mod printf;
mod slice;

pub use dispatch::call;
pub use fault::{CallError, CallFault};
pub use func::Func;
pub use laws::{count_first, one_format_reading};
