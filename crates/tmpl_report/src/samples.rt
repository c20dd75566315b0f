//! Values of a JSON Schema for which a template fails.

mod failing;
mod laws;
mod search;
mod smaller;

pub use failing::Failure;
pub(crate) use failing::{Nowhere, said_of};
pub use laws::failure_refutes;
pub use search::failures_of;
pub(crate) use smaller::is_counted_out;
