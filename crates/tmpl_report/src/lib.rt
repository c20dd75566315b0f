//! The findings in template files, data, a schema and an output: with counterexamples and reasons.
#![tactic(auto)]

mod check;
mod commands;
mod detail;
mod findings;
mod held;
mod infer;
mod laws;
mod output;
mod reasons;
mod rendered;
mod samples;
mod schema;
mod source;
mod values;

pub use check::{CheckFault, check_document};
pub use findings::findings_of;
pub use infer::{Inferred, infer_from};
pub use laws::always_fails;
pub use reasons::{Reason, reasons_of};
pub use samples::{Failure, failure_refutes, failures_of};
pub use source::{Question, Sources};

/// What a function gives whose only error is that memory ran out, unless it names another.
type Result<T, E = std::alloc::AllocError> = std::result::Result<T, E>;
