//! Where in a JSON Schema the reason for an alarm about a template stands.

mod reason;
mod walk;

pub use reason::{Reason, reasons_of};
