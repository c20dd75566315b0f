//! The run of a template: where its text goes, how it may be told to run, how it may fail, and what it asks of values.
//!
//! What a run puts out is the meaning of its template, which `specs/Meaning.antt` defines.
#![tactic(auto)]

mod fault;
mod laws;
mod missing_key;
mod options;
mod sink;
mod values;

pub use fault::{RunFault, RunFaultKind};
pub use laws::{adds_to_text, formed_runs, joins_by_table};
pub use missing_key::MissingKey;
pub use options::Options;
pub use sink::{Sink, SinkFault, WholePuts, put_all};
pub use values::{decides, without_null};
