//! JSON Schema (2020-12, 2019-09, draft-07, draft-06 and draft-04) read as a schema of data, and the check of a template against it.
#![tactic(auto)]

mod base;
mod conform;
mod draft;
mod draw;
mod edit;
mod empty;
mod fault;
mod fields;
mod infer;
mod keyword;
mod kinds;
mod known;
mod leaves;
mod pattern;
mod permission;
mod provenance;
mod read;
mod reference;
mod schema;
mod shapes;
mod violation;

pub use conform::{LEVELS, conforms, conforms_to};
pub use draft::Draft;
pub use draw::{Draw, Flip};
pub use empty::part_without_values;
pub use fault::{Refused, SchemaFault};
pub use infer::infer_schema;
pub use kinds::Kinds;
pub use permission::{Gap, Permission, Why};
pub use provenance::{Document, Lost, Provenance, below};
pub use schema::{read_document, read_schema, warnings_of};
pub use violation::{Violation, violations_of};

/// What a function gives whose only error is that memory ran out, unless it names another.
type Result<T, E = std::alloc::AllocError> = std::result::Result<T, E>;
