//! All that is wrong in template files and in data, where, and what to write instead; and how findings are printed.
#![tactic(auto)]

mod check;
mod cure;
mod data_check;
mod definitions;
mod explain;
mod failing;
mod finding;
mod findings;
mod json;
mod line;
mod merge;
mod position;
mod problem;
mod readable;
mod reason;
pub mod rule;
mod sarif;
mod scan;
mod source;
mod survey;
mod variables;

pub use check::check_file;
pub use finding::{Finding, Level};
pub use findings::{Findings, Format};
pub use line::reason_text;
pub use position::{line_of, position_of};
pub use problem::{Problem, Problems};
pub use source::Source;
pub use survey::{Named, Survey, Warning, survey_file};

/// What a function gives whose only error is that memory ran out, unless it names another.
type Result<T, E = std::alloc::AllocError> = std::result::Result<T, E>;
