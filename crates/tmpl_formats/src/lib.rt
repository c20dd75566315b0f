//! Whether a text is of a format: machines that read it byte by byte.
#![tactic(auto)]

mod check;
mod csv;
mod env;
mod format;
mod json_lines;
mod json_text;
mod laws;
mod lines;
mod machine;
mod mistake;
mod name;
mod nginx;
mod pattern;
mod pattern_class;
mod pattern_parts;
mod pattern_search;
mod pattern_text;
mod pattern_tree;
mod yaml;
mod yaml_line;
mod yaml_nest;
mod yaml_scalar;

pub use check::first_mistake;
pub use format::Format;
pub use laws::refused_prefix;
pub use mistake::Mistake;
pub use pattern::Pattern;
