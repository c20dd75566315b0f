//! The formats of output.

use crate::pattern::Pattern;

/// A format of output.
#[derive(Drop)]
pub enum Format {
    /// One JSON value, with white space around it.
    Json,
    /// Lines, each of which has white space alone or one JSON value.
    JsonLines,
    /// An environment file: lines NAME=VALUE, comments and empty lines.
    Env,
    /// CSV with this many fields in each record.
    Csv(u32),
    /// A configuration file of nginx.
    Nginx,
    /// YAML that readers of YAML 1.1 and YAML 1.2 read the same.
    Yaml,
    /// Lines in each of which there is a match of this pattern.
    Lines(Pattern),
}
