//! The command `tmpl` over any source of files and any two sinks: what its arguments ask for, the files, the run, and
//! the lines and statuses with which it ends.
#![tactic(auto)]

mod answer;
mod command;
mod files;
mod laws;
mod limits;
mod messages;
mod render;
mod status;
mod stop;
mod words;

pub use answer::print;
pub use command::{Ended, tool, tool_keeping};
pub use files::inputs::{Inputs, read_inputs};
pub use files::source::{Source, SourceFault};
pub use laws::{ends, one_parse, one_place, stages};
pub use limits::{DEFAULT_DEPTH, DEFAULT_STEPS, MOST_DEPTH, MOST_STEPS};
pub use messages::lines::{out_of_memory, refuse, words_refused, write_failed};
pub use render::{asked_name, render_named, render_prepared, tell_end};
pub use status::Status;
pub use stop::Stop;
pub use words::request::{Request, WordsFault};
pub use words::request_of;
