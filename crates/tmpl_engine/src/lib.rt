//! Templates for a host: an engine that owns them, and renders one by its name with data, to a sink. Below it stand runs
//! of flat code: `run`, what one instruction does, and the law that the code of a set comes to the meaning of its
//! templates.
#![tactic(auto)]

mod control;
mod engine;
mod error;
mod execute;
mod fault;
mod flow;
mod halt;
mod invoke;
mod laws;
mod machine;
mod operation;
mod output;
mod piece;
mod put;
mod range;
mod reason;
mod rendering;
mod reserved;
mod runner;
mod stack;
mod variable;
mod writer;

pub use engine::Engine;
pub use error::RenderError;
pub use fault::RunError;
pub use laws::{
    comes_to_meaning, depth_by_chains, each_turn_lessens, leaves_sink, mark_stays, one_end,
    only_adds, stays_within, text_is_named,
};
pub use reason::put_reason;
pub use rendering::Renderer;
pub use runner::run;
pub use tmpl_meaning::{
    MissingKey, Options, RunFault, RunFaultKind, Sink, SinkFault, WholePuts, put_all,
};
pub use tmpl_syntax::{NameHash, ParseFault, ParseKind, Set};
pub use tmpl_values::{Data, DataFault};
pub use writer::WriterSink;
