//! Whether the actions of a file stand where they may.

pub(crate) mod check;
pub(crate) mod frame;
pub(crate) mod mend;
pub(crate) mod names;
pub(crate) mod pass;
mod rules;
pub(crate) mod scopes;
mod uses;
