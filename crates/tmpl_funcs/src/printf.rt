//! `printf`: its formats, and what their forms print.
mod class;
mod digits;
mod directive;
mod form;
mod format;
mod pad;
mod reading;
mod rune;

pub(crate) use form::{Form, Verb};
pub(crate) use format::printf;
pub(crate) use reading::read_form;
