//! How a run may fail.
use tmpl_funcs::{CallFault, Func};

/// Why a run failed.
#[derive(Clone, Copy, Debug)]
pub enum RunFaultKind<'a> {
    /// No step was left of this many.
    StepsSpent(u64),
    /// A field, of this name, of a value that has no fields.
    NoField(&'a [u8]),
    /// A field, of this name, for which there is no entry, where that is to be a fault.
    NoEntry(&'a [u8]),
    /// A range over a truth value, a number or a text.
    NotARange,
    /// An argument or a piped value for what is no function.
    NotAFunction,
    /// `nil` as a whole command.
    NilCommand,
    /// A function refused its arguments.
    Call(Func, CallFault),
    /// A call of a template of this name, of which there is none.
    NoTemplate(&'a [u8]),
    /// A call inside as many templates as there may be, the starting one counted.
    CallsTooDeep(u32),
}

/// A run that failed: why, and where. The text before the fault is put out all the same.
#[derive(Clone, Copy, Debug)]
pub struct RunFault<'a> {
    /// The path of the file, as it was given.
    pub file: &'a [u8],
    /// The line of the action in that file, from 1.
    pub line: u64,
    /// The name of the template that the action stands in.
    pub template: &'a [u8],
    pub kind: RunFaultKind<'a>,
}
