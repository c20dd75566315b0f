//! Why a check does not accept.
ghost use Rattle.std.specs.Prelude.{◌≡◌, Box, None};
ghost use Rattle.std.specs.Global.{Global};
ghost use Rattle.tmpl_schema.specs.declared.failure.Failure.TheVariants as failure;
ghost use Rattle.tmpl_shape.specs.declared.cause.Cause.{Cause};
ghost use Rattle.tmpl_shape.specs.declared.cause.Trouble.TheVariants as trouble;

use crate::table::Call;
use std::alloc::{AllocError, AllocFailed, Global};
use tmpl_shape::{Cause, Trouble};
use tmpl_syntax::Node;
use tmpl_values::Bytes;

/// Where an action begins in its file.
#[derive(Clone, Copy)]
pub(crate) struct Position {
    /// Its line, from 1.
    pub(crate) line: u64,
    /// How many bytes of the file stand before it.
    pub(crate) start: usize,
}

impl Position {
    /// Where a node begins.
    pub(crate) fn of(node: &Node) -> Position {
        Position {
            line: node.line,
            start: node.start,
        }
    }
}

/// A place at which a template may fail, or where it is not seen that it never does.
#[derive(Drop)]
pub struct Doubt {
    /// The template in which it is.
    pub template: Bytes,
    /// The line of its action; 0 where it is no action.
    pub line: u64,
    /// How many bytes of the file stand before its action.
    pub start: usize,
    pub cause: Cause,
}

/// Why nodes are not accepted.
#[derive(Drop)]
pub(crate) enum Failure {
    /// Out of memory.
    OutOfMemory,
    /// A fault may come, in the action that begins there; none where it is that which is looked at.
    MayFail(Box<Cause>, Option<Position>),
    /// A template is called with more than the table has for it.
    Wanted(Box<Call>),
}

impl Failure {
    /// That a fault may come, for this cause.
    pub(crate) fn may_fail(alloc: Global, cause: Cause, position: Option<Position>) -> Failure {
        match Box::new(alloc, cause) {
            Ok(cause) => Failure::MayFail(cause, position),
            Err(_) => Failure::OutOfMemory,
        }
    }
}

impl From<AllocError> for Failure {
    ghost from_gives = { λ _ e. e ≡ failure.OutOfMemory };

    fn from(_: AllocError) -> Failure {
        Failure::OutOfMemory
    }
}

impl<T: Drop> From<AllocFailed<T>> for Failure {
    ghost from_gives = { λ _ e. e ≡ failure.OutOfMemory };

    fn from(_: AllocFailed<T>) -> Failure {
        Failure::OutOfMemory
    }
}

impl From<Trouble> for Failure {
    ghost from_gives = { λ t e. (t ≡ trouble.OutOfMemory → e ≡ failure.OutOfMemory)
        × ((cause : Box Cause Global) → t ≡ trouble.MayFail cause → e ≡ failure.MayFail cause None) };

    fn from(trouble: Trouble) -> Failure {
        match trouble {
            Trouble::OutOfMemory => Failure::OutOfMemory,
            Trouble::MayFail(cause) => Failure::MayFail(cause, None),
        }
    }
}

/// The failure, met in this node, unless it was met inside.
pub(crate) fn at_node(failure: Failure, node: &Node) -> Failure {
    match failure {
        Failure::MayFail(cause, None) => Failure::MayFail(cause, Some(Position::of(node))),
        _ => failure,
    }
}
