//! What `printf` takes.
#![tactic(auto, using(crate::proofs::ViewLemmas::parts))]

ghost use Rattle.std.specs.Prelude.{◌≡◌, ◌++◌, IfOk, OnOk};
ghost use Rattle.std.specs.Option.{option_map};
ghost use Rattle.tmpl_funcs.specs.View.{values_of};
ghost use Rattle.tmpl_shape.specs.View.{shape_of};
ghost use Rattle.tmpl_shape.specs.computed.Calls.{has};
ghost use Rattle.tmpl_shape.specs.computed.Formats.{kind_in, printed_kinds, prints, samples};

use crate::kind::{Kind, Kinds, sample};
use crate::shape::Shape;
use std::alloc::{AllocError, Global};
use tmpl_funcs::{CallError, Func, call};
use tmpl_values::{Cell, Val};

/// Whether there may be values of the kind.
fn has(kinds: &Kinds, kind: Kind) -> bool
    ensures { result ≡ has kinds.now kind }
{
    match kind {
        Kind::Blank => kinds.blank,
        Kind::Truth => kinds.truth,
        Kind::Number => kinds.number,
        Kind::Text => kinds.text,
        Kind::Many => kinds.many,
    }
}

/// This kind where there may be values of it, and else one of which there may be.
fn kind_in(kind: Kind, kinds: &Kinds) -> Kind
    ensures { result ≡ kind_in kind kinds.now }
{
    if has(kinds, kind) {
        kind
    } else if kinds.text {
        Kind::Text
    } else if kinds.number {
        Kind::Number
    } else if kinds.truth {
        Kind::Truth
    } else if kinds.blank {
        Kind::Blank
    } else {
        Kind::Many
    }
}

/// Puts a value for each of the arguments, each of this kind where it may be.
fn put_samples(kind: Kind, arguments: &[Kinds], cells: &mut Vec<Cell<'_>>) -> Result<(), AllocError>
    ensures { OnOk result (values_of cells.new.items ≡ values_of cells.old.items ++ samples kind arguments.now) }
{
    match arguments {
        [] => Ok(()),
        [first, rest @ ..] => {
            let val = sample(kind_in(kind, first));
            cells.push(Cell { val, num: 0 })?;
            put_samples(kind, rest, cells)
        }
    }
}

/// Whether `printf` takes a value for each of the arguments, each of this kind where it may be.
#[tactic(auto, unfolding(crate::specs::computed::Formats::prints))]
fn prints(alloc: Global, format: &[u8], arguments: &[Kinds], kind: Kind) -> Result<bool, AllocError>
    ensures { IfOk result (λ yes. yes ≡ prints format.now arguments.now kind) }
{
    let mut cells: Vec<Cell<'_>> = Vec::new(alloc);
    cells.push(Cell {
        val: Val::Text(format),
        num: 0,
    })?;
    put_samples(kind, arguments, &mut cells)?;
    match call(alloc, Func::Printf, cells.as_mut_slice()) {
        Ok(_) => Ok(true),
        Err(CallError::Fault(_)) => Ok(false),
        Err(CallError::OutOfMemory) => Err(AllocError),
    }
}

/// What `printf` gives for a format and arguments of these kinds, if it refuses none of them.
pub fn printf_shape(
    alloc: Global,
    format: &[u8],
    arguments: &[Kinds],
) -> Result<Option<Shape>, AllocError>
    ensures { IfOk result (λ s. option_map shape_of s ≡ printed_kinds format.now arguments.now) }
{
    if prints(alloc, format, arguments, Kind::Blank)?
        && (prints(alloc, format, arguments, Kind::Truth)?
            && (prints(alloc, format, arguments, Kind::Number)?
                && (prints(alloc, format, arguments, Kind::Text)?
                    && prints(alloc, format, arguments, Kind::Many)?)))
    {
        return Ok(Some(Shape::Texts));
    }
    Ok(None)
}
