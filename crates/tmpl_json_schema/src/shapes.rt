//! Shapes put together by kinds.
#![tactic(auto, using(tmpl_shape::proofs::ViewLemmas::parts))]

ghost use Rattle.std.specs.Prelude.{◌≡◌, IfOk};
ghost use Rattle.tmpl_shape.specs.View.{fields_of, shape_of};
ghost use Rattle.tmpl_shape.specs.computed.Meet.{or_shape};
ghost use Rattle.tmpl_json_schema.specs.computed.Reading.{by_kinds, has_kind, if_kind, is_anything, keep_kinds, or_if, rest_of, shape_of_rest};

use crate::Result;
use crate::kinds::Kinds;
use std::alloc::Global;
use tmpl_shape::{
    Constant, Fields, Shape, copy_shape, either, is_never, list_of, or_all, or_shape,
};

/// Whether each value is one.
pub(crate) fn is_anything(shape: &Shape) -> bool
    ensures { result ≡ is_anything (shape_of shape.now) }
{
    match shape {
        Shape::Anything => true,
        Shape::Nothings
        | Shape::Nulls
        | Shape::Truths
        | Shape::Numbers
        | Shape::Texts
        | Shape::Exactly(_)
        | Shape::Never => false,
        Shape::List { .. } | Shape::Record(_) | Shape::Either(..) | Shape::Named(_) => false,
    }
}

/// Those of the other, and of the one if that is asked for.
fn or_if(alloc: Global, is_asked: bool, one: Shape, other: Shape) -> Result<Shape>
    ensures { IfOk result (λ s. shape_of s ≡ or_if is_asked (shape_of one) (shape_of other)) }
{
    if is_asked {
        return or_shape(alloc, one, other);
    }
    Ok(other)
}

/// The values of these kinds, with these strings, numbers and booleans, at least as many such items, and such fields.
#[inline(never)]
pub(crate) fn by_kinds(
    alloc: Global,
    kinds: Kinds,
    leaves: Shape,
    least: u64,
    item: Shape,
    fields: Fields,
) -> Result<Shape>
    ensures { IfOk result (λ s. shape_of s ≡ by_kinds kinds (shape_of leaves) least (shape_of item) (fields_of fields)) }
{
    let shape = or_if(alloc, kinds.map, Shape::Record(fields), Shape::Never)?;
    let list = list_of(alloc, least, item)?;
    let shape = or_if(alloc, kinds.list, list, shape)?;
    let kept = keep_kinds(alloc, kinds, leaves)?;
    let shape = or_shape(alloc, kept, shape)?;
    or_if(alloc, kinds.null, Shape::Nulls, shape)
}

/// The values, if that is asked for.
fn if_kind(is_asked: bool, shape: Shape) -> Shape
    ensures { shape_of result ≡ if_kind is_asked (shape_of shape) }
{
    if is_asked { shape } else { Shape::Never }
}

/// Whether a constant is of these kinds.
fn has_kind(kinds: Kinds, constant: &Constant) -> bool
    ensures { result ≡ has_kind kinds constant.now }
{
    match constant {
        Constant::Bool(_) => kinds.truth,
        Constant::Number(_) => kinds.number,
        Constant::Text(_) => kinds.text,
    }
}

/// Those of these kinds.
#[cycle(keep)]
pub(crate) fn keep_kinds(alloc: Global, kinds: Kinds, shape: Shape) -> Result<Shape>
    ensures { IfOk result (λ s. shape_of s ≡ keep_kinds kinds (shape_of shape)) }
{
    match shape {
        Shape::Never => Ok(Shape::Never),
        Shape::Nothings => Ok(Shape::Never),
        Shape::Nulls => Ok(if_kind(kinds.null, Shape::Nulls)),
        Shape::Truths => Ok(if_kind(kinds.truth, Shape::Truths)),
        Shape::Numbers => Ok(if_kind(kinds.number, Shape::Numbers)),
        Shape::Texts => Ok(if_kind(kinds.text, Shape::Texts)),
        Shape::Exactly(constant) => Ok(if_kind(
            has_kind(kinds, &constant),
            Shape::Exactly(constant),
        )),
        Shape::List { least, items } => Ok(if_kind(kinds.list, Shape::List { least, items })),
        Shape::Record(fields) => Ok(if_kind(kinds.map, Shape::Record(fields))),
        Shape::Either(one, other) => {
            keep_either(alloc, kinds, Box::into_inner(one), Box::into_inner(other))
        }
        Shape::Anything => Ok(Shape::Anything),
        Shape::Named(name) => Ok(Shape::Named(name)),
    }
}

/// Those of these kinds among the values of the one and of the other, of whose alternatives each is looked at in turn.
#[cycle(keep)]
fn keep_either(alloc: Global, kinds: Kinds, one: Shape, other: Shape) -> Result<Shape>
    ensures { IfOk result (λ s. shape_of s ≡ or_shape (keep_kinds kinds (shape_of one)) (keep_kinds kinds (shape_of other))) }
{
    let mut back = either(alloc, keep_kinds(alloc, kinds, one)?, Shape::Never)?;
    let mut rest = other;
    while let Shape::Either(first, second) = rest {
        back = either(
            alloc,
            keep_kinds(alloc, kinds, Box::into_inner(first))?,
            back,
        )?;
        rest = Box::into_inner(second);
    }
    let last = keep_kinds(alloc, kinds, rest)?;
    or_all(alloc, back, last)
}

/// The fields of this shape that are not named.
pub(crate) fn rest_of(alloc: Global, shape: Shape) -> Result<Fields>
    ensures { IfOk result (λ fs. fields_of fs ≡ rest_of (shape_of shape)) }
{
    if is_never(&shape) {
        return Ok(Fields::Closed);
    }
    Ok(Fields::Others(Box::new(alloc, shape)?))
}

/// The shape of a field that is not named.
pub(crate) fn shape_of_rest(alloc: Global, fields: &Fields) -> Result<Shape>
    ensures { IfOk result (λ s. shape_of s ≡ shape_of_rest (fields_of fields.now)) }
{
    match fields {
        Fields::Others(shape) => copy_shape(alloc, shape),
        Fields::Closed => Ok(Shape::Never),
        Fields::Field(_) => Ok(Shape::Never),
    }
}
