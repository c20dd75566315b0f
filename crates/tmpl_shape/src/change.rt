//! What shapes become: joined, without null, and where a value is not empty.
#![tactic(auto, using(crate::proofs::ViewLemmas::parts, crate::proofs::StepLemmas::steps, crate::proofs::LeafLemmas::leaves))]

ghost use Rattle.std.specs.Prelude.{◌≡◌, IfOk};
ghost use Rattle.tmpl_shape.specs.View.{fields_of, shape_of};
ghost use Rattle.tmpl_shape.specs.computed.Shapes.{fill, is_never, join, null_gone, null_gone_by, refine, refine_by};
ghost use Rattle.tmpl_shape.specs.computed.Shapes.{refine_constant, refine_record, with_field, with_first, with_refined};
ghost use Rattle.tmpl_shape.specs.computed.View.{base_of, test_seen};

use crate::constant::Constant;
use crate::inclusion::{find, is_required, shape_at, within};
use crate::kind::{Kind, has_kind};
use crate::shape::{
    Base, Fields, Shape, copy_counted, copy_fields, copy_name, copy_shape, either, fields_of_all,
    list_of, put_field, weight_of_fields,
};
use crate::test::{Test, least_of, lets_value, shows_there};
use std::alloc::{AllocError, Global};
use tmpl_values::Bytes;

/// The values of both.
#[tactic(auto, unfolding(crate::specs::computed::Shapes::join))]
pub fn join(base: &Base<'_>, one: Shape, other: Shape) -> Result<Shape, AllocError>
    ensures { IfOk result (λ s. shape_of s ≡ join (base_of base.now) (shape_of one) (shape_of other)) }
{
    if within(base, &one, &other) {
        return Ok(other);
    }
    if within(base, &other, &one) {
        return Ok(one);
    }
    either(base.alloc, one, other)
}

/// With nothing in place of null.
fn null_gone_by(base: &Base<'_>, steps: usize, shape: &Shape) -> Result<Shape, AllocError>
    ensures { IfOk result (λ s. shape_of s ≡ null_gone_by (base_of base.now) steps (shape_of shape.now)) }
{
    if steps == 0 {
        return either(base.alloc, copy_counted(base, shape)?, Shape::Nothings);
    }
    let fewer = steps - 1;
    match shape {
        Shape::Nulls => Ok(Shape::Nothings),
        Shape::Either(one, other) => {
            join(
                base,
                null_gone_by(base, fewer, one)?,
                null_gone_by(base, fewer, other)?,
            )
        }
        Shape::Named(name) => {
            if !has_kind(base, Kind::Blank, shape) {
                return copy_counted(base, shape);
            }
            match find(base, name.as_slice()) {
                Some(defined) => null_gone_by(base, fewer, defined),
                None => either(base.alloc, copy_counted(base, shape)?, Shape::Nothings),
            }
        }
        _ => copy_counted(base, shape),
    }
}

/// What a command gives: nothing in place of null.
pub fn null_gone(base: &Base<'_>, shape: &Shape) -> Result<Shape, AllocError>
    ensures { IfOk result (λ s. shape_of s ≡ null_gone (base_of base.now) (shape_of shape.now)) }
{
    null_gone_by(base, base.limit, shape)
}

/// The fields of which the first is always there and has the shape; where there is none but others may be, it is put there.
#[inline(never)]
fn with_first(
    alloc: Global,
    name: &[u8],
    shape: Shape,
    fields: &Fields,
) -> Result<Fields, AllocError>
    ensures { IfOk result (λ fs. fields_of fs ≡ with_first name.now (shape_of shape) (fields_of fields.now)) }
{
    match fields {
        Fields::Closed => Ok(Fields::Closed),
        Fields::Others(_) => put_field(alloc, name, true, shape, copy_fields(alloc, fields)?),
        Fields::Field(first) => {
            let rest = copy_fields(alloc, &first.rest)?;
            put_field(alloc, first.name.as_slice(), true, shape, rest)
        }
    }
}

/// The fields with one that is always there and has the shape.
fn with_field(
    alloc: Global,
    name: &[u8],
    shape: Shape,
    fields: &Fields,
) -> Result<Fields, AllocError>
    ensures { IfOk result (λ fs. fields_of fs ≡ with_field name.now (shape_of shape) (fields_of fields.now)) }
{
    let mut back = Fields::Closed;
    let mut rest = fields;
    while let Fields::Field(first) = rest {
        if name == first.name.as_slice() {
            let last = with_first(alloc, name, shape, rest)?;
            return fields_of_all(alloc, back, last);
        }
        let kept = copy_shape(alloc, &first.shape)?;
        back = put_field(alloc, first.name.as_slice(), first.required, kept, back)?;
        rest = &first.rest;
    }
    let last = with_first(alloc, name, shape, rest)?;
    fields_of_all(alloc, back, last)
}

/// Whether there is no value.
pub fn is_never(shape: &Shape) -> bool
    ensures { result ≡ is_never (shape_of shape.now) }
{
    matches!(shape, Shape::Never)
}

/// Of the values that are this constant.
fn refine_constant(
    alloc: Global,
    test: Test<'_>,
    names: &[Bytes],
    constant: &Constant,
) -> Result<Shape, AllocError>
    ensures { IfOk result (λ s. shape_of s ≡ refine_constant (test_seen test.entry) names.now constant.now) }
{
    match names {
        [] => {
            if lets_value(test, constant) {
                return Ok(Shape::Exactly(constant.copy(alloc)?));
            }
            Ok(Shape::Never)
        }
        [_, _rest @ ..] => Ok(Shape::Exactly(constant.copy(alloc)?)),
    }
}

/// Of the values of which the test shows what it does of the field of the field of ..
#[cycle(refine)]
fn refine_by(
    base: &Base<'_>,
    test: Test<'_>,
    steps: usize,
    names: &[Bytes],
    shape: &Shape,
) -> Result<Shape, AllocError>
    ensures { IfOk result (λ s. shape_of s
        ≡ refine_by (base_of base.now) (test_seen test.entry) steps names.now (shape_of shape.now)) }
{
    base.effort.spend(1);
    if steps == 0 {
        return copy_counted(base, shape);
    }
    let fewer = steps - 1;
    match shape {
        Shape::Nothings | Shape::Nulls => {
            if shows_there(test) {
                return Ok(Shape::Never);
            }
            copy_counted(base, shape)
        }
        Shape::Exactly(constant) => refine_constant(base.alloc, test, names, constant),
        Shape::List { least, items } => {
            let items = copy_counted(base, items)?;
            list_of(base.alloc, (*least).max(least_of(test)), items)
        }
        Shape::Either(one, other) => {
            join(
                base,
                refine_by(base, test, fewer, names, one)?,
                refine_by(base, test, fewer, names, other)?,
            )
        }
        Shape::Named(name) => match find(base, name.as_slice()) {
            Some(defined) => refine_by(base, test, fewer, names, defined),
            None => copy_counted(base, shape),
        },
        Shape::Record(fields) => refine_record(base, test, fewer, names, fields),
        _ => copy_counted(base, shape),
    }
}

/// Of maps of these fields.
#[cycle(refine)]
fn refine_record(
    base: &Base<'_>,
    test: Test<'_>,
    steps: usize,
    names: &[Bytes],
    fields: &Fields,
) -> Result<Shape, AllocError>
    ensures { IfOk result (λ s. shape_of s ≡ refine_record (base_of base.now) (test_seen test.entry)
        (refine_by (base_of base.now) (test_seen test.entry) steps) names.now (fields_of fields.now)) }
{
    base.effort
        .spend(weight_of_fields(fields).saturating_mul(4));
    match names {
        [] => Ok(Shape::Record(copy_fields(base.alloc, fields)?)),
        [first, rest @ ..] => {
            let name = first.as_slice();
            if !shows_there(test) && !is_required(name, fields) {
                return Ok(Shape::Record(copy_fields(base.alloc, fields)?));
            }
            match shape_at(name, fields) {
                Some(shape) => {
                    let shape = refine_by(base, test, steps, rest, shape)?;
                    with_refined(base.alloc, name, shape, fields)
                }
                None => Ok(Shape::Never),
            }
        }
    }
}

/// Of the maps of which the field of this name, which is there, becomes such.
fn with_refined(
    alloc: Global,
    name: &[u8],
    shape: Shape,
    fields: &Fields,
) -> Result<Shape, AllocError>
    ensures { IfOk result (λ s. shape_of s ≡ with_refined name.now (shape_of shape) (fields_of fields.now)) }
{
    if is_never(&shape) {
        return Ok(Shape::Never);
    }
    Ok(Shape::Record(with_field(alloc, name, shape, fields)?))
}

/// Of the values of which the test shows what it does of the field of the field of .., as far as is looked.
pub fn refine(
    base: &Base<'_>,
    test: Test<'_>,
    names: &[Bytes],
    shape: &Shape,
) -> Result<Shape, AllocError>
    ensures { IfOk result (λ s. shape_of s
        ≡ refine (base_of base.now) (test_seen test.entry) names.now (shape_of shape.now)) }
{
    refine_by(base, test, base.limit, names, shape)
}

/// Of the values that are not empty.
pub fn fill(base: &Base<'_>, shape: &Shape) -> Result<Shape, AllocError>
    ensures { IfOk result (λ s. shape_of s ≡ fill (base_of base.now) (shape_of shape.now)) }
{
    refine(base, Test::There(1), &[], shape)
}
