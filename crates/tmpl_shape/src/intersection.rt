//! The values that two shapes share.
#![tactic(auto, using(crate::proofs::ViewLemmas::parts, crate::proofs::MeetLemmas::meets))]

ghost use Rattle.std.specs.Prelude.{◌≡◌, IfOk};
ghost use Rattle.tmpl_shape.specs.Shape.{others};
ghost use Rattle.tmpl_shape.specs.View.{fields_of, shape_of};
ghost use Rattle.tmpl_shape.specs.computed.Meet.{each_part, is_first_open, is_open, leaf_within, meet, meet_fields, meet_forms, meet_leaf, meet_one};
ghost use Rattle.tmpl_shape.specs.computed.Meet.{meet_rest, or_shape, rest_shape, with_met, with_unlisted};
ghost use Rattle.tmpl_shape.specs.computed.Shapes.{gathered};
ghost use Rattle.tmpl_shape.specs.computed.View.{shape_seen};
ghost use Rattle.tmpl_shape.specs.declared.intersection.Unmet.TheVariants as unmet;

use crate::change::is_never;
use crate::inclusion::{has_constant, is_listed, is_required, shape_at};
use crate::shape::{Base, Fields, Shape, copy_counted, either, fields_of_all, list_of, put_field};
use std::alloc::{AllocError, Global};

/// How many pairs of names are compared by the work of a step.
const PAIRS: u64 = 16;

/// The most alternatives that two shapes are met to.
const MOST_ALTERNATIVES: usize = 1_500;

/// Why two shapes are not met.
#[derive(Clone, Copy)]
pub enum Unmet {
    OutOfMemory,
    /// No work is left, or there would be too many alternatives.
    TooMuch,
}

impl From<AllocError> for Unmet {
    ghost from_gives = { λ _ e. e ≡ unmet.OutOfMemory };

    fn from(_: AllocError) -> Unmet {
        Unmet::OutOfMemory
    }
}

/// The values of the one and of the other, of which neither is kept where it has none.
pub fn or_shape(alloc: Global, one: Shape, other: Shape) -> Result<Shape, AllocError>
    ensures { IfOk result (λ s. shape_of s ≡ or_shape (shape_of one) (shape_of other)) }
{
    if is_never(&one) {
        return Ok(other);
    }
    if is_never(&other) {
        return Ok(one);
    }
    either(alloc, one, other)
}

/// The values of any of the first, of which the last stands foremost, and of the second.
pub fn or_all(alloc: Global, back: Shape, last: Shape) -> Result<Shape, AllocError>
    ensures { IfOk result (λ all. shape_of all ≡ gathered or_shape (shape_of back) (shape_of last)) }
{
    let mut back = back;
    let mut all = last;
    loop {
        match back {
            Shape::Either(one, rest) => {
                all = or_shape(alloc, Box::into_inner(one), all)?;
                back = Box::into_inner(rest);
            }
            _ => return Ok(all),
        }
    }
}

/// How many alternatives a shape has that have none themselves.
pub fn count_alternatives(shape: &Shape) -> usize {
    let mut count: usize = 1;
    let mut rest = shape;
    while let Shape::Either(one, other) = rest {
        count = count.saturating_add(count_alternatives(one));
        rest = other;
    }
    count
}

/// Whether two shapes have too many alternatives for each of the one to be met with each of the other.
fn is_crowd(one: &Shape, other: &Shape) -> bool {
    count_alternatives(one).saturating_mul(count_alternatives(other)) > MOST_ALTERNATIVES
}

/// Whether nothing is known of a value, or it stands in a definition.
fn is_open(shape: &Shape) -> bool
    ensures { result ≡ is_open (shape_of shape.now) }
{
    matches!(shape, Shape::Anything | Shape::Named(_))
}

/// Whether of these the second is kept: a definition beside another shape is not followed.
fn is_first_open(one: &Shape, other: &Shape) -> bool
    ensures { result ≡ is_first_open (shape_of one.now) (shape_of other.now) }
{
    match one {
        Shape::Anything => true,
        Shape::Named(_) => !matches!(other, Shape::Anything),
        _ => false,
    }
}

/// Whether each value of the one is of the other, where neither is of lists or maps.
fn leaf_within(one: &Shape, other: &Shape) -> bool
    ensures { result ≡ leaf_within (shape_of one.now) (shape_of other.now) }
{
    match (one, other) {
        (Shape::Nothings, Shape::Nothings) => true,
        (Shape::Nulls, Shape::Nulls) => true,
        (Shape::Truths, Shape::Truths) => true,
        (Shape::Numbers, Shape::Numbers) => true,
        (Shape::Texts, Shape::Texts) => true,
        (Shape::Exactly(constant), _) => has_constant(other, constant),
        _ => false,
    }
}

/// The values that are of both, where one of these is not of lists, or not of maps.
#[inline(never)]
fn meet_leaf(base: &Base<'_>, one: &Shape, other: &Shape) -> Result<Shape, AllocError>
    ensures { IfOk result (λ s. shape_of s ≡ meet_leaf (shape_of one.now) (shape_of other.now)) }
{
    if leaf_within(one, other) {
        return copy_counted(base, one);
    }
    if leaf_within(other, one) {
        return copy_counted(base, other);
    }
    Ok(Shape::Never)
}

/// The shape of the fields that are not named.
fn rest_shape(fields: &Fields) -> Option<&Shape>
    ensures { shape_seen result ≡ rest_shape (fields_of fields.now) }
{
    let mut rest = fields;
    while let Fields::Field(first) = rest {
        rest = &first.rest;
    }
    match rest {
        Fields::Others(shape) => Some(shape),
        Fields::Closed | Fields::Field(_) => None,
    }
}

/// How many fields are named.
fn count_fields(fields: &Fields) -> u64 {
    let mut count: u64 = 0;
    let mut rest = fields;
    while let Fields::Field(first) = rest {
        count = count.saturating_add(1);
        rest = &first.rest;
    }
    count
}

/// The fields of the others that are not named here, before the rest.
fn with_unlisted(
    base: &Base<'_>,
    fields: &Fields,
    others: &Fields,
    rest: Fields,
) -> Result<Fields, AllocError>
    ensures { IfOk result (λ fs. fields_of fs ≡ with_unlisted (fields_of fields.now) (fields_of others.now) (fields_of rest)) }
{
    let mut back = Fields::Closed;
    let mut left = others;
    while let Fields::Field(first) = left {
        let name = first.name.as_slice();
        if !is_listed(name, fields) {
            let shape = copy_counted(base, &first.shape)?;
            back = put_field(base.alloc, name, first.required, shape, back)?;
        }
        left = &first.rest;
    }
    fields_of_all(base.alloc, back, rest)
}

/// The values that are of both, as far as this many steps show: where they show no more, those of the one.
///
/// # Errors
///
/// Where memory runs out, no work is left, or there would be more than 1,500 alternatives.
#[cycle(meet)]
pub fn meet(base: &Base<'_>, steps: usize, one: &Shape, other: &Shape) -> Result<Shape, Unmet>
    ensures { IfOk result (λ s. shape_of s ≡ meet steps (shape_of one.now) (shape_of other.now)) }
{
    if base.effort.is_spent() || is_crowd(one, other) {
        return Err(Unmet::TooMuch);
    }
    base.effort.spend(1);
    if steps == 0 {
        return Ok(copy_counted(base, one)?);
    }
    let fewer = steps - 1;
    let mut back = Shape::Never;
    let mut rest = one;
    while let Shape::Either(first, second) = rest {
        back = either(base.alloc, meet(base, fewer, first, other)?, back)?;
        rest = second;
    }
    let last = meet_each(base, fewer, rest, other)?;
    Ok(or_all(base.alloc, back, last)?)
}

/// The values of a shape without alternatives that are of the other, of which each alternative is looked at.
#[cycle(meet)]
#[inline(never)]
fn meet_each(base: &Base<'_>, steps: usize, one: &Shape, other: &Shape) -> Result<Shape, Unmet>
    ensures { IfOk result (λ s. shape_of s ≡ each_part (meet steps (shape_of one.now)) (meet_one (meet steps) (shape_of one.now))
        (shape_of other.now)) }
{
    let mut back = Shape::Never;
    let mut rest = other;
    while let Shape::Either(first, second) = rest {
        back = either(base.alloc, meet(base, steps, one, first)?, back)?;
        rest = second;
    }
    let last = meet_one(base, steps, one, rest)?;
    Ok(or_all(base.alloc, back, last)?)
}

/// The values that are of both, where neither has alternatives.
#[cycle(meet)]
fn meet_one(base: &Base<'_>, steps: usize, one: &Shape, other: &Shape) -> Result<Shape, Unmet>
    ensures { IfOk result (λ s. shape_of s ≡ meet_one (meet steps) (shape_of one.now) (shape_of other.now)) }
{
    if is_first_open(one, other) {
        return Ok(copy_counted(base, other)?);
    }
    if is_open(other) {
        return Ok(copy_counted(base, one)?);
    }
    meet_forms(base, steps, one, other)
}

/// The values that are of both, where each is of one kind.
#[cycle(meet)]
#[inline(never)]
fn meet_forms(base: &Base<'_>, steps: usize, one: &Shape, other: &Shape) -> Result<Shape, Unmet>
    ensures { IfOk result (λ s. shape_of s ≡ meet_forms (meet steps) (shape_of one.now) (shape_of other.now)) }
{
    match (one, other) {
        (
            Shape::List { least, items },
            Shape::List {
                least: fewest,
                items: others,
            },
        ) => {
            let items = meet(base, steps, items, others)?;
            Ok(list_of(base.alloc, (*least).max(*fewest), items)?)
        }
        (Shape::Record(fields), Shape::Record(others)) => {
            Ok(Shape::Record(meet_fields(base, steps, fields, others)?))
        }
        _ => Ok(meet_leaf(base, one, other)?),
    }
}

/// The fields of maps that are of both.
#[cycle(meet)]
fn meet_fields(
    base: &Base<'_>,
    steps: usize,
    fields: &Fields,
    others: &Fields,
) -> Result<Fields, Unmet>
    ensures { IfOk result (λ fs. fields_of fs ≡ meet_fields (meet steps) (fields_of fields.now) (fields_of others.now)) }
{
    let pairs = count_fields(fields).saturating_mul(count_fields(others));
    base.effort.spend(pairs / PAIRS);
    let rest = meet_rest(base, steps, rest_shape(fields), rest_shape(others))?;
    let unlisted = with_unlisted(base, fields, others, rest)?;
    with_met(base, steps, others, fields, unlisted)
}

/// Any fields of a shape.
fn others_of(alloc: Global, shape: Shape) -> Result<Fields, AllocError>
    ensures { IfOk result (λ fs. fields_of fs ≡ others (shape_of shape)) }
{
    Ok(Fields::Others(Box::new(alloc, shape)?))
}

/// The fields that neither names.
#[cycle(meet)]
fn meet_rest(
    base: &Base<'_>,
    steps: usize,
    one: Option<&Shape>,
    other: Option<&Shape>,
) -> Result<Fields, Unmet>
    ensures { IfOk result (λ fs. fields_of fs ≡ meet_rest (meet steps) (shape_seen one.entry) (shape_seen other.entry)) }
{
    match (one, other) {
        (Some(one), Some(other)) => {
            let shape = meet(base, steps, one, other)?;
            Ok(others_of(base.alloc, shape)?)
        }
        _ => Ok(Fields::Closed),
    }
}

/// The fields, each with what the others say of its name, before the rest.
#[cycle(meet)]
fn with_met(
    base: &Base<'_>,
    steps: usize,
    others: &Fields,
    fields: &Fields,
    rest: Fields,
) -> Result<Fields, Unmet>
    ensures { IfOk result (λ fs. fields_of fs ≡ with_met (meet steps) (fields_of others.now) (fields_of fields.now) (fields_of rest)) }
{
    let mut back = Fields::Closed;
    let mut left = fields;
    while let Fields::Field(first) = left {
        let name = first.name.as_slice();
        let shape = match shape_at(name, others) {
            Some(other) => meet(base, steps, &first.shape, other)?,
            None => Shape::Never,
        };
        let is_required = first.required || is_required(name, others);
        back = put_field(base.alloc, name, is_required, shape, back)?;
        left = &first.rest;
    }
    Ok(fields_of_all(base.alloc, back, rest)?)
}
