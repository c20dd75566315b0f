//! Whether each value of one shape has another.
#![tactic(auto, using(crate::proofs::ViewLemmas::parts, crate::proofs::LeafLemmas::leaves))]

ghost use Rattle.std.specs.Prelude.{◌≡◌};
ghost use Rattle.tmpl_shape.specs.View.{defs_in, fields_of, shape_of};
ghost use Rattle.tmpl_shape.specs.computed.Shapes.{fields_along, fields_within, has_name, is_listed, is_required, others_within};
ghost use Rattle.tmpl_shape.specs.computed.Shapes.{plain_within, record_within, requires_all, shape_at, some_part, has_constant, within, within_by};
ghost use Rattle.tmpl_shape.specs.computed.View.{base_of, name_within, shape_seen};

use crate::constant::Constant;
use crate::shape::{Base, Fields, Shape};

/// The shape of the first definition of a name, which is some work where there are many.
pub(crate) fn find<'s>(base: &Base<'s>, name: &[u8]) -> Option<&'s Shape>
    ensures { shape_seen result ≡ defs_in base.now.definitions.now name.now }
{
    let definitions = base.definitions;
    base.effort.spend(definitions.len() as u64);
    for definition in definitions {
        if name == definition.name.as_slice() {
            return Some(&definition.shape);
        }
    }
    None
}

/// The shape that a field of a name has if it is there.
pub(crate) fn shape_at<'f>(name: &[u8], fields: &'f Fields) -> Option<&'f Shape>
    ensures { shape_seen result ≡ shape_at name.now (fields_of fields.now) }
{
    let mut rest = fields;
    while let Fields::Field(first) = rest {
        if name == first.name.as_slice() {
            return Some(&first.shape);
        }
        rest = &first.rest;
    }
    match rest {
        Fields::Others(shape) => Some(shape),
        Fields::Closed | Fields::Field(_) => None,
    }
}

/// Whether a field of this name is always there.
pub(crate) fn is_required(name: &[u8], fields: &Fields) -> bool
    ensures { result ≡ is_required name.now (fields_of fields.now) }
{
    let mut rest = fields;
    while let Fields::Field(first) = rest {
        if name == first.name.as_slice() && first.required {
            return true;
        }
        rest = &first.rest;
    }
    false
}

/// Whether those of the second that are always there are so in the first.
fn requires_all(fields: &Fields, others: &Fields) -> bool
    ensures { result ≡ requires_all (fields_of fields.now) (fields_of others.now) }
{
    let mut rest = others;
    while let Fields::Field(first) = rest {
        if first.required && !is_required(first.name.as_slice(), fields) {
            return false;
        }
        rest = &first.rest;
    }
    true
}

/// Whether there is a field of this name.
pub(crate) fn is_listed(name: &[u8], fields: &Fields) -> bool
    ensures { result ≡ is_listed name.now (fields_of fields.now) }
{
    let mut rest = fields;
    while let Fields::Field(first) = rest {
        if name == first.name.as_slice() {
            return true;
        }
        rest = &first.rest;
    }
    false
}

/// Whether this name is one of the alternatives.
pub fn has_name(name: &[u8], shape: &Shape) -> bool
    ensures { result ≡ has_name name.now (shape_of shape.now) }
{
    let mut rest = shape;
    while let Shape::Either(one, other) = rest {
        if has_name(name, one) {
            return true;
        }
        rest = other;
    }
    match rest {
        Shape::Named(other) => name == other.as_slice(),
        _ => false,
    }
}

/// Whether each value of the one has the other, as far as these steps show. The alternatives of the one are asked one by
/// one, however many there are.
#[cycle(within)]
fn within_by(base: &Base<'_>, names: usize, steps: usize, one: &Shape, other: &Shape) -> bool
    ensures { result ≡ within_by (base_of base.now) names steps (shape_of one.now) (shape_of other.now) }
{
    base.effort.spend(1);
    if steps == 0 {
        return false;
    }
    let fewer = steps - 1;
    let mut rest = one;
    while let Shape::Either(first, second) = rest {
        if !within_by(base, names, fewer, first, other) {
            return false;
        }
        rest = second;
    }
    match rest {
        Shape::Never => true,
        Shape::Named(name) => name_within(base, names, fewer, name.as_slice(), other),
        _ => some_part(base, 64, names, fewer, rest, other),
    }
}

/// Whether a name is one of the alternatives, or what it stands for has the other, where one more name is followed.
#[cycle(within)]
fn name_within(base: &Base<'_>, names: usize, steps: usize, name: &[u8], other: &Shape) -> bool
    ensures { result ≡ name_within (base_of base.now) names steps name.now (shape_of other.now) }
{
    if has_name(name, other) {
        return true;
    }
    if names == 0 {
        return false;
    }
    match find(base, name) {
        Some(shape) => within_by(base, names - 1, steps, shape, other),
        None => false,
    }
}

/// Whether some alternative has each value of a shape of one kind, as far as this many steps show. The alternatives are
/// asked one by one, however many there are.
#[cycle(within)]
fn some_part(
    base: &Base<'_>,
    reach: usize,
    names: usize,
    steps: usize,
    one: &Shape,
    other: &Shape,
) -> bool
    ensures { result ≡ some_part (base_of base.now) reach (plain_within (within_by (base_of base.now) names steps)
        (shape_of one.now)) (shape_of other.now) }
{
    if reach == 0 {
        return false;
    }
    let fewer = reach - 1;
    let mut rest = other;
    while let Shape::Either(first, second) = rest {
        if some_part(base, fewer, names, steps, one, first) {
            return true;
        }
        rest = second;
    }
    match rest {
        Shape::Named(name) => match find(base, name.as_slice()) {
            Some(shape) => some_part(base, fewer, names, steps, one, shape),
            None => false,
        },
        Shape::Anything => true,
        _ => plain_within(base, names, steps, one, rest),
    }
}

/// Whether a shape of one kind has this constant.
#[tactic(auto, using(crate::proofs::ViewLemmas::parts, crate::proofs::LeafLemmas::plain))]
pub(crate) fn has_constant(shape: &Shape, constant: &Constant) -> bool
    ensures { result ≡ has_constant (shape_of shape.now) constant.now }
{
    match shape {
        Shape::Exactly(only) => constant.is_same(only),
        Shape::Truths => matches!(constant, Constant::Bool(_)),
        Shape::Numbers => matches!(constant, Constant::Number(_)),
        Shape::Texts => matches!(constant, Constant::Text(_)),
        _ => false,
    }
}

/// Whether each value of a shape of one kind has another of one kind.
#[cycle(within)]
#[tactic(auto, using(crate::proofs::ViewLemmas::parts, crate::proofs::LeafLemmas::plain))]
fn plain_within(base: &Base<'_>, names: usize, steps: usize, one: &Shape, other: &Shape) -> bool
    ensures { result ≡ plain_within (within_by (base_of base.now) names steps) (shape_of one.now) (shape_of other.now) }
{
    base.effort.spend(1);
    match (one, other) {
        (Shape::Nothings, Shape::Nothings) => true,
        (Shape::Nulls, Shape::Nulls) => true,
        (Shape::Truths, Shape::Truths) => true,
        (Shape::Numbers, Shape::Numbers) => true,
        (Shape::Texts, Shape::Texts) => true,
        (Shape::Exactly(constant), _) => has_constant(other, constant),
        (
            Shape::List { least, items },
            Shape::List {
                least: fewest,
                items: others,
            },
        ) => { *fewest <= *least && within_by(base, names, steps, items, others) }
        (Shape::Record(fields), Shape::Record(others)) => {
            fields_along(base, names, steps, fields, others)
        }
        _ => false,
    }
}

/// Whether maps of these fields are maps of the others: the fields at the front are compared one by one as long as both
/// have the same names, as they mostly do.
#[cycle(within)]
fn fields_along(
    base: &Base<'_>,
    names: usize,
    steps: usize,
    fields: &Fields,
    others: &Fields,
) -> bool
    ensures { result ≡ fields_along (within_by (base_of base.now) names steps) (fields_of fields.now)
        (fields_of others.now) }
{
    let mut rest = fields;
    let mut others_rest = others;
    while let Fields::Field(first) = rest {
        let Fields::Field(other) = others_rest else {
            return all_fields_within(base, names, steps, rest, others_rest);
        };
        if first.name.as_slice() != other.name.as_slice() {
            return all_fields_within(base, names, steps, rest, others_rest);
        }
        if other.required && !first.required {
            return false;
        }
        if !within_by(base, names, steps, &first.shape, &other.shape) {
            return false;
        }
        rest = &first.rest;
        others_rest = &other.rest;
    }
    all_fields_within(base, names, steps, rest, others_rest)
}

/// Whether maps of these fields are maps of the others, whatever the order.
#[cycle(within)]
fn all_fields_within(
    base: &Base<'_>,
    names: usize,
    steps: usize,
    fields: &Fields,
    others: &Fields,
) -> bool
    ensures { result ≡ record_within (within_by (base_of base.now) names steps) (fields_of fields.now)
        (fields_of others.now) }
{
    fields_within(base, names, steps, fields, others) && requires_all(fields, others)
}

/// Whether each field, and each that may be beside them, may be among the others.
#[cycle(within)]
fn fields_within(
    base: &Base<'_>,
    names: usize,
    steps: usize,
    fields: &Fields,
    others: &Fields,
) -> bool
    ensures { result ≡ fields_within (within_by (base_of base.now) names steps) (fields_of fields.now)
        (fields_of fields.now) (fields_of others.now) }
{
    let mut rest = fields;
    while let Fields::Field(first) = rest {
        let Some(other) = shape_at(first.name.as_slice(), others) else {
            return false;
        };
        if !within_by(base, names, steps, &first.shape, other) {
            return false;
        }
        rest = &first.rest;
    }
    match rest {
        Fields::Others(shape) => others_within(base, names, steps, shape, fields, others),
        Fields::Closed | Fields::Field(_) => true,
    }
}

/// Whether each field of this shape that is none of all these may be among the others.
#[cycle(within)]
fn others_within(
    base: &Base<'_>,
    names: usize,
    steps: usize,
    shape: &Shape,
    all: &Fields,
    others: &Fields,
) -> bool
    ensures { result ≡ others_within (within_by (base_of base.now) names steps (shape_of shape.now))
        (fields_of all.now) (fields_of others.now) }
{
    let mut rest = others;
    while let Fields::Field(first) = rest {
        if !is_listed(first.name.as_slice(), all)
            && !within_by(base, names, steps, shape, &first.shape)
        {
            return false;
        }
        rest = &first.rest;
    }
    match rest {
        Fields::Others(other) => within_by(base, names, steps, shape, other),
        Fields::Closed | Fields::Field(_) => false,
    }
}

/// Whether each value of the one has the other, as far as is looked.
#[tactic(auto, unfolding(crate::specs::computed::Shapes::within))]
pub fn within(base: &Base<'_>, one: &Shape, other: &Shape) -> bool
    ensures { result ≡ within (base_of base.now) (shape_of one.now) (shape_of other.now) }
{
    within_by(base, base.names, base.limit, one, other)
}
