//! The shapes of fields.
#![tactic(auto, using(crate::proofs::ViewLemmas::parts, crate::proofs::StepLemmas::steps))]

ghost use Rattle.std.specs.Prelude.{◌≡◌, IfOk, Some};
ghost use Rattle.tmpl_shape.specs.View.{fields_of, shape_of};
ghost use Rattle.tmpl_shape.specs.computed.Shapes.{absent_shape, any_field, blurred, chain_shape, entry_shape, field_shape_by, gathered, index_shape, index_shape_by, item_shape, join, keyed_shape, of_field};
ghost use Rattle.tmpl_shape.specs.computed.View.{base_of, key_seen};

use crate::cause::{Cause, Trouble, kind_word};
use crate::change::join;
use crate::inclusion::{find, within};
use crate::shape::{Base, Fields, Shape, copy_counted, copy_name, either};
use std::alloc::{AllocError, Global};
use tmpl_funcs::Func;
use tmpl_values::Bytes;

/// What is known of an index.
#[derive(Clone, Copy)]
pub enum Key<'k> {
    /// It is this text.
    Name(&'k [u8]),
    /// It is a text.
    Text,
    /// It is this number.
    Place(u64),
}

/// What stands for a field of a map that has no such entry.
#[derive(Clone, Copy)]
pub enum AbsentField {
    Nothing,
    Null,
    Fault,
}

/// The shape of what stands for a field of this name that is absent, if that is no fault.
fn absent_shape(alloc: Global, absent: AbsentField, name: &[u8]) -> Result<Shape, Trouble>
    ensures { IfOk result (λ s. absent_shape absent ≡ Some (shape_of s)) }
{
    match absent {
        AbsentField::Nothing => Ok(Shape::Nothings),
        AbsentField::Null => Ok(Shape::Nulls),
        AbsentField::Fault => Err(Trouble::may_fail(alloc, Cause::Absent(copy_name(alloc, name)?))),
    }
}

/// That a field of this name is asked of values of this shape, which have none.
fn no_fields(alloc: Global, name: &[u8], shape: &Shape) -> Trouble {
    match copy_name(alloc, name) {
        Ok(name) => Trouble::may_fail(alloc, Cause::NoFields(name, kind_word(shape))),
        Err(_) => Trouble::OutOfMemory,
    }
}

/// Values of which it is not followed which constants there are, where all are of one kind.
#[tactic(auto, using(crate::proofs::ViewLemmas::parts, crate::proofs::LeafLemmas::blurs))]
fn blurred(base: &Base<'_>, shape: &Shape) -> Result<Shape, AllocError>
    ensures { IfOk result (λ s. shape_of s ≡ blurred (base_of base.now) (shape_of shape.now)) }
{
    match shape {
        Shape::Exactly(constant) => Ok(constant.kind()),
        Shape::Either(..) => {
            if within(base, shape, &Shape::Texts) {
                return Ok(Shape::Texts);
            }
            if within(base, shape, &Shape::Numbers) {
                return Ok(Shape::Numbers);
            }
            if within(base, shape, &Shape::Truths) {
                return Ok(Shape::Truths);
            }
            copy_counted(base, shape)
        }
        _ => copy_counted(base, shape),
    }
}

/// A field of this shape.
fn of_field(
    base: &Base<'_>,
    absent: AbsentField,
    name: &[u8],
    required: bool,
    shape: &Shape,
) -> Result<Shape, Trouble>
    ensures { IfOk result (λ s. of_field (base_of base.now) absent required (shape_of shape.now) ≡ Some (shape_of s)) }
{
    let shape = blurred(base, shape)?;
    if required {
        return Ok(shape);
    }
    Ok(join(base, shape, absent_shape(base.alloc, absent, name)?)?)
}

/// The field of a name of a map of these fields.
fn entry_shape(
    base: &Base<'_>,
    absent: AbsentField,
    name: &[u8],
    fields: &Fields,
) -> Result<Shape, Trouble>
    ensures { IfOk result (λ s. entry_shape (base_of base.now) absent name.now (fields_of fields.now)
        ≡ Some (shape_of s)) }
{
    let mut rest = fields;
    while let Fields::Field(first) = rest {
        if name == first.name.as_slice() {
            return of_field(base, absent, name, first.required, &first.shape);
        }
        rest = &first.rest;
    }
    match rest {
        Fields::Others(shape) => of_field(base, absent, name, false, shape),
        Fields::Closed | Fields::Field(_) => absent_shape(base.alloc, absent, name),
    }
}

/// The field of a name, if that is never a fault.
fn field_shape_by(
    base: &Base<'_>,
    steps: usize,
    absent: AbsentField,
    name: &[u8],
    shape: &Shape,
) -> Result<Shape, Trouble>
    ensures { IfOk result (λ s. field_shape_by (base_of base.now) steps absent name.now (shape_of shape.now)
        ≡ Some (shape_of s)) }
{
    if steps == 0 {
        return Err(Trouble::may_fail(base.alloc, Cause::Command));
    }
    let fewer = steps - 1;
    match shape {
        Shape::Never => Ok(Shape::Never),
        Shape::Nothings => match absent {
            AbsentField::Nothing | AbsentField::Null => Ok(Shape::Nothings),
            AbsentField::Fault => Err(no_fields(base.alloc, name, shape)),
        },
        Shape::Record(fields) => entry_shape(base, absent, name, fields),
        Shape::Either(one, other) => {
            let one = field_shape_by(base, fewer, absent, name, one)?;
            let other = field_shape_by(base, fewer, absent, name, other)?;
            Ok(join(base, one, other)?)
        }
        Shape::Named(defined) => match find(base, defined.as_slice()) {
            Some(shape) => field_shape_by(base, fewer, absent, name, shape),
            None => Err(Trouble::may_fail(base.alloc, Cause::Command)),
        },
        _ => Err(no_fields(base.alloc, name, shape)),
    }
}

/// The field of the field of .. of a shape, if that is never a fault.
pub fn chain_shape(
    base: &Base<'_>,
    absent: AbsentField,
    names: &[Bytes],
    shape: &Shape,
) -> Result<Shape, Trouble>
    ensures { IfOk result (λ s. chain_shape (base_of base.now) absent names.now (shape_of shape.now)
        ≡ Some (shape_of s)) }
{
    match names {
        [] => Ok(copy_counted(base, shape)?),
        [first, rest @ ..] => {
            let shape = field_shape_by(base, base.limit, absent, first.as_slice(), shape)?;
            chain_shape(base, absent, rest, &shape)
        }
    }
}

/// Any of the fields.
pub(crate) fn any_field(base: &Base<'_>, fields: &Fields) -> Result<Shape, AllocError>
    ensures { IfOk result (λ s. shape_of s ≡ any_field (base_of base.now) (fields_of fields.now)) }
{
    let mut back = Shape::Never;
    let mut rest = fields;
    while let Fields::Field(first) = rest {
        back = either(base.alloc, blurred(base, &first.shape)?, back)?;
        rest = &first.rest;
    }
    let last = match rest {
        Fields::Others(shape) => copy_counted(base, shape)?,
        Fields::Closed | Fields::Field(_) => Shape::Never,
    };
    join_with_all(base, back, last)
}

/// The values of the second and of each alternative of the first but its last.
fn join_with_all(base: &Base<'_>, back: Shape, last: Shape) -> Result<Shape, AllocError>
    ensures { IfOk result (λ all. shape_of all ≡ gathered (join (base_of base.now)) (shape_of back) (shape_of last)) }
{
    let mut back = back;
    let mut all = last;
    loop {
        match back {
            Shape::Either(one, rest) => {
                all = join(base, Box::into_inner(one), all)?;
                back = Box::into_inner(rest);
            }
            _ => return Ok(all),
        }
    }
}

/// What `index` gives of a map of these fields: the entry, or null.
fn keyed_shape(base: &Base<'_>, key: Key<'_>, fields: &Fields) -> Result<Shape, Trouble>
    ensures { IfOk result (λ s. keyed_shape (base_of base.now) (key_seen key.entry) (fields_of fields.now)
        ≡ Some (shape_of s)) }
{
    match key {
        Key::Name(name) => entry_shape(base, AbsentField::Null, name, fields),
        Key::Text => {
            let any = any_field(base, fields)?;
            Ok(join(base, any, Shape::Nulls)?)
        }
        Key::Place(_) => Err(Trouble::may_fail(base.alloc, Cause::Arguments(Func::Index))),
    }
}

/// What `index` gives of a list of at least as many items.
fn item_shape(base: &Base<'_>, key: Key<'_>, least: u64, items: &Shape) -> Result<Shape, Trouble>
    ensures { IfOk result (λ s. item_shape (key_seen key.entry) least (shape_of items.now) ≡ Some (shape_of s)) }
{
    match key {
        Key::Place(place) => {
            if place < least {
                return Ok(copy_counted(base, items)?);
            }
            Err(Trouble::may_fail(
                base.alloc,
                Cause::FewItems(Func::Index, place.saturating_add(1)),
            ))
        }
        Key::Name(_) | Key::Text => Err(Trouble::may_fail(
            base.alloc,
            Cause::Arguments(Func::Index),
        )),
    }
}

/// What `index` gives, if it gives something of each value.
fn index_shape_by(
    base: &Base<'_>,
    steps: usize,
    key: Key<'_>,
    shape: &Shape,
) -> Result<Shape, Trouble>
    ensures { IfOk result (λ s. index_shape_by (base_of base.now) steps (key_seen key.entry) (shape_of shape.now)
        ≡ Some (shape_of s)) }
{
    if steps == 0 {
        return Err(Trouble::may_fail(base.alloc, Cause::Command));
    }
    let fewer = steps - 1;
    match shape {
        Shape::Never => Ok(Shape::Never),
        Shape::List { least, items } => item_shape(base, key, *least, items),
        Shape::Record(fields) => keyed_shape(base, key, fields),
        Shape::Either(one, other) => {
            let one = index_shape_by(base, fewer, key, one)?;
            let other = index_shape_by(base, fewer, key, other)?;
            Ok(join(base, one, other)?)
        }
        Shape::Named(defined) => match find(base, defined.as_slice()) {
            Some(shape) => index_shape_by(base, fewer, key, shape),
            None => Err(Trouble::may_fail(base.alloc, Cause::Command)),
        },
        _ => Err(Trouble::may_fail(base.alloc, Cause::Arguments(Func::Index))),
    }
}

/// What `index` gives, if it gives something of each value, as far as is looked.
pub fn index_shape(base: &Base<'_>, key: Key<'_>, shape: &Shape) -> Result<Shape, Trouble>
    ensures { IfOk result (λ s. index_shape (base_of base.now) (key_seen key.entry) (shape_of shape.now)
        ≡ Some (shape_of s)) }
{
    index_shape_by(base, base.limit, key, shape)
}
