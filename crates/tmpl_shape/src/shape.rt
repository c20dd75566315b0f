//! Shapes: what may be known of a value before a run.
#![tactic(auto, using(crate::proofs::ViewLemmas::parts))]

ghost use Rattle.std.specs.Prelude.{◌≡◌, IfOk};
ghost use Rattle.std.specs.Option.{option_map};
ghost use Rattle.tmpl_shape.specs.Shape.{either, field, list_of, record_of};
ghost use Rattle.tmpl_shape.specs.View.{fields_of, shape_of};
ghost use Rattle.tmpl_shape.specs.computed.Shapes.{first_in, gathered, onto};
ghost use Rattle.tmpl_shape.specs.computed.View.{first_seen};

use crate::constant::Constant;
use crate::effort::Effort;
use std::alloc::{AllocError, Global};
use std::mem;
use tmpl_values::Bytes;

/// Which values there may be.
#[cycle(shape)]
#[derive(Drop)]
pub enum Shape {
    /// No value at all.
    Never,
    /// Nothing, which stands for what is not there.
    Nothings,
    /// Null.
    Nulls,
    /// `true` and `false`.
    Truths,
    /// Integers.
    Numbers,
    /// Texts.
    Texts,
    /// This constant alone.
    Exactly(Constant),
    /// Each value.
    Anything,
    /// Lists of at least as many such items.
    List { least: u64, items: Box<Shape> },
    /// Maps of these fields.
    Record(Fields),
    /// The values of the one and of the other.
    Either(Box<Shape>, Box<Shape>),
    /// Those of the definition of this name.
    Named(Bytes),
}

/// The fields of a map.
#[cycle(shape)]
pub enum Fields {
    /// There is no other field.
    Closed,
    /// There may be any other field, of this shape.
    Others(Box<Shape>),
    /// One field, and the fields after it.
    Field(Box<Field>),
}

impl Fields {
    /// The first field, with those after it.
    pub(crate) fn into_first(self) -> Option<Box<Field>>
        ensures { option_map first_seen result ≡ first_in (fields_of self) }
    {
        match self {
            Fields::Closed => None,
            Fields::Others(_) => None,
            Fields::Field(first) => Some(first),
        }
    }
}

impl Drop for Fields {
    /// One by one, however many there are.
    #[cycle(shape)]
    fn drop(mut self) {
        loop {
            match self {
                Fields::Closed => return,
                Fields::Others(_) => return,
                Fields::Field(first) => {
                    let Field { rest, .. } = Box::into_inner(first);
                    self = rest;
                }
            }
        }
    }
}

/// A field of a map.
#[cycle(shape)]
#[derive(Drop)]
pub struct Field {
    pub name: Bytes,
    /// Whether it is always there.
    pub required: bool,
    pub shape: Shape,
    pub rest: Fields,
}

/// A shape that has a name.
#[derive(Drop)]
pub struct Definition {
    pub name: Bytes,
    pub shape: Shape,
}

/// What is known of a value: its shape, in which names stand for the shapes of these definitions. The first definition
/// of a name counts.
#[derive(Drop)]
pub struct Schema {
    pub definitions: Vec<Definition>,
    pub shape: Shape,
}

/// What is asked of shapes while they are compared: the definitions of names; before a question is given up, how many
/// names are followed one into the other, and how many steps are taken into a shape; how much work is left; and the memory
/// for new shapes.
#[derive(Clone, Copy)]
pub struct Base<'s> {
    pub definitions: &'s [Definition],
    pub names: usize,
    pub limit: usize,
    pub effort: &'s Effort,
    pub alloc: Global,
}

/// A copy of a text.
pub fn copy_name(alloc: Global, name: &[u8]) -> Result<Bytes, AllocError>
    ensures { IfOk result (λ copy. copy ≡ name.now) }
{
    Ok(Bytes::new(name.to_vec(alloc)?))
}

/// A copy of a shape.
#[cycle(copy)]
pub fn copy_shape(alloc: Global, shape: &Shape) -> Result<Shape, AllocError>
    ensures { IfOk result (λ copy. shape_of copy ≡ shape_of shape.now) }
{
    match shape {
        Shape::Never => Ok(Shape::Never),
        Shape::Nothings => Ok(Shape::Nothings),
        Shape::Nulls => Ok(Shape::Nulls),
        Shape::Truths => Ok(Shape::Truths),
        Shape::Numbers => Ok(Shape::Numbers),
        Shape::Texts => Ok(Shape::Texts),
        Shape::Exactly(constant) => Ok(Shape::Exactly(constant.copy(alloc)?)),
        Shape::Anything => Ok(Shape::Anything),
        Shape::List { least, items } => copy_list(alloc, *least, items),
        Shape::Record(fields) => copy_record(alloc, fields),
        Shape::Either(one, other) => copy_either(alloc, one, other),
        Shape::Named(name) => Ok(Shape::Named(copy_name(alloc, name.as_slice())?)),
    }
}

/// A copy of lists of at least as many such items.
#[cycle(copy)]
#[inline(never)]
fn copy_list(alloc: Global, least: u64, items: &Shape) -> Result<Shape, AllocError>
    ensures { IfOk result (λ copy. shape_of copy ≡ list_of least (shape_of items.now)) }
{
    list_of(alloc, least, copy_shape(alloc, items)?)
}

/// A copy of maps of these fields.
#[cycle(copy)]
#[inline(never)]
fn copy_record(alloc: Global, fields: &Fields) -> Result<Shape, AllocError>
    ensures { IfOk result (λ copy. shape_of copy ≡ record_of (fields_of fields.now)) }
{
    Ok(Shape::Record(copy_fields(alloc, fields)?))
}

/// A copy of the values of the one and of the other, whose alternatives are copied one by one.
#[cycle(copy)]
#[inline(never)]
fn copy_either(alloc: Global, one: &Shape, other: &Shape) -> Result<Shape, AllocError>
    ensures { IfOk result (λ copy. shape_of copy ≡ either (shape_of one.now) (shape_of other.now)) }
{
    let mut back = either(alloc, copy_shape(alloc, one)?, Shape::Never)?;
    let mut rest = other;
    while let Shape::Either(first, second) = rest {
        back = either(alloc, copy_shape(alloc, first)?, back)?;
        rest = second;
    }
    let last = copy_shape(alloc, rest)?;
    either_of_all(alloc, back, last)
}

/// The alternatives of the first but its last, the last of them foremost, and then the second.
#[inline(never)]
fn either_of_all(alloc: Global, back: Shape, last: Shape) -> Result<Shape, AllocError>
    ensures { IfOk result (λ all. shape_of all ≡ gathered either (shape_of back) (shape_of last)) }
{
    let mut back = back;
    let mut all = last;
    loop {
        match back {
            Shape::Either(one, rest) => {
                all = either(alloc, Box::into_inner(one), all)?;
                back = Box::into_inner(rest);
            }
            _ => return Ok(all),
        }
    }
}

/// How many parts a shape has.
#[cycle(weight)]
fn weight(shape: &Shape) -> u64 {
    let mut count: u64 = 1;
    let mut rest = shape;
    while let Shape::Either(one, other) = rest {
        count = count.saturating_add(weight(one));
        rest = other;
    }
    match rest {
        Shape::List { items, .. } => count.saturating_add(weight(items)),
        Shape::Record(fields) => count.saturating_add(weight_of_fields(fields)),
        _ => count,
    }
}

/// How many parts fields have.
#[cycle(weight)]
pub(crate) fn weight_of_fields(fields: &Fields) -> u64 {
    let mut count: u64 = 0;
    let mut rest = fields;
    while let Fields::Field(first) = rest {
        count = count.saturating_add(weight(&first.shape));
        rest = &first.rest;
    }
    match rest {
        Fields::Others(shape) => count.saturating_add(weight(shape)),
        Fields::Closed | Fields::Field(_) => count,
    }
}

/// A copy of a shape, which is some work.
pub fn copy_counted(base: &Base<'_>, shape: &Shape) -> Result<Shape, AllocError>
    ensures { IfOk result (λ copy. shape_of copy ≡ shape_of shape.now) }
{
    base.effort.spend(weight(shape).saturating_mul(4));
    copy_shape(base.alloc, shape)
}

/// Lists of at least as many such items.
pub fn list_of(alloc: Global, least: u64, items: Shape) -> Result<Shape, AllocError>
    ensures { IfOk result (λ s. shape_of s ≡ list_of least (shape_of items)) }
{
    let items = Box::new(alloc, items)?;
    Ok(Shape::List { least, items })
}

/// The values of the one and of the other.
pub fn either(alloc: Global, one: Shape, other: Shape) -> Result<Shape, AllocError>
    ensures { IfOk result (λ both. shape_of both ≡ either (shape_of one) (shape_of other)) }
{
    Ok(Shape::Either(Box::new(alloc, one)?, Box::new(alloc, other)?))
}

/// A copy of fields, one by one.
#[cycle(copy)]
pub(crate) fn copy_fields(alloc: Global, fields: &Fields) -> Result<Fields, AllocError>
    ensures { IfOk result (λ copy. fields_of copy ≡ fields_of fields.now) }
{
    let mut back = Fields::Closed;
    let mut rest = fields;
    while let Fields::Field(first) = rest {
        let shape = copy_shape(alloc, &first.shape)?;
        back = put_field(alloc, first.name.as_slice(), first.required, shape, back)?;
        rest = &first.rest;
    }
    let last = match rest {
        Fields::Others(shape) => Fields::Others(Box::new(alloc, copy_shape(alloc, shape)?)?),
        Fields::Closed | Fields::Field(_) => Fields::Closed,
    };
    fields_of_all(alloc, back, last)
}

/// The fields of the first, the last of them foremost, and then the second.
#[inline(never)]
#[tactic(auto, using(crate::proofs::ViewLemmas::parts, crate::proofs::StepLemmas::firsts))]
pub(crate) fn fields_of_all(alloc: Global, back: Fields, last: Fields) -> Result<Fields, AllocError>
    ensures { IfOk result (λ all. fields_of all ≡ onto (fields_of back) (fields_of last)) }
{
    let mut back = back;
    let mut all = last;
    loop {
        match back.into_first() {
            Some(first) => {
                let mut first = Box::into_inner(first);
                back = mem::replace(&mut first.rest, all);
                all = Fields::Field(Box::new(alloc, first)?);
            }
            None => return Ok(all),
        }
    }
}

/// The fields with one before them.
pub fn put_field(
    alloc: Global,
    name: &[u8],
    required: bool,
    shape: Shape,
    rest: Fields,
) -> Result<Fields, AllocError>
    ensures { IfOk result (λ all. fields_of all ≡ field name.now required (shape_of shape) (fields_of rest)) }
{
    let name = copy_name(alloc, name)?;
    Ok(Fields::Field(Box::new(
        alloc,
        Field {
            name,
            required,
            shape,
            rest,
        },
    )?))
}
