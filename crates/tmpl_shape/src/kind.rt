//! The kinds of values.
#![tactic(auto, using(crate::proofs::ViewLemmas::parts, crate::proofs::StepLemmas::steps, crate::proofs::LeafLemmas::kinds))]

ghost use Rattle.std.specs.Prelude.{◌≡◌};
ghost use Rattle.tmpl_values.specs.View.{val_of};
ghost use Rattle.tmpl_shape.specs.View.{shape_of};
ghost use Rattle.tmpl_shape.specs.computed.Formats.{sample};
ghost use Rattle.tmpl_shape.specs.computed.Shapes.{has_kind, is_of_kind, kinds_of, may_be};
ghost use Rattle.tmpl_shape.specs.computed.View.{base_of};

use crate::inclusion::find;
use crate::shape::{Base, Shape};
use tmpl_values::Val;

/// A kind of values, of those that functions tell apart.
#[derive(Clone, Copy)]
pub enum Kind {
    /// Nothing and null.
    Blank,
    Truth,
    Number,
    Text,
    /// Lists and maps.
    Many,
}

/// Of each kind whether there may be values of it.
#[derive(Clone, Copy)]
pub struct Kinds {
    pub blank: bool,
    pub truth: bool,
    pub number: bool,
    pub text: bool,
    pub many: bool,
}

/// Whether a shape of one kind of values is of this kind.
fn is_of_kind(kind: Kind, shape: &Shape) -> bool
    ensures { result ≡ is_of_kind kind (shape_of shape.now) }
{
    match kind {
        Kind::Blank => matches!(shape, Shape::Nothings | Shape::Nulls),
        Kind::Truth => matches!(shape, Shape::Truths),
        Kind::Number => matches!(shape, Shape::Numbers),
        Kind::Text => matches!(shape, Shape::Texts),
        Kind::Many => matches!(shape, Shape::List { .. } | Shape::Record(_)),
    }
}

/// Whether values of the kind may be among these, as far as this many steps show.
fn may_be(base: &Base<'_>, steps: usize, kind: Kind, shape: &Shape) -> bool
    ensures { result ≡ may_be (base_of base.now) steps kind (shape_of shape.now) }
{
    base.effort.spend(1);
    if steps == 0 {
        return true;
    }
    let fewer = steps - 1;
    match shape {
        Shape::Never => false,
        Shape::Anything => true,
        Shape::Either(one, other) => may_be(base, fewer, kind, one)
            || may_be(base, fewer, kind, other),
        Shape::Named(name) => match find(base, name.as_slice()) {
            Some(shape) => may_be(base, fewer, kind, shape),
            None => true,
        },
        Shape::Exactly(constant) => may_be(base, fewer, kind, &constant.kind()),
        _ => is_of_kind(kind, shape),
    }
}

/// Whether values of the kind may be among these, as far as is looked.
#[tactic(auto, unfolding(crate::specs::computed::Shapes::has_kind))]
pub fn has_kind(base: &Base<'_>, kind: Kind, shape: &Shape) -> bool
    ensures { result ≡ has_kind (base_of base.now) kind (shape_of shape.now) }
{
    may_be(base, base.limit, kind, shape)
}

/// The kinds of which there may be values among these, as far as is looked.
pub fn kinds_of(base: &Base<'_>, shape: &Shape) -> Kinds
    ensures { result ≡ kinds_of (base_of base.now) (shape_of shape.now) }
{
    Kinds {
        blank: has_kind(base, Kind::Blank, shape),
        truth: has_kind(base, Kind::Truth, shape),
        number: has_kind(base, Kind::Number, shape),
        text: has_kind(base, Kind::Text, shape),
        many: has_kind(base, Kind::Many, shape),
    }
}

/// A value of the kind.
pub(crate) fn sample<'a>(kind: Kind) -> Val<'a>
    ensures { val_of result ≡ sample kind }
{
    match kind {
        Kind::Blank => Val::Nothing,
        Kind::Truth => Val::Bool(false),
        Kind::Number => Val::Num(0),
        Kind::Text => Val::Text(&[]),
        Kind::Many => Val::List(&[]),
    }
}
