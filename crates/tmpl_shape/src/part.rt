//! The shapes of parts.
#![tactic(auto, using(crate::proofs::ViewLemmas::parts, crate::proofs::StepLemmas::steps))]

ghost use Rattle.std.specs.Prelude.{◌≡◌, IfOk, Some};
ghost use Rattle.tmpl_shape.specs.View.{shape_of};
ghost use Rattle.tmpl_shape.specs.computed.Shapes.{list_part, part_shape, part_shape_by, text_part};
ghost use Rattle.tmpl_shape.specs.computed.View.{base_of};

use crate::cause::{Cause, Trouble};
use crate::change::join;
use crate::inclusion::find;
use crate::shape::{Base, Shape, copy_counted, list_of};
use tmpl_funcs::Func;

/// The part of a list of at least as many items between two bounds, or from one on.
fn list_part(
    base: &Base<'_>,
    from: u64,
    to: Option<u64>,
    least: u64,
    items: &Shape,
) -> Result<Shape, Trouble>
    ensures { IfOk result (λ s. list_part from to least (shape_of items.now) ≡ Some (shape_of s)) }
{
    let end = match to {
        Some(end) if end < from => return Err(Trouble::may_fail(
            base.alloc,
            Cause::Arguments(Func::Slice),
        )),
        Some(end) => end,
        None => least,
    };
    let most = from.max(end);
    if most > least {
        return Err(Trouble::may_fail(base.alloc, Cause::FewItems(Func::Slice, most)));
    }
    Ok(list_of(base.alloc, end - from, copy_counted(base, items)?)?)
}

/// The part of a text.
fn text_part(base: &Base<'_>, from: u64, to: Option<u64>) -> Result<Shape, Trouble>
    ensures { IfOk result (λ s. text_part from to ≡ Some (shape_of s)) }
{
    match to {
        None if from == 0 => Ok(Shape::Texts),
        _ => Err(Trouble::may_fail(base.alloc, Cause::NotFollowed(Func::Slice))),
    }
}

/// What `slice` gives, if it gives something of each value.
fn part_shape_by(
    base: &Base<'_>,
    steps: usize,
    from: u64,
    to: Option<u64>,
    shape: &Shape,
) -> Result<Shape, Trouble>
    ensures { IfOk result (λ s. part_shape_by (base_of base.now) steps from to (shape_of shape.now)
        ≡ Some (shape_of s)) }
{
    if steps == 0 {
        return Err(Trouble::may_fail(base.alloc, Cause::Command));
    }
    let fewer = steps - 1;
    match shape {
        Shape::Never => Ok(Shape::Never),
        Shape::Texts => text_part(base, from, to),
        Shape::Exactly(constant) => part_shape_by(base, fewer, from, to, &constant.kind()),
        Shape::List { least, items } => list_part(base, from, to, *least, items),
        Shape::Either(one, other) => {
            let one = part_shape_by(base, fewer, from, to, one)?;
            let other = part_shape_by(base, fewer, from, to, other)?;
            Ok(join(base, one, other)?)
        }
        Shape::Named(name) => match find(base, name.as_slice()) {
            Some(shape) => part_shape_by(base, fewer, from, to, shape),
            None => Err(Trouble::may_fail(base.alloc, Cause::Command)),
        },
        _ => Err(Trouble::may_fail(base.alloc, Cause::Arguments(Func::Slice))),
    }
}

/// What `slice` gives, if it gives something of each value, as far as is looked.
pub fn part_shape(
    base: &Base<'_>,
    from: u64,
    to: Option<u64>,
    shape: &Shape,
) -> Result<Shape, Trouble>
    ensures { IfOk result (λ s. part_shape (base_of base.now) from to (shape_of shape.now) ≡ Some (shape_of s)) }
{
    part_shape_by(base, base.limit, from, to, shape)
}
