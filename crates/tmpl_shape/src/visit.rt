//! What a range visits.
#![tactic(auto, using(crate::proofs::ViewLemmas::parts, crate::proofs::StepLemmas::steps, crate::proofs::LeafLemmas::visits))]

ghost use Rattle.std.specs.Prelude.{◌≡◌, IfOk, Some};
ghost use Rattle.tmpl_grammar.specs.View.{binding_of};
ghost use Rattle.tmpl_shape.specs.View.{shape_of};
ghost use Rattle.tmpl_shape.specs.computed.Shapes.{both_visits, number_visit, visit_by, visit_of};
ghost use Rattle.tmpl_shape.specs.computed.View.{base_of, visit_seen};

use crate::cause::{Cause, Trouble, kind_word};
use crate::change::join;
use crate::field::any_field;
use crate::inclusion::find;
use crate::shape::{Base, Shape, copy_counted};
use std::alloc::AllocError;
use tmpl_grammar::Binding;

/// The shapes of an index or key, and of an element.
#[derive(Drop)]
pub struct Visit {
    pub key: Shape,
    pub element: Shape,
}

/// What a range over a number visits, where it may have these variables.
fn number_visit(base: &Base<'_>, binding: &Binding) -> Result<Visit, Trouble>
    ensures { IfOk result (λ v. number_visit (binding_of binding.now) ≡ Some (visit_seen v)) }
{
    match binding {
        Binding::DeclarePair(_) => Err(Trouble::may_fail(base.alloc, Cause::Range("a number"))),
        _ => Ok(Visit {
            key: Shape::Numbers,
            element: Shape::Numbers,
        }),
    }
}

/// What is visited in either case.
fn both_visits(base: &Base<'_>, one: Visit, other: Visit) -> Result<Visit, AllocError>
    ensures { IfOk result (λ v. both_visits (base_of base.now) (Some (visit_seen one)) (Some (visit_seen other))
        ≡ Some (visit_seen v)) }
{
    let key = join(base, one.key, other.key)?;
    let element = join(base, one.element, other.element)?;
    Ok(Visit { key, element })
}

/// What a range visits, if it may range over each value of the shape.
fn visit_by(
    base: &Base<'_>,
    steps: usize,
    binding: &Binding,
    shape: &Shape,
) -> Result<Visit, Trouble>
    ensures { IfOk result (λ v. visit_by (base_of base.now) steps (binding_of binding.now) (shape_of shape.now)
        ≡ Some (visit_seen v)) }
{
    if steps == 0 {
        return Err(Trouble::may_fail(base.alloc, Cause::Command));
    }
    let fewer = steps - 1;
    match shape {
        Shape::Never | Shape::Nothings | Shape::Nulls => Ok(Visit {
            key: Shape::Never,
            element: Shape::Never,
        }),
        Shape::Numbers => number_visit(base, binding),
        Shape::Exactly(constant) => visit_by(base, fewer, binding, &constant.kind()),
        Shape::List { items, .. } => Ok(Visit {
            key: Shape::Numbers,
            element: copy_counted(base, items)?,
        }),
        Shape::Record(fields) => Ok(Visit {
            key: Shape::Texts,
            element: any_field(base, fields)?,
        }),
        Shape::Either(one, other) => {
            let one = visit_by(base, fewer, binding, one)?;
            let other = visit_by(base, fewer, binding, other)?;
            Ok(both_visits(base, one, other)?)
        }
        Shape::Named(name) => match find(base, name.as_slice()) {
            Some(shape) => visit_by(base, fewer, binding, shape),
            None => Err(Trouble::may_fail(base.alloc, Cause::Command)),
        },
        _ => Err(Trouble::may_fail(base.alloc, Cause::Range(kind_word(shape)))),
    }
}

/// What a range visits, if it may range over each value of the shape, as far as is looked.
pub fn visit_of(base: &Base<'_>, binding: &Binding, shape: &Shape) -> Result<Visit, Trouble>
    ensures { IfOk result (λ v. visit_of (base_of base.now) (binding_of binding.now) (shape_of shape.now)
        ≡ Some (visit_seen v)) }
{
    visit_by(base, base.limit, binding, shape)
}
