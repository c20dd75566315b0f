//! The strings, numbers and booleans that `const` and `enum` leave.
#![tactic(auto, using(tmpl_shape::proofs::ViewLemmas::parts))]

ghost use Rattle.std.specs.Prelude.{◌≡◌, IfOk, Some};
ghost use Rattle.serde_json.specs.View.{items_view, view};
ghost use Rattle.tmpl_shape.specs.Shape.{never};
ghost use Rattle.tmpl_shape.specs.View.{shape_of};
ghost use Rattle.tmpl_json_schema.specs.computed.Reading.{const_leaves, enum_leaves, fold, is_short, leaf_with, leaves, leaves_in};

use crate::Result;
use serde_json::Value;
use std::alloc::Global;
use tmpl_shape::{Constant, Shape, copy_name, either, or_shape};

/// The most constants of `enum` that are told apart.
const MOST_CONSTANTS: usize = 32;

/// All of them.
fn all_leaves(alloc: Global) -> Result<Shape>
    ensures { IfOk result (λ s. shape_of s ≡ leaves) }
{
    let rest = either(alloc, Shape::Numbers, Shape::Texts)?;
    Ok(either(alloc, Shape::Truths, rest)?)
}

/// The one that a constant is, or each number where it is one that is not written as an integer.
fn const_leaves(alloc: Global, constant: &Value) -> Result<Shape>
    ensures { IfOk result (λ s. shape_of s ≡ const_leaves (view constant.now)) }
{
    match constant {
        Value::Bool(value) => Ok(Shape::Exactly(Constant::Bool(*value))),
        Value::Number(number) => match number.as_i64() {
            Some(value) => Ok(Shape::Exactly(Constant::Number(value))),
            None => Ok(Shape::Numbers),
        },
        Value::String(text) => {
            let text = copy_name(alloc, text.as_str().as_bytes())?;
            Ok(Shape::Exactly(Constant::Text(text)))
        }
        _ => Ok(Shape::Never),
    }
}

/// These, and the one that a constant is.
fn leaf_with(alloc: Global, shape: Shape, constant: &Value) -> Result<Shape>
    ensures { IfOk result (λ s. leaf_with (shape_of shape) (view constant.now) ≡ Some (shape_of s)) }
{
    or_shape(alloc, const_leaves(alloc, constant)?, shape)
}

/// Those that constants are.
fn leaves_with(alloc: Global, constants: &[Value]) -> Result<Shape>
    ensures { IfOk result (λ s. fold leaf_with never (items_view constants.now) ≡ Some (shape_of s)) }
{
    let mut shape = Shape::Never;
    for constant in constants {
        shape = leaf_with(alloc, shape, constant)?;
    }
    Ok(shape)
}

/// Whether there are not too many to be told apart.
#[tactic(auto, using(crate::proofs::KindLemmas::item_counts))]
fn is_short(constants: &[Value]) -> bool
    ensures { result ≡ is_short (items_view constants.now) }
{
    constants.len() <= MOST_CONSTANTS
}

/// Those that `enum` leaves.
fn enum_leaves(alloc: Global, constants: &Value) -> Result<Shape>
    ensures { IfOk result (λ s. shape_of s ≡ enum_leaves (view constants.now)) }
{
    match constants {
        Value::Array(constants) => {
            if is_short(constants.as_slice()) {
                return leaves_with(alloc, constants.as_slice());
            }
            all_leaves(alloc)
        }
        _ => all_leaves(alloc),
    }
}

/// Those that both leave, of which not too many are told apart.
#[inline(never)]
pub(crate) fn leaves_in(alloc: Global, schema: &Value) -> Result<Shape>
    ensures { IfOk result (λ s. shape_of s ≡ leaves_in (view schema.now)) }
{
    match schema.get("const") {
        Some(constant) => const_leaves(alloc, constant),
        None => match schema.get("enum") {
            Some(constants) => enum_leaves(alloc, constants),
            None => all_leaves(alloc),
        },
    }
}
