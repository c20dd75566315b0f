//! Constants: the values that a schema names and a test compares with.
#![tactic(auto, using(crate::proofs::ViewLemmas::parts))]

ghost use Rattle.std.specs.Prelude.{◌≡◌, IfOk};
ghost use Rattle.tmpl_values.specs.Truth.{truth};
ghost use Rattle.tmpl_grammar.specs.View.{operand_of};
ghost use Rattle.tmpl_shape.specs.Shape.{value_of};
ghost use Rattle.tmpl_shape.specs.View.{shape_of};
ghost use Rattle.tmpl_shape.specs.computed.Shapes.{is_named, is_same, kind_shape};

use crate::shape::{Shape, copy_name};
use std::alloc::{AllocError, Global};
use tmpl_grammar::Operand;
use tmpl_values::Bytes;

/// A value that is a constant.
#[derive(Drop)]
pub enum Constant {
    Bool(bool),
    Number(i64),
    Text(Bytes),
}

impl Constant {
    /// A copy of it.
    pub(crate) fn copy(&self, alloc: Global) -> Result<Constant, AllocError>
        ensures { IfOk result (λ copy. copy ≡ self.now) }
    {
        match self {
            Constant::Bool(value) => Ok(Constant::Bool(*value)),
            Constant::Number(value) => Ok(Constant::Number(*value)),
            Constant::Text(text) => Ok(Constant::Text(copy_name(alloc, text.as_slice())?)),
        }
    }

    /// Whether the other is the same value.
    pub(crate) fn is_same(&self, other: &Constant) -> bool
        ensures { result ≡ is_same (value_of self.now) (value_of other.now) }
    {
        match (self, other) {
            (Constant::Bool(one), Constant::Bool(other)) => *one == *other,
            (Constant::Number(one), Constant::Number(other)) => *one == *other,
            (Constant::Text(one), Constant::Text(other)) => one.as_slice() == other.as_slice(),
            _ => false,
        }
    }

    /// Whether an operand is this constant.
    pub(crate) fn is_named(&self, operand: &Operand) -> bool
        ensures { result ≡ is_named (value_of self.now) (operand_of operand.now) }
    {
        match (self, operand) {
            (Constant::Bool(one), Operand::Bool(other)) => *one == *other,
            (Constant::Number(one), Operand::Number(other)) => *one == *other,
            (Constant::Text(one), Operand::Text(other)) => one.as_slice() == other.as_slice(),
            _ => false,
        }
    }

    /// Whether it is not empty.
    pub(crate) fn is_true(&self) -> bool
        ensures { result ≡ truth (value_of self.now) }
    {
        match self {
            Constant::Bool(value) => *value,
            Constant::Number(value) => *value != 0,
            Constant::Text(text) => text.as_slice().len() > 0,
        }
    }

    /// The values of its kind.
    pub(crate) fn kind(&self) -> Shape
        ensures { shape_of result ≡ kind_shape self.now }
    {
        match self {
            Constant::Bool(_) => Shape::Truths,
            Constant::Number(_) => Shape::Numbers,
            Constant::Text(_) => Shape::Texts,
        }
    }
}
