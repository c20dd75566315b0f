//! The shapes of calls.
#![tactic(auto, using(crate::proofs::ViewLemmas::parts))]

ghost use Rattle.std.specs.Prelude.{◌≡◌, IfSome, Some};
ghost use Rattle.tmpl_shape.specs.View.{shape_of};
ghost use Rattle.tmpl_shape.specs.computed.Calls.{clashes, comparable, comparable_to_all, is_sized, kinds_shape, only_numbers, only_texts, orderable};

use crate::kind::{Kind, Kinds};
use crate::shape::Shape;
use tmpl_funcs::Func;

/// Whether a value of the kind can't be compared by `eq` with one of those kinds.
fn clashes(kind: Kind, kinds: &Kinds) -> bool
    ensures { result ≡ clashes kind kinds.now }
{
    match kind {
        Kind::Blank => false,
        Kind::Truth => kinds.number || (kinds.text || kinds.many),
        Kind::Number => kinds.truth || (kinds.text || kinds.many),
        Kind::Text => kinds.truth || (kinds.number || kinds.many),
        Kind::Many => kinds.truth || (kinds.number || (kinds.text || kinds.many)),
    }
}

/// Whether each two values can be compared by `eq`.
fn comparable(one: &Kinds, other: &Kinds) -> bool
    ensures { result ≡ comparable one.now other.now }
{
    (!one.blank || !clashes(Kind::Blank, other))
        && ((!one.truth || !clashes(Kind::Truth, other))
            && ((!one.number || !clashes(Kind::Number, other))
                && ((!one.text || !clashes(Kind::Text, other))
                    && (!one.many || !clashes(Kind::Many, other)))))
}

/// Whether each value can be compared with each of the others.
fn comparable_to_all(one: &Kinds, others: &[Kinds]) -> bool
    ensures { result ≡ comparable_to_all one.now others.now }
{
    match others {
        [] => true,
        [first, rest @ ..] => comparable(one, first) && comparable_to_all(one, rest),
    }
}

/// Whether there are only numbers.
fn only_numbers(kinds: &Kinds) -> bool
    ensures { result ≡ only_numbers kinds.now }
{
    !(kinds.blank || (kinds.truth || (kinds.text || kinds.many)))
}

/// Whether there are only texts.
fn only_texts(kinds: &Kinds) -> bool
    ensures { result ≡ only_texts kinds.now }
{
    !(kinds.blank || (kinds.truth || (kinds.number || kinds.many)))
}

/// Whether each two values can be ordered.
fn orderable(one: &Kinds, other: &Kinds) -> bool
    ensures { result ≡ orderable one.now other.now }
{
    (only_numbers(one) && only_numbers(other)) || (only_texts(one) && only_texts(other))
}

/// Whether there are only texts, lists and maps.
fn is_sized(kinds: &Kinds) -> bool
    ensures { result ≡ is_sized kinds.now }
{
    !(kinds.blank || (kinds.truth || kinds.number))
}

/// What a call gives for arguments of these kinds, if it never is a fault.
pub fn call_shape(func: Func, kinds: &[Kinds]) -> Option<Shape>
    ensures { IfSome result (λ s. kinds_shape func kinds.now ≡ Some (shape_of s)) }
{
    match func {
        Func::Print | Func::Println | Func::Html | Func::Urlquery => Some(Shape::Texts),
        Func::Not => match kinds {
            [_] => Some(Shape::Truths),
            _ => None,
        },
        Func::Len => match kinds {
            [only] if is_sized(only) => Some(Shape::Numbers),
            _ => None,
        },
        Func::Eq => match kinds {
            [first, rest @ ..] if rest.len() > 0 && comparable_to_all(first, rest) => {
                Some(Shape::Truths)
            }
            _ => None,
        },
        Func::Ne => match kinds {
            [one, other] if comparable(one, other) => Some(Shape::Truths),
            _ => None,
        },
        Func::Lt | Func::Le | Func::Gt | Func::Ge => match kinds {
            [one, other] if orderable(one, other) => Some(Shape::Truths),
            _ => None,
        },
        Func::And | Func::Or | Func::Index | Func::Slice | Func::Printf => None,
    }
}
