//! What is known of variables.
#![tactic(auto, using(crate::proofs::ViewLemmas::variables))]

ghost use Rattle.std.specs.Prelude.{◌≡◌, IfOk, Some, length, ◌∷◌};
ghost use Rattle.std.specs.Option.{option_map};
ghost use Rattle.tmpl_grammar.specs.View.{binding_of};
ghost use Rattle.tmpl_shape.specs.View.{shape_of};
ghost use Rattle.tmpl_schema.specs.computed.Check.{after_both, after_parts, all_within, assigned_shape, bound_shapes, find_variable, holds_loop, join_all, join_parts, join_to};
ghost use Rattle.tmpl_schema.specs.computed.Check.{last_of, refine_all, refine_from, refine_variable};
ghost use Rattle.tmpl_shape.specs.computed.Shapes.{join};
ghost use Rattle.tmpl_shape.specs.computed.View.{base_of, test_seen};
ghost use Rattle.tmpl_schema.specs.computed.View.{is_longer, known_of, known_seen, origin_of, tie_seen, variable_of};

use crate::flow::FallThrough;
use crate::origin::{Tie, rest_of};
use std::alloc::{AllocError, Global};
use std::rc::Rc;
use tmpl_grammar::Binding;
use tmpl_shape::{
    Base, Cause, Shape, Test, Trouble, copy_counted, copy_name, either, refine, within,
};
use tmpl_values::Bytes;

/// How much work it is to make a variable anew.
const VARIABLE: u64 = 4;

/// The variables in scope, the newest first. A copy shares them, since each part of a template begins with all that is known
/// before it, and mostly adds nothing.
#[cycle(known)]
pub(crate) enum Known {
    Empty,
    More(Rc<Variable>),
}

impl Drop for Known {
    /// One by one, however many there are.
    fn drop(mut self) {
        loop {
            match self {
                Known::Empty => return,
                Known::More(newest) => match Rc::into_inner(newest) {
                    Some(variable) => {
                        let Variable { older, .. } = variable;
                        self = older;
                    }
                    None => return,
                },
            }
        }
    }
}

/// A variable, and the older ones.
#[cycle(known)]
#[derive(Drop)]
pub(crate) struct Variable {
    pub(crate) name: Bytes,
    pub(crate) shape: Rc<Shape>,
    pub(crate) tie: Tie,
    pub(crate) older: Known,
}

/// With one variable more.
pub(crate) fn put_variable(
    alloc: Global,
    name: &[u8],
    shape: Rc<Shape>,
    tie: Tie,
    older: Known,
) -> Result<Known, AllocError>
    ensures { IfOk result (λ ks. known_of ks ≡ (name.now, shape_of shape.value, tie_seen tie) ∷ known_of older) }
{
    let name = copy_name(alloc, name)?;
    Ok(Known::More(Rc::new(
        alloc,
        Variable {
            name,
            shape,
            tie,
            older,
        },
    )?))
}

/// A copy of what is known.
pub(crate) fn copy_known(known: &Known) -> Result<Known, AllocError>
    ensures { IfOk result (λ ks. known_of ks ≡ known_of known.now) }
{
    match known {
        Known::Empty => Ok(Known::Empty),
        Known::More(newest) => Ok(Known::More(Rc::clone(newest)?)),
    }
}

/// The newest variable of a name.
pub(crate) fn find_variable<'k>(name: &[u8], known: &'k Known) -> Option<&'k Variable>
    ensures { option_map (λ v. variable_of v.now) result ≡ find_variable name.now (known_of known.now) }
{
    match known {
        Known::Empty => None,
        Known::More(newest) => {
            if newest.name.as_slice() == name {
                Some(newest)
            } else {
                find_variable(name, &newest.older)
            }
        }
    }
}

/// Where the newest variable of a name is assigned a value of this shape and tie.
fn assign(
    base: &Base<'_>,
    name: &[u8],
    shape: Rc<Shape>,
    tie: Tie,
    known: &Known,
) -> Result<Known, AllocError>
    ensures { IfOk result (λ ks. known_of ks
        ≡ assigned_shape name.now (shape_of shape.value) (tie_seen tie) (known_of known.now)) }
{
    base.effort.spend(VARIABLE);
    match known {
        Known::Empty => Ok(Known::Empty),
        Known::More(newest) => {
            if newest.name.as_slice() == name {
                let older = copy_known(&newest.older)?;
                put_variable(base.alloc, name, shape, tie, older)
            } else {
                let kept = Rc::clone(&newest.shape)?;
                let kept_tie = newest.tie.copy(base.alloc)?;
                let older = assign(base, name, shape, tie, &newest.older)?;
                put_variable(base.alloc, newest.name.as_slice(), kept, kept_tie, older)
            }
        }
    }
}

/// What a header binds its variables to.
#[derive(Clone, Copy)]
pub(crate) struct Bound<'b> {
    /// The shape of an index or a key.
    pub(crate) key: &'b Shape,
    /// Where that of which it is one is from.
    pub(crate) over: &'b Option<Vec<Bytes>>,
    /// The shape of an element, or of another value.
    pub(crate) element: &'b Shape,
    /// Where that is from.
    pub(crate) origin: &'b Option<Vec<Bytes>>,
}

/// Where variables take an element, and its index or key.
pub(crate) fn bind(
    base: &Base<'_>,
    binding: &Binding,
    bound: &Bound<'_>,
    known: &Known,
) -> Result<Known, AllocError>
    ensures { IfOk result (λ ks. known_of ks ≡ bound_shapes (binding_of binding.now) (shape_of bound.now.key.now)
        (shape_of bound.now.element.now) (origin_of bound.now.over.now) (origin_of bound.now.origin.now) (known_of known.now)) }
{
    match binding {
        Binding::Unbound => copy_known(known),
        Binding::Declare(name) => {
            let shape = Rc::new(base.alloc, copy_counted(base, bound.element)?)?;
            let tie = Tie::of(base.alloc, bound.origin)?;
            put_variable(base.alloc, name.as_slice(), shape, tie, copy_known(known)?)
        }
        Binding::Assign(name) => {
            let shape = Rc::new(base.alloc, copy_counted(base, bound.element)?)?;
            let tie = Tie::of(base.alloc, bound.origin)?;
            assign(base, name.as_slice(), shape, tie, known)
        }
        Binding::DeclarePair(pair) => {
            let shape = Rc::new(base.alloc, copy_counted(base, bound.key)?)?;
            let tie = Tie::of_key(base.alloc, bound.over)?;
            let older = copy_known(known)?;
            let older = put_variable(base.alloc, pair.key.as_slice(), shape, tie, older)?;
            let shape = Rc::new(base.alloc, copy_counted(base, bound.element)?)?;
            let tie = Tie::of(base.alloc, bound.origin)?;
            put_variable(base.alloc, pair.element.as_slice(), shape, tie, older)
        }
    }
}

/// Whether there are more variables than in the other.
fn is_longer(known: &Known, other: &Known) -> bool
    ensures { result ≡ is_longer (known_of known.now) (known_of other.now) }
{
    match (known, other) {
        (Known::More(newest), Known::More(others)) => is_longer(&newest.older, &others.older),
        (Known::More(_), Known::Empty) => true,
        (Known::Empty, _) => false,
    }
}

/// The oldest variables, as many as in the other.
#[tactic(auto, using(crate::proofs::ViewLemmas::variables, crate::proofs::LengthLemmas::lasts))]
pub(crate) fn oldest<'k>(known: &'k Known, like: &Known) -> &'k Known
    ensures { known_of result.now ≡ last_of (length (known_of like.now)) (known_of known.now) }
{
    if !is_longer(known, like) {
        return known;
    }
    match known {
        Known::Empty => known,
        Known::More(newest) => oldest(&newest.older, like),
    }
}

/// Whether the variables of the range around are there.
#[tactic(auto, using(crate::proofs::ViewLemmas::variables, crate::proofs::LengthLemmas::lengths))]
pub(crate) fn holds_loop(head: Option<&Known>, known: &Known) -> bool
    ensures { result ≡ holds_loop (known_seen head.entry) (known_of known.now) }
{
    match head {
        Some(head) => !is_longer(head, known),
        None => true,
    }
}

/// Where a test shows what it does of a chain of fields from a variable.
pub(crate) fn refine_variable(
    base: &Base<'_>,
    test: Test<'_>,
    name: &[u8],
    names: &[Bytes],
    known: &Known,
) -> Result<Known, AllocError>
    ensures { IfOk result (λ ks. known_of ks
        ≡ refine_variable (base_of base.now) (test_seen test.entry) name.now names.now (known_of known.now)) }
{
    base.effort.spend(VARIABLE);
    match known {
        Known::Empty => Ok(Known::Empty),
        Known::More(newest) => {
            let tie = newest.tie.copy(base.alloc)?;
            if newest.name.as_slice() == name {
                let shape = Rc::new(base.alloc, refine(base, test, names, &newest.shape)?)?;
                let older = copy_known(&newest.older)?;
                return put_variable(base.alloc, newest.name.as_slice(), shape, tie, older);
            }
            let shape = Rc::clone(&newest.shape)?;
            let older = refine_variable(base, test, name, names, &newest.older)?;
            put_variable(base.alloc, newest.name.as_slice(), shape, tie, older)
        }
    }
}

/// The values of a provenance, where a chain from the data of the template is so.
pub(crate) fn refine_from(
    base: &Base<'_>,
    test: Test<'_>,
    names: &[Bytes],
    origin: Option<&[Bytes]>,
    shape: &Rc<Shape>,
) -> Result<Rc<Shape>, AllocError>
    ensures { IfOk result (λ s. shape_of s.value ≡ refine_from (base_of base.now) (test_seen test.entry) names.now
        (option_map (λ p. p.now) origin.entry) (shape_of shape.now.value)) }
{
    let Some(path) = origin else {
        return Rc::clone(shape);
    };
    match rest_of(path, names) {
        Some(rest) => Ok(Rc::new(base.alloc, refine(base, test, rest, shape)?)?),
        None => Rc::clone(shape),
    }
}

/// The variables, where a chain from the data of the template is so.
pub(crate) fn refine_all(
    base: &Base<'_>,
    test: Test<'_>,
    names: &[Bytes],
    known: &Known,
) -> Result<Known, AllocError>
    ensures { IfOk result (λ ks. known_of ks
        ≡ refine_all (base_of base.now) (test_seen test.entry) names.now (known_of known.now)) }
{
    base.effort.spend(VARIABLE);
    match known {
        Known::Empty => Ok(Known::Empty),
        Known::More(newest) => {
            let shape = refine_from(base, test, names, newest.tie.path(), &newest.shape)?;
            let tie = newest.tie.copy(base.alloc)?;
            let older = refine_all(base, test, names, &newest.older)?;
            put_variable(base.alloc, newest.name.as_slice(), shape, tie, older)
        }
    }
}

/// Whether these are the same variables, each within the other's shape.
pub(crate) fn all_within(base: &Base<'_>, known: &Known, others: &Known) -> bool
    ensures { result ≡ all_within (base_of base.now) (known_of known.now) (known_of others.now) }
{
    match (known, others) {
        (Known::Empty, Known::Empty) => true,
        (Known::More(newest), Known::More(other)) => {
            newest.name.as_slice() == other.name.as_slice()
                && within(base, &newest.shape, &other.shape)
                && newest.tie.is_within(&other.tie)
                && all_within(base, &newest.older, &other.older)
        }
        (Known::Empty, Known::More(_)) | (Known::More(_), Known::Empty) => false,
    }
}

/// The values of both, without a new shape where the one are among the other.
#[tactic(auto, unfolding(tmpl_shape::specs::computed::Shapes::join))]
fn join_shared(base: &Base<'_>, one: &Rc<Shape>, other: &Rc<Shape>) -> Result<Rc<Shape>, AllocError>
    ensures { IfOk result (λ s. shape_of s.value
        ≡ join (base_of base.now) (shape_of one.now.value) (shape_of other.now.value)) }
{
    if within(base, one, other) {
        return Ok(Rc::clone(other)?);
    }
    if within(base, other, one) {
        return Ok(Rc::clone(one)?);
    }
    let one = copy_counted(base, one)?;
    let both = either(base.alloc, one, copy_counted(base, other)?)?;
    Ok(Rc::new(base.alloc, both)?)
}

/// The same variables, each with the values of both.
pub(crate) fn join_all(base: &Base<'_>, known: &Known, others: &Known) -> Result<Known, Trouble>
    ensures { IfOk result (λ ks. join_all (base_of base.now) (known_of known.now) (known_of others.now)
        ≡ Some (known_of ks)) }
{
    base.effort.spend(VARIABLE);
    match (known, others) {
        (Known::Empty, Known::Empty) => Ok(Known::Empty),
        (Known::More(newest), Known::More(other)) => {
            if newest.name.as_slice() != other.name.as_slice() {
                return Err(Trouble::may_fail(base.alloc, Cause::Variables));
            }
            let shape = join_shared(base, &newest.shape, &other.shape)?;
            let tie = newest.tie.join(&other.tie, base.alloc)?;
            let older = join_all(base, &newest.older, &other.older)?;
            let name = newest.name.as_slice();
            Ok(put_variable(base.alloc, name, shape, tie, older)?)
        }
        (Known::Empty, Known::More(_)) | (Known::More(_), Known::Empty) => {
            Err(Trouble::may_fail(base.alloc, Cause::Variables))
        }
    }
}

/// The values of both, without a new shape where the one are among the other. Where they are parts of what was known before,
/// that is taken, so that a test that tells two parts apart adds nothing.
#[tactic(auto, unfolding(tmpl_shape::specs::computed::Shapes::join))]
fn join_to(
    base: &Base<'_>,
    before: &Rc<Shape>,
    one: &Rc<Shape>,
    other: &Rc<Shape>,
) -> Result<Rc<Shape>, AllocError>
    ensures { IfOk result (λ s. shape_of s.value ≡ join_to (base_of base.now) (shape_of before.now.value)
        (shape_of one.now.value) (shape_of other.now.value)) }
{
    if within(base, one, other) {
        return Rc::clone(other);
    }
    if within(base, other, one) {
        return Rc::clone(one);
    }
    if within(base, one, before) && within(base, other, before) {
        return Rc::clone(before);
    }
    let one = copy_counted(base, one)?;
    let both = either(base.alloc, one, copy_counted(base, other)?)?;
    Ok(Rc::new(base.alloc, both)?)
}

/// The same variables, each with the values of both, by what was known of them before.
fn join_parts(
    base: &Base<'_>,
    before: &Known,
    known: &Known,
    others: &Known,
) -> Result<Known, Trouble>
    ensures { IfOk result (λ ks. join_parts (base_of base.now) (known_of before.now) (known_of known.now)
        (known_of others.now) ≡ Some (known_of ks)) }
{
    base.effort.spend(VARIABLE);
    match (before, known, others) {
        (Known::Empty, Known::Empty, Known::Empty) => Ok(Known::Empty),
        (Known::More(was), Known::More(newest), Known::More(other)) => {
            let name = newest.name.as_slice();
            if name != other.name.as_slice() {
                return Err(Trouble::may_fail(base.alloc, Cause::Variables));
            }
            let shape = join_to(base, &was.shape, &newest.shape, &other.shape)?;
            let tie = newest.tie.join(&other.tie, base.alloc)?;
            let older = join_parts(base, &was.older, &newest.older, &other.older)?;
            Ok(put_variable(base.alloc, name, shape, tie, older)?)
        }
        _ => Err(Trouble::may_fail(base.alloc, Cause::Variables)),
    }
}

/// The variables that were there before, after two parts.
pub(crate) fn after_both(
    base: &Base<'_>,
    before: &Known,
    one: &Known,
    other: &Known,
) -> Result<Known, Trouble>
    ensures { IfOk result (λ ks. after_both (base_of base.now) (known_of before.now) (known_of one.now)
        (known_of other.now) ≡ Some (known_of ks)) }
{
    join_parts(base, before, oldest(one, before), oldest(other, before))
}

/// The variables that were there before, after two parts of which a run may come past these.
pub(crate) fn after_parts(
    base: &Base<'_>,
    through: FallThrough,
    before: &Known,
    one: &Known,
    other: &Known,
) -> Result<Known, Trouble>
    ensures { IfOk result (λ ks. after_parts (base_of base.now) through (known_of before.now) (known_of one.now)
        (known_of other.now) ≡ Some (known_of ks)) }
{
    match through {
        FallThrough::Both => after_both(base, before, one, other),
        FallThrough::Body => Ok(copy_known(oldest(one, before))?),
        FallThrough::Other => Ok(copy_known(oldest(other, before))?),
    }
}
