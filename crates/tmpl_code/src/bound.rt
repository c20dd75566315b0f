//! How many cells are enough for each depth of calls.
ghost use Rattle.std.specs.Prelude.{◌≡◌, ◌+◌, ◌<◌, ◌≤◌, IfOk, IfSome, Some, length, map, slice_get, true};
ghost use Rattle.tmpl_syntax.specs.Need.{need};
ghost use Rattle.tmpl_syntax.specs.Set.{Template};
ghost use Rattle.tmpl_syntax.specs.View.{set_view};
ghost use Rattle.tmpl_code.specs.computed.Weights.{set_calls};
ghost use Rattle.tmpl_code.specs.Room.{largest_need};
ghost use Rattle.tmpl_code.specs.computed.Weights.{AreEnough, Hold, HoldsOf, IsBound};

use crate::claims::Claims;
use crate::heaviest::heaviest_of_nodes;
use crate::instruction::Instruction;
use crate::numbers::at;
use crate::stack_weights::{Guess, guess_weights};
use crate::survey::Survey;
use std::alloc::{AllocError, Global};
use tmpl_syntax::Set;

/// This many cells, and this many more for each template that may be inside the others; and what each template claims of
/// these, where that is known.
#[derive(Drop)]
pub(crate) struct Bound {
    pub fixed: usize,
    pub each: usize,
    pub claims: Option<Claims>,
}

/// A bound for the templates of a set, by what each of them needs, and all of them need and do. What is guessed of the
/// calls is taken where it holds, and else each template may need as much as the one that needs most.
#[tactic(auto, using(crate::proofs::BoundLemmas::bounds))]
pub(crate) fn bound_of(
    alloc: Global,
    set: &Set,
    instructions: &[Instruction],
    starts: &[usize],
    needs: Vec<usize>,
    survey: Survey,
) -> Result<Bound, AllocError>
    requires needs { needs.items ≡ map (λ t. need t.1) (set_view set.now) }
    requires most { survey.need ≡ largest_need (set_view set.now) }
    requires calls { survey.calls ≡ set_calls (set_view set.now) }
    ensures bound { IfOk result (λ b. IsBound (set_view set.now) b.fixed b.each) }
    ensures small { IfOk result (λ b. b.each ≤ survey.need) }
    ensures claims { IfOk result (λ b. IfSome b.claims (λ c.
        AreEnough (set_view set.now) c.weights.items c.allowances.items)) }
{
    if !survey.calls {
        return Ok(Bound {
            fixed: survey.need,
            each: 0,
            claims: Some(Claims {
                weights: needs,
                allowances: Vec::new(alloc),
            }),
        });
    }
    let guess = guess_weights(alloc, needs.as_slice(), instructions, starts)?;
    if guess.each <= survey.need && holds(set, needs.as_slice(), &guess) {
        let Guess {
            claims,
            fixed,
            each,
        } = guess;
        return Ok(Bound {
            fixed,
            each,
            claims: Some(claims),
        });
    }
    Ok(Bound {
        fixed: 0,
        each: survey.need,
        claims: None,
    })
}

/// Whether the guess holds of each template.
fn holds(set: &Set, needs: &[usize], guess: &Guess) -> bool
    requires { needs.now ≡ map (λ t. need t.1) (set_view set.now) }
    ensures { result ≡ true → Hold (set_view set.now) guess.now.claims.weights.items guess.now.claims.allowances.items
        guess.now.fixed guess.now.each }
{
    for number in 0..set.len() {
        if !holds_of(set, needs, guess, number) {
            return false;
        }
    }
    true
}

/// Whether a template needs no more, with the heaviest that it calls, than it weighs and is allowed, none that it calls
/// is allowed more than it, and it weighs no more than is held once and is allowed no more than each.
fn holds_of(set: &Set, needs: &[usize], guess: &Guess, number: usize) -> bool
    requires number { number < length (set_view set.now) }
    requires needs { needs.now ≡ map (λ t. need t.1) (set_view set.now) }
    ensures { result ≡ true → (t : Template) → slice_get (set_view set.now) number ≡ Some t
        → HoldsOf (set_view set.now) guess.now.claims.weights.items guess.now.claims.allowances.items
        guess.now.fixed guess.now.each number t }
{
    let (_, tree) = set.template(number);
    let heaviest = heaviest_of_nodes(set, &guess.claims, tree.nodes.as_slice());
    let weight = at(guess.claims.weights.as_slice(), number);
    let allowance = at(guess.claims.allowances.as_slice(), number);
    weight <= guess.fixed
        && allowance <= guess.each
        && heaviest.allowance <= allowance
        && pays(at(needs, number), heaviest.weight, weight, allowance)
}

/// Whether a template's weight and its allowance pay for what it needs and the heaviest that it calls.
fn pays(need: usize, heaviest: usize, weight: usize, allowance: usize) -> bool
    ensures { result ≡ true → need + heaviest ≤ weight + allowance }
{
    match (need.checked_add(heaviest), weight.checked_add(allowance)) {
        (Some(needed), Some(paid)) => needed <= paid,
        _ => false,
    }
}
