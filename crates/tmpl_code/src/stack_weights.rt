//! Guesses how many cells of a stack templates need that call one another. Nothing rests on it: `bound.rt` looks whether
//! it holds.
//!
//! A template that calls none on a cycle has no allowance; every other one has the largest need on a cycle for each call
//! level. A weight is what a template and its heaviest callee need beyond that.
use crate::call_graph::{CallGraph, Edge, reverse, topological_order};
use crate::claims::Claims;
use crate::instruction::Instruction;
use crate::numbers::{at, put, repeat};
use std::alloc::{AllocError, Global};

/// What templates claim, in the order of a set: the weight of the heaviest, and the largest allowance.
#[derive(Drop)]
pub(crate) struct Guess {
    pub claims: Claims,
    pub fixed: usize,
    pub each: usize,
}

/// Templates by number, in the order in which they are weighed.
#[derive(Drop)]
struct Order {
    /// Those that each of them calls.
    called: CallGraph,
    /// Those that call none in a cycle, each after all that it calls.
    below: Vec<usize>,
    /// Those in cycles of calls, and between cycles.
    between: Vec<usize>,
    /// The others that none in a cycle calls, each before all that it calls.
    above: Vec<usize>,
}

/// A guess for templates with these needs and this code.
pub(crate) fn guess_weights(
    alloc: Global,
    needs: &[usize],
    instructions: &[Instruction],
    starts: &[usize],
) -> Result<Guess, AllocError> {
    let calls = calls_in(alloc, instructions, starts)?;
    let order = order_by(alloc, needs.len(), calls.as_slice())?;
    let each = most_of(needs, order.between.as_slice());
    let allowances = allowances_for(alloc, needs.len(), order.below.as_slice(), each)?;
    let mut weights = repeat(alloc, needs.len(), 0)?;
    weigh_in(&order, needs, allowances.as_slice(), weights.as_mut_slice());
    let fixed = most(weights.as_slice());
    Ok(Guess {
        claims: Claims {
            weights,
            allowances,
        },
        fixed,
        each,
    })
}

/// The order of this many templates by their calls.
fn order_by(alloc: Global, count: usize, calls: &[Edge]) -> Result<Order, AllocError> {
    let callers = reverse(alloc, calls)?;
    let called = CallGraph::new(alloc, count, calls)?;
    let calling = CallGraph::new(alloc, count, callers.as_slice())?;
    let below = topological_order(alloc, count, calls, &calling)?;
    let above = topological_order(alloc, count, callers.as_slice(), &called)?;
    let between = rest(alloc, count, below.as_slice(), above.as_slice())?;
    Ok(Order {
        called,
        below,
        between,
        above,
    })
}

/// The allowances of this many templates: none for those that call none in a cycle, and this one for all others.
fn allowances_for(
    alloc: Global,
    count: usize,
    below: &[usize],
    each: usize,
) -> Result<Vec<usize>, AllocError> {
    let mut allowances = repeat(alloc, count, each)?;
    for number in below {
        put(allowances.as_mut_slice(), *number, 0);
    }
    Ok(allowances)
}

/// Weighs all templates, each after those that it calls.
fn weigh_in(order: &Order, needs: &[usize], allowances: &[usize], weights: &mut [usize]) {
    let called = &order.called;
    weigh_below(called, needs, allowances, order.below.as_slice(), weights);
    weigh_between(called, order.between.as_slice(), weights);
    weigh_above(called, needs, allowances, order.above.as_slice(), weights);
}

/// The calls in code, each as an edge from the template that calls to the one that is called.
fn calls_in(
    alloc: Global,
    instructions: &[Instruction],
    starts: &[usize],
) -> Result<Vec<Edge>, AllocError> {
    let mut calls = Vec::new(alloc);
    // how many templates have begun
    let mut begun = 0usize;
    for (place, instruction) in instructions.iter().enumerate() {
        if begun < starts.len() && starts[begun] == place {
            begun += 1;
        }
        if let Instruction::Invoke(number) = instruction {
            calls.push(Edge {
                from: begun.saturating_sub(1),
                to: *number as usize,
            })?;
        }
    }
    Ok(calls)
}

/// The numbers below a count that are in neither list.
fn rest(
    alloc: Global,
    count: usize,
    below: &[usize],
    above: &[usize],
) -> Result<Vec<usize>, AllocError> {
    let mut listed = repeat(alloc, count, 0)?;
    mark(listed.as_mut_slice(), below);
    mark(listed.as_mut_slice(), above);
    let mut rest = Vec::new(alloc);
    for (number, mark) in listed.as_slice().iter().enumerate() {
        if *mark == 0 {
            rest.push(number)?;
        }
    }
    Ok(rest)
}

/// Marks the numbers of a list.
fn mark(marks: &mut [usize], list: &[usize]) {
    for number in list {
        put(marks, *number, 1);
    }
}

/// The greatest of some weights.
fn most(weights: &[usize]) -> usize {
    weights.iter().fold(0, |most, weight| most.max(*weight))
}

/// The most that one of these templates needs.
fn most_of(needs: &[usize], numbers: &[usize]) -> usize {
    let mut most = 0;
    for number in numbers {
        most = most.max(at(needs, *number));
    }
    most
}

/// The weight of the heaviest that a template calls.
fn heaviest(called: &CallGraph, number: usize, weights: &[usize]) -> usize {
    let mut heaviest = 0;
    let mut next = called.newest(number);
    for _ in 0..called.len() {
        let Some(link) = called.link(next) else {
            break;
        };
        heaviest = heaviest.max(at(weights, link.to));
        next = link.older;
    }
    heaviest
}

/// Weighs a template by those that it calls.
fn weigh(
    called: &CallGraph,
    needs: &[usize],
    allowances: &[usize],
    number: usize,
    weights: &mut [usize],
) {
    let all = at(needs, number).saturating_add(heaviest(called, number, weights));
    put(weights, number, all.saturating_sub(at(allowances, number)));
}

/// Weighs templates that stand after all that they call.
fn weigh_below(
    called: &CallGraph,
    needs: &[usize],
    allowances: &[usize],
    numbers: &[usize],
    weights: &mut [usize],
) {
    for number in numbers {
        weigh(called, needs, allowances, *number, weights);
    }
}

/// Weighs templates in cycles alike: by the heaviest outside that one of them calls.
fn weigh_between(called: &CallGraph, numbers: &[usize], weights: &mut [usize]) {
    let heaviest = heaviest_of(called, numbers, weights);
    for number in numbers {
        put(weights, *number, heaviest);
    }
}

/// The weight of the heaviest that these templates call.
fn heaviest_of(called: &CallGraph, numbers: &[usize], weights: &[usize]) -> usize {
    let mut most = 0;
    for number in numbers {
        most = most.max(heaviest(called, *number, weights));
    }
    most
}

/// Weighs templates that stand before all that they call.
fn weigh_above(
    called: &CallGraph,
    needs: &[usize],
    allowances: &[usize],
    numbers: &[usize],
    weights: &mut [usize],
) {
    for number in numbers.iter().rev() {
        weigh(called, needs, allowances, *number, weights);
    }
}
