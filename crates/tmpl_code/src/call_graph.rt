//! Which templates call which, by their numbers.
use crate::numbers::{at, put, repeat};
use std::alloc::{AllocError, Global};

/// A call of one template by another, or the same in the other direction.
#[derive(Clone, Copy)]
pub(crate) struct Edge {
    pub from: usize,
    pub to: usize,
}

/// The edges from each template: a list of links for each of them.
#[derive(Drop)]
pub(crate) struct CallGraph {
    /// The newest link of each template. Links count from 1, and 0 is none.
    newest: Vec<usize>,
    links: Vec<Link>,
}

/// Where an edge leads, and the link that was made before it for the same template.
#[derive(Clone, Copy)]
pub(crate) struct Link {
    pub to: usize,
    pub older: usize,
}

impl CallGraph {
    /// The graph of this many templates.
    pub(crate) fn new(alloc: Global, count: usize, edges: &[Edge]) -> Result<Self, AllocError> {
        let mut newest = repeat(alloc, count, 0)?;
        let mut links = Vec::with_capacity(alloc, edges.len())?;
        for edge in edges {
            let older = at(newest.as_slice(), edge.from);
            links.push(Link { to: edge.to, older })?;
            put(newest.as_mut_slice(), edge.from, links.len());
        }
        Ok(CallGraph { newest, links })
    }

    /// How many links there are.
    pub(crate) fn len(&self) -> usize {
        self.links.len()
    }

    /// The newest link of a template.
    pub(crate) fn newest(&self, number: usize) -> usize {
        at(self.newest.as_slice(), number)
    }

    /// A link, if there is one of this number.
    pub(crate) fn link(&self, number: usize) -> Option<Link> {
        let index = number.checked_sub(1)?;
        match self.links.as_slice().get(index) {
            Some(link) => Some(*link),
            None => None,
        }
    }
}

/// The edges in the other direction.
pub(crate) fn reverse(alloc: Global, edges: &[Edge]) -> Result<Vec<Edge>, AllocError> {
    let mut reversed = Vec::with_capacity(alloc, edges.len())?;
    for edge in edges {
        reversed.push(Edge {
            from: edge.to,
            to: edge.from,
        })?;
    }
    Ok(reversed)
}

/// Of this many templates those from which these edges lead to no cycle, each after all to which it has an edge. `back`
/// is the graph of the edges in the other direction.
pub(crate) fn topological_order(
    alloc: Global,
    count: usize,
    edges: &[Edge],
    back: &CallGraph,
) -> Result<Vec<usize>, AllocError> {
    let mut waits = counts(alloc, count, edges)?;
    let mut order = free(alloc, waits.as_slice())?;
    for done in 0..count {
        let Some(number) = order.as_slice().get(done) else {
            break;
        };
        let number = *number;
        release(back, number, waits.as_mut_slice(), &mut order)?;
    }
    Ok(order)
}

/// How many edges there are from each of this many templates.
fn counts(alloc: Global, count: usize, edges: &[Edge]) -> Result<Vec<usize>, AllocError> {
    let mut counts = repeat(alloc, count, 0)?;
    for edge in edges {
        let one_more = at(counts.as_slice(), edge.from).saturating_add(1);
        put(counts.as_mut_slice(), edge.from, one_more);
    }
    Ok(counts)
}

/// The templates that wait for none.
fn free(alloc: Global, waits: &[usize]) -> Result<Vec<usize>, AllocError> {
    let mut free = Vec::with_capacity(alloc, waits.len())?;
    for (number, count) in waits.iter().enumerate() {
        if *count == 0 {
            free.push(number)?;
        }
    }
    Ok(free)
}

/// Those that have an edge to a template wait for one less, and are free once they wait for none.
fn release(
    back: &CallGraph,
    number: usize,
    waits: &mut [usize],
    free: &mut Vec<usize>,
) -> Result<(), AllocError> {
    let mut next = back.newest(number);
    for _ in 0..back.len() {
        let Some(link) = back.link(next) else {
            break;
        };
        let left = at(waits, link.to).saturating_sub(1);
        put(waits, link.to, left);
        if left == 0 {
            free.push(link.to)?;
        }
        next = link.older;
    }
    Ok(())
}
