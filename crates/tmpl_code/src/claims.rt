//! What each template claims of the cells of a stack.
ghost use Rattle.std.specs.Prelude.{◌≡◌, ◌*◌, ◌+◌, IfSome, get_or};

use crate::numbers::at;

/// How many cells are enough for a run of each template of a set: its weight, and its allowance for each template that
/// may be inside the others.
#[derive(Drop)]
pub(crate) struct Claims {
    pub(crate) weights: Vec<usize>,
    pub(crate) allowances: Vec<usize>,
}

impl Claims {
    /// What the template of this number claims at a depth, if that can be counted.
    pub(crate) fn of(&self, number: usize, depth: u32) -> Option<u64>
        ensures { IfSome result (λ n. n ≡ get_or self.now.weights.items number 0
            + depth * get_or self.now.allowances.items number 0) }
    {
        let weight = at(self.weights.as_slice(), number) as u64;
        let allowance = at(self.allowances.as_slice(), number) as u64;
        (depth as u64).checked_mul(allowance)?.checked_add(weight)
    }
}
