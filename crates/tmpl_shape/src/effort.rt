//! How much work a check may take.
use std::cell::Cell;

/// How much work may be done before a check is given up. What takes work spends some of it, and it is looked at between
/// the parts of a template, so that no schema and no template has a check go on for long.
#[derive(Drop)]
pub struct Effort {
    left: Cell<u64>,
}

impl Effort {
    /// As much as this.
    pub const fn new(most: u64) -> Effort {
        Effort {
            left: Cell::new(most),
        }
    }

    /// Takes this much of it.
    pub fn spend(&self, count: u64) {
        self.left.set(self.left.get().saturating_sub(count));
    }

    /// Whether nothing is left of it.
    pub fn is_spent(&self) -> bool {
        self.left.get() == 0
    }

    /// Makes it as much as this again.
    pub fn renew(&self, most: u64) {
        self.left.set(most);
    }
}
