//! Where a run stands.
use crate::stack::Stack;
use std::alloc::Global;
use tmpl_values::Val;

/// Where a run stands.
#[derive(Drop)]
pub(crate) struct Machine<'m, 'a> {
    pub(crate) alloc: Global,
    pub(crate) stack: Stack<'m, 'a>,
    pub(crate) dot: Val<'a>,
    /// Steps.
    pub(crate) left: u64,
    /// That of the last step, which a fault bears.
    pub(crate) line: u64,
    /// The number of the template that runs.
    pub(crate) template: usize,
    /// How many templates are inside one another, the first one counted.
    pub(crate) depth: u64,
    /// That of the next instruction.
    pub(crate) place: usize,
}

impl<'m, 'a> Machine<'m, 'a> {
    ghost use Rattle.std.specs.Prelude.{◌≡◌};

    /// Takes a value for dot.
    #[inline(always)]
    pub(crate) fn replace_dot(&mut self, dot: Val<'a>)
        ensures { self.new ≡ record self.old { dot = dot.entry } }
    {
        self.dot = dot;
    }
}
