//! What is done with the cells.
ghost use Rattle.std.specs.Prelude.{◌≡◌, ◌∷◌, [], None, Some, OnOk, drop, length};
ghost use Rattle.tmpl_code.specs.Layout.{slot_named};
ghost use Rattle.tmpl_code.specs.computed.Held.{layout_of};

use super::newest::{place, put_place, take_place};
use super::{Scope, ScopeCell};
use std::alloc::{AllocError, Global};
use std::collections::BTreeMap;

impl<'s> Scope<'s> {
    /// No cells.
    #[tactic(auto, unfolding(crate::specs::computed::Held::layout_of))]
    pub(crate) fn new(alloc: Global) -> Self
        ensures { layout_of result ≡ [] }
    {
        Scope {
            cells: Vec::new(alloc),
            newest: BTreeMap::new(alloc),
        }
    }

    /// How many cells there are.
    #[tactic(auto, using(crate::proofs::ScopeLemmas::layout_length), unfolding(crate::specs::computed::Held::layout_of))]
    pub(crate) fn len(&self) -> usize
        ensures { result ≡ length (layout_of self.now) }
    {
        self.cells.len()
    }

    /// A variable more. After an error the cells are as they were.
    #[tactic(auto, using(crate::proofs::ScopeLemmas::pushes), unfolding(crate::specs::computed::Held::layout_of))]
    pub(crate) fn declare(&mut self, name: &'s [u8]) -> Result<(), AllocError>
        ensures { OnOk result (layout_of self.new ≡ Some name.now ∷ layout_of self.old) }
    {
        let here = self.cells.len();
        let hidden = place(&self.newest, name);
        self.cells.push(ScopeCell::Variable { name, hidden })?;
        match put_place(&mut self.newest, name, here) {
            Ok(()) => Ok(()),
            Err(error) => {
                self.cells.pop();
                Err(error)
            }
        }
    }

    /// A saved cell more.
    #[tactic(auto, using(crate::proofs::ScopeLemmas::pushes), unfolding(crate::specs::computed::Held::layout_of))]
    pub(crate) fn save(&mut self) -> Result<(), AllocError>
        ensures { OnOk result (layout_of self.new ≡ None ∷ layout_of self.old) }
    {
        self.cells.push(ScopeCell::Saved)?;
        Ok(())
    }

    /// Forgets the newest cell.
    #[tactic(auto, using(crate::proofs::ScopeLemmas::pops), unfolding(crate::specs::computed::Held::layout_of))]
    pub(crate) fn forget(&mut self)
        ensures { layout_of self.new ≡ drop 1 (layout_of self.old) }
    {
        if let Some(ScopeCell::Variable { name, hidden }) = self.cells.pop() {
            take_place(&mut self.newest, name, hidden);
        }
    }

    /// The slot of the newest variable of a name.
    #[tactic(auto, using(crate::proofs::ScopeLemmas::slots), unfolding(crate::specs::computed::Held::layout_of))]
    pub(crate) fn slot(&self, name: &[u8]) -> Option<usize>
        ensures { result ≡ slot_named name.now (layout_of self.now) }
    {
        match place(&self.newest, name) {
            Some(place) => Some(self.cells.len() - 1 - place),
            None => None,
        }
    }
}
