//! Names, each of them once: those that are known at a place, and those of a file's definitions.
ghost use Rattle.std.specs.Prelude.{◌≡◌, [], IfOk, length, not, take};
ghost use Rattle.tmpl_syntax.specs.computed.View.{known_names};
ghost use Rattle.tmpl_syntax.specs.computed.Frames.{is_known, with_name};

use crate::name_hash::NameHash;
use indexmap::IndexSet;
use std::alloc::{AllocError, Global};

/// Names, each of them once and in the order in which they were first added, so that one is found without a walk over
/// all: the variables that were declared so far and are not out of scope, or the names that a file defined so far.
#[derive(Drop)]
pub(crate) struct KnownNames<'i> {
    names: IndexSet<&'i [u8], NameHash>,
}

#[tactic(auto, using(crate::proofs::NameLemmas::held), unfolding(crate::specs::computed::View::known_names))]
impl<'i> KnownNames<'i> {
    /// No names, which are to be hashed so.
    pub(crate) fn new(alloc: Global, hash: NameHash) -> KnownNames<'i>
        ensures { known_names result ≡ [] }
    {
        KnownNames {
            names: IndexSet::with_hasher(alloc, hash),
        }
    }

    /// How many names are known.
    pub(crate) fn len(&self) -> usize
        ensures { result ≡ length (known_names self.now) }
    {
        self.names.len()
    }

    /// Adds a name, and says whether it is new. After an error the names are as they were.
    pub(crate) fn insert(&mut self, name: &'i [u8]) -> Result<bool, AllocError>
        ensures new { IfOk result (λ b. b ≡ not (is_known (known_names self.old) name.now)) }
        ensures names { IfOk result (λ b. known_names self.new ≡ with_name (known_names self.old) name.now) }
    {
        Ok(self.names.insert(name)?)
    }

    /// Forgets all but this many names.
    pub(crate) fn truncate(&mut self, count: usize)
        ensures { known_names self.new ≡ take count (known_names self.old) }
    {
        self.names.truncate(count);
    }

    /// Whether this name is known.
    pub(crate) fn knows(&self, name: &[u8]) -> bool
        ensures { result ≡ is_known (known_names self.now) name.now }
    {
        self.names.contains(name)
    }
}
