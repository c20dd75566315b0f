//! The names that are known in the template of a place, and in those around it.
ghost use Rattle.std.specs.Prelude.{◌≡◌, ◌∷◌, [], IfOk, true};
ghost use Rattle.tmpl_syntax.specs.computed.View.{scopes_of};
ghost use Rattle.tmpl_syntax.specs.computed.Frames.{closed_if, none_known};

use crate::name_hash::NameHash;
use crate::place::names::KnownNames;
use std::alloc::{AllocError, Global};
use std::mem;

/// A template sees no names of the one in which it is defined, and these are known again after it.
#[derive(Drop)]
pub(crate) struct Scopes<'i> {
    /// Those of the template in which a place stands.
    pub(crate) inner: KnownNames<'i>,
    /// Those of the templates around it, the nearest last.
    around: Vec<KnownNames<'i>>,
    /// How all of them are hashed.
    hash: NameHash,
}

impl<'i> Scopes<'i> {
    /// No names, which are to be hashed so.
    #[tactic(auto, unfolding(crate::specs::computed::View::scopes_of))]
    pub(crate) fn new(alloc: Global, hash: NameHash) -> Scopes<'i>
        ensures { scopes_of result ≡ none_known }
    {
        Scopes {
            inner: KnownNames::new(alloc, hash),
            around: Vec::new(alloc),
            hash,
        }
    }

    /// Begins a template, in which none is known yet.
    #[tactic(auto, unfolding(crate::specs::computed::View::scopes_of))]
    pub(crate) fn enter(&mut self, alloc: Global) -> Result<(), AllocError>
        ensures inner { IfOk result (λ u. (scopes_of self.new).inner ≡ []) }
        ensures around { IfOk result (λ u. (scopes_of self.new).around
            ≡ (scopes_of self.old).inner ∷ (scopes_of self.old).around) }
    {
        let outer = mem::replace(&mut self.inner, KnownNames::new(alloc, self.hash));
        self.around.push(outer)?;
        Ok(())
    }

    /// Ends a template.
    #[tactic(auto, unfolding(crate::specs::computed::View::scopes_of))]
    pub(crate) fn leave(&mut self, alloc: Global)
        ensures { scopes_of self.new ≡ closed_if true (scopes_of self.old) }
    {
        self.inner = match self.around.pop() {
            Some(outer) => outer,
            None => KnownNames::new(alloc, self.hash),
        };
    }
}
