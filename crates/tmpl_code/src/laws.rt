//! The law of what never comes in code.
ghost use Rattle.tmpl_code.specs.Laws.{PlacesFormed};

/// The law that the code of a formed tree, as each tree of a `Set` is, comes to no variable without a slot and to no
/// break out of a template: along the tree, with the layouts by which its code is put, each name that is used or
/// assigned has a slot, and each `break` and `continue` a range to go out of.
#[tactic(auto, using(crate::proofs::FormedSlotLemmas::placed))]
pub fn formed_slots()
    ensures { PlacesFormed }
{}
