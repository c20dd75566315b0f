//! What the cells of a template's frame are at a place.
ghost use Rattle.std.specs.Prelude.{◌≡◌, ℕ, List};
ghost use Rattle.tmpl_code.specs.computed.Cells.{layout_in, links_in, links_of, place_named, place_of};

mod methods;
mod newest;

use std::collections::BTreeMap;

/// A cell of a frame.
#[derive(Clone, Copy)]
pub(crate) enum ScopeCell<'s> {
    /// What a control or a call saves.
    Saved,
    /// A variable, and the place of the newest one below it that has its name.
    Variable {
        name: &'s [u8],
        hidden: Option<usize>,
    },
}

/// The cells, the newest last, and the place of the newest variable of each name, so that one is found without a walk
/// over all.
#[derive(Drop)]
pub(crate) struct Scope<'s> {
    cells: Vec<ScopeCell<'s>>,
    newest: BTreeMap<&'s [u8], Option<usize>>,
    ghost placed: { (name : List ℕ) → place_of newest name ≡ place_named name (layout_in cells.items) },
    ghost linked: { links_in cells.items ≡ links_of (layout_in cells.items) },
}
