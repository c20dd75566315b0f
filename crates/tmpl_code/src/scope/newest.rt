//! The place of the newest variable of each name.
ghost use Rattle.std.specs.Prelude.{◌≡◌, ℕ, List, OnErr, OnOk, Some, if◌then◌else◌, is_some, true};
ghost use Rattle.std.specs.Str.{bytes_eq};
ghost use Rattle.tmpl_code.specs.computed.Cells.{place_of};

use std::alloc::AllocError;
use std::collections::BTreeMap;

/// The place of the newest variable of a name.
pub(super) fn place(newest: &BTreeMap<&[u8], Option<usize>>, name: &[u8]) -> Option<usize>
    ensures { result ≡ place_of newest.now name.now }
{
    match newest.get(name) {
        Some(place) => *place,
        None => None,
    }
}

/// A variable of the name at this place is the newest.
pub(super) fn put_place<'s>(
    newest: &mut BTreeMap<&'s [u8], Option<usize>>,
    name: &'s [u8],
    place: usize,
) -> Result<(), AllocError>
    ensures ok { OnOk result ((q : List ℕ) → place_of newest.new q
        ≡ if bytes_eq name.now q then Some place else place_of newest.old q) }
    ensures err { OnErr result ((q : List ℕ) → place_of newest.new q ≡ place_of newest.old q) }
{
    newest.insert(name, Some(place))?;
    Ok(())
}

/// The newest variable of the name, which there is, is the one at this place again, or there is none.
pub(super) fn take_place(
    newest: &mut BTreeMap<&[u8], Option<usize>>,
    name: &[u8],
    hidden: Option<usize>,
)
    requires { is_some (place_of newest.old name.now) ≡ true }
    ensures { (q : List ℕ) → place_of newest.new q
        ≡ if bytes_eq name.now q then hidden else place_of newest.old q }
{
    if let Some(place) = newest.get_mut(name) {
        *place = hidden;
    }
}
