//! All for which a file is refused.
ghost use Rattle.std.specs.Prelude.{◌≡◌, ◌++◌, All, IfOk, OnOk, map};
ghost use Rattle.tmpl_syntax.specs.Refusals.{show};
ghost use Rattle.tmpl_syntax.specs.computed.Begun.{AllFrom, IsSited, IsStarted};
ghost use Rattle.tmpl_syntax.specs.computed.Parse.{last_line};
ghost use Rattle.tmpl_syntax.specs.computed.Refusals.{found_open, found_seen, refusals_in, site_of};
ghost use Rattle.tmpl_syntax.specs.computed.View.{frames_in};

use crate::fault::ParseKind;
use crate::name_hash::NameHash;
use crate::place::check::last_line;
use crate::place::frame::Frame;
use crate::place::mend::take_in_site;
use crate::place::pass::newest;
use crate::place::scopes::Scopes;
use crate::refused::About;
use crate::site::Site;
use std::alloc::{AllocError, Global};

/// Why a file is refused, and where: an action of it, or its end where something is open there.
#[derive(Drop)]
pub(crate) struct Found {
    /// How many texts and actions stand before it, as the file is cut.
    pub(crate) place: usize,
    /// How many bytes of the file stand before it.
    pub(crate) start: usize,
    /// Its line, counted from 1.
    pub(crate) line: u64,
    pub(crate) kind: ParseKind,
    pub(crate) about: About,
}

/// What is refused of these items of a file of these bytes: the first refused action, then what is refused where that is
/// mended. It counts as a bare opening, else branch or end if it is one or its first word says so, and else as not
/// there; each variable that stands in it counts as declared. Where it is refused again it counts as not there. The
/// names are hashed so.
///
/// # Errors
///
/// Where memory ran out.
pub(crate) fn refusals_in(
    alloc: Global,
    hash: NameHash,
    sites: &[Site<'_>],
    bytes: &[u8],
) -> Result<Vec<Found>, AllocError>
    requires { AllFrom (IsSited bytes.now) 0 sites.now }
    ensures refused { IfOk result (λ v. map found_seen v.items
        ≡ map show (refusals_in (last_line bytes.now) (map site_of sites.now))) }
    ensures started { IfOk result (λ v. All (IsStarted bytes.now) v.items) }
{
    let mut found = Vec::new(alloc);
    let mut stack: Vec<Frame> = Vec::new(alloc);
    let mut scopes = Scopes::new(alloc, hash);
    for (place, site) in sites.iter().enumerate() {
        take_in_site(alloc, &mut stack, &mut scopes, &mut found, place, site)?;
    }
    add_open(&mut found, &stack, sites.len(), bytes)?;
    Ok(found)
}

/// Adds the end of a file of this many items and these bytes, if something is open there.
fn add_open(
    found: &mut Vec<Found>,
    stack: &Vec<Frame>,
    place: usize,
    bytes: &[u8],
) -> Result<(), AllocError>
    ensures refused { IfOk result (λ u. map found_seen found.new.items ≡ map found_seen found.old.items
        ++ map show (found_open place (last_line bytes.now) (frames_in stack.now.items))) }
    ensures started { All (IsStarted bytes.now) found.old.items → OnOk result (All (IsStarted bytes.now) found.new.items) }
{
    if let Some(frame) = newest(stack) {
        found.push(Found {
            place,
            start: bytes.len(),
            line: last_line(bytes),
            kind: ParseKind::OpenAtEnd,
            about: About::LeftOpen(frame.open(), stack.len()),
        })?;
    }
    Ok(())
}
