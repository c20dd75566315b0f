//! A file added to the set, or all that is refused of it.
ghost use Rattle.std.specs.Prelude.{◌≡◌, ◌≤◌, ◌∷◌, [], All, IfOk, List, length, map};
ghost use Rattle.tmpl_syntax.specs.Examine.{Examined, IsLocated, StartsAt, firsts};
ghost use Rattle.tmpl_syntax.specs.Fault.{reason_of};
ghost use Rattle.tmpl_syntax.specs.Refusals.{Found, HasRefusals, refused_seen, show};
ghost use Rattle.tmpl_syntax.specs.View.{set_view};

use crate::column::Place;
use crate::fault::{ParseKind, Refusal};
use crate::found::refusals_in;
use crate::name_hash::NameHash;
use crate::parse::{copy_of, read_file, share_bytes};
use crate::refused::{About, Refused, firsts};
use crate::set::Set;
use crate::site::read_sites;
use std::alloc::{AllocError, Global};

/// Adds the templates of a file to the set, as `parse_file` does, or gives all that is refused of the file, and where:
/// the first is why it is refused, an action is told of once, and nothing after one that can't be read. The names in it
/// are hashed so. A file that is accepted is cut once, and one that is refused at most twice.
///
/// # Errors
///
/// Where memory ran out; the set is then as it was, or has the file's templates.
pub fn examine_file(
    alloc: Global,
    names: NameHash,
    set: &mut Set,
    file: &str,
    bytes: &[u8],
) -> Result<Vec<Refused>, AllocError>
    ensures examined { IfOk result (λ v. Examined (set_view set.old) file.now bytes.now (set_view set.new) v.items) }
    ensures located { IfOk result (λ v. All (IsLocated bytes.now) v.items) }
{
    match read_file(alloc, set, file, bytes) {
        Ok(()) => Ok(Vec::new(alloc)),
        Err(refusal) => match refusal.kind {
            ParseKind::OutOfMemory => Err(AllocError),
            ParseKind::TooLong => alone(alloc, bytes, 0, refusal),
            ParseKind::SecondDefinition => alone(alloc, bytes, refusal.start, refusal),
            _ => all_refused(alloc, names, bytes),
        },
    }
}

/// A refusal alone, which begins there.
#[tactic(auto, using(crate::proofs::BegunLemmas::starts_within))]
fn alone(
    alloc: Global,
    bytes: &[u8],
    start: usize,
    refusal: Refusal,
) -> Result<Vec<Refused>, AllocError>
    requires { StartsAt bytes.now refusal.kind 0 start }
    ensures same { IfOk result (λ v. map refused_seen v.items ≡ (0, refusal.line, reason_of refusal.kind) ∷ []) }
    ensures located { IfOk result (λ v. All (IsLocated bytes.now) v.items) }
{
    let here = Place::first().at(bytes, start);
    let mut one = Vec::new(alloc);
    one.push(Refused {
        place: 0,
        start,
        line: refusal.line,
        column: here.column,
        kind: refusal.kind,
        about: about_file(refusal),
    })?;
    Ok(one)
}

/// What more is known of a file that is refused as a whole.
fn about_file(refusal: Refusal) -> About {
    match refusal.kind {
        ParseKind::SecondDefinition => About::First(refusal.first),
        _ => About::Nothing,
    }
}

/// All that is refused of the items of a file.
fn all_refused(alloc: Global, names: NameHash, bytes: &[u8]) -> Result<Vec<Refused>, AllocError>
    requires { length bytes.now ≤ 16777216 }
    ensures refused { IfOk result (λ v. (rs : List Found) × HasRefusals bytes.now rs
        × (map refused_seen v.items ≡ firsts (map show rs))) }
    ensures located { IfOk result (λ v. All (IsLocated bytes.now) v.items) }
{
    let contents = share_bytes(alloc, copy_of(alloc, bytes)?)?;
    let sites = read_sites(alloc, &contents)?;
    let all = refusals_in(alloc, names, sites.as_slice(), bytes)?;
    firsts(alloc, bytes, all.as_slice())
}
