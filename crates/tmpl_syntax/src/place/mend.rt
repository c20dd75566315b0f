//! What stands after an item, whether it is refused or not.
ghost use Rattle.std.specs.Prelude.{◌≡◌, ◌++◌, ◌∷◌, ◌<◌, ℕ, [], All, List, IfOk, IfSome, None, OnOk, false, leb, map, option_map, true};
ghost use Rattle.tmpl_lex.specs.Begin.{BeginsAt};
ghost use Rattle.tmpl_syntax.specs.Place.Body.{most_levels};
ghost use Rattle.tmpl_syntax.specs.Place.Opening as opening;
ghost use Rattle.tmpl_syntax.specs.Place.Role.{Name, role_of};
ghost use Rattle.tmpl_syntax.specs.Refusals.{show};
ghost use Rattle.tmpl_syntax.specs.computed.Begun.{IsSited, IsStarted};
ghost use Rattle.tmpl_syntax.specs.computed.Fault.{of_action};
ghost use Rattle.tmpl_syntax.specs.computed.Frames.{enter_opening, fault_at, first_fault, is_known, levels, names_at, top, with_names};
ghost use Rattle.tmpl_syntax.specs.computed.Refusals.{after, by_mended, fault_there, found_at, found_seen, mend_kind, mend_of};
ghost use Rattle.tmpl_syntax.specs.computed.Refusals.{names_held, names_left, place_decides, site_of, standing, step};
ghost use Rattle.tmpl_syntax.specs.computed.View.{frame_of, frames_in, item_of, known_names, scopes_of};

use crate::fault::Fault;
use crate::found::Found;
use crate::item::{Item, ItemKind};
use crate::place::frame::{Frame, Open, Opening};
use crate::place::names::KnownNames;
use crate::place::pass::{enter_template, forget, leave, newest, part_of, pass_else, take_in};
use crate::place::rules::{MOST_LEVELS, fault_of, is_in_loop, levels_in, may_take_else};
use crate::place::scopes::Scopes;
use crate::refused::About;
use crate::site::{Mend, MendKind, Site};
use std::alloc::{AllocError, Global};
use tmpl_grammar::{Action, Binding, Control};

/// Takes in an item, of which it is added why it is refused.
#[tactic(auto, unfolding(crate::specs::computed::View::scopes_of))]
pub(crate) fn take_in_site<'i>(
    alloc: Global,
    stack: &mut Vec<Frame>,
    scopes: &mut Scopes<'i>,
    found: &mut Vec<Found>,
    place: usize,
    site: &'i Site<'i>,
) -> Result<(), AllocError>
    ensures found { let r = step (site_of site.now) (standing stack.old.items scopes.old) in
        IfOk result (λ u. map found_seen found.new.items
        ≡ map found_seen found.old.items ++ map show (found_at place (site_of site.now).line r.0)) }
    ensures frames { let r = step (site_of site.now) (standing stack.old.items scopes.old) in
        IfOk result (λ u. frames_in stack.new.items ≡ r.1.frames) }
    ensures names { let r = step (site_of site.now) (standing stack.old.items scopes.old) in
        IfOk result (λ u. scopes_of scopes.new ≡ r.1.known) }
    ensures started { (file : List ℕ) → IsSited file place site.now → All (IsStarted file) found.old.items
        → OnOk result (All (IsStarted file) found.new.items) }
{
    match find_fault(&mut scopes.inner, &site.item, newest(stack)) {
        None => take_in(alloc, stack, scopes, &site.item),
        Some(fault) => {
            let about = about_fault(alloc, fault, site, newest(stack), &scopes.inner)?;
            found.push(refused(place, site, fault, about))?;
            take_in_mended(alloc, stack, scopes, found, place, site)
        }
    }
}

/// Takes in an item that is mended, of which it is added why it is refused again.
#[tactic(auto, unfolding(crate::specs::computed::View::scopes_of))]
fn take_in_mended<'i>(
    alloc: Global,
    stack: &mut Vec<Frame>,
    scopes: &mut Scopes<'i>,
    found: &mut Vec<Found>,
    place: usize,
    site: &'i Site<'i>,
) -> Result<(), AllocError>
    ensures found { let m = (site_of site.now).mended in let s = standing stack.old.items scopes.old in
        IfOk result (λ u. map found_seen found.new.items ≡ map found_seen found.old.items
        ++ map show (found_at place (site_of site.now).line (by_mended (fault_there m s) m s).0)) }
    ensures frames { let m = (site_of site.now).mended in let s = standing stack.old.items scopes.old in
        IfOk result (λ u. frames_in stack.new.items ≡ (by_mended (fault_there m s) m s).1.frames) }
    ensures names { let m = (site_of site.now).mended in let s = standing stack.old.items scopes.old in
        IfOk result (λ u. scopes_of scopes.new ≡ (by_mended (fault_there m s) m s).1.known) }
    ensures started { (file : List ℕ) → BeginsAt file place site.now.item.start
        → All (IsStarted file) found.old.items → OnOk result (All (IsStarted file) found.new.items) }
{
    match mend_fault(site.mend.kind, newest(stack)) {
        None => take_in_mend(alloc, stack, scopes, site.item.line, &site.mend),
        Some(fault) => Ok(found.push(refused(place, site, fault, About::Nothing))?),
    }
}

/// An item as refused for this fault, of which this is known.
fn refused(place: usize, site: &Site<'_>, fault: Fault, about: About) -> Found
    ensures seen { found_seen result ≡ show (place, (site_of site.now).line, of_action fault) }
    ensures starts { (file : List ℕ) → BeginsAt file place site.now.item.start → IsStarted file result }
{
    Found {
        place,
        start: site.item.start,
        line: site.item.line,
        kind: fault.kind(),
        about,
    }
}

/// What is known of an item that is refused for this fault where this is open and these names are known.
fn about_fault(
    alloc: Global,
    fault: Fault,
    site: &Site<'_>,
    outside: Option<Frame>,
    names: &KnownNames<'_>,
) -> Result<About, AllocError> {
    match fault {
        Fault::OutOfPlace => Ok(About::Inside(open_in(outside))),
        Fault::UndeclaredVariable => match first_unknown(site, names) {
            Some(name) => Ok(About::Name(name.to_vec(alloc)?)),
            None => Ok(About::Nothing),
        },
        Fault::Unreadable | Fault::NotAnAction | Fault::NestedTooDeeply => Ok(About::Nothing),
    }
}

/// What is open there, if anything is.
fn open_in(outside: Option<Frame>) -> Option<Open> {
    Some(outside?.open())
}

/// The first variable of those that stand in an item, but for those that it declares, that is not known.
fn first_unknown<'b>(site: &Site<'b>, names: &KnownNames<'_>) -> Option<&'b [u8]>
    ensures { IfSome result (λ n. is_known (known_names names.now) n.now ≡ false) }
{
    for index in declared_len(&site.item)..site.mend.names.len() {
        let name = site.mend.names[index];
        if !names.knows(name) {
            return Some(name);
        }
    }
    None
}

/// How many variables an item declares.
fn declared_len(item: &Item) -> usize {
    match &item.what {
        ItemKind::Action(
            Action::Pipeline(header) | Action::Open(_, header) | Action::ElseBranch(_, header),
        ) => match header.binding {
            Binding::Declare(_) => 1,
            Binding::DeclarePair(_) => 2,
            Binding::Unbound | Binding::Assign(_) => 0,
        },
        _ => 0,
    }
}

/// The fault of an item, if it has one. The names that it does not see are forgotten, unless its place or its form
/// decides.
#[tactic(auto, using(crate::proofs::RefusalLemmas::place_decided))]
fn find_fault(names: &mut KnownNames<'_>, item: &Item, outside: Option<Frame>) -> Option<Fault>
    ensures value { option_map of_action result ≡ fault_at (role_of (item_of item.now)) (option_map frame_of outside)
        (names_at (role_of (item_of item.now)) (option_map frame_of outside) (known_names names.old)) }
    ensures names { known_names names.new ≡ names_left (option_map of_action result) (role_of (item_of item.now))
        (option_map frame_of outside) (known_names names.old) }
{
    let fault = fault_of(item, outside, names);
    if place_decides(fault) {
        return fault;
    }
    forget(names, item, outside);
    fault_of(item, outside, names)
}

/// Whether the form or the place of an item decides on it, so that its names are not asked for.
fn place_decides(fault: Option<Fault>) -> bool
    ensures { result ≡ place_decides (option_map of_action fault) }
{
    match fault {
        None | Some(Fault::UndeclaredVariable) => false,
        _ => true,
    }
}

/// The fault of an item that is mended.
fn mend_fault(kind: MendKind, outside: Option<Frame>) -> Option<Fault>
    ensures { (declares seen : List Name) → option_map of_action result ≡ fault_at
        (mend_kind kind (record { declares = declares; uses = [] })) (option_map frame_of outside) seen }
{
    match kind {
        MendKind::Absent => None,
        MendKind::Open(_) | MendKind::OpenBlock => level_fault(outside),
        MendKind::ElseBranch(branch) => {
            if may_take_else(Some(branch), outside) {
                level_fault(outside)
            } else {
                Some(Fault::OutOfPlace)
            }
        }
        MendKind::Close => {
            if outside.is_some() {
                None
            } else {
                Some(Fault::OutOfPlace)
            }
        }
    }
}

/// The fault of one level more.
fn level_fault(outside: Option<Frame>) -> Option<Fault>
    ensures { option_map of_action result
        ≡ first_fault true (leb most_levels (levels (option_map frame_of outside))) true }
{
    if levels_in(outside) >= MOST_LEVELS {
        Some(Fault::NestedTooDeeply)
    } else {
        None
    }
}

/// Takes in an item that is mended and not refused again.
#[tactic(auto, unfolding(crate::specs::computed::View::scopes_of))]
fn take_in_mend<'i>(
    alloc: Global,
    stack: &mut Vec<Frame>,
    scopes: &mut Scopes<'i>,
    line: u64,
    mend: &'i Mend<'i>,
) -> Result<(), AllocError>
    requires { fault_at (mend_of mend.now) (top (frames_in stack.old.items)) (scopes_of scopes.old).inner ≡ None }
    ensures frames { IfOk result (λ u. frames_in stack.new.items
        ≡ (after (mend_of mend.now) (standing stack.old.items scopes.old)).frames) }
    ensures names { IfOk result (λ u. scopes_of scopes.new
        ≡ (after (mend_of mend.now) (standing stack.old.items scopes.old)).known) }
{
    match mend.kind {
        MendKind::Absent => declare_all(&mut scopes.inner, mend.names.as_slice()),
        MendKind::Open(control) => open(
            stack,
            &mut scopes.inner,
            control,
            line,
            mend.names.as_slice(),
        ),
        MendKind::OpenBlock => enter_template(alloc, stack, scopes, Opening::Block, line),
        MendKind::ElseBranch(branch) => {
            if let Some(frame) = newest(stack) {
                scopes.inner.truncate(frame.part);
            }
            declare_all(&mut scopes.inner, mend.names.as_slice())?;
            pass_else(stack, Some(branch), scopes.inner.len())
        }
        MendKind::Close => {
            if let Some(frame) = newest(stack) {
                scopes.inner.truncate(frame.start);
            }
            leave(alloc, stack, scopes);
            Ok(())
        }
    }
}

/// Adds these names.
fn declare_all<'i>(names: &mut KnownNames<'i>, declared: &'i [&'i [u8]]) -> Result<(), AllocError>
    ensures { IfOk result (λ u. known_names names.new
        ≡ with_names (known_names names.old) (names_held declared.now).declares) }
{
    for name in declared {
        names.insert(*name)?;
    }
    Ok(())
}

/// Opens a control whose header declares these names.
fn open<'i>(
    stack: &mut Vec<Frame>,
    names: &mut KnownNames<'i>,
    control: Control,
    line: u64,
    declared: &'i [&'i [u8]],
) -> Result<(), AllocError>
    requires { levels (top (frames_in stack.old.items)) < most_levels }
    ensures frames { IfOk result (λ u. frames_in stack.new.items
        ≡ enter_opening (opening.control control) (names_held declared.now) (top (frames_in stack.old.items))
        (known_names names.old) ∷ frames_in stack.old.items) }
    ensures names { IfOk result (λ u. known_names names.new
        ≡ with_names (known_names names.old) (names_held declared.now).declares) }
{
    let outside = newest(stack);
    let start = names.len();
    declare_all(names, declared)?;
    stack.push(Frame {
        opening: Opening::Control(control),
        line,
        has_else: false,
        around: is_in_loop(outside),
        levels: levels_in(outside) + 1,
        start,
        part: part_of(control, start, names.len()),
    })?;
    Ok(())
}
