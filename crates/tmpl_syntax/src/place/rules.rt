//! The fault of an action in its place.
ghost use Rattle.std.specs.Prelude.{◌≡◌, Some, option_map, true};
ghost use Rattle.tmpl_grammar.specs.View.{action_of};
ghost use Rattle.tmpl_syntax.specs.computed.View.{frame_of, item_of, known_names, opening_of};
ghost use Rattle.tmpl_syntax.specs.Place.Role.{act_of, nested, role_of};
ghost use Rattle.tmpl_syntax.specs.Place.Body as body;
ghost use Rattle.tmpl_syntax.specs.computed.Fault.{of_action};
ghost use Rattle.tmpl_syntax.specs.computed.Frames.{fault_at, fault_in, first_fault, in_loop, is_placed, is_too_deep};
ghost use Rattle.tmpl_syntax.specs.computed.Frames.{levels, takes_else};

use crate::fault::Fault;
use crate::item::{Item, ItemKind};
use crate::place::frame::{Frame, Opening};
use crate::place::names::KnownNames;
use crate::place::uses::knows_its_names;
use tmpl_grammar::{Action, Branch, Control};

/// The most levels that may stand (our own limit): an open control is one, and an else branch up to its `end`.
pub(super) const MOST_LEVELS: usize = 500;

/// The fault of an item, if it has one.
pub(crate) fn fault_of(item: &Item, outside: Option<Frame>, names: &KnownNames<'_>) -> Option<Fault>
    ensures { option_map of_action result
        ≡ fault_at (role_of (item_of item.now)) (option_map frame_of outside) (known_names names.now) }
{
    match &item.what {
        ItemKind::Text(_) => None,
        ItemKind::Unreadable => Some(Fault::Unreadable),
        ItemKind::Unread => Some(Fault::NotAnAction),
        ItemKind::TooDeep(branch) => Some(deep_fault(*branch, outside)),
        ItemKind::Action(action) => action_fault(action, outside, names),
    }
}

/// The first fault of an action, in the order in which they are asked.
fn action_fault(action: &Action, outside: Option<Frame>, names: &KnownNames<'_>) -> Option<Fault>
    ensures { option_map of_action result
        ≡ fault_in (act_of (action_of action.now)) (option_map frame_of outside) (known_names names.now) }
{
    if !is_in_place(action, outside) {
        Some(Fault::OutOfPlace)
    } else if is_deep(action, outside) {
        Some(Fault::NestedTooDeeply)
    } else if !knows_its_names(action, names) {
        Some(Fault::UndeclaredVariable)
    } else {
        None
    }
}

/// The fault of an action whose parentheses nest too deep, of an else branch by its control: its place is looked at
/// first, and only an else branch may be out of place.
fn deep_fault(branch: Option<Branch>, outside: Option<Frame>) -> Fault
    ensures { Some (of_action result)
        ≡ first_fault (is_placed (nested branch) (option_map frame_of outside)) true true }
{
    if branch.is_none() || may_take_else(branch, outside) {
        Fault::NestedTooDeeply
    } else {
        Fault::OutOfPlace
    }
}

/// Whether an action may stand there.
fn is_in_place(action: &Action, outside: Option<Frame>) -> bool
    ensures { result ≡ is_placed (act_of (action_of action.now)) (option_map frame_of outside) }
{
    match action {
        Action::Pipeline(_) | Action::Open(_, _) | Action::Template(_, _) | Action::Block(_, _) =>
            true,
        Action::Define(_) => outside.is_none(),
        Action::Else => may_take_else(None, outside),
        Action::ElseBranch(branch, _) => may_take_else(Some(*branch), outside),
        Action::End => outside.is_some(),
        Action::Break | Action::Continue => is_in_loop(outside),
    }
}

/// Whether an else that begins so, with a control or with none, may stand there.
pub(super) fn may_take_else(branch: Option<Branch>, outside: Option<Frame>) -> bool
    ensures { result ≡ takes_else branch (option_map frame_of outside) }
{
    match outside {
        Some(frame) => may_join(branch, frame.opening) && !frame.has_else,
        None => false,
    }
}

/// Whether an else that begins so may belong to what is opened so.
fn may_join(branch: Option<Branch>, opening: Opening) -> bool
    ensures { result ≡ body.joins branch (opening_of opening) }
{
    match branch {
        None => matches!(opening, Opening::Control(_)),
        Some(Branch::If) => matches!(opening, Opening::Control(Control::If)),
        Some(Branch::With) => matches!(opening, Opening::Control(Control::With)),
    }
}

/// Whether a break may stand there.
pub(super) fn is_in_loop(outside: Option<Frame>) -> bool
    ensures { result ≡ in_loop (option_map frame_of outside) }
{
    match outside {
        None => false,
        Some(frame) => match frame.opening {
            Opening::Control(Control::If | Control::With) => frame.around,
            Opening::Control(Control::Range) => !frame.has_else || frame.around,
            Opening::Define | Opening::Block => false,
        },
    }
}

/// Whether an action is a level more than may stand there.
fn is_deep(action: &Action, outside: Option<Frame>) -> bool
    ensures { result ≡ is_too_deep (act_of (action_of action.now)) (option_map frame_of outside) }
{
    adds_level(action) && levels_in(outside) >= MOST_LEVELS
}

/// Whether an action opens a level.
fn adds_level(action: &Action) -> bool
    ensures { result ≡ body.opens_level (act_of (action_of action.now)) }
{
    match action {
        Action::Open(_, _) | Action::ElseBranch(_, _) | Action::Block(_, _) => true,
        _ => false,
    }
}

/// How many levels stand there.
pub(super) fn levels_in(outside: Option<Frame>) -> usize
    ensures { result ≡ levels (option_map frame_of outside) }
{
    match outside {
        Some(frame) => frame.levels,
        None => 0,
    }
}
