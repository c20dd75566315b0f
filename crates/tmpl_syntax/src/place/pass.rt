//! What stands after an item: the frames of what is open, and the names that are known.
ghost use Rattle.std.specs.Prelude.{◌≡◌, ◌<◌, [], ◌∷◌, ◌+◌, IfOk, option_map, is_some, true, false, Some, None};
ghost use Rattle.tmpl_grammar.specs.View.{action_of, binding_of, header_of};
ghost use Rattle.tmpl_syntax.specs.computed.View.{frame_of, frames_in, item_of, known_names, scopes_of, opening_of};
ghost use Rattle.tmpl_syntax.specs.Place.Role as role;
ghost use Rattle.tmpl_syntax.specs.Place.Role.{act_of, names_of, role_of};
ghost use Rattle.tmpl_syntax.specs.Place.Body as body;
ghost use Rattle.tmpl_syntax.specs.Place.Open.{is_template};
ghost use Rattle.tmpl_syntax.specs.computed.Frames as spec;
ghost use Rattle.tmpl_syntax.specs.computed.Frames.{closed_names, ended_all, fault_at, is_too_deep, known_after};
ghost use Rattle.tmpl_syntax.specs.computed.Frames.{is_level, levels, names_at, opened_names};
ghost use Rattle.tmpl_syntax.specs.computed.Frames.{enter_opening, frames_after, parted_all};
ghost use Rattle.tmpl_syntax.specs.computed.Frames.{names_at, top, with_names};
ghost use Rattle.tmpl_syntax.specs.Place.Opening as opening;

use crate::item::{Item, ItemKind};
use crate::place::frame::{Frame, Opening};
use crate::place::names::KnownNames;
use crate::place::rules::{is_in_loop, levels_in};
use crate::place::scopes::Scopes;
use std::alloc::{AllocError, Global};
use tmpl_grammar::{Action, Binding, Branch, Control, Header};

/// The newest frame.
pub(crate) fn newest(stack: &Vec<Frame>) -> Option<Frame>
    ensures { option_map frame_of result ≡ top (frames_in stack.now.items) }
{
    stack.last().copied()
}

/// Forgets the names that an item does not see: an `else` ends the part before it, and an `end` the control.
pub(super) fn forget(names: &mut KnownNames<'_>, item: &Item, outside: Option<Frame>)
    ensures { known_names names.new
        ≡ names_at (role_of (item_of item.now)) (option_map frame_of outside) (known_names names.old) }
{
    let Some(frame) = outside else {
        return;
    };
    match &item.what {
        ItemKind::Action(action) => forget_at(names, action, frame),
        _ => {}
    }
}

/// Forgets the names that an action does not see.
fn forget_at(names: &mut KnownNames<'_>, action: &Action, frame: Frame)
    ensures { known_names names.new
        ≡ names_at (act_of (action_of action.now)) (Some (frame_of frame)) (known_names names.old) }
{
    match action {
        Action::Else | Action::ElseBranch(_, _) => names.truncate(frame.part),
        Action::End => names.truncate(frame.start),
        _ => {}
    }
}

/// Takes in an item that is not refused: the frames after it, and the names that are known there.
pub(super) fn take_in<'i>(
    alloc: Global,
    stack: &mut Vec<Frame>,
    scopes: &mut Scopes<'i>,
    item: &'i Item,
) -> Result<(), AllocError>
    requires { fault_at (role_of (item_of item.now)) (top (frames_in stack.old.items))
        (scopes_of scopes.old).inner ≡ None }
    ensures frames { IfOk result (λ u. frames_in stack.new.items
        ≡ frames_after (role_of (item_of item.now)) (frames_in stack.old.items) (scopes_of scopes.old).inner) }
    ensures names { IfOk result (λ u. scopes_of scopes.new
        ≡ known_after (role_of (item_of item.now)) (top (frames_in stack.old.items)) (scopes_of scopes.old)) }
{
    match &item.what {
        ItemKind::Action(action) => take_in_action(alloc, stack, scopes, item.line, action),
        _ => Ok(()),
    }
}

/// Takes in an action that is not refused.
#[tactic(auto, unfolding(crate::specs::computed::View::scopes_of))]
fn take_in_action<'i>(
    alloc: Global,
    stack: &mut Vec<Frame>,
    scopes: &mut Scopes<'i>,
    line: u64,
    action: &'i Action,
) -> Result<(), AllocError>
    requires { is_too_deep (act_of (action_of action.now)) (top (frames_in stack.old.items)) ≡ false }
    ensures frames { IfOk result (λ u. frames_in stack.new.items
        ≡ frames_after (act_of (action_of action.now)) (frames_in stack.old.items) (scopes_of scopes.old).inner) }
    ensures names { IfOk result (λ u. scopes_of scopes.new
        ≡ known_after (act_of (action_of action.now)) (top (frames_in stack.old.items)) (scopes_of scopes.old)) }
{
    match action {
        Action::Pipeline(header) => declare(&mut scopes.inner, &header.binding),
        Action::Open(control, header) => { enter(stack, &mut scopes.inner, *control, line, header) }
        Action::Else => pass_else(stack, None, scopes.inner.len()),
        Action::ElseBranch(branch, header) => {
            declare(&mut scopes.inner, &header.binding)?;
            pass_else(stack, Some(*branch), scopes.inner.len())
        }
        Action::End => {
            leave(alloc, stack, scopes);
            Ok(())
        }
        Action::Define(_) => enter_template(alloc, stack, scopes, Opening::Define, line),
        Action::Block(_, _) => enter_template(alloc, stack, scopes, Opening::Block, line),
        Action::Break | Action::Continue | Action::Template(_, _) => Ok(()),
    }
}

/// Closes what was opened last.
pub(super) fn leave(alloc: Global, stack: &mut Vec<Frame>, scopes: &mut Scopes<'_>)
    ensures frames { frames_in stack.new.items ≡ ended_all (frames_in stack.old.items) }
    ensures names { scopes_of scopes.new ≡ closed_names (top (frames_in stack.old.items)) (scopes_of scopes.old) }
{
    if let Some(frame) = stack.pop() {
        if frame.opening.is_template() {
            scopes.leave(alloc);
        }
    }
}

/// Opens a template.
pub(super) fn enter_template(
    alloc: Global,
    stack: &mut Vec<Frame>,
    scopes: &mut Scopes<'_>,
    opening: Opening,
    line: u64,
) -> Result<(), AllocError>
    requires template { is_template (opening_of opening) ≡ true }
    requires levels { is_level (opening_of opening) ≡ true
        → levels (top (frames_in stack.old.items)) < body.most_levels }
    ensures frames { IfOk result (λ u. frames_in stack.new.items
        ≡ enter_opening (opening_of opening) (role.names_given None) (top (frames_in stack.old.items))
        (scopes_of scopes.old).inner ∷ frames_in stack.old.items) }
    ensures names { IfOk result (λ u. scopes_of scopes.new
        ≡ opened_names (opening_of opening) [] (scopes_of scopes.old)) }
{
    let outside = newest(stack);
    scopes.enter(alloc)?;
    stack.push(Frame {
        opening,
        line,
        has_else: false,
        around: is_in_loop(outside),
        levels: levels_in(outside) + opening.levels(),
        start: 0,
        part: 0,
    })?;
    Ok(())
}

/// Adds the names that a header declares.
fn declare<'i>(names: &mut KnownNames<'i>, binding: &'i Binding) -> Result<(), AllocError>
    ensures { IfOk result (λ u. known_names names.new
        ≡ with_names (known_names names.old) (role.declared_by (binding_of binding.now))) }
{
    match binding {
        Binding::Declare(name) => {
            names.insert(name.as_slice())?;
        }
        Binding::DeclarePair(pair) => {
            names.insert(pair.key.as_slice())?;
            names.insert(pair.element.as_slice())?;
        }
        Binding::Unbound | Binding::Assign(_) => {}
    }
    Ok(())
}

/// Opens a control.
fn enter<'i>(
    stack: &mut Vec<Frame>,
    names: &mut KnownNames<'i>,
    control: Control,
    line: u64,
    header: &'i Header,
) -> Result<(), AllocError>
    requires { levels (top (frames_in stack.old.items)) < body.most_levels }
    ensures frames { let h = names_of (header_of header.now) in IfOk result (λ u. frames_in stack.new.items
        ≡ enter_opening (opening.control control) h (top (frames_in stack.old.items)) (known_names names.old)
        ∷ frames_in stack.old.items) }
    ensures names { let h = names_of (header_of header.now) in IfOk result (λ u. known_names names.new
        ≡ with_names (known_names names.old) h.declares) }
{
    let outside = newest(stack);
    let start = names.len();
    declare(names, &header.binding)?;
    stack.push(Frame {
        opening: Opening::Control(control),
        line,
        has_else: false,
        around: is_in_loop(outside),
        levels: levels_in(outside) + 1,
        start,
        part: part_of(control, start, names.len()),
    })?;
    Ok(())
}

/// How many names an else part sees, of those before the header and with it: a range's own are not seen there.
pub(super) fn part_of(control: Control, before: usize, after: usize) -> usize
    ensures { result ≡ spec.part_of control before after }
{
    match control {
        Control::If | Control::With => after,
        Control::Range => before,
    }
}

/// Begins an else part of the newest control, with a control of its own or with none, where this many names are known.
pub(super) fn pass_else(
    stack: &mut Vec<Frame>,
    branch: Option<Branch>,
    part: usize,
) -> Result<(), AllocError>
    requires { is_some branch ≡ true → levels (top (frames_in stack.old.items)) < body.most_levels }
    ensures { IfOk result (λ u. frames_in stack.new.items
        ≡ parted_all (is_some branch) part (frames_in stack.old.items)) }
{
    if let Some(frame) = stack.pop() {
        stack.push(match branch {
            None => Frame {
                has_else: true,
                part,
                ..frame
            },
            Some(_) => Frame {
                levels: frame.levels + 1,
                part,
                ..frame
            },
        })?;
    }
    Ok(())
}
