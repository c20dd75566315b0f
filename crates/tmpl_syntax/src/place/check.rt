//! Whether the actions of a file stand where they may.
ghost use Rattle.std.specs.Prelude.{◌≡◌, ℕ, List, map};
ghost use Rattle.tmpl_syntax.specs.computed.Begun.{StartsRight};
ghost use Rattle.tmpl_syntax.specs.computed.View.{item_of};
ghost use Rattle.tmpl_syntax.specs.computed.Parse as spec;
ghost use Rattle.tmpl_syntax.specs.computed.Parse.{IsChecked};

use crate::fault::{ParseKind, Refusal};
use crate::item::Item;
use crate::name_hash::NameHash;
use crate::place::frame::Frame;
use crate::place::pass::{forget, newest, take_in};
use crate::place::rules::fault_of;
use crate::place::scopes::Scopes;
use std::alloc::Global;

/// Refuses the first action that is refused, or else at its last line a file in which something is open at the end. The
/// names in it are hashed so.
#[tactic(auto, unfolding(crate::specs::computed::View::scopes_of))]
pub(crate) fn check(
    alloc: Global,
    hash: NameHash,
    items: &[Item],
    bytes: &[u8],
) -> Result<(), Refusal>
    ensures checked { IsChecked bytes.now (map item_of items.now) result }
    ensures starts { (file : List ℕ) → StartsRight file result }
{
    let mut stack: Vec<Frame> = Vec::new(alloc);
    let mut scopes = Scopes::new(alloc, hash);
    for item in items {
        let outside = newest(&stack);
        forget(&mut scopes.inner, item, outside);
        if let Some(fault) = fault_of(item, outside, &scopes.inner) {
            return Err(Refusal {
                line: item.line,
                start: item.start,
                kind: fault.kind(),
                first: 0,
            });
        }
        take_in(alloc, &mut stack, &mut scopes, item)?;
    }
    if stack.is_empty() {
        Ok(())
    } else {
        Err(Refusal {
            line: last_line(bytes),
            start: bytes.len(),
            kind: ParseKind::OpenAtEnd,
            first: 0,
        })
    }
}

/// The line, counted from 1, on which the last newline leaves the end of the file.
pub(crate) fn last_line(bytes: &[u8]) -> u64
    ensures { result ≡ spec.last_line bytes.now }
{
    bytes.iter().filter(|b| **b == b'\n').count() as u64 + 1
}
