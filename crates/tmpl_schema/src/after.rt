//! What is known after nodes, and where they leave the range around them.
#![tactic(auto)]

ghost use Rattle.std.specs.Prelude.{◌≡◌, IfOk, Some};
ghost use Rattle.tmpl_schema.specs.computed.Check.{end_parts, join_left, leave_with, past, with_left};
ghost use Rattle.tmpl_schema.specs.computed.View.{after_of, known_of, known_seen, left_of};
ghost use Rattle.tmpl_shape.specs.computed.View.{base_of};

use crate::flow::FallThrough;
use crate::known::{Known, after_parts, copy_known, join_all, oldest};
use tmpl_shape::{Base, Cause, Trouble};

/// What is known after nodes.
#[derive(Drop)]
pub(crate) struct After {
    /// The variables where a run comes past them.
    pub(crate) known: Known,
    /// Those with which a `break` or a `continue` may leave the range around, if one may.
    pub(crate) left: Option<Known>,
}

impl After {
    /// After what leaves no range.
    pub(crate) fn past(known: Known) -> After
        ensures { after_of result ≡ past (known_of known) }
    {
        After { known, left: None }
    }
}

/// After a break or a continue, which leaves the range with the variables that were there at its head.
pub(crate) fn leave_with(
    base: &Base<'_>,
    known: &Known,
    head: Option<&Known>,
) -> Result<After, Trouble>
    ensures { IfOk result (λ a. leave_with (known_of known.now) (known_seen head.entry) ≡ Some (after_of a)) }
{
    match head {
        Some(head) => Ok(After {
            known: copy_known(known)?,
            left: Some(copy_known(oldest(known, head))?),
        }),
        None => Err(Trouble::may_fail(base.alloc, Cause::Variables)),
    }
}

/// The variables of both, where the second may be none.
pub(crate) fn with_left(
    base: &Base<'_>,
    known: &Known,
    left: &Option<Known>,
) -> Result<Known, Trouble>
    ensures { IfOk result (λ ks. with_left (base_of base.now) (known_of known.now) (left_of left.now) ≡ Some (known_of ks)) }
{
    match left {
        Some(left) => join_all(base, known, left),
        None => Ok(copy_known(known)?),
    }
}

/// The variables of both, where each may be none.
pub(crate) fn join_left(
    base: &Base<'_>,
    left: Option<Known>,
    more: Option<Known>,
) -> Result<Option<Known>, Trouble>
    ensures { IfOk result (λ ls. join_left (base_of base.now) (left_of left) (left_of more) ≡ Some (left_of ls)) }
{
    match left {
        Some(left) => Ok(Some(with_left(base, &left, &more)?)),
        None => Ok(more),
    }
}

/// After two parts of which a run may come past these.
pub(crate) fn end_parts(
    base: &Base<'_>,
    through: FallThrough,
    before: &Known,
    one: After,
    other: After,
) -> Result<After, Trouble>
    ensures { IfOk result (λ a. end_parts (base_of base.now) through (known_of before.now) (after_of one) (after_of other)
        ≡ Some (after_of a)) }
{
    let known = after_parts(base, through, before, &one.known, &other.known)?;
    let (After { left, .. }, After { left: more, .. }) = (one, other);
    Ok(After {
        known,
        left: join_left(base, left, more)?,
    })
}
