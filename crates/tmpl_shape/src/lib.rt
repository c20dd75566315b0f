//! Shapes: what may be known of a value before a run, and what is computed with that.
#![tactic(auto)]

mod call;
mod cause;
mod change;
mod constant;
mod effort;
mod field;
mod format;
mod inclusion;
mod intersection;
mod kind;
mod part;
mod shape;
mod test;
mod visit;

pub use call::call_shape;
pub use cause::{Cause, Trouble};
pub use change::{fill, is_never, join, null_gone, refine};
pub use constant::Constant;
pub use effort::Effort;
pub use field::{AbsentField, Key, chain_shape, index_shape};
pub use format::printf_shape;
pub use inclusion::{has_name, within};
pub use intersection::{Unmet, count_alternatives, meet, or_all, or_shape};
pub use kind::{Kind, Kinds, has_kind, kinds_of};
pub use part::part_shape;
pub use shape::{
    Base, Definition, Field, Fields, Schema, Shape, copy_counted, copy_name, copy_shape, either,
    list_of, put_field,
};
pub use test::{Test, shows_there};
pub use visit::{Visit, visit_of};
