//! What is known of the templates that are called.
#![tactic(auto)]

ghost use Rattle.std.specs.Prelude.{◌≡◌};
ghost use Rattle.tmpl_schema.specs.computed.View.{callee_seen, table_of};

use tmpl_shape::Shape;
use tmpl_values::Bytes;

/// What is known of a template that is called.
#[derive(Drop)]
pub(crate) enum Callee {
    /// It is handed values of this shape.
    Handed(Shape),
    /// It is not there, and its call is meant to stop the run.
    Absent,
}

/// A template that is called, by its name.
#[derive(Drop)]
pub(crate) struct Entry {
    pub(crate) name: Bytes,
    /// What is computed of its name, by which others are passed over quickly.
    pub(crate) mark: u64,
    pub(crate) callee: Callee,
}

/// A call of a template: its name, and the shape of what it is handed.
#[derive(Drop)]
pub(crate) struct Call {
    pub(crate) name: Bytes,
    pub(crate) shape: Shape,
}

/// What is known of the template of a name.
pub(crate) fn find_callee<'t>(table: &'t [Entry], name: &[u8]) -> Option<&'t Callee>
    ensures { callee_seen result ≡ table_of table.now name.now }
{
    for entry in table {
        if name == entry.name.as_slice() {
            return Some(&entry.callee);
        }
    }
    None
}
