//! Equality and order of values.
ghost use Rattle.std.specs.Prelude.{◌≡◌};
ghost use Rattle.std.specs.Cmp.Lexicographic.{slice_cmp};
ghost use Rattle.std.specs.Ordering.{is_lt, nat_cmp};
ghost use Rattle.tmpl_values.specs.View.{val_of};
ghost use Rattle.tmpl_values.specs.Compare.{equality, order, is_nothing, IsCompared};

use crate::value::Val;

/// Two values that can't be compared.
#[derive(Clone, Copy, Debug, PartialEq, Eq)]
pub struct CompareFault;

impl<'a> Val<'a> {
    /// Whether two values are equal ("Functions" in the documentation of `text/template`, at `eq`).
    ///
    /// Truth values, numbers and texts are compared among themselves. By our own rule nothing and
    /// null equal each other and differ from all else, and lists and maps can be compared with
    /// these alone. Any other two kinds are a fault.
    pub fn equal(&self, other: &Val<'_>) -> Result<bool, CompareFault>
        ensures { IsCompared (equality (val_of self.now) (val_of other.now)) result }
    {
        match (self, other) {
            (Val::Nothing | Val::Null, _) => Ok(other.is_nothing()),
            (_, Val::Nothing | Val::Null) => Ok(false),
            (Val::Bool(b), Val::Bool(c)) => Ok(b == c),
            (Val::Num(m), Val::Num(n)) => Ok(m == n),
            _ => match (self.bytes(), other.bytes()) {
                (Some(left), Some(right)) => Ok(left == right),
                _ => Err(CompareFault),
            },
        }
    }

    /// Whether this value is below the other: numbers by size, texts byte by byte ("Functions" in
    /// the documentation of `text/template`, at `lt`). All else is a fault.
    pub fn less(&self, other: &Val<'_>) -> Result<bool, CompareFault>
        ensures { IsCompared (order (val_of self.now) (val_of other.now)) result }
    {
        match (self, other) {
            (Val::Num(m), Val::Num(n)) => Ok(m < n),
            _ => match (self.bytes(), other.bytes()) {
                (Some(left), Some(right)) => Ok(is_below(left, right)),
                _ => Err(CompareFault),
            },
        }
    }

    /// Whether it is nothing or null.
    fn is_nothing(&self) -> bool
        ensures { result ≡ is_nothing (val_of self.now) }
    {
        matches!(self, Val::Nothing | Val::Null)
    }
}

/// Whether the left bytes are below the right ones.
#[tactic(auto, using(crate::proofs::BytesLemmas::bytes_order))]
fn is_below(left: &[u8], right: &[u8]) -> bool
    ensures { result ≡ is_lt (slice_cmp nat_cmp left.now right.now) }
{
    left < right
}
