//! Fields, and the value of a field for which a map has no entry.
ghost use Rattle.std.specs.Prelude.{◌≡◌, false};
ghost use Rattle.tmpl_values.specs.Field.{field_at, missing, of_nothing};
ghost use Rattle.tmpl_values.specs.View.{is_made, val_of};
ghost use Rattle.tmpl_funcs.specs.Answer.{IsBorrowed};
ghost use Rattle.tmpl_meaning.specs.Pipeline.{chain, field_value};
ghost use Rattle.tmpl_meaning.specs.View.{value_seen};

use crate::fault::RunFaultKind;
use tmpl_values::{Bytes, Field, Val};

/// The value of a field for which a map has no entry. The words are those of the option `missingkey`
/// of Go's `text/template`; what each does with nothing and null is our own rule.
#[derive(Clone, Copy, Debug, PartialEq, Eq)]
pub enum MissingKey {
    /// Nothing.
    Default,
    /// Nothing, as `Default`.
    Invalid,
    /// Null.
    Zero,
    /// A fault.
    Error,
}

impl MissingKey {
    /// The field of the field of .. of a value, by these names.
    pub fn chain<'a>(self, value: Val<'a>, names: &'a [Bytes]) -> Result<Val<'a>, RunFaultKind<'a>>
        ensures value { value_seen result ≡ chain self names.now (val_of value.entry) }
        ensures borrowed { is_made value.entry ≡ false → IsBorrowed result }
    {
        let mut value = value;
        for name in names {
            value = self.field(&value, name.as_slice())?;
        }
        Ok(value)
    }

    /// The field of this name.
    pub fn field<'a>(self, value: &Val<'a>, name: &'a [u8]) -> Result<Val<'a>, RunFaultKind<'a>>
        ensures value { value_seen result ≡ field_value self name.now (field_at name.now (val_of value.now)) }
        ensures borrowed { IsBorrowed result }
    {
        match value.field(name) {
            Field::Found(found) => Ok(found),
            Field::Missing => self.absent_entry(name),
            Field::OfNothing => self.field_of_nothing(name),
            Field::NoField => Err(RunFaultKind::NoField(name)),
        }
    }

    /// The value of a field of this name of a map that has no such entry.
    fn absent_entry(self, name: &[u8]) -> Result<Val<'_>, RunFaultKind<'_>>
        ensures value { value_seen result ≡ field_value self name.now missing }
        ensures borrowed { IsBorrowed result }
    {
        match self {
            MissingKey::Default | MissingKey::Invalid => Ok(Val::Nothing),
            MissingKey::Zero => Ok(Val::Null),
            MissingKey::Error => Err(RunFaultKind::NoEntry(name)),
        }
    }

    /// The value of a field of nothing, which has no entries.
    fn field_of_nothing(self, name: &[u8]) -> Result<Val<'_>, RunFaultKind<'_>>
        ensures value { value_seen result ≡ field_value self name.now of_nothing }
        ensures borrowed { IsBorrowed result }
    {
        match self {
            MissingKey::Default | MissingKey::Invalid | MissingKey::Zero => Ok(Val::Nothing),
            MissingKey::Error => Err(RunFaultKind::NoEntry(name)),
        }
    }
}
