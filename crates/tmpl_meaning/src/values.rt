//! What a run asks of values.
ghost use Rattle.std.specs.Prelude.{◌≡◌, false};
ghost use Rattle.tmpl_values.specs.View.{is_made, val_of};
ghost use Rattle.tmpl_meaning.specs.Pipeline.{decides, without_null};

use tmpl_values::Val;

/// Whether a value decides an `or`, as the first that is not empty, or else an `and`, as the first that is.
pub fn decides(is_or: bool, value: &Val<'_>) -> bool
    ensures { result ≡ decides is_or (val_of value.now) }
{
    if is_or { value.truth() } else { !value.truth() }
}

/// The value itself; nothing where it is null.
pub fn without_null(value: Val<'_>) -> Val<'_>
    ensures value { val_of result ≡ without_null (val_of value.entry) }
    ensures borrowed { is_made value.entry ≡ false → is_made result ≡ false }
{
    match value {
        Val::Null => Val::Nothing,
        value => value,
    }
}
