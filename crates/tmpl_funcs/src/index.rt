//! `index`.
ghost use Rattle.std.specs.Prelude.{◌≡◌, ◌∷◌, false, ok_or, option_map, pos, slice_get, unwrap_or};
ghost use Rattle.tmpl_values.specs.Elements.{values_of_items};
ghost use Rattle.tmpl_values.specs.Field.{entry_at};
ghost use Rattle.tmpl_values.specs.Value.{null, number};
ghost use Rattle.tmpl_funcs.specs.declared.fault.CallFault.TheVariants.{WrongKind};
ghost use Rattle.tmpl_values.specs.View.{is_made, items_of, val_of};
ghost use Rattle.tmpl_funcs.specs.View.{values_of};
ghost use Rattle.tmpl_funcs.specs.Answer.{IsBorrowed};
ghost use Rattle.tmpl_funcs.specs.computed.Answer.{IsAnswer};
ghost use Rattle.tmpl_funcs.specs.computed.Index.{place_among};
ghost use Rattle.tmpl_funcs.specs.Index.{number_of, found_at, element_at, indexed_by};
ghost use Rattle.tmpl_funcs.specs.Dispatch.{table_answer};
ghost use Rattle.tmpl_funcs.specs.declared.func.Func.{Func};

use crate::fault::CallFault;
use tmpl_values::{Cell, Data, Table, Val};

/// An item at indexes, from left to right; with no index the item itself.
pub(crate) fn index<'a>(item: Val<'a>, indexes: &[Cell<'_>]) -> Result<Val<'a>, CallFault>
    ensures table { IsAnswer (table_answer Func.Index (val_of item.entry ∷ values_of indexes.now)) result }
    ensures borrowed { is_made item.entry ≡ false → IsBorrowed result }
{
    match item {
        Val::Nothing | Val::Null => Err(CallFault::WrongKind),
        item => index_by(item, indexes),
    }
}

/// A value at indexes, from left to right.
fn index_by<'a>(first: Val<'a>, indexes: &[Cell<'_>]) -> Result<Val<'a>, CallFault>
    ensures table { IsAnswer (indexed_by (val_of first.entry) (values_of indexes.now)) result }
    ensures borrowed { is_made first.entry ≡ false → IsBorrowed result }
{
    let mut item = first;
    for index in indexes {
        item = item_at(&item, &index.val)?;
    }
    Ok(item)
}

/// A value at one index.
fn item_at<'a>(item: &Val<'a>, index: &Val<'_>) -> Result<Val<'a>, CallFault>
    ensures table { IsAnswer (element_at (val_of item.now) (val_of index.now)) result }
    ensures borrowed { IsBorrowed result }
{
    if let Some(bytes) = item.bytes() {
        return byte_at(bytes, number(index));
    }
    match item {
        Val::List(items) => list_item(items, number(index)),
        Val::Map(table) => map_entry(table, index.bytes()),
        Val::Nothing | Val::Null | Val::Bool(_) | Val::Num(_) | Val::Text(_) | Val::Made(_) => {
            Err(CallFault::WrongKind)
        }
    }
}

/// The number that a value is.
pub(crate) fn number(value: &Val<'_>) -> Option<i64>
    ensures { result ≡ number_of (val_of value.now) }
{
    match value {
        Val::Num(n) => Some(*n),
        Val::Nothing
        | Val::Null
        | Val::Bool(_)
        | Val::Text(_)
        | Val::Made(_)
        | Val::List(_)
        | Val::Map(_) => None,
    }
}

/// The byte of a text at a place, counted from 0.
fn byte_at<'a>(bytes: &[u8], place: Option<i64>) -> Result<Val<'a>, CallFault>
    ensures table { IsAnswer (found_at (λ k. option_map (λ b. number (pos b)) (slice_get bytes.now k)) place) result }
    ensures borrowed { IsBorrowed result }
{
    let i = place_among(place, bytes.len())?;
    Ok(Val::Num(i64::from(bytes[i])))
}

/// The item of a list at a place, counted from 0.
fn list_item<'a>(items: &'a [Data], place: Option<i64>) -> Result<Val<'a>, CallFault>
    ensures table { IsAnswer (found_at (slice_get (values_of_items (items_of items.now))) place) result }
    ensures borrowed { IsBorrowed result }
{
    let i = place_among(place, items.len())?;
    Ok(Val::of(&items[i]))
}

/// The place that a number names among this many, counted from 0.
fn place_among(place: Option<i64>, count: usize) -> Result<usize, CallFault>
    ensures { result ≡ place_among place count }
{
    let Some(place) = place else {
        return Err(CallFault::WrongKind);
    };
    if place < 0 {
        return Err(CallFault::OutOfRange);
    }
    let i = place as usize;
    if i < count {
        Ok(i)
    } else {
        Err(CallFault::OutOfRange)
    }
}

/// The entry of a map by its key, and null where it has none.
fn map_entry<'a>(table: &'a Table, key: Option<&[u8]>) -> Result<Val<'a>, CallFault>
    ensures table { IsAnswer
        (ok_or (option_map (λ k. unwrap_or (entry_at k table.now) null) (option_map (λ k. k.now) key.entry)) WrongKind)
        result }
    ensures borrowed { IsBorrowed result }
{
    let Some(key) = key else {
        return Err(CallFault::WrongKind);
    };
    match table.get(key) {
        Some(entry) => Ok(Val::of(entry)),
        None => Ok(Val::Null),
    }
}
