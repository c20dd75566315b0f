//! Data from JSON: `serde_json` reads it, and its tree becomes data by value.
ghost use Rattle.std.specs.Prelude.{◌≡◌, ok_or};
ghost use Rattle.serde_json.specs.View.{view, items_view, members_view};
ghost use Rattle.tmpl_values.specs.Json.{tree_value, tree_items, tree_entries, not_whole, IsConverted, IsData};
ghost use Rattle.tmpl_values.specs.row.View.{value_of};

use crate::bytes::Bytes;
use crate::data::{Data, Items, Table};
use serde_json::{Map, Value};
use std::alloc::{AllocError, AllocFailed, Global};
use thiserror::Error;

/// Why bytes are no data.
#[derive(Clone, Copy, Debug, PartialEq, Eq, Error)]
pub enum DataFault {
    /// They are not UTF-8, or no JSON value, or nest deeper than 127.
    #[error("not JSON")]
    NotJson,
    /// A number is held as a float, as `1.5`, `1e3` and `-0` are, or is outside 64 signed bits.
    #[error("number not whole or out of range")]
    NotWhole,
    /// Memory was refused.
    #[error("out of memory")]
    OutOfMemory,
}

impl From<serde_json::Error> for DataFault {
    ghost use Rattle.serde_json.specs.Errors.{IsMemory};
    ghost use Rattle.tmpl_values.specs.declared.from_json.DataFault.{DataFault};

    ghost from_gives = { λ error fault. (IsMemory error → fault ≡ DataFault.OutOfMemory)
        × (¬ IsMemory error → fault ≡ DataFault.NotJson) };

    fn from(error: serde_json::Error) -> DataFault {
        if error.is_memory() {
            DataFault::OutOfMemory
        } else {
            DataFault::NotJson
        }
    }
}

impl From<AllocError> for DataFault {
    ghost use Rattle.tmpl_values.specs.declared.from_json.DataFault.{DataFault};

    ghost from_gives = { λ _ e. e ≡ DataFault.OutOfMemory };

    fn from(_: AllocError) -> DataFault {
        DataFault::OutOfMemory
    }
}

impl<T: Drop> From<AllocFailed<T>> for DataFault {
    ghost use Rattle.tmpl_values.specs.declared.from_json.DataFault.{DataFault};

    ghost from_gives = { λ _ e. e ≡ DataFault.OutOfMemory };

    fn from(_: AllocFailed<T>) -> DataFault {
        DataFault::OutOfMemory
    }
}

impl Data {
    /// The data that JSON bytes are, by our own profile: numbers are whole and have 64 signed bits,
    /// and a map stands by rising keys. Where a key stands twice in an object, its last value
    /// counts.
    pub fn from_json(alloc: Global, bytes: &[u8]) -> Result<Data, DataFault>
        ensures { IsData bytes.now result }
    {
        let value = Value::from_slice(alloc, bytes)?;
        data_of(alloc, value)
    }
}

/// The data of a JSON value, whose texts it takes over. `serde_json` nests no deeper than 127, so neither does this.
#[cycle(data)]
#[inline(always)]
fn data_of(alloc: Global, value: Value) -> Result<Data, DataFault>
    ensures { IsConverted value_of result (ok_or (tree_value (view value)) not_whole) }
{
    match value {
        Value::Null => Ok(Data::Null),
        Value::Bool(b) => Ok(Data::Bool(b)),
        Value::Number(number) => match number.as_i64() {
            Some(n) => Ok(Data::Num(n)),
            None => Err(DataFault::NotWhole),
        },
        Value::String(text) => Ok(Data::Text(Bytes::new(text.into_bytes()))),
        Value::Array(items) => Ok(Data::List(list_of(alloc, items)?)),
        Value::Object(members) => Ok(Data::Map(table_of(alloc, members)?)),
    }
}

/// The list of the items of an array. It takes as much room as the array had: so the allocator hands out the block that
/// the array before gave back, where one of another size is cut from a larger block.
#[cycle(data)]
fn list_of(alloc: Global, items: Vec<Value>) -> Result<Items, DataFault>
    ensures { IsConverted (λ items. items) result (ok_or (tree_items (items_view items.items)) not_whole) }
{
    let mut converted = Vec::with_capacity(alloc, items.capacity())?;
    for item in items {
        converted.push(data_of(alloc, item)?)?;
    }
    Ok(Items::new(converted))
}

/// The map of the members of an object, which stand by rising keys there too.
#[cycle(data)]
fn table_of(alloc: Global, members: Map<String, Value>) -> Result<Table, DataFault>
    ensures { IsConverted (λ table. table) result (ok_or (tree_entries (members_view members.entries)) not_whole) }
{
    let mut converted = Vec::with_capacity(alloc, members.len())?;
    for (key, member) in members {
        converted.push((Bytes::new(key.into_bytes()), data_of(alloc, member)?))?;
    }
    Ok(Table::new(converted))
}
