//! Data: what a JSON file holds.
ghost use Rattle.std.specs.Prelude.{◌≡◌, MatchOption, None, Some};
ghost use Rattle.tmpl_values.specs.Field.{entry_at};
ghost use Rattle.tmpl_values.specs.row.View.{value_of, entries_of};

use crate::bytes::Bytes;
use std::marker::Model;

/// A JSON value whose numbers are whole and whose maps stand in the order of their keys.
#[cycle(data)]
#[derive(Drop)]
pub enum Data {
    Null,
    Bool(bool),
    Num(i64),
    Text(Bytes),
    List(Items),
    Map(Table),
}

/// Among this many entries a key is found sooner by a look at each than by halves.
const FEW: usize = 8;

/// The items of a list, in order.
#[cycle(data)]
#[derive(Drop)]
pub struct Items {
    items: Vec<Data>,
}

/// The entries of a map. Their keys rise in the order of their bytes, so no two are the same.
#[cycle(data)]
#[derive(Drop)]
pub struct Table {
    entries: Vec<(Bytes, Data)>,
}

impl Model for Items {
    ghost use Rattle.tmpl_values.specs.Value.{Items};
    ghost use Rattle.tmpl_values.specs.computed.Weight.{items_weight};

    ghost Value = { Items };

    ghost use Rattle.tmpl_values.specs.computed.Codes.{items_coded};

    ghost coded = { items_coded };

    ghost use Rattle.tmpl_values.specs.row.View.{items_of};

    ghost view = { λ r. items_of r.items.items };

    ghost size = { items_weight };

    ghost use Rattle.tmpl_values.specs.computed.Falls.{deep-row};

    ghost size_decreases = { λ r h. deep-row r.items.items };
}

impl Model for Table {
    ghost use Rattle.tmpl_values.specs.Value.{Entries, AreRising};
    ghost use Rattle.tmpl_values.specs.computed.Weight.{entries_weight};

    ghost Value = { Entries };

    ghost use Rattle.tmpl_values.specs.computed.Codes.{entries_coded};

    ghost coded = { entries_coded };

    ghost use Rattle.tmpl_values.specs.row.View.{entries_of};

    ghost view = { λ t. entries_of t.entries.items };

    ghost invariant = { λ t. AreRising (entries_of t.entries.items) };

    ghost size = { entries_weight };

    ghost use Rattle.tmpl_values.specs.computed.Falls.{deep-table};

    ghost size_decreases = { λ t h. deep-table t.entries.items };
}

impl Items {
    ghost use Rattle.tmpl_values.specs.row.View.{items_of};

    /// The list of these items.
    pub(crate) fn new(items: Vec<Data>) -> Items
        ensures { result ≡ items_of items.items }
    {
        Items { items }
    }

    /// The items.
    pub(crate) fn as_slice(&self) -> &[Data]
        ensures { items_of result.now ≡ self.now }
    {
        self.items.as_slice()
    }
}

impl Table {
    ghost use Rattle.tmpl_values.specs.Value.{AreRising};

    /// The map of these entries, whose keys rise.
    pub(crate) fn new(entries: Vec<(Bytes, Data)>) -> Table
        requires { AreRising (entries_of entries.items) }
        ensures { result ≡ entries_of entries.items }
    {
        Table { entries }
    }

    /// The entries, by rising keys.
    pub fn as_slice(&self) -> &[(Bytes, Data)]
        ensures same { entries_of result.now ≡ self.now }
        ensures rising { AreRising self.now }
    {
        self.entries.as_slice()
    }

    /// The value of this key, found by a look at each of few entries, and by halves in more.
    pub fn get(&self, key: &[u8]) -> Option<&Data>
        ensures { MatchOption result
            (entry_at key.now self.now ≡ None)
            (λ d. entry_at key.now self.now ≡ Some (value_of d.now)) }
    {
        let entries = self.as_slice();
        if entries.len() <= FEW {
            return first_of(entries, key);
        }
        match entries.binary_search_by(|entry| entry.0.as_slice().cmp(&key)) {
            Ok(place) => Some(&entries[place].1),
            Err(_) => None,
        }
    }
}

/// The value of the first entry of this key.
fn first_of<'d>(entries: &'d [(Bytes, Data)], key: &[u8]) -> Option<&'d Data>
    ensures { MatchOption result
        (entry_at key.now (entries_of entries.now) ≡ None)
        (λ d. entry_at key.now (entries_of entries.now) ≡ Some (value_of d.now)) }
{
    for (name, value) in entries {
        if name.as_slice() == key {
            return Some(value);
        }
    }
    None
}
