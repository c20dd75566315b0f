//! The values of a run.
ghost use Rattle.std.specs.Prelude.{◌≡◌, ◌^◌, ◌<◌, ◌≤◌, length, pos, slice_range, true, false};
ghost use Rattle.std.specs.Prelude.{IfOk, IfSome, option_map};
ghost use Rattle.std.specs.Int.{int_gap};
ghost use Rattle.tmpl_values.specs.Value.{number, string, sequence, mapping};
ghost use Rattle.tmpl_values.specs.View.{value_of, items_of, entries_of, val_of, is_kept, is_made, field_of};
ghost use Rattle.tmpl_values.specs.View.{is_borrowed, element_of, IsShared};
ghost use Rattle.tmpl_values.specs.Truth.{truth};
ghost use Rattle.tmpl_values.specs.Field.{field_at};
ghost use Rattle.tmpl_values.specs.Elements.{elements, item_at, values_of_items, pairs};
ghost use Rattle.tmpl_values.specs.Item.{bytes_of, size_of, HasPart, part_of, in_sequence};

use crate::bytes::Bytes;
use crate::data::{Data, Table};
use crate::field::Field;
use crate::made::Made;
use std::alloc::{AllocError, Global};

/// A value of a template. It borrows from the data and from the template's constants.
#[derive(Drop)]
pub enum Val<'a> {
    /// No value at all, as the dot of a run without data.
    Nothing,
    /// A null that the data holds.
    Null,
    Bool(bool),
    Num(i64),
    Text(&'a [u8]),
    /// A text that a function made.
    Made(Made),
    List(&'a [Data]),
    Map(&'a Table),
}

/// One place of a lent stack: a value, and a number beside it.
#[derive(Drop)]
pub struct Cell<'a> {
    pub val: Val<'a>,
    pub num: u64,
}

impl<'a> Val<'a> {
    /// The value of data.
    pub fn of(datum: &'a Data) -> Val<'a>
        ensures value { val_of result ≡ value_of datum.now }
        ensures borrowed { is_made result ≡ false }
    {
        match datum {
            Data::Null => Val::Null,
            Data::Bool(b) => Val::Bool(*b),
            Data::Num(n) => Val::Num(*n),
            Data::Text(text) => Val::Text(text.as_slice()),
            Data::List(items) => Val::List(items.as_slice()),
            Data::Map(table) => Val::Map(table),
        }
    }

    /// Whether the value is not empty, as `if` has it: empty are false, 0, nothing, null, and a
    /// text, list or map of length zero ("Actions" in the documentation of `text/template`).
    #[tactic(auto, using(crate::proofs::ItemLemmas::counts))]
    pub fn truth(&self) -> bool
        ensures { result ≡ truth (val_of self.now) }
    {
        match self {
            Val::Nothing | Val::Null => false,
            Val::Bool(b) => *b,
            Val::Num(n) => *n != 0,
            Val::Text(text) => !text.is_empty(),
            Val::Made(text) => !text.as_slice().is_empty(),
            Val::List(items) => !items.is_empty(),
            Val::Map(table) => !table.as_slice().is_empty(),
        }
    }

    /// The field of this name: the entry of a map under this key ("Arguments" in the documentation
    /// of `text/template`). That nothing has fields, and null none, is our own rule.
    pub fn field(&self, name: &[u8]) -> Field<'a>
        ensures value { field_of result ≡ field_at name.now (val_of self.now) }
        ensures borrowed { is_borrowed result ≡ true }
    {
        match self {
            Val::Nothing => Field::OfNothing,
            Val::Map(table) => match table.get(name) {
                Some(value) => Field::Found(Val::of(value)),
                None => Field::Missing,
            },
            Val::Null => Field::NoField,
            Val::Bool(_) | Val::Num(_) | Val::Text(_) | Val::Made(_) | Val::List(_) => {
                Field::NoField
            }
        }
    }

    /// The index or key at a place, and the element: the items of a list in order, from 0 on,
    /// those of a map by rising keys, and the whole numbers from 0 to before a number, each after
    /// itself ("Actions" in the documentation of `text/template`, at `range`; the numbers as Go
    /// 1.24 has them). A number below 1, and other kinds, have none.
    pub fn item(&self, i: u64) -> Option<(Val<'a>, Val<'a>)>
        ensures value { option_map element_of result ≡ item_at i (val_of self.now) }
        ensures borrowed { IfSome result (λ p. (is_made p.0 ≡ false) × (is_made p.1 ≡ false)) }
    {
        match self {
            Val::Num(n) => number_item(*n, i),
            Val::List(items) => list_item(items, i as usize),
            Val::Map(table) => map_item(table.as_slice(), i as usize),
            Val::Nothing | Val::Null | Val::Bool(_) | Val::Text(_) | Val::Made(_) => None,
        }
    }

    /// How many elements a range visits of the value, the numbers below it where it is a number;
    /// none where it may not be ranged over.
    #[tactic(auto, using(crate::proofs::ElementLemmas::counts))]
    pub fn element_count(&self) -> Option<u64>
        ensures { result ≡ option_map length (elements (val_of self.now)) }
    {
        match self {
            Val::Nothing | Val::Null => Some(0),
            Val::Num(n) => Some(count_below(*n)),
            Val::List(_) | Val::Map(_) => self.size(),
            Val::Bool(_) | Val::Text(_) | Val::Made(_) => None,
        }
    }

    /// How many elements a range with two variables visits of the value; none where it may not be
    /// ranged over so, as a number may not.
    pub fn pair_count(&self) -> Option<u64>
        ensures { result ≡ option_map length (pairs (val_of self.now)) }
    {
        match self {
            Val::Num(_) => None,
            _ => self.element_count(),
        }
    }

    /// The same value once more. It takes no memory but for a made text that is not ready to be
    /// shared, of which it takes a copy; the count of owners of one that is may be refused.
    pub fn share(&self) -> Result<Val<'a>, AllocError>
        ensures same { IsShared self.now result }
        ensures kept { IfOk result (λ v. is_kept v ≡ is_kept self.now) }
    {
        match self {
            Val::Nothing => Ok(Val::Nothing),
            Val::Null => Ok(Val::Null),
            Val::Bool(b) => Ok(Val::Bool(*b)),
            Val::Num(n) => Ok(Val::Num(*n)),
            Val::Text(text) => Ok(Val::Text(text)),
            Val::Made(text) => Ok(Val::Made(text.share()?)),
            Val::List(items) => Ok(Val::List(items)),
            Val::Map(table) => Ok(Val::Map(table)),
        }
    }

    /// The same value, of which `share` copies nothing: for what is kept in a variable or as dot.
    /// It takes memory for a made text alone.
    pub fn into_shared(self, alloc: Global) -> Result<Val<'a>, AllocError>
        ensures same { IsShared self.entry result }
        ensures kept { IfOk result (λ v. is_kept v ≡ true) }
    {
        match self {
            Val::Made(text) => Ok(Val::Made(text.into_shared(alloc)?)),
            other => Ok(other),
        }
    }

    /// A made text of these bytes that can be shared: `share` copies nothing of it. It takes memory
    /// for the count of its owners.
    pub fn made(bytes: Vec<u8>) -> Result<Val<'a>, AllocError>
        ensures same { IfOk result (λ v. (val_of v ≡ string bytes.items) × (is_made v ≡ true)) }
        ensures kept { IfOk result (λ v. is_kept v ≡ true) }
    {
        let alloc = *bytes.allocator();
        Val::buffer(bytes).into_shared(alloc)
    }

    /// A made text of these bytes, which it owns alone until it is made ready to be shared, for
    /// what is mostly put out at once. It takes no memory of its own.
    pub fn buffer(bytes: Vec<u8>) -> Val<'a>
        ensures value { val_of result ≡ string bytes.items }
        ensures kind { is_made result ≡ true }
    {
        Val::Made(Made::new(bytes))
    }

    /// The bytes of a text, made or not. Other kinds have none.
    pub fn bytes(&self) -> Option<&[u8]>
        ensures { option_map (λ b. b.now) result ≡ bytes_of (val_of self.now) }
    {
        match self {
            Val::Text(text) => Some(text),
            Val::Made(text) => Some(text.as_slice()),
            Val::Nothing | Val::Null | Val::Bool(_) | Val::Num(_) | Val::List(_) | Val::Map(_) => {
                None
            }
        }
    }

    /// How many bytes a text has, or how many items a list or a map has ("Functions" in the
    /// documentation of `text/template`, at `len`), which is below 2^63. Other kinds have no size.
    #[tactic(auto, using(crate::proofs::ItemLemmas::counts))]
    pub fn size(&self) -> Option<u64>
        ensures value { result ≡ size_of (val_of self.now) }
        ensures fits { IfSome result (λ n. n < 2 ^ 63) }
    {
        match self {
            Val::Text(text) => Some(text.len() as u64),
            Val::Made(text) => Some(text.as_slice().len() as u64),
            Val::List(items) => Some(items.len() as u64),
            Val::Map(table) => Some(table.as_slice().len() as u64),
            Val::Nothing | Val::Null | Val::Bool(_) | Val::Num(_) => None,
        }
    }

    /// The bytes of a text or the items of a list, from place i to before place j ("Functions" in
    /// the documentation of `text/template`, at `slice`). It shares them and copies nothing.
    pub fn part(self, i: u64, j: u64) -> Val<'a>
        requires { HasPart i j (val_of self) }
        ensures value { val_of result ≡ part_of i j (val_of self.entry) }
        ensures kind { is_made result ≡ is_made self.entry }
    {
        match self {
            Val::Text(text) => Val::Text(&text[i as usize..j as usize]),
            Val::Made(text) => Val::Made(text.part(i as usize, j as usize)),
            Val::List(items) => Val::List(items_between(items, i as usize, j as usize)),
            other => other,
        }
    }
}

/// How many whole numbers there are from 0 to before this one: none where it is below 1.
pub fn count_below(n: i64) -> u64
    ensures value { result ≡ int_gap (pos 0) n }
    ensures fits { result < 2 ^ 63 }
{
    if n < 0 { 0 } else { n as u64 }
}

/// The whole number at a place, if it is below this one, after itself.
fn number_item<'a>(n: i64, i: u64) -> Option<(Val<'a>, Val<'a>)>
    ensures value { option_map element_of result ≡ item_at i (number n) }
    ensures borrowed { IfSome result (λ p. (is_made p.0 ≡ false) × (is_made p.1 ≡ false)) }
{
    if i < count_below(n) {
        Some((Val::Num(i as i64), Val::Num(i as i64)))
    } else {
        None
    }
}

/// The item at a place, after its index.
fn list_item<'a>(items: &'a [Data], i: usize) -> Option<(Val<'a>, Val<'a>)>
    ensures value { option_map element_of result ≡ item_at i (sequence (items_of items.now)) }
    ensures borrowed { IfSome result (λ p. (is_made p.0 ≡ false) × (is_made p.1 ≡ false)) }
{
    if i < items.len() {
        Some((Val::Num(i as i64), Val::of(&items[i])))
    } else {
        None
    }
}

/// The value at a place, after its key.
fn map_item<'a>(entries: &'a [(Bytes, Data)], i: usize) -> Option<(Val<'a>, Val<'a>)>
    ensures value { option_map element_of result ≡ item_at i (mapping (entries_of entries.now)) }
    ensures borrowed { IfSome result (λ p. (is_made p.0 ≡ false) × (is_made p.1 ≡ false)) }
{
    if i < entries.len() {
        let (key, value) = &entries[i];
        Some((Val::Text(key.as_slice()), Val::of(value)))
    } else {
        None
    }
}

/// The items from place i to before place j.
fn items_between(items: &[Data], i: usize, j: usize) -> &[Data]
    requires { (i ≤ j) × (j ≤ length items.now) }
    ensures { items_of result.now ≡ in_sequence (slice_range (values_of_items (items_of items.now)) i j) }
{
    &items[i..j]
}
