//! The text of a value.
ghost use Rattle.std.specs.Prelude.{◌-◌, ◌^◌, ◌<◌, ◌++◌, codes};
ghost use Rattle.std.specs.List.{join_with_byte};
ghost use Rattle.std.specs.Fmt.{signed_decimal};
ghost use Rattle.tmpl_values.specs.row.View.{value_of, items_of, entries_of};
ghost use Rattle.tmpl_values.specs.View.{val_of};
ghost use Rattle.tmpl_values.specs.Put.{IsPut};
ghost use Rattle.tmpl_values.specs.Text.{text_of, inner_text, truth_text, item_texts, entry_texts};

use crate::bytes::Bytes;
use crate::data::Data;
use crate::put::Put;
use crate::value::Val;
use itoa::Buffer;

/// Puts the text that a value has as an action, as `fmt.Print` would ("Actions" in the
/// documentation of `text/template`).
///
/// Texts are raw, numbers decimal, a list is `[a b]`, and a map is `map[key:value key:value]` by
/// rising keys. By our own rule nothing and null are `<no value>`, and null inside a list or a map
/// is `<nil>`. It takes no memory, and fails only where `out` does.
pub fn put_text<P: Put>(value: &Val<'_>, out: &mut P) -> Result<(), P::Fault>
    requires { (P.so_far out.old).failures < 2 ^ 64 - 1 }
    ensures { IsPut result (P.so_far out.old) (P.so_far out.new) (text_of (val_of value.now)) }
{
    match value {
        Val::Nothing | Val::Null => out.put(b"<no value>"),
        Val::Bool(b) => put_truth(*b, out),
        Val::Num(n) => put_number(*n, out),
        Val::Text(text) => out.put(text),
        Val::Made(text) => out.put(text.as_slice()),
        Val::List(items) => put_items(items, out),
        Val::Map(table) => put_entries(table.as_slice(), out),
    }
}

/// Puts the text of a truth value.
fn put_truth<P: Put>(b: bool, out: &mut P) -> Result<(), P::Fault>
    requires { (P.so_far out.old).failures < 2 ^ 64 - 1 }
    ensures { IsPut result (P.so_far out.old) (P.so_far out.new) (truth_text b) }
{
    if b {
        out.put(b"true")
    } else {
        out.put(b"false")
    }
}

/// Puts a number in base 10.
fn put_number<P: Put>(n: i64, out: &mut P) -> Result<(), P::Fault>
    requires { (P.so_far out.old).failures < 2 ^ 64 - 1 }
    ensures { IsPut result (P.so_far out.old) (P.so_far out.new) (signed_decimal n) }
{
    let mut buffer = Buffer::new();
    out.put(buffer.format(n).as_bytes())
}

/// Puts the text that data has inside a list or a map.
#[cycle(put)]
fn put_inner<P: Put>(item: &Data, out: &mut P) -> Result<(), P::Fault>
    requires { (P.so_far out.old).failures < 2 ^ 64 - 1 }
    ensures { IsPut result (P.so_far out.old) (P.so_far out.new) (inner_text (value_of item.now)) }
{
    match item {
        Data::Null => out.put(b"<nil>"),
        Data::Bool(b) => put_truth(*b, out),
        Data::Num(n) => put_number(*n, out),
        Data::Text(text) => out.put(text.as_slice()),
        Data::List(items) => put_items(items.as_slice(), out),
        Data::Map(table) => put_entries(table.as_slice(), out),
    }
}

/// Puts a list.
#[cycle(put)]
fn put_items<P: Put>(items: &[Data], out: &mut P) -> Result<(), P::Fault>
    requires { (P.so_far out.old).failures < 2 ^ 64 - 1 }
    ensures { IsPut result (P.so_far out.old) (P.so_far out.new)
        (codes "[" ++ (join_with_byte 32 (item_texts (items_of items.now)) ++ codes "]")) }
{
    out.put(b"[")?;
    put_parted_items(items, out)?;
    out.put(b"]")
}

/// Puts items, parted by one space.
#[cycle(put)]
fn put_parted_items<P: Put>(items: &[Data], out: &mut P) -> Result<(), P::Fault>
    requires { (P.so_far out.old).failures < 2 ^ 64 - 1 }
    ensures { IsPut result (P.so_far out.old) (P.so_far out.new)
        (join_with_byte 32 (item_texts (items_of items.now))) }
{
    let mut lead: &[u8] = b"";
    for item in items {
        out.put(lead)?;
        put_inner(item, out)?;
        lead = b" ";
    }
    Ok(())
}

/// Puts a map.
#[cycle(put)]
fn put_entries<P: Put>(entries: &[(Bytes, Data)], out: &mut P) -> Result<(), P::Fault>
    requires { (P.so_far out.old).failures < 2 ^ 64 - 1 }
    ensures { IsPut result (P.so_far out.old) (P.so_far out.new)
        (codes "map[" ++ (join_with_byte 32 (entry_texts (entries_of entries.now)) ++ codes "]")) }
{
    out.put(b"map[")?;
    put_parted_entries(entries, out)?;
    out.put(b"]")
}

/// Puts entries, parted by one space.
#[cycle(put)]
fn put_parted_entries<P: Put>(entries: &[(Bytes, Data)], out: &mut P) -> Result<(), P::Fault>
    requires { (P.so_far out.old).failures < 2 ^ 64 - 1 }
    ensures { IsPut result (P.so_far out.old) (P.so_far out.new)
        (join_with_byte 32 (entry_texts (entries_of entries.now))) }
{
    let mut lead: &[u8] = b"";
    for (key, value) in entries {
        out.put(lead)?;
        put_entry(key.as_slice(), value, out)?;
        lead = b" ";
    }
    Ok(())
}

/// Puts an entry.
#[cycle(put)]
fn put_entry<P: Put>(key: &[u8], value: &Data, out: &mut P) -> Result<(), P::Fault>
    requires { (P.so_far out.old).failures < 2 ^ 64 - 1 }
    ensures { IsPut result (P.so_far out.old) (P.so_far out.new)
        (key.now ++ (codes ":" ++ inner_text (value_of value.now))) }
{
    out.put(key)?;
    out.put(b":")?;
    put_inner(value, out)
}
