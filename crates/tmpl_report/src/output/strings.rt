//! Values with other strings in them, which a format may not take.

use crate::Result;
use crate::samples::is_counted_out;
use serde_json::{Map, Value, put};
use std::alloc::Global;

/// Strings that break outputs in which they are not quoted, or are quoted for something else.
pub(super) static HOSTILE: [&str; 20] = [
    "\"", "'", "\\", "a b", "a\nb", ",", "#", ": ", "no", "1.10", "$a", "`a`", "{", "}", ";", "]",
    "- a", "<a>", "\u{85}", "",
];

/// How many strings a value has, of which this many levels are visited.
pub(super) fn count_strings(value: &Value, levels: usize) -> usize {
    if levels == 0 {
        return 0;
    }
    let mut count: usize = 0;
    match value {
        Value::String(_) => return 1,
        Value::Array(items) => {
            for item in items {
                count = count.saturating_add(count_strings(item, levels - 1));
            }
        }
        Value::Object(members) => {
            for (_, member) in members.iter() {
                count = count.saturating_add(count_strings(member, levels - 1));
            }
        }
        _ => {}
    }
    count
}

/// The value with another string in the place of the one of this number, counted from 1 as they come. The number is left
/// with what is not counted.
pub(super) fn with_string(
    alloc: Global,
    value: &Value,
    text: &str,
    number: &mut usize,
) -> Result<Value> {
    match value {
        Value::String(_) if is_counted_out(number) => {
            Ok(Value::String(String::from_str(alloc, text)?))
        }
        Value::Array(items) => {
            let mut all: Vec<Value> = Vec::new(alloc);
            for item in items {
                all.push(with_string(alloc, item, text, number)?)?;
            }
            Ok(Value::Array(all))
        }
        Value::Object(members) => {
            let mut all: Map<String, Value> = Map::new(alloc);
            for (name, member) in members.iter() {
                let member = with_string(alloc, member, text, number)?;
                put(&mut all, alloc, name.as_str(), member)?;
            }
            Ok(Value::Object(all))
        }
        _ => value.clone(),
    }
}
