//! Smaller values.

use crate::Result;
use serde_json::{Map, Value, put};
use std::alloc::Global;

/// The value without the part of this number: members and items are counted as they come, and those in them after each.
/// The number is left with what is not counted, so it is no more than 0 where a part was left out.
pub(crate) fn without(alloc: Global, value: &Value, number: &mut usize) -> Result<Value> {
    match value {
        Value::Array(items) => {
            let mut rest: Vec<Value> = Vec::new(alloc);
            for item in items {
                if !is_counted_out(number) {
                    rest.push(without(alloc, item, number)?)?;
                }
            }
            Ok(Value::Array(rest))
        }
        Value::Object(members) => {
            let mut rest: Map<String, Value> = Map::new(alloc);
            for (name, member) in members.iter() {
                if !is_counted_out(number) {
                    let member = without(alloc, member, number)?;
                    put(&mut rest, alloc, name.as_str(), member)?;
                }
            }
            Ok(Value::Object(rest))
        }
        _ => value.clone(),
    }
}

/// Counts a part. Gives whether it is the one that is left out.
pub(crate) fn is_counted_out(number: &mut usize) -> bool {
    let is_last = *number == 1;
    *number = number.saturating_sub(1);
    is_last
}
