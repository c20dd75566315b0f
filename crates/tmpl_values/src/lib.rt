//! Values of templates: data from JSON, what a template may ask of a value, its text and its quote.
#![tactic(auto)]

mod bytes;
mod compare;
mod data;
mod field;
mod from_json;
mod growing;
mod hex;
mod laws;
mod made;
mod owned_bytes;
mod put;
mod quote;
mod rune;
mod text;
mod value;

pub use bytes::Bytes;
pub use compare::CompareFault;
pub use data::{Data, Items, Table};
pub use field::Field;
pub use from_json::DataFault;
pub use growing::{add_quote, add_text};
pub use hex::digit;
pub use laws::{data_is_bounded, one_list_of_runes};
pub use made::Made;
pub use put::Put;
pub use quote::put_quoted;
pub use rune::first_char;
pub use text::put_text;
pub use value::{Cell, Val, count_below};
