//! Template files read into trees, and the set of templates.
#![tactic(auto)]

mod blank;
mod build;
mod column;
mod examine;
mod fault;
mod found;
mod item;
mod laws;
mod name_hash;
mod parse;
mod place;
mod print;
mod refused;
mod set;
mod site;
mod text;
mod tree;

pub use column::Place;
pub use examine::examine_file;
pub use fault::{ParseFault, ParseKind};
pub use laws::{
    accepted_back, accepted_mended, bounded_need, cut_back, first_refusal, formed, more_branches,
    one_list_of_items, one_outcome, one_spelling, one_verdict, printable, printed_back, set_back,
};
pub use name_hash::NameHash;
pub use parse::{MOST_BYTES, base_name, parse_file, parse_owned};
pub use place::frame::{Open, Opening};
pub use print::{print_set, print_tree};
pub use refused::{About, Refused};
pub use set::{Names, Set};
pub use text::Text;
pub use tmpl_grammar::{
    Binding, Command, Control, Header, Operand, Pair, Pipeline, one_action, one_constant,
    one_operand, one_reading, printed_spelling, printed_tokens,
};
pub use tree::{ControlNode, Node, NodeKind, Tree};
