//! Why the program stops before it puts anything out.
use tmpl_syntax::ParseFault;

/// Why the program stops before it puts anything out.
#[derive(Clone, Copy, Debug)]
pub enum Stop<'a> {
    /// A file of this name is not there.
    NotFound(&'a str),
    /// A file of this name could not be read.
    Failed(&'a str),
    /// A template file was refused, or memory was while it was parsed.
    Template(ParseFault<'a>),
    /// The file of this name holds no JSON.
    NotJson(&'a str),
    /// A number in the data of this file is not whole, or out of range.
    NotWhole(&'a str),
    /// Memory ran out.
    OutOfMemory,
}
