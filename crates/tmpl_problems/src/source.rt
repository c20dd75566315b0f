//! What is read.

/// A file that was read.
#[derive(Drop)]
pub struct Source<'a> {
    /// Its path as it was given.
    pub name: &'a str,
    pub bytes: Vec<u8>,
    /// Whether it is a template file of others, in which nothing is warned of.
    pub is_library: bool,
}
