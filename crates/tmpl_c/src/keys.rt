//! Keys for how names are hashed.

use tmpl_engine::NameHash;

/// Two numbers by which names are hashed, which the C part of the library draws. No answer depends on them.
#[repr(C)]
#[derive(Clone, Copy)]
pub struct Keys {
    pub first: u64,
    pub second: u64,
}

impl Keys {
    /// How names are hashed by these.
    pub(crate) fn hash(&self) -> NameHash {
        NameHash::keyed(self.first, self.second)
    }
}
