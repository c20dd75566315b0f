//! How names are hashed.
ghost use Rattle.std.specs.Prelude.{◌≡◌};
ghost use Rattle.core.specs.Hash.DefaultHasher.{with_keys};
ghost use Rattle.tmpl_syntax.specs.Set.{first_hasher, known_hasher};

use core::hash::keyed_hasher;
use std::hash::{BuildHasher, DefaultHasher};

/// How a set hashes the names of its templates, and a reader those of their variables. What the set holds, and in which
/// order, is the same for every choice.
///
/// Who knows how names are hashed can choose many of one hash, and to define or declare n of these takes time in n
/// squared. So a host that takes templates from strangers gives keys that they cannot know.
#[derive(Clone, Copy)]
pub struct NameHash {
    first: u64,
    second: u64,
}

impl NameHash {
    /// By keys that everyone knows.
    pub fn fixed() -> NameHash
        ensures { first_hasher result ≡ known_hasher }
    {
        NameHash::keyed(0, 0)
    }

    /// By these keys, as two random numbers.
    pub fn keyed(first: u64, second: u64) -> NameHash
        ensures { first_hasher result ≡ with_keys first second }
    {
        NameHash { first, second }
    }
}

impl BuildHasher for NameHash {
    type Hasher = DefaultHasher;

    ghost build_hasher = { first_hasher };

    fn build_hasher(&self) -> DefaultHasher {
        keyed_hasher(self.first, self.second)
    }
}
