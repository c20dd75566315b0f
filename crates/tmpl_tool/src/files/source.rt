//! Where files come from.
ghost use Rattle.std.specs.Prelude.{◌≡◌, ◌-◌, ◌^◌, ◌<◌, ℕ, List, Option, None};

use std::alloc::Global;
use thiserror::Error;

/// Why a file could not be read.
#[derive(Clone, Copy, Debug, PartialEq, Eq, Error)]
pub enum SourceFault {
    /// There is no such file.
    #[error("no such file")]
    NotFound,
    /// It is there, and could not be read.
    #[error("read failed")]
    Failed,
    /// Memory ran out.
    #[error("out of memory")]
    OutOfMemory,
}

/// Files by their names. What they hold may be untold, and so may which were asked for; the number of failed reads is
/// always stated.
pub trait Source {
    ghost use Rattle.tmpl_tool.specs.Source.{Asks, IsRead, IsReadUpTo};

    ghost contents: { Self → Option (List ℕ → Option (List ℕ)) };

    ghost failures: { Self → ℕ };

    ghost asked: { Self → Option (List (List ℕ)) } = { λ _. None };

    /// The bytes of the file of this name. A read leaves the files as they are.
    fn read(&mut self, alloc: Global, name: &str) -> Result<Vec<u8>, SourceFault>
        requires { failures self.old < 2 ^ 64 - 1 }
        ensures contents { contents self.new ≡ contents self.old }
        ensures read { IsRead (contents self.old) name.now (failures self.old) (failures self.new) result }
        ensures asked { Asks (asked self.old) name.now result (asked self.new) };

    /// The same, but of a file of more than `most` bytes it may be a prefix that is longer than that: who refuses such
    /// a file need not have all of it, which may have no end.
    fn read_up_to(&mut self, alloc: Global, name: &str, most: u64) -> Result<Vec<u8>, SourceFault>
        requires { failures self.old < 2 ^ 64 - 1 }
        ensures contents { contents self.new ≡ contents self.old }
        ensures read { IsReadUpTo most (contents self.old) name.now (failures self.old) (failures self.new) result }
        ensures asked { Asks (asked self.old) name.now result (asked self.new) }
    {
        self.read(alloc, name)
    }
}
