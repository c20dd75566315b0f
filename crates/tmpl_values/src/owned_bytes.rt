//! The bytes of a text that was made during a run.
ghost use Rattle.std.specs.Prelude.{◌≡◌, IfOk, true};
ghost use Rattle.tmpl_values.specs.computed.OwnedBytes.{owned_bytes, is_counted};

use std::alloc::{AllocError, Global};
use std::rc::Rc;

/// Bytes, and how they are owned.
#[derive(Drop)]
pub(crate) enum OwnedBytes {
    /// By one value alone, for which another value gets a copy.
    Sole(Vec<u8>),
    /// By as many values as are counted.
    Shared(Rc<Vec<u8>>),
}

impl OwnedBytes {
    /// The bytes.
    pub(crate) fn as_slice(&self) -> &[u8]
        ensures { result.now ≡ owned_bytes self.now }
    {
        match self {
            OwnedBytes::Sole(bytes) => bytes.as_slice(),
            OwnedBytes::Shared(bytes) => bytes.as_slice(),
        }
    }

    /// The same bytes, with their owners counted from now on.
    pub(crate) fn into_shared(self, alloc: Global) -> Result<OwnedBytes, AllocError>
        ensures value { IfOk result (λ b. owned_bytes b ≡ owned_bytes self) }
        ensures counted { IfOk result (λ b. is_counted b ≡ true) }
    {
        match self {
            OwnedBytes::Sole(bytes) => Ok(OwnedBytes::Shared(Rc::new(alloc, bytes)?)),
            OwnedBytes::Shared(bytes) => Ok(OwnedBytes::Shared(bytes)),
        }
    }
}
