//! Where bytes lie, for C to read.
ghost use Rattle.std.specs.Prelude.{◌≡◌};
ghost use Rattle.std.specs.Vec.{vec_ptr};

use std::ptr::null_mut;

/// Where bytes lie, for C to read. It owns nothing.
#[repr(C)]
#[derive(Clone, Copy)]
pub struct Address {
    at: *const u8,
}

impl Address {
    /// That of no bytes.
    pub(crate) fn none() -> Address {
        Address { at: null_mut() }
    }

    /// That of the first of these bytes.
    pub(crate) fn of(bytes: &Vec<u8>) -> Address
        ensures { result.at ≡ vec_ptr bytes.now }
    {
        Address { at: bytes.as_ptr() }
    }
}
