//! A text that was made during a run.
ghost use Rattle.std.specs.Prelude.{◌≡◌, ◌≤◌, false, length, slice_range, true, IfOk};

use crate::owned_bytes::OwnedBytes;
use std::alloc::{AllocError, Global};
use std::marker::Model;
use std::rc::Rc;

/// A part of a text that a function made. It owns the text alone, until it is made ready to be shared: from then on
/// sharing counts owners and copies nothing. Contracts see its bytes, and whether owners are counted.
#[derive(Drop)]
pub struct Made {
    buffer: OwnedBytes,
    start: usize,
    end: usize,
}

impl Model for Made {
    ghost use Rattle.std.specs.Prelude.{List, ℕ, Bool, ◌≤◌, length, slice_range};
    ghost use Rattle.tmpl_values.specs.computed.OwnedBytes.{owned_bytes, is_counted};

    ghost Value = { List ℕ × Bool };

    ghost view = { λ m. (slice_range (owned_bytes m.buffer) m.start m.end, is_counted m.buffer) };

    ghost invariant = { λ m. (m.start ≤ m.end) × (m.end ≤ length (owned_bytes m.buffer)) };
}

impl Made {
    /// All of these bytes.
    pub(crate) fn new(bytes: Vec<u8>) -> Made
        ensures { result ≡ (bytes.items, false) }
    {
        let end = bytes.len();
        Made {
            buffer: OwnedBytes::Sole(bytes),
            start: 0,
            end,
        }
    }

    /// The bytes.
    pub(crate) fn as_slice(&self) -> &[u8]
        ensures { result.now ≡ self.now.0 }
    {
        &self.buffer.as_slice()[self.start..self.end]
    }

    /// The same bytes, ready to be shared.
    pub(crate) fn into_shared(self, alloc: Global) -> Result<Made, AllocError>
        ensures { IfOk result (λ m. m ≡ (self.0, true)) }
    {
        let Made { buffer, start, end } = self;
        Ok(Made {
            buffer: buffer.into_shared(alloc)?,
            start,
            end,
        })
    }

    /// The same bytes once more: a copy of those that one value owns alone.
    pub(crate) fn share(&self) -> Result<Made, AllocError>
        ensures { IfOk result (λ m. m ≡ self.now) }
    {
        match &self.buffer {
            OwnedBytes::Sole(bytes) => {
                let part = self.as_slice();
                Ok(Made::new(part.to_vec(*bytes.allocator())?))
            }
            OwnedBytes::Shared(bytes) => Ok(Made {
                buffer: OwnedBytes::Shared(Rc::clone(bytes)?),
                start: self.start,
                end: self.end,
            }),
        }
    }

    /// The bytes from i to before j.
    pub(crate) fn part(self, i: usize, j: usize) -> Made
        requires { (i ≤ j) × (j ≤ length self.0) }
        ensures { result ≡ (slice_range self.0 i j, self.1) }
    {
        let start = self.start + i;
        let end = self.start + j;
        let Made { buffer, .. } = self;
        Made { buffer, start, end }
    }
}
