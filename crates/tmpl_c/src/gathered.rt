//! Output that is gathered before it goes to the caller.
ghost use Rattle.std.specs.Prelude.{◌≡◌};
ghost use Rattle.tmpl_c.specs.computed.Gathering.{told_of, nothing_put};

use std::alloc::Global;
use tmpl_engine::{Sink, SinkFault};

/// All that was put, in memory of its own: so a put fails only where memory runs out, or past the limit.
#[derive(Drop)]
pub struct Gathered {
    pub(crate) bytes: Vec<u8>,
    /// How many bytes are taken at most.
    most: usize,
    /// How many puts failed.
    pub(crate) failures: u64,
}

/// How many bytes are taken under this limit.
fn most_for(limit: usize) -> usize {
    match limit {
        0 => usize::MAX,
        _ => limit.saturating_add(1),
    }
}

impl Gathered {
    /// Nothing yet. It takes no more than one byte past the limit, by which one sees that there are more; any number
    /// where the limit is 0.
    pub(crate) fn new(alloc: Global, limit: usize) -> Gathered
        ensures { told_of result ≡ nothing_put }
    {
        Gathered {
            bytes: Vec::new(alloc),
            most: most_for(limit),
            failures: 0,
        }
    }

    /// Has nothing again, and this limit.
    pub(crate) fn empty(&mut self, limit: usize)
        ensures { told_of self.new ≡ nothing_put }
    {
        self.bytes.clear();
        self.most = most_for(limit);
        self.failures = 0;
    }
}

impl Sink for Gathered {
    ghost use Rattle.tmpl_c.specs.computed.Gathering.{told_of};

    ghost so_far = { told_of };

    fn put(&mut self, bytes: &[u8]) -> Result<usize, SinkFault> {
        let room = self.most.saturating_sub(self.bytes.len());
        let count = room.min(bytes.len());
        if count == 0 || self.bytes.extend_from_slice(&bytes[..count]).is_err() {
            self.failures += 1;
            return Err(SinkFault);
        }
        Ok(count)
    }
}
