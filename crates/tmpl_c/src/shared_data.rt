//! Data that several handles keep.
ghost use Rattle.std.specs.Prelude.{◌≡◌, IfOk};

use std::alloc::{AllocError, Global};
use std::sync::Arc;
use tmpl_values::Data;

/// Data that several handles keep.
#[derive(Drop)]
pub struct SharedData {
    pub(crate) data: Arc<Data>,
}

impl SharedData {
    /// Data of a first handle. An error means that memory ran out.
    pub(crate) fn new(alloc: Global, data: Data) -> Result<SharedData, AllocError>
        ensures { IfOk result (λ s. s.data.value ≡ «data») }
    {
        Ok(SharedData {
            data: Arc::new(alloc, data)?,
        })
    }

    /// The same for one more handle. An error is more of them than can be counted.
    pub(crate) fn share(&self) -> Result<SharedData, AllocError>
        ensures { IfOk result (λ s. s.data.value ≡ self.now.data.value) }
    {
        Ok(SharedData {
            data: Arc::clone(&self.data)?,
        })
    }
}
