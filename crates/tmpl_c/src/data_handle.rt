//! Data that the caller keeps: none where it is all zeros.
ghost use Rattle.std.specs.Prelude.{◌≡◌, IfErr, IfOk, option_map};
ghost use Rattle.std.specs.Coded.{coded_option};
ghost use Rattle.std.specs.declared.option.Option.{Option};
ghost use Rattle.std.specs.declared.option.Option.TheVariants.{None, Some};
ghost use Rattle.tmpl_c.specs.declared.shared_data.SharedData.{SharedData};
ghost use Rattle.tmpl_c.specs.contracts.shared_data.SharedData.{the_row};

use crate::loose::{Loose, boxed};
use crate::shared_data::SharedData;
use std::alloc::{AllocError, Global};
use std::marker::Model;
use std::mem;
use std::ptr::null_mut;

/// Data that the caller keeps: none where it is all zeros.
///
/// C keeps it as one pointer. What it points to is the library's.
#[repr(C)]
pub struct DataHandle {
    at: *mut u8,
    pub ghost held: { Option SharedData } by { coded_option the_row.coded },
}

impl Model for DataHandle {
    ghost use Rattle.tmpl_c.specs.contracts.shared_data.SharedData.{the_row};
    ghost use Rattle.tmpl_c.specs.Handles.{kept};

    ghost also_owns = { λ h. kept the_row h.at h.held };
}

impl DataHandle {
    fn empty() -> DataHandle
        ensures { result.held ≡ None }
    {
        DataHandle { at: null_mut() }
    }

    fn of(loose: Loose<SharedData, Global>) -> DataHandle
        ensures { result.held ≡ Some loose.value }
    {
        let Loose { at, alloc: _ } = loose;
        DataHandle { at: at as *mut u8 }
    }

    fn open(self, alloc: Global) -> Option<Loose<SharedData, Global>>
        ensures { option_map (λ l. l.value) result ≡ self.held }
    {
        let DataHandle { at } = self;
        if at.is_null() {
            None
        } else {
            Some(Loose {
                at: at as *mut SharedData,
                alloc,
            })
        }
    }

    /// Takes out what is kept.
    pub(crate) fn take(&mut self, alloc: Global) -> Option<Box<SharedData>>
        ensures taken { option_map (λ b. b.value) result ≡ self.old.held }
        ensures left { self.new.held ≡ None }
    {
        boxed(mem::replace(self, DataHandle::empty()).open(alloc))
    }

    /// Keeps this, and frees what was kept.
    pub(crate) fn put(&mut self, alloc: Global, value: Box<SharedData>)
        ensures { self.new.held ≡ Some value.value }
    {
        drop(boxed(mem::replace(self, DataHandle::of(Loose::of(value))).open(alloc)));
    }

    /// Keeps this, and frees what was kept. An error means that memory ran out, and leaves what was kept.
    pub(crate) fn keep(&mut self, alloc: Global, value: SharedData) -> Result<(), AllocError>
        ensures new { IfOk result (λ u. self.new.held ≡ Some value) }
        ensures old { IfErr result (λ e. self.new.held ≡ self.old.held) }
    {
        let value = Box::new(alloc, value)?;
        self.put(alloc, value);
        Ok(())
    }
}
