//! A set of templates that the caller keeps: none where it is all zeros.
ghost use Rattle.std.specs.Prelude.{◌≡◌, option_map};
ghost use Rattle.std.specs.Coded.{coded_option};
ghost use Rattle.std.specs.declared.option.Option.{Option};
ghost use Rattle.std.specs.declared.option.Option.TheVariants.{None, Some};
ghost use Rattle.tmpl_engine.specs.declared.engine.Engine.{Engine};
ghost use Rattle.tmpl_engine.specs.contracts.engine.Engine.{the_row};

use crate::loose::{Loose, boxed};
use std::alloc::Global;
use std::marker::Model;
use std::mem;
use std::ptr::null_mut;
use tmpl_engine::Engine;

/// A set of templates that the caller keeps: none where it is all zeros.
///
/// C keeps it as one pointer. What it points to is the library's.
#[repr(C)]
pub struct SetHandle {
    at: *mut u8,
    pub ghost held: { Option Engine } by { coded_option the_row.coded },
}

impl Model for SetHandle {
    ghost use Rattle.tmpl_engine.specs.contracts.engine.Engine.{the_row};
    ghost use Rattle.tmpl_c.specs.Handles.{kept};

    ghost also_owns = { λ h. kept the_row h.at h.held };
}

impl SetHandle {
    fn empty() -> SetHandle
        ensures { result.held ≡ None }
    {
        SetHandle { at: null_mut() }
    }

    fn of(loose: Loose<Engine, Global>) -> SetHandle
        ensures { result.held ≡ Some loose.value }
    {
        let Loose { at, alloc: _ } = loose;
        SetHandle { at: at as *mut u8 }
    }

    fn open(self, alloc: Global) -> Option<Loose<Engine, Global>>
        ensures { option_map (λ l. l.value) result ≡ self.held }
    {
        let SetHandle { at } = self;
        if at.is_null() {
            None
        } else {
            Some(Loose {
                at: at as *mut Engine,
                alloc,
            })
        }
    }

    /// Takes out what is kept.
    pub(crate) fn take(&mut self, alloc: Global) -> Option<Box<Engine>>
        ensures taken { option_map (λ b. b.value) result ≡ self.old.held }
        ensures left { self.new.held ≡ None }
    {
        boxed(mem::replace(self, SetHandle::empty()).open(alloc))
    }

    /// Keeps this, and frees what was kept.
    pub(crate) fn put(&mut self, alloc: Global, value: Box<Engine>)
        ensures { self.new.held ≡ Some value.value }
    {
        drop(boxed(mem::replace(self, SetHandle::of(Loose::of(value))).open(alloc)));
    }
}
