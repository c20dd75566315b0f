//! What a text is held by: nothing where it is all zeros.
ghost use Rattle.std.specs.Prelude.{◌≡◌, option_map};
ghost use Rattle.std.specs.Coded.{coded_option};
ghost use Rattle.std.specs.declared.option.Option.{Option};
ghost use Rattle.std.specs.declared.option.Option.TheVariants.{None, Some};
ghost use Rattle.tmpl_c.specs.declared.gathered.Gathered.{Gathered};
ghost use Rattle.tmpl_c.specs.contracts.gathered.Gathered.{the_row};

use crate::gathered::Gathered;
use crate::loose::{Loose, boxed};
use std::alloc::Global;
use std::marker::Model;
use std::mem;
use std::ptr::null_mut;

/// What a text is held by: nothing where it is all zeros.
///
/// C keeps it as one pointer. What it points to is the library's.
#[repr(C)]
pub struct TextHandle {
    at: *mut u8,
    pub ghost held: { Option Gathered } by { coded_option the_row.coded },
}

impl Model for TextHandle {
    ghost use Rattle.tmpl_c.specs.contracts.gathered.Gathered.{the_row};
    ghost use Rattle.tmpl_c.specs.Handles.{kept};

    ghost also_owns = { λ h. kept the_row h.at h.held };
}

impl TextHandle {
    pub(crate) fn empty() -> TextHandle
        ensures { result.held ≡ None }
    {
        TextHandle { at: null_mut() }
    }

    pub(crate) fn of(loose: Loose<Gathered, Global>) -> TextHandle
        ensures { result.held ≡ Some loose.value }
    {
        let Loose { at, alloc: _ } = loose;
        TextHandle { at: at as *mut u8 }
    }

    pub(crate) fn open(self, alloc: Global) -> Option<Loose<Gathered, Global>>
        ensures { option_map (λ l. l.value) result ≡ self.held }
    {
        let TextHandle { at } = self;
        if at.is_null() {
            None
        } else {
            Some(Loose {
                at: at as *mut Gathered,
                alloc,
            })
        }
    }
}
