//! A text that the library owns, and that the caller reads where it lies.
ghost use Rattle.std.specs.Prelude.{◌≡◌, [], IfSome, option_map};
ghost use Rattle.std.specs.declared.option.Option.TheVariants.{None, Some};
ghost use Rattle.std.proofs.Props.{props};
ghost use Rattle.tmpl_c.specs.Texts.{IsShown, bytes_in};
ghost use Rattle.tmpl_c.specs.computed.Gathering.{told_of, nothing_put};

use crate::address::Address;
use crate::gathered::Gathered;
use crate::loose::{Loose, boxed};
use crate::text_handle::TextHandle;
use std::alloc::Global;
use std::mem;

/// A text that the library owns: none where it is all zeros. Its memory is used again by the next call.
#[repr(C)]
pub struct Text {
    bytes: Address,
    /// How many bytes the text has.
    pub size: usize,
    pub held: TextHandle,
    ghost shown: { IsShown bytes size held } by { Prim.hlevel props },
}

impl Text {
    fn empty() -> Text
        ensures { result.held.held ≡ None }
    {
        Text {
            bytes: Address::none(),
            size: 0,
            held: TextHandle::empty(),
        }
    }

    fn of(value: Box<Gathered>) -> Text
        ensures { result.held.held ≡ Some value.value }
    {
        let bytes = Address::of(&value.bytes);
        let size = value.bytes.len();
        Text {
            bytes,
            size,
            held: TextHandle::of(Loose::of(value)),
        }
    }

    /// What it is held by.
    fn into_box(self, alloc: Global) -> Option<Box<Gathered>>
        ensures { option_map (λ b. b.value) result ≡ self.held.held }
    {
        let Text {
            bytes: _,
            size: _,
            held,
        } = self;
        boxed(held.open(alloc))
    }

    /// Takes out what it is held by.
    pub(crate) fn take(&mut self, alloc: Global) -> Option<Box<Gathered>>
        ensures taken { option_map (λ b. b.value) result ≡ self.old.held.held }
        ensures left { self.new.held.held ≡ None }
    {
        mem::replace(self, Text::empty()).into_box(alloc)
    }

    /// Is this from now on, and frees what was there.
    pub(crate) fn put(&mut self, alloc: Global, value: Box<Gathered>)
        ensures { bytes_in self.new.held ≡ value.value.bytes.items }
    {
        drop(mem::replace(self, Text::of(value)).into_box(alloc));
    }

    /// Takes out its memory, with nothing in it, or new memory, for a text of this limit. There is none where memory
    /// runs out.
    pub(crate) fn take_empty(&mut self, alloc: Global, limit: usize) -> Option<Box<Gathered>>
        ensures empty { IfSome result (λ b. told_of b.value ≡ nothing_put) }
        ensures left { bytes_in self.new.held ≡ [] }
    {
        match self.take(alloc) {
            Some(mut kept) => {
                kept.empty(limit);
                Some(kept)
            }
            None => Box::new(alloc, Gathered::new(alloc, limit)).ok(),
        }
    }
}
