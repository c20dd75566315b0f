//! A vector of bytes as what takes bytes.
ghost use Rattle.std.specs.Prelude.{◌≡◌, ◌++◌, OnErr, OnOk, length, take};
ghost use Rattle.tmpl_values.specs.Quote.{quote};
ghost use Rattle.tmpl_values.specs.Text.{text_of};
ghost use Rattle.tmpl_values.specs.View.{val_of};

use crate::put::Put;
use crate::quote::put_quoted;
use crate::text::put_text;
use crate::value::Val;
use std::alloc::AllocError;

/// A vector that takes bytes until memory is refused.
#[derive(Drop)]
struct Growing<'a> {
    bytes: &'a mut Vec<u8>,
    failures: u64,
}

impl Put for Growing<'_> {
    ghost use Rattle.std.specs.Prelude.{Some};

    type Fault = AllocError;

    ghost so_far = { λ p. record {
      bytes = Some p.bytes.now.items;
      failures = p.failures;
      through = p.bytes.ghost_name;
    } };

    fn put(&mut self, bytes: &[u8]) -> Result<(), AllocError> {
        match self.bytes.extend_from_slice(bytes) {
            Ok(()) => Ok(()),
            Err(error) => {
                self.failures += 1;
                Err(error)
            }
        }
    }
}

/// Adds the text that a value has as an action after what stands in the vector, which stays also where memory is
/// refused.
#[tactic(auto, using(crate::proofs::PutLemmas::kept_front))]
pub fn add_text(value: &Val<'_>, bytes: &mut Vec<u8>) -> Result<(), AllocError>
    ensures added { OnOk result (bytes.new.items ≡ bytes.old.items ++ text_of (val_of value.now)) }
    ensures kept { OnErr result (take (length bytes.old.items) bytes.new.items ≡ bytes.old.items) }
{
    let mut growing = Growing { bytes, failures: 0 };
    put_text(value, &mut growing)
}

/// Adds the quote of a text after what stands in the vector, which stays also where memory is refused.
#[tactic(auto, using(crate::proofs::PutLemmas::kept_front))]
pub fn add_quote(text: &[u8], bytes: &mut Vec<u8>) -> Result<(), AllocError>
    ensures added { OnOk result (bytes.new.items ≡ bytes.old.items ++ quote text.now) }
    ensures kept { OnErr result (take (length bytes.old.items) bytes.new.items ≡ bytes.old.items) }
{
    let mut growing = Growing { bytes, failures: 0 };
    put_quoted(text, &mut growing)
}
