//! Why a schema is not read.
ghost use Rattle.std.specs.Prelude.{◌≡◌};
ghost use Rattle.tmpl_json_schema.specs.declared.fault.SchemaFault.TheVariants as fault;

use crate::Result;
use std::alloc::{AllocError, AllocFailed, Global};
use tmpl_shape::Shape;

/// What of a schema is refused.
#[derive(Drop)]
pub struct Refused {
    /// The way to it from the top of the document, the last part first: keys, and indexes as digits.
    pub path: Vec<String>,
    /// What is wrong there.
    pub text: String,
}

/// Why a schema is not read.
#[derive(Drop)]
pub enum SchemaFault {
    /// Memory ran out.
    OutOfMemory,
    /// Something in it is not understood.
    Refused(Refused),
}

impl From<AllocError> for SchemaFault {
    ghost from_gives = { λ _ e. e ≡ fault.OutOfMemory };

    fn from(_: AllocError) -> SchemaFault {
        SchemaFault::OutOfMemory
    }
}

impl<T: Drop> From<AllocFailed<T>> for SchemaFault {
    ghost from_gives = { λ _ e. e ≡ fault.OutOfMemory };

    fn from(_: AllocFailed<T>) -> SchemaFault {
        SchemaFault::OutOfMemory
    }
}

/// A refusal by a message, if that could be made.
pub(crate) fn refusal_by(alloc: Global, text: Result<String>) -> SchemaFault {
    match text {
        Ok(text) => SchemaFault::Refused(Refused {
            path: Vec::new(alloc),
            text,
        }),
        Err(_) => SchemaFault::OutOfMemory,
    }
}

/// A refusal of what is looked at.
pub(crate) fn refusal(alloc: Global, text: &str) -> SchemaFault {
    refusal_by(alloc, String::from_str(alloc, text))
}

/// A refusal that names what it is about.
pub(crate) fn refusal_of(alloc: Global, before: &str, name: &str, after: &str) -> SchemaFault {
    refusal_by(alloc, sentence(alloc, before, name, after))
}

/// A text of three parts, of which the second stands in quotes.
fn sentence(alloc: Global, before: &str, name: &str, after: &str) -> Result<String> {
    let mut text = String::from_str(alloc, before)?;
    text.push('"')?;
    text.push_str(name)?;
    text.push('"')?;
    text.push_str(after)?;
    Ok(text)
}

/// The fault, found under this key.
pub(crate) fn under(alloc: Global, fault: SchemaFault, key: &str) -> SchemaFault {
    let (SchemaFault::Refused(refused), Ok(key)) = (fault, String::from_str(alloc, key)) else {
        return SchemaFault::OutOfMemory;
    };
    let Refused { path, text } = refused;
    let mut path = path;
    match path.push(key) {
        Ok(()) => SchemaFault::Refused(Refused { path, text }),
        Err(_) => SchemaFault::OutOfMemory,
    }
}

/// The fault, found at this index.
pub(crate) fn at_index(alloc: Global, fault: SchemaFault, index: usize) -> SchemaFault {
    match format!(in alloc; "{index}") {
        Ok(key) => under(alloc, fault, key.as_str()),
        Err(_) => SchemaFault::OutOfMemory,
    }
}
