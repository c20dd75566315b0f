//! What the arguments of the command line ask for.
ghost use Rattle.std.specs.Prelude.{◌≡◌};
ghost use Rattle.tmpl_tool.specs.declared.words.request.WordsFault.TheVariants.{OutOfMemory};

use std::alloc::AllocError;
use thiserror::Error;
use tmpl_engine::Options;

/// What the arguments ask for.
#[derive(Debug, Drop)]
pub struct Request<'a> {
    /// The file that holds the data, if there is one.
    pub data_file: Option<&'a str>,
    /// The template to run; the first file's own where none is named.
    pub name: Option<&'a str>,
    pub options: Options,
    /// Whether the set of templates is to be printed, and nothing run.
    pub print: bool,
    /// The template files, at least one, in the order of the words.
    pub files: Vec<&'a str>,
}

/// Why words are not taken.
#[derive(Clone, Copy, Debug, PartialEq, Eq, Error)]
pub enum WordsFault {
    #[error("arguments refused")]
    NotAccepted,
    #[error("out of memory")]
    OutOfMemory,
}

impl From<AllocError> for WordsFault {
    ghost from_gives = { λ _ e. e ≡ OutOfMemory };

    fn from(_error: AllocError) -> WordsFault {
        WordsFault::OutOfMemory
    }
}
