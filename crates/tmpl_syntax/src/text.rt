//! A text of a template.
ghost use Rattle.std.specs.Prelude.{◌≡◌, ◌≤◌, IfOk, length};
ghost use Rattle.tmpl_lex.specs.Place.{StandsAt};

use std::alloc::AllocError;
use std::marker::Model;
use std::sync::Arc;
use tmpl_values::Bytes;

/// A text of a template: a part of the bytes of its file, which all texts of the file share, so that none is copied.
/// Contracts see it as the list of its bytes.
#[derive(Drop)]
pub struct Text {
    contents: Arc<Bytes>,
    start: u32,
    end: u32,
}

impl Model for Text {
    ghost use Rattle.std.specs.Prelude.{List, ℕ, ◌≤◌, length, slice_range};

    ghost Value = { List ℕ };

    ghost view = { λ t. slice_range t.contents.value t.start t.end };

    ghost invariant = { λ t. (t.start ≤ t.end) × (t.end ≤ length t.contents.value) };
}

impl Text {
    /// These bytes, which stand at this place of the contents of a file.
    pub(crate) fn new(contents: &Arc<Bytes>, start: usize, bytes: &[u8]) -> Result<Text, AllocError>
        requires { StandsAt contents.now.value start bytes.now × (length contents.now.value ≤ 16777216) }
        ensures { IfOk result (λ t. t ≡ bytes.now) }
    {
        let end = start + bytes.len();
        Ok(Text {
            contents: Arc::clone(contents)?,
            start: start as u32,
            end: end as u32,
        })
    }

    /// The same text once more; its bytes are not copied.
    pub fn share(&self) -> Result<Text, AllocError>
        ensures { IfOk result (λ t. t ≡ self.now) }
    {
        Ok(Text {
            contents: Arc::clone(&self.contents)?,
            ..*self
        })
    }

    /// The bytes.
    pub fn as_slice(&self) -> &[u8]
        ensures { result.now ≡ self.now }
    {
        &self.contents.as_slice()[self.start as usize..self.end as usize]
    }
}
