//! Machines that read bytes.
ghost use Rattle.std.specs.Prelude.{◌≡◌, ℕ, Bool, Option, option_map};
ghost use Rattle.tmpl_formats.specs.computed.Machine.{mistake};

use crate::mistake::Mistake;

/// A machine whose configurations are small: one is what matters of the bytes before.
pub trait Machine: Copy {
    ghost after: { Self → ℕ → Option Self };

    ghost may_end: { Self → Bool };

    /// One step, or none where no text of the format goes on so.
    fn step(self, byte: u8) -> Option<Self>
        ensures { result ≡ after self byte };

    /// Whether a text may end there.
    fn ends(self) -> bool
        ensures { result ≡ may_end self };

    /// What may stand there, as a noun phrase.
    fn wanted(self) -> &'static str;
}

/// Where a text ceases to be one that the machine accepts.
pub fn first_mistake<M: Machine>(start: M, text: &[u8]) -> Option<Mistake>
    ensures { option_map (λ m. m.offset) result ≡ mistake M.after M.may_end start text.now }
{
    let mut machine = start;
    for (offset, byte) in text.iter().enumerate() {
        match machine.step(*byte) {
            Some(next) => machine = next,
            None => return Some(Mistake {
                offset,
                wanted: machine.wanted(),
            }),
        }
    }
    if machine.ends() {
        None
    } else {
        Some(Mistake {
            offset: text.len(),
            wanted: machine.wanted(),
        })
    }
}
