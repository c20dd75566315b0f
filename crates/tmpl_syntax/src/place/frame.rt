//! What is open.
ghost use Rattle.std.specs.Prelude.{◌≡◌};
ghost use Rattle.tmpl_syntax.specs.Place.Open.{is_template};
ghost use Rattle.tmpl_syntax.specs.computed.Frames.{level_of};
ghost use Rattle.tmpl_syntax.specs.computed.View.{opening_of};

use tmpl_grammar::Control;

/// What begins a part that an `end` closes.
#[derive(Clone, Copy, Debug)]
pub enum Opening {
    Control(Control),
    Define,
    Block,
}

/// What is open, and the line of what opens it.
#[derive(Clone, Copy, Debug)]
pub struct Open {
    pub opening: Opening,
    pub line: u64,
}

/// What is open, and what stands inside it.
#[derive(Clone, Copy)]
pub(crate) struct Frame {
    pub(crate) opening: Opening,
    /// The line of what opens it.
    pub(crate) line: u64,
    /// Whether a plain else of it came.
    pub(crate) has_else: bool,
    /// Whether a break may stand where it was opened.
    pub(crate) around: bool,
    /// The levels that stand inside it.
    pub(crate) levels: usize,
    /// How many names of its template there were where it was opened.
    pub(crate) start: usize,
    /// How many names an else part of it sees.
    pub(crate) part: usize,
}

impl Frame {
    /// What is open.
    pub(crate) fn open(self) -> Open {
        Open {
            opening: self.opening,
            line: self.line,
        }
    }
}

impl Opening {
    /// Whether its body is a template of its own.
    pub(crate) fn is_template(self) -> bool
        ensures { result ≡ is_template (opening_of self) }
    {
        match self {
            Opening::Control(_) => false,
            Opening::Define | Opening::Block => true,
        }
    }

    /// How many levels it adds.
    pub(super) fn levels(self) -> usize
        ensures { result ≡ level_of (opening_of self) }
    {
        match self {
            Opening::Control(_) | Opening::Block => 1,
            Opening::Define => 0,
        }
    }
}
