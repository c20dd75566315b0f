//! What one action says.
ghost use Rattle.std.specs.Prelude.{◌≡◌};
ghost use Rattle.tmpl_grammar.specs.Action.{branch_in, control_in};
ghost use Rattle.tmpl_grammar.specs.computed.Depth.{is_left_out, lacks_pipeline};
ghost use Rattle.tmpl_grammar.specs.View.{action_of, pipeline_of};

use crate::tree::{Control, Header, Pipeline};
use tmpl_values::Bytes;

/// A control with which an else part begins: `{{else if P}}` ("Actions" in the documentation of Go's text/template) and
/// `{{else with P}}` (there from Go 1.23 on).
#[derive(Clone, Copy)]
pub enum Branch {
    If,
    With,
}

impl Branch {
    /// The control with which the else part begins.
    pub fn control(self) -> Control
        ensures { result ≡ control_in self }
    {
        match self {
            Branch::If => Control::If,
            Branch::With => Control::With,
        }
    }
}

/// What one action says ("Actions" in the documentation of Go's text/template).
#[derive(Drop)]
pub enum Action {
    /// Puts out the text of a value, or binds a variable to it.
    Pipeline(Header),
    /// `if`, `with` or `range`: begins a part that an `end` closes.
    Open(Control, Header),
    /// `else` alone: begins the other part of the control around it.
    Else,
    /// `else if` or `else with`: begins the other part, which is a control of its own up to the same `end`.
    ElseBranch(Branch, Header),
    /// Closes the control around it.
    End,
    /// Ends the innermost range around it.
    Break,
    /// Goes to the next element of that range.
    Continue,
    /// `define`: begins the body of a template of this name, which an `end` closes.
    Define(Bytes),
    /// `template`: runs the template of this name, with the value of the pipeline or with nothing.
    Template(Bytes, Option<Pipeline>),
    /// `block`: begins the body of a template of this name, which an `end` closes, and runs it here with the value of
    /// the pipeline.
    Block(Bytes, Pipeline),
}

/// What tokens are read as.
#[derive(Drop)]
pub enum Reading {
    /// Nothing of the grammar.
    Unread,
    /// What the grammar has, but for parentheses that nest deeper than 100 (our own limit); of an else branch its
    /// control.
    TooDeep(Option<Branch>),
    Read(Action),
}

impl Action {
    /// The control of an else branch.
    pub(crate) fn branch(&self) -> Option<Branch>
        ensures { result ≡ branch_in (action_of self.now) }
    {
        match self {
            Action::ElseBranch(branch, _) => Some(*branch),
            _ => None,
        }
    }

    /// Whether it has a pipeline that is left out.
    pub(crate) fn lacks_pipeline(&self) -> bool
        ensures { result ≡ lacks_pipeline (action_of self.now) }
    {
        match self {
            Action::Pipeline(header) | Action::Open(_, header) | Action::ElseBranch(_, header) => {
                is_left_out(&header.pipeline)
            }
            Action::Template(_, Some(pipeline)) | Action::Block(_, pipeline) => is_left_out(
                pipeline,
            ),
            _ => false,
        }
    }
}

/// Whether a pipeline is left out, which no tokens spell: it has no commands.
fn is_left_out(pipeline: &Pipeline) -> bool
    ensures { result ≡ is_left_out (pipeline_of pipeline.now) }
{
    match pipeline.commands.as_slice() {
        [] => true,
        _ => false,
    }
}
