//! What templates need and do, told in one walk over their nodes.
ghost use Rattle.std.specs.Prelude.{◌≡◌, ◌+◌, ◌||◌, false, IfOk, max};
ghost use Rattle.tmpl_code.specs.computed.Surveyed.{Surveys, SurveysNode, SurveysNodes};
ghost use Rattle.tmpl_syntax.specs.Need as needs;
ghost use Rattle.tmpl_syntax.specs.View.{control_of, node_of, nodes_in};

use crate::binding::declared_count;
use crate::cost::{cost_of_given, cost_of_pipeline};
use crate::node::left_after;
use crate::pipeline::sum;
use std::alloc::AllocError;
use tmpl_grammar::Control;
use tmpl_syntax::{ControlNode, Node, NodeKind};

/// What a node or a pipeline, or several, need and do.
#[derive(Clone, Copy)]
pub(crate) struct Survey {
    /// How many cells of a stack they need.
    pub need: usize,
    /// Whether they name a function that makes a text.
    pub makes_text: bool,
    /// Whether they call a template.
    pub calls: bool,
}

impl Survey {
    /// The survey of what needs this many cells, and does nothing else.
    pub(crate) fn cells(need: usize) -> Survey
        ensures { Surveys need false false result }
    {
        Survey {
            need,
            makes_text: false,
            calls: false,
        }
    }

    /// The survey of both, whose cells are not held at one time.
    pub(crate) fn with(self, other: Survey) -> Survey
        ensures { Surveys (max self.need other.need) (self.makes_text || other.makes_text)
            (self.calls || other.calls) result }
    {
        Survey {
            need: self.need.max(other.need),
            makes_text: self.makes_text | other.makes_text,
            calls: self.calls | other.calls,
        }
    }

    /// The survey of the same above this many cells that are held.
    pub(crate) fn above(self, held: usize) -> Result<Survey, AllocError>
        ensures { IfOk result (Surveys (held + self.need) self.makes_text self.calls) }
    {
        Ok(Survey {
            need: sum(held, self.need)?,
            ..self
        })
    }
}

/// The survey of nodes, each above the variables that those before it leave.
#[cycle(nodes)]
#[tactic(auto, using(tmpl_syntax::proofs::WeightLemmas::lighter, crate::proofs::BackwardLemmas::from_none))]
fn survey_nodes(nodes: &[Node]) -> Result<Survey, AllocError>
    ensures { IfOk result (SurveysNodes (nodes_in nodes.now)) }
{
    let mut survey = Survey::cells(0);
    let mut i = nodes.len();
    while i > 0 {
        i -= 1;
        let node = &nodes[i];
        survey = survey_node(node)?.with(survey.above(left_after(node))?);
    }
    Ok(survey)
}

#[cycle(nodes)]
#[tactic(auto, using(tmpl_syntax::proofs::ViewLemmas::controls))]
pub(crate) fn survey_node(node: &Node) -> Result<Survey, AllocError>
    ensures { IfOk result (SurveysNode (node_of node.now).what) }
{
    match &node.what {
        NodeKind::Text(_) | NodeKind::Break | NodeKind::Continue => Ok(Survey::cells(0)),
        NodeKind::Action(header) => cost_of_pipeline(&header.pipeline),
        NodeKind::Control(control) => survey_control(control),
        NodeKind::Template(_, given) => Ok(Survey {
            calls: true,
            ..cost_of_given(given)?
        }),
    }
}

#[cycle(nodes)]
#[tactic(auto, using(tmpl_syntax::proofs::ViewLemmas::controls))]
fn survey_control(node: &ControlNode) -> Result<Survey, AllocError>
    ensures { IfOk result (SurveysNode (control_of node.now)) }
{
    let header = cost_of_pipeline(&node.header.pipeline)?;
    let declared = declared_count(&node.header.binding);
    let body = survey_nodes(node.body.as_slice())?;
    let other = survey_nodes(node.other.as_slice())?;
    let parts = need_of_parts(node.control, declared, body.need, other.need)?;
    Ok(Survey {
        need: header.need.max(parts),
        makes_text: header.makes_text | (body.makes_text | other.makes_text),
        calls: body.calls | other.calls,
    })
}

/// What the parts of a control need whose header declares this many variables.
fn need_of_parts(
    control: Control,
    declared: usize,
    body: usize,
    other: usize,
) -> Result<usize, AllocError>
    ensures { IfOk result (λ n. n ≡ needs.need_of_parts control declared body other) }
{
    let in_body = sum(declared, body)?;
    match control {
        Control::If => Ok(in_body.max(sum(declared, other)?)),
        Control::With => Ok(sum(1, in_body)?.max(sum(declared, other)?)),
        Control::Range => Ok(sum(2, in_body)?.max(other)),
    }
}
