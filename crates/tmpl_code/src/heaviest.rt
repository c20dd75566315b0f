//! The heaviest of the templates that nodes call.
ghost use Rattle.std.specs.Prelude.{◌≡◌, max};
ghost use Rattle.tmpl_syntax.specs.View.{node_of, nodes_in, set_view};
ghost use Rattle.tmpl_code.specs.computed.Weights as spec;

use crate::claims::Claims;
use crate::numbers::at;
use tmpl_syntax::{Node, NodeKind, Set};

/// The largest weight and the largest allowance of some templates.
#[derive(Clone, Copy)]
pub(crate) struct Heaviest {
    pub weight: usize,
    pub allowance: usize,
}

impl Heaviest {
    /// Those of no template.
    fn nothing() -> Heaviest
        ensures weight { result.weight ≡ 0 }
        ensures allowance { result.allowance ≡ 0 }
    {
        Heaviest {
            weight: 0,
            allowance: 0,
        }
    }

    /// Those of these templates and of others.
    fn with(self, other: Heaviest) -> Heaviest
        ensures weight { result.weight ≡ max self.weight other.weight }
        ensures allowance { result.allowance ≡ max self.allowance other.allowance }
    {
        Heaviest {
            weight: self.weight.max(other.weight),
            allowance: self.allowance.max(other.allowance),
        }
    }
}

/// The heaviest of the templates that are called and are there. Both are looked up at once, since each look hashes a
/// name.
#[cycle(heaviest)]
#[tactic(auto, using(tmpl_syntax::proofs::WeightLemmas::lighter, crate::proofs::BackwardLemmas::from_none))]
pub(crate) fn heaviest_of_nodes(set: &Set, claims: &Claims, nodes: &[Node]) -> Heaviest
    ensures weight { result.weight
        ≡ spec.heaviest_of_nodes (set_view set.now) claims.now.weights.items (nodes_in nodes.now) }
    ensures allowance { result.allowance
        ≡ spec.heaviest_of_nodes (set_view set.now) claims.now.allowances.items (nodes_in nodes.now) }
{
    let mut heaviest = Heaviest::nothing();
    let mut i = nodes.len();
    while i > 0 {
        i -= 1;
        heaviest = heaviest_of_node(set, claims, &nodes[i]).with(heaviest);
    }
    heaviest
}

#[cycle(heaviest)]
#[tactic(auto, using(tmpl_syntax::proofs::ViewLemmas::controls))]
fn heaviest_of_node(set: &Set, claims: &Claims, node: &Node) -> Heaviest
    ensures weight { result.weight
        ≡ spec.heaviest_of_node (set_view set.now) claims.now.weights.items (node_of node.now).what }
    ensures allowance { result.allowance
        ≡ spec.heaviest_of_node (set_view set.now) claims.now.allowances.items (node_of node.now).what }
{
    match &node.what {
        NodeKind::Text(_) | NodeKind::Action(_) | NodeKind::Break | NodeKind::Continue => {
            Heaviest::nothing()
        }
        NodeKind::Control(control) => {
            let in_body = heaviest_of_nodes(set, claims, control.body.as_slice());
            in_body.with(heaviest_of_nodes(set, claims, control.other.as_slice()))
        }
        NodeKind::Template(name, _) => claims_of(claims, set.number(name.as_slice())),
    }
}

/// What the template of a number claims, and nothing where there is none.
fn claims_of(claims: &Claims, number: Option<usize>) -> Heaviest
    ensures weight { result.weight ≡ spec.weight_found claims.now.weights.items number }
    ensures allowance { result.allowance ≡ spec.weight_found claims.now.allowances.items number }
{
    match number {
        Some(number) => Heaviest {
            weight: at(claims.weights.as_slice(), number),
            allowance: at(claims.allowances.as_slice(), number),
        },
        None => Heaviest::nothing(),
    }
}
