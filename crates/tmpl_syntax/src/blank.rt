//! Blank bodies.
ghost use Rattle.std.specs.Prelude.{◌≡◌};
ghost use Rattle.std.specs.List.{list_all};
ghost use Rattle.tmpl_lex.specs.Bytes as token;
ghost use Rattle.tmpl_syntax.specs.View.{node_of, nodes_in};
ghost use Rattle.tmpl_syntax.specs.Set as spec;
ghost use Rattle.tmpl_syntax.specs.computed.Set.{is_blank_node};

use crate::tree::{Node, NodeKind};
use tmpl_lex::is_space;

/// Whether all nodes are texts of white space.
#[tactic(auto, using(crate::proofs::SetLemmas::blanks))]
pub(crate) fn is_blank(nodes: &[Node]) -> bool
    ensures { result ≡ spec.is_blank (nodes_in nodes.now) }
{
    all_blank(nodes)
}

/// Whether each node is a text of white space.
fn all_blank(nodes: &[Node]) -> bool
    ensures { result ≡ list_all (λ n. is_blank_node (node_of n).what) nodes.now }
{
    nodes.iter().all(|node| is_blank_node(node))
}

/// Whether a node is a text of white space.
#[tactic(auto, using(crate::proofs::ViewLemmas::controls))]
fn is_blank_node(node: &Node) -> bool
    ensures { result ≡ is_blank_node (node_of node.now).what }
{
    match &node.what {
        NodeKind::Text(text) => is_white(text.as_slice()),
        NodeKind::Action(_)
        | NodeKind::Control(_)
        | NodeKind::Break
        | NodeKind::Continue
        | NodeKind::Template(_, _) => false,
    }
}

/// Whether each byte is white space.
fn is_white(bytes: &[u8]) -> bool
    ensures { result ≡ list_all token.is_space bytes.now }
{
    bytes.iter().all(|b| is_space(*b))
}
