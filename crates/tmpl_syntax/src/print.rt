//! Trees printed as template files.
ghost use Rattle.std.specs.Prelude.{◌≡◌, ◌∷◌, [], IfOk, OnOk, None, codes, nat_eq};
ghost use Rattle.std.specs.List.{ends_with};
ghost use Rattle.tmpl_grammar.specs.View.{printed_of};
ghost use Rattle.tmpl_syntax.specs.Print.Laws.{SetBack};
ghost use Rattle.tmpl_syntax.specs.Print.Printed.{node_said, nodes_said, print_nodes, printed_set};
ghost use Rattle.tmpl_syntax.specs.Print.Printed.{opening_after, parting, template_said};
ghost use Rattle.tmpl_syntax.specs.Print.Printed.{said, said_text};
ghost use Rattle.tmpl_syntax.specs.View.{control_of, node_of, nodes_in, set_view, tree_of};
ghost use Rattle.tmpl_syntax.specs.computed.View.{page_of, text_of};
ghost use Rattle.tmpl_syntax.specs.computed.Print.{else_said, page_with};

use crate::set::Set;
use crate::tree::{ControlNode, Node, NodeKind, Tree};
use std::alloc::{AllocError, Global};
use tmpl_grammar::PrintedAction;

/// A file as far as it is printed.
#[derive(Drop)]
pub(crate) struct Page<'t> {
    bytes: Vec<u8>,
    /// The text with which it ends, if it ends with one.
    before: Option<&'t [u8]>,
}

/// A set as one template file: each template as a definition with a newline after it, in the order of the set.
///
/// Read as a file, unless it is longer than one may be, it makes the same templates in the same order, apart from files and
/// lines; where none has the base name of that file, there is one more of this name, which is blank.
#[tactic(auto, using(crate::proofs::PageLemmas::pages), unfolding(crate::specs::View::entries_view, crate::specs::View::set_view))]
pub fn print_set(alloc: Global, set: &Set) -> Result<Vec<u8>, AllocError>
    ensures printed { IfOk result (λ v. v.items ≡ printed_set (set_view set.now)) }
    ensures read_back { IfOk result (λ v. SetBack v.items (set_view set.now)) }
{
    let mut page = Page::new(alloc);
    for (name, tree) in set.templates.iter() {
        page.template(name.as_slice(), tree)?;
    }
    Ok(page.bytes)
}

/// The body of a template as a template file.
#[tactic(auto, using(crate::proofs::PageLemmas::pages), unfolding(crate::specs::computed::View::page_of, crate::specs::computed::Print::page_with))]
pub fn print_tree(alloc: Global, tree: &Tree) -> Result<Vec<u8>, AllocError>
    ensures { IfOk result (λ v. v.items ≡ print_nodes (tree_of tree.now).nodes) }
{
    let mut page = Page::new(alloc);
    page.nodes(tree.nodes.as_slice())?;
    Ok(page.bytes)
}

impl<'t> Page<'t> {
    /// An empty file.
    #[tactic(auto, unfolding(crate::specs::computed::View::page_of))]
    fn new(alloc: Global) -> Page<'t>
        ensures { page_of result ≡ ([], None) }
    {
        Page {
            bytes: Vec::new(alloc),
            before: None,
        }
    }

    /// Adds a template as a definition, and a newline.
    #[tactic(auto, using(crate::proofs::PageLemmas::pages))]
    fn template(&mut self, name: &[u8], tree: &'t Tree) -> Result<(), AllocError>
        ensures { OnOk result (page_of self.new
            ≡ page_with (page_of self.old) (template_said (name.now, tree_of tree.now))) }
    {
        self.action(PrintedAction::Define(name))?;
        self.nodes(tree.nodes.as_slice())?;
        self.action(PrintedAction::End)?;
        self.text(b"\n")
    }

    /// Adds nodes.
    #[cycle(print)]
    #[tactic(auto, using(crate::proofs::PageLemmas::nodes))]
    fn nodes(&mut self, nodes: &'t [Node]) -> Result<(), AllocError>
        ensures { OnOk result (page_of self.new ≡ page_with (page_of self.old) (nodes_said (nodes_in nodes.now))) }
    {
        for node in nodes {
            self.node(node)?;
        }
        Ok(())
    }

    /// Adds one node.
    #[cycle(print)]
    fn node(&mut self, node: &'t Node) -> Result<(), AllocError>
        ensures { OnOk result (page_of self.new ≡ page_with (page_of self.old) (node_said (node_of node.now).what)) }
    {
        match &node.what {
            NodeKind::Text(text) => self.text(text.as_slice()),
            NodeKind::Action(header) => self.action(PrintedAction::Pipeline(header)),
            NodeKind::Control(control) => self.control(control),
            NodeKind::Break => self.action(PrintedAction::Break),
            NodeKind::Continue => self.action(PrintedAction::Continue),
            NodeKind::Template(name, given) => self.action(PrintedAction::Template(
                name.as_slice(),
                given.as_ref(),
            )),
        }
    }

    /// Adds a control with its parts.
    #[cycle(print)]
    #[tactic(auto, using(crate::proofs::PageLemmas::pages))]
    fn control(&mut self, control: &'t ControlNode) -> Result<(), AllocError>
        ensures { OnOk result (page_of self.new ≡ page_with (page_of self.old) (node_said (control_of control.now))) }
    {
        self.action(PrintedAction::Open(control.control, &control.header))?;
        self.nodes(control.body.as_slice())?;
        self.else_part(control.other.as_slice())?;
        self.action(PrintedAction::End)
    }

    /// Adds an else part, where it has nodes.
    #[cycle(print)]
    #[tactic(auto, using(crate::proofs::PageLemmas::pages))]
    fn else_part(&mut self, nodes: &'t [Node]) -> Result<(), AllocError>
        ensures { OnOk result (page_of self.new
            ≡ page_with (page_of self.old) (else_said (nodes_in nodes.now) (nodes_said (nodes_in nodes.now)))) }
    {
        if nodes.is_empty() {
            return Ok(());
        }
        self.action(PrintedAction::Else)?;
        self.nodes(nodes)
    }

    /// Adds an action.
    #[tactic(auto, using(crate::proofs::PageLemmas::pages), unfolding(crate::specs::computed::View::page_of))]
    fn action(&mut self, action: PrintedAction<'_>) -> Result<(), AllocError>
        ensures { OnOk result (page_of self.new
            ≡ page_with (page_of self.old) (said (printed_of action.entry) ∷ [])) }
    {
        self.bytes.extend_from_slice(opening(self.before))?;
        action.print(&mut self.bytes)?;
        self.bytes.extend_from_slice(b"}}")?;
        self.before = None;
        Ok(())
    }

    /// Adds a text.
    #[tactic(auto, using(crate::proofs::PageLemmas::pages), unfolding(crate::specs::computed::View::page_of))]
    fn text(&mut self, text: &'t [u8]) -> Result<(), AllocError>
        ensures { OnOk result (page_of self.new ≡ page_with (page_of self.old) (said_text text.now ∷ [])) }
    {
        self.bytes.extend_from_slice(parting(self.before))?;
        self.bytes.extend_from_slice(text)?;
        self.before = Some(text);
        Ok(())
    }
}

/// What opens an action after a text or none: its `{{`, which takes back a space after a text that ends in `{`.
fn opening(before: Option<&[u8]>) -> &'static [u8]
    ensures { result.now ≡ opening_after (text_of before.entry) }
{
    match before {
        Some(text) => if ends_in_brace(text) { b" {{- " } else { b"{{" },
        None => b"{{",
    }
}

/// What parts a text from one before it: a comment, which takes back a space after a text that ends in `{`.
fn parting(before: Option<&[u8]>) -> &'static [u8]
    ensures { result.now ≡ parting (text_of before.entry) }
{
    match before {
        Some(text) => if ends_in_brace(text) {
            b" {{- /**/}}"
        } else {
            b"{{/**/}}"
        },
        None => b"",
    }
}

/// Whether a text ends in `{`.
fn ends_in_brace(text: &[u8]) -> bool
    ensures { result ≡ ends_with nat_eq text.now (codes "{") }
{
    text.ends_with(b"{")
}
