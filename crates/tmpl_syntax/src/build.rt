//! The definitions of a file.
ghost use Rattle.std.specs.Prelude.{◌≡◌, ◌++◌, ◌∷◌, [], IfOk, OnOk, map, reverse};
ghost use Rattle.tmpl_grammar.specs.Action.{block_action};
ghost use Rattle.tmpl_grammar.specs.View.{header_of, pipeline_of};
ghost use Rattle.tmpl_syntax.specs.Item.{action_item, item};
ghost use Rattle.tmpl_syntax.specs.Tree.{control_node};
ghost use Rattle.tmpl_syntax.specs.computed.View.{definition_of, item_of, kind_of, level_of, parts_of};
ghost use Rattle.tmpl_syntax.specs.computed.Parse.{all_from};
ghost use Rattle.tmpl_syntax.specs.computed.Begun.{header_start, open_starts, starts_in, starts_of};
ghost use Rattle.tmpl_syntax.specs.computed.Build as spec;

use crate::item::{Item, ItemKind};
use crate::tree::{ControlNode, Definition, Node, NodeKind};
use std::alloc::{AllocError, Global};
use std::mem;
use tmpl_grammar::{Action, Branch, Control, Header, Pipeline};
use tmpl_values::Bytes;

/// For how many items there may be room that is not used.
const MOST_FREE: usize = 65_536;

/// What is known of a part from a place on.
#[derive(Drop)]
pub(crate) struct Level {
    /// Its nodes, the last one first.
    pub(crate) nodes: Vec<Node>,
    /// Those of the else part after it.
    pub(crate) other: Vec<Node>,
}

/// The part in which a place stands, and those around it.
#[derive(Drop)]
pub(crate) struct OpenParts {
    pub(crate) inner: Level,
    /// The nearest last.
    pub(crate) around: Vec<Level>,
    /// The templates that are defined from the place on, the last one first.
    pub(crate) definitions: Vec<Definition>,
}

/// The templates that a file's items define, each of which stands where it may, in the order of their headers; the
/// file's own, of this name, is the last. They are built from the last item to the first, so that an else part is
/// there before the control to which it belongs.
#[tactic(auto, using(crate::proofs::ViewLemmas::nodes), unfolding(crate::specs::computed::View::parts_of, crate::specs::computed::Build::nodes_from, crate::specs::computed::Build::definitions_from))]
pub(crate) fn build(
    alloc: Global,
    items: Vec<Item>,
    name: Bytes,
) -> Result<Vec<Definition>, AllocError>
    ensures definitions { IfOk result (λ v. map definition_of v.items
        ≡ all_from name (map item_of items.items)) }
    ensures starts { IfOk result (λ v. starts_of v.items ≡ starts_in items.items ++ 0 ∷ []) }
{
    let OpenParts {
        inner,
        mut definitions,
        ..
    } = parts_before(alloc, items)?;
    definitions.reverse();
    definitions.push(Definition {
        line: 1,
        start: 0,
        name,
        nodes: in_order(inner.nodes),
    })?;
    Ok(definitions)
}

/// The parts from the first of these items on.
#[tactic(auto, using(crate::proofs::ViewLemmas::nodes, crate::proofs::SpellingLemmas::lasts), unfolding(crate::specs::computed::View::parts_of))]
fn parts_before(alloc: Global, items: Vec<Item>) -> Result<OpenParts, AllocError>
    ensures parts { IfOk result (λ p. parts_of p ≡ spec.parts_before (map item_of items.items) spec.no_parts) }
    ensures starts { IfOk result (λ p. open_starts p ≡ starts_in items.items) }
{
    let mut items = items;
    let mut parts = OpenParts {
        inner: Level::new(alloc),
        around: Vec::new(alloc),
        definitions: Vec::new(alloc),
    };
    while let Some(item) = items.pop() {
        put(alloc, &mut parts, item)?;
        free_room(&mut items);
    }
    Ok(parts)
}

/// Gives back the room of items that are nodes now, once it is that of many: so a long file never takes the room of all
/// its items and of all its nodes at once.
fn free_room(items: &mut Vec<Item>)
    ensures { items.new.items ≡ items.old.items }
{
    if items.capacity() - items.len() > MOST_FREE {
        items.shrink_to_fit();
    }
}

impl Level {
    /// No nodes.
    fn new(alloc: Global) -> Level
        ensures { level_of result ≡ spec.no_level }
    {
        Level {
            nodes: Vec::new(alloc),
            other: Vec::new(alloc),
        }
    }
}

/// The nodes of a part, of which the last one came first, with no more room than they take: many parts have a node or
/// two, and a file has many parts.
fn in_order(nodes: Vec<Node>) -> Vec<Node>
    ensures { result.items ≡ reverse nodes.items }
{
    let mut nodes = nodes;
    nodes.reverse();
    nodes.shrink_to_fit();
    nodes
}

/// Puts an item before those that are after it.
fn put(alloc: Global, parts: &mut OpenParts, item: Item) -> Result<(), AllocError>
    ensures parts { IfOk result (λ u. parts_of parts.new ≡ spec.parts_with (item_of item) (parts_of parts.old)) }
    ensures starts { IfOk result (λ u. open_starts parts.new
        ≡ header_start item.what item.start ++ open_starts parts.old) }
{
    let Item { line, start, what } = item;
    let action = match what {
        ItemKind::Text(text) => return put_node(parts, line, start, NodeKind::Text(text)),
        ItemKind::Unreadable | ItemKind::Unread | ItemKind::TooDeep(_) => return Ok(()),
        ItemKind::Action(action) => action,
    };
    match action {
        Action::Pipeline(header) => put_node(parts, line, start, NodeKind::Action(header)),
        Action::Open(control, header) => put_control(alloc, parts, line, start, control, header),
        Action::Else => {
            begin_else(alloc, parts);
            Ok(())
        }
        Action::ElseBranch(branch, header) => begin_branch(
            alloc, parts, line, start, branch, header,
        ),
        Action::End => end(alloc, parts),
        Action::Break => put_node(parts, line, start, NodeKind::Break),
        Action::Continue => put_node(parts, line, start, NodeKind::Continue),
        Action::Define(name) => put_definition(alloc, parts, line, start, name),
        Action::Template(name, given) => {
            put_node(parts, line, start, NodeKind::Template(name, given))
        }
        Action::Block(name, pipeline) => put_block(alloc, parts, line, start, name, pipeline),
    }
}

/// Puts a definition before the others: its body is the innermost part.
#[tactic(auto, using(crate::proofs::ViewLemmas::nodes), unfolding(crate::specs::computed::View::parts_of))]
fn put_definition(
    alloc: Global,
    parts: &mut OpenParts,
    line: u64,
    start: usize,
    name: Bytes,
) -> Result<(), AllocError>
    ensures parts { IfOk result (λ u. parts_of parts.new ≡ spec.definition_before line name (parts_of parts.old)) }
    ensures starts { IfOk result (λ u. open_starts parts.new ≡ start ∷ open_starts parts.old) }
{
    let around = outer(alloc, &mut parts.around);
    let inner = mem::replace(&mut parts.inner, around);
    parts.definitions.push(Definition {
        line,
        start,
        name,
        nodes: in_order(inner.nodes),
    })?;
    Ok(())
}

/// Puts a definition, and a call of it before the nodes of the part around.
fn put_block(
    alloc: Global,
    parts: &mut OpenParts,
    line: u64,
    start: usize,
    name: Bytes,
    pipeline: Pipeline,
) -> Result<(), AllocError>
    ensures parts { IfOk result (λ u. parts_of parts.new
        ≡ spec.parts_with (item line (action_item (block_action name (pipeline_of pipeline)))) (parts_of parts.old)) }
    ensures starts { IfOk result (λ u. open_starts parts.new ≡ start ∷ open_starts parts.old) }
{
    let called = Bytes::new(name.as_slice().to_vec(alloc)?);
    put_definition(alloc, parts, line, start, name)?;
    put_node(
        parts,
        line,
        start,
        NodeKind::Template(called, Some(pipeline)),
    )
}

/// Puts a node before those of the innermost part.
#[tactic(auto, using(crate::proofs::ViewLemmas::nodes), unfolding(crate::specs::computed::View::parts_of))]
fn put_node(
    parts: &mut OpenParts,
    line: u64,
    start: usize,
    what: NodeKind,
) -> Result<(), AllocError>
    ensures parts { IfOk result (λ u. parts_of parts.new ≡ spec.put_before line (kind_of what) (parts_of parts.old)) }
    ensures definitions { OnOk result (parts.new.definitions ≡ parts.old.definitions) }
{
    add_node(&mut parts.inner.nodes, Node { line, start, what })?;
    Ok(())
}

/// Adds a node. The first one takes room for itself alone, since many parts have no other.
fn add_node(nodes: &mut Vec<Node>, node: Node) -> Result<(), AllocError>
    ensures { OnOk result (nodes.new.items ≡ nodes.old.items ++ node ∷ []) }
{
    if nodes.is_empty() {
        nodes.reserve_exact(1)?;
    }
    nodes.push(node)?;
    Ok(())
}

/// Puts a control before those of the part around: its body is the innermost part, after which its else part stands.
#[tactic(auto, using(crate::proofs::ViewLemmas::nodes), unfolding(crate::specs::computed::View::parts_of))]
fn put_control(
    alloc: Global,
    parts: &mut OpenParts,
    line: u64,
    start: usize,
    control: Control,
    header: Header,
) -> Result<(), AllocError>
    ensures parts { IfOk result (λ u. parts_of parts.new
        ≡ spec.control_before line control (header_of header) (parts_of parts.old)) }
    ensures definitions { OnOk result (parts.new.definitions ≡ parts.old.definitions) }
{
    let around = outer(alloc, &mut parts.around);
    let inner = mem::replace(&mut parts.inner, around);
    let what = control_kind(alloc, control, header, inner)?;
    put_node(parts, line, start, what)
}

/// A control whose body, and the else part after it, are these.
#[tactic(auto, using(crate::proofs::ViewLemmas::nodes), unfolding(crate::specs::computed::View::parts_of))]
fn control_kind(
    alloc: Global,
    control: Control,
    header: Header,
    parts: Level,
) -> Result<NodeKind, AllocError>
    ensures { IfOk result (λ k. kind_of k
        ≡ control_node control (header_of header) (level_of parts).nodes (level_of parts).other) }
{
    let node = ControlNode {
        control,
        header,
        body: in_order(parts.nodes),
        other: parts.other,
    };
    Ok(NodeKind::Control(Box::new(alloc, node)?))
}

/// Takes the nearest part around, or one of no nodes where there is none.
fn outer(alloc: Global, around: &mut Vec<Level>) -> Level
    ensures first { level_of result ≡ spec.first_of (map level_of (reverse around.old.items)) }
    ensures rest { map level_of (reverse around.new.items) ≡ spec.rest_of (map level_of (reverse around.old.items)) }
{
    match around.pop() {
        Some(level) => level,
        None => Level::new(alloc),
    }
}

/// Begins a part before an else part.
#[tactic(auto, using(crate::proofs::ViewLemmas::nodes), unfolding(crate::specs::computed::View::parts_of))]
fn begin_else(alloc: Global, parts: &mut OpenParts)
    ensures parts { parts_of parts.new ≡ spec.else_before (parts_of parts.old) }
    ensures definitions { parts.new.definitions ≡ parts.old.definitions }
{
    let nodes = mem::replace(&mut parts.inner.nodes, Vec::new(alloc));
    parts.inner.other = in_order(nodes);
}

/// Begins a part before an else part that is a control of its own.
#[tactic(auto, using(crate::proofs::ViewLemmas::nodes), unfolding(crate::specs::computed::View::parts_of))]
fn begin_branch(
    alloc: Global,
    parts: &mut OpenParts,
    line: u64,
    start: usize,
    branch: Branch,
    header: Header,
) -> Result<(), AllocError>
    ensures parts { IfOk result (λ u. parts_of parts.new
        ≡ spec.branch_before line branch (header_of header) (parts_of parts.old)) }
    ensures definitions { OnOk result (parts.new.definitions ≡ parts.old.definitions) }
{
    let inner = mem::replace(&mut parts.inner, Level::new(alloc));
    let what = control_kind(alloc, branch.control(), header, inner)?;
    parts.inner.other = vec![in alloc; Node { line, start, what }]?;
    Ok(())
}

/// Begins a part before an `end`.
#[tactic(auto, using(crate::proofs::ViewLemmas::nodes), unfolding(crate::specs::computed::View::parts_of))]
fn end(alloc: Global, parts: &mut OpenParts) -> Result<(), AllocError>
    ensures parts { IfOk result (λ u. parts_of parts.new ≡ spec.end_before (parts_of parts.old)) }
    ensures definitions { OnOk result (parts.new.definitions ≡ parts.old.definitions) }
{
    let inner = mem::replace(&mut parts.inner, Level::new(alloc));
    parts.around.push(inner)?;
    Ok(())
}
