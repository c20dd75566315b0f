//! Nodes to code, each from its last part to its first.
#![tactic(auto, using(crate::proofs::TailLemmas::ends))]

ghost use Rattle.std.specs.Prelude.{◌≡◌, ◌+◌, ◌≤◌, IfOk, OnOk, Some, length, option_map};
ghost use Rattle.tmpl_grammar.specs.Need.{declared_count};
ghost use Rattle.tmpl_grammar.specs.View.{binding_of, pipeline_of};
ghost use Rattle.tmpl_grammar.specs.declared.tree.Control.TheVariants as control;
ghost use Rattle.tmpl_syntax.specs.Need.{left_after};
ghost use Rattle.tmpl_syntax.specs.View.{control_of, node_of, nodes_in, set_view};
ghost use Rattle.tmpl_code.specs.Code as spec;
ghost use Rattle.tmpl_code.specs.Layout.{declared_in, after_node};
ghost use Rattle.tmpl_code.specs.computed.Held.{BoundPart, DottedPart, EndedPart, IsOpen, PartsAt, Placed, Put, StepBy};
ghost use Rattle.tmpl_code.specs.computed.Held.{TurnsPart, all_grown, code_of, exit_seen, layout_of, number_called, shrunk};

use crate::binding::{
    close, declared_count, declares, declares_key, open, put_action, put_header, put_turn,
};
use crate::code::Code;
use crate::instruction::Instruction;
use crate::pipeline::{put_pipeline, sum, to_u32};
use crate::scope::Scope;
use std::alloc::AllocError;
use tmpl_grammar::{Binding, Control, Header, Pipeline};
use tmpl_syntax::{ControlNode, Node, NodeKind, Set};
use tmpl_values::Bytes;

/// The range around a place.
#[derive(Clone, Copy)]
pub(crate) struct Around {
    /// How many instructions lie after it.
    pub(crate) after: usize,
    pub(crate) line: u32,
    /// How many cells lie below its own.
    pub(crate) below: usize,
}

/// What nodes are put by: the set whose templates they call, and the range around them, if there is one.
#[derive(Clone, Copy)]
pub(crate) struct Site<'t> {
    pub(crate) set: &'t Set,
    pub(crate) exit: Option<Around>,
}

/// The parts of a control.
#[derive(Clone, Copy)]
pub(crate) struct ControlParts<'s> {
    pub(crate) header: &'s Header,
    pub(crate) body: &'s [Node],
    pub(crate) other: &'s [Node],
}

/// The code so far, and the cells where more of it is put.
#[derive(Drop)]
pub(crate) struct Compiler<'s> {
    pub(crate) code: Code,
    pub(crate) scope: Scope<'s>,
}

/// How many variables the nodes leave.
pub(crate) fn declared_in(nodes: &[Node]) -> Result<usize, AllocError>
    ensures { IfOk result (λ n. n ≡ declared_in (nodes_in nodes.now)) }
{
    let mut count = 0;
    let mut i = nodes.len();
    while i > 0 {
        i -= 1;
        count = sum(left_after(&nodes[i]), count)?;
    }
    Ok(count)
}

/// How many variables a header and the nodes leave.
fn declared_by(binding: &Binding, nodes: &[Node]) -> Result<u32, AllocError>
    ensures { IfOk result (λ n. n ≡ declared_count (binding_of binding.now) + declared_in (nodes_in nodes.now)) }
{
    to_u32(sum(declared_count(binding), declared_in(nodes)?)?)
}

/// How many variables a node leaves.
pub(crate) fn left_after(node: &Node) -> usize
    ensures { result ≡ left_after (node_of node.now).what }
{
    match &node.what {
        NodeKind::Action(header) => declared_count(&header.binding),
        NodeKind::Text(_)
        | NodeKind::Control(_)
        | NodeKind::Break
        | NodeKind::Continue
        | NodeKind::Template(..) => 0,
    }
}

/// The variables that a node leaves come into scope.
fn grow<'s>(scope: &mut Scope<'s>, node: &'s Node) -> Result<(), AllocError>
    ensures { OnOk result (layout_of scope.new ≡ after_node (node_of node.now).what (layout_of scope.old)) }
{
    match &node.what {
        NodeKind::Action(header) => open(scope, &header.binding),
        NodeKind::Text(_)
        | NodeKind::Control(_)
        | NodeKind::Break
        | NodeKind::Continue
        | NodeKind::Template(..) => Ok(()),
    }
}

/// They go out of scope.
pub(crate) fn shrink(scope: &mut Scope<'_>, node: &Node)
    ensures { layout_of scope.new ≡ shrunk (node_of node.now).what (layout_of scope.old) }
{
    match &node.what {
        NodeKind::Action(header) => close(scope, &header.binding),
        NodeKind::Text(_)
        | NodeKind::Control(_)
        | NodeKind::Break
        | NodeKind::Continue
        | NodeKind::Template(..) => {}
    }
}

/// The variables that the nodes leave come into scope.
pub(crate) fn grow_all<'s>(scope: &mut Scope<'s>, nodes: &'s [Node]) -> Result<(), AllocError>
    ensures { OnOk result (layout_of scope.new ≡ all_grown (nodes_in nodes.now) (layout_of scope.old)) }
{
    for node in nodes {
        grow(scope, node)?;
    }
    Ok(())
}

/// Puts a break.
fn put_break(code: &mut Code, scope: &Scope<'_>, exit: Option<Around>) -> Result<(), AllocError>
    requires { IsOpen exit (code_of code.old) (layout_of scope.now) }
    ensures { OnOk result (Placed (spec.BreakAt (exit_seen exit (code_of code.old)) (layout_of scope.now))
        code.old code.new) }
{
    match exit {
        Some(around) => {
            let count = to_u32(scope.len() - around.below - 2)?;
            let skip = to_u32(code.len() - around.after)?;
            code.push(Instruction::Leave { count, skip })
        }
        None => code.push(Instruction::Return(to_u32(scope.len().saturating_sub(3))?)),
    }
}

/// Puts a continue.
fn put_continue(code: &mut Code, scope: &Scope<'_>, exit: Option<Around>) -> Result<(), AllocError>
    requires { IsOpen exit (code_of code.old) (layout_of scope.now) }
    ensures { OnOk result (Placed (spec.ContinueAt (exit_seen exit (code_of code.old)) (layout_of scope.now))
        code.old code.new) }
{
    match exit {
        Some(around) => {
            let count = to_u32(scope.len() - around.below - 2)?;
            let skip = to_u32(code.len() - around.after)?;
            code.push(Instruction::Next {
                count,
                skip,
                line: around.line,
            })
        }
        None => code.push(Instruction::Return(to_u32(scope.len().saturating_sub(3))?)),
    }
}

/// Puts a call of the template of this name and number, if there is one.
#[tactic(auto, using(crate::proofs::TailLemmas::ends, crate::proofs::TailLemmas::placed_on))]
fn put_template(
    code: &mut Code,
    scope: &Scope<'_>,
    name: &Bytes,
    number: Option<usize>,
    given: &Option<Pipeline>,
) -> Result<(), AllocError>
    ensures { OnOk result (Placed (spec.CallAt name.now number (option_map pipeline_of given.now) (layout_of scope.now))
        code.old code.new) }
{
    match number {
        Some(number) => {
            code.push(Instruction::Invoke(to_u32(number)?))?;
            put_given(code, scope, given)
        }
        None => code.push_refusal(name),
    }
}

/// Puts what is handed to a template.
fn put_given(code: &mut Code, scope: &Scope<'_>, given: &Option<Pipeline>) -> Result<(), AllocError>
    ensures { OnOk result (Placed (spec.GivenAt (option_map pipeline_of given.now) (layout_of scope.now))
        code.old code.new) }
{
    match given {
        Some(pipeline) => put_pipeline(code, scope, pipeline),
        None => code.push(Instruction::PushNothing),
    }
}

/// The number of the template that a node calls, where it calls one that is there.
pub(crate) fn number_called(set: &Set, node: &Node) -> Option<usize>
    ensures { result ≡ number_called (set_view set.now) (node_of node.now).what }
{
    match &node.what {
        NodeKind::Template(name, _) => set.number(name.as_slice()),
        NodeKind::Text(_)
        | NodeKind::Action(_)
        | NodeKind::Control(_)
        | NodeKind::Break
        | NodeKind::Continue => None,
    }
}

/// Puts what takes the step of a node, or, for a call of the template of this number, looks whether one is left. The
/// code of a text or an action takes its step itself.
#[tactic(auto, using(tmpl_syntax::proofs::ViewLemmas::nodes, crate::proofs::TailLemmas::ends))]
pub(crate) fn put_step(
    code: &mut Code,
    node: &Node,
    number: Option<usize>,
) -> Result<(), AllocError>
    ensures { OnOk result (Placed (StepBy (node_of node.now).line (node_of node.now).what number) code.old code.new) }
{
    match &node.what {
        NodeKind::Text(_) | NodeKind::Action(_) => Ok(()),
        NodeKind::Control(_) | NodeKind::Break | NodeKind::Continue | NodeKind::Template(..) =>
            match number {
                Some(_) => code.push(Instruction::Deepen(node.line)),
                None => code.push(Instruction::Spend(node.line)),
            },
    }
}

/// Puts what ends a part: it forgets this many cells and passes over this many instructions. Where there is none of
/// either, nothing ends it.
#[tactic(auto, using(crate::proofs::TailLemmas::end_at, crate::proofs::TailLemmas::ends))]
fn put_end(code: &mut Code, count: u32, skip: u32) -> Result<(), AllocError>
    ensures { OnOk result (Placed (spec.EndAt count skip) code.old code.new) }
{
    match (count, skip) {
        (0, 0) => Ok(()),
        _ => code.push(Instruction::Forget { count, skip }),
    }
}

impl<'s> Compiler<'s> {
    /// Puts nodes, each of which costs a step.
    #[cycle(nodes)]
    pub(crate) fn put_nodes(&mut self, site: Site<'_>, nodes: &'s [Node]) -> Result<(), AllocError>
        requires { IsOpen site.exit (code_of self.old.code) (layout_of self.old.scope) }
        ensures { OnOk result (Put (spec.NodesAt (set_view site.entry.set.now) (nodes_in nodes.now))
            site.entry.exit self.old self.new) }
    {
        grow_all(&mut self.scope, nodes)?;
        let mut i = nodes.len();
        while i > 0 {
            i -= 1;
            let node = &nodes[i];
            shrink(&mut self.scope, node);
            let number = number_called(site.set, node);
            self.put_node(site, node, number)?;
            put_step(&mut self.code, node, number)?;
        }
        Ok(())
    }

    /// Puts a node without what takes its step before it. The number is that of the template that it calls.
    #[cycle(nodes)]
    #[tactic(auto, using(tmpl_syntax::proofs::ViewLemmas::controls, crate::proofs::TailLemmas::ends))]
    pub(crate) fn put_node(
        &mut self,
        site: Site<'_>,
        node: &'s Node,
        number: Option<usize>,
    ) -> Result<(), AllocError>
        requires exit { IsOpen site.exit (code_of self.old.code) (layout_of self.old.scope) }
        requires number { number ≡ number_called (set_view site.set.now) (node_of node.now).what }
        ensures { OnOk result (Put
            (spec.NodeAt (set_view site.entry.set.now) (node_of node.now).line (node_of node.now).what)
            site.entry.exit self.old self.new) }
    {
        match &node.what {
            NodeKind::Text(text) => self.code.push_put(text, to_u32(node.line as usize)?),
            NodeKind::Action(header) => {
                put_action(&mut self.code, &self.scope, node.line, header)
            }
            NodeKind::Control(control) => self.put_control(site, node.line, control),
            NodeKind::Break => put_break(&mut self.code, &self.scope, site.exit),
            NodeKind::Continue => put_continue(&mut self.code, &self.scope, site.exit),
            NodeKind::Template(name, given) => {
                put_template(&mut self.code, &self.scope, name, number, given)
            }
        }
    }

    /// Puts a control.
    #[cycle(nodes)]
    #[tactic(auto, using(tmpl_syntax::proofs::ViewLemmas::controls, crate::proofs::TailLemmas::ends))]
    fn put_control(
        &mut self,
        site: Site<'_>,
        line: u64,
        node: &'s ControlNode,
    ) -> Result<(), AllocError>
        requires { IsOpen site.exit (code_of self.old.code) (layout_of self.old.scope) }
        ensures { OnOk result (Put (spec.NodeAt (set_view site.entry.set.now) line (control_of node.now))
            site.entry.exit self.old self.new) }
    {
        let parts = ControlParts {
            header: &node.header,
            body: node.body.as_slice(),
            other: node.other.as_slice(),
        };
        match node.control {
            Control::If => self.put_if(site, parts),
            Control::With => self.put_with(site, parts),
            Control::Range => self.put_range(site, to_u32(line as usize)?, parts),
        }
    }

    /// Puts an `if`.
    #[cycle(nodes)]
    #[tactic(auto, using(crate::proofs::TailLemmas::ends, crate::proofs::TailLemmas::longer))]
    fn put_if(&mut self, site: Site<'_>, parts: ControlParts<'s>) -> Result<(), AllocError>
        requires { IsOpen site.exit (code_of self.old.code) (layout_of self.old.scope) }
        ensures { OnOk result (Put (PartsAt (set_view site.entry.set.now) 0 control.If parts.entry)
            site.entry.exit self.old self.new) }
    {
        let end = self.code.len();
        self.put_ended(site, &parts.header.binding, parts.other, 0)?;
        let second = self.code.len();
        let to = self.code.since(end)?;
        self.put_ended(site, &parts.header.binding, parts.body, to)?;
        let kept = declares(&parts.header.binding);
        let skip = self.code.since(second)?;
        self.code.push(Instruction::Unless { kept, skip })?;
        put_header(&mut self.code, &self.scope, parts.header)
    }

    /// Puts a `with`.
    #[cycle(nodes)]
    #[tactic(auto, using(crate::proofs::TailLemmas::ends, crate::proofs::TailLemmas::longer, crate::proofs::TailLemmas::open_on))]
    fn put_with(&mut self, site: Site<'_>, parts: ControlParts<'s>) -> Result<(), AllocError>
        requires { IsOpen site.exit (code_of self.old.code) (layout_of self.old.scope) }
        ensures { OnOk result (Put (PartsAt (set_view site.entry.set.now) 0 control.With parts.entry)
            site.entry.exit self.old self.new) }
    {
        let end = self.code.len();
        self.put_ended(site, &parts.header.binding, parts.other, 0)?;
        let second = self.code.len();
        let skip = self.code.since(end)?;
        self.code.push(Instruction::EndWith {
            count: to_u32(declared_in(parts.body)?)?,
            variables: to_u32(declared_count(&parts.header.binding))?,
            skip,
        })?;
        self.put_dotted_part(site, &parts.header.binding, parts.body)?;
        let kept = declares(&parts.header.binding);
        let skip = self.code.since(second)?;
        self.code.push(Instruction::EnterWith { kept, skip })?;
        put_header(&mut self.code, &self.scope, parts.header)
    }

    /// Puts a range.
    #[cycle(nodes)]
    #[tactic(auto, using(crate::proofs::TailLemmas::ends, crate::proofs::TailLemmas::longer))]
    fn put_range(
        &mut self,
        site: Site<'_>,
        line: u32,
        parts: ControlParts<'s>,
    ) -> Result<(), AllocError>
        requires { IsOpen site.exit (code_of self.old.code) (layout_of self.old.scope) }
        ensures { OnOk result (Put (PartsAt (set_view site.entry.set.now) line control.Range parts.entry)
            site.entry.exit self.old self.new) }
    {
        let after = self.code.len();
        put_end(&mut self.code, to_u32(declared_in(parts.other)?)?, 0)?;
        self.put_nodes(site, parts.other)?;
        let second = self.code.len();
        let count = declared_by(&parts.header.binding, parts.body)?;
        let skip = self.code.since(after)?;
        self.code.push(Instruction::Next { count, skip, line })?;
        let below = self.scope.len();
        self.put_turns(
            site.set,
            Around { after, line, below },
            &parts.header.binding,
            parts.body,
        )?;
        let key = declares_key(&parts.header.binding);
        let skip = self.code.since(second)?;
        self.code.push(Instruction::Enter { key, skip })?;
        put_pipeline(&mut self.code, &self.scope, &parts.header.pipeline)
    }

    /// Puts a part after a header, and what ends it: it forgets the part's variables and passes over this many
    /// instructions.
    #[cycle(nodes)]
    #[tactic(auto, using(crate::proofs::TailLemmas::ends, crate::proofs::TailLemmas::open_on))]
    fn put_ended(
        &mut self,
        site: Site<'_>,
        binding: &'s Binding,
        nodes: &'s [Node],
        skip: u32,
    ) -> Result<(), AllocError>
        requires { IsOpen site.exit (code_of self.old.code) (layout_of self.old.scope) }
        ensures { OnOk result (Put
            (EndedPart (set_view site.entry.set.now) (binding_of binding.now) (nodes_in nodes.now) skip)
            site.entry.exit self.old self.new) }
    {
        put_end(&mut self.code, declared_by(binding, nodes)?, skip)?;
        self.put_part(site, binding, nodes)
    }

    /// Puts a part after a header.
    #[cycle(nodes)]
    #[tactic(auto, using(crate::proofs::NodeLemmas::offs, crate::proofs::TailLemmas::ends))]
    fn put_part(
        &mut self,
        site: Site<'_>,
        binding: &'s Binding,
        nodes: &'s [Node],
    ) -> Result<(), AllocError>
        requires { IsOpen site.exit (code_of self.old.code) (layout_of self.old.scope) }
        ensures { OnOk result (Put
            (BoundPart (set_view site.entry.set.now) (binding_of binding.now) (nodes_in nodes.now))
            site.entry.exit self.old self.new) }
    {
        open(&mut self.scope, binding)?;
        self.put_nodes(site, nodes)?;
        close(&mut self.scope, binding);
        Ok(())
    }

    /// Puts a part after a header and a saved dot.
    #[cycle(nodes)]
    #[tactic(auto, using(crate::proofs::NodeLemmas::offs, crate::proofs::TailLemmas::ends))]
    fn put_dotted_part(
        &mut self,
        site: Site<'_>,
        binding: &'s Binding,
        nodes: &'s [Node],
    ) -> Result<(), AllocError>
        requires { IsOpen site.exit (code_of self.old.code) (layout_of self.old.scope) }
        ensures { OnOk result (Put
            (DottedPart (set_view site.entry.set.now) (binding_of binding.now) (nodes_in nodes.now))
            site.entry.exit self.old self.new) }
    {
        open(&mut self.scope, binding)?;
        self.scope.save()?;
        self.put_nodes(site, nodes)?;
        self.scope.forget();
        close(&mut self.scope, binding);
        Ok(())
    }

    /// Puts the body of a range, and before it what binds the variables.
    #[cycle(nodes)]
    #[tactic(auto, using(crate::proofs::NodeLemmas::offs, crate::proofs::TailLemmas::ends))]
    fn put_turns(
        &mut self,
        set: &Set,
        around: Around,
        binding: &'s Binding,
        body: &'s [Node],
    ) -> Result<(), AllocError>
        requires after { around.after ≤ length (code_of self.old.code) }
        requires below { around.below ≡ length (layout_of self.old.scope) }
        ensures { OnOk result (Put (TurnsPart (set_view set.now) (binding_of binding.now) (nodes_in body.now))
            (Some around) self.old self.new) }
    {
        self.scope.save()?;
        self.scope.save()?;
        open(&mut self.scope, binding)?;
        self.put_nodes(
            Site {
                set,
                exit: Some(around),
            },
            body,
        )?;
        close(&mut self.scope, binding);
        put_turn(&mut self.code, &self.scope, binding)?;
        self.scope.forget();
        self.scope.forget();
        Ok(())
    }
}
