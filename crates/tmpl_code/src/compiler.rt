//! Sets to programs.
ghost use Rattle.std.specs.Prelude.{◌≡◌, ◌+◌, IfOk, OnOk, reverse};
ghost use Rattle.tmpl_syntax.specs.Need.{need_of_nodes};
ghost use Rattle.tmpl_syntax.specs.View.{nodes_in, set_view};
ghost use Rattle.tmpl_code.specs.computed.Weights.{nodes_call};
ghost use Rattle.tmpl_code.specs.Code as spec;
ghost use Rattle.tmpl_code.specs.Layout.{first_layout};
ghost use Rattle.tmpl_code.specs.MakesText.{nodes_make_text};
ghost use Rattle.tmpl_code.specs.Program.{IsLinked, IsOutline};
ghost use Rattle.tmpl_code.specs.View.{instructions_of};
ghost use Rattle.tmpl_code.specs.computed.Surveyed.{Surveys, SurveysNodes};
ghost use Rattle.tmpl_code.specs.computed.Held.{IsOpen, Placed, Put, code_of, layout_of, places};

use crate::bound::bound_of;
use crate::code::Code;
use crate::instruction::Instruction;
use crate::node::{
    Compiler, Site, declared_in, grow_all, left_after, number_called, put_step, shrink,
};
use crate::pipeline::to_u32;
use crate::program::{Parts, Program};
use crate::scope::Scope;
use crate::survey::{Survey, survey_node};
use crate::tables::Tables;
use std::alloc::{AllocError, Global};
use std::snapshot::Snapshot;
use tmpl_syntax::{Node, Set};

/// The code of the templates of a set. An error is want of memory; code that counts beyond 32 bits, which would take
/// 64 GiB, is answered so too.
#[tactic(auto, using(crate::proofs::BackwardLemmas::from_none))]
pub fn compile(alloc: Global, set: &Set) -> Result<Program, AllocError>
    ensures linked { IfOk result (λ p. IsLinked p) }
    ensures set { IfOk result (λ p. set_view p.set.value ≡ set_view set.now) }
{
    let count = set.len();
    let mut compiler = Compiler {
        code: Code::new(alloc)?,
        scope: Scope::new(alloc),
    };
    let mut lengths = Vec::with_capacity(alloc, count)?;
    let mut needs = Vec::with_capacity(alloc, count)?;
    let mut survey = Survey::cells(0);
    let mut i = count;
    while i > 0 {
        i -= 1;
        let (_, tree) = set.template(i);
        let nodes = tree.nodes.as_slice();
        let own = compiler.put_tree(alloc, set, nodes)?;
        lengths.push(compiler.code.len())?;
        needs.push(own.need)?;
        survey = own.with(survey);
    }
    lengths.reverse();
    needs.reverse();
    let code = compiler.code;
    to_places(lengths.as_mut_slice(), code.len());
    let (tables, instructions) = code.into_parts();
    let bound = bound_of(
        alloc,
        set,
        instructions.as_slice(),
        lengths.as_slice(),
        needs,
        survey,
    )?;
    let parts = parts_of(alloc, set, tables, instructions, lengths)?;
    Ok(Program {
        parts,
        need: survey.need as u32,
        fixed: bound.fixed as u64,
        each: bound.each as u32,
        claims: bound.claims,
        makes_text: survey.makes_text,
    })
}

/// The parts of a program of the set, with this code.
fn parts_of(
    alloc: Global,
    set: &Set,
    tables: Tables,
    instructions: Vec<Instruction>,
    starts: Vec<usize>,
) -> Result<Parts, AllocError>
    requires { let ts = set_view set.now in
        spec.Starts ts ts starts.items (instructions_of tables instructions.items) }
    ensures linked { IfOk result IsLinked }
    ensures outline { IfOk result IsOutline }
    ensures set { IfOk result (λ p. set_view p.set.value ≡ set_view set.now) }
{
    Ok(Parts {
        outline: set.outline(alloc)?,
        tables,
        instructions,
        starts,
        set: Snapshot::of(set),
    })
}

impl<'s> Compiler<'s> {
    /// Puts the code of a template before that of the others, and tells what the template needs, with three cells of
    /// its own, and does.
    fn put_tree(
        &mut self,
        alloc: Global,
        set: &Set,
        nodes: &'s [Node],
    ) -> Result<Survey, AllocError>
        ensures put { OnOk result
            (Placed (spec.TreeAt (set_view set.now) (nodes_in nodes.now)) self.old.code self.new.code) }
        ensures survey { let ns = nodes_in nodes.now in
            IfOk result (Surveys (3 + need_of_nodes ns) (nodes_make_text ns) (nodes_call ns)) }
    {
        self.scope = first_scope(alloc)?;
        // each node has an instruction at least
        self.code.push_before(
            Instruction::Return(to_u32(declared_in(nodes)?)?),
            nodes.len(),
        )?;
        self.put_surveyed(Site { set, exit: None }, nodes)?.above(3)
    }

    /// Puts the nodes of a template, and tells what they need and do. Each is surveyed as soon as it is put, while its
    /// part of the tree is at hand.
    #[tactic(auto, using(crate::proofs::TailLemmas::ends, crate::proofs::BackwardLemmas::from_none))]
    fn put_surveyed(&mut self, site: Site<'_>, nodes: &'s [Node]) -> Result<Survey, AllocError>
        requires { IsOpen site.exit (code_of self.old.code) (layout_of self.old.scope) }
        ensures put { OnOk result (Put (spec.NodesAt (set_view site.entry.set.now) (nodes_in nodes.now))
            site.entry.exit self.old self.new) }
        ensures survey { IfOk result (SurveysNodes (nodes_in nodes.now)) }
    {
        grow_all(&mut self.scope, nodes)?;
        let mut survey = Survey::cells(0);
        let mut i = nodes.len();
        while i > 0 {
            i -= 1;
            let node = &nodes[i];
            shrink(&mut self.scope, node);
            let number = number_called(site.set, node);
            self.put_node(site, node, number)?;
            put_step(&mut self.code, node, number)?;
            survey = survey_node(node)?.with(survey.above(left_after(node))?);
        }
        Ok(survey)
    }
}

/// The cells of a template at its start.
fn first_scope<'s>(alloc: Global) -> Result<Scope<'s>, AllocError>
    ensures { IfOk result (λ s. layout_of s ≡ first_layout) }
{
    let mut scope = Scope::new(alloc);
    scope.save()?;
    scope.save()?;
    scope.declare(b"")?;
    Ok(scope)
}

/// Makes of each count of instructions the place from which on there are this many, in code of this size.
fn to_places(counts: &mut [usize], size: usize)
    ensures { counts.new ≡ places size counts.old }
{
    for count in counts.iter_mut() {
        *count = size.saturating_sub(*count);
    }
}
