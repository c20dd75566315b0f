//! What is done with the code so far.
ghost use Rattle.std.specs.Prelude.{◌≡◌, ◌++◌, ◌∷◌, ◌-◌, ◌≤◌, [], IfOk, OnErr, OnOk, length, true};
ghost use Rattle.tmpl_code.specs.Instruction.{act, chained, no_template, push_fields, push_text, put, refuse};
ghost use Rattle.tmpl_code.specs.Instruction.{show_fields, show_slot};
ghost use Rattle.tmpl_code.specs.View.{instruction_of, instructions_of};
ghost use Rattle.tmpl_code.specs.computed.Held.{Placed, Pushed, code_of};
ghost use Rattle.tmpl_code.specs.computed.Tables.{fits};

use super::Code;
use crate::instruction::Instruction;
use crate::pipeline::to_u32;
use crate::tables::Tables;
use std::alloc::{AllocError, Global};
use tmpl_syntax::Text;
use tmpl_values::Bytes;

/// How many instructions there is room for at first, as many as a short template has.
const FIRST_CAPACITY: usize = 16;

/// Adds an instruction, and takes room for as many more.
fn add_before(
    instructions: &mut Vec<Instruction>,
    instruction: Instruction,
    more: usize,
) -> Result<(), AllocError>
    ensures added { OnOk result (instructions.new.items ≡ instructions.old.items ++ instruction ∷ []) }
    ensures kept { OnErr result (instructions.new.items ≡ instructions.old.items) }
{
    instructions.reserve(more.saturating_add(1))?;
    instructions.push(instruction)?;
    Ok(())
}

impl Code {
    /// No code.
    #[tactic(auto, unfolding(crate::specs::computed::Held::code_of))]
    pub(crate) fn new(alloc: Global) -> Result<Self, AllocError>
        ensures { IfOk result (λ c. code_of c ≡ []) }
    {
        Ok(Code {
            tables: Tables::new(alloc),
            instructions: Vec::with_capacity(alloc, FIRST_CAPACITY)?,
        })
    }

    /// How many instructions there are.
    #[tactic(auto, using(crate::proofs::HeldLemmas::code_length), unfolding(crate::specs::computed::Held::code_of))]
    pub(crate) fn len(&self) -> usize
        ensures { result ≡ length (code_of self.now) }
    {
        self.instructions.len()
    }

    /// How many instructions were put since there were this many.
    pub(crate) fn since(&self, count: usize) -> Result<u32, AllocError>
        requires { count ≤ length (code_of self.now) }
        ensures { IfOk result (λ n. n ≡ length (code_of self.now) - count) }
    {
        to_u32(self.len() - count)
    }

    /// Puts an instruction before the others. What it names is in the tables.
    #[tactic(auto, using(crate::proofs::HeldLemmas::code_push, crate::proofs::TailLemmas::ends_one), unfolding(crate::specs::computed::Held::code_of))]
    pub(crate) fn push(&mut self, instruction: Instruction) -> Result<(), AllocError>
        requires { fits self.old.tables instruction ≡ true }
        ensures { OnOk result (Placed (Pushed (instruction_of self.old.tables instruction))
            self.old self.new) }
    {
        self.instructions.push(instruction)?;
        Ok(())
    }

    /// Puts an instruction before the others, and takes room for as many more as are to be put before it at least.
    pub(crate) fn push_before(
        &mut self,
        instruction: Instruction,
        more: usize,
    ) -> Result<(), AllocError>
        requires { fits self.old.tables instruction ≡ true }
        ensures { OnOk result (Placed (Pushed (instruction_of self.old.tables instruction))
            self.old self.new) }
    {
        add_before(&mut self.instructions, instruction, more)?;
        Ok(())
    }

    /// Puts what takes a step at this line and puts out a text before the others.
    pub(crate) fn push_put(&mut self, text: &Text, line: u32) -> Result<(), AllocError>
        ensures { OnOk result (Placed (Pushed (put line text.now)) self.old self.new) }
    {
        let place = self.tables.add_text(text)?;
        self.push(Instruction::Put { text: place, line })
    }

    /// Puts what puts a text on the stack before the others.
    pub(crate) fn push_text(&mut self, text: &Bytes) -> Result<(), AllocError>
        ensures { OnOk result (Placed (Pushed (act (push_text text.now))) self.old self.new) }
    {
        let place = self.tables.add_name(text.as_slice())?;
        self.push(Instruction::PushText(place))
    }

    /// Puts what puts a field of a field of .. of dot on the stack before the others.
    pub(crate) fn push_fields(&mut self, names: &[Bytes]) -> Result<(), AllocError>
        ensures { OnOk result (Placed (Pushed (act (push_fields names.now))) self.old self.new) }
    {
        let span = self.tables.add_names(names)?;
        self.push(Instruction::PushFields(span))
    }

    /// Puts what takes a step at this line and shows a field of a field of .. of dot before the others.
    pub(crate) fn push_show_fields(&mut self, names: &[Bytes], line: u32) -> Result<(), AllocError>
        ensures { OnOk result (Placed (Pushed (show_fields line names.now)) self.old self.new) }
    {
        let span = self.tables.add_names(names)?;
        self.push(Instruction::ShowFields { names: span, line })
    }

    /// Puts what takes a step at this line and shows a field of the value of a slot before the others.
    pub(crate) fn push_show_slot_field(
        &mut self,
        slot: u32,
        name: &Bytes,
        line: u32,
    ) -> Result<(), AllocError>
        ensures { OnOk result (Placed (Pushed (show_slot line slot (name.now ∷ []))) self.old self.new) }
    {
        let place = self.tables.add_name(name.as_slice())?;
        self.push(Instruction::ShowSlotField {
            slot,
            name: place,
            line,
        })
    }

    /// Puts what takes the newest value for a field of a field of .. of it before the others.
    pub(crate) fn push_chain(&mut self, names: &[Bytes]) -> Result<(), AllocError>
        ensures { OnOk result (Placed (Pushed (act (chained names.now))) self.old self.new) }
    {
        let span = self.tables.add_names(names)?;
        self.push(Instruction::Chain(span))
    }

    /// Puts what stops, as there is no template of this name, before the others.
    pub(crate) fn push_refusal(&mut self, name: &Bytes) -> Result<(), AllocError>
        ensures { OnOk result (Placed (Pushed (act (refuse (no_template name.now)))) self.old self.new) }
    {
        let place = self.tables.add_name(name.as_slice())?;
        self.push(Instruction::RefuseTemplate(place))
    }

    /// The instructions, the first one first, and what they name.
    #[tactic(auto, unfolding(crate::specs::computed::Held::code_of))]
    pub(crate) fn into_parts(self) -> (Tables, Vec<Instruction>)
        ensures { instructions_of result.0 result.1.items ≡ code_of self }
    {
        let Code {
            tables,
            mut instructions,
        } = self;
        instructions.reverse();
        (tables, instructions)
    }
}
