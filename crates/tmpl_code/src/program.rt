//! Programs: the code of all templates of a set.
ghost use Rattle.std.specs.Prelude.{◌≡◌, ◌≤◌, ℕ, IfSome, option_map};
ghost use Rattle.tmpl_syntax.specs.Set.{number_of};
ghost use Rattle.tmpl_syntax.specs.View.{set_view};

use crate::claims::Claims;
use crate::instruction::Instruction;
use crate::tables::Tables;
use std::marker::Model;
use std::snapshot::Snapshot;
use tmpl_syntax::Set;

/// What a program is made of, which others may read.
#[derive(Drop)]
pub struct Parts {
    /// The names and files of the templates.
    pub outline: Set,
    /// What the instructions name.
    pub tables: Tables,
    pub instructions: Vec<Instruction>,
    /// Where the code of each template starts, in the order of the set.
    pub starts: Vec<usize>,
    /// The set that this is the code of, which clauses alone see.
    pub set: Snapshot<Set>,
}

/// The code of the templates of a set. It owns all that a run needs of them, so the set may be changed or go. Clauses
/// see its parts, and it has no others than those that `compile` makes.
#[derive(Drop)]
pub struct Program {
    pub(crate) parts: Parts,
    /// The largest need of any template, in cells.
    pub(crate) need: u32,
    /// Together with `each` more cells for each level of calls, enough cells for every run.
    pub(crate) fixed: u64,
    pub(crate) each: u32,
    /// What each template claims, where that is known.
    pub(crate) claims: Option<Claims>,
    pub(crate) makes_text: bool,
}

impl Model for Program {
    ghost use Rattle.tmpl_code.specs.declared.program.Parts.{Parts};

    ghost Value = { Parts };

    ghost use Rattle.std.specs.Coded.{codes};
    ghost use Rattle.tmpl_syntax.specs.contracts.set.Set as held;

    ghost coded = { Prim.hlevel (codes, held.the_row.coded) };

    ghost use Rattle.tmpl_code.specs.Program.{IsCompiled};

    ghost view = { λ p. p.parts };

    ghost invariant = { IsCompiled };
}

/// A template of a program, by its number.
#[derive(Clone, Copy)]
pub struct Entry {
    pub number: usize,
}

impl Program {
    ghost use Rattle.tmpl_code.specs.MakesText.{set_makes_text};
    ghost use Rattle.tmpl_code.specs.Program.{IsLinked, IsOutline};
    ghost use Rattle.tmpl_code.specs.Room.{Suffices, room};

    /// What the program is made of: its code is that of its set.
    pub fn parts(&self) -> &Parts
        ensures value { result.now ≡ self.now }
        ensures linked { IsLinked result.now }
        ensures outline { IsOutline result.now }
    {
        &self.parts
    }

    /// The template of this name, if the set has one.
    pub fn entry(&self, name: &[u8]) -> Option<Entry>
        ensures { option_map (λ e. e.number) result ≡ number_of name.now (set_view self.now.set.value) }
    {
        match self.parts.outline.number(name) {
            Some(number) => Some(Entry { number }),
            None => None,
        }
    }

    /// How many cells are enough for every run, where this many templates may be inside one another: the depth times
    /// what the template needs that needs most.
    #[tactic(auto, using(crate::proofs::BoundLemmas::room_suffices))]
    pub fn room(&self, depth: u32) -> u64
        ensures value { result ≡ room depth (set_view self.now.set.value) }
        ensures enough { (first : ℕ) → Suffices depth (set_view self.now.set.value) first result }
    {
        depth as u64 * self.need as u64
    }

    /// How many cells are enough for every run, where this many templates may be inside one another: as many as the chain
    /// of calls needs that needs most, where no calls go in a cycle, and never more than the room.
    #[tactic(auto, using(crate::proofs::BoundLemmas::room_suffices))]
    pub fn cells(&self, depth: u32) -> u64
        ensures enough { (first : ℕ) → Suffices depth (set_view self.now.set.value) first result }
        ensures within { result ≤ room depth (set_view self.now.set.value) }
    {
        let room = self.room(depth);
        let grown = depth as u64 * self.each as u64;
        match grown.checked_add(self.fixed) {
            Some(cells) if cells < room => cells,
            _ => room,
        }
    }

    /// How many cells are enough for every run that begins with this template, where this many templates may be inside
    /// one another: what the chains of calls from it need, as far as that is known, and never more than [`Program::cells`].
    pub fn cells_for(&self, entry: Entry, depth: u32) -> u64
        ensures enough { Suffices depth (set_view self.now.set.value) entry.number result }
        ensures within { result ≤ room depth (set_view self.now.set.value) }
    {
        let cells = self.cells(depth);
        match self.claimed(entry, depth) {
            Some(claimed) if claimed < cells => claimed,
            _ => cells,
        }
    }

    /// What the template claims, where that is known.
    fn claimed(&self, entry: Entry, depth: u32) -> Option<u64>
        ensures { IfSome result (Suffices depth (set_view self.now.set.value) entry.number) }
    {
        match &self.claims {
            Some(claims) => claims.of(entry.number, depth),
            None => None,
        }
    }

    /// Whether a template names a function that makes a text. Where none does, no run takes memory.
    pub fn makes_text(&self) -> bool
        ensures { result ≡ set_makes_text (set_view self.now.set.value) }
    {
        self.makes_text
    }
}
