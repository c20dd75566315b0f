//! Runs over cells that are reserved, and filled only as calls go down: so a run that may go deep touches no more memory
//! than it uses.
ghost use Rattle.std.specs.Prelude.{◌≡◌, ◌-◌, ◌<◌, ◌≤◌, ◌^◌, IfSome, get_or, length, option_map, slice_get, take};
ghost use Rattle.std.specs.Prelude.{vec_capacity, vec_len, Ok};
ghost use Rattle.tmpl_values.specs.View.{value_of};
ghost use Rattle.tmpl_syntax.specs.View.{set_view};
ghost use Rattle.tmpl_meaning.specs.Meaning.{ran};
ghost use Rattle.tmpl_meaning.specs.Sink.{sunk};
ghost use Rattle.tmpl_meaning.specs.View.{rules_of};
ghost use Rattle.tmpl_code.specs.Program.{IsOutline};
ghost use Rattle.tmpl_code.specs.Room.{Suffices};
ghost use Rattle.tmpl_engine.specs.Run.{IsRun};
ghost use Rattle.tmpl_engine.specs.State.{starting, starting_dot};
ghost use Rattle.tmpl_engine.specs.computed.Came.{Aim, Came, IsLeft, Stands};
ghost use Rattle.tmpl_engine.specs.computed.Machines.{state_of};
ghost use Rattle.tmpl_engine.specs.computed.Near.{IsNear};
ghost use Rattle.tmpl_engine.specs.computed.Output.{Grows, given_of};
ghost use Rattle.tmpl_engine.specs.computed.Paused.{IsPausedPlain, paused_state};
ghost use Rattle.tmpl_engine.specs.computed.Plain.{IsPlain};
ghost use Rattle.tmpl_engine.specs.computed.Plan.{plan_of};
ghost use Rattle.tmpl_engine.specs.computed.View.{IsSameRoom, size_of};

use crate::fault::RunError;
use crate::flow::Flow;
use crate::machine::Machine;
use crate::piece::LentPiece;
use crate::runner::close;
use crate::stack::Stack;
use std::alloc::Global;
use std::mem;
use tmpl_code::{Entry, Parts, Program};
use tmpl_meaning::{Options, Sink};
use tmpl_values::{Cell, Data, Val};

/// How many cells are filled at first.
const FIRST: usize = 64;

/// No instruction puts more cells than this above those that are live.
const MOST_PUT: usize = 3;

/// A run that waits for more cells: where it stands, but for its cells.
#[derive(Drop)]
pub(crate) struct Paused<'a> {
    /// How many cells are live.
    top: usize,
    dot: Val<'a>,
    left: u64,
    line: u64,
    template: usize,
    depth: u64,
    place: usize,
}

impl<'m, 'a> Machine<'m, 'a> {
    /// Where it stands, without its cells. It is left with nothing as dot.
    #[tactic(auto, unfolding(crate::specs::computed::View::cells_of, crate::specs::computed::Plain::IsPlainStack))]
    fn pause(&mut self) -> Paused<'a>
        ensures state { paused_state result self.new.stack.cells.now ≡ state_of self.old }
        ensures plain { IsPlain self.old → IsPausedPlain result self.new.stack.cells.now }
        ensures top { result.top ≤ length self.new.stack.cells.now }
        ensures size { IsSameRoom self.old.stack self.new.stack }
    {
        Paused {
            top: self.stack.top,
            dot: mem::replace(&mut self.dot, Val::Nothing),
            left: self.left,
            line: self.line,
            template: self.template,
            depth: self.depth,
            place: self.place,
        }
    }
}

/// Fills more of what is reserved with cells that hold nothing: as many as there are, or as there is room for.
fn fill(cells: &mut Vec<Cell<'_>>)
    ensures kept { take (length cells.old.items) cells.new.items ≡ cells.old.items }
    ensures more { vec_len cells.old < vec_capacity cells.old → vec_len cells.old < vec_len cells.new }
    ensures some { 3 ≤ vec_capacity cells.old → 3 ≤ vec_len cells.new }
    ensures capacity { vec_capacity cells.new ≡ vec_capacity cells.old }
{
    let free = cells.capacity() - cells.len();
    let count = free.min(cells.len().max(FIRST));
    for _ in 0..count {
        cells.push_reserved(Cell {
            val: Val::Nothing,
            num: 0,
        });
    }
}

/// Before the first instruction of a template, over these cells.
fn begin<'a>(
    alloc: Global,
    program: &Parts,
    entry: Entry,
    data: Option<&'a Data>,
    options: &Options,
    cells: &mut [Cell<'a>],
) -> Paused<'a>
    requires entry { entry.number < length program.now.starts.items }
    requires room { 3 ≤ length cells.old }
    ensures state { let plan = plan_of options.now program.now in paused_state result cells.new
        ≡ starting plan entry.number (get_or plan.starts entry.number 0)
        (starting_dot (option_map (λ d. value_of d.now) «data».entry)) }
    ensures plain { IsPausedPlain result cells.new }
    ensures top { result.top ≤ length cells.new }
    ensures size { length cells.new ≡ length cells.old }
{
    let mut stack = Stack { cells, top: 0 };
    begin_over(alloc, program, entry, data, options, &mut stack)
}

/// Begins over a stack, which the machine takes and gives back, so that what it did to the cells is known after it.
#[tactic(auto, using(crate::proofs::ReservedLemmas::empties))]
fn begin_over<'s, 'a>(
    alloc: Global,
    program: &Parts,
    entry: Entry,
    data: Option<&'a Data>,
    options: &Options,
    stack: &mut Stack<'s, 'a>,
) -> Paused<'a>
    requires entry { entry.number < length program.now.starts.items }
    requires none { stack.old.top ≡ 0 }
    requires room { 3 ≤ size_of stack.old }
    ensures state { let plan = plan_of options.now program.now in paused_state result stack.new.cells.now
        ≡ starting plan entry.number (get_or plan.starts entry.number 0)
        (starting_dot (option_map (λ d. value_of d.now) «data».entry)) }
    ensures plain { IsPausedPlain result stack.new.cells.now }
    ensures top { result.top ≤ size_of stack.new }
    ensures size { IsSameRoom stack.old stack.new }
{
    let nothing = Stack {
        cells: &mut [],
        top: 0,
    };
    let taken = mem::replace(stack, nothing);
    let mut machine = Machine::start_over(alloc, program, entry, data, options, taken);
    let paused = machine.pause();
    mem::swap(&mut machine.stack, stack);
    paused
}

/// Goes on over the cells that are there, until the run ends or more cells are live than this.
fn go_on<'a, S: Sink>(
    alloc: Global,
    program: &'a Parts,
    options: &Options,
    cells: &mut [Cell<'a>],
    paused: Paused<'a>,
    high: usize,
    piece: &mut LentPiece<'_>,
    sink: &mut S,
) -> (Paused<'a>, Result<Flow, RunError<'a>>)
    ghost aim: { Aim }
    requires top { paused.top ≤ length cells.old }
    requires stands { Stands (plan_of options.now program.now) aim (paused_state paused cells.old)
        (IsPausedPlain paused cells.old) (given_of (S.so_far sink.old) piece.old) }
    requires near { IsNear aim.room high (length cells.old) }
    requires countable { aim.before.failures < 2 ^ 64 - 1 }
    requires outline { IsOutline program.now }
    ensures left { IsLeft (plan_of options.now program.now) aim (paused_state result.0 cells.new)
        (IsPausedPlain result.0 cells.new) (given_of (S.so_far sink.new) piece.new) result.1 }
    ensures top { result.0.top ≤ length cells.new }
    ensures short { result.1 ≡ Ok Flow.On → high < 2 ^ 64 - 1 }
    ensures size { length cells.new ≡ length cells.old }
    ensures taken { Grows (S.so_far sink.old) (S.so_far sink.new) }
{
    let mut stack = Stack {
        cells,
        top: paused.top,
    };
    go_on_over(
        alloc, program, options, &mut stack, paused, high, piece, sink,
    )
}

/// Goes on over a stack, which the machine takes and gives back, so that what it did to the cells is known after it.
fn go_on_over<'s, 'a, S: Sink>(
    alloc: Global,
    program: &'a Parts,
    options: &Options,
    stack: &mut Stack<'s, 'a>,
    paused: Paused<'a>,
    high: usize,
    piece: &mut LentPiece<'_>,
    sink: &mut S,
) -> (Paused<'a>, Result<Flow, RunError<'a>>)
    ghost aim: { Aim }
    requires top { stack.old.top ≡ paused.top }
    requires stands { Stands (plan_of options.now program.now) aim (paused_state paused stack.old.cells.now)
        (IsPausedPlain paused stack.old.cells.now) (given_of (S.so_far sink.old) piece.old) }
    requires near { IsNear aim.room high (size_of stack.old) }
    requires countable { aim.before.failures < 2 ^ 64 - 1 }
    requires outline { IsOutline program.now }
    ensures left { IsLeft (plan_of options.now program.now) aim (paused_state result.0 stack.new.cells.now)
        (IsPausedPlain result.0 stack.new.cells.now) (given_of (S.so_far sink.new) piece.new) result.1 }
    ensures top { result.0.top ≤ size_of stack.new }
    ensures short { result.1 ≡ Ok Flow.On → high < 2 ^ 64 - 1 }
    ensures size { IsSameRoom stack.old stack.new }
    ensures taken { Grows (S.so_far sink.old) (S.so_far sink.new) }
{
    let Paused {
        top: _,
        dot,
        left,
        line,
        template,
        depth,
        place,
    } = paused;
    let mut machine = Machine {
        alloc,
        stack: Stack {
            cells: &mut [],
            top: 0,
        },
        dot,
        left,
        line,
        template,
        depth,
        place,
    };
    mem::swap(&mut machine.stack, stack);
    let end = machine.turns(program, options, high, piece, sink);
    let paused = machine.pause();
    mem::swap(&mut machine.stack, stack);
    (paused, end)
}

/// Goes on to the end of the run, over more of what is reserved each time that it has used what is filled.
fn finish<'a, S: Sink>(
    alloc: Global,
    program: &'a Parts,
    options: &Options,
    cells: &mut Vec<Cell<'a>>,
    paused: Paused<'a>,
    piece: &mut LentPiece<'_>,
    sink: &mut S,
) -> Result<(), RunError<'a>>
    ghost aim: { Aim }
    requires top { paused.top ≤ length cells.old.items }
    requires some { 3 ≤ length cells.old.items }
    requires stands { Stands (plan_of options.now program.now) aim (paused_state paused cells.old.items)
        (IsPausedPlain paused cells.old.items) (given_of (S.so_far sink.old) piece.old) }
    requires room { aim.room ≡ vec_capacity cells.old }
    requires countable { aim.before.failures < 2 ^ 64 - 1 }
    requires outline { IsOutline program.now }
    ensures came { Came aim.end aim.before (given_of (S.so_far sink.new) piece.new) result }
    ensures taken { Grows (S.so_far sink.old) (S.so_far sink.new) }
{
    let mut paused = paused;
    loop {
        let high = if cells.len() < cells.capacity() {
            cells.len() - MOST_PUT
        } else {
            usize::MAX
        };
        let (next, end) = go_on(
            alloc,
            program,
            options,
            cells.as_mut_slice(),
            paused,
            high,
            piece,
            sink,
        );
        match end {
            Ok(Flow::On) => {
                paused = next;
                fill(cells);
            }
            Ok(Flow::Over) => return Ok(()),
            Err(error) => return Err(error),
        }
    }
}

/// Does what `run` does, over cells that are reserved: as many as the capacity says. No cell is filled but those that the
/// run comes near, and no memory is taken for them.
pub(crate) fn run_reserved<'a, S: Sink>(
    alloc: Global,
    program: &'a Program,
    entry: Entry,
    data: Option<&'a Data>,
    options: &Options,
    cells: &mut Vec<Cell<'a>>,
    piece: &mut [u8],
    out: &mut S,
) -> Result<(), RunError<'a>>
    requires entry { entry.number < length (set_view program.now.set.value) }
    requires room { Suffices options.now.depth (set_view program.now.set.value) entry.number (vec_capacity cells.old) }
    requires countable { (S.so_far out.old).failures < 2 ^ 64 - 1 }
    ensures { let ts = set_view program.now.set.value in IfSome (slice_get ts entry.number) (λ t.
        IsRun (ran (rules_of options.now) ts t.0 t.1 (option_map (λ d. value_of d.now) «data».entry))
        (sunk (S.so_far out.old) (S.so_far out.new)) result) }
{
    let parts = program.parts();
    fill(cells);
    let paused = begin(alloc, parts, entry, data, options, cells.as_mut_slice());
    let mut piece = LentPiece::new(piece);
    let end = finish(alloc, parts, options, cells, paused, &mut piece, out);
    close(&mut piece, out, end)
}
