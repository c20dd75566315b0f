//! The run of a program, from the start of a template to its end.
ghost use Rattle.std.specs.Prelude.{◌≡◌, ◌≢◌, Ok, Err, ◌-◌, ◌<◌, ◌≤◌, ◌^◌, IfSome, [], false, get_or, length};
ghost use Rattle.std.specs.Prelude.{option_map, slice_get};
ghost use Rattle.tmpl_values.specs.View.{is_made, val_of, value_of};
ghost use Rattle.tmpl_syntax.specs.View.{set_view};
ghost use Rattle.tmpl_meaning.specs.Meaning.{ran};
ghost use Rattle.tmpl_meaning.specs.Sink.{sunk};
ghost use Rattle.tmpl_meaning.specs.View.{rules_of};
ghost use Rattle.tmpl_code.specs.MakesText.{set_makes_text};
ghost use Rattle.tmpl_code.specs.Program.{IsOutline};
ghost use Rattle.tmpl_code.specs.Room.{Suffices};
ghost use Rattle.tmpl_engine.specs.computed.Came.{Aim, Closed, IsLeft, IsStopped, Stands, ended_by};
ghost use Rattle.tmpl_engine.specs.computed.Near.{IsNear};
ghost use Rattle.tmpl_engine.specs.computed.Machines.{state_of};
ghost use Rattle.tmpl_engine.specs.computed.Output.{Grows, given_of, waiting};
ghost use Rattle.tmpl_engine.specs.computed.Plain.{IsPlain, IsPlainStack};
ghost use Rattle.tmpl_engine.specs.Run.{IsRun};
ghost use Rattle.tmpl_engine.specs.computed.Plan.{plan_of};
ghost use Rattle.tmpl_engine.specs.State.{starting, starting_dot};
ghost use Rattle.tmpl_engine.specs.computed.View.{IsSameRoom, cells_of, size_of};

use crate::fault::RunError;
use crate::flow::Flow;
use crate::halt::Halt;
use crate::machine::Machine;
use crate::piece::LentPiece;
use crate::stack::Stack;
use std::alloc::Global;
use tmpl_code::{Entry, Parts, Program};
use tmpl_meaning::{Options, RunFault, Sink, without_null};
use tmpl_values::{Cell, Data, Val};

/// The dot that a run starts with: the data, of which null is nothing; nothing where there is no data.
fn starting_dot<'a>(data: Option<&'a Data>) -> Val<'a>
    ensures value { val_of result ≡ starting_dot (option_map (λ d. value_of d.now) «data».entry) }
    ensures borrowed { is_made result ≡ false }
{
    match data {
        Some(data) => without_null(Val::of(data)),
        None => Val::Nothing,
    }
}

impl<'m, 'a> Machine<'m, 'a> {
    /// Before the first instruction of a template.
    pub(crate) fn start(
        alloc: Global,
        program: &Parts,
        entry: Entry,
        data: Option<&'a Data>,
        options: &Options,
        cells: &'m mut [Cell<'a>],
    ) -> Machine<'m, 'a>
        requires entry { entry.number < length program.now.starts.items }
        requires room { 3 ≤ length cells.old }
        ensures state { let plan = plan_of options.now program.now in state_of result
            ≡ starting plan entry.number (get_or plan.starts entry.number 0)
            (starting_dot (option_map (λ d. value_of d.now) «data».entry)) }
        ensures plain { IsPlain result }
        ensures size { size_of result.stack ≡ length cells.old }
    {
        Machine::start_over(alloc, program, entry, data, options, Stack::new(cells))
    }

    /// Before the first instruction of a template, over a stack of which no cell is live.
    pub(crate) fn start_over(
        alloc: Global,
        program: &Parts,
        entry: Entry,
        data: Option<&'a Data>,
        options: &Options,
        stack: Stack<'m, 'a>,
    ) -> Machine<'m, 'a>
        requires entry { entry.number < length program.now.starts.items }
        requires none { cells_of stack ≡ [] }
        requires plain { IsPlainStack stack }
        requires room { 3 ≤ size_of stack }
        ensures state { let plan = plan_of options.now program.now in state_of result
            ≡ starting plan entry.number (get_or plan.starts entry.number 0)
            (starting_dot (option_map (λ d. value_of d.now) «data».entry)) }
        ensures plain { IsPlain result }
        ensures size { IsSameRoom stack.entry result.stack }
    {
        let mut stack = stack;
        stack.push(Val::Nothing, 0);
        stack.push(Val::Nothing, 0);
        stack.push(starting_dot(data), 0);
        Machine {
            alloc,
            stack,
            dot: starting_dot(data),
            left: options.steps,
            line: 0,
            template: entry.number,
            depth: 1,
            place: program.starts.as_slice()[entry.number],
        }
    }

    /// Carries out instructions until the run is over or stops, or until more cells are live than this, so that it may be
    /// given more of them.
    pub(crate) fn turns<S: Sink>(
        &mut self,
        program: &'a Parts,
        options: &Options,
        high: usize,
        piece: &mut LentPiece<'_>,
        sink: &mut S,
    ) -> Result<Flow, RunError<'a>>
        ghost aim: { Aim }
        requires stands { Stands (plan_of options.now program.now) aim (state_of self.old) (IsPlain self.old)
            (given_of (S.so_far sink.old) piece.old) }
        requires near { IsNear aim.room high (size_of self.old.stack) }
        requires countable { aim.before.failures < 2 ^ 64 - 1 }
        requires outline { IsOutline program.now }
        ensures left { IsLeft (plan_of options.now program.now) aim (state_of self.new) (IsPlain self.new)
            (given_of (S.so_far sink.new) piece.new) result }
        ensures short { result ≡ Ok Flow.On → high < 2 ^ 64 - 1 }
        ensures size { IsSameRoom self.old.stack self.new.stack }
        ensures taken { Grows (S.so_far sink.old) (S.so_far sink.new) }
    {
        let instructions = program.instructions.as_slice();
        loop {
            if self.stack.height() > high {
                return Ok(Flow::On);
            }
            match self.execute(program, options, &instructions[self.place], piece, sink) {
                Ok(Flow::On) => {}
                Ok(Flow::Over) => return Ok(Flow::Over),
                Err(stop) => return Err(error_for(program, self.template, self.line, stop)),
            }
        }
    }
}

/// Why a run ends that stops in the template of this number, at this line.
fn error_for<'a>(program: &'a Parts, number: usize, line: u64, stop: Halt<'a>) -> RunError<'a>
    requires number { number < length (set_view program.now.set.value) }
    requires outline { IsOutline program.now }
    ensures { IsStopped (slice_get (set_view program.now.set.value) number) line stop.entry result }
{
    match stop {
        Halt::Fault(kind) => {
            let (template, tree) = program.outline.template(number);
            RunError::Fault(RunFault {
                file: tree.file.as_slice(),
                line,
                template,
                kind,
            })
        }
        Halt::WriteFailed => RunError::WriteFailed,
        Halt::OutOfMemory => RunError::OutOfMemory,
    }
}

/// Runs a template of a program over data, by these options, and puts its text out.
///
/// The cells are all that the run keeps values in, and as many as [`Program::cells`] says are enough. What is put out
/// waits in the piece, of any size, until that is full; it is put out whole where the run ends or stops at a fault of
/// the template. Memory is taken by the functions that make a text, and for what they made, and by nothing else: where
/// [`Program::makes_text`] is false, a run does not answer want of memory.
pub fn run<'a, S: Sink>(
    alloc: Global,
    program: &'a Program,
    entry: Entry,
    data: Option<&'a Data>,
    options: &Options,
    cells: &mut [Cell<'a>],
    piece: &mut [u8],
    out: &mut S,
) -> Result<(), RunError<'a>>
    requires entry { entry.number < length (set_view program.now.set.value) }
    requires room { Suffices options.now.depth (set_view program.now.set.value) entry.number (length cells.old) }
    requires countable { (S.so_far out.old).failures < 2 ^ 64 - 1 }
    ensures runs { let ts = set_view program.now.set.value in IfSome (slice_get ts entry.number) (λ t.
        IsRun (ran (rules_of options.now) ts t.0 t.1 (option_map (λ d. value_of d.now) «data».entry))
        (sunk (S.so_far out.old) (S.so_far out.new)) result) }
    ensures no_spurious_oom { set_makes_text (set_view program.now.set.value) ≡ false → result ≢ Err RunError.OutOfMemory }
{
    let parts = program.parts();
    let mut machine = Machine::start(alloc, parts, entry, data, options, cells);
    let mut piece = LentPiece::new(piece);
    let end = machine.turns(parts, options, usize::MAX, &mut piece, out);
    close(&mut piece, out, ended(end))
}

/// The end of a run that was not left to be given more cells.
pub(crate) fn ended<'a>(end: Result<Flow, RunError<'a>>) -> Result<(), RunError<'a>>
    ensures { result ≡ ended_by end.entry }
{
    match end {
        Ok(_) => Ok(()),
        Err(error) => Err(error),
    }
}

/// Gives the sink what waits, where a run came to its end or to a fault.
pub(crate) fn close<'a, S: Sink>(
    piece: &mut LentPiece<'_>,
    sink: &mut S,
    end: Result<(), RunError<'a>>,
) -> Result<(), RunError<'a>>
    requires { (end ≡ Err RunError.WriteFailed → ⊥) → (S.so_far sink.old).failures < 2 ^ 64 - 1 }
    ensures closed { Closed end.entry result (given_of (S.so_far sink.old) piece.old)
        (given_of (S.so_far sink.new) piece.new) (waiting piece.new) }
    ensures taken { Grows (S.so_far sink.old) (S.so_far sink.new) }
{
    match end {
        Ok(()) => Ok(piece.flush(sink)?),
        Err(RunError::Fault(fault)) => {
            piece.flush(sink)?;
            Err(RunError::Fault(fault))
        }
        Err(error) => Err(error),
    }
}
