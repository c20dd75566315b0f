//! A template of a set, looked up by its name and run.
ghost use Rattle.std.specs.Prelude.{◌≡◌, ◌<◌, ◌^◌, ◌-◌, IfOk, IfSome, length, option_map, slice_get};
ghost use Rattle.tmpl_values.specs.View.{value_of};
ghost use Rattle.tmpl_syntax.specs.View.{set_view};
ghost use Rattle.tmpl_meaning.specs.Meaning.{ran};
ghost use Rattle.tmpl_meaning.specs.Sink.{sunk};
ghost use Rattle.tmpl_meaning.specs.View.{rules_of};
ghost use Rattle.tmpl_engine.specs.Prepared.{IsPrepared};
ghost use Rattle.tmpl_engine.specs.Render.{IsRunOf, Renders};
ghost use Rattle.tmpl_engine.specs.View.{templates_in};

use crate::error::RenderError;
use crate::reserved::run_reserved;
use std::alloc::{AllocError, Global};
use std::sync::Arc;
use tmpl_code::{Entry, Program, compile};
use tmpl_meaning::{Options, Sink};
use tmpl_syntax::Set;
use tmpl_values::Data;

/// How many bytes of the text wait until they are put out together.
const PIECE_SIZE: usize = 4096;

/// Runs the template of this number over a stack that is reserved before, and a piece that is lent.
fn run_numbered<'a, S: Sink>(
    alloc: Global,
    program: &'a Program,
    number: usize,
    data: Option<&'a Data>,
    options: &Options,
    piece: &mut [u8],
    out: &mut S,
) -> Result<(), RenderError<'a>>
    requires number { number < length (set_view program.now.set.value) }
    requires countable { (S.so_far out.old).failures < 2 ^ 64 - 1 }
    ensures { let set = set_view program.now.set.value in IfSome (slice_get set number) (λ t.
        IsRunOf (ran (rules_of options.now) set t.0 t.1 (option_map (λ d. value_of d.now) «data».entry))
        (sunk (S.so_far out.old) (S.so_far out.new)) result) }
{
    let count = program.cells_for(Entry { number }, options.depth);
    let Ok(mut cells) = Vec::with_capacity(alloc, count as usize) else {
        return Err(RenderError::OutOfMemory);
    };
    let end = run_reserved(
        alloc,
        program,
        Entry { number },
        data,
        options,
        &mut cells,
        piece,
        out,
    );
    match end {
        Ok(()) => Ok(()),
        Err(error) => Err(RenderError::from(error)),
    }
}

/// The templates of a set, compiled once, to be rendered as often as a host likes. It owns what it renders, so the set
/// may be changed or go, and any number of renderers share one program.
#[derive(Drop)]
pub struct Renderer {
    pub(crate) program: Arc<Program>,
}

impl Renderer {
    /// Compiles the set. An error is want of memory.
    pub fn new(alloc: Global, set: &Set) -> Result<Renderer, AllocError>
        ensures { IfOk result (λ r. templates_in r ≡ set_view set.now) }
    {
        let program = compile(alloc, set)?;
        Ok(Renderer {
            program: Arc::new(alloc, program)?,
        })
    }

    /// Compiles the set for renders of the template of this name, unless it has none of it.
    ///
    /// # Errors
    ///
    /// There is no template of the name, or memory is refused: so a render of it ends, and puts nothing out.
    pub fn for_template(
        alloc: Global,
        set: &Set,
        name: &[u8],
    ) -> Result<Renderer, RenderError<'static>>
        ensures { IsPrepared (set_view set.now) name.now result }
    {
        match set.number(name) {
            Some(_) => match Renderer::new(alloc, set) {
                Ok(renderer) => Ok(renderer),
                Err(_) => Err(RenderError::OutOfMemory),
            },
            None => Err(RenderError::NoTemplate),
        }
    }

    /// A second renderer of the same program, as for another thread. An error is more owners than can be counted.
    pub fn share(&self) -> Result<Renderer, AllocError>
        ensures { IfOk result (λ r. templates_in r ≡ templates_in self.now) }
    {
        Ok(Renderer {
            program: Arc::clone(&self.program)?,
        })
    }

    /// Renders the template of this name with data, if there are any, by these options, and puts its text out.
    ///
    /// The memory of the run is taken here: its cells, and a piece of 4,096 bytes in which output waits.
    /// [`run`] does the same over memory that is lent.
    ///
    /// # Errors
    ///
    /// There is no template of the name; the run stops at a fault, after the text before it; a put fails, which is then
    /// the last one; memory is refused.
    pub fn render<'a, S: Sink>(
        &'a self,
        alloc: Global,
        name: &[u8],
        data: Option<&'a Data>,
        options: &Options,
        out: &mut S,
    ) -> Result<(), RenderError<'a>>
        requires { (S.so_far out.old).failures < 2 ^ 64 - 1 }
        ensures { Renders options.now (templates_in self.now) name.now «data».entry
            (S.so_far out.old) (S.so_far out.new) result }
    {
        let mut piece = [0; PIECE_SIZE];
        self.render_through(alloc, name, data, options, piece.as_mut_slice(), out)
    }

    /// Does what [`Renderer::render`] does, with a piece that is lent, in which output waits until it is full. Its size
    /// is how many bytes most puts have, and changes nothing else.
    ///
    /// # Errors
    ///
    /// Those of [`Renderer::render`].
    pub fn render_through<'a, S: Sink>(
        &'a self,
        alloc: Global,
        name: &[u8],
        data: Option<&'a Data>,
        options: &Options,
        piece: &mut [u8],
        out: &mut S,
    ) -> Result<(), RenderError<'a>>
        requires { (S.so_far out.old).failures < 2 ^ 64 - 1 }
        ensures { Renders options.now (templates_in self.now) name.now «data».entry
            (S.so_far out.old) (S.so_far out.new) result }
    {
        let program: &Program = &self.program;
        match program.entry(name) {
            Some(entry) => run_numbered(alloc, program, entry.number, data, options, piece, out),
            None => Err(RenderError::NoTemplate),
        }
    }
}
