//! A render into the caller's buffers.
ghost use Rattle.std.specs.Prelude.{◌≡◌, ◌≢◌, ◌⊎◌, ◌<◌, ◌^◌, ◌-◌, ◌||◌, IfOk, List, [], eqb, false, leb, option_map, string_bytes};
ghost use Rattle.tmpl_values.specs.View.{value_of};
ghost use Rattle.tmpl_syntax.specs.Set.{Template};
ghost use Rattle.tmpl_meaning.specs.Sink.{sunk};
ghost use Rattle.tmpl_engine.specs.Prepared.{IsPrepared};
ghost use Rattle.tmpl_tool.specs.Outcome.{Answer, Outcome, memory_line, write_line};
ghost use Rattle.tmpl_tool.specs.Tool.{IsParse, Parse, answer_of, named_run};
ghost use Rattle.tmpl_c.specs.Filled.{Fills, buffer_seen, limit_line, limit_text, room};
ghost use Rattle.tmpl_c.specs.Given.{HoldsBy};
ghost use Rattle.tmpl_c.specs.Passed.{pairs_of, render_answer, rules_in};
ghost use Rattle.tmpl_c.specs.Texts.{Holds};
ghost use Rattle.tmpl_c.specs.computed.Gathering.{told_of, nothing_put};
ghost use Rattle.tmpl_c.specs.computed.Outputs.{IsFilled, IsFilledBy, IsSameMemory};

use crate::buffer::Buffer;
use crate::gathered::Gathered;
use crate::give::give;
use crate::load::{add_files, read_data, tell};
use crate::passed::File;
use crate::settings::{Settings, options_in};
use std::alloc::{AllocError, Global};
use tmpl_engine::{Engine, NameHash, RenderError, Renderer};
use tmpl_hints::Sentence;
use tmpl_tool::{print, render_prepared};
use tmpl_values::Data;

/// How many bytes of the text wait until they are gathered together.
pub(crate) const PIECE_SIZE: usize = 256;

/// The line where the text does not fit.
static FULL: &[u8] = b"tmpl: write failed\n";

/// The line where memory ran out, which is there when none can be had.
static REFUSED: &[u8] = b"tmpl: out of memory\n";

/// Renders the template of this name to two sinks.
fn render_to(
    alloc: Global,
    hash: NameHash,
    settings: &Settings<'_>,
    files: &[File<'_>],
    name: &[u8],
    input: &[u8],
    out: &mut Gathered,
    err: &mut Gathered,
) -> u8
    requires out { out.old.failures < 2 ^ 64 - 1 }
    requires err { err.old.failures < 2 ^ 64 - 1 }
    ensures outcome { (parse : Parse) → IsParse parse → Outcome
        (render_answer parse (rules_in settings.now) (eqb settings.now.print 1) (pairs_of files.now) name.now input.now)
        (sunk (told_of out.old) (told_of out.new)) (sunk (told_of err.old) (told_of err.new)) result }
{
    let mut engine = Engine::with_hash(alloc, hash);
    match add_files(alloc, &mut engine, files) {
        Ok(()) => {}
        Err(why) => return tell(err, &why),
    }
    if settings.print == 1 {
        return print(alloc, engine.templates(), out, err).code;
    }
    let data = match read_data(alloc, input) {
        Ok(data) => data,
        Err(why) => return tell(err, &why),
    };
    let prepared = engine.renderer_for(alloc, name);
    // a run needs no trees
    drop(engine);
    run_prepared(alloc, settings, prepared, name, data.as_ref(), out, err)
}

/// Runs the template of this name with what its render was prepared with.
pub(crate) fn run_prepared(
    alloc: Global,
    settings: &Settings<'_>,
    prepared: Result<Renderer, RenderError<'_>>,
    name: &[u8],
    data: Option<&Data>,
    out: &mut Gathered,
    err: &mut Gathered,
) -> u8
    requires out { out.old.failures < 2 ^ 64 - 1 }
    requires err { err.old.failures < 2 ^ 64 - 1 }
    ensures { (ts : List Template) → IsPrepared ts name.now prepared.entry → Outcome
        (answer_of (named_run (rules_in settings.now) name.now ts (option_map (λ d. value_of d.now) «data».entry)))
        (sunk (told_of out.old) (told_of out.new)) (sunk (told_of err.old) (told_of err.new)) result }
{
    let options = options_in(settings);
    let mut piece = [0; PIECE_SIZE];
    let piece = piece.as_mut_slice();
    render_prepared(alloc, &options, prepared, name, data, piece, out, err).code
}

/// Whether memory ran out, by the status or by a sink.
pub(crate) fn is_refused(code: u8, text: &Gathered, line: &Gathered) -> bool
    ensures { result ≡ false → (code ≢ 7) × (text.now.failures ≡ 0) × (line.now.failures ≡ 0) }
{
    code == 7 || text.failures != 0 || line.failures != 0
}

/// Whether a text of this size is within the limit, which is none where it is 0.
fn fits(limit: usize, size: usize) -> bool
    ensures { result ≡ (eqb limit 0 || leb size limit) }
{
    limit == 0 || size <= limit
}

/// The line about a text that is longer than its limit.
#[tactic(auto, using(crate::proofs::GatherLemmas::limit_said))]
fn limit_line(alloc: Global, limit: usize) -> Result<String, AllocError>
    ensures { IfOk result (λ said. string_bytes said ≡ limit_line limit) }
{
    Sentence::new(alloc)
        .say("tmpl: more than ")
        .count(limit as u64)
        .say(" bytes of output\n")
        .finish()
}

/// Says that a text is longer than its limit, and gives the status of that.
fn say_limit(alloc: Global, limit: usize, line: &mut Gathered) -> u8
    ensures { ((line.new.bytes.items ≡ limit_line limit) × (result ≡ 6)) ⊎ ((line.new.bytes.items ≡ []) × (result ≡ 7)) }
{
    match limit_line(alloc, limit) {
        Ok(said) => {
            line.bytes = said.into_bytes();
            6
        }
        Err(AllocError) => {
            line.bytes.clear();
            7
        }
    }
}

/// The status of a render whose text and line are gathered, and which may write this many bytes: a text that is longer
/// is cut. There is no line where memory ran out.
pub(crate) fn settle(
    alloc: Global,
    limit: usize,
    code: u8,
    text: &mut Gathered,
    line: &mut Gathered,
) -> u8
    ensures { (a : Answer) → Outcome a (sunk nothing_put (told_of text.old)) (sunk nothing_put (told_of line.old)) code
        → Holds (limit_text limit a) text.new.bytes.items line.new.bytes.items result }
{
    if !fits(limit, text.bytes.len()) {
        text.bytes.truncate(limit);
        return say_limit(alloc, limit, line);
    }
    if is_refused(code, text, line) {
        line.bytes.clear();
        return 7;
    }
    code
}

/// The status of a render whose text and line are gathered. The text is cut at the limit of the settings, and is given only
/// where it is of their format.
pub(crate) fn conclude(
    alloc: Global,
    settings: &Settings<'_>,
    code: u8,
    text: &mut Gathered,
    line: &mut Gathered,
) -> u8
    ensures { (a : Answer) → Outcome a (sunk nothing_put (told_of text.old)) (sunk nothing_put (told_of line.old)) code
        → HoldsBy settings.now.writes.now (limit_text settings.now.output a) text.new.bytes.items line.new.bytes.items result }
{
    let status = settle(alloc, settings.output, code, text, line);
    give(alloc, settings.writes, status, text, line)
}

/// Says in the caller's buffer that a text does not fit, and gives the status of that.
fn say_full(err: &mut Buffer<'_>) -> u8
    ensures said { Fills write_line (room err.old) (buffer_seen err.new) × (result ≡ 6) }
    ensures borrows { IsSameMemory err.old err.new }
{
    err.hold(FULL);
    6
}

/// Says in the caller's buffer that memory ran out, and gives the status of that.
pub(crate) fn say_refused(err: &mut Buffer<'_>) -> u8
    ensures said { Fills memory_line (room err.old) (buffer_seen err.new) × (result ≡ 7) }
    ensures borrows { IsSameMemory err.old err.new }
{
    err.hold(REFUSED);
    7
}

/// Copies a text and a line to the caller's buffers, and says why the text is not all there.
fn hand_over(code: u8, text: &[u8], line: &[u8], out: &mut Buffer<'_>, err: &mut Buffer<'_>) -> u8
    ensures filled { (a : Answer) → Holds a text.now line.now code → IsFilled a out.old out.new err.old err.new result }
    ensures borrows { IsSameMemory out.old out.new × IsSameMemory err.old err.new }
{
    let room = out.bytes.len();
    out.hold(text);
    if code == 7 {
        return say_refused(err);
    }
    if room < text.len() {
        return say_full(err);
    }
    err.hold(line);
    code
}

/// Copies what was gathered to the caller's buffers, of the text what the settings let through, and says why it is not
/// all there.
pub(crate) fn finish(
    alloc: Global,
    settings: &Settings<'_>,
    code: u8,
    mut text: Gathered,
    mut line: Gathered,
    out: &mut Buffer<'_>,
    err: &mut Buffer<'_>,
) -> u8
    ensures filled { (a : Answer) → Outcome a (sunk nothing_put (told_of text)) (sunk nothing_put (told_of line)) code
        → IsFilledBy settings.now.writes.now (limit_text settings.now.output a) out.old out.new err.old err.new result }
    ensures borrows { IsSameMemory out.old out.new × IsSameMemory err.old err.new }
{
    let status = conclude(alloc, settings, code, &mut text, &mut line);
    hand_over(
        status,
        text.bytes.as_slice(),
        line.bytes.as_slice(),
        out,
        err,
    )
}

/// Renders into the caller's buffers, and says why the text is not all there.
pub(crate) fn fill(
    alloc: Global,
    hash: NameHash,
    settings: &Settings<'_>,
    files: &[File<'_>],
    name: &[u8],
    input: &[u8],
    out: &mut Buffer<'_>,
    err: &mut Buffer<'_>,
) -> u8
    ensures filled { (parse : Parse) → IsParse parse → IsFilledBy settings.now.writes.now (limit_text settings.now.output
        (render_answer parse (rules_in settings.now) (eqb settings.now.print 1) (pairs_of files.now) name.now input.now))
        out.old out.new err.old err.new result }
    ensures borrows { IsSameMemory out.old out.new × IsSameMemory err.old err.new }
{
    let mut text = Gathered::new(alloc, settings.output);
    let mut line = Gathered::new(alloc, 0);
    let code = render_to(
        alloc, hash, settings, files, name, input, &mut text, &mut line,
    );
    finish(alloc, settings, code, text, line, out, err)
}
