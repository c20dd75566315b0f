//! Failures: over which data of a schema the template fails at the place of an alarm. Whatever a search finds, a
//! failure is decided by a check and a render of the data that it has.
ghost use Rattle.std.specs.Prelude.{◌≡◌, Contains, Err, IfOk, IfSome, Ok, Some, string_bytes, false, true};
ghost use Rattle.std.specs.Str.{IsUtf8};
ghost use Rattle.serde_json.specs.View.{view};
ghost use Rattle.tmpl_values.specs.Json.{data_of};
ghost use Rattle.tmpl_values.specs.Value as tree;
ghost use Rattle.tmpl_values.specs.View.{value_of};
ghost use Rattle.tmpl_meaning.specs.View.{cause_of, fault_seen};
ghost use Rattle.tmpl_meaning.specs.declared.fault.RunFault.{RunFault};
ghost use Rattle.tmpl_engine.specs.Reason.{cause_text};
ghost use Rattle.tmpl_engine.specs.View.{templates_in};
ghost use Rattle.tmpl_engine.specs.declared.error.RenderError.{RenderError};
ghost use Rattle.tmpl_schema.specs.Safe.{MayEnd};
ghost use Rattle.tmpl_report.specs.Failing.{AreRight, IsDoubted, IsRight, Speaks, fault_over, rules_by};
ghost use Rattle.tmpl_json_schema.specs.Document.{IsOfSchema};
ghost use Rattle.tmpl_report.specs.computed.Asked.{asked_in};

use crate::Result;
use serde_json::Value;
use std::alloc::{AllocError, Global};
use std::str::from_utf8;
use tmpl_engine::{
    Data, DataFault, MissingKey, Options, RenderError, Renderer, RunFault, RunFaultKind, Sink,
    SinkFault, WholePuts, WriterSink, put_reason,
};
use tmpl_json_schema::conforms_to;
use tmpl_schema::{Cause, Doubt};
use tmpl_values::Bytes;

/// The limits of a render.
const STEPS: u64 = 20_000;

const DEPTH: u32 = 50;

/// The most bytes that a render writes.
pub(crate) const MOST_TEXT: usize = 1_000_000;

/// The most bytes of a value that is shown.
const MOST_SHOWN: usize = 500;

/// A template that may fail, with the document that its data conform to and the alarms.
#[derive(Drop)]
pub(crate) struct Suspect<'q> {
    pub(crate) alloc: Global,
    pub(crate) renderer: &'q Renderer,
    pub(crate) name: &'q [u8],
    pub(crate) root: &'q Value,
    pub(crate) mode: MissingKey,
    pub(crate) stops: &'q [Bytes],
    pub(crate) doubts: &'q [Doubt],
}

/// A value of a schema, and the fault of a template over it.
#[derive(Drop)]
pub struct Failure {
    /// The value as JSON.
    pub data: String,
    /// What `tmpl` says of the fault, after its place.
    pub said: String,
    /// Whether it comes with `--missingkey error` alone.
    pub is_strict: bool,
}

/// Takes text, up to a number of bytes, and forgets it.
#[derive(Drop)]
pub(crate) struct Nowhere {
    pub(crate) room: usize,
    failures: u64,
}

impl Nowhere {
    /// One that takes as many bytes.
    pub(crate) fn of(room: usize) -> Nowhere
        ensures { result.failures ≡ 0 }
    {
        Nowhere { room, failures: 0 }
    }
}

impl Sink for Nowhere {
    ghost use Rattle.std.specs.Prelude.{None};

    ghost so_far = { λ s. record { bytes = None; failures = s.failures } };

    fn put(&mut self, bytes: &[u8]) -> Result<usize, SinkFault> {
        if bytes.len() > self.room {
            self.failures += 1;
            return Err(SinkFault);
        }
        self.room -= bytes.len();
        Ok(bytes.len())
    }
}

/// Whether a name is one of the stops.
fn is_stop(stops: &[Bytes], name: &[u8]) -> bool
    ensures { result ≡ false → ¬ (Contains stops.now name.now) }
{
    for stop in stops {
        if stop.as_slice() == name {
            return true;
        }
    }
    false
}

/// Whether a fault is what a cause speaks of, and none that is allowed.
fn is_caused(cause: &Cause, kind: &RunFaultKind<'_>, stops: &[Bytes]) -> bool
    ensures speaks { result ≡ true → Speaks cause.now (cause_of kind.now) }
    ensures not_allowed { result ≡ true → ¬ (MayEnd stops.now (cause_of kind.now)) }
{
    match (cause, kind) {
        (
            Cause::Absent(name) | Cause::NoFields(name, _),
            RunFaultKind::NoEntry(field) | RunFaultKind::NoField(field),
        ) => name.as_slice() == *field,
        (
            Cause::Arguments(func) | Cause::FewItems(func, _) | Cause::NotFollowed(func),
            RunFaultKind::Call(other, _),
        ) => *func == *other,
        (Cause::Range(_), RunFaultKind::NotARange) => true,
        (Cause::NoTemplate(name), RunFaultKind::NoTemplate(other)) => {
            name.as_slice() == *other && !is_stop(stops, *other)
        }
        (Cause::Command, RunFaultKind::NotAFunction | RunFaultKind::NilCommand) => true,
        _ => false,
    }
}

/// Whether a fault is at the place of an alarm, and what it speaks of.
pub(crate) fn is_doubted(doubt: &Doubt, fault: &RunFault<'_>, stops: &[Bytes]) -> bool
    ensures doubted { result ≡ true → IsDoubted doubt.now (fault_seen fault.now) }
    ensures not_allowed { result ≡ true → ¬ (MayEnd stops.now (fault_seen fault.now).cause) }
{
    doubt.line == fault.line
        && doubt.template.as_slice() == fault.template
        && is_caused(&doubt.cause, &fault.kind, stops)
}

/// What `tmpl` says of a fault, after the file, the line and the template.
pub(crate) fn said_of(alloc: Global, kind: &RunFaultKind<'_>) -> Result<String>
    ensures { IfOk result (λ said. IsUtf8 (cause_text (cause_of kind.now))
        → string_bytes said ≡ cause_text (cause_of kind.now)) }
{
    let mut sink = WriterSink::over(Vec::new(alloc));
    let mut puts = WholePuts { sink: &mut sink };
    if put_reason(kind, &mut puts).is_err() {
        return Err(AllocError);
    }
    match from_utf8(sink.writer.as_slice()) {
        Ok(reason) => String::from_str(alloc, reason),
        Err(_) => String::from_str(alloc, "it fails there"),
    }
}

impl Suspect<'_> {
    /// Renders the template over data.
    pub(crate) fn render<'a>(
        &'a self,
        tree: &'a Data,
        out: &mut Nowhere,
    ) -> Result<(), RenderError<'a>>
        requires { out.old.failures ≡ 0 }
        ensures { (fault : RunFault) → result ≡ Err (RenderError.Fault fault)
            → fault_over (rules_by self.now.mode) (templates_in self.now.renderer.now) self.now.name.now
            (value_of tree.now) ≡ Some (fault_seen fault) }
    {
        let options = Options {
            missing_key: self.mode,
            depth: DEPTH,
            steps: STEPS,
        };
        self.renderer
            .render(self.alloc, self.name, Some(tree), &options, out)
    }

    /// The fault of the run over data, if it has one.
    fn fault<'a>(&'a self, tree: &'a Data) -> Result<Option<RunFault<'a>>>
        ensures { IfOk result (λ found. IfSome found (λ fault.
            fault_over (rules_by self.now.mode) (templates_in self.now.renderer.now) self.now.name.now
            (value_of tree.now) ≡ Some (fault_seen fault))) }
    {
        match self.render(tree, &mut Nowhere::of(MOST_TEXT)) {
            Err(RenderError::Fault(fault)) => Ok(Some(fault)),
            Err(RenderError::OutOfMemory) => Err(AllocError),
            _ => Ok(None),
        }
    }

    /// The failure of each alarm for the value that was found for it, where that makes the template fail there.
    pub(crate) fn failures(&self, values: Vec<Option<Value>>) -> Result<Vec<Option<Failure>>>
        ensures { IfOk result (λ failures. AreRight (asked_in self.now) self.now.doubts.now failures.items) }
    {
        let mut values = values.into_iter();
        let mut failures = Vec::new(self.alloc);
        for doubt in self.doubts {
            let failure = self.failure(doubt, values.next().flatten())?;
            failures.push(failure)?;
        }
        Ok(failures)
    }

    /// The failure of an alarm for a value, if there is one, its text is short, it conforms to the schema, and it makes
    /// the template fail there.
    fn failure(&self, doubt: &Doubt, value: Option<Value>) -> Result<Option<Failure>>
        ensures { IfOk result (λ found. IfSome found (IsRight (asked_in self.now) doubt.now)) }
    {
        let Some(value) = value else {
            return Ok(None);
        };
        let data = value.to_string(self.alloc)?;
        if data.len() > MOST_SHOWN || !self.is_of_schema(data.as_str())? {
            return Ok(None);
        }
        match Data::from_json(self.alloc, data.as_bytes()) {
            Ok(tree) => self.failure_over(doubt, &tree, data),
            Err(DataFault::OutOfMemory) => Err(AllocError),
            Err(_) => Ok(None),
        }
    }

    /// Whether the value of this text conforms to the schema.
    fn is_of_schema(&self, text: &str) -> Result<bool>
        ensures { IfOk result (λ is_of. is_of ≡ true → (v : tree.Value) → data_of text.now ≡ Ok v
            → IsOfSchema (view self.now.root.now) v) }
    {
        match Value::from_slice(self.alloc, text.as_bytes()) {
            Ok(value) => Ok(conforms_to(self.alloc, self.root, &value)),
            Err(error) if error.is_memory() => Err(AllocError),
            Err(_) => Ok(false),
        }
    }

    /// The failure of an alarm for the data that this text is, if they make the template fail there.
    fn failure_over(&self, doubt: &Doubt, tree: &Data, text: String) -> Result<Option<Failure>>
        requires value { data_of (string_bytes text) ≡ Ok (value_of tree.now) }
        requires conforms { IsOfSchema (view self.now.root.now) (value_of tree.now) }
        ensures { IfOk result (λ found. IfSome found (IsRight (asked_in self.now) doubt.now)) }
    {
        let Some(fault) = self.fault(tree)? else {
            return Ok(None);
        };
        if !is_doubted(doubt, &fault, self.stops) {
            return Ok(None);
        }
        Ok(Some(Failure {
            data: text,
            said: said_of(self.alloc, &fault.kind)?,
            is_strict: matches!(&fault.kind, RunFaultKind::NoEntry(_)),
        }))
    }
}
