//! The output of a template over data, where it ceases to be of a format, and which action wrote it there.
ghost use Rattle.std.specs.Prelude.{IfOk, IfSome};
ghost use Rattle.tmpl_values.specs.View.{value_of};
ghost use Rattle.tmpl_engine.specs.View.{templates_in};
ghost use Rattle.tmpl_report.specs.computed.Written.{IsBroken, IsOutput, output_rules};

use crate::Result;
use crate::output::spread::{Origin, SpreadSet};
use crate::rendered::{DEPTH, MOST_RENDERED, STEPS};
use crate::samples::Nowhere;
use crate::source::Task;
use std::alloc::AllocError;
use tmpl_engine::{
    Data, MissingKey, Options, RenderError, Renderer, RunFault, RunFaultKind, Sink, SinkFault,
};
use tmpl_formats::{Format, Mistake, first_mistake};

/// The most steps of a run that is not long.
const FEW_STEPS: u64 = 20_000;

/// How often steps are halved: more than there are steps.
const MOST_HALVES: usize = 64;

/// Takes output up to a number of bytes, and keeps it.
#[derive(Drop)]
struct Kept {
    bytes: Vec<u8>,
    failures: u64,
}

impl Sink for Kept {
    ghost use Rattle.std.specs.Prelude.{Some};

    ghost so_far = { λ s. record { bytes = Some s.bytes.items; failures = s.failures } };

    fn put(&mut self, bytes: &[u8]) -> Result<usize, SinkFault> {
        let is_full = bytes.len() > MOST_RENDERED.saturating_sub(self.bytes.len());
        if is_full || self.bytes.extend_from_slice(bytes).is_err() {
            self.failures += 1;
            return Err(SinkFault);
        }
        Ok(bytes.len())
    }
}

/// The template that is rendered, and the format that its output has to be of.
#[derive(Drop)]
pub(super) struct Writer<'w, 't, 'a> {
    pub(super) task: Task<'t, 'a>,
    pub(super) renderer: &'w Renderer,
    pub(super) format: &'t Format,
    name: &'a [u8],
    mode: MissingKey,
}

/// An output that is not of the format.
#[derive(Drop)]
pub(super) struct Broken {
    pub(super) output: Vec<u8>,
    pub(super) mistake: Mistake,
}

impl<'w, 't, 'a> Writer<'w, 't, 'a> {
    /// That of a task, whose set is compiled.
    pub(super) fn new(task: &Task<'t, 'a>, renderer: &'w Renderer, format: &'t Format) -> Self {
        Writer {
            task: *task,
            renderer,
            format,
            name: task.name(),
            mode: task.question.mode.unwrap_or(MissingKey::Default),
        }
    }

    /// The output over data; none where the run has a fault or meets a limit.
    fn output_over(&self, tree: &Data) -> Result<Option<Vec<u8>>>
        ensures { IfOk result (λ output. IfSome output (λ bytes. IsOutput (output_rules self.now.mode)
            (templates_in self.now.renderer.now) self.now.name.now (value_of tree.now) bytes.items)) }
    {
        let mut out = Kept {
            bytes: Vec::new(self.task.alloc),
            failures: 0,
        };
        let options = Options {
            missing_key: self.mode,
            depth: DEPTH,
            steps: STEPS,
        };
        match self
            .renderer
            .render(self.task.alloc, self.name, Some(tree), &options, &mut out)
        {
            Ok(()) => {
                let Kept { bytes, .. } = out;
                Ok(Some(bytes))
            }
            Err(RenderError::OutOfMemory) => Err(AllocError),
            Err(_) => Ok(None),
        }
    }

    /// The output over data, where it is not of the format; none also where the run has a fault or meets a limit.
    pub(super) fn broken_over(&self, tree: &Data) -> Result<Option<Broken>>
        ensures { IfOk result (λ found. IfSome found (λ broken. IsBroken (output_rules self.now.mode)
            (templates_in self.now.renderer.now) self.now.name.now (value_of tree.now) self.now.format.now
            broken.output.items)) }
    {
        let Some(output) = self.output_over(tree)? else {
            return Ok(None);
        };
        let found = first_mistake(self.task.alloc, self.format, output.as_slice())?;
        match found {
            Some(mistake) => Ok(Some(Broken { output, mistake })),
            None => Ok(None),
        }
    }

    /// Whether a run over data takes long.
    pub(super) fn is_long(&self, tree: &Data) -> Result<bool> {
        Ok(
            self.cut_at(self.renderer, tree, FEW_STEPS, MOST_RENDERED)?
                .is_some(),
        )
    }

    /// The fault of a run of this many steps, if it is that no step is left before more bytes are written than these.
    fn cut_at<'r>(
        &self,
        renderer: &'r Renderer,
        tree: &'r Data,
        steps: u64,
        bytes: usize,
    ) -> Result<Option<RunFault<'r>>>
    where
        'a: 'r,
    {
        let mut out = Nowhere::of(bytes);
        let options = Options {
            missing_key: self.mode,
            depth: DEPTH,
            steps: steps.max(1).min(STEPS),
        };
        match renderer.render(self.task.alloc, self.name, Some(tree), &options, &mut out) {
            Err(RenderError::OutOfMemory) => Err(AllocError),
            Err(RenderError::Fault(fault)) if matches!(&fault.kind, RunFaultKind::StepsSpent(_)) =>
                { Ok(Some(fault)) }
            _ => Ok(None),
        }
    }

    /// The node that writes the byte before which there are this many of the output, or the last node where it has no
    /// more. A run of fewer steps writes a prefix of the output, so it is the one for which the steps run out first.
    pub(super) fn origin_of(&self, tree: &Data, offset: usize) -> Result<Option<Origin<'a>>> {
        let task = &self.task;
        let files = task.sources.templates.as_slice();
        let Some(spread) = SpreadSet::of(task.alloc, task.set, files)? else {
            return Ok(None);
        };
        let renderer = Renderer::new(task.alloc, &spread.set)?;
        let mut few: u64 = 0;
        let mut enough: u64 = STEPS;
        let mut origin = None;
        for _ in 0..MOST_HALVES {
            if enough.saturating_sub(few) <= 1 {
                break;
            }
            let middle = few.saturating_add(enough.saturating_sub(few) / 2);
            match self.cut_at(&renderer, tree, middle, offset)? {
                Some(fault) => {
                    few = middle;
                    origin = spread.origin(fault.file, fault.line);
                }
                None => enough = middle,
            }
        }
        if few == 0 {
            return Ok(self.first_origin());
        }
        Ok(origin)
    }

    /// The first node of the template.
    fn first_origin(&self) -> Option<Origin<'a>> {
        let tree = self.task.set.get(self.name)?;
        let start = tree.nodes.as_slice().first()?.start;
        let (file, _) = self.task.sources.place(tree.file.as_slice(), start)?;
        Some(Origin { file, start })
    }
}
