//! A run of the template over the data, within limits.
ghost use Rattle.std.specs.Prelude.{◌<◌, ◌^◌, ◌-◌, ◌≡◌, IfOk, if◌then◌else◌};
ghost use Rattle.tmpl_meaning.specs.View.{fault_seen};
ghost use Rattle.tmpl_values.specs.View.{value_of};
ghost use Rattle.tmpl_engine.specs.View.{templates_in};
ghost use Rattle.tmpl_report.specs.Rendered.{is_limit, run_rules};
ghost use Rattle.tmpl_report.specs.computed.Ended.{IsEnd};

use crate::Result;
use std::alloc::{AllocError, Global};
use tmpl_engine::{Data, MissingKey, Options, RenderError, Renderer, RunFault, RunFaultKind, Sink};

/// The limits of the run.
pub(crate) const STEPS: u64 = 1_000_000;

pub(crate) const DEPTH: u32 = 500;

/// The most bytes that it writes.
pub(crate) const MOST_RENDERED: usize = 16_000_000;

/// How a run ends.
pub(crate) enum End<'a> {
    /// At its end; or there is no template of the name.
    Whole,
    /// At a fault, which is none of a limit.
    Fault(RunFault<'a>),
    /// At a limit: of its steps, of calls inside one another, or of what the sink takes.
    Limit,
}

/// The template that is rendered, and the mode for missing keys.
#[derive(Drop)]
pub(crate) struct Render<'r> {
    pub(crate) renderer: &'r Renderer,
    pub(crate) name: &'r [u8],
    pub(crate) mode: MissingKey,
}

impl<'r> Render<'r> {
    /// Renders the template over data to a sink, which fails where it has enough.
    pub(crate) fn over<'a, S: Sink>(
        &'a self,
        alloc: Global,
        tree: &'a Data,
        out: &mut S,
    ) -> Result<End<'a>>
        requires { (S.so_far out.old).failures < 2 ^ 64 - 1 }
        ensures { IfOk result (IsEnd (run_rules self.now.mode) (templates_in self.now.renderer.now) self.now.name.now
            (value_of tree.now)) }
    {
        let options = Options {
            missing_key: self.mode,
            depth: DEPTH,
            steps: STEPS,
        };
        match self
            .renderer
            .render(alloc, self.name, Some(tree), &options, out)
        {
            Ok(()) => Ok(End::Whole),
            Err(RenderError::Fault(fault)) => Ok(end_at(fault)),
            Err(RenderError::NoTemplate) => Ok(End::Whole),
            Err(RenderError::WriteFailed) => Ok(End::Limit),
            Err(RenderError::OutOfMemory) => Err(AllocError),
        }
    }
}

/// The end of a run at a fault.
fn end_at<'a>(fault: RunFault<'a>) -> End<'a>
    ensures { result ≡ (if is_limit (fault_seen fault.entry).cause then End.Limit else End.Fault fault.entry) }
{
    let is_limit = matches!(
        &fault.kind,
        RunFaultKind::StepsSpent(_) | RunFaultKind::CallsTooDeep(_)
    );
    if is_limit {
        End::Limit
    } else {
        End::Fault(fault)
    }
}
