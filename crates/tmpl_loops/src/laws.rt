//! The law of copy loops.
ghost use Rattle.tmpl_loops.specs.Law.{CallsCopy, LoopsCopy, RunsCopy};
ghost use Rattle.tmpl_loops.specs.computed.Find.{FindsLoops};

/// The law that a copy loop writes, over any text, what stands before the loop, then for each byte what a turn writes
/// for it, and what stands after the loop; and that it has no fault but where no step is left or a turn is at a stop.
/// So do calls of it and runs of it, and nodes of which the parts of a loop are found are one.
pub fn copies()
    ensures loops { LoopsCopy }
    ensures calls { CallsCopy }
    ensures runs { RunsCopy }
    ensures finds { FindsLoops }
{}
