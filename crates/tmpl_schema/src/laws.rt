//! The law of the check.
ghost use Rattle.tmpl_schema.specs.computed.Safe.{RunsSafely};

/// The law that a run of an accepted template over a value of the shape has no fault but that no step is left and that
/// calls are too deep.
pub fn runs_safely()
    ensures { RunsSafely }
{}
