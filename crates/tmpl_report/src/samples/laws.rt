//! Laws of the definitions.
ghost use Rattle.tmpl_report.specs.Refutes.{FailureRefutes};

/// The law that an alarm of which a failure is right is no false alarm: the template does fail over data of the schema.
pub fn failure_refutes()
    ensures { FailureRefutes }
{}
