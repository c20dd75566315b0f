//! A law of the machines.
ghost use Rattle.tmpl_formats.specs.computed.Laws.{RefusesPrefix};

/// Where a machine refuses a text at a byte, no text with this prefix is of the format for it.
pub fn refused_prefix()
    ensures { RefusesPrefix }
{}
