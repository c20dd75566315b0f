//! The law of commands that always fail.
ghost use Rattle.tmpl_report.specs.Laws.{ArgumentFails, CommandFails};

/// The law that a command of which `tmpl_problems` says that it always fails has no value, whatever the data, the
/// variables, the mode for missing keys and the value that is piped to it are; nor has a function that is an argument.
pub fn always_fails()
    ensures command { CommandFails }
    ensures argument { ArgumentFails }
{}
