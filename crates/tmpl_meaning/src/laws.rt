//! The laws of `and` and `or`, of the text of a run and its limits, of files and lines, and of what never comes in a
//! run.
ghost use Rattle.tmpl_meaning.specs.Laws.{AlikeRunAlike, EndsInRange, FindsNames, JoinsByTable, LimitsOnlyCut};
ghost use Rattle.tmpl_meaning.specs.Laws.{NodeAdds, NodesAdd, PrintedRunsAlike, StaysInScope};

/// The law that an `and` or an `or` all of whose operands have values gives what the function table says of these.
#[tactic(auto, using(crate::proofs::JoinLemmas::joins))]
pub fn joins_by_table()
    ensures { JoinsByTable }
{}

/// The law that a part of a template only adds to the text: however far a run has come, the text after a node, and
/// after nodes one after the other, begins with the text before.
pub fn adds_to_text()
    ensures node { NodeAdds }
    ensures nodes { NodesAdd }
{}

/// The law of what never comes in a run of formed nodes, which those of each tree of a `Set` are. From where the
/// variables have the names in scope, as they do at the start of a template, the run is the same whatever older
/// variables there are, and leaves them as they are; so it plays no part what is said of a name without a variable.
/// Nodes in no body of a range, as those of a template, end neither at a `break` nor at a `continue`. And where nodes
/// are done, the variables have the names in scope after them.
pub fn formed_runs()
    ensures finds { FindsNames }
    ensures ends { EndsInRange }
    ensures stays { StaysInScope }
{}

/// The law that limits do nothing but cut a run off: with fewer steps, or a smaller depth, the text is a beginning of
/// what it is with more; and where no limit ends the run, it is the same, its fault with it.
pub fn limits_only_cut()
    ensures { LimitsOnlyCut }
{}

/// The law that trees and sets which are alike apart from files and lines come to the same, over all data and by all
/// rules: to the same text, and to a fault of the same template and cause.
pub fn alike_run_alike()
    ensures { AlikeRunAlike }
{}

/// The law that what is printed of a set renders the same: where it is accepted as a file of the base name of one of
/// its templates, each of them gives the same text, and a fault of the same template and cause.
pub fn printed_runs_alike()
    ensures { PrintedRunsAlike }
{}
