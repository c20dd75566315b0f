//! The laws of the command: its words, what parses its files, its stages, and its ends.
ghost use Rattle.tmpl_tool.specs.Laws.{GivesHelp, HasOneParse, HasParse, LiesAnywhere, Prints, RefusesWords, Runs};
ghost use Rattle.tmpl_tool.specs.Laws.{StopsAtData, StopsAtDataRead, StopsAtFile, StopsAtName, StopsAtRead};
ghost use Rattle.tmpl_tool.specs.Laws.{TellsFailedWrite, TellsReads, TellsRefusedMemory};

/// The law that clap's definition of the words does not depend on where the four words of `--missingkey` lie in memory,
/// so that it may be stated at any one place.
pub fn one_place()
    ensures { LiesAnywhere }
{}

/// The law that just one function accepts and refuses each file by the rules.
#[tactic(auto, using(crate::proofs::ParseLemmas::one_parse))]
pub fn one_parse()
    ensures some { HasParse }
    ensures one { HasOneParse }
{}

/// The laws of the stages: help, the words, the FILEs in turn, the printed set, the data, the name, and the run.
#[tactic(auto, using(crate::proofs::StageLemmas::stages))]
pub fn stages()
    ensures help { GivesHelp }
    ensures words { RefusesWords }
    ensures files { StopsAtFile }
    ensures read { StopsAtRead }
    ensures print { Prints }
    ensures input { StopsAtData }
    ensures data_read { StopsAtDataRead }
    ensures name { StopsAtName }
    ensures run { Runs }
{}

/// The laws of the ends that are not the function's, a write that failed and out of memory, and that all files are read
/// in any other.
#[tactic(auto, using(crate::proofs::StageLemmas::ends))]
pub fn ends()
    ensures write { TellsFailedWrite }
    ensures memory { TellsRefusedMemory }
    ensures reads { TellsReads }
{}
