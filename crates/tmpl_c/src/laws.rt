//! The laws of the library: its stages, and that it answers as the command does.
ghost use Rattle.tmpl_c.specs.Laws.{AddsInTurn, AnswersAsCommand, AnswersButForName, HasDefaults, HoldsPrefix};
ghost use Rattle.tmpl_c.specs.Laws.{HoldsWhole, KeepsAsBefore, KeepsLimit, KeepsOffered, Prints, RefusesName};
ghost use Rattle.tmpl_c.specs.Laws.{RendersAsKept, RendersOfFormat, TextOfFormat, ReplacesAsOffered, Runs, StopsAtData, StopsAtFile, StopsAtTemplate};
ghost use Rattle.tmpl_c.specs.Laws.{TextHasStatus, TextHoldsPrefix, TextHoldsWhole};
ghost use Rattle.tmpl_c.specs.SafeCommand.{SafeCommand};

use crate::gathered::Gathered;
use crate::shared_data::SharedData;
use std::marker::{Send, Sync};
use std::snapshot::Snapshot;
use tmpl_code::{Instruction, Tables};
use tmpl_engine::Set;

/// The laws of the stages: the files in turn, the printed set, the data, the name, and the run.
#[tactic(auto, using(crate::proofs::LawLemmas::stages))]
pub fn stages()
    ensures names { RefusesName }
    ensures files { StopsAtFile }
    ensures print { Prints }
    ensures input { StopsAtData }
    ensures template { StopsAtTemplate }
    ensures run { Runs }
{}

/// The law that the library answers as the command does over the same files, but for what a line calls the data.
#[tactic(auto, using(crate::proofs::LawLemmas::as_command))]
pub fn as_command()
    ensures same { AnswersAsCommand }
    ensures named { AnswersButForName }
{}

/// The laws of what is kept: a render of it is one of the files and the data that it was made of, and what is refused
/// leaves it as it was.
#[tactic(auto, using(crate::proofs::LawLemmas::kept))]
pub fn kept()
    ensures render { RendersAsKept }
    ensures files { AddsInTurn }
    ensures offered { KeepsOffered }
    ensures before { KeepsAsBefore }
{}

/// The laws of what a caller sees of a render: with status 0 the memory holds the whole text, and with any status a
/// prefix of it. Settings of all zeros are the options of a command that names none. Under a limit the text is the
/// bytes up to it.
#[tactic(auto, using(crate::proofs::SeenLemmas::seen))]
pub fn seen_by_caller()
    ensures whole { HoldsWhole }
    ensures prefix { HoldsPrefix }
    ensures defaults { HasDefaults }
    ensures limit { KeepsLimit }
{}

/// The laws of what a caller sees of a text and of a handle that is made or shared: with status 0 the text is the whole
/// text, and with any status a prefix of it; without a limit no status says that it does not fit. With status 0 the
/// handle has what was offered, and else what it had.
#[tactic(auto, using(crate::proofs::SeenLemmas::texts))]
pub fn text_seen_by_caller()
    ensures whole { TextHoldsWhole }
    ensures prefix { TextHoldsPrefix }
    ensures status { TextHasStatus }
    ensures replaces { ReplacesAsOffered }
{}

/// The law of formats: where one is asked for, with status 0 the text that is given is of it.
#[tactic(auto, using(crate::proofs::GivenLemmas::of_format))]
pub fn of_format()
    ensures text { TextOfFormat }
    ensures memory { RendersOfFormat }
{}

/// The law from a check to the command: where `findings_of` finds no error, the command over the same files, and over data
/// that conforms to the schema, ends well, or at a limit or a stop.
#[tactic(auto, using(crate::proofs::SafeLemmas::safe_command))]
pub fn safe_command()
    ensures { SafeCommand }
{}

/// What may be owned and seen by several threads.
fn crosses<T: Send + Sync>() {}

/// The law that what handles keep may be used by several threads: the templates of a set, the parts of a program,
/// data, and a text. The toolchain proves the bound at each.
pub fn crosses_threads() {
    crosses::<Set>();
    crosses::<Tables>();
    crosses::<Vec<Instruction>>();
    crosses::<Snapshot<Set>>();
    crosses::<SharedData>();
    crosses::<Gathered>();
}
