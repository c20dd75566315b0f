//! Laws of the machine that the definitions describe, and of a render of no template.
ghost use Rattle.tmpl_engine.specs.Laws.{ComesToMeaning, DepthByChains, EachTurnLessens, HasOneEnd, LeavesSink};
ghost use Rattle.tmpl_engine.specs.Laws.{MarkStays, OnlyAdds, StaysWithin, TextIsNamed, TurnsAreBounded};

/// The law that the code of a set comes to the meaning of each of its templates, on a stack with the cells that each
/// chain of its calls needs.
pub fn comes_to_meaning()
    ensures { ComesToMeaning }
{}

/// The law that a run has the same result whatever depth is allowed beyond the longest chain of calls.
pub fn depth_by_chains()
    ensures { DepthByChains }
{}

/// The law that a run keeps within the cells of its stack.
pub fn stays_within()
    ensures { StaysWithin }
{}

/// The law that a state of the machine has one end at most.
pub fn one_end()
    ensures { HasOneEnd }
{}

/// The law that a run only adds to what it has put out.
pub fn only_adds()
    ensures { OnlyAdds }
{}

/// The law that a run which has called a function that makes a text is told to have called one, at its end.
pub fn mark_stays()
    ensures { MarkStays }
{}

/// The law that a run ends: each turn takes a step, or closes a template, or goes forward in the code.
pub fn each_turn_lessens()
    ensures { EachTurnLessens }
{}

/// The law that a run takes a bounded number of turns: for each step that it may take, and once more, twice as many as
/// the code has instructions.
pub fn bounded_turns()
    ensures { TurnsAreBounded }
{}

/// The law that a run which makes text is of a set that names a function which makes one.
pub fn text_is_named()
    ensures { TextIsNamed }
{}

/// The law that a render answers that there is no template only where the set has none of the name, and that its sink is
/// then as it was.
#[tactic(auto, using(crate::proofs::RenderLemmas::laws))]
pub fn leaves_sink()
    ensures { LeavesSink }
{}
