//! Laws of the definitions that the contracts speak of.
ghost use Rattle.tmpl_syntax.specs.Laws.{HasItemsOf, HasOneList, HasSomeItems, HasVerdict, HasOneVerdict};
ghost use Rattle.tmpl_syntax.specs.Laws.{SpellsWhereFine, SpellsAtMostOne, SpellsFormed, AcceptsAsParsed};
ghost use Rattle.tmpl_syntax.specs.Laws.{RefusesAsParsed, AcceptsInLarger, HasOutcome, HasOneOutcome};
ghost use Rattle.tmpl_syntax.specs.Laws.{AcceptsMended, FindsRefusal, HasSomeRefusals};
ghost use Rattle.tmpl_syntax.specs.Laws.{NeedsAtMost, NeedsAtMostBytes};
ghost use Rattle.tmpl_syntax.specs.Print.Join.{CutsBack};
ghost use Rattle.tmpl_syntax.specs.Print.Laws.{AcceptsBack, AcceptsPrinted, KeepsPrintable};
ghost use Rattle.tmpl_syntax.specs.Print.Laws.{PrintsAlike, ReadsSame, SetReadsSame};

/// The law that each file has one list of items: its bytes are cut into one list of pieces, and each piece
/// is read as one item. So it is in every language, whichever of the actions it has.
pub fn one_list_of_items()
    ensures exists { HasSomeItems }
    ensures one { HasOneList }
    ensures computed { HasItemsOf }
{}

/// The law that each list of items has one verdict: none is refused and nothing is open at its end,
/// or a certain item is the first that is refused, for a certain reason, or something is open.
#[tactic(auto, using(crate::proofs::VerdictLemmas::verdicts))]
pub fn one_verdict()
    ensures exists { HasVerdict }
    ensures one { HasOneVerdict }
{}

/// The law that a list of items spells definitions and nodes in one way at most, and in one where the verdict is fine.
#[tactic(auto, using(crate::proofs::SpellingLemmas::spellings))]
pub fn one_spelling()
    ensures exists { SpellsWhereFine }
    ensures one { SpellsAtMostOne }
{}

/// The law that each definition that an accepted list of items spells is formed, and the nodes of its own template:
/// each name that is used or assigned is in scope, each `break` and `continue` stands in the body of a range, and at
/// most 500 levels are inside one another.
#[tactic(auto, using(crate::proofs::AcceptedLemmas::spells_formed))]
pub fn formed()
    ensures { SpellsFormed }
{}

/// The law that each file has one outcome, which the function `parsed` gives: it is accepted and makes one set of
/// the set that is there, or it is refused at one line for one reason.
pub fn one_outcome()
    ensures exists { HasOutcome }
    ensures one { HasOneOutcome }
    ensures accepted { AcceptsAsParsed }
    ensures refused { RefusesAsParsed }
{}

/// The law that, of all that is refused of a file, the first is why it is refused, unless it is too long or defines a
/// template twice.
pub fn first_refusal()
    ensures { FindsRefusal }
{}

/// The law that something is all that is refused of each file, and that, where each item that is refused is mended, none
/// is refused; something may then be open at the end.
pub fn accepted_mended()
    ensures exists { HasSomeRefusals }
    ensures accepted { AcceptsMended }
{}

/// The law that a language with more actions, such as more else branches, accepts each file that one with fewer
/// accepts, and makes the same set of it.
#[tactic(auto, using(crate::proofs::LargerLemmas::accepts_in_larger))]
pub fn more_branches()
    ensures { AcceptsInLarger }
{}

/// The law that a template which a file spells needs at most three cells of a run's stack and one for each byte of the
/// file, and so 16,777,219 where the file is within the limit.
pub fn bounded_need()
    ensures by_bytes { NeedsAtMostBytes }
    ensures within { NeedsAtMost }
{}

/// The law that parts which are joined to a file are cut into the same parts.
#[tactic(auto, using(crate::proofs::JoinLemmas::cuts_back))]
pub fn cut_back()
    ensures { CutsBack }
{}

/// The law that printed nodes are read as the same nodes, apart from lines.
#[tactic(auto, using(crate::proofs::PrintedLemmas::reads_same))]
pub fn printed_back()
    ensures { ReadsSame }
{}

/// The law that the templates which a file defines can be printed.
pub fn printable()
    ensures { KeepsPrintable }
{}

/// The law that what the own template of an accepted file says is accepted when it is printed.
pub fn accepted_back()
    ensures { AcceptsBack }
{}

/// The law that a printed set is read as the same definitions, apart from lines.
#[tactic(auto, using(crate::proofs::PrintedLemmas::set_reads_same))]
pub fn set_back()
    ensures { SetReadsSame }
{}

/// The law that what is printed of a set is accepted, as a file of any path, unless it is longer than a file may be;
/// where there was no set, it then makes the same templates in the same order, apart from files and lines, and, where
/// none of them has the base name of the file, one more of this name, which is blank. And sets that are alike apart
/// from files and lines are printed as the same bytes.
pub fn set_accepted()
    ensures accepted { AcceptsPrinted }
    ensures same { PrintsAlike }
{}
