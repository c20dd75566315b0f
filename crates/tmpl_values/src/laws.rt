//! The laws of runes and of data.
ghost use Rattle.tmpl_values.specs.Laws.{AreReadInOrder, HasNoOtherRunes, HasRisingKeys, HasTheseRunes, JoinsBack, NestsWithin};

/// The law that bytes have one list of runes, which can be read from left to right, and joined are the bytes.
#[tactic(auto, using(crate::proofs::RunesLemmas::runes_of))]
pub fn one_list_of_runes()
    ensures exists { HasTheseRunes }
    ensures one { HasNoOtherRunes }
    ensures read { AreReadInOrder }
    ensures joined { JoinsBack }
{}

/// The law that data is nested at most 127 deep, and that the keys of each of its maps rise.
#[tactic(auto, using(crate::proofs::DataLemmas::bounded))]
pub fn data_is_bounded()
    ensures nests { NestsWithin }
    ensures rising { HasRisingKeys }
{}
