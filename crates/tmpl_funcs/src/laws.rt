//! The laws of the table of functions and of formats.
ghost use Rattle.tmpl_funcs.specs.Laws.{CountsFirst, HasOneReading, ReadsAll, ReadsInOrder, ReadsSoundly};

/// The law that a call with a number of arguments that the function does not take is refused for that, whatever the
/// arguments are.
#[tactic(auto, using(crate::proofs::TableLemmas::counts_first))]
pub fn count_first()
    ensures { CountsFirst }
{}

/// The law that a format has one reading: what it is read as is a reading, and every reading is that. It can be read
/// from left to right.
pub fn one_format_reading(format: &[u8])
    ensures reads { ReadsSoundly format.now }
    ensures read { ReadsAll format.now }
    ensures one { HasOneReading format.now }
    ensures order { ReadsInOrder format.now }
{
    let _ = format;
}
