//! The laws of the cut and of tokens.
ghost use Rattle.tmpl_lex.specs.Laws.{HasCut, HasNoOtherCut, FindsToken, StandsWhereFound, OneToken};

/// The law that each file is cut into one list of pieces, whatever memory there is.
#[tactic(auto, using(crate::proofs::CutLemmas::laws))]
pub fn one_cut(bytes: &[u8])
    ensures exists { HasCut bytes.now }
    ensures one { HasNoOtherCut bytes.now }
{
    let _ = bytes;
}

/// The law that bytes begin with one token at most, the one that is computed, and with none where an action ends.
pub fn one_token()
    ensures found { FindsToken }
    ensures stands { StandsWhereFound }
    ensures one { OneToken }
{}
