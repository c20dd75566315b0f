//! The laws of the grammar.
ghost use Rattle.tmpl_grammar.specs.Constant.{IsConstant};
ghost use Rattle.tmpl_grammar.specs.Laws.{AdmitsOne, IsAction, IsAdmitted, IsComputed, IsPipeline};
ghost use Rattle.tmpl_grammar.specs.Laws.{PrintsTokens, SpellsTokens};
ghost use Rattle.tmpl_grammar.specs.Operand.{IsOperand};
ghost use Rattle.tmpl_grammar.specs.computed.Constant.{constant_of};
ghost use Rattle.tmpl_grammar.specs.computed.Operand.{operand_at};
ghost use Rattle.tmpl_grammar.specs.computed.Reading.{action_in, pipeline_in};

/// The law that a token is one constant at most, and that just this one is computed.
#[tactic(auto, using(crate::proofs::IsConstantLemmas::constants))]
pub fn one_constant()
    ensures computed { IsComputed IsConstant constant_of }
    ensures admitted { IsAdmitted IsConstant constant_of }
    ensures one { AdmitsOne IsConstant }
{}

/// The law that a token is one operand at most, and that just this one is computed.
#[tactic(auto, using(crate::proofs::IsOperandLemmas::operands))]
pub fn one_operand()
    ensures computed { IsComputed IsOperand operand_at }
    ensures admitted { IsAdmitted IsOperand operand_at }
    ensures one { AdmitsOne IsOperand }
{}

/// The law that a list of tokens spells one pipeline at most, and that just this one is read.
#[tactic(auto, using(crate::proofs::PipelineLemmas::pipelines))]
pub fn one_reading()
    ensures read { IsComputed IsPipeline pipeline_in }
    ensures spelled { IsAdmitted IsPipeline pipeline_in }
    ensures one { AdmitsOne IsPipeline }
{}

/// The law that a list of tokens spells one action at most, and that just this one is read.
#[tactic(auto, using(crate::proofs::ActionLemmas::actions))]
pub fn one_action()
    ensures read { IsComputed IsAction action_in }
    ensures spelled { IsAdmitted IsAction action_in }
    ensures one { AdmitsOne IsAction }
{}

/// The law that the tokens of a printed action are read from its bytes.
#[tactic(auto, using(crate::proofs::PrintedTokenLemmas::tokens))]
pub fn printed_tokens()
    ensures { PrintsTokens }
{}

/// The law that the tokens of a printed action spell it.
#[tactic(auto, using(crate::proofs::PrintedSpellingLemmas::spellings))]
pub fn printed_spelling()
    ensures { SpellsTokens }
{}
