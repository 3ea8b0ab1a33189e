// Laws of the definitions, each on a function that does nothing.
ghost use Rattle.std.specs.Prelude.{◌≡◌, Result, Ok};
ghost use Rattle.ad_tree.specs.Ad.{ad_frames};
ghost use Rattle.ad_tree.specs.Inline.{Inline, spelled, spelled_tree};
ghost use Rattle.ad_tree.specs.Tree.{tree};
ghost use Rattle.ad_grammar.specs.Grammar.{IsExpr, IsRoot};
ghost use Rattle.ad_grammar.specs.Made.{IsMade};
ghost use Rattle.ad_parser.specs.Answers.{Spells, IsWithin, frames_of_expr, frames_of_ad, AnswersAd, AnswersExpr};
ghost use Rattle.ad_parser.specs.OneAnswer.{HasOneAnswer};
ghost use Rattle.ad_parser.specs.Outcomes.{HasAdOutcome, HasExprOutcome, ad_outcome, expr_outcome};
ghost use Rattle.ad_parser.specs.declared.fault.ParseFault.{ParseFault};

use ad_tree::{Ad, Phrase};

/// Each text has one tree within the limits or one fault, and not both, as an expression and as an ad.
pub fn texts_have_one_answer(text: &[u8])
    ensures expression { HasOneAnswer IsExpr frames_of_expr text.now }
    ensures ad { HasOneAnswer IsRoot frames_of_ad text.now }
{}

/// So each text has exactly one outcome of a parse: its tree where that is within the limits, and else its fault. It is
/// what the functions `expr_outcome` and `ad_outcome` give.
pub fn texts_have_one_outcome(text: &[u8])
    ensures expression { HasExprOutcome text.now (expr_outcome text.now) }
    ensures one_expression { (outcome other : Result Inline ParseFault) → HasExprOutcome text.now outcome → HasExprOutcome text.now other → outcome ≡ other }
    ensures ad { HasAdOutcome text.now (ad_outcome text.now) }
    ensures one_ad { (outcome other : Result Inline ParseFault) → HasAdOutcome text.now outcome → HasAdOutcome text.now other → outcome ≡ other }
{}

/// A tree that a text spells has that form: names aren't empty, names and strings are UTF-8 without byte 0, integers
/// aren't negative, and a chain has at least two elements, of which the first is no chain of its kind.
pub fn texts_spell_parsed_trees(text: &[u8])
    ensures expression { (x : Inline) → Spells IsExpr text.now x → IsMade x }
    ensures ad { (x : Inline) → Spells IsRoot text.now x → IsMade x }
{}

/// So has an ad that a parse answers, as it is spelled, and it is within the limits.
pub fn parsed_ads_are_kept(text: &[u8], ad: &Ad)
    requires { AnswersAd text.now (Ok ad.now) }
    ensures made { IsMade (spelled (ad_frames ad.now)) }
    ensures within { IsWithin frames_of_ad (spelled (ad_frames ad.now)) }
{}

/// So has an expression that a parse answers.
pub fn parsed_phrases_are_kept(text: &[u8], phrase: &Phrase)
    requires { AnswersExpr text.now (Ok phrase.now) }
    ensures made { IsMade (spelled_tree (ad_frames phrase.now.ad) (tree phrase.now.expr)) }
    ensures within { IsWithin frames_of_expr (spelled_tree (ad_frames phrase.now.ad) (tree phrase.now.expr)) }
{}
