// Laws of the definitions, each on a function that does nothing.
ghost use Rattle.std.specs.Prelude.{◌≡◌, ◌≤◌, Ok, Result};
ghost use Rattle.ad_tree.specs.Ad.{ad_frames};
ghost use Rattle.ad_tree.specs.Inline.{Inline, Defs, inner, height, spelled, spelled_tree};
ghost use Rattle.ad_tree.specs.Tree.{tree};
ghost use Rattle.ad_tree.specs.declared.ad.Ad.{Ad};
ghost use Rattle.ad_tree.specs.declared.phrase.Phrase.{Phrase};
ghost use Rattle.ad_grammar.specs.Grammar.{IsExpr, IsRoot};
ghost use Rattle.ad_parser.specs.Answers.{Spells, AnswersAd, AnswersExpr};
ghost use Rattle.ad_parser.specs.Limits.{height_limit};
ghost use Rattle.ad_grammar.specs.Made.{IsMade};
ghost use Rattle.ad_parser.specs.declared.fault.ParseFault.{ParseFault};
ghost use Rattle.ad_printer.specs.Printed.{printed};
ghost use Rattle.ad_printer.specs.ReadBack.{IsAdAgain, IsPhraseAgain};
ghost use Rattle.ad_printer.specs.Values.{printed_frame};

use ad_tree::{Ad, Phrase};

/// The printed text of a tree of the form that every parsed tree has, no higher than a parse takes, spells that tree and
/// no other, as an expression and, for an ad literal, as an ad.
pub fn printed_trees_are_read()
    ensures expression { (x : Inline) → IsMade x → height x ≤ height_limit → Spells IsExpr (printed x) x }
    ensures one_expression { (x other : Inline) → IsMade x → height x ≤ height_limit → Spells IsExpr (printed x) other → other ≡ x }
    ensures ad { (ds : Defs) → IsMade (inner ds) → height (inner ds) ≤ height_limit → Spells IsRoot (printed (inner ds)) (inner ds) }
    ensures one_ad { (ds : Defs) (other : Inline) → IsMade (inner ds) → height (inner ds) ≤ height_limit → Spells IsRoot (printed (inner ds)) other
        → other ≡ inner ds }
{}

/// So no two such trees have one text.
pub fn printing_is_one_to_one()
    ensures { (x y : Inline) → IsMade x → IsMade y → height x ≤ height_limit → height y ≤ height_limit → printed x ≡ printed y → x ≡ y }
{}

/// The printed text of an ad that a parse answered spells that ad, and whatever a parse answers to it is an equal ad or
/// want of memory.
pub fn printed_ads_are_read_back(text: &[u8], ad: &Ad)
    requires { AnswersAd text.now (Ok ad.now) }
    ensures spelled { Spells IsRoot (printed_frame (ad_frames ad.now) 0) (spelled (ad_frames ad.now)) }
    ensures read { (again : Result Ad ParseFault) → AnswersAd (printed_frame (ad_frames ad.now) 0) again → IsAdAgain (ad_frames ad.now) again }
{}

/// The printed text of a phrase that a parse answered spells that phrase, and whatever a parse answers to it is an equal
/// phrase or want of memory.
pub fn printed_phrases_are_read_back(text: &[u8], phrase: &Phrase)
    requires { AnswersExpr text.now (Ok phrase.now) }
    ensures spelled { Spells IsExpr (printed (spelled_tree (ad_frames phrase.now.ad) (tree phrase.now.expr)))
        (spelled_tree (ad_frames phrase.now.ad) (tree phrase.now.expr)) }
    ensures read { (again : Result Phrase ParseFault) → AnswersExpr (printed (spelled_tree (ad_frames phrase.now.ad) (tree phrase.now.expr))) again
        → IsPhraseAgain (ad_frames phrase.now.ad) (tree phrase.now.expr) again }
{}
