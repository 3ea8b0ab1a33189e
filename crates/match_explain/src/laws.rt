// Laws of the definitions, each on a function that does nothing.
ghost use Rattle.std.specs.Prelude.{◌≡◌, true};
ghost use Rattle.ad_eval.specs.Dock.{is_docked};
ghost use Rattle.eval_scope.specs.World.{PlainWorld};
ghost use Rattle.match_explain.specs.Why.{verdict};

use crate::Verdict;

/// An ad is accepted exactly where its dock with the request is true.
pub fn accepted_ads_are_those_that_dock()
    ensures accepted { (w : PlainWorld) → verdict w ≡ Verdict.Accepted → is_docked w ≡ true }
    ensures docked { (w : PlainWorld) → is_docked w ≡ true → verdict w ≡ Verdict.Accepted }
{}
