// Laws of the definitions, each on a function that does nothing.
ghost use Rattle.std.specs.Prelude.{◌≡◌, ◌↔◌, ℕ, Bool, true, List, Contains};
ghost use Rattle.pool_text.specs.Folding.{folded};
ghost use Rattle.ad_tree.specs.Ad.{ad_frames};
ghost use Rattle.ad_tree.specs.Frames.{Frame};
ghost use Rattle.ad_tree.specs.Names.{has_name};
ghost use Rattle.significant_attrs.specs.Matched.{AreMatchedAlike, docked_to};
ghost use Rattle.significant_attrs.specs.Reach.{IsReached, reached_from};
ghost use Rattle.significant_attrs.specs.Twins.{AreAllMarked, AreTwins};

use ad_tree::Ad;

/// The names that are listed as reached are the least set that has the first names, and with the name of an attribute of the
/// root each name that the attribute needs.
pub fn listed_names_are_the_least_set()
    ghost given: { List (List ℕ) × List Frame }
    ensures { (x : List ℕ) → (has_name x (reached_from given.0 given.1) ≡ true) ↔ IsReached given.0 given.1 (folded x) }
{}

/// Two single requests that are the same but for attributes that the matching with some ads can't come to: each of these ads docks
/// at every moment with both or with neither, and the ranks on either side are equal.
pub fn twins_are_told_apart_by_no_ad(one: &Ad, other: &Ad)
    ensures { (marks : List Bool) (ads : List (List Frame)) (ad : List Frame) (moment : ℕ)
        → AreAllMarked ads (ad_frames one.now) marks → AreTwins marks (ad_frames one.now) (ad_frames other.now) → Contains ads ad
        → AreMatchedAlike (docked_to moment (ad_frames one.now) ad) (docked_to moment (ad_frames other.now) ad) }
{}
