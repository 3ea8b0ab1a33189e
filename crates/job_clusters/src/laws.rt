// A law of the definitions, on a function that does nothing but cite other laws.
ghost use Rattle.std.specs.Prelude.{◌≡◌, ℕ, Bool, List};
ghost use Rattle.ad_tree.specs.Ad.{ad_frames};
ghost use Rattle.ad_store.specs.Stock.{Advert};
ghost use Rattle.dock_match.specs.Pool.{Pool};
ghost use Rattle.bilateral_match.specs.Answers.{answers};
ghost use Rattle.bilateral_match.specs.Members.{best};
ghost use Rattle.significant_attrs.specs.Shown.{ads_in};
ghost use Rattle.significant_attrs.specs.Twins.{AreAllMarked, AreTwins};

use ad_tree::Ad;
use bilateral_match::requests_that_dock_alike_are_matched_alike;
use significant_attrs::twins_are_told_apart_by_no_ad;

/// Two single requests that are the same but for attributes of their roots that the matching with the ads of a store can't come to:
/// a query gives both the same answers, and as jobs of users with the same number both have the same best member, whatever is
/// offered or claimed.
pub fn twins_are_matched_alike(one: &Ad, other: &Ad)
    ensures answers { (marks : List Bool) (moment : ℕ) (ads : List Advert)
        → AreAllMarked (ads_in ads) (ad_frames one.now) marks → AreTwins marks (ad_frames one.now) (ad_frames other.now)
        → answers moment (ad_frames one.now) ads ≡ answers moment (ad_frames other.now) ads }
    ensures best { (marks : List Bool) (pool : Pool) (number : ℕ)
        → AreAllMarked (ads_in pool.ads) (ad_frames one.now) marks → AreTwins marks (ad_frames one.now) (ad_frames other.now)
        → best pool (ad_frames one.now) number ≡ best pool (ad_frames other.now) number }
{
    twins_are_told_apart_by_no_ad(one, other);
    requests_that_dock_alike_are_matched_alike(one, other);
}
