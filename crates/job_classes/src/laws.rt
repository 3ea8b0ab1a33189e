// Laws of the definitions, each on a function that does nothing.
ghost use Rattle.std.specs.Prelude.{◌≡◌, ◌↔◌, ℕ, List, Ok, Contains};
ghost use Rattle.ad_tree.specs.Ad.{ad_frames};
ghost use Rattle.ad_tree.specs.Frames.{Frame};
ghost use Rattle.ad_tree.specs.Names.{has_name};
ghost use Rattle.ad_parser.specs.Answers.{AnswersAd};
ghost use Rattle.ad_store.specs.Stock.{Advert};
ghost use Rattle.dock_match.specs.Pool.{Pool};
ghost use Rattle.bilateral_match.specs.Answers.{answers};
ghost use Rattle.bilateral_match.specs.Members.{best};
ghost use Rattle.significant_attrs.specs.Matched.{AreMatchedAlike, docked_to};
ghost use Rattle.significant_attrs.specs.Shown.{ads_in};
ghost use Rattle.job_classes.specs.Keys.{Entry, IsEntry, key_from, key_of};

use ad_printer::printing_is_one_to_one;
use ad_tree::Ad;
use bilateral_match::requests_that_dock_alike_are_matched_alike;

/// A key has exactly the attributes of the root that are reached, each with its printed text.
pub fn keys_have_the_reached_attributes()
    ghost given: { List (List ℕ) × List Frame }
    ensures { (e : Entry) → Contains (key_from given.0 given.1) e ↔ IsEntry given.0 given.1 e }
{}

/// The same names in another order, or more than once, give the same keys.
pub fn equal_names_give_equal_keys()
    ghost given: { List (List ℕ) × List (List ℕ) }
    ensures { ((x : List ℕ) → has_name x given.0 ≡ has_name x given.1) → (request : List Frame) → key_from given.0 request ≡ key_from given.1 request }
{}

/// Two single requests with ads that parses gave, and with equal keys beside some ads: each of these ads docks at every moment
/// with both or with neither, and the ranks on either side are equal.
pub fn equal_keys_are_told_apart_by_no_ad(one: &Ad, other: &Ad)
    ensures { (text other_text : List ℕ) (ads : List (List Frame)) (ad : List Frame) (moment : ℕ)
        → AnswersAd text (Ok one.now) → AnswersAd other_text (Ok other.now)
        → key_of ads (ad_frames one.now) ≡ key_of ads (ad_frames other.now) → Contains ads ad
        → AreMatchedAlike (docked_to moment (ad_frames one.now) ad) (docked_to moment (ad_frames other.now) ad) }
{
    printing_is_one_to_one();
}

/// Two single requests of one class, whose ads parses gave: a query gives both the same answers, and as jobs of users with the
/// same number both have the same best member, whatever is offered or claimed.
pub fn jobs_of_one_class_are_matched_alike(one: &Ad, other: &Ad)
    ensures answers { (text other_text : List ℕ) (moment : ℕ) (ads : List Advert)
        → AnswersAd text (Ok one.now) → AnswersAd other_text (Ok other.now)
        → key_of (ads_in ads) (ad_frames one.now) ≡ key_of (ads_in ads) (ad_frames other.now)
        → answers moment (ad_frames one.now) ads ≡ answers moment (ad_frames other.now) ads }
    ensures best { (text other_text : List ℕ) (pool : Pool) (number : ℕ)
        → AnswersAd text (Ok one.now) → AnswersAd other_text (Ok other.now)
        → key_of (ads_in pool.ads) (ad_frames one.now) ≡ key_of (ads_in pool.ads) (ad_frames other.now)
        → best pool (ad_frames one.now) number ≡ best pool (ad_frames other.now) number }
{
    equal_keys_are_told_apart_by_no_ad(one, other);
    requests_that_dock_alike_are_matched_alike(one, other);
}
