// A law of the definitions, on a function that does nothing: what matching makes of requests that ads dock with alike.
ghost use Rattle.std.specs.Prelude.{◌≡◌, ℕ, List};
ghost use Rattle.ad_tree.specs.Ad.{ad_frames};
ghost use Rattle.ad_store.specs.Stock.{Advert};
ghost use Rattle.dock_match.specs.Pool.{Pool};
ghost use Rattle.bilateral_match.specs.Answers.{answers};
ghost use Rattle.bilateral_match.specs.DockedAlike.{AllDockAlike};
ghost use Rattle.bilateral_match.specs.Members.{best};

use ad_tree::Ad;

/// Two requests with which each ad docks alike: with both or with neither, and with equal ranks on either side. A query gives
/// both the same answers, and two such jobs, of users with the same number, have the same best member.
pub fn requests_that_dock_alike_are_matched_alike(a: &Ad, b: &Ad)
    ensures answers { (moment : ℕ) (ads : List Advert) → AllDockAlike moment (ad_frames a.now) (ad_frames b.now) ads
        → answers moment (ad_frames a.now) ads ≡ answers moment (ad_frames b.now) ads }
    ensures best { (pool : Pool) (number : ℕ) → AllDockAlike pool.moment (ad_frames a.now) (ad_frames b.now) pool.ads
        → best pool (ad_frames a.now) number ≡ best pool (ad_frames b.now) number }
{}
