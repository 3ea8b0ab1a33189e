// Laws of the definitions, each on a function that does nothing.
ghost use Rattle.std.specs.Prelude.{◌≡◌, ◌≤◌, ℕ, Bool, true, Option, None, List};
ghost use Rattle.ad_tree.specs.Ad.{ad_frames};
ghost use Rattle.ad_store.specs.Stock.{Advert, Stock};
ghost use Rattle.dock_match.specs.Docks.{rank_of_dock};
ghost use Rattle.dock_match.specs.Pool.{Pool};
ghost use Rattle.bilateral_match.specs.declared.hit.Match.{Match};
ghost use Rattle.bilateral_match.specs.declared.member.Member.{Member};
ghost use Rattle.bilateral_match.specs.Answers.{AreAnswers, answers};
ghost use Rattle.bilateral_match.specs.Counts.{entered_for, open_count};
ghost use Rattle.bilateral_match.specs.Known.{is_rank_settled, rank_expr};
ghost use Rattle.bilateral_match.specs.Members.{IsBest, best, members};

use ad_tree::Ad;

/// The answers to a query are all matches in order, and no other list is: two such lists are one.
pub fn answers_are_all_matches_in_order(moment: u64, request: &Ad)
    ensures are { (ads : List Advert) → AreAnswers moment (ad_frames request.now) ads (answers moment (ad_frames request.now) ads) }
    ensures alone { (ads : List Advert) (others : List Match) → AreAnswers moment (ad_frames request.now) ads others
        → others ≡ answers moment (ad_frames request.now) ads }
{}

/// The best member for a job is the one before which no other comes, and none where there are no members. No other is so.
pub fn no_other_member_comes_before_the_best(request: &Ad)
    ensures are { (pool : Pool) (number : ℕ) → IsBest (members pool (ad_frames request.now) number) (best pool (ad_frames request.now) number) }
    ensures alone { (pool : Pool) (number : ℕ) (other : Option Member) → IsBest (members pool (ad_frames request.now) number) other
        → other ≡ best pool (ad_frames request.now) number }
{}

/// More offers leave no more to choose among: a job that finds no resource finds none once more are offered, and there are
/// no more docks to evaluate for it, and no more attributes to enter.
pub fn more_offers_leave_no_more_members(request: &Ad)
    ensures none { (pool : Pool) (number : ℕ) (offered : ℕ → Bool) → ((place : ℕ) → pool.is_offered place ≡ true → offered place ≡ true)
        → best pool (ad_frames request.now) number ≡ None → best (record pool { is_offered = offered }) (ad_frames request.now) number ≡ None }
    ensures undecided { (pool : Pool) (offered : ℕ → Bool) → ((place : ℕ) → pool.is_offered place ≡ true → offered place ≡ true)
        → open_count (record pool { is_offered = offered }) (ad_frames request.now) ≤ open_count pool (ad_frames request.now) }
    ensures entered { (pool : Pool) (offered : ℕ → Bool) → ((place : ℕ) → pool.is_offered place ≡ true → offered place ≡ true)
        → entered_for (record pool { is_offered = offered }) (ad_frames request.now) ≤ entered_for pool (ad_frames request.now) }
{}

/// An ad that settles a rank expression is given the same rank by all requests that have it: so that is evaluated once.
pub fn a_settled_rank_is_the_same_for_all_requests(a: &Ad, b: &Ad, ad: &Ad)
    ensures { (moment : ℕ) → rank_expr (ad_frames a.now) ≡ rank_expr (ad_frames b.now)
        → is_rank_settled (ad_frames ad.now) (rank_expr (ad_frames b.now)) ≡ true
        → rank_of_dock moment (ad_frames a.now) (ad_frames ad.now) ≡ rank_of_dock moment (ad_frames b.now) (ad_frames ad.now) }
{}
