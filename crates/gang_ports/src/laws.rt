// Laws of gangs, each on a function that does nothing.
ghost use Rattle.std.specs.Prelude.{◌≡◌, ◌≤◌, ℕ, [], true, length, List, None, Option, Bool};
ghost use Rattle.ad_tree.specs.Ad.{ad_frames};
ghost use Rattle.dock_match.specs.Pool.{Pool};
ghost use Rattle.gang_ports.specs.Choice.{IsFirstOf, tuples};
ghost use Rattle.gang_ports.specs.FreePorts.{is_free_port};
ghost use Rattle.gang_ports.specs.Gangs.{attributes_open, choice_of, docks_open, gang};

use ad_tree::Request;

/// The gang of a request is the valid tuple before which no other comes, and none where there is no valid tuple. No other
/// is so.
pub fn no_other_tuple_comes_before_the_gang(request: &Request)
    ensures are { (pool : Pool) → IsFirstOf (choice_of pool (ad_frames request.now.ad) request.now.ports)
        (tuples (choice_of pool (ad_frames request.now.ad) request.now.ports) (length request.now.ports) [])
        (gang pool (ad_frames request.now.ad) request.now.ports) }
    ensures alone { (pool : Pool) (other : Option (List ℕ)) → IsFirstOf (choice_of pool (ad_frames request.now.ad) request.now.ports)
        (tuples (choice_of pool (ad_frames request.now.ad) request.now.ports) (length request.now.ports) []) other
        → other ≡ gang pool (ad_frames request.now.ad) request.now.ports }
{}

/// More offers leave no more to choose among: a request that is given no gang is given none once more is offered, and there
/// are no more docks to evaluate for it, and no more attributes to enter.
pub fn more_offers_leave_no_more_gangs(request: &Request)
    ensures none { (pool : Pool) (offered : ℕ → Bool) → ((place : ℕ) → pool.is_offered place ≡ true → offered place ≡ true)
        → gang pool (ad_frames request.now.ad) request.now.ports ≡ None
        → gang (record pool { is_offered = offered }) (ad_frames request.now.ad) request.now.ports ≡ None }
    ensures undecided { (pool : Pool) (offered : ℕ → Bool) → ((place : ℕ) → pool.is_offered place ≡ true → offered place ≡ true)
        → docks_open (record pool { is_offered = offered }) (ad_frames request.now.ad) request.now.ports
        ≤ docks_open pool (ad_frames request.now.ad) request.now.ports }
    ensures entered { (pool : Pool) (offered : ℕ → Bool) → ((place : ℕ) → pool.is_offered place ≡ true → offered place ≡ true)
        → attributes_open (record pool { is_offered = offered }) (ad_frames request.now.ad) request.now.ports
        ≤ attributes_open pool (ad_frames request.now.ad) request.now.ports }
{}

/// What a resource is worth to a free port doesn't depend on what is docked to the ports before it: whether the dock is true,
/// and its rank.
pub fn a_free_port_is_worth_the_same_behind_all_prefixes(request: &Request)
    ensures dock { (pool : Pool) (before others : List ℕ) (place : ℕ) → length others ≡ length before
        → is_free_port (ad_frames request.now.ad) request.now.ports (length before) ≡ true
        → (choice_of pool (ad_frames request.now.ad) request.now.ports).dock others place
        ≡ (choice_of pool (ad_frames request.now.ad) request.now.ports).dock before place }
    ensures rank { (pool : Pool) (before others : List ℕ) (place : ℕ) → length others ≡ length before
        → is_free_port (ad_frames request.now.ad) request.now.ports (length before) ≡ true
        → (choice_of pool (ad_frames request.now.ad) request.now.ports).rank others place
        ≡ (choice_of pool (ad_frames request.now.ad) request.now.ports).rank before place }
{}
