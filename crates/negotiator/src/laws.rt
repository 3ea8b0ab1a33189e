// Laws of the definitions, each on a function that does nothing.
ghost use Rattle.std.specs.Prelude.{◌≡◌, ◌∷◌, ◌++◌, ℕ, [], List, bytes_eq, if◌then◌else◌};
ghost use Rattle.std.specs.List.{list_any};
ghost use Rattle.std.specs.List.Sorted.{IsStrictlySortedBy};
ghost use Rattle.claim_table.specs.Priorities.{user_order};
ghost use Rattle.negotiator.specs.Cycle.{Market, Offer, cycle_from, is_empty, offers_in, places, spin, users_of, waits};

/// A cycle is its first spin and, where that makes an offer, the cycle behind it. So it ends with the first spin that makes
/// none.
pub fn a_cycle_ends_with_the_first_spin_without_an_offer()
    ensures { (market : Market ℕ) (made : List (Offer ℕ)) → cycle_from market made
        ≡ spin market made ∷ (if is_empty (spin market made).turns then [] else cycle_from market (made ++ offers_in (spin market made).turns)) }
{}

/// The users of a spin are those with a job that waits, each once, and they stand by priority and then by name.
pub fn users_with_a_waiting_job_take_turns_in_order()
    ensures those { (market : Market ℕ) (made : List (Offer ℕ)) (user : List ℕ)
        → list_any (bytes_eq user) (users_of market made) ≡ list_any (waits market user made) (places market.jobs) }
    ensures ordered { (market : Market ℕ) (made : List (Offer ℕ)) → IsStrictlySortedBy (user_order market.priority) (users_of market made) }
{}
