// Queries: the ads that dock with a request, by its rank.
ghost use Rattle.std.specs.Prelude.{◌≡◌, ◌≤◌, ◌<◌, ◌+◌, ◌*◌, [], All, IfOk, OnOk, length, map};
ghost use Rattle.std.specs.List.Sorted.{IsPermutation, IsSorted};
ghost use Rattle.ad_tree.specs.Ad.{ad_frames};
ghost use Rattle.ad_tree.specs.Small.{IsSmall};
ghost use Rattle.ad_store.specs.Store.{stock_of};
ghost use Rattle.conjunct_plan.specs.Tests.{tests_of};
ghost use Rattle.literal_index.specs.Shown.{IsIndex};
ghost use Rattle.ad_candidates.specs.Counts.{least_left};
ghost use Rattle.ad_candidates.specs.Rows.{rows_of};
ghost use Rattle.dock_match.specs.Small.{AreSmallAds};
ghost use Rattle.bilateral_match.specs.Answers.{AreHits, answers, hit_of, match_order};
ghost use Rattle.bilateral_match.specs.Counts.{entered_most, undecided_count};

use crate::hit::{Hit, Hits, Match};
use crate::scene::QueryScene;
use crate::weighing::matches_at;
use ad_candidates::candidates;
use ad_store::Store;
use ad_tree::Request;
use conjunct_plan::SidePlan;
use literal_index::Index;
use pool_steps::{Meter, Steps};
use pool_text::OutOfMemory;
use std::alloc::Global;
use std::sync::ledger::Ledger;

/// All ads of the store whose dock with the request is true, as two-way matching has it (Raman, Livny and Solomon 1998),
/// by the request's rank falling, and at equal ranks in the order of the store. The index is that of the ads of the store,
/// and the request has no ports.
///
/// Of the tests of the request the one that leaves the fewest ads says which ads are looked at; without one all are. It
/// counts in `touch` each ad that is looked at, and in `tops` and `entry` what evaluations count: three at most for a dock
/// that no test of either side decides, and none for any other.
pub fn query<'a, F: Ledger, E: Ledger, T: Ledger>(
    alloc: Global,
    store: &Store,
    index: &Index,
    request: &Request,
    moment: u64,
    tops: &'a mut Steps<F>,
    entry: &'a mut Steps<E>,
    touch: &'a mut Steps<T>,
) -> Result<Hits, OutOfMemory>
    requires index { IsIndex index.now (rows_of (stock_of store.now)) }
    requires single { request.now.ports ≡ [] }
    ensures hits { IfOk result (λ hits. hits
        ≡ map (hit_of (stock_of store.now).slots) (answers moment (ad_frames request.now.ad) (stock_of store.now).ads)) }
    ensures evaluations { tops.new ≤ tops.old + 3 * undecided_count (ad_frames request.now.ad) (stock_of store.now).ads }
    ensures entries { entry.new ≤ entry.old + entered_most moment (ad_frames request.now.ad) (stock_of store.now).ads }
    ensures ratio { IsSmall (ad_frames request.now.ad) → AreSmallAds (stock_of store.now).ads → entry.new + 9216 * tops.old ≤ entry.old + 9216 * tops.new }
    ensures looks { touch.new ≤ touch.old
        + least_left (stock_of store.now).ads (tests_of (ad_frames request.now.ad) 0 []) }
{
    let places = candidates(alloc, store, index, request)?;
    let plan = SidePlan::of(alloc, &request.ad, 0, &request.ports)?;
    let scene = QueryScene {
        alloc,
        store,
        request,
        plan,
        moment,
    };
    let mut meter = Meter::new(tops, entry, touch);
    let found = matches_at(&scene, &places, &mut meter)?;
    hits_in_order(alloc, store, found)
}

// The matches in order, with the slots of their ads.
fn hits_in_order(alloc: Global, store: &Store, found: Vec<Match>) -> Result<Hits, OutOfMemory>
    requires { All (λ m. m.place < length (stock_of store.now).slots) found.items }
    ensures { IfOk result (AreHits (stock_of store.now).slots found.items) }
{
    let mut found = found;
    arrange(&mut found)?;
    Ok(hits_of(alloc, store, &found)?)
}

// Puts matches in order: by rank falling, and at equal ranks by place.
fn arrange(found: &mut Vec<Match>) -> Result<(), OutOfMemory>
    ensures all { OnOk result (IsPermutation found.old.items found.new.items) }
    ensures ordered { OnOk result (IsSorted match_order found.new.items) }
{
    found.sort_by(|a, b| b.rank.cmp(&a.rank).then(a.place.cmp(&b.place)))?;
    Ok(())
}

// The matches with the slots of their ads.
fn hits_of(alloc: Global, store: &Store, found: &[Match]) -> Result<Hits, OutOfMemory>
    requires { All (λ m. m.place < length (stock_of store.now).slots) found.now }
    ensures { IfOk result (λ hits. hits ≡ map (hit_of (stock_of store.now).slots) found.now) }
{
    let mut hits = Hits::new(alloc);
    for m in found {
        hits.push(hit_at(store, m))?;
    }
    Ok(hits)
}

// A match with the slot of its ad.
fn hit_at(store: &Store, m: &Match) -> Hit
    requires { m.now.place < length (stock_of store.now).slots }
    ensures { result ≡ hit_of (stock_of store.now).slots m.now }
{
    Hit {
        slot: store.at(m.place),
        rank: m.rank,
    }
}
