// The members for a job in order.
ghost use Rattle.std.specs.Prelude.{◌≡◌, ◌<◌, ◌*◌, ◌++◌, [], length, map, sum_by, All, Contains, IfOk, OnOk};
ghost use Rattle.std.specs.List.{cons_option, filter_map};
ghost use Rattle.std.specs.List.Sorted.{IsPermutation, IsSorted};
ghost use Rattle.ad_tree.specs.Small.{IsSmall};
ghost use Rattle.ad_store.specs.Store.{stock_of};
ghost use Rattle.conjunct_plan.specs.Tests.{tests_of};
ghost use Rattle.literal_index.specs.Shown.{IsIndex};
ghost use Rattle.ad_candidates.specs.Counts.{least_left};
ghost use Rattle.ad_candidates.specs.Rows.{rows_of};
ghost use Rattle.dock_match.specs.Pool.{AreStored, slot_at};
ghost use Rattle.dock_match.specs.Small.{AreSmallAds, AreSmallHolders};
ghost use Rattle.pool_steps.specs.Spent.{IsPaid, Spends};
ghost use Rattle.bilateral_match.specs.Counts.{entered_for, open_count};
ghost use Rattle.bilateral_match.specs.Members.{member_order};
ghost use Rattle.bilateral_match.specs.Scan as scan;
ghost use Rattle.bilateral_match.specs.Scenes.{pool_in, request_in, stock_in};
ghost use Rattle.bilateral_match.specs.Shortlists.{AreInOrder, IsShortlist};

use crate::known::Ranking;
use crate::looks::Looks;
use crate::member::Member;
use crate::members::member_at;
use crate::scene::Scene;
use ad_candidates::candidates;
use ad_store::{Holdings, Store};
use pool_steps::Meter;
use pool_text::{OutOfMemory, Slots};
use std::alloc::Global;
use std::convert::AsSlice;
use std::sync::ledger::Ledger;

/// The slots of all resources that a job without ports may be given, whose user has this number, the best one first and each in
/// the order of `best`. While the holders stay and no offer is taken back, the best resource is the first of the list that isn't
/// offered. So one list serves all jobs of users with the same number that no ad tells apart, as the automatic clusters of
/// HTCondor's negotiator do.
///
/// It takes what `best` takes, and counts no more: each ad that is looked at is weighed once.
pub fn shortlist<H: Holdings, F: Ledger, E: Ledger, T: Ledger>(
    scene: &Scene<'_, H>,
    meter: &mut Meter<'_, F, E, T>,
) -> Result<Slots, OutOfMemory>
    requires index { IsIndex scene.now.index.now (rows_of (stock_in scene.now)) }
    requires stored { AreStored (stock_in scene.now) (H.holding scene.now.held.now) }
    requires single { scene.now.request.now.ports ≡ [] }
    ensures best { IfOk result (IsShortlist scene.now.moment (stock_in scene.now) (H.is_offered scene.now.held.now) (H.holding scene.now.held.now)
        (request_in scene.now) scene.now.number) }
    ensures held { IfOk result (All (Contains (stock_in scene.now).slots)) }
    ensures spent { Spends meter.old meter.new (5 * open_count (pool_in H.is_offered H.holding scene.now) (request_in scene.now))
        (entered_for (pool_in H.is_offered H.holding scene.now) (request_in scene.now))
        (9 * least_left (stock_in scene.now).ads (tests_of (request_in scene.now) 0 [])) }
    ensures ratio { IsSmall (request_in scene.now) → AreSmallAds (stock_in scene.now).ads → AreSmallHolders (H.holding scene.now.held.now)
        → IsPaid meter.old meter.new }
{
    let places = candidates(scene.alloc, scene.store, scene.index, scene.request)?;
    let found = members_at(scene, &places, meter)?;
    slots_in_order(scene.alloc, scene.store, found)
}

// The slots of members, with the members in order.
fn slots_in_order(alloc: Global, store: &Store, found: Vec<Member>) -> Result<Slots, OutOfMemory>
    requires { All (λ m. m.place < length (stock_of store.now).slots) found.items }
    ensures slots { IfOk result (AreInOrder (stock_of store.now) found.items) }
    ensures held { IfOk result (All (Contains (stock_of store.now).slots)) }
{
    let mut found = found;
    arrange(&mut found)?;
    Ok(slots_of(alloc, store, &found)?)
}

// The members at these places, one after another.
fn members_at<H: Holdings, F: Ledger, E: Ledger, T: Ledger>(
    scene: &Scene<'_, H>,
    places: &Slots,
    meter: &mut Meter<'_, F, E, T>,
) -> Result<Vec<Member>, OutOfMemory>
    requires stored { AreStored (stock_in scene.now) (H.holding scene.now.held.now) }
    requires single { scene.now.request.now.ports ≡ [] }
    requires places { All (λ place. place < length (stock_in scene.now).slots) places.now }
    ensures found { IfOk result (λ found. found.items ≡ filter_map
        (scan.member_at (pool_in H.is_offered H.holding scene.now) (request_in scene.now) scene.now.number) places.now) }
    ensures spent { Spends meter.old meter.new
        (sum_by (scan.evaluations_for (pool_in H.is_offered H.holding scene.now) (request_in scene.now)) places.now)
        (sum_by (scan.attributes_for (pool_in H.is_offered H.holding scene.now) (request_in scene.now)) places.now) (9 * length places.now) }
    ensures ratio { IsSmall (request_in scene.now) → AreSmallAds (stock_in scene.now).ads → AreSmallHolders (H.holding scene.now.held.now)
        → IsPaid meter.old meter.new }
{
    let mut found = Vec::new(scene.alloc);
    let mut ranking = Ranking::unknown(scene.alloc);
    let mut looks = Looks::none();
    for place in places.as_slice() {
        let next = member_at(scene, *place, None, &mut ranking, &mut looks, meter)?;
        keep(&mut found, next)?;
    }
    Ok(found)
}

// Adds a member, if there is one.
fn keep(found: &mut Vec<Member>, next: Option<Member>) -> Result<(), OutOfMemory>
    ensures { OnOk result (found.new.items ≡ found.old.items ++ cons_option next []) }
{
    if let Some(next) = next {
        found.push(next)?;
    }
    Ok(())
}

// Puts members in order.
fn arrange(found: &mut Vec<Member>) -> Result<(), OutOfMemory>
    ensures all { OnOk result (IsPermutation found.old.items found.new.items) }
    ensures ordered { OnOk result (IsSorted member_order found.new.items) }
{
    found.sort_by(|a, b| a.compare(b))?;
    Ok(())
}

// The slots of members.
fn slots_of(alloc: Global, store: &Store, members: &[Member]) -> Result<Slots, OutOfMemory>
    requires { All (λ m. m.place < length (stock_of store.now).slots) members.now }
    ensures slots { IfOk result (λ slots. slots ≡ map (λ m. slot_at (stock_of store.now) m.place) members.now) }
    ensures held { IfOk result (All (Contains (stock_of store.now).slots)) }
{
    let mut slots = Slots::new(alloc);
    for member in members {
        slots.push(slot_of(store, member))?;
    }
    Ok(slots)
}

// The slot of a member.
fn slot_of(store: &Store, member: &Member) -> usize
    requires { member.now.place < length (stock_of store.now).slots }
    ensures slot { result ≡ slot_at (stock_of store.now) member.now.place }
    ensures held { Contains (stock_of store.now).slots result }
{
    store.at(member.place)
}
