// Docks of a request with resources that are given by their slots.
ghost use Rattle.std.specs.Prelude.{◌≡◌, ◌≤◌, ◌<◌, ◌+◌, ◌*◌, length, max, All, Contains, IfOk, if◌then◌else◌};
ghost use Rattle.ad_tree.specs.Ad.{ad_frames};
ghost use Rattle.ad_tree.specs.Small.{IsSmall};
ghost use Rattle.ad_store.specs.Store.{stock_of};
ghost use Rattle.ad_eval.specs.Dock.{is_docked};
ghost use Rattle.conjunct_plan.specs.Decided.{is_dock_decided};
ghost use Rattle.conjunct_plan.specs.Tests.{labels_of};
ghost use Rattle.eval_scope.specs.Shown.{world_of};
ghost use Rattle.eval_scope.specs.World.{attribute_count};
ghost use Rattle.dock_match.specs.Docks.{evaluations_of_last, is_last_decided};
ghost use Rattle.dock_match.specs.Pool as pool;
ghost use Rattle.dock_match.specs.Small.{AreSmallAds};

use crate::sides::open_sides;
use ad_store::Store;
use ad_tree::Request;
use eval_scope::World;
use pool_steps::Steps;
use pool_text::OutOfMemory;
use std::alloc::Global;
use std::sync::ledger::Ledger;

/// Whether the last of the docks of the resources in these slots with a request is true, where each resource is docked in
/// order: to the ports of a gang from the first on, or one to a single request (Raman, Livny and Solomon 2003). There is
/// at least one slot, and no more than the request has ports, or one where it has none.
///
/// It counts one in `touch` for each slot at most, and in `tops` and `entry` what evaluations count: one at most for each side
/// that tests leave open, the resource's only where the request's is true, and none where a test of either side decides the
/// last dock.
pub fn pair<F: Ledger, E: Ledger, T: Ledger>(
    alloc: Global,
    store: &Store,
    request: &Request,
    slots: &[usize],
    moment: u64,
    tops: &mut Steps<F>,
    entry: &mut Steps<E>,
    touch: &mut Steps<T>,
) -> Result<bool, OutOfMemory>
    requires some { 0 < length slots.now }
    requires fit { length slots.now ≤ max 1 (length request.now.ports) }
    requires stored { All (Contains (stock_of store.now).slots) slots.now }
    ensures docked { IfOk result (λ b. b ≡ is_docked (pool.slots_world moment (stock_of store.now) request.now slots.now)) }
    ensures evaluations { let w = pool.slots_world moment (stock_of store.now) request.now slots.now in
        tops.new ≤ tops.old + (if is_last_decided w then 0 else 2) }
    ensures counted { tops.new ≤ tops.old + evaluations_of_last (pool.slots_world moment (stock_of store.now) request.now slots.now) }
    ensures entries { let w = pool.slots_world moment (stock_of store.now) request.now slots.now in
        entry.new ≤ entry.old + (if is_last_decided w then 0 else 2 * attribute_count w) }
    ensures ratio { IsSmall (ad_frames request.now.ad) → AreSmallAds (stock_of store.now).ads → entry.new + 9216 * tops.old ≤ entry.old + 9216 * tops.new }
    ensures looks { touch.new ≤ touch.old + length slots.now }
{
    let last = slots.len() - 1;
    let before = slots_world(store, request, &slots[..last], moment, touch);
    let ad = store.look(slots[last], touch);
    let world = before.with(ad);
    let Some(sides) = open_sides(alloc, request, world.request_place().frame, ad) else {
        return Ok(false);
    };
    sides.dock(alloc, &world, tops, entry)
}

/// The world in which the resources in these slots are docked to a request. It counts one in `touch` for each.
pub fn slots_world<'a, T: Ledger>(
    store: &'a Store,
    request: &'a Request,
    slots: &[usize],
    moment: u64,
    touch: &mut Steps<T>,
) -> World<'a>
    requires few { length slots.now ≤ 8 }
    requires stored { All (Contains (stock_of store.now).slots) slots.now }
    ensures world { world_of result ≡ pool.slots_world moment (stock_of store.now) request.now slots.now }
    ensures looks { touch.new ≡ touch.old + length slots.now }
{
    let mut world = World::new(moment, &request.ad, &request.ports);
    for slot in slots {
        world.dock(store.look(*slot, touch));
    }
    world
}
