// How a resource is taken for a job from its holder.
ghost use Rattle.std.specs.Prelude.{◌≡◌, ◌≤◌, ◌<◌, ◌+◌, ◌*◌, nat_le, length, max, option_map, All, Contains, IfOk, IfSome, None};
ghost use Rattle.std.specs.Option.{option_map_or};
ghost use Rattle.ad_tree.specs.Ad.{ad_frames};
ghost use Rattle.ad_tree.specs.Small.{IsSmall};
ghost use Rattle.ad_store.specs.Holdings.{holding_of};
ghost use Rattle.ad_store.specs.Store.{stock_of};
ghost use Rattle.ad_eval.specs.Dock.{rank_by};
ghost use Rattle.ad_eval.specs.Small.{AreSmall};
ghost use Rattle.eval_scope.specs.Shown.{world_of};
ghost use Rattle.eval_scope.specs.World.{attribute_count, resource_side};
ghost use Rattle.pool_steps.specs.Spent.{IsPaid, Spends};
ghost use Rattle.dock_match.specs.Pool as pool;
ghost use Rattle.dock_match.specs.Preemption.{taken_by, won_from};
ghost use Rattle.dock_match.specs.Small.{AreSmallAds};

use crate::docking::slots_world;
use ad_eval::rank;
use ad_store::{Held, Store};
use eval_scope::World;
use pool_steps::{Meter, Steps};
use pool_text::OutOfMemory;
use std::alloc::Global;
use std::sync::ledger::Ledger;

/// How a job gets a resource: it is unclaimed, or it is taken from a holder that it ranks strictly lower, or from one that it
/// ranks equal, by the priorities of the users (the three are those of the HTCondor negotiator).
#[derive(Clone, Copy)]
pub enum Preemption {
    No,
    ByRank,
    ByPriority,
}

impl Preemption {
    ghost use Rattle.dock_match.specs.Preemption.{order_of};

    /// Its place in the order of members: 0 for a resource that is unclaimed, 1 for one that is taken by its rank, and 2 for one
    /// that is taken by the users' priorities.
    pub fn order(&self) -> u8
        ensures { result ≡ order_of self.now }
    {
        match self {
            Preemption::No => 0,
            Preemption::ByRank => 1,
            Preemption::ByPriority => 2,
        }
    }
}

/// A job for which a resource may be taken: the rank that the resource gives it, and its user's number.
#[derive(Clone, Copy)]
pub struct Claimant {
    pub rank: i128,
    pub number: u64,
}

/// How a resource is taken for this job, `None` exactly where it stays with its holder. It is taken where it is
/// unclaimed, where it ranks its holder strictly lower, and where it ranks its holder equal and the holder's user has at least
/// twice the number of the job's. The holder is ranked in the world of the dock by which it holds the resource: one evaluation,
/// and one look for each of its resources up to this one.
pub fn won_from<F: Ledger, E: Ledger, T: Ledger>(
    alloc: Global,
    store: &Store,
    moment: u64,
    holder: Option<Held<'_>>,
    claimant: Claimant,
    meter: &mut Meter<'_, F, E, T>,
) -> Result<Option<Preemption>, OutOfMemory>
    requires stored { IfSome holder (λ h. All (Contains (stock_of store.now).slots) h.slots.now) }
    requires stands { IfSome holder (λ h. h.port < length h.slots.now) }
    requires fills { IfSome holder (λ h. length h.slots.now ≡ max 1 (length h.request.now.ports)) }
    ensures won { IfOk result (λ won. won ≡ won_from claimant.number claimant.rank (option_map (pool.hold_of moment (stock_of store.now))
        (option_map holding_of holder.entry))) }
    ensures spent { Spends meter.old meter.new 1 (option_map_or (λ h. attribute_count (pool.holder_world moment (stock_of store.now) h))
        (option_map holding_of holder.entry) 0) 8 }
    ensures ratio { IfSome holder.entry (λ h. IsSmall (ad_frames h.request.now.ad)) → AreSmallAds (stock_of store.now).ads
        → IsPaid meter.old meter.new }
    ensures free { holder.entry ≡ None → meter.new.touch.now ≡ meter.old.touch.now }
{
    let Some(holder) = holder else {
        return Ok(Some(Preemption::No));
    };
    let upto = holder.port as usize + 1;
    let slots = &holder.slots[..upto];
    let world = slots_world(store, holder.request, slots, moment, meter.touch);
    taken_from(
        alloc,
        &world,
        holder.number,
        claimant,
        meter.tops,
        meter.entry,
    )
}

// How the resource that was docked last is taken from the other side, whose user has the number `held`, for a job.
fn taken_from<F: Ledger, E: Ledger>(
    alloc: Global,
    world: &World<'_>,
    held: u64,
    claimant: Claimant,
    tops: &mut Steps<F>,
    entry: &mut Steps<E>,
) -> Result<Option<Preemption>, OutOfMemory>
    ensures taken { IfOk result (λ won. won ≡ taken_by (rank_by (world_of world.now) (resource_side (world_of world.now)))
        claimant.rank held claimant.number) }
    ensures evaluations { tops.new ≤ tops.old + 1 }
    ensures entries { entry.new ≤ entry.old + attribute_count (world_of world.now) }
    ensures ratio { AreSmall (world_of world.now) → entry.new + 9216 * tops.old ≤ entry.old + 9216 * tops.new }
{
    let given = rank(alloc, world, world.resource_place(), tops, entry)?;
    Ok(taken_by(given, held, claimant))
}

// How a resource is taken from a holder to whom it gave a rank, and whose user has the number `held`.
fn taken_by(given: i128, held: u64, claimant: Claimant) -> Option<Preemption>
    ensures { result ≡ taken_by given claimant.rank held claimant.number }
{
    if given < claimant.rank {
        return Some(Preemption::ByRank);
    }
    if claimant.rank < given || !is_twice(held, claimant.number) {
        return None;
    }
    Some(Preemption::ByPriority)
}

// Whether a number is at least twice another, of which the double may be out of 64 bits.
fn is_twice(n: u64, other: u64) -> bool
    ensures { result ≡ nat_le (2 * other) n }
{
    other <= n && other <= n - other
}
