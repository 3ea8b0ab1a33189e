// Spins, and the cycle of them.
ghost use Rattle.std.specs.Prelude.{◌≡◌, ◌≤◌, ◌<◌, ◌+◌, ◌*◌, ◌^◌, ℕ, [], All, Contains, IfOk, OnErr, OnOk, false, length, map, replicate};
ghost use Rattle.pool_steps.specs.Spent.{IsPaid, IsSame};
ghost use Rattle.ad_tree.specs.Ad.{ad_frames};
ghost use Rattle.ad_store.specs.Store.{stock_of};
ghost use Rattle.ad_candidates.specs.Rows.{rows_of};
ghost use Rattle.dock_match.specs.Pool.{AreStored};
ghost use Rattle.dock_match.specs.Small.{AreSmallAds};
ghost use Rattle.claim_table.specs.Holders.{holder_of};
ghost use Rattle.claim_table.specs.Small.{AreSmallJobs};
ghost use Rattle.claim_table.specs.Table.{jobs_of};
ghost use Rattle.literal_index.specs.Shown.{IsIndex};
ghost use Rattle.job_clusters.specs.Clusters.{AreClusters};
ghost use Rattle.job_clusters.specs.Scenes.{settings_in, stock_in};
ghost use Rattle.negotiator.specs.Budget.{ArePaid, AreWithin, counted_with, entries_for, looks_for, open_for, over_idle};
ghost use Rattle.negotiator.specs.Cycle.{Market, cycle_of, offers_in, offers_of, spin, users_of};
ghost use Rattle.negotiator.specs.Markets.{AreOwn, IsPart, market_of, spin_named, with_offers};
ghost use Rattle.claim_table.specs.Priorities.{priority_of};
ghost use Rattle.negotiator.specs.Queues.{AreQueues, IsAhead};
ghost use Rattle.negotiator.specs.Scenes.{IsReady, market_in, users_at};
ghost use Rattle.claim_table.specs.Settings.{settings_of};
ghost use Rattle.pie_slices.specs.Slices.{weight_of};

use crate::free::free_count;
use crate::queues::queues_of;
use crate::turns::run_turns;
use crate::{Cycle, Priorities, Queue, Shares, Spin};
use ad_store::Store;
use claim_table::ClaimTable;
use job_clusters::{Clusters, Scene};
use literal_index::Index;
use pie_slices::{Slices, slices, weight};
use pool_steps::{Meter, Steps};
use pool_text::{OutOfMemory, Slots};
use std::alloc::Global;
use std::convert::AsSlice;
use std::sync::ledger::Ledger;

/// Goes through a cycle of negotiation: spins, up to and with the first that makes no offer. In a spin the users with an
/// idle job take turns by priority, a lower number first, and then by name. A user's slice is the part of the resources
/// that are neither claimed nor offered as the spin begins, by weight (10^12 divided by the priority, among those of all
/// users of the spin), cut to a whole number, and at least one. The user's idle jobs are tried in the order of their
/// submission, where the slice has as many left as a job wants or nothing was given in the turn yet; a job that finds
/// resources, the best one or a gang for its ports, is given an offer. (Slices of a pie by priority and spins are those of
/// the HTCondor negotiator; the numbers here are whole.) The answer has each spin with its turns that made an offer.
///
/// The index is that of the ads of the store, what is claimed is in the store, and each request has no ports or those
/// that its ad lists. Each job is searched for once at most, however many spins there are: `tops`, `entry` and `touch`
/// count no more than one search for each job that is idle as the cycle begins. After want of memory the first offers of
/// the cycle stand.
pub fn cycle<'a, F: Ledger, E: Ledger, T: Ledger>(
    alloc: Global,
    store: &Store,
    index: &Index,
    claims: &mut ClaimTable,
    priorities: &Priorities,
    moment: u64,
    tops: &'a mut Steps<F>,
    entry: &'a mut Steps<E>,
    touch: &'a mut Steps<T>,
) -> Result<Cycle, OutOfMemory>
    requires index { IsIndex index.now (rows_of (stock_of store.now)) }
    requires stored { AreStored (stock_of store.now) (holder_of (settings_of priorities.now) (jobs_of claims.old)) }
    requires ports { All (λ job. AreOwn (ad_frames job.request.ad) job.request.ports) (jobs_of claims.old) }
    ensures cycle { IfOk result (λ spins. spins ≡ map (spin_named (jobs_of claims.old))
        (cycle_of (market_of moment (stock_of store.now) (settings_of priorities.now) (jobs_of claims.old)))) }
    ensures table { OnOk result (jobs_of claims.new ≡ with_offers
        (offers_of (cycle_of (market_of moment (stock_of store.now) (settings_of priorities.now) (jobs_of claims.old)))) (jobs_of claims.old)) }
    ensures part { OnErr result (IsPart
        (offers_of (cycle_of (market_of moment (stock_of store.now) (settings_of priorities.now) (jobs_of claims.old)))) (jobs_of claims.old) (jobs_of claims.new)) }
    ensures stored { All (λ offer. All (Contains (stock_of store.now).slots) offer.resources)
        (offers_of (cycle_of (market_of moment (stock_of store.now) (settings_of priorities.now) (jobs_of claims.old)))) }
    ensures evaluations { tops.new ≤ tops.old + 5 * over_idle (open_for moment (stock_of store.now) (settings_of priorities.now)) (jobs_of claims.old) }
    ensures entries { entry.new ≤ entry.old + over_idle (entries_for moment (stock_of store.now) (settings_of priorities.now)) (jobs_of claims.old) }
    ensures ratio { AreSmallAds (stock_of store.now).ads → AreSmallJobs (jobs_of claims.old) → entry.new + 9216 * tops.old ≤ entry.old + 9216 * tops.new }
    ensures looks { touch.new ≤ touch.old + over_idle (looks_for (stock_of store.now)) (jobs_of claims.old) }
{
    let scene = Scene {
        alloc,
        store,
        index,
        priorities,
        moment,
    };
    let mut queues = queues_of(&scene, claims)?;
    let mut failed = unmarked(alloc, claims.len())?;
    let mut clusters = Clusters::new(alloc, free_count(store, claims));
    let mut meter = Meter::new(tops, entry, touch);
    run_spins(
        &scene,
        claims,
        &mut queues,
        &mut failed,
        &mut clusters,
        &mut meter,
    )
}

// Marks of so many jobs, none of which has failed.
fn unmarked(alloc: Global, jobs: usize) -> Result<Vec<bool>, OutOfMemory>
    ensures { IfOk result (λ marks. marks.items ≡ replicate jobs false) }
{
    let marks = vec![in alloc; false; jobs]?;
    Ok(marks)
}

// The spins up to and with the first that makes no offer.
fn run_spins<F: Ledger, E: Ledger, T: Ledger>(
    scene: &Scene<'_>,
    claims: &mut ClaimTable,
    queues: &mut [Queue],
    failed: &mut [bool],
    clusters: &mut Clusters,
    meter: &mut Meter<'_, F, E, T>,
) -> Result<Cycle, OutOfMemory>
    requires queues { AreQueues (market_in scene.now (jobs_of claims.old)) queues.old }
    requires ahead { All (IsAhead (jobs_of claims.old) failed.old) queues.old }
    requires ready { IsReady scene.now (jobs_of claims.old) failed.old }
    requires clusters { AreClusters scene.now.moment (stock_in scene.now) (settings_in scene.now) (jobs_of claims.old) clusters.old }
    ensures cycle { IfOk result (λ spins. spins ≡ map (spin_named (jobs_of claims.old)) (cycle_of (market_in scene.now (jobs_of claims.old)))) }
    ensures table { OnOk result (jobs_of claims.new ≡ with_offers (offers_of (cycle_of (market_in scene.now (jobs_of claims.old)))) (jobs_of claims.old)) }
    ensures part { OnErr result (IsPart (offers_of (cycle_of (market_in scene.now (jobs_of claims.old)))) (jobs_of claims.old) (jobs_of claims.new)) }
    ensures within { AreWithin scene.now.moment (stock_in scene.now) (settings_in scene.now) (jobs_of claims.old) failed.old
        (counted_with meter.old clusters.old) (counted_with meter.new clusters.new) }
    ensures same { IsSame meter.old meter.new }
    ensures ratio { AreSmallAds (stock_in scene.now).ads → AreSmallJobs (jobs_of claims.old) → IsPaid meter.old meter.new }
{
    let mut spins = Cycle::new(scene.alloc);
    loop {
        let spin = run_spin(scene, claims, queues, failed, clusters, meter)?;
        let last = spin.turns.len() == 0;
        spins.push(spin)?;
        if last {
            return Ok(spins);
        }
    }
}

// One spin.
fn run_spin<F: Ledger, E: Ledger, T: Ledger>(
    scene: &Scene<'_>,
    claims: &mut ClaimTable,
    queues: &mut [Queue],
    failed: &mut [bool],
    clusters: &mut Clusters,
    meter: &mut Meter<'_, F, E, T>,
) -> Result<Spin, OutOfMemory>
    requires queues { AreQueues (market_in scene.now (jobs_of claims.old)) queues.old }
    requires ahead { All (IsAhead (jobs_of claims.old) failed.old) queues.old }
    requires ready { IsReady scene.now (jobs_of claims.old) failed.old }
    requires clusters { AreClusters scene.now.moment (stock_in scene.now) (settings_in scene.now) (jobs_of claims.old) clusters.old }
    ensures spin { IfOk result (λ one. one ≡ spin_named (jobs_of claims.old) (spin (market_in scene.now (jobs_of claims.old)) [])) }
    ensures table { OnOk result (jobs_of claims.new ≡ with_offers (offers_in (spin (market_in scene.now (jobs_of claims.old)) []).turns) (jobs_of claims.old)) }
    ensures part { OnErr result (IsPart (offers_in (spin (market_in scene.now (jobs_of claims.old)) []).turns) (jobs_of claims.old) (jobs_of claims.new)) }
    ensures queues { OnOk result ((market : Market ℕ) → AreQueues market queues.old → AreQueues market queues.new) }
    ensures ahead { OnOk result (All (IsAhead (jobs_of claims.new) failed.new) queues.new) }
    ensures ready { IsReady scene.now (jobs_of claims.new) failed.new }
    ensures clusters { AreClusters scene.now.moment (stock_in scene.now) (settings_in scene.now) (jobs_of claims.new) clusters.new }
    ensures paid { OnOk result (ArePaid scene.now.moment (stock_in scene.now) (settings_in scene.now) (jobs_of claims.old) (jobs_of claims.new) failed.old
        failed.new (counted_with meter.old clusters.old) (counted_with meter.new clusters.new)) }
    ensures within { AreWithin scene.now.moment (stock_in scene.now) (settings_in scene.now) (jobs_of claims.old) failed.old
        (counted_with meter.old clusters.old) (counted_with meter.new clusters.new) }
    ensures same { IsSame meter.old meter.new }
    ensures ratio { AreSmallAds (stock_in scene.now).ads → AreSmallJobs (jobs_of claims.old) → IsPaid meter.old meter.new }
{
    let free = clusters.free;
    let active = active_of(scene, claims, failed, queues)?;
    let weights = weights_of(scene, queues, active.as_slice())?;
    let slices = slices(scene.alloc, free, weights.as_slice())?;
    let shares = Shares {
        queues,
        active: active.as_slice(),
        slices: slices.as_slice(),
    };
    let turns = run_turns(scene, claims, &shares, failed, clusters, meter)?;
    Ok(Spin { free, turns })
}

// The numbers of the queues whose users have an idle job. The heads of the queues are moved on.
fn active_of(
    scene: &Scene<'_>,
    claims: &ClaimTable,
    failed: &[bool],
    queues: &mut [Queue],
) -> Result<Slots, OutOfMemory>
    requires queues { AreQueues (market_in scene.now (jobs_of claims.now)) queues.old }
    requires marks { length failed.now ≡ length (jobs_of claims.now) }
    requires ahead { All (IsAhead (jobs_of claims.now) failed.now) queues.old }
    ensures users { IfOk result (λ active. users_at queues.new active ≡ users_of (market_in scene.now (jobs_of claims.now)) []) }
    ensures within { IfOk result (All (λ k. k < length queues.new)) }
    ensures queues { OnOk result ((market : Market ℕ) → AreQueues market queues.old → AreQueues market queues.new) }
    ensures ahead { OnOk result (All (IsAhead (jobs_of claims.now) failed.now) queues.new) }
{
    let mut active = Slots::new(scene.alloc);
    for k in 0..queues.len() {
        queues[k].advance(claims, failed);
        if queues[k].has_idle() {
            active.push(k)?;
        }
    }
    Ok(active)
}

// The weights of the users of these queues.
fn weights_of(scene: &Scene<'_>, queues: &[Queue], active: &[usize]) -> Result<Slices, OutOfMemory>
    requires { All (λ k. k < length queues.now) active.now }
    ensures weights { IfOk result (λ weights. weights ≡ map (λ user. weight_of (priority_of user (settings_in scene.now))) (users_at queues.now active.now)) }
    ensures least { IfOk result (All (λ w. 1 ≤ w)) }
    ensures most { IfOk result (All (λ w. w ≤ 10 ^ 12)) }
{
    let mut weights = Slices::new(scene.alloc);
    for k in active {
        let number = scene.priorities.get(queues[*k].user.bytes());
        weights.push(weight(number))?;
    }
    Ok(weights)
}
