// The search for one job.
ghost use Rattle.std.specs.Prelude.{◌≡◌, ◌≢◌, ◌<◌, ◌≤◌, ◌+◌, ◌*◌, ◌∷◌, ℕ, true, [], All, AllPairs, IfOk, IfSome, OnErr, OnOk, Some, length, option_map};
ghost use Rattle.std.specs.Prelude.{slice_get};
ghost use Rattle.std.specs.Option.{option_map_or};
ghost use Rattle.pool_steps.specs.Spent.{IsPaid, IsSame, Spends};
ghost use Rattle.ad_tree.specs.Ad.{ad_frames};
ghost use Rattle.ad_tree.specs.Small.{IsSmall};
ghost use Rattle.ad_candidates.specs.Rows.{rows_of};
ghost use Rattle.dock_match.specs.Pool.{AreStored};
ghost use Rattle.dock_match.specs.Small.{AreSmallAds};
ghost use Rattle.claim_table.specs.declared.job.Stage.{Stage};
ghost use Rattle.claim_table.specs.Holders.{holder_of};
ghost use Rattle.claim_table.specs.Jobs.{AreFree, wanted, with_standing};
ghost use Rattle.claim_table.specs.Small.{AreSmallJobs};
ghost use Rattle.claim_table.specs.Table.{jobs_of};
ghost use Rattle.gang_ports.specs.Ports.{ports_of};
ghost use Rattle.literal_index.specs.Shown.{IsIndex};
ghost use Rattle.job_clusters.specs.Clusters.{AreClusters};
ghost use Rattle.job_clusters.specs.Scenes.{jobs_around, settings_in, stock_in};
ghost use Rattle.negotiator.specs.Budget.{ArePaid, AreWithin, IsSearched, counted_with, entries_for, evaluations_for, is_idle_at, looks_for};
ghost use Rattle.negotiator.specs.Markets.{AreOwn, found, found_for, offer_named};
ghost use Rattle.negotiator.specs.Scenes.{IsReady};

use crate::Offered;
use crate::free::free_in;
use ad_tree::Request;
use claim_table::{ClaimTable, JobState, Standing};
use gang_ports::first_gang;
use job_clusters::{Clusters, Scene, Seeker, choose};
use pool_steps::Meter;
use pool_text::{OutOfMemory, Slots};
use std::alloc::Global;
use std::convert::AsSlice;
use std::sync::ledger::Ledger;

// Whether job `i` is idle.
pub(crate) fn is_idle(claims: &ClaimTable, i: usize) -> bool
    requires { i < length (jobs_of claims.now) }
    ensures { result ≡ is_idle_at (jobs_of claims.now) i }
{
    match claims.standing(i).state() {
        JobState::Idle => true,
        JobState::Matched => false,
        JobState::Claimed => false,
    }
}

// How many resources job `i` wants: one for each port, or one where it has none.
pub(crate) fn wants(claims: &ClaimTable, i: usize) -> u64
    requires { i < length (jobs_of claims.now) }
    ensures { option_map (λ job. wanted job.request) (slice_get (jobs_of claims.now) i) ≡ Some result }
{
    claims.request(i).ports.len().max(1) as u64
}

// The resources that job `i` finds.
fn search<F: Ledger, E: Ledger, T: Ledger>(
    scene: &Scene<'_>,
    claims: &ClaimTable,
    i: usize,
    clusters: &mut Clusters,
    meter: &mut Meter<'_, F, E, T>,
) -> Result<Option<Slots>, OutOfMemory>
    requires place { i < length (jobs_of claims.now) }
    requires index { IsIndex scene.now.index.now (rows_of (stock_in scene.now)) }
    requires stored { AreStored (stock_in scene.now) (holder_of (settings_in scene.now) (jobs_of claims.now)) }
    requires ports { All (λ job. AreOwn (ad_frames job.request.ad) job.request.ports) (jobs_of claims.now) }
    requires clusters { AreClusters scene.now.moment (stock_in scene.now) (settings_in scene.now) (jobs_of claims.now) clusters.old }
    ensures found { IfOk result (λ slots. slots ≡ found scene.now.moment (stock_in scene.now) (settings_in scene.now) (jobs_of claims.now) i) }
    ensures free { IfOk result (λ slots. IfSome slots (λ list. AreFree list (jobs_of claims.now))) }
    ensures distinct { IfOk result (λ slots. IfSome slots (AllPairs (λ a b. a ≢ b))) }
    ensures enough { IfOk result (λ slots. IfSome slots
        (λ list. option_map (λ job. wanted job.request) (slice_get (jobs_of claims.now) i) ≡ Some (length list))) }
    ensures clusters { AreClusters scene.now.moment (stock_in scene.now) (settings_in scene.now) (jobs_of claims.now) clusters.new }
    ensures counted { IsSearched scene.now.moment (stock_in scene.now) (settings_in scene.now) (jobs_of claims.now) i
        (counted_with meter.old clusters.old) (counted_with meter.new clusters.new) }
    ensures same { IsSame meter.old meter.new }
    ensures ratio { AreSmallAds (stock_in scene.now).ads → AreSmallJobs (jobs_of claims.now) → IsPaid meter.old meter.new }
{
    let request = claims.request(i);
    if request.ports.len() == 0 {
        let number = scene.priorities.get(claims.user(i).bytes());
        let seeker = Seeker {
            claims,
            place: i,
            request,
        };
        search_one(scene, &seeker, number, clusters, meter)
    } else {
        search_gang(scene, claims, request, meter)
    }
}

// The resource that a job finds, whose user has this number, in a list.
fn search_one<F: Ledger, E: Ledger, T: Ledger>(
    scene: &Scene<'_>,
    seeker: &Seeker<'_>,
    number: u64,
    clusters: &mut Clusters,
    meter: &mut Meter<'_, F, E, T>,
) -> Result<Option<Slots>, OutOfMemory>
    requires index { IsIndex scene.now.index.now (rows_of (stock_in scene.now)) }
    requires stored { AreStored (stock_in scene.now) (holder_of (settings_in scene.now) (jobs_around seeker.now)) }
    requires job { option_map (λ job. job.request) (slice_get (jobs_around seeker.now) seeker.now.place) ≡ Some seeker.now.request.now }
    requires single { seeker.now.request.now.ports ≡ [] }
    requires clusters { AreClusters scene.now.moment (stock_in scene.now) (settings_in scene.now) (jobs_around seeker.now) clusters.old }
    ensures found { IfOk result (λ slots. slots
        ≡ found_for scene.now.moment (stock_in scene.now) (settings_in scene.now) (jobs_around seeker.now) number seeker.now.request.now) }
    ensures free { IfOk result (λ slots. IfSome slots (λ list. AreFree list (jobs_around seeker.now))) }
    ensures distinct { IfOk result (λ slots. IfSome slots (AllPairs (λ a b. a ≢ b))) }
    ensures enough { IfOk result (λ slots. IfSome slots (λ list. wanted seeker.now.request.now ≡ length list)) }
    ensures clusters { AreClusters scene.now.moment (stock_in scene.now) (settings_in scene.now) (jobs_around seeker.now) clusters.new }
    ensures same { IsSame meter.old meter.new }
    ensures evaluations { meter.new.tops.now ≤ meter.old.tops.now
        + evaluations_for scene.now.moment (stock_in scene.now) (settings_in scene.now) (jobs_around seeker.now) seeker.now.request.now }
    ensures entries { meter.new.entry.now ≤ meter.old.entry.now
        + entries_for scene.now.moment (stock_in scene.now) (settings_in scene.now) (jobs_around seeker.now) seeker.now.request.now }
    ensures ratio { AreSmallAds (stock_in scene.now).ads → AreSmallJobs (jobs_around seeker.now) → IsPaid meter.old meter.new }
    ensures looks { meter.new.touch.now + clusters.new.looks.saved ≤ meter.old.touch.now + clusters.old.looks.saved
        + looks_for (stock_in scene.now) (jobs_around seeker.now) seeker.now.request.now }
{
    let slot = choose(scene, seeker, number, clusters, meter)?;
    listed(scene.alloc, slot)
}

// The slot in a list, where there is one.
fn listed(alloc: Global, slot: Option<usize>) -> Result<Option<Slots>, OutOfMemory>
    ensures { IfOk result (λ slots. slots ≡ option_map (λ s. s ∷ []) slot) }
{
    let Some(slot) = slot else {
        return Ok(None);
    };
    let mut slots = Slots::new(alloc);
    slots.push(slot)?;
    Ok(Some(slots))
}

// The resources that a request finds for its ports, whatever the number of its user: nothing is taken from a holder for a gang.
fn search_gang<F: Ledger, E: Ledger, T: Ledger>(
    scene: &Scene<'_>,
    claims: &ClaimTable,
    request: &Request,
    meter: &mut Meter<'_, F, E, T>,
) -> Result<Option<Slots>, OutOfMemory>
    requires index { IsIndex scene.now.index.now (rows_of (stock_in scene.now)) }
    requires ports { ports_of (ad_frames request.now.ad) ≡ Some request.now.ports }
    requires some { 0 < length request.now.ports }
    ensures found { IfOk result (λ slots. (number : ℕ)
        → slots ≡ found_for scene.now.moment (stock_in scene.now) (settings_in scene.now) (jobs_of claims.now) number request.now) }
    ensures free { IfOk result (λ slots. IfSome slots (λ list. AreFree list (jobs_of claims.now))) }
    ensures distinct { IfOk result (λ slots. IfSome slots (AllPairs (λ a b. a ≢ b))) }
    ensures enough { IfOk result (λ slots. IfSome slots (λ list. wanted request.now ≡ length list)) }
    ensures spent { Spends meter.old meter.new
        (evaluations_for scene.now.moment (stock_in scene.now) (settings_in scene.now) (jobs_of claims.now) request.now)
        (entries_for scene.now.moment (stock_in scene.now) (settings_in scene.now) (jobs_of claims.now) request.now)
        (looks_for (stock_in scene.now) (jobs_of claims.now) request.now) }
    ensures ratio { IsSmall (ad_frames request.now.ad) → AreSmallAds (stock_in scene.now).ads → IsPaid meter.old meter.new }
{
    scene.store.slots_are_apart();
    let standing = Standing {
        claims,
        priorities: scene.priorities,
    };
    first_gang(
        scene.alloc,
        scene.store,
        scene.index,
        &standing,
        request,
        scene.moment,
        meter.tops,
        meter.entry,
        meter.touch,
    )
}

// Offers resources to job `i`, and tells the offer.
fn give(
    alloc: Global,
    claims: &mut ClaimTable,
    i: usize,
    slots: Slots,
) -> Result<Offered, OutOfMemory>
    requires idle { is_idle_at (jobs_of claims.old) i ≡ true }
    requires free { AreFree slots (jobs_of claims.old) }
    requires distinct { AllPairs (λ a b. a ≢ b) slots }
    requires enough { option_map (λ job. wanted job.request) (slice_get (jobs_of claims.old) i) ≡ Some (length slots) }
    ensures offered { IfOk result (λ offered. offered ≡ offer_named (jobs_of claims.old) (record { job = i; resources = slots })) }
    ensures ok { OnOk result (jobs_of claims.new ≡ with_standing (jobs_of claims.old) i (Stage.Matched slots)) }
    ensures err { OnErr result (jobs_of claims.new ≡ jobs_of claims.old) }
{
    let job = claims.job(i).copy()?;
    let shown = copy_of(alloc, slots.as_slice())?;
    claims.offer(i, slots)?;
    Ok(Offered { job, slots: shown })
}

// A list with these slots.
fn copy_of(alloc: Global, slots: &[usize]) -> Result<Slots, OutOfMemory>
    ensures { IfOk result (λ list. list ≡ slots.now) }
{
    let mut list = Slots::new(alloc);
    for slot in slots {
        list.push(*slot)?;
    }
    Ok(list)
}

// Gives job `i`, which is idle, what it finds. A job that finds nothing is marked: it will find nothing once more is
// offered, so it isn't searched for again.
pub(crate) fn try_job<F: Ledger, E: Ledger, T: Ledger>(
    scene: &Scene<'_>,
    claims: &mut ClaimTable,
    i: usize,
    failed: &mut [bool],
    clusters: &mut Clusters,
    meter: &mut Meter<'_, F, E, T>,
) -> Result<Option<Offered>, OutOfMemory>
    requires idle { is_idle_at (jobs_of claims.old) i ≡ true }
    requires ready { IsReady scene.now (jobs_of claims.old) failed.old }
    requires clusters { AreClusters scene.now.moment (stock_in scene.now) (settings_in scene.now) (jobs_of claims.old) clusters.old }
    ensures offered { IfOk result (λ o. o ≡ option_map (λ slots. offer_named (jobs_of claims.old) (record { job = i; resources = slots })) (found
        scene.now.moment (stock_in scene.now) (settings_in scene.now) (jobs_of claims.old) i)) }
    ensures table { OnOk result (jobs_of claims.new ≡ option_map_or (λ slots. with_standing (jobs_of claims.old) i (Stage.Matched slots)) (found
        scene.now.moment (stock_in scene.now) (settings_in scene.now) (jobs_of claims.old) i) (jobs_of claims.old)) }
    ensures err { OnErr result (jobs_of claims.new ≡ jobs_of claims.old) }
    ensures ready { IsReady scene.now (jobs_of claims.new) failed.new }
    ensures clusters { AreClusters scene.now.moment (stock_in scene.now) (settings_in scene.now) (jobs_of claims.new) clusters.new }
    ensures paid { OnOk result (ArePaid scene.now.moment (stock_in scene.now) (settings_in scene.now) (jobs_of claims.old) (jobs_of claims.new) failed.old
        failed.new (counted_with meter.old clusters.old) (counted_with meter.new clusters.new)) }
    ensures within { AreWithin scene.now.moment (stock_in scene.now) (settings_in scene.now) (jobs_of claims.old) failed.old
        (counted_with meter.old clusters.old) (counted_with meter.new clusters.new) }
    ensures same { IsSame meter.old meter.new }
    ensures ratio { AreSmallAds (stock_in scene.now).ads → AreSmallJobs (jobs_of claims.old) → IsPaid meter.old meter.new }
{
    if failed[i] {
        return Ok(None);
    }
    let Some(slots) = search(scene, claims, i, clusters, meter)? else {
        failed[i] = true;
        return Ok(None);
    };
    scene.store.slots_are_apart();
    let taken = free_in(claims, slots.as_slice());
    let offered = give(scene.alloc, claims, i, slots)?;
    clusters.free -= taken;
    Ok(Some(offered))
}
