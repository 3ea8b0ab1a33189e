// A user's turn, and the turns of a spin.
ghost use Rattle.std.specs.Prelude.{◌≡◌, ◌<◌, ◌≤◌, ◌+◌, ◌*◌, ◌∷◌, ◌++◌, [], All, IfOk, OnErr, OnOk, false, filter, if◌then◌else◌, length, map};
ghost use Rattle.pool_steps.specs.Spent.{IsPaid, IsSame};
ghost use Rattle.dock_match.specs.Small.{AreSmallAds};
ghost use Rattle.claim_table.specs.Small.{AreSmallJobs};
ghost use Rattle.claim_table.specs.Table.{jobs_of};
ghost use Rattle.job_clusters.specs.Clusters.{AreClusters};
ghost use Rattle.job_clusters.specs.Scenes.{settings_in, stock_in};
ghost use Rattle.negotiator.specs.Budget.{ArePaid, AreWithin, counted_with};
ghost use Rattle.negotiator.specs.Cycle.{has_offer, is_empty, is_of, offers_in, places};
ghost use Rattle.negotiator.specs.Markets.{IsPart, offer_named, turn_named, with_offers};
ghost use Rattle.negotiator.specs.Queues.{IsAhead};
ghost use Rattle.negotiator.specs.Scenes.{IsReady, market_in, turn_in, turns_in};

use crate::search::{is_idle, try_job, wants};
use crate::{OfferedList, Share, Shares, Turn, Turns};
use claim_table::ClaimTable;
use job_clusters::{Clusters, Scene};
use pool_steps::Meter;
use pool_text::OutOfMemory;
use std::sync::ledger::Ledger;

// The turn of a user with a slice: the offers to the user's jobs, in their order, from the head of the queue on. It ends at a job that wants more than is
// left of the slice, unless nothing was given in it yet.
pub(crate) fn run_turn<F: Ledger, E: Ledger, T: Ledger>(
    scene: &Scene<'_>,
    claims: &mut ClaimTable,
    share: &Share<'_>,
    failed: &mut [bool],
    clusters: &mut Clusters,
    meter: &mut Meter<'_, F, E, T>,
) -> Result<OfferedList, OutOfMemory>
    requires own { share.now.queue.now.places ≡ filter (is_of (market_in scene.now (jobs_of claims.old)) share.now.queue.now.user) (places
        (market_in scene.now (jobs_of claims.old)).jobs) }
    requires ahead { IsAhead (jobs_of claims.old) failed.old share.now.queue.now }
    requires ready { IsReady scene.now (jobs_of claims.old) failed.old }
    requires clusters { AreClusters scene.now.moment (stock_in scene.now) (settings_in scene.now) (jobs_of claims.old) clusters.old }
    ensures offers { IfOk result (λ offers. offers ≡ map (offer_named (jobs_of claims.old)) (turn_in scene.now (jobs_of claims.old) share.now)) }
    ensures table { OnOk result (jobs_of claims.new ≡ with_offers (turn_in scene.now (jobs_of claims.old) share.now) (jobs_of claims.old)) }
    ensures part { OnErr result (IsPart (turn_in scene.now (jobs_of claims.old) share.now) (jobs_of claims.old) (jobs_of claims.new)) }
    ensures ready { IsReady scene.now (jobs_of claims.new) failed.new }
    ensures clusters { AreClusters scene.now.moment (stock_in scene.now) (settings_in scene.now) (jobs_of claims.new) clusters.new }
    ensures paid { OnOk result (ArePaid scene.now.moment (stock_in scene.now) (settings_in scene.now) (jobs_of claims.old) (jobs_of claims.new) failed.old
        failed.new (counted_with meter.old clusters.old) (counted_with meter.new clusters.new)) }
    ensures within { AreWithin scene.now.moment (stock_in scene.now) (settings_in scene.now) (jobs_of claims.old) failed.old
        (counted_with meter.old clusters.old) (counted_with meter.new clusters.new) }
    ensures same { IsSame meter.old meter.new }
    ensures ratio { AreSmallAds (stock_in scene.now).ads → AreSmallJobs (jobs_of claims.old) → IsPaid meter.old meter.new }
{
    let mut offers = OfferedList::new(scene.alloc);
    let mut left = share.slice;
    let mut given = false;
    for place in share.queue.rest() {
        if is_idle(claims, *place) {
            let wants = wants(claims, *place);
            if given && left < wants {
                return Ok(offers);
            }
            if let Some(offer) = try_job(scene, claims, *place, failed, clusters, meter)? {
                offers.push(offer)?;
                left = left.saturating_sub(wants);
                given = true;
            }
        }
    }
    Ok(offers)
}

// The turns of the users of these queues with their slices, without those that make no offer.
pub(crate) fn run_turns<F: Ledger, E: Ledger, T: Ledger>(
    scene: &Scene<'_>,
    claims: &mut ClaimTable,
    shares: &Shares<'_>,
    failed: &mut [bool],
    clusters: &mut Clusters,
    meter: &mut Meter<'_, F, E, T>,
) -> Result<Turns, OutOfMemory>
    requires own { All (λ queue. queue.places ≡ filter (is_of (market_in scene.now (jobs_of claims.old)) queue.user) (places
        (market_in scene.now (jobs_of claims.old)).jobs)) shares.now.queues.now }
    requires ahead { All (IsAhead (jobs_of claims.old) failed.old) shares.now.queues.now }
    requires active { All (λ k. k < length shares.now.queues.now) shares.now.active.now }
    requires slices { length shares.now.slices.now ≡ length shares.now.active.now }
    requires ready { IsReady scene.now (jobs_of claims.old) failed.old }
    requires clusters { AreClusters scene.now.moment (stock_in scene.now) (settings_in scene.now) (jobs_of claims.old) clusters.old }
    ensures turns { IfOk result (λ list. list ≡ map (turn_named (jobs_of claims.old))
        (filter has_offer (turns_in scene.now (jobs_of claims.old) shares.now))) }
    ensures table { OnOk result (jobs_of claims.new ≡ with_offers (offers_in (turns_in scene.now (jobs_of claims.old) shares.now)) (jobs_of claims.old)) }
    ensures part { OnErr result (IsPart (offers_in (turns_in scene.now (jobs_of claims.old) shares.now)) (jobs_of claims.old) (jobs_of claims.new)) }
    ensures ready { IsReady scene.now (jobs_of claims.new) failed.new }
    ensures clusters { AreClusters scene.now.moment (stock_in scene.now) (settings_in scene.now) (jobs_of claims.new) clusters.new }
    ensures paid { OnOk result (ArePaid scene.now.moment (stock_in scene.now) (settings_in scene.now) (jobs_of claims.old) (jobs_of claims.new) failed.old
        failed.new (counted_with meter.old clusters.old) (counted_with meter.new clusters.new)) }
    ensures within { AreWithin scene.now.moment (stock_in scene.now) (settings_in scene.now) (jobs_of claims.old) failed.old
        (counted_with meter.old clusters.old) (counted_with meter.new clusters.new) }
    ensures same { IsSame meter.old meter.new }
    ensures ratio { AreSmallAds (stock_in scene.now).ads → AreSmallJobs (jobs_of claims.old) → IsPaid meter.old meter.new }
{
    let mut turns = Turns::new(scene.alloc);
    for k in 0..shares.active.len() {
        let share = Share {
            queue: &shares.queues[shares.active[k]],
            slice: shares.slices[k],
        };
        let offers = run_turn(scene, claims, &share, failed, clusters, meter)?;
        keep(&mut turns, &share, offers)?;
    }
    Ok(turns)
}

// Adds a turn that makes an offer.
fn keep(turns: &mut Turns, share: &Share<'_>, offers: OfferedList) -> Result<(), OutOfMemory>
    ensures { OnOk result (turns.new ≡ turns.old
        ++ (if is_empty offers then [] else (record { user = share.now.queue.now.user; slice = share.now.slice; offers = offers }) ∷ [])) }
{
    if offers.len() > 0 {
        turns.push(Turn {
            user: share.queue.user.copy()?,
            slice: share.slice,
            offers,
        })?;
    }
    Ok(())
}
