// The best resource for a job.
ghost use Rattle.std.specs.Prelude.{◌≡◌, ◌≤◌, ◌<◌, ◌+◌, ◌*◌, [], false, length, slice_index, Contains, IfOk, IfSome, option_map};
ghost use Rattle.ad_tree.specs.Ad.{ad_frames};
ghost use Rattle.ad_tree.specs.Small.{IsSmall};
ghost use Rattle.ad_store.specs.Store.{stock_of};
ghost use Rattle.conjunct_plan.specs.Tests.{tests_of};
ghost use Rattle.literal_index.specs.Shown.{IsIndex};
ghost use Rattle.ad_candidates.specs.Counts.{least_left};
ghost use Rattle.ad_candidates.specs.Rows.{rows_of};
ghost use Rattle.dock_match.specs.Pool.{AreStored, pool_of};
ghost use Rattle.dock_match.specs.Small.{AreSmallAds, AreSmallHolders};
ghost use Rattle.pool_steps.specs.Spent.{IsPaid, Spends};
ghost use Rattle.bilateral_match.specs.Counts.{entered_for, open_count};
ghost use Rattle.bilateral_match.specs.Known.{AreKnown};
ghost use Rattle.bilateral_match.specs.Members.{best_slot};
ghost use Rattle.bilateral_match.specs.Members as members;
ghost use Rattle.bilateral_match.specs.Scenes.{pool_in, request_in, stock_in};

use crate::known::Known;
use crate::looks::Looks;
use crate::member::Member;
use crate::members::member_at;
use crate::scene::Scene;
use ad_candidates::candidates_knowing;
use ad_store::{Holdings, Store};
use ad_tree::Request;
use conjunct_plan::SidePlan;
use literal_index::Index;
use pool_steps::{Meter, Steps};
use pool_text::OutOfMemory;
use std::alloc::Global;
use std::convert::AsSlice;
use std::sync::ledger::Ledger;

/// The slot of the best resource for a job without ports, whose user has this number, `None` exactly where it may be given
/// none. It may be given a live resource that isn't offered, whose dock with it is true, and for which one of three holds: it is
/// unclaimed; it ranks its holder strictly lower than the job; or it ranks both alike, and the holder's user has at least twice
/// the number. The holder is ranked in the dock by which it holds the resource. Best is what the job ranks highest; of these an
/// unclaimed resource comes before one whose holder is ranked lower, and that before one whose holder is ranked equal; then one
/// that ranks the job higher; then the one that stands first in the store (the ranks of both sides are those of Raman, Livny and
/// Solomon 1998, and the kinds of preemption are those of the HTCondor negotiator; the order and the factor of two are this
/// pool's own). The index is that of the ads of the store, and what `held` tells of is in the store.
///
/// Of the tests of the request the one that leaves the fewest ads says which ads are looked at; without one all are. For
/// each it counts at most nine in `touch`: the ad, and up to eight to rank its holder. In `tops` and `entry` it counts what
/// evaluations count: five at most for a resource that isn't offered and whose dock no test of either side decides, and
/// none for any other.
pub fn best<'a, H: Holdings, F: Ledger, E: Ledger, T: Ledger>(
    alloc: Global,
    store: &Store,
    index: &Index,
    held: &H,
    request: &Request,
    number: u64,
    moment: u64,
    tops: &'a mut Steps<F>,
    entry: &'a mut Steps<E>,
    touch: &'a mut Steps<T>,
) -> Result<Option<usize>, OutOfMemory>
    requires index { IsIndex index.now (rows_of (stock_of store.now)) }
    requires stored { AreStored (stock_of store.now) (H.holding held.now) }
    requires single { request.now.ports ≡ [] }
    ensures best { IfOk result (λ slot. slot
        ≡ best_slot (stock_of store.now) (pool_of moment (stock_of store.now) (H.is_offered held.now) (H.holding held.now)) (ad_frames request.now.ad) number) }
    ensures held { IfOk result (λ slot. IfSome slot (Contains (stock_of store.now).slots)) }
    ensures free { IfOk result (λ slot. IfSome slot (λ s. H.is_offered held.now s ≡ false)) }
    ensures evaluations { tops.new ≤ tops.old
        + 5 * open_count (pool_of moment (stock_of store.now) (H.is_offered held.now) (H.holding held.now)) (ad_frames request.now.ad) }
    ensures entries { entry.new ≤ entry.old
        + entered_for (pool_of moment (stock_of store.now) (H.is_offered held.now) (H.holding held.now)) (ad_frames request.now.ad) }
    ensures ratio { IsSmall (ad_frames request.now.ad) → AreSmallAds (stock_of store.now).ads → AreSmallHolders (H.holding held.now)
        → entry.new + 9216 * tops.old ≤ entry.old + 9216 * tops.new }
    ensures looks { touch.new ≤ touch.old
        + 9 * least_left (stock_of store.now).ads (tests_of (ad_frames request.now.ad) 0 []) }
{
    let plan = SidePlan::of(alloc, &request.ad, 0, &request.ports)?;
    let scene = Scene {
        alloc,
        store,
        index,
        held,
        request,
        plan,
        number,
        moment,
    };
    let mut known = Known::new(alloc);
    let mut looks = Looks::none();
    let mut meter = Meter::new(tops, entry, touch);
    best_knowing(&scene, &mut known, &mut looks, &mut meter)
}

/// The same slot as `best`, found with what is known of ranks: a resource whose rank by the job is known, and lower than that of
/// another that it may be given, is passed over with no look and no evaluation. Ranks that are evaluated are noted where the
/// resource's literals settle them, so that each is evaluated once for all jobs with the same rank expression.
///
/// It counts no more than `best` may, and adds to `looks.saved` what it knows of the looks that `best` may make and it doesn't.
pub fn best_knowing<H: Holdings, F: Ledger, E: Ledger, T: Ledger>(
    scene: &Scene<'_, H>,
    known: &mut Known,
    looks: &mut Looks,
    meter: &mut Meter<'_, F, E, T>,
) -> Result<Option<usize>, OutOfMemory>
    requires index { IsIndex scene.now.index.now (rows_of (stock_in scene.now)) }
    requires stored { AreStored (stock_in scene.now) (H.holding scene.now.held.now) }
    requires single { scene.now.request.now.ports ≡ [] }
    requires known { AreKnown scene.now.moment (stock_in scene.now).ads known.old }
    ensures known { AreKnown scene.now.moment (stock_in scene.now).ads known.new }
    ensures best { IfOk result (λ slot. slot
        ≡ best_slot (stock_in scene.now) (pool_in H.is_offered H.holding scene.now) (request_in scene.now) scene.now.number) }
    ensures held { IfOk result (λ slot. IfSome slot (Contains (stock_in scene.now).slots)) }
    ensures free { IfOk result (λ slot. IfSome slot (λ s. H.is_offered scene.now.held.now s ≡ false)) }
    ensures spent { Spends meter.old meter.new (5 * open_count (pool_in H.is_offered H.holding scene.now) (request_in scene.now))
        (entered_for (pool_in H.is_offered H.holding scene.now) (request_in scene.now))
        (9 * least_left (stock_in scene.now).ads (tests_of (request_in scene.now) 0 [])) }
    ensures ratio { IsSmall (request_in scene.now) → AreSmallAds (stock_in scene.now).ads → AreSmallHolders (H.holding scene.now.held.now)
        → IsPaid meter.old meter.new }
    ensures saved { meter.new.touch.now + looks.new.saved ≤ meter.old.touch.now + looks.old.saved
        + 9 * least_left (stock_in scene.now).ads (tests_of (request_in scene.now) 0 []) }
{
    let request = scene.request;
    let places = candidates_knowing(
        scene.alloc,
        scene.store,
        scene.index,
        request,
        &mut known.tests,
    )?;
    looks.begin(places.len());
    let mut ranking = known.take(scene.alloc, scene.store.len(), request)?;
    let mut first = None;
    for place in places.as_slice() {
        let bar = rank_of(&first);
        let next = member_at(scene, *place, bar, &mut ranking, looks, meter)?;
        first = earlier(first, next);
    }
    known.keep(request, ranking)?;
    Ok(slot_of(scene.store, first))
}

// The slot of a member.
fn slot_of(store: &Store, member: Option<Member>) -> Option<usize>
    requires { IfSome member (λ m. m.place < length (stock_of store.now).slots) }
    ensures slot { result ≡ option_map (λ m. slice_index (stock_of store.now).slots m.place) member }
    ensures held { IfSome result (Contains (stock_of store.now).slots) }
{
    let member = member?;
    Some(store.at(member.place))
}

// The rank of a member by the job, which any that comes before it reaches.
fn rank_of(member: &Option<Member>) -> Option<i128>
    ensures { result ≡ option_map (λ m. m.rank) member.now }
{
    match member {
        Some(member) => Some(member.rank),
        None => None,
    }
}

// The earlier of two members, where there are two.
fn earlier(a: Option<Member>, b: Option<Member>) -> Option<Member>
    ensures { result ≡ members.earlier a b }
{
    match (a, b) {
        (Some(a), Some(b)) if b.compare(&a).is_lt() => Some(b),
        (Some(a), _) => Some(a),
        (None, b) => b,
    }
}
