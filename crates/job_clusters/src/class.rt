// Classes of jobs: jobs without ports that no ad of the store tells apart, and whose users have the same number.
ghost use Rattle.std.specs.Prelude.{◌≡◌, ◌≤◌, ◌+◌, ◌*◌, [], false, true, All, IfOk, IfSome, IsTrue, Some, option_map, slice_get, take};
ghost use Rattle.pool_steps.specs.Spent.{IsPaid, IsSame, Spends};
ghost use Rattle.ad_tree.specs.Ad.{ad_frames};
ghost use Rattle.ad_candidates.specs.Counts.{least_left};
ghost use Rattle.ad_candidates.specs.Rows.{rows_of};
ghost use Rattle.dock_match.specs.Pool.{AreStored};
ghost use Rattle.dock_match.specs.Small.{AreSmallAds};
ghost use Rattle.bilateral_match.specs.Counts.{entered_for, open_count};
ghost use Rattle.bilateral_match.specs.Known.{AreKnown};
ghost use Rattle.bilateral_match.specs.Members.{best_slot};
ghost use Rattle.bilateral_match.specs.Shortlists as shortlists;
ghost use Rattle.claim_table.specs.Holders.{holder_of};
ghost use Rattle.claim_table.specs.Small.{AreSmallJobs};
ghost use Rattle.claim_table.specs.Table.{jobs_of};
ghost use Rattle.conjunct_plan.specs.Tests.{tests_of};
ghost use Rattle.literal_index.specs.Shown.{IsIndex};
ghost use Rattle.significant_attrs.specs.Twins.{AreTwins};
ghost use Rattle.job_clusters.specs.Clusters.{IsClass, IsRanked, is_offered};
ghost use Rattle.job_clusters.specs.Scenes.{jobs_around, pool_in, settings_in, stock_in};

use crate::{Scene, Seeker, twins_are_matched_alike};
use ad_tree::{Ad, Request};
use bilateral_match::{Known, Looks, best_knowing, shortlist};
use claim_table::{ClaimTable, Standing};
use conjunct_plan::SidePlan;
use pool_steps::Meter;
use pool_text::{OutOfMemory, Slots};
use significant_attrs::are_twins;
use std::convert::AsSlice;
use std::sync::ledger::Ledger;

/// The resources that jobs may be given, the best one first, and how many of these are known to be offered, from the front.
#[derive(Drop)]
pub struct Ranked {
    pub slots: Slots,
    pub passed: usize,
}

/// A class: the ad of its first job, the marks by which other jobs are compared with it, and the number of its users. Its list of
/// resources is made for the second of jobs with equal ads, and for twins once searches for them alone weighed as many ads as that
/// takes. Classes of one kind have the same marks.
#[derive(Drop)]
pub struct Class {
    pub ad: Ad,
    pub marks: Vec<bool>,
    pub kind: usize,
    pub digest: u64,
    pub number: u64,
    pub weighed: u64,
    pub places: u64,
    pub ranked: Option<Ranked>,
}

impl Ranked {
    // The best resource: the first that isn't offered.
    fn first(&mut self, claims: &ClaimTable) -> Option<usize>
        requires { All (λ slot. is_offered (jobs_of claims.now) slot ≡ true) (take self.old.passed self.old.slots) }
        ensures first { result ≡ shortlists.first_left (is_offered (jobs_of claims.now)) self.old.slots }
        ensures free { IfSome result (λ slot. is_offered (jobs_of claims.now) slot ≡ false) }
        ensures slots { self.new.slots ≡ self.old.slots }
        ensures passed { All (λ slot. is_offered (jobs_of claims.now) slot ≡ true) (take self.new.passed self.new.slots) }
    {
        self.passed = first_left(claims, self.slots.as_slice(), self.passed);
        self.slots.as_slice().get(self.passed).copied()
    }
}

// The place of the first slot that isn't offered, or the end, where so many from the front are.
fn first_left(claims: &ClaimTable, slots: &[usize], passed: usize) -> usize
    requires { All (λ slot. is_offered (jobs_of claims.now) slot ≡ true) (take passed slots.now) }
    ensures passed { All (λ slot. is_offered (jobs_of claims.now) slot ≡ true) (take result slots.now) }
    ensures first { slice_get slots.now result ≡ shortlists.first_left (is_offered (jobs_of claims.now)) slots.now }
{
    for k in passed..slots.len() {
        if claims.offered_to(slots[k]).is_none() {
            return k;
        }
    }
    slots.len()
}

impl Class {
    /// Whether a request, whose user has this number, is of the class. Requests of the class have this digest.
    pub(crate) fn has(&self, request: &Request, number: u64, digest: u64) -> bool
        ensures twins { IsTrue result → AreTwins self.now.marks.items (ad_frames self.now.ad) (ad_frames request.now.ad) }
        ensures number { IsTrue result → self.now.number ≡ number }
    {
        self.digest == digest
            && self.number == number
            && are_twins(&self.ad, &request.ad, &self.marks)
    }

    // Notes what the search of a job alone took.
    fn note(&mut self, looks: &Looks)
        ensures { self.new ≡ record self.old { weighed = self.new.weighed; places = self.new.places } }
    {
        self.weighed = self.weighed.saturating_add(looks.weighed);
        self.places = looks.places;
    }

    /// The best resource for a job that is of the class.
    pub(crate) fn choose<F: Ledger, E: Ledger, T: Ledger>(
        &mut self,
        scene: &Scene<'_>,
        seeker: &Seeker<'_>,
        known: &mut Known,
        looks: &mut Looks,
        meter: &mut Meter<'_, F, E, T>,
    ) -> Result<Option<usize>, OutOfMemory>
        requires index { IsIndex scene.now.index.now (rows_of (stock_in scene.now)) }
        requires stored { AreStored (stock_in scene.now) (holder_of (settings_in scene.now) (jobs_around seeker.now)) }
        requires job { option_map (λ job. job.request) (slice_get (jobs_around seeker.now) seeker.now.place) ≡ Some seeker.now.request.now }
        requires single { seeker.now.request.now.ports ≡ [] }
        requires known { AreKnown scene.now.moment (stock_in scene.now).ads known.old }
        requires class { IsClass scene.now.moment (stock_in scene.now) (settings_in scene.now) (jobs_around seeker.now) self.old }
        requires twins { AreTwins self.old.marks.items (ad_frames self.old.ad) (ad_frames seeker.now.request.now.ad) }
        ensures best { IfOk result (λ slot. slot
            ≡ best_slot (stock_in scene.now) (pool_in scene.now (jobs_around seeker.now)) (ad_frames seeker.now.request.now.ad) self.old.number) }
        ensures free { IfOk result (λ slot. IfSome slot (λ s. is_offered (jobs_around seeker.now) s ≡ false)) }
        ensures known { AreKnown scene.now.moment (stock_in scene.now).ads known.new }
        ensures class { IsClass scene.now.moment (stock_in scene.now) (settings_in scene.now) (jobs_around seeker.now) self.new }
        ensures same { IsSame meter.old meter.new }
        ensures evaluations { meter.new.tops.now
            ≤ meter.old.tops.now + 5 * open_count (pool_in scene.now (jobs_around seeker.now)) (ad_frames seeker.now.request.now.ad) }
        ensures entries { meter.new.entry.now
            ≤ meter.old.entry.now + entered_for (pool_in scene.now (jobs_around seeker.now)) (ad_frames seeker.now.request.now.ad) }
        ensures ratio { AreSmallAds (stock_in scene.now).ads → AreSmallJobs (jobs_around seeker.now) → IsPaid meter.old meter.new }
        ensures looks { meter.new.touch.now + looks.new.saved ≤ meter.old.touch.now + looks.old.saved
            + 9 * least_left (stock_in scene.now).ads (tests_of (ad_frames seeker.now.request.now.ad) 0 []) }
    {
        twins_are_matched_alike(&self.ad, &seeker.request.ad);
        if let Some(ranked) = &mut self.ranked {
            return Ok(ranked.first(seeker.claims));
        }
        if self.weighed < self.places {
            let slot = search_alone(scene, seeker, self.number, known, looks, meter)?;
            self.note(looks);
            return Ok(slot);
        }
        let mut ranked = rank(scene, seeker, self.number, meter)?;
        let slot = ranked.first(seeker.claims);
        self.ranked = Some(ranked);
        Ok(slot)
    }
}

/// The best resource for a job whose user has this number, by a search of its own.
pub(crate) fn search_alone<F: Ledger, E: Ledger, T: Ledger>(
    scene: &Scene<'_>,
    seeker: &Seeker<'_>,
    number: u64,
    known: &mut Known,
    looks: &mut Looks,
    meter: &mut Meter<'_, F, E, T>,
) -> Result<Option<usize>, OutOfMemory>
    requires index { IsIndex scene.now.index.now (rows_of (stock_in scene.now)) }
    requires stored { AreStored (stock_in scene.now) (holder_of (settings_in scene.now) (jobs_around seeker.now)) }
    requires job { option_map (λ job. job.request) (slice_get (jobs_around seeker.now) seeker.now.place) ≡ Some seeker.now.request.now }
    requires single { seeker.now.request.now.ports ≡ [] }
    requires known { AreKnown scene.now.moment (stock_in scene.now).ads known.old }
    ensures best { IfOk result (λ slot. slot
        ≡ best_slot (stock_in scene.now) (pool_in scene.now (jobs_around seeker.now)) (ad_frames seeker.now.request.now.ad) number) }
    ensures free { IfOk result (λ slot. IfSome slot (λ s. is_offered (jobs_around seeker.now) s ≡ false)) }
    ensures known { AreKnown scene.now.moment (stock_in scene.now).ads known.new }
    ensures same { IsSame meter.old meter.new }
    ensures evaluations { meter.new.tops.now
        ≤ meter.old.tops.now + 5 * open_count (pool_in scene.now (jobs_around seeker.now)) (ad_frames seeker.now.request.now.ad) }
    ensures entries { meter.new.entry.now
        ≤ meter.old.entry.now + entered_for (pool_in scene.now (jobs_around seeker.now)) (ad_frames seeker.now.request.now.ad) }
    ensures ratio { AreSmallAds (stock_in scene.now).ads → AreSmallJobs (jobs_around seeker.now) → IsPaid meter.old meter.new }
    ensures looks { meter.new.touch.now + looks.new.saved ≤ meter.old.touch.now + looks.old.saved
        + 9 * least_left (stock_in scene.now).ads (tests_of (ad_frames seeker.now.request.now.ad) 0 []) }
{
    let request = seeker.request;
    let standing = Standing {
        claims: seeker.claims,
        priorities: scene.priorities,
    };
    let plan = SidePlan::of(scene.alloc, &request.ad, 0, &request.ports)?;
    let job = bilateral_match::Scene {
        alloc: scene.alloc,
        store: scene.store,
        index: scene.index,
        held: &standing,
        request,
        plan,
        number,
        moment: scene.moment,
    };
    best_knowing(&job, known, looks, meter)
}

// The resources for a job whose user has this number, in order.
fn rank<F: Ledger, E: Ledger, T: Ledger>(
    scene: &Scene<'_>,
    seeker: &Seeker<'_>,
    number: u64,
    meter: &mut Meter<'_, F, E, T>,
) -> Result<Ranked, OutOfMemory>
    requires index { IsIndex scene.now.index.now (rows_of (stock_in scene.now)) }
    requires stored { AreStored (stock_in scene.now) (holder_of (settings_in scene.now) (jobs_around seeker.now)) }
    requires job { option_map (λ job. job.request) (slice_get (jobs_around seeker.now) seeker.now.place) ≡ Some seeker.now.request.now }
    requires single { seeker.now.request.now.ports ≡ [] }
    ensures ranked { IfOk result (IsRanked scene.now.moment (stock_in scene.now) (settings_in scene.now) (jobs_around seeker.now)
        (ad_frames seeker.now.request.now.ad) number) }
    ensures spent { Spends meter.old meter.new
        (5 * open_count (pool_in scene.now (jobs_around seeker.now)) (ad_frames seeker.now.request.now.ad))
        (entered_for (pool_in scene.now (jobs_around seeker.now)) (ad_frames seeker.now.request.now.ad))
        (9 * least_left (stock_in scene.now).ads (tests_of (ad_frames seeker.now.request.now.ad) 0 [])) }
    ensures ratio { AreSmallAds (stock_in scene.now).ads → AreSmallJobs (jobs_around seeker.now) → IsPaid meter.old meter.new }
{
    let request = seeker.request;
    let standing = Standing {
        claims: seeker.claims,
        priorities: scene.priorities,
    };
    let plan = SidePlan::of(scene.alloc, &request.ad, 0, &request.ports)?;
    let job = bilateral_match::Scene {
        alloc: scene.alloc,
        store: scene.store,
        index: scene.index,
        held: &standing,
        request,
        plan,
        number,
        moment: scene.moment,
    };
    let slots = shortlist(&job, meter)?;
    Ok(Ranked { slots, passed: 0 })
}
