// What the jobs of a cycle share: the jobs of a class one list of resources, and all jobs what is known of ranks and tests.
ghost use Rattle.std.specs.Prelude.{◌≡◌, ◌<◌, ◌≤◌, ◌+◌, ◌*◌, ℕ, List, [], false, IfOk, IfSome, None, Some, length, option_map, slice_get};
ghost use Rattle.pool_steps.specs.Spent.{IsPaid, IsSame};
ghost use Rattle.ad_tree.specs.Ad.{ad_frames};
ghost use Rattle.ad_store.specs.Stock.{Advert, Stock};
ghost use Rattle.ad_candidates.specs.Counts.{least_left};
ghost use Rattle.ad_candidates.specs.Rows.{rows_of};
ghost use Rattle.dock_match.specs.Pool.{AreStored};
ghost use Rattle.dock_match.specs.Small.{AreSmallAds};
ghost use Rattle.bilateral_match.specs.Counts.{entered_for, open_count};
ghost use Rattle.bilateral_match.specs.Known.{AreKnown};
ghost use Rattle.bilateral_match.specs.Members.{best_slot};
ghost use Rattle.claim_table.specs.declared.job.Job.{Job};
ghost use Rattle.claim_table.specs.Holders.{holder_of};
ghost use Rattle.claim_table.specs.Priorities.{Setting};
ghost use Rattle.claim_table.specs.Small.{AreSmallJobs};
ghost use Rattle.claim_table.specs.Table.{jobs_of};
ghost use Rattle.conjunct_plan.specs.Tests.{tests_of};
ghost use Rattle.literal_index.specs.Shown.{IsIndex};
ghost use Rattle.significant_attrs.specs.Shown.{HasReadAds, ads_in};
ghost use Rattle.significant_attrs.specs.Twins.{AreAllMarked, AreTwins};
ghost use Rattle.job_clusters.specs.declared.class.Class.{Class};
ghost use Rattle.job_clusters.specs.Clusters.{AreClusters, is_offered};
ghost use Rattle.job_clusters.specs.Scenes.{jobs_around, pool_in, settings_in, stock_in};

use crate::class::search_alone;
use crate::{Class, Scene, Seeker};
use ad_tree::Request;
use bilateral_match::{Known, Looks};
use claim_table::ClaimTable;
use pool_steps::{Meter, Steps};
use pool_text::OutOfMemory;
use significant_attrs::{Reach, digest};
use std::alloc::Global;
use std::sync::ledger::Ledger;

// So many classes are remembered, and one more for each job that was of one. So a cycle whose jobs all differ takes little for
// classes.
const CLASSES_LIMIT: usize = 64;

// The names by which resources ask are read where so many jobs were of no class.
const ALONE_LIMIT: usize = 16;

/// What the jobs of a cycle share: the classes of those without ports that were tried, and what is known of the ranks that they give
/// resources. While the names by which the resources' ads ask aren't read, classes are of equal ads. Beside them stand the digests of
/// the last job for each kind of classes, and counts: of jobs that were of a class and of those that weren't, of looks, and of free resources.
#[derive(Drop)]
pub struct Clusters {
    pub reach: Option<Reach>,
    pub classes: Vec<Class>,
    pub digests: Vec<Option<u64>>,
    pub shared: usize,
    pub alone: usize,
    pub looks: Looks,
    pub known: Known,
    pub free: u64,
}

impl Clusters {
    /// No job was tried yet, and so many resources are free. It takes no memory.
    pub fn new(alloc: Global, free: u64) -> Clusters
        ensures reach { result.reach ≡ None }
        ensures classes { result.classes.items ≡ [] }
        ensures saved { result.looks.saved ≡ 0 }
        ensures known { (moment : ℕ) (ads : List Advert) → AreKnown moment ads result.known }
        ensures free { result.free ≡ free }
    {
        Clusters {
            reach: None,
            classes: Vec::new(alloc),
            digests: Vec::new(alloc),
            shared: 0,
            alone: 0,
            looks: Looks::none(),
            known: Known::new(alloc),
            free,
        }
    }

    // Reads the names by which the ads of the resources ask, once that is likely to pay, and once as many looks are saved. From then
    // on new classes are of twins; those of equal ads stay where jobs shared them.
    fn read_names<T: Ledger>(
        &mut self,
        scene: &Scene<'_>,
        touch: &mut Steps<T>,
    ) -> Result<(), OutOfMemory>
        ensures clusters { (settings : List Setting) (jobs : List Job) → AreClusters scene.now.moment (stock_in scene.now) settings jobs self.old
            → AreClusters scene.now.moment (stock_in scene.now) settings jobs self.new }
        ensures looks { touch.new + self.new.looks.saved ≤ touch.old + self.old.looks.saved }
    {
        let ads = scene.store.len() as u64;
        if self.reach.is_some() || self.alone < ALONE_LIMIT || self.looks.saved < ads {
            return Ok(());
        }
        self.looks.spend(ads);
        let reach = Reach::new(scene.alloc, scene.store, touch)?;
        self.reach = Some(reach);
        if self.shared == 0 {
            self.classes.clear();
            self.digests.clear();
        }
        Ok(())
    }

    // Remembers the class of a request that was searched for alone, while there are few.
    fn note(&mut self, alloc: Global, request: &Request, number: u64) -> Result<(), OutOfMemory>
        ensures clusters { (moment : ℕ) (stock : Stock) (settings : List Setting) (jobs : List Job) → AreClusters moment stock settings jobs self.old
            → AreClusters moment stock settings jobs self.new }
        ensures looks { self.new.looks ≡ self.old.looks }
    {
        self.alone = self.alone.saturating_add(1);
        if self.classes.len() >= CLASSES_LIMIT.saturating_add(self.shared) {
            return Ok(());
        }
        let marks = marks_of(alloc, &self.reach, request)?;
        let kind = self.kind_of(&marks);
        let digest = digest(&request.ad, &marks);
        let class = Class {
            ad: request.ad.share()?,
            marks,
            kind,
            digest,
            number,
            weighed: self.weighed_alone(),
            places: self.looks.places,
            ranked: None,
        };
        self.classes.push(class)?;
        if kind == self.digests.len() {
            self.digests.push(None)?;
        }
        Ok(())
    }

    // How many ads count as weighed for a class whose first job was searched for alone. Equal ads mostly are of one submission, so
    // that a list is made for the second of them.
    fn weighed_alone(&self) -> u64 {
        if self.reach.is_some() {
            self.looks.weighed
        } else {
            self.looks.places
        }
    }

    // The kind of the classes with these marks, a new one where there are none.
    fn kind_of(&self, marks: &[bool]) -> usize {
        for k in 0..self.classes.len() {
            if self.classes[k].marks.as_slice() == marks {
                return self.classes[k].kind;
            }
        }
        self.digests.len()
    }
}

// The place of the class of a request, whose user has this number. The request's digest is found once for all classes of a kind, and
// kept in this list.
fn place_of(
    classes: &[Class],
    digests: &mut [Option<u64>],
    request: &Request,
    number: u64,
) -> Option<usize>
    ensures within { IfSome result (λ k. k < length classes.now) }
    ensures twins { IfSome result (λ k. (class : Class) → slice_get classes.now k ≡ Some class
        → AreTwins class.marks.items (ad_frames class.ad) (ad_frames request.now.ad)) }
    ensures number { IfSome result (λ k. (class : Class) → slice_get classes.now k ≡ Some class → class.number ≡ number) }
{
    digests.fill(None);
    for k in 0..classes.len() {
        let class = &classes[k];
        let digest = digest_for(digests, class, request);
        if class.has(request, number, digest) {
            return Some(k);
        }
    }
    None
}

// The digest of a request for the classes of this kind.
fn digest_for(digests: &mut [Option<u64>], class: &Class, request: &Request) -> u64 {
    let Some(slot) = digests.get_mut(class.kind) else {
        return digest(&request.ad, &class.marks);
    };
    match *slot {
        Some(digest) => digest,
        None => {
            let digest = digest(&request.ad, &class.marks);
            *slot = Some(digest);
            digest
        }
    }
}

// Marks for the attributes of a request's root to which the matching can come; all where names aren't read.
fn marks_of(
    alloc: Global,
    reach: &Option<Reach>,
    request: &Request,
) -> Result<Vec<bool>, OutOfMemory>
    ensures { IfOk result (λ marks. (ads : List Advert) → IfSome reach.now (λ r. HasReadAds r ads)
        → AreAllMarked (ads_in ads) (ad_frames request.now.ad) marks.items) }
{
    match reach {
        Some(reach) => reach.marks(request),
        None => Ok(vec![in alloc; true; request.ad.count(0) as usize]?),
    }
}

/// The best resource for a job whose user has this number, as a search for it alone would find it. The counters rise by no more than
/// such a search may count, but that looks which searches before it saved may be spent.
///
/// The index is that of the ads of the store, what is claimed is in the store, the job has no ports, and the clusters are those of
/// the same cycle.
pub fn choose<F: Ledger, E: Ledger, T: Ledger>(
    scene: &Scene<'_>,
    seeker: &Seeker<'_>,
    number: u64,
    clusters: &mut Clusters,
    meter: &mut Meter<'_, F, E, T>,
) -> Result<Option<usize>, OutOfMemory>
    requires index { IsIndex scene.now.index.now (rows_of (stock_in scene.now)) }
    requires stored { AreStored (stock_in scene.now) (holder_of (settings_in scene.now) (jobs_around seeker.now)) }
    requires job { option_map (λ job. job.request) (slice_get (jobs_around seeker.now) seeker.now.place) ≡ Some seeker.now.request.now }
    requires single { seeker.now.request.now.ports ≡ [] }
    requires clusters { AreClusters scene.now.moment (stock_in scene.now) (settings_in scene.now) (jobs_around seeker.now) clusters.old }
    ensures best { IfOk result (λ slot. slot
        ≡ best_slot (stock_in scene.now) (pool_in scene.now (jobs_around seeker.now)) (ad_frames seeker.now.request.now.ad) number) }
    ensures free { IfOk result (λ slot. IfSome slot (λ s. is_offered (jobs_around seeker.now) s ≡ false)) }
    ensures clusters { AreClusters scene.now.moment (stock_in scene.now) (settings_in scene.now) (jobs_around seeker.now) clusters.new }
    ensures same { IsSame meter.old meter.new }
    ensures evaluations { meter.new.tops.now
        ≤ meter.old.tops.now + 5 * open_count (pool_in scene.now (jobs_around seeker.now)) (ad_frames seeker.now.request.now.ad) }
    ensures entries { meter.new.entry.now
        ≤ meter.old.entry.now + entered_for (pool_in scene.now (jobs_around seeker.now)) (ad_frames seeker.now.request.now.ad) }
    ensures ratio { AreSmallAds (stock_in scene.now).ads → AreSmallJobs (jobs_around seeker.now) → IsPaid meter.old meter.new }
    ensures looks { meter.new.touch.now + clusters.new.looks.saved ≤ meter.old.touch.now + clusters.old.looks.saved
        + 9 * least_left (stock_in scene.now).ads (tests_of (ad_frames seeker.now.request.now.ad) 0 []) }
{
    if let Some(k) = place_of(
        &clusters.classes,
        &mut clusters.digests,
        seeker.request,
        number,
    ) {
        clusters.shared = clusters.shared.saturating_add(1);
        return clusters.classes[k].choose(
            scene,
            seeker,
            &mut clusters.known,
            &mut clusters.looks,
            meter,
        );
    }
    search_new(scene, seeker, number, clusters, meter)
}

// The same for a job that is of no class so far.
fn search_new<F: Ledger, E: Ledger, T: Ledger>(
    scene: &Scene<'_>,
    seeker: &Seeker<'_>,
    number: u64,
    clusters: &mut Clusters,
    meter: &mut Meter<'_, F, E, T>,
) -> Result<Option<usize>, OutOfMemory>
    requires index { IsIndex scene.now.index.now (rows_of (stock_in scene.now)) }
    requires stored { AreStored (stock_in scene.now) (holder_of (settings_in scene.now) (jobs_around seeker.now)) }
    requires job { option_map (λ job. job.request) (slice_get (jobs_around seeker.now) seeker.now.place) ≡ Some seeker.now.request.now }
    requires single { seeker.now.request.now.ports ≡ [] }
    requires clusters { AreClusters scene.now.moment (stock_in scene.now) (settings_in scene.now) (jobs_around seeker.now) clusters.old }
    ensures best { IfOk result (λ slot. slot
        ≡ best_slot (stock_in scene.now) (pool_in scene.now (jobs_around seeker.now)) (ad_frames seeker.now.request.now.ad) number) }
    ensures free { IfOk result (λ slot. IfSome slot (λ s. is_offered (jobs_around seeker.now) s ≡ false)) }
    ensures clusters { AreClusters scene.now.moment (stock_in scene.now) (settings_in scene.now) (jobs_around seeker.now) clusters.new }
    ensures same { IsSame meter.old meter.new }
    ensures evaluations { meter.new.tops.now
        ≤ meter.old.tops.now + 5 * open_count (pool_in scene.now (jobs_around seeker.now)) (ad_frames seeker.now.request.now.ad) }
    ensures entries { meter.new.entry.now
        ≤ meter.old.entry.now + entered_for (pool_in scene.now (jobs_around seeker.now)) (ad_frames seeker.now.request.now.ad) }
    ensures ratio { AreSmallAds (stock_in scene.now).ads → AreSmallJobs (jobs_around seeker.now) → IsPaid meter.old meter.new }
    ensures looks { meter.new.touch.now + clusters.new.looks.saved ≤ meter.old.touch.now + clusters.old.looks.saved
        + 9 * least_left (stock_in scene.now).ads (tests_of (ad_frames seeker.now.request.now.ad) 0 []) }
{
    clusters.read_names(scene, meter.touch)?;
    let slot = search_alone(
        scene,
        seeker,
        number,
        &mut clusters.known,
        &mut clusters.looks,
        meter,
    )?;
    clusters.note(scene.alloc, seeker.request, number)?;
    Ok(slot)
}
