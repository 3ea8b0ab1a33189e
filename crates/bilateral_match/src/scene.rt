// What stays as it is through a search.
ghost use Rattle.ad_tree.specs.Ad.{ad_frames};
ghost use Rattle.conjunct_plan.specs.Planned.{IsPlanOf};
ghost use Rattle.conjunct_plan.specs.Tests.{labels_of};

use ad_store::Store;
use ad_tree::Request;
use conjunct_plan::SidePlan;
use literal_index::Index;
use std::alloc::Global;

/// The job's request with the plan of its side, its user's number, the resources, their index, what is offered and claimed of
/// them, and the moment: what stays as it is through a search for a job.
#[derive(Drop)]
pub struct Scene<'a, H> {
    pub alloc: Global,
    pub store: &'a Store,
    pub index: &'a Index,
    pub held: &'a H,
    pub request: &'a Request,
    pub plan: SidePlan<'a>,
    pub number: u64,
    pub moment: u64,
    pub ghost planned: { IsPlanOf plan (ad_frames request.now.ad) 0 (labels_of request.now.ports) },
}

/// The request with the plan of its side, the ads, and the moment: what stays as it is through a query.
#[derive(Drop)]
pub struct QueryScene<'a> {
    pub alloc: Global,
    pub store: &'a Store,
    pub request: &'a Request,
    pub plan: SidePlan<'a>,
    pub moment: u64,
    pub ghost planned: { IsPlanOf plan (ad_frames request.now.ad) 0 (labels_of request.now.ports) },
}
