// Docks of which tests say less than whether they are true.
ghost use Rattle.std.specs.Prelude.{◌≡◌, ◌≤◌, ◌<◌, ◌+◌, ◌*◌, Some, false, length, true, IfOk, if◌then◌else◌};
ghost use Rattle.ad_tree.specs.Ad.{ad_frames};
ghost use Rattle.ad_eval.specs.Dock.{is_docked, meets_requirement};
ghost use Rattle.ad_eval.specs.Small.{AreSmall};
ghost use Rattle.conjunct_plan.specs.Planned.{IsPlanOf};
ghost use Rattle.conjunct_plan.specs.Tests.{labels_of};
ghost use Rattle.eval_scope.specs.Shown.{world_of};
ghost use Rattle.eval_scope.specs.World.{attribute_count};
ghost use Rattle.dock_match.specs.Docks.{evaluations_of_sides, last_open};
ghost use Rattle.dock_match.specs.Sides.{is_open, open_beside, open_sides};

use ad_eval::requirement;
use ad_tree::{Ad, Ports, Request};
use conjunct_plan::{SidePlan, Verdict, verdict_of};
use eval_scope::World;
use pool_steps::Steps;
use pool_text::{AdPlace, OutOfMemory};
use std::alloc::Global;
use std::sync::ledger::Ledger;

/// The sides of a dock whose requirements tests leave open. That of any other side is true.
#[derive(Clone, Copy)]
pub struct OpenSides {
    pub request: bool,
    pub resource: bool,
}

/// The sides that tests leave open, where the ad is docked to this frame of the request; none where a test of either side
/// is decided against, so that the dock isn't true. No memory is taken.
pub fn open_sides(alloc: Global, request: &Request, frame: u32, ad: &Ad) -> Option<OpenSides>
    requires { frame < length (ad_frames request.now.ad) }
    ensures { result ≡ open_sides (ad_frames request.now.ad) frame (labels_of request.now.ports) (ad_frames ad.now) }
{
    let asked = verdict_of(&request.ad, frame, &request.ports, ad, 0);
    open_beside(alloc, asked, request, frame, ad)
}

/// The same sides, by a plan of the frame of the request, which is made once for all ads. No memory is taken.
pub fn open_sides_by_plan(
    alloc: Global,
    request: &Request,
    frame: u32,
    plan: &SidePlan<'_>,
    ad: &Ad,
) -> Option<OpenSides>
    requires frame { frame < length (ad_frames request.now.ad) }
    requires planned { IsPlanOf plan.now (ad_frames request.now.ad) frame (labels_of request.now.ports) }
    ensures { result ≡ open_sides (ad_frames request.now.ad) frame (labels_of request.now.ports) (ad_frames ad.now) }
{
    open_beside(alloc, plan.verdict(ad, 0), request, frame, ad)
}

// The same sides, where tests say this of the request's side.
fn open_beside(
    alloc: Global,
    asked: Verdict,
    request: &Request,
    frame: u32,
    ad: &Ad,
) -> Option<OpenSides>
    requires { frame < length (ad_frames request.now.ad) }
    ensures { result ≡ open_beside asked (ad_frames request.now.ad) frame (ad_frames ad.now) }
{
    let asking = is_open(asked)?;
    let no_ports = Ports::new(alloc);
    let answering = is_open(verdict_of(ad, 0, &no_ports, &request.ad, frame))?;
    Some(OpenSides {
        request: asking,
        resource: answering,
    })
}

// Whether a verdict leaves its side open; none where it is against.
fn is_open(verdict: Verdict) -> Option<bool>
    ensures { result ≡ is_open verdict }
{
    match verdict {
        Verdict::Against => None,
        Verdict::For => Some(false),
        Verdict::Open => Some(true),
    }
}

impl OpenSides {
    /// Whether the last dock is true, of which tests leave these sides open: only their requirements are evaluated, the
    /// request's first, and the resource's only where that is true.
    pub fn dock<F: Ledger, E: Ledger>(
        self,
        alloc: Global,
        world: &World<'_>,
        tops: &mut Steps<F>,
        entry: &mut Steps<E>,
    ) -> Result<bool, OutOfMemory>
        requires docked { 0 < length (world_of world.now).docked }
        requires left { last_open (world_of world.now) ≡ Some self }
        ensures value { IfOk result (λ b. b ≡ is_docked (world_of world.now)) }
        ensures evaluations { tops.new ≤ tops.old + 2 }
        ensures counted { tops.new ≤ tops.old + evaluations_of_sides (world_of world.now) self }
        ensures entries { entry.new ≤ entry.old + 2 * attribute_count (world_of world.now) }
        ensures ratio { AreSmall (world_of world.now) → entry.new + 9216 * tops.old ≤ entry.old + 9216 * tops.new }
    {
        if !holds(
            self.request,
            alloc,
            world,
            world.request_place(),
            tops,
            entry,
        )? {
            return Ok(false);
        }
        holds(
            self.resource,
            alloc,
            world,
            world.resource_place(),
            tops,
            entry,
        )
    }
}

// Whether the requirement of the frame `at` is true: it is evaluated only where it is
// undecided; else it is known to be true.
fn holds<F: Ledger, E: Ledger>(
    undecided: bool,
    alloc: Global,
    world: &World<'_>,
    at: AdPlace,
    tops: &mut Steps<F>,
    entry: &mut Steps<E>,
) -> Result<bool, OutOfMemory>
    requires { undecided ≡ false → meets_requirement (world_of world.now) at ≡ true }
    ensures value { IfOk result (λ b. b ≡ meets_requirement (world_of world.now) at) }
    ensures evaluations { tops.new ≤ tops.old + 1 }
    ensures counted { tops.new ≤ tops.old + (if undecided then 1 else 0) }
    ensures entries { entry.new ≤ entry.old + attribute_count (world_of world.now) }
    ensures ratio { AreSmall (world_of world.now) → entry.new + 9216 * tops.old ≤ entry.old + 9216 * tops.new }
{
    if !undecided {
        return Ok(true);
    }
    requirement(alloc, world, at, tops, entry)
}
