// The resources that the ports of a gang may be given.
ghost use Rattle.std.specs.Prelude.{◌≡◌, ◌≤◌, ◌<◌, ◌+◌, ◌&&◌, ◌++◌, ℕ, [], length, slice_get, true, All, Contains, IfOk, IfSome, None, OnOk, Some, option_map};
ghost use Rattle.std.specs.Prelude.{if◌then◌else◌};
ghost use Rattle.std.specs.List.{cons_option};
ghost use Rattle.ad_tree.specs.Ad.{ad_frames};
ghost use Rattle.conjunct_plan.specs.Planned.{IsPlanOf};
ghost use Rattle.conjunct_plan.specs.Tests.{labels_of, tests_of};
ghost use Rattle.literal_index.specs.Shown.{IsIndex};
ghost use Rattle.ad_candidates.specs.Counts.{least_left};
ghost use Rattle.ad_candidates.specs.Rows.{rows_of};
ghost use Rattle.gang_ports.specs.Gangs.{ad_at, is_free, is_open, looks_most, open_places};
ghost use Rattle.gang_ports.specs.Scenes.{pool_in, stock_in};
ghost use Rattle.gang_ports.specs.Search.{AreResources, AreSides, HasSides, HaveSides, has_empty, is_unknown};

use crate::free_ports::is_free_port;
use crate::scene::Scene;
use crate::weighing::{Kept, Resource, Side};
use ad_candidates::candidates_at;
use ad_store::Holdings;
use ad_tree::{Ad, Request};
use conjunct_plan::SidePlan;
use dock_match::open_sides_by_plan;
use pool_steps::Steps;
use pool_text::OutOfMemory;
use std::convert::AsSlice;
use std::sync::ledger::Ledger;

/// For each port in turn the resources that it may be given. The narrowest test of a port says which ads are looked at, and
/// each of them is looked at once.
pub fn read_sides<'a, H: Holdings, T: Ledger>(
    scene: &Scene<'a, H>,
    request: &Request,
    touch: &mut Steps<T>,
) -> Result<Vec<Side<'a>>, OutOfMemory>
    requires { IsIndex scene.now.index.now (rows_of (stock_in scene.now)) }
    ensures sides { IfOk result (λ sides. AreSides (pool_in H.is_offered H.holding scene.now) (ad_frames request.now.ad) request.now.ports 0 sides.items) }
    ensures tests { IfOk result (λ sides. HaveSides (ad_frames request.now.ad) request.now.ports 0 sides.items) }
    ensures many { IfOk result (λ sides. length sides.items ≡ length request.now.ports) }
    ensures looks { touch.new ≤ touch.old + looks_most (stock_in scene.now).ads (ad_frames request.now.ad) request.now.ports }
{
    let mut sides = Vec::new(scene.alloc);
    for port in request.ports.as_slice() {
        let is_free = is_free_port(request, sides.len());
        let resources = read_resources(scene, request, port.frame, touch)?;
        sides.push(Side { is_free, resources })?;
    }
    Ok(sides)
}

/// Whether some port has no resource with which its dock may be true: then no tuple fills all ports.
#[tactic(auto, unfolding(crate::specs::Search::has_empty))]
pub(crate) fn has_empty(sides: &[Side<'_>]) -> bool
    ensures { result ≡ has_empty sides.now }
{
    sides.iter().any(|side| side.resources.is_empty())
}

// The resources that the port at a frame may be given, of which nothing is known yet.
fn read_resources<'a, H: Holdings, T: Ledger>(
    scene: &Scene<'a, H>,
    request: &Request,
    frame: u32,
    touch: &mut Steps<T>,
) -> Result<Vec<Resource<'a>>, OutOfMemory>
    requires index { IsIndex scene.now.index.now (rows_of (stock_in scene.now)) }
    requires frame { frame < length (ad_frames request.now.ad) }
    ensures resources { IfOk result (λ resources. AreResources (pool_in H.is_offered H.holding scene.now)
        (open_places (pool_in H.is_offered H.holding scene.now) (ad_frames request.now.ad) request.now.ports frame) resources.items) }
    ensures tests { IfOk result (λ resources. All (HasSides (ad_frames request.now.ad) request.now.ports frame) resources.items) }
    ensures unknown { IfOk result (λ resources. All (λ r. is_unknown r.kept ≡ true) resources.items) }
    ensures looks { touch.new ≤ touch.old
        + least_left (stock_in scene.now).ads (tests_of (ad_frames request.now.ad) frame (labels_of request.now.ports)) }
{
    let places = candidates_at(scene.alloc, scene.store, scene.index, request, frame)?;
    let plan = SidePlan::of(scene.alloc, &request.ad, frame, &request.ports)?;
    let mut resources = Vec::new(scene.alloc);
    for place in places.as_slice() {
        let found = resource_at(scene, request, frame, &plan, *place, touch);
        keep(&mut resources, found)?;
    }
    Ok(resources)
}

// The resource at a place, where it may be taken and no test decides its dock with the frame.
fn resource_at<'a, H: Holdings, T: Ledger>(
    scene: &Scene<'a, H>,
    request: &Request,
    frame: u32,
    plan: &SidePlan<'_>,
    place: usize,
    touch: &mut Steps<T>,
) -> Option<Resource<'a>>
    requires place { place < length (stock_in scene.now).slots }
    requires frame { frame < length (ad_frames request.now.ad) }
    requires planned { IsPlanOf plan.now (ad_frames request.now.ad) frame (labels_of request.now.ports) }
    ensures found { option_map (λ r. r.place) result ≡ (if is_free (pool_in H.is_offered H.holding scene.now) place
        && is_open (pool_in H.is_offered H.holding scene.now) (ad_frames request.now.ad) request.now.ports frame place
        then Some place else None) }
    ensures ad { IfSome result (λ r. ad_frames r.ad.now ≡ ad_at (pool_in H.is_offered H.holding scene.now) r.place) }
    ensures tests { IfSome result (HasSides (ad_frames request.now.ad) request.now.ports frame) }
    ensures unknown { IfSome result (λ r. is_unknown r.kept ≡ true) }
    ensures looks { touch.new ≤ touch.old + 1 }
{
    let slot = scene.store.at(place);
    if !is_free(scene, slot) {
        return None;
    }
    let ad = scene.store.look(slot, touch);
    let Some(sides) = open_sides_by_plan(scene.alloc, request, frame, plan, ad) else {
        return None;
    };
    Some(Resource {
        place,
        ad,
        sides,
        kept: Kept::Unknown,
    })
}

// Whether the resource in a slot may be taken: it is live, not offered and not claimed.
fn is_free<H: Holdings>(scene: &Scene<'_, H>, slot: usize) -> bool
    requires { Contains (stock_in scene.now).slots slot }
    ensures { (i : ℕ) → slice_get (stock_in scene.now).slots i ≡ Some slot
        → result ≡ is_free (pool_in H.is_offered H.holding scene.now) i }
{
    scene.store.is_live(slot, scene.moment)
        && !scene.held.offered(slot)
        && scene.held.holder(slot).is_none()
}

// Adds a resource, if there is one.
fn keep<'a>(
    resources: &mut Vec<Resource<'a>>,
    next: Option<Resource<'a>>,
) -> Result<(), OutOfMemory>
    ensures { OnOk result (resources.new.items ≡ resources.old.items ++ cons_option next.entry []) }
{
    if let Some(next) = next {
        resources.push(next)?;
    }
    Ok(())
}
