// What the docks of a port with single resources are worth.
ghost use Rattle.std.specs.Prelude.{◌≡◌, ◌≤◌, ◌<◌, ◌+◌, ◌*◌, ◌||◌, [], All, Some, length, map, option_map, sum_by, IfOk, OnOk, ◌++◌};
ghost use Rattle.std.specs.List.{cons_option, filter_map, list_all};
ghost use Rattle.std.specs.List.Sorted.{IsPermutation, IsSorted};
ghost use Rattle.ad_tree.specs.Ad.{ad_frames};
ghost use Rattle.ad_tree.specs.Small.{IsSmall};
ghost use Rattle.eval_scope.specs.Shown.{world_of};
ghost use Rattle.eval_scope.specs.World.{attribute_count, with_docked};
ghost use Rattle.ad_eval.specs.Small.{AreSmall};
ghost use Rattle.dock_match.specs.Docks.{last_open};
ghost use Rattle.gang_ports.specs.Choice.{is_among};
ghost use Rattle.gang_ports.specs.Scenes.{world_behind};
ghost use Rattle.gang_ports.specs.Search.{HasSidesIn, attributes_of, candidate_in, candidate_order, evaluations_in, forgotten, is_spent, is_undocked};
ghost use Rattle.gang_ports.specs.Search.{remembered, weighed_in, worth};
ghost use Rattle.gang_ports.specs.Small.{AreSmallResources};

use crate::prefix::Prefix;
use ad_eval::rank;
use ad_tree::Ad;
use dock_match::{OpenSides, is_ruled_out, late_tests};
use eval_scope::World;
use pool_steps::Steps;
use pool_text::OutOfMemory;
use std::alloc::Global;
use std::sync::ledger::Ledger;

/// What is known of a resource at a port: nothing, or that it was weighed, and the rank that the port gives it where the dock
/// is true.
#[derive(Clone, Copy)]
pub enum Kept {
    Unknown,
    Weighed(Option<i128>),
}

/// A resource that a port may be given: its place in the order of the store, counted from 0, its ad, the sides of its dock
/// with the port that tests leave open, and what is known of it.
#[derive(Clone, Copy)]
pub struct Resource<'a> {
    pub place: usize,
    pub ad: &'a Ad,
    pub sides: OpenSides,
    pub kept: Kept,
}

/// What a port asks among: the resources that it may be given. What they are worth to a free port is the same behind all
/// prefixes.
#[derive(Drop)]
pub struct Side<'a> {
    pub is_free: bool,
    pub resources: Vec<Resource<'a>>,
}

/// A resource whose dock with a port is true, with the rank that the port gives it.
#[derive(Clone, Copy)]
pub struct Candidate<'a> {
    pub place: usize,
    pub rank: i128,
    pub ad: &'a Ad,
}

/// The resources that dock with the port after those at the places before it, by its rank falling, and at equal ranks by
/// place. What a resource is worth to a free port is kept, and not weighed again.
pub fn candidates<'a, F: Ledger, E: Ledger>(
    alloc: Global,
    world: &World<'a>,
    before: &[usize],
    side: &mut Side<'a>,
    tops: &mut Steps<F>,
    entry: &mut Steps<E>,
) -> Result<Vec<Candidate<'a>>, OutOfMemory>
    requires room { length (world_of world.now).docked < 8 }
    requires tests { All (HasSidesIn (world_of world.now)) side.old.resources.items }
    ensures all { IfOk result (λ tries. IsPermutation (filter_map (candidate_in (world_of world.now) before.now)
        (remembered side.old.is_free side.old.resources.items)) tries.items) }
    ensures ordered { IfOk result (λ tries. IsSorted candidate_order tries.items) }
    ensures free { side.new.is_free ≡ side.old.is_free }
    ensures kept { OnOk result (side.new.resources.items
        ≡ map (weighed_in (world_of world.now) before.now) (remembered side.old.is_free side.old.resources.items)) }
    ensures evaluations { tops.new ≤ tops.old + sum_by (evaluations_in before.now) (remembered side.old.is_free side.old.resources.items) }
    ensures entries { entry.new ≤ entry.old + sum_by (attributes_of (world_of world.now) before.now) (remembered side.old.is_free side.old.resources.items) }
    ensures ratio { AreSmall (world_of world.now) → AreSmallResources side.old.resources.items → entry.new + 9216 * tops.old ≤ entry.old + 9216 * tops.new }
{
    let late = late_tests(alloc, world)?;
    let prefix = Prefix {
        world,
        before,
        late,
    };
    let resources = side.resources.as_mut_slice();
    remember(side.is_free, resources);
    let mut tries = weigh_all(alloc, &prefix, resources, tops, entry)?;
    arrange(&mut tries);
    Ok(tries)
}

/// Whether the port is free and has no resource behind these places: each is docked at one of them, or weighed and doesn't
/// dock.
pub fn is_spent(before: &[usize], side: &Side<'_>) -> bool
    ensures { result ≡ is_spent before.now side.now }
{
    side.is_free && are_spent(before, side.resources.as_slice())
}

// Whether each of the resources is docked at one of the places, or weighed and doesn't dock.
fn are_spent(before: &[usize], resources: &[Resource<'_>]) -> bool
    ensures { result ≡ list_all (λ r. is_undocked r.kept || is_among before.now r.place) resources.now }
{
    resources.iter().all(|resource| is_undocked(resource.kept) || is_among(before, resource.place))
}

// Whether a resource is weighed and doesn't dock.
fn is_undocked(kept: Kept) -> bool
    ensures { result ≡ is_undocked kept }
{
    matches!(kept, Kept::Weighed(None))
}

// Forgets what is known of resources, unless they are those of a free port.
fn remember(is_free: bool, resources: &mut [Resource<'_>])
    ensures { resources.new ≡ remembered is_free resources.old }
{
    if !is_free {
        forget(resources);
    }
}

// Forgets what is known of resources.
fn forget(resources: &mut [Resource<'_>])
    ensures { resources.new ≡ map forgotten resources.old }
{
    for resource in resources.iter_mut() {
        resource.kept = Kept::Unknown;
    }
}

// Puts candidates in order: by rank falling, and at equal ranks by place.
fn arrange(tries: &mut Vec<Candidate<'_>>)
    ensures all { IsPermutation tries.old.items tries.new.items }
    ensures ordered { IsSorted candidate_order tries.new.items }
{
    tries.sort_unstable_by(|a, b| b.rank.cmp(&a.rank).then(a.place.cmp(&b.place)));
}

// The resources that dock, one after another. Those of which nothing is known are weighed, and what they are worth is kept.
fn weigh_all<'a, F: Ledger, E: Ledger>(
    alloc: Global,
    prefix: &Prefix<'_, 'a>,
    resources: &mut [Resource<'a>],
    tops: &mut Steps<F>,
    entry: &mut Steps<E>,
) -> Result<Vec<Candidate<'a>>, OutOfMemory>
    requires room { length (world_behind prefix.now).docked < 8 }
    requires tests { All (HasSidesIn (world_behind prefix.now)) resources.old }
    ensures tries { IfOk result (λ tries. tries.items ≡ filter_map (candidate_in (world_behind prefix.now) prefix.now.before.now) resources.old) }
    ensures kept { OnOk result (resources.new ≡ map (weighed_in (world_behind prefix.now) prefix.now.before.now) resources.old) }
    ensures evaluations { tops.new ≤ tops.old + sum_by (evaluations_in prefix.now.before.now) resources.old }
    ensures entries { entry.new ≤ entry.old + sum_by (attributes_of (world_behind prefix.now) prefix.now.before.now) resources.old }
    ensures ratio { AreSmall (world_behind prefix.now) → AreSmallResources resources.old → entry.new + 9216 * tops.old ≤ entry.old + 9216 * tops.new }
{
    let mut tries = Vec::new(alloc);
    for resource in resources.iter_mut() {
        let found = weigh(alloc, prefix, resource, tops, entry)?;
        keep(&mut tries, found)?;
    }
    Ok(tries)
}

// The candidate that a resource is, if it docks. One that is docked already isn't weighed, and no other is weighed again.
fn weigh<'a, F: Ledger, E: Ledger>(
    alloc: Global,
    prefix: &Prefix<'_, 'a>,
    resource: &mut Resource<'a>,
    tops: &mut Steps<F>,
    entry: &mut Steps<E>,
) -> Result<Option<Candidate<'a>>, OutOfMemory>
    requires room { length (world_behind prefix.now).docked < 8 }
    requires tests { HasSidesIn (world_behind prefix.now) resource.old }
    ensures found { IfOk result (λ found. found ≡ candidate_in (world_behind prefix.now) prefix.now.before.now resource.old) }
    ensures kept { OnOk result (resource.new ≡ weighed_in (world_behind prefix.now) prefix.now.before.now resource.old) }
    ensures evaluations { tops.new ≤ tops.old + evaluations_in prefix.now.before.now resource.old }
    ensures entries { entry.new ≤ entry.old + attributes_of (world_behind prefix.now) prefix.now.before.now resource.old }
    ensures ratio { AreSmall (world_behind prefix.now) → IsSmall (ad_frames resource.old.ad.now) → entry.new + 9216 * tops.old ≤ entry.old + 9216 * tops.new }
{
    if is_among(prefix.before, resource.place) {
        return Ok(None);
    }
    let rank = match resource.kept {
        Kept::Weighed(rank) => rank,
        Kept::Unknown => rank_behind(alloc, prefix, resource, tops, entry)?,
    };
    resource.kept = Kept::Weighed(rank);
    Ok(ranked(resource, rank))
}

// The rank that the port gives a resource that isn't docked yet, where the dock is true. Nothing is evaluated where a test by
// what is docked decides against it.
fn rank_behind<'a, F: Ledger, E: Ledger>(
    alloc: Global,
    prefix: &Prefix<'_, 'a>,
    resource: &Resource<'a>,
    tops: &mut Steps<F>,
    entry: &mut Steps<E>,
) -> Result<Option<i128>, OutOfMemory>
    requires room { length (world_behind prefix.now).docked < 8 }
    requires tests { HasSidesIn (world_behind prefix.now) resource.now }
    ensures rank { IfOk result (λ rank. rank ≡ worth (with_docked (world_behind prefix.now) (ad_frames resource.now.ad.now))) }
    ensures evaluations { tops.new ≤ tops.old + 3 }
    ensures entries { entry.new ≤ entry.old + 3 * attribute_count (with_docked (world_behind prefix.now) (ad_frames resource.now.ad.now)) }
    ensures ratio { AreSmall (world_behind prefix.now) → IsSmall (ad_frames resource.now.ad.now) → entry.new + 9216 * tops.old ≤ entry.old + 9216 * tops.new }
{
    if is_ruled_out(&prefix.late, resource.ad) {
        return Ok(None);
    }
    let world = prefix.world.with(resource.ad);
    rank_where_docked(alloc, &world, resource.sides, tops, entry)
}

// The candidate that a resource is at a rank, if it has one.
fn ranked<'a>(resource: &Resource<'a>, rank: Option<i128>) -> Option<Candidate<'a>>
    ensures { result ≡ option_map (λ rank. record { place = resource.now.place; rank = rank; ad = resource.now.ad }) rank }
{
    let rank = rank?;
    Some(Candidate {
        place: resource.place,
        rank,
        ad: resource.ad,
    })
}

// Whether one of the places is this place.
fn is_among(places: &[usize], place: usize) -> bool
    ensures { result ≡ is_among places.now place }
{
    places.iter().any(|other| *other == place)
}

// The rank that the request's side of the last dock gives, where the dock is true, of which tests leave these sides open.
fn rank_where_docked<F: Ledger, E: Ledger>(
    alloc: Global,
    world: &World<'_>,
    sides: OpenSides,
    tops: &mut Steps<F>,
    entry: &mut Steps<E>,
) -> Result<Option<i128>, OutOfMemory>
    requires docked { 0 < length (world_of world.now).docked }
    requires tests { last_open (world_of world.now) ≡ Some sides }
    ensures rank { IfOk result (λ rank. rank ≡ worth (world_of world.now)) }
    ensures evaluations { tops.new ≤ tops.old + 3 }
    ensures entries { entry.new ≤ entry.old + 3 * attribute_count (world_of world.now) }
    ensures ratio { AreSmall (world_of world.now) → entry.new + 9216 * tops.old ≤ entry.old + 9216 * tops.new }
{
    if !sides.dock(alloc, world, tops, entry)? {
        return Ok(None);
    }
    Ok(Some(rank(alloc, world, world.request_place(), tops, entry)?))
}

// Adds a candidate, if there is one.
fn keep<'a>(tries: &mut Vec<Candidate<'a>>, next: Option<Candidate<'a>>) -> Result<(), OutOfMemory>
    ensures { OnOk result (tries.new.items ≡ tries.old.items ++ cons_option next.entry []) }
{
    if let Some(next) = next {
        tries.push(next)?;
    }
    Ok(())
}
