// What a query makes of single ads.
ghost use Rattle.std.specs.Prelude.{◌≡◌, ◌≤◌, ◌<◌, ◌+◌, ◌*◌, [], Some, length, slice_get, sum_by, All, IfOk, OnOk, ◌++◌};
ghost use Rattle.std.specs.List.{cons_option, filter_map};
ghost use Rattle.ad_tree.specs.Ad.{ad_frames};
ghost use Rattle.ad_tree.specs.Small.{IsSmall};
ghost use Rattle.ad_store.specs.Store.{stock_of};
ghost use Rattle.ad_eval.specs.Small.{AreSmall};
ghost use Rattle.eval_scope.specs.Shown.{world_of};
ghost use Rattle.eval_scope.specs.World.{attribute_count};
ghost use Rattle.dock_match.specs.Docks as docks;
ghost use Rattle.dock_match.specs.Small.{AreSmallAds};
ghost use Rattle.pool_steps.specs.Spent.{IsPaid, Spends};
ghost use Rattle.bilateral_match.specs.Counts.{attributes_most, evaluations_most};
ghost use Rattle.bilateral_match.specs.Scan.{attributes_at, evaluations_at, match_at};
ghost use Rattle.bilateral_match.specs.Scenes.{ads_in, asked_in};

use crate::hit::Match;
use crate::scene::QueryScene;
use ad_eval::rank;
use ad_tree::Ad;
use dock_match::{OpenSides, open_sides_by_plan};
use eval_scope::World;
use pool_steps::{Meter, Steps};
use pool_text::{OutOfMemory, Slots};
use std::alloc::Global;
use std::convert::AsSlice;
use std::sync::ledger::Ledger;

/// The rank that the request gives the ad, where their dock is true. Nothing is evaluated where a test of either side is
/// decided against, since then it isn't.
fn ranked<F: Ledger, E: Ledger>(
    scene: &QueryScene<'_>,
    ad: &Ad,
    tops: &mut Steps<F>,
    entry: &mut Steps<E>,
) -> Result<Option<i128>, OutOfMemory>
    requires { scene.now.request.now.ports ≡ [] }
    ensures rank { IfOk result (λ rank. rank ≡ docks.ranked scene.now.moment (asked_in scene.now) (ad_frames ad.now)) }
    ensures evaluations { tops.new ≤ tops.old + evaluations_most (asked_in scene.now) (ad_frames ad.now) }
    ensures entries { entry.new ≤ entry.old + attributes_most scene.now.moment (asked_in scene.now) (ad_frames ad.now) }
    ensures ratio { IsSmall (asked_in scene.now) → IsSmall (ad_frames ad.now) → entry.new + 9216 * tops.old ≤ entry.old + 9216 * tops.new }
{
    let request = scene.request;
    let Some(sides) = open_sides_by_plan(scene.alloc, request, 0, &scene.plan, ad) else {
        return Ok(None);
    };
    let world = World::new(scene.moment, &request.ad, &request.ports).with(ad);
    ranked_in(scene.alloc, &world, sides, tops, entry)
}

// The rank that the request gives the ad that was docked last, where their dock is true, of which tests leave these sides
// open.
fn ranked_in<F: Ledger, E: Ledger>(
    alloc: Global,
    world: &World<'_>,
    sides: OpenSides,
    tops: &mut Steps<F>,
    entry: &mut Steps<E>,
) -> Result<Option<i128>, OutOfMemory>
    requires docked { 0 < length (world_of world.now).docked }
    requires left { docks.last_open (world_of world.now) ≡ Some sides }
    ensures rank { IfOk result (λ rank. rank ≡ docks.ranked_in (world_of world.now)) }
    ensures evaluations { tops.new ≤ tops.old + 3 }
    ensures entries { entry.new ≤ entry.old + 3 * attribute_count (world_of world.now) }
    ensures ratio { AreSmall (world_of world.now) → entry.new + 9216 * tops.old ≤ entry.old + 9216 * tops.new }
{
    if !sides.dock(alloc, world, tops, entry)? {
        return Ok(None);
    }
    Ok(Some(rank(alloc, world, world.request_place(), tops, entry)?))
}

// The match with the ad at a place, if it docks. It counts one in `touch`.
fn weigh<F: Ledger, E: Ledger, T: Ledger>(
    scene: &QueryScene<'_>,
    place: usize,
    meter: &mut Meter<'_, F, E, T>,
) -> Result<Option<Match>, OutOfMemory>
    requires single { scene.now.request.now.ports ≡ [] }
    requires held { place < length (stock_of scene.now.store.now).slots }
    ensures found { IfOk result (λ found. found ≡ match_at scene.now.moment (asked_in scene.now) (ads_in scene.now) place) }
    ensures spent { Spends meter.old meter.new (evaluations_at (asked_in scene.now) (ads_in scene.now) place)
        (attributes_at scene.now.moment (asked_in scene.now) (ads_in scene.now) place) 1 }
    ensures ratio { IsSmall (asked_in scene.now) → AreSmallAds (ads_in scene.now) → IsPaid meter.old meter.new }
    ensures looks { meter.new.touch.now ≡ meter.old.touch.now + 1 }
{
    let ad = scene.store.look(scene.store.at(place), meter.touch);
    let Some(rank) = ranked(scene, ad, meter.tops, meter.entry)? else {
        return Ok(None);
    };
    Ok(Some(Match { place, rank }))
}

/// The matches with the ads at places, one after another.
pub fn matches_at<F: Ledger, E: Ledger, T: Ledger>(
    scene: &QueryScene<'_>,
    places: &Slots,
    meter: &mut Meter<'_, F, E, T>,
) -> Result<Vec<Match>, OutOfMemory>
    requires single { scene.now.request.now.ports ≡ [] }
    requires held { All (λ place. place < length (stock_of scene.now.store.now).slots) places.now }
    ensures found { IfOk result (λ found. found.items
        ≡ filter_map (match_at scene.now.moment (asked_in scene.now) (ads_in scene.now)) places.now) }
    ensures spent { Spends meter.old meter.new (sum_by (evaluations_at (asked_in scene.now) (ads_in scene.now)) places.now)
        (sum_by (attributes_at scene.now.moment (asked_in scene.now) (ads_in scene.now)) places.now) (length places.now) }
    ensures ratio { IsSmall (asked_in scene.now) → AreSmallAds (ads_in scene.now) → IsPaid meter.old meter.new }
{
    let mut found = Vec::new(scene.alloc);
    for place in places.as_slice() {
        let weighed = weigh(scene, *place, meter)?;
        keep(&mut found, weighed)?;
    }
    Ok(found)
}

// Adds a match, if there is one.
fn keep(found: &mut Vec<Match>, next: Option<Match>) -> Result<(), OutOfMemory>
    ensures { OnOk result (found.new.items ≡ found.old.items ++ cons_option next []) }
{
    if let Some(next) = next {
        found.push(next)?;
    }
    Ok(())
}
