// The gang of a request.
ghost use Rattle.std.specs.Prelude.{◌≡◌, ◌≤◌, ◌<◌, ◌+◌, ◌*◌, ℕ, suc, [], All, length, map, IfOk, Some, option_map};
ghost use Rattle.ad_tree.specs.Ad.{ad_frames};
ghost use Rattle.ad_tree.specs.Small.{IsSmall};
ghost use Rattle.ad_store.specs.Store.{stock_of};
ghost use Rattle.literal_index.specs.Shown.{IsIndex};
ghost use Rattle.ad_candidates.specs.Rows.{rows_of};
ghost use Rattle.dock_match.specs.Pool.{pool_of, slot_at};
ghost use Rattle.dock_match.specs.Small.{AreSmallAds};
ghost use Rattle.eval_scope.specs.World.{port_frame};
ghost use Rattle.gang_ports.specs.Gangs.{attributes_open, docks_open, docks_weighed, gang, looks_most, open_places};
ghost use Rattle.gang_ports.specs.Ports.{ports_of};

use crate::reading::{has_empty, read_sides};
use crate::scene::Scene;
use crate::searching::search;
use ad_store::{Holdings, Store};
use ad_tree::Request;
use eval_scope::World;
use literal_index::Index;
use pool_steps::Steps;
use pool_text::{OutOfMemory, Slots};
use std::alloc::Global;
use std::sync::ledger::Ledger;

/// The slots of the gang that a request is given, one for each of its ports, `None` exactly where it may be given none. Its
/// resources are live, not offered, not claimed, and no two of them are one; and for each port the dock with its resource
/// is true where the resources up to it are docked (gangs are those of Raman, Livny and Solomon 2003). Of two such tuples
/// that first comes which, at the first port where they differ, has the resource that this port ranks higher, or at equal
/// ranks the one that stands first in the store; this order is the pool's own. The index is that of the ads of the store,
/// and the request has the ports that its ad lists.
///
/// Of the tests of a port the one that leaves the fewest ads says which ads it looks at; without one it looks at all. It
/// counts each of them once in `touch`. In `tops` and `entry` it counts what evaluations count: for each port and each way
/// to dock the ports before it, three at most for another free resource whose dock no test of either side decides. Where no
/// bare name in the request is the label of a port before it, a port counts each such resource in `tops` once, however many
/// ways there are. Where tests and what is offered or claimed leave some port no resource, it evaluates nothing. (It evaluates
/// nothing either of a resource against which a comparison with a literal of what is docked before it decides, as
/// `TARGET.Host == cpu.Host`, but no clause says so.)
pub fn first_gang<H: Holdings, F: Ledger, E: Ledger, T: Ledger>(
    alloc: Global,
    store: &Store,
    index: &Index,
    held: &H,
    request: &Request,
    moment: u64,
    tops: &mut Steps<F>,
    entry: &mut Steps<E>,
    touch: &mut Steps<T>,
) -> Result<Option<Slots>, OutOfMemory>
    requires index { IsIndex index.now (rows_of (stock_of store.now)) }
    requires ports { ports_of (ad_frames request.now.ad) ≡ Some request.now.ports }
    ensures gang { IfOk result (λ slots. slots ≡ option_map (map (slot_at (stock_of store.now)))
        (gang (pool_of moment (stock_of store.now) (H.is_offered held.now) (H.holding held.now)) (ad_frames request.now.ad) request.now.ports)) }
    ensures evaluations { tops.new ≤ tops.old
        + 3 * docks_open (pool_of moment (stock_of store.now) (H.is_offered held.now) (H.holding held.now)) (ad_frames request.now.ad) request.now.ports }
    ensures once { tops.new ≤ tops.old
        + 3 * docks_weighed (pool_of moment (stock_of store.now) (H.is_offered held.now) (H.holding held.now)) (ad_frames request.now.ad) request.now.ports }
    ensures entries { entry.new ≤ entry.old
        + attributes_open (pool_of moment (stock_of store.now) (H.is_offered held.now) (H.holding held.now)) (ad_frames request.now.ad) request.now.ports }
    ensures ratio { IsSmall (ad_frames request.now.ad) → AreSmallAds (stock_of store.now).ads → entry.new + 9216 * tops.old ≤ entry.old + 9216 * tops.new }
    ensures empty { (i : ℕ) → i < length request.now.ports
        → open_places (pool_of moment (stock_of store.now) (H.is_offered held.now) (H.holding held.now)) (ad_frames request.now.ad) request.now.ports (port_frame request.now.ports (suc i)) ≡ []
        → tops.new ≡ tops.old }
    ensures looks { touch.new ≤ touch.old + looks_most (stock_of store.now).ads (ad_frames request.now.ad) request.now.ports }
{
    let scene = Scene {
        alloc,
        store,
        index,
        held,
        moment,
    };
    let mut sides = read_sides(&scene, request, touch)?;
    if has_empty(sides.as_slice()) {
        return Ok(None);
    }
    let world = World::new(moment, &request.ad, &request.ports);
    let mut places = Vec::new(alloc);
    let searched = search(
        alloc,
        &world,
        &mut places,
        sides.as_mut_slice(),
        tops,
        entry,
    );
    drop(sides);
    let ending = searched?;
    if !ending.is_found() {
        return Ok(None);
    }
    Ok(Some(slots_at(alloc, store, places.as_slice())?))
}

// The slots of the ads at places.
fn slots_at(alloc: Global, store: &Store, places: &[usize]) -> Result<Slots, OutOfMemory>
    requires { All (λ place. place < length (stock_of store.now).slots) places.now }
    ensures { IfOk result (λ slots. slots ≡ map (slot_at (stock_of store.now)) places.now) }
{
    let mut slots = Slots::new(alloc);
    for place in places {
        slots.push(store.at(*place))?;
    }
    Ok(slots)
}
