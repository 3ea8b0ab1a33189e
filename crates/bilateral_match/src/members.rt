// Which resources are members for a job.
ghost use Rattle.std.specs.Prelude.{◌≡◌, ◌≤◌, ◌<◌, ◌+◌, ◌*◌, Option, [], length, IfOk, IfSome, Some, if◌then◌else◌};
ghost use Rattle.ad_tree.specs.Ad.{ad_frames};
ghost use Rattle.ad_tree.specs.Small.{IsSmall};
ghost use Rattle.ad_eval.specs.Dock.{rank_by};
ghost use Rattle.ad_eval.specs.Small.{AreSmall};
ghost use Rattle.eval_scope.specs.Shown.{world_of};
ghost use Rattle.eval_scope.specs.World.{attribute_count, request_side};
ghost use Rattle.dock_match.specs.declared.preemption.Preemption.{Preemption};
ghost use Rattle.dock_match.specs.Docks.{is_undecided, last_open, pair_world, rank_of_dock};
ghost use Rattle.dock_match.specs.Pool.{AreStored};
ghost use Rattle.dock_match.specs.Small.{AreSmallAds, AreSmallHolders};
ghost use Rattle.pool_steps.specs.Spent.{IsPaid, Spends};
ghost use Rattle.bilateral_match.specs.Known.{AreRanks, is_known_below, rank_expr};
ghost use Rattle.bilateral_match.specs.Scan as scan;
ghost use Rattle.bilateral_match.specs.Scenes.{pool_in, request_in, stock_in};

use crate::known::Ranking;
use crate::looks::Looks;
use crate::member::{Member, Ranks};
use crate::scene::Scene;
use ad_eval::rank;
use ad_store::Holdings;
use ad_tree::Ad;
use dock_match::{Claimant, OpenSides, Preemption, open_sides_by_plan, won_from};
use eval_scope::World;
use pool_steps::Meter;
use pool_text::OutOfMemory;
use std::alloc::Global;
use std::sync::ledger::Ledger;

/// The resource at a place, if it is a member for the job, and the job ranks it no lower than the bar, where there is one. A
/// resource below the bar isn't asked how it ranks the job, nor is its holder, and nothing is looked at where the rank is known
/// to be below. The job's rank is noted in the ranking, and what the looks come to in `looks`.
pub fn member_at<H: Holdings, F: Ledger, E: Ledger, T: Ledger>(
    scene: &Scene<'_, H>,
    place: usize,
    bar: Option<i128>,
    ranking: &mut Ranking,
    looks: &mut Looks,
    meter: &mut Meter<'_, F, E, T>,
) -> Result<Option<Member>, OutOfMemory>
    requires stored { AreStored (stock_in scene.now) (H.holding scene.now.held.now) }
    requires single { scene.now.request.now.ports ≡ [] }
    requires place { place < length (stock_in scene.now).slots }
    requires ranks { AreRanks scene.now.moment (stock_in scene.now).ads (rank_expr (request_in scene.now)) ranking.old.ranks.items }
    ensures ranks { AreRanks scene.now.moment (stock_in scene.now).ads (rank_expr (request_in scene.now)) ranking.new.ranks.items }
    ensures member { IfOk result (λ member. member ≡ scan.member_above bar
        (scan.member_at (pool_in H.is_offered H.holding scene.now) (request_in scene.now) scene.now.number place)) }
    ensures spent { Spends meter.old meter.new (scan.evaluations_for (pool_in H.is_offered H.holding scene.now) (request_in scene.now) place)
        (scan.attributes_for (pool_in H.is_offered H.holding scene.now) (request_in scene.now) place) 9 }
    ensures ratio { IsSmall (request_in scene.now) → AreSmallAds (stock_in scene.now).ads → AreSmallHolders (H.holding scene.now.held.now)
        → IsPaid meter.old meter.new }
    ensures saved { meter.new.touch.now + looks.new.saved ≤ meter.old.touch.now + looks.old.saved + 9 }
{
    let known = ranking.at(place);
    if is_known_below(bar, known) {
        looks.save(9);
        return Ok(None);
    }
    let slot = scene.store.at(place);
    if scene.held.offered(slot) {
        return Ok(None);
    }
    if !scene.store.is_live(slot, scene.moment) {
        return Ok(None);
    }
    let ad = scene.store.look(slot, meter.touch);
    looks.weigh();
    let weighed = ranks(scene, ad, bar, known, meter)?;
    ranking.note(&scene.request.ad, ad, place, weighed.rank);
    let Some(ranks) = weighed.ranks else {
        looks.save(8);
        return Ok(None);
    };
    let holder = scene.held.holder(slot);
    looks.save_unless_held(&holder);
    let claimant = Claimant {
        rank: ranks.regard,
        number: scene.number,
    };
    let won = won_from(
        scene.alloc,
        scene.store,
        scene.moment,
        holder,
        claimant,
        meter,
    );
    where_won(won, ranks, place)
}

// A resource as members are compared, where it is won.
fn where_won(
    won: Result<Option<Preemption>, OutOfMemory>,
    ranks: Ranks,
    place: usize,
) -> Result<Option<Member>, OutOfMemory>
    ensures { (w : Option Preemption) → IfOk won (λ p. p ≡ w) → IfOk result (λ member. member ≡ scan.where_won w ranks place) }
{
    let Some(preemption) = won? else {
        return Ok(None);
    };
    Ok(Some(as_member(ranks, place, preemption)))
}

// A resource as members are compared.
fn as_member(ranks: Ranks, place: usize, preemption: Preemption) -> Member
    ensures { result ≡ scan.as_member ranks place preemption }
{
    Member {
        rank: ranks.rank,
        preemption,
        regard: ranks.regard,
        place,
    }
}

// What was found of a dock: the request's rank where that was evaluated, and the ranks of both sides where the dock is true and
// the request's reaches the bar.
#[derive(Clone, Copy)]
struct Weighed {
    rank: Option<i128>,
    ranks: Option<Ranks>,
}

// What the sides rank each other, where their dock is true and the request's rank, which may be known, reaches the bar. Nothing
// is evaluated where a test decides the dock.
fn ranks<H: Holdings, F: Ledger, E: Ledger, T: Ledger>(
    scene: &Scene<'_, H>,
    ad: &Ad,
    bar: Option<i128>,
    known: Option<i128>,
    meter: &mut Meter<'_, F, E, T>,
) -> Result<Weighed, OutOfMemory>
    requires single { scene.now.request.now.ports ≡ [] }
    requires known { IfSome known (λ n. n ≡ rank_of_dock scene.now.moment (request_in scene.now) (ad_frames ad.now)) }
    ensures ranks { IfOk result (λ weighed. weighed.ranks
        ≡ scan.ranks_above bar (scan.ranks_of_dock scene.now.moment (request_in scene.now) (ad_frames ad.now))) }
    ensures rank { IfOk result (λ weighed. IfSome weighed.rank (λ n. n ≡ rank_of_dock scene.now.moment (request_in scene.now) (ad_frames ad.now))) }
    ensures spent { Spends meter.old meter.new (if is_undecided (request_in scene.now) (ad_frames ad.now) then 4 else 0)
        (if is_undecided (request_in scene.now) (ad_frames ad.now)
        then 4 * attribute_count (pair_world scene.now.moment (request_in scene.now) (ad_frames ad.now)) else 0) 0 }
    ensures ratio { IsSmall (request_in scene.now) → IsSmall (ad_frames ad.now) → IsPaid meter.old meter.new }
{
    let request = scene.request;
    let Some(sides) = open_sides_by_plan(scene.alloc, request, 0, &scene.plan, ad) else {
        return Ok(Weighed {
            rank: None,
            ranks: None,
        });
    };
    let world = World::new(scene.moment, &request.ad, &request.ports).with(ad);
    ranks_in(scene.alloc, &world, sides, bar, known, meter)
}

// What the sides of the last dock rank each other, where it is true and the request's rank reaches the bar. Tests leave these
// sides of it open.
fn ranks_in<F: Ledger, E: Ledger, T: Ledger>(
    alloc: Global,
    world: &World<'_>,
    sides: OpenSides,
    bar: Option<i128>,
    known: Option<i128>,
    meter: &mut Meter<'_, F, E, T>,
) -> Result<Weighed, OutOfMemory>
    requires docked { 0 < length (world_of world.now).docked }
    requires known { IfSome known (λ n. n ≡ rank_by (world_of world.now) (request_side (world_of world.now))) }
    requires left { last_open (world_of world.now) ≡ Some sides }
    ensures ranks { IfOk result (λ weighed. weighed.ranks ≡ scan.ranks_above bar (scan.ranks_in (world_of world.now))) }
    ensures rank { IfOk result (λ weighed. IfSome weighed.rank (λ n. n ≡ rank_by (world_of world.now) (request_side (world_of world.now)))) }
    ensures spent { Spends meter.old meter.new 4 (4 * attribute_count (world_of world.now)) 0 }
    ensures ratio { AreSmall (world_of world.now) → IsPaid meter.old meter.new }
{
    if !sides.dock(alloc, world, meter.tops, meter.entry)? {
        return Ok(Weighed {
            rank: None,
            ranks: None,
        });
    }
    let given = match known {
        Some(given) => given,
        None => rank(alloc, world, world.request_place(), meter.tops, meter.entry)?,
    };
    if !reaches(bar, given) {
        return Ok(Weighed {
            rank: Some(given),
            ranks: None,
        });
    }
    let regard = rank(
        alloc,
        world,
        world.resource_place(),
        meter.tops,
        meter.entry,
    )?;
    Ok(Weighed {
        rank: Some(given),
        ranks: Some(Ranks {
            rank: given,
            regard,
        }),
    })
}

// Whether a rank is known not to reach the bar.
fn is_known_below(bar: Option<i128>, rank: Option<i128>) -> bool
    ensures { result ≡ is_known_below bar rank }
{
    match rank {
        Some(rank) => !reaches(bar, rank),
        None => false,
    }
}

// Whether a rank is no lower than the bar, where there is one.
fn reaches(bar: Option<i128>, rank: i128) -> bool
    ensures { result ≡ scan.reaches bar rank }
{
    match bar {
        Some(bar) => rank >= bar,
        None => true,
    }
}
