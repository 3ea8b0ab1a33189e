// What keeps an ad from matching.
ghost use Rattle.std.specs.Prelude.{◌≡◌, ◌≤◌, ◌<◌, ◌+◌, ◌*◌, ◌^◌, ◌-◌, ℕ, [], get_or, length, map, IfOk, None, OnOk};
ghost use Rattle.ad_eval.specs.Small.{AreSmall};
ghost use Rattle.ad_tree.specs.Ad.{ad_frames};
ghost use Rattle.ad_tree.specs.Small.{IsSmall};
ghost use Rattle.ad_tree.specs.Tree.{tree};
ghost use Rattle.conjunct_plan.specs.Tests.{conjuncts_at, requirement_expr};
ghost use Rattle.eval_scope.specs.Shown.{world_of};
ghost use Rattle.eval_scope.specs.World.{frames_of_ad, resource_side};
ghost use Rattle.match_explain.specs.Counted.{against, counted, evaluations_for};
ghost use Rattle.match_explain.specs.Why as why;

use crate::Verdict;
use crate::counting::count;
use crate::failing::{first_failing, first_false, truths};
use ad_tree::{Ad, Expr, Request};
use conjunct_plan::{conjuncts_of, requirement};
use eval_scope::World;
use pool_steps::Steps;
use pool_text::OutOfMemory;
use std::alloc::Global;
use std::sync::ledger::Ledger;

/// A request that is explained at a moment, with the conjuncts of its requirement.
#[derive(Drop)]
pub(crate) struct Question<'a> {
    pub(crate) alloc: Global,
    pub(crate) request: &'a Request,
    pub(crate) conjuncts: Vec<&'a Expr>,
    pub(crate) moment: u64,
}

/// The conjuncts of the requirement of an ad's root, none where it has no requirement.
pub(crate) fn conjuncts_in<'a>(alloc: Global, ad: &'a Ad) -> Result<Vec<&'a Expr>, OutOfMemory>
    ensures { IfOk result (λ found. map (λ e. tree e.now) found.items ≡ conjuncts_at (ad_frames ad.now) 0) }
{
    match requirement(ad, 0) {
        Some(expr) => conjuncts_of(alloc, expr),
        None => Ok(Vec::new(alloc)),
    }
}

/// The verdict on an ad; each conjunct of the request that holds for it is counted in `counts`. It counts in `tops` one at
/// most for each conjunct of either side.
pub(crate) fn judge<F: Ledger, E: Ledger>(
    question: &Question<'_>,
    ad: &Ad,
    counts: &mut [u64],
    tops: &mut Steps<F>,
    entry: &mut Steps<E>,
) -> Result<Verdict, OutOfMemory>
    requires single { question.now.request.now.ports ≡ [] }
    requires gathered { map (λ e. tree e.now) question.now.conjuncts.items ≡ conjuncts_at (ad_frames question.now.request.now.ad) 0 }
    requires beside { length counts.old ≡ length question.now.conjuncts.items }
    requires room { (k : ℕ) → get_or counts.old k 0 < 2 ^ 64 - 1 }
    ensures verdict { IfOk result (λ v. v
        ≡ why.verdict (why.docked_to question.now.moment (ad_frames question.now.request.now.ad) (ad_frames ad.now))) }
    ensures counts { let request = ad_frames question.now.request.now.ad in
        OnOk result (counts.new ≡ counted (map (why.holds_for question.now.moment request (ad_frames ad.now)) (conjuncts_at request 0)) counts.old) }
    ensures evaluations { tops.new ≤ tops.old + evaluations_for (ad_frames question.now.request.now.ad) (ad_frames ad.now) }
    ensures ratio { IsSmall (ad_frames question.now.request.now.ad) → IsSmall (ad_frames ad.now) → entry.new + 9216 * tops.old ≤ entry.old + 9216 * tops.new }
{
    let alloc = question.alloc;
    let request = question.request;
    let world = World::new(question.moment, &request.ad, &request.ports).with(ad);
    let held = truths(
        alloc,
        &world,
        world.request_place(),
        &question.conjuncts,
        tops,
        entry,
    )?;
    count(counts, &held);
    if let Some(j) = request_failing(&request.ad, &held)? {
        return Ok(Verdict::Request(j));
    }
    let failing = resource_failing(alloc, &world, ad, tops, entry)?;
    Ok(resource_verdict(failing))
}

// By which conjunct a request declines, whose conjuncts hold where these say so.
fn request_failing(ad: &Ad, held: &[bool]) -> Result<Option<u32>, OutOfMemory>
    ensures { IfOk result (λ found. found ≡ against (requirement_expr (ad_frames ad.now) 0) (why.first_failing (λ b. b) held.now)) }
{
    if requirement(ad, 0).is_none() {
        return Ok(Some(0));
    }
    first_false(held)
}

// By which conjunct the ad that was docked last declines.
fn resource_failing<F: Ledger, E: Ledger>(
    alloc: Global,
    world: &World<'_>,
    ad: &Ad,
    tops: &mut Steps<F>,
    entry: &mut Steps<E>,
) -> Result<Option<u32>, OutOfMemory>
    requires { frames_of_ad (world_of world.now) (resource_side (world_of world.now)).ad ≡ ad_frames ad.now }
    ensures found { IfOk result (λ found. found ≡ why.failing (world_of world.now) (resource_side (world_of world.now))) }
    ensures evaluations { tops.new ≤ tops.old + length (conjuncts_at (ad_frames ad.now) 0) }
    ensures ratio { AreSmall (world_of world.now) → entry.new + 9216 * tops.old ≤ entry.old + 9216 * tops.new }
{
    let Some(expr) = requirement(ad, 0) else {
        return Ok(Some(0));
    };
    let conjuncts = conjuncts_of(alloc, expr)?;
    first_failing(
        alloc,
        world,
        world.resource_place(),
        &conjuncts,
        tops,
        entry,
    )
}

// The verdict where the request doesn't decline.
fn resource_verdict(failing: Option<u32>) -> Verdict
    ensures { result ≡ why.verdict_by None failing }
{
    match failing {
        Some(j) => Verdict::Resource(j),
        None => Verdict::Accepted,
    }
}
