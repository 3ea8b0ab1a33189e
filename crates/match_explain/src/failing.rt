// Which conjuncts hold, and which is the first that doesn't.
ghost use Rattle.std.specs.Prelude.{◌≡◌, ◌≤◌, ◌+◌, ◌*◌, length, map, IfOk};
ghost use Rattle.ad_eval.specs.Small.{AreSmall};
ghost use Rattle.ad_tree.specs.Tree.{tree};
ghost use Rattle.eval_scope.specs.Shown.{world_of};
ghost use Rattle.match_explain.specs.Why as why;

use ad_eval::inner;
use ad_tree::Expr;
use ad_value::Value;
use eval_scope::World;
use pool_steps::Steps;
use pool_text::{AdPlace, OutOfMemory};
use std::alloc::Global;
use std::sync::ledger::Ledger;

/// Whether each of the conjuncts of the requirement of the frame `at` holds. It counts one in `tops` for each.
pub(crate) fn truths<F: Ledger, E: Ledger>(
    alloc: Global,
    world: &World<'_>,
    at: AdPlace,
    conjuncts: &[&Expr],
    tops: &mut Steps<F>,
    entry: &mut Steps<E>,
) -> Result<Vec<bool>, OutOfMemory>
    ensures truths { IfOk result (λ v. v.items ≡ map (λ e. why.holds (world_of world.now) at (tree e.now)) conjuncts.now) }
    ensures evaluations { tops.new ≤ tops.old + length conjuncts.now }
    ensures ratio { AreSmall (world_of world.now) → entry.new + 9216 * tops.old ≤ entry.old + 9216 * tops.new }
{
    let mut truths = Vec::new(alloc);
    for conjunct in conjuncts {
        truths.push(holds(alloc, world, at, conjunct, tops, entry)?)?;
    }
    Ok(truths)
}

/// The number of the first of the conjuncts that doesn't hold, from 1. None behind it is evaluated.
pub(crate) fn first_failing<F: Ledger, E: Ledger>(
    alloc: Global,
    world: &World<'_>,
    at: AdPlace,
    conjuncts: &[&Expr],
    tops: &mut Steps<F>,
    entry: &mut Steps<E>,
) -> Result<Option<u32>, OutOfMemory>
    ensures found { IfOk result (λ found. found
        ≡ why.first_failing (λ e. why.holds (world_of world.now) at (tree e.now)) conjuncts.now) }
    ensures evaluations { tops.new ≤ tops.old + length conjuncts.now }
    ensures ratio { AreSmall (world_of world.now) → entry.new + 9216 * tops.old ≤ entry.old + 9216 * tops.new }
{
    for i in 0..conjuncts.len() {
        if !holds(alloc, world, at, conjuncts[i], tops, entry)? {
            return Ok(Some(number(i)?));
        }
    }
    Ok(None)
}

/// The number of the first that is false, from 1.
pub(crate) fn first_false(truths: &[bool]) -> Result<Option<u32>, OutOfMemory>
    ensures { IfOk result (λ found. found ≡ why.first_failing (λ b. b) truths.now) }
{
    for i in 0..truths.len() {
        if !truths[i] {
            return Ok(Some(number(i)?));
        }
    }
    Ok(None)
}

// The number of a place, from 1. More conjuncts than 32 bits count have no room in a report.
fn number(place: usize) -> Result<u32, OutOfMemory>
    ensures { IfOk result (λ n. n ≡ place + 1) }
{
    if place >= u32::MAX as usize {
        return Err(OutOfMemory);
    }
    Ok(place as u32 + 1)
}

// Whether a conjunct of the requirement of the frame `at` holds.
fn holds<F: Ledger, E: Ledger>(
    alloc: Global,
    world: &World<'_>,
    at: AdPlace,
    conjunct: &Expr,
    tops: &mut Steps<F>,
    entry: &mut Steps<E>,
) -> Result<bool, OutOfMemory>
    ensures holds { IfOk result (λ b. b ≡ why.holds (world_of world.now) at (tree conjunct.now)) }
    ensures evaluations { tops.new ≤ tops.old + 1 }
    ensures ratio { AreSmall (world_of world.now) → entry.new + 9216 * tops.old ≤ entry.old + 9216 * tops.new }
{
    let value = inner(alloc, world, at, conjunct, tops, entry)?;
    let holds = matches!(value, Value::Boolean(true));
    drop(value);
    Ok(holds)
}
