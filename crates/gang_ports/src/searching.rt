// The search for a gang: port by port, from the best resource on, and back where a port finds none.
ghost use Rattle.std.specs.Prelude.{◌≤◌, ◌<◌, ◌+◌, ◌*◌, ◌≡◌, ℕ, length, take, true, false, IfOk, OnOk};
ghost use Rattle.eval_scope.specs.Shown.{world_of};
ghost use Rattle.ad_eval.specs.Small.{AreSmall};
ghost use Rattle.dock_match.specs.Pool.{Pool};
ghost use Rattle.gang_ports.specs.Search.{HaveSides, IsBehind, Leaves, Outcome, Takes, choice_in, is_found, is_over, is_spent};
ghost use Rattle.gang_ports.specs.Small.{AreSmallSides};

use crate::weighing::{Side, candidates, is_spent};
use eval_scope::World;
use pool_steps::Steps;
use pool_text::OutOfMemory;
use std::alloc::Global;
use std::sync::ledger::Ledger;

/// How a search behind some places ends.
#[derive(Clone, Copy)]
pub enum Ending {
    /// The first tuple of resources for the ports that are left is added to the places.
    Found,
    /// There is none behind any places that begin with this many of these.
    NotFound(usize),
}

impl Ending {
    /// Whether a tuple is found.
    pub fn is_found(self) -> bool
        ensures { result ≡ is_found self }
    {
        matches!(self, Ending::Found)
    }

    // Whether a tuple is found, or there is none while the places stay up to this depth.
    fn is_over(self, depth: usize) -> bool
        ensures { result ≡ is_over depth self }
    {
        match self {
            Ending::Found => true,
            Ending::NotFound(many) => many <= depth,
        }
    }
}

/// Looks for resources that can be docked to the ports that are left, after those at the places before them.
///
/// Where the first of the places alone leave a free port no resource, no others are tried behind them.
///
/// A free port's resource is weighed once, and kept. Another port's resources are weighed once for each way to dock the ports
/// before it.
pub fn search<'a, F: Ledger, E: Ledger>(
    alloc: Global,
    world: &World<'a>,
    before: &mut Vec<usize>,
    sides: &mut [Side<'a>],
    tops: &mut Steps<F>,
    entry: &mut Steps<E>,
) -> Result<Ending, OutOfMemory>
    requires room { length (world_of world.now).docked + length sides.old ≤ 8 }
    requires tests { HaveSides (world_of world.now).request (world_of world.now).ports (length (world_of world.now).docked) sides.old }
    ensures outcome { IfOk result (λ ending. (pool : Pool) → IsBehind pool (world_of world.now) before.old.items sides.old
        → Outcome (choice_in pool (world_of world.now)) (length sides.old) before.old.items before.new.items ending) }
    ensures left { OnOk result ((pool : Pool) → IsBehind pool (world_of world.now) before.old.items sides.old
        → Leaves pool (world_of world.now) before.old.items sides.old tops.old tops.new sides.new) }
    ensures taken { (pool : Pool) → IsBehind pool (world_of world.now) before.old.items sides.old
        → Takes pool (world_of world.now) before.old.items sides.old tops.old entry.old tops.new entry.new }
    ensures small { OnOk result (AreSmallSides sides.old → AreSmallSides sides.new) }
    ensures tests { OnOk result (HaveSides (world_of world.now).request (world_of world.now).ports (length (world_of world.now).docked) sides.new) }
    ensures ratio { AreSmall (world_of world.now) → AreSmallSides sides.old → entry.new + 9216 * tops.old ≤ entry.old + 9216 * tops.new }
{
    if sides.is_empty() {
        return Ok(Ending::Found);
    }
    let depth = before.len();
    let tries = candidates(alloc, world, before.as_slice(), &mut sides[0], tops, entry)?;
    let others = &mut sides[1..];
    for candidate in &tries {
        let deeper = world.with(candidate.ad);
        before.push(candidate.place)?;
        let ending = search(alloc, &deeper, before, others, tops, entry)?;
        if ending.is_over(depth) {
            return Ok(ending);
        }
        before.truncate(depth);
    }
    Ok(Ending::NotFound(blamed_places(before.as_slice(), &sides[0])))
}

// How many of the places before a port, at least, leave it no resource whatever the places behind them: all, if not fewer.
fn blamed_places(before: &[usize], side: &Side<'_>) -> usize
    ensures spent { result < length before.now → is_spent (take result before.now) side.now ≡ true }
    ensures least { (many : ℕ) → many < result → is_spent (take many before.now) side.now ≡ false }
{
    for many in 0..before.len() {
        if is_spent(&before[..many], side) {
            return many;
        }
    }
    before.len()
}
