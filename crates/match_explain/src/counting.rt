// For how many ads conjuncts hold.
ghost use Rattle.std.specs.Prelude.{◌≡◌, ◌+◌, ◌<◌, ◌-◌, ◌^◌, ℕ, get_or, length, map, IfOk, if◌then◌else◌};
ghost use Rattle.match_explain.specs.Counted.{counted};

use ad_tree::Expr;
use pool_text::OutOfMemory;
use std::alloc::Global;

/// A count of 0 for each conjunct.
pub(crate) fn zeros(alloc: Global, conjuncts: &[&Expr]) -> Result<Vec<u64>, OutOfMemory>
    ensures { IfOk result (λ counts. counts.items ≡ map (λ e. 0) conjuncts.now) }
{
    let mut counts = Vec::with_capacity(alloc, conjuncts.len())?;
    for _conjunct in conjuncts {
        counts.push(0)?;
    }
    Ok(counts)
}

/// Counts one more for each conjunct that holds.
pub(crate) fn count(counts: &mut [u64], truths: &[bool])
    requires beside { length counts.old ≡ length truths.now }
    requires room { (k : ℕ) → get_or counts.old k 0 < 2 ^ 64 - 1 }
    ensures { counts.new ≡ counted truths.now counts.old }
{
    for i in 0..truths.len() {
        counts[i] = one_more(counts[i], truths[i]);
    }
}

// The count with one more where the conjunct holds.
fn one_more(count: u64, holds: bool) -> u64
    requires { count < 2 ^ 64 - 1 }
    ensures { result ≡ (if holds then count + 1 else count) }
{
    if holds { count + 1 } else { count }
}
