// How many resources are free.
ghost use Rattle.std.specs.Prelude.{◌≡◌, ◌≤◌, ◌^◌, count_by};
ghost use Rattle.ad_store.specs.Store.{stock_of};
ghost use Rattle.claim_table.specs.Table.{jobs_of};
ghost use Rattle.job_clusters.specs.Pools.{free_among, is_free};

use ad_store::Store;
use claim_table::ClaimTable;

// How many resources are neither offered nor claimed.
pub(crate) fn free_count(store: &Store, claims: &ClaimTable) -> u64
    ensures free { result ≡ free_among (stock_of store.now) (jobs_of claims.now) }
    ensures few { result ≤ 10 ^ 4 }
{
    let mut free = 0;
    for i in 0..store.len() {
        if is_free_slot(claims, store.at(i)) {
            free += 1;
        }
    }
    free
}

// Whether a slot is neither offered nor claimed.
fn is_free_slot(claims: &ClaimTable, slot: usize) -> bool
    ensures { result ≡ is_free (jobs_of claims.now) slot }
{
    if claims.offered_to(slot).is_some() {
        return false;
    }
    claims.claimed_by(slot).is_none()
}

// How many of these slots are neither offered nor claimed.
pub(crate) fn free_in(claims: &ClaimTable, slots: &[usize]) -> u64
    ensures { result ≡ count_by (is_free (jobs_of claims.now)) slots.now }
{
    let mut free = 0;
    for slot in slots {
        if is_free_slot(claims, *slot) {
            free += 1;
        }
    }
    free
}
