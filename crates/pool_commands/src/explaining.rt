// Why a job matches the ads that it matches.
ghost use Rattle.std.specs.Prelude.{◌≡◌, ◌+◌, ◌*◌, ◌≤◌, ◌<◌, length, Some, IfOk, IsTrue};
ghost use Rattle.pool_steps.specs.Spent.{IsPaid, IsSame};
ghost use Rattle.ad_store.specs.Store.{stock_of};
ghost use Rattle.pool_replies.specs.Replies.{is_printable};
ghost use Rattle.pool_books.specs.Books.{queue_of};
ghost use Rattle.pool_books.specs.Indexed.{ads_of};
ghost use Rattle.pool_commands.specs.Explaining as steps;

use ad_store::Store;
use pool_books::Books;
use pool_replies::{Refusal, Reply};
use pool_steps::Meter;
use pool_text::{Names, OutOfMemory, Text};
use std::alloc::Global;
use std::sync::ledger::Ledger;

/// `why`: for how many ads each conjunct of the job's requirement holds, and what keeps each ad from matching. It counts in
/// `tops` one at most for each ad and conjunct of either side, and in `touch` one at most for each ad.
#[tactic(auto, unfolding(pool_replies::specs::Replies::is_printable, pool_replies::specs::Refusals::is_printable_refusal))]
pub fn explain<F: Ledger, E: Ledger, T: Ledger>(
    alloc: Global,
    books: &Books,
    moment: u64,
    job: &[u8],
    meter: &mut Meter<'_, F, E, T>,
) -> Result<Reply, OutOfMemory>
    ensures reply { IfOk result (λ reply. steps.explain moment (ads_of books.now.ads) (queue_of books.now) job.now ≡ reply) }
    ensures printable { IfOk result (λ reply. IsTrue (is_printable reply)) }
    ensures cost { meter.new.tops.now ≤ meter.old.tops.now + steps.explained_evaluations (ads_of books.now.ads) (queue_of books.now) job.now }
    ensures same { IsSame meter.old meter.new }
    ensures ratio { IsPaid meter.old meter.new }
    ensures looks { meter.new.touch.now ≤ meter.old.touch.now + length (ads_of books.now.ads) }
{
    let claims = &books.claims;
    let Some(i) = claims.number(job) else {
        return Ok(Reply::Refused(Refusal::UnknownName));
    };
    let request = claims.request(i);
    if request.ports.len() > 0 {
        return Ok(Reply::Refused(Refusal::GangJob));
    }
    let store = &books.ads.store;
    let names = names_in_order(alloc, store)?;
    let job = claims.job(i).copy()?;
    let report = match_explain::explain(
        alloc,
        store,
        request,
        moment,
        meter.tops,
        meter.entry,
        meter.touch,
    )?;
    Ok(Reply::Why { job, names, report })
}

// The names of the ads in order.
fn names_in_order(alloc: Global, store: &Store) -> Result<Names, OutOfMemory>
    ensures { IfOk result (λ names. names ≡ steps.ad_names (stock_of store.now).ads) }
{
    let mut names = Names::new(alloc);
    for i in 0..store.len() {
        names.push(store.name(store.at(i)).copy()?)?;
    }
    Ok(names)
}
