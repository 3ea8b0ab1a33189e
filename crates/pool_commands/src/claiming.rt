// The commands that claim what is offered to a job, and that give it back.
ghost use Rattle.std.specs.Prelude.{◌≡◌, ◌≤◌, ◌+◌, ◌*◌, ℕ, List, true, map, Contains, Err, IfOk, IsTrue};
ghost use Rattle.pool_steps.specs.Spent.{IsPaid, IsSame};
ghost use Rattle.ad_store.specs.Store.{stock_of};
ghost use Rattle.claim_table.specs.Priorities.{Setting};
ghost use Rattle.claim_table.specs.Settings.{settings_of};
ghost use Rattle.pool_replies.specs.Refusals.{is_wrong_state};
ghost use Rattle.pool_replies.specs.Replies.{is_printable};
ghost use Rattle.claim_table.specs.declared.answers.ClaimFault.TheVariants as faults;
ghost use Rattle.pool_replies.specs.declared.refusal.Refusal.TheVariants as why;
ghost use Rattle.pool_replies.specs.declared.reply.Reply.TheVariants as replies;
ghost use Rattle.pool_books.specs.Books.{name_in, state_with};
ghost use Rattle.pool_books.specs.ClaimAnswers as answers;
ghost use Rattle.pool_books.specs.Claiming as steps;
ghost use Rattle.pool_books.specs.State.{State};

use ad_store::Store;
use claim_table::{ClaimFault, FreedList, JobFault, JobState, Priorities};
use pool_books::{Books, name_of, names_given};
use pool_replies::{Refusal, Reply};
use pool_steps::Meter;
use pool_text::{Names, OutOfMemory, Text};
use std::alloc::Global;
use std::convert::AsSlice;
use std::sync::ledger::Ledger;

/// `claim`: what is offered to the job is checked anew, resource by resource and by the priorities as they are now, and the job
/// has it where all of it passes. It counts in `tops` four at most for each dock of the offer that literal attributes leave
/// undecided, and in `touch` nine at most for each resource of it.
#[tactic(auto, unfolding(pool_replies::specs::Replies::is_printable, pool_replies::specs::Refusals::is_printable_refusal))]
pub fn claim<F: Ledger, E: Ledger, T: Ledger>(
    alloc: Global,
    books: &mut Books,
    priorities: &Priorities,
    job: &Text,
    moment: u64,
    meter: &mut Meter<'_, F, E, T>,
) -> Result<Reply, OutOfMemory>
    ensures step { IfOk result (λ reply. steps.claim (state_with moment (settings_of priorities.now) books.old) job.now
        ≡ (state_with moment (settings_of priorities.now) books.new, reply)) }
    ensures printable { IfOk result (λ reply. IsTrue (is_printable reply)) }
    ensures cost { (settings : List Setting)
        → meter.new.tops.now ≤ meter.old.tops.now + 4 * steps.undecided_for_claim (state_with moment settings books.old) job.now }
    ensures same { IsSame meter.old meter.new }
    ensures ratio { IsPaid meter.old meter.new }
    ensures looks { (settings : List Setting)
        → meter.new.touch.now ≤ meter.old.touch.now + 9 * steps.offered_for_claim (state_with moment settings books.old) job.now }
{
    let named = job.copy()?;
    let names = names_given(alloc, books, job.bytes())?;
    let answer = books.claim(priorities, job.bytes(), moment, meter);
    claim_reply(alloc, &books.ads.store, named, names, answer)
}

// The reply to a claim of a job, which has these resources, that is answered so.
#[tactic(auto, unfolding(pool_replies::specs::Replies::is_printable, pool_replies::specs::Refusals::is_printable_refusal))]
fn claim_reply(
    alloc: Global,
    store: &Store,
    job: Text,
    names: Names,
    answer: Result<FreedList, ClaimFault>,
) -> Result<Reply, OutOfMemory>
    requires held { (slot : ℕ) → answer ≡ Err (faults.Stale slot) → Contains (stock_of store.now).slots slot }
    requires wrong { (state : JobState) → answer ≡ Err (faults.WrongState state) → is_wrong_state state ≡ true }
    ensures step { IfOk result (λ reply. (s t : State) → answers.IsClaimAnswer (stock_of store.now) s job t answer
        → names ≡ answers.names_given job s.jobs → steps.claim s job ≡ (t, reply)) }
    ensures printable { IfOk result (λ reply. IsTrue (is_printable reply)) }
{
    match answer {
        Ok(freed) => {
            let reply = granted(alloc, job, names, &freed);
            drop(freed);
            reply
        }
        Err(ClaimFault::NoJob) => Ok(Reply::Refused(Refusal::UnknownName)),
        Err(ClaimFault::WrongState(state)) => Ok(Reply::Refused(Refusal::WrongState(state))),
        Err(ClaimFault::Stale(slot)) => stale(store, slot),
        Err(ClaimFault::OutOfMemory) => Err(OutOfMemory),
    }
}

// The reply to a claim that is granted.
#[tactic(auto, unfolding(pool_replies::specs::Replies::is_printable))]
fn granted(alloc: Global, job: Text, names: Names, freed: &FreedList) -> Result<Reply, OutOfMemory>
    ensures reply { IfOk result (λ reply. reply ≡ replies.Claimed job names (map (λ one. one.job) freed.now)) }
    ensures printable { IfOk result (λ reply. IsTrue (is_printable reply)) }
{
    let preempted = losers(alloc, freed)?;
    Ok(Reply::Claimed {
        job,
        names,
        preempted,
    })
}

// The reply to a claim that fails at the resource in a slot.
#[tactic(auto, unfolding(pool_replies::specs::Replies::is_printable, pool_replies::specs::Refusals::is_printable_refusal))]
fn stale(store: &Store, slot: usize) -> Result<Reply, OutOfMemory>
    requires { Contains (stock_of store.now).slots slot }
    ensures reply { IfOk result (λ reply. reply ≡ replies.Refused (why.Stale (name_in (stock_of store.now) slot))) }
    ensures printable { IfOk result (λ reply. IsTrue (is_printable reply)) }
{
    Ok(Reply::Refused(Refusal::Stale(name_of(store, slot)?)))
}

// The names of the jobs that lost their resources.
fn losers(alloc: Global, freed: &FreedList) -> Result<Names, OutOfMemory>
    ensures { IfOk result (λ names. names ≡ map (λ one. one.job) freed.now) }
{
    let mut names = Names::new(alloc);
    for one in freed.as_slice() {
        names.push(one.job.copy()?)?;
    }
    Ok(names)
}

/// `release`: the job gives back what is offered to it or what it has claimed.
#[tactic(auto, unfolding(pool_replies::specs::Replies::is_printable, pool_replies::specs::Refusals::is_printable_refusal))]
pub fn release(books: &mut Books, job: &Text) -> Result<Reply, OutOfMemory>
    ensures step { IfOk result (λ reply. (moment : ℕ) (priorities : List Setting)
        → steps.release (state_with moment priorities books.old) job.now ≡ (state_with moment priorities books.new, reply)) }
    ensures printable { IfOk result (λ reply. IsTrue (is_printable reply)) }
{
    let named = job.copy()?;
    match books.release(job.bytes()) {
        Ok(_) => Ok(Reply::Released(named)),
        Err(JobFault::NoJob) => Ok(Reply::Refused(Refusal::UnknownName)),
        Err(JobFault::WrongState(state)) => Ok(Reply::Refused(Refusal::WrongState(state))),
    }
}
