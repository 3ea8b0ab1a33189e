// The pool and its steps.
ghost use Rattle.std.specs.Prelude.{◌≡◌, ◌+◌, ◌*◌, ◌++◌, ◌≤◌, filter, true, false, IfOk, IsErr, IsTrue, OnErr, OnOk};
ghost use Rattle.std.specs.List.{AllZip};
ghost use Rattle.pool_steps.specs.Spent.{IsPaid, IsSame};
ghost use Rattle.ad_store.specs.Store.{stock_of};
ghost use Rattle.ad_candidates.specs.Rows.{rows_of};
ghost use Rattle.literal_index.specs.Shown.{IsIndex};
ghost use Rattle.notice_desk.specs.Desk.{leaves_with, without};
ghost use Rattle.pool_script.specs.Form.{is_within_form};
ghost use Rattle.pool_replies.specs.Replies.{is_printable};
ghost use Rattle.pool_replies.specs.declared.refusal.Refusal.TheVariants as why;
ghost use Rattle.pool_books.specs.State.{State, opening};
ghost use Rattle.pool_state.specs.Apart.{AreGivenApart};
ghost use Rattle.pool_state.specs.Changes.{is_search};
ghost use Rattle.pool_state.specs.Heard as rules;
ghost use Rattle.pool_state.specs.Heard.{heard, kept_by, off_by, step_heard};
ghost use Rattle.pool_state.specs.Notices.{notices};
ghost use Rattle.pool_state.specs.Posting.{ArePosted, RowAfter, desk_of, posts_of_all};
ghost use Rattle.pool_state.specs.Step as steps;

use crate::losses::{granted, stale};
use crate::notices::tell;
use negotiator::Priorities;
use notice_desk::Notices;
use pool_books::Books;
use pool_commands::{
    Advertisement, advertise, claim, classify, eval, eval_in, explain, gang, jobs, list, negotiate,
    query, release, remove, set_priority, show, show_job, submit, users, withdraw,
};
use pool_replies::{Refusal, Reply};
use pool_script::Command;
use pool_steps::{Meter, Steps};
use pool_text::{OutOfMemory, Text};
use std::alloc::Global;
use std::sync::ledger::Ledger;

/// A pool. Where a step answers `OutOfMemory`, the pool is spent: each later step answers that, and does nothing.
#[derive(Drop)]
pub struct Pool {
    alloc: Global,
    moment: u64,
    books: Books,
    priorities: Priorities,
    spent: bool,
}

impl Pool {
    ghost use Rattle.pool_state.specs.Pool.{is_spent, state_of};

    /// The pool at moment 0, with no ads, jobs and priorities.
    pub fn new(alloc: Global) -> Pool
        ensures state { state_of result ≡ opening }
        ensures spent { is_spent result ≡ false }
    {
        Pool::with_seed(alloc, 0)
    }

    /// The same, with this seed for the hashes of the names in ads: whoever writes ads and doesn't know the seed can't choose names
    /// that meet in a table.
    #[tactic(auto, unfolding(crate::specs::Pool::state_of, crate::specs::Pool::is_spent))]
    pub fn with_seed(alloc: Global, seed: u64) -> Pool
        ensures state { state_of result ≡ opening }
        ensures spent { is_spent result ≡ false }
    {
        Pool {
            alloc,
            moment: 0,
            books: Books::new(alloc, seed),
            priorities: Priorities::new(alloc),
            spent: false,
        }
    }

    /// Runs a command and posts its notices to a desk, whose names listen; `unlisten` takes one of them off, with its box as it is. A
    /// box that fails leaves the desk before the next post, with all others that are marked, and changes neither the reply nor the
    /// state; no box leaves otherwise. Where memory is wanting nothing is posted, and the pool is spent: a further step answers
    /// `OutOfMemory` and changes nothing, neither the pool nor the desk nor a counter.
    ///
    /// It counts in `tops` the whole evaluations, one at most for `eval` and `evalin`, for `why` one at most for each ad and
    /// conjunct of either side, and for any other command five at most for each dock that it meets and that literal attributes
    /// leave undecided (three for `gang`), in `entry` the attributes that they enter, and in `touch` the ads of the store that
    /// are looked into.
    #[tactic(auto, unfolding(crate::specs::Pool::state_of, crate::specs::Pool::is_spent))]
    pub fn step<'a, D: Notices, F: Ledger, E: Ledger, T: Ledger>(
        &mut self,
        command: &Command,
        desk: &mut D,
        tops: &'a mut Steps<F>,
        entry: &'a mut Steps<E>,
        touch: &'a mut Steps<T>,
    ) -> Result<Reply, OutOfMemory>
        requires { IsTrue (is_within_form command.now) }
        ensures step { IfOk result (λ reply. step_heard (heard (state_of self.old) (D.shows desk.old)) command.now
            ≡ (heard (state_of self.new) (D.shows desk.new), reply)) }
        ensures printable { IfOk result (λ reply. IsTrue (is_printable reply)) }
        ensures posted { OnOk result (AllZip (RowAfter (posts_of_all (notices (state_of self.old) command.now)))
            (kept_by command.now (D.shows desk.old)) (D.shows desk.new)) }
        ensures told { OnOk result (ArePosted (posts_of_all (notices (state_of self.old) command.now))
            (off_by command.now (desk_of (D.shows desk.old) (D.left desk.old))) (desk_of (D.shows desk.new) (D.left desk.new))) }
        ensures unposted { OnErr result (D.shows desk.new ≡ D.shows desk.old) }
        ensures none_left { OnErr result (D.left desk.new ≡ D.left desk.old) }
        ensures fresh { OnOk result (is_spent self.new ≡ false) }
        ensures memory { OnErr result (is_spent self.new ≡ true) }
        ensures cost { tops.new ≤ tops.old + steps.allowance (state_of self.old) command.now }
        ensures ratio { entry.new + 9216 * tops.old ≤ entry.old + 9216 * tops.new }
        ensures looks { touch.new ≤ touch.old + steps.looks (state_of self.old) command.now }
        ensures spent { is_spent self.old ≡ true → IsErr result × (self.new ≡ self.old) × (desk.new ≡ desk.old)
            × (tops.new ≡ tops.old) × (entry.new ≡ entry.old) × (touch.new ≡ touch.old) }
    {
        if self.spent {
            return Err(OutOfMemory);
        }
        let mut meter = Meter::new(tops, entry, touch);
        let answered = self.answer_heard(command, desk, &mut meter);
        self.spent = answered.is_err();
        answered
    }

    fn answer_heard<D: Notices, F: Ledger, E: Ledger, T: Ledger>(
        &mut self,
        command: &Command,
        desk: &mut D,
        meter: &mut Meter<'_, F, E, T>,
    ) -> Result<Reply, OutOfMemory>
        requires { IsTrue (is_within_form command.now) }
        ensures step { IfOk result (λ reply. step_heard (heard (state_of self.old) (D.shows desk.old)) command.now
            ≡ (heard (state_of self.new) (D.shows desk.new), reply)) }
        ensures printable { IfOk result (λ reply. IsTrue (is_printable reply)) }
        ensures posted { OnOk result (AllZip (RowAfter (posts_of_all (notices (state_of self.old) command.now)))
            (kept_by command.now (D.shows desk.old)) (D.shows desk.new)) }
        ensures told { OnOk result (ArePosted (posts_of_all (notices (state_of self.old) command.now))
            (off_by command.now (desk_of (D.shows desk.old) (D.left desk.old))) (desk_of (D.shows desk.new) (D.left desk.new))) }
        ensures unposted { OnErr result (D.shows desk.new ≡ D.shows desk.old) }
        ensures none_left { OnErr result (D.left desk.new ≡ D.left desk.old) }
        ensures cost { meter.new.tops.now ≤ meter.old.tops.now + steps.allowance (state_of self.old) command.now }
        ensures same { IsSame meter.old meter.new }
        ensures ratio { IsPaid meter.old meter.new }
        ensures looks { meter.new.touch.now ≤ meter.old.touch.now + steps.looks (state_of self.old) command.now }
    {
        match command {
            Command::Unlisten(name) => unlisten(desk, name),
            _ => self.answer_and_tell(command, desk, meter),
        }
    }

    // Runs a command that takes no name off the desk, and posts its notices.
    fn answer_and_tell<D: Notices, F: Ledger, E: Ledger, T: Ledger>(
        &mut self,
        command: &Command,
        desk: &mut D,
        meter: &mut Meter<'_, F, E, T>,
    ) -> Result<Reply, OutOfMemory>
        requires form { IsTrue (is_within_form command.now) }
        ensures step { IfOk result (λ reply. steps.step (state_of self.old) command.now ≡ (state_of self.new, reply)) }
        ensures printable { IfOk result (λ reply. IsTrue (is_printable reply)) }
        ensures posted { OnOk result (AllZip (RowAfter (posts_of_all (notices (state_of self.old) command.now)))
            (D.shows desk.old) (D.shows desk.new)) }
        ensures told { OnOk result (ArePosted (posts_of_all (notices (state_of self.old) command.now))
            (desk_of (D.shows desk.old) (D.left desk.old)) (desk_of (D.shows desk.new) (D.left desk.new))) }
        ensures unposted { OnErr result (D.shows desk.new ≡ D.shows desk.old) }
        ensures none_left { OnErr result (D.left desk.new ≡ D.left desk.old) }
        ensures cost { meter.new.tops.now ≤ meter.old.tops.now + steps.allowance (state_of self.old) command.now }
        ensures same { IsSame meter.old meter.new }
        ensures ratio { IsPaid meter.old meter.new }
        ensures looks { meter.new.touch.now ≤ meter.old.touch.now + steps.looks (state_of self.old) command.now }
    {
        if desk.len() == 0 {
            return self.answer(command, meter);
        }
        let granted = granted(self.alloc, &self.books, command)?;
        let stale = stale(self.alloc, &self.books, command)?;
        let reply = self.answer(command, meter)?;
        tell(self.alloc, reply, granted, stale, desk)
    }

    /// Law: no resource is offered to two jobs, none is claimed by two, and each resource of a job names an ad that is held.
    #[tactic(auto, unfolding(crate::specs::Pool::state_of))]
    pub fn resources_are_apart(&self)
        ensures { AreGivenApart (state_of self.now) }
    {
        self.books.resources_are_apart();
    }

    // Runs a command, whose names are not told of it. What it goes through is made ready first.
    fn answer<F: Ledger, E: Ledger, T: Ledger>(
        &mut self,
        command: &Command,
        meter: &mut Meter<'_, F, E, T>,
    ) -> Result<Reply, OutOfMemory>
        requires { IsTrue (is_within_form command.now) }
        ensures step { IfOk result (λ reply. steps.step (state_of self.old) command.now ≡ (state_of self.new, reply)) }
        ensures printable { IfOk result (λ reply. IsTrue (is_printable reply)) }
        ensures cost { meter.new.tops.now ≤ meter.old.tops.now + steps.allowance (state_of self.old) command.now }
        ensures same { IsSame meter.old meter.new }
        ensures ratio { IsPaid meter.old meter.new }
        ensures looks { meter.new.touch.now ≤ meter.old.touch.now + steps.looks (state_of self.old) command.now }
    {
        self.make_ready(command)?;
        self.run(command, meter)
    }

    // Settles the index for a command that searches it, and closes the gaps in the orders for one that goes through them.
    #[tactic(auto, unfolding(crate::specs::Pool::state_of))]
    fn make_ready(&mut self, command: &Command) -> Result<(), OutOfMemory>
        ensures state { state_of self.new ≡ state_of self.old }
        ensures index { OnOk result (is_search command.now ≡ true
            → IsIndex self.new.books.ads.index (rows_of (stock_of self.new.books.ads.store))) }
    {
        match command {
            Command::Query(_) | Command::Gang(_) | Command::Negotiate => self.books.settle(),
            Command::List | Command::Jobs | Command::Users | Command::Why(_) | Command::Classes => {
                self.books.settle_order();
                Ok(())
            }
            _ => Ok(()),
        }
    }

    // Runs a command over what is ready for it.
    #[tactic(auto, unfolding(crate::specs::Pool::state_of, crate::specs::Step::step, crate::specs::Step::allowance, crate::specs::Step::undecided, crate::specs::Step::looks, pool_script::specs::Form::is_within_form, pool_replies::specs::Replies::is_printable, pool_replies::specs::Refusals::is_printable_refusal))]
    fn run<F: Ledger, E: Ledger, T: Ledger>(
        &mut self,
        command: &Command,
        meter: &mut Meter<'_, F, E, T>,
    ) -> Result<Reply, OutOfMemory>
        requires form { IsTrue (is_within_form command.now) }
        requires index { is_search command.now ≡ true
            → IsIndex self.old.books.ads.index (rows_of (stock_of self.old.books.ads.store)) }
        ensures step { IfOk result (λ reply. steps.step (state_of self.old) command.now ≡ (state_of self.new, reply)) }
        ensures printable { IfOk result (λ reply. IsTrue (is_printable reply)) }
        ensures cost { meter.new.tops.now ≤ meter.old.tops.now + steps.allowance (state_of self.old) command.now }
        ensures same { IsSame meter.old meter.new }
        ensures ratio { IsPaid meter.old meter.new }
        ensures looks { meter.new.touch.now ≤ meter.old.touch.now + steps.looks (state_of self.old) command.now }
    {
        let alloc = self.alloc;
        let moment = self.moment;
        let seed = self.books.ads.seed;
        let books = &mut self.books;
        let priorities = &mut self.priorities;
        match command {
            Command::Clock(n) => self.clock(*n, meter.touch),
            Command::Advertise {
                name,
                lifetime,
                block,
            } => {
                let advertisement = Advertisement {
                    name,
                    lifetime: *lifetime,
                    block: block.bytes(),
                };
                advertise(alloc, books, moment, advertisement, meter.touch)
            }
            Command::Withdraw(name) => withdraw(books, name, meter.touch),
            Command::Show(name) => show(alloc, &books.ads.store, name.bytes(), meter.touch),
            Command::List => list(alloc, books),
            Command::Eval(expr) => eval(alloc, seed, moment, expr.bytes(), meter.tops, meter.entry),
            Command::EvalIn { name, expr } => {
                eval_in(alloc, books, moment, name.bytes(), expr.bytes(), meter)
            }
            Command::Query(block) => query(alloc, &books.ads, moment, block.bytes(), meter),
            Command::Submit { job, user, block } => submit(alloc, books, job, user, block.bytes()),
            Command::Remove(job) => remove(books, job),
            Command::Priority { user, n } => set_priority(priorities, user, *n),
            Command::Gang(block) => gang(alloc, books, priorities, moment, block.bytes(), meter),
            Command::Negotiate => negotiate(alloc, books, priorities, moment, meter),
            Command::Claim(job) => claim(alloc, books, priorities, job, moment, meter),
            Command::Release(job) => release(books, job),
            Command::Jobs => jobs(alloc, books),
            Command::Job(job) => show_job(alloc, books, job.bytes()),
            Command::Users => users(alloc, books, priorities),
            Command::Why(job) => explain(alloc, books, moment, job.bytes(), meter),
            Command::Classes => classify(alloc, books, meter.touch),
            // A pool alone knows no mailbox.
            Command::Unlisten(_) => Ok(Reply::Refused(Refusal::UnknownName)),
            Command::Bad(number) => Ok(Reply::Refused(Refusal::Line(*number))),
        }
    }

    #[tactic(auto, unfolding(crate::specs::Pool::state_of, crate::specs::Step::looks, pool_replies::specs::Replies::is_printable, pool_replies::specs::Refusals::is_printable_refusal))]
    fn clock<T: Ledger>(&mut self, n: u64, touch: &mut Steps<T>) -> Result<Reply, OutOfMemory>
        ensures step { IfOk result (λ reply. steps.clock (state_of self.old) n ≡ (state_of self.new, reply)) }
        ensures printable { IfOk result (λ reply. IsTrue (is_printable reply)) }
        ensures looks { touch.new ≤ touch.old + steps.looks (state_of self.old) (Command.Clock n) }
    {
        if n < self.moment {
            return Ok(Reply::Refused(Refusal::ClockBack));
        }
        let expired = self.books.expire(n, touch)?;
        self.moment = n;
        Ok(Reply::Clock { moment: n, expired })
    }
}

/// `unlisten`: the name is taken off the desk, with its box as it is.
#[tactic(auto, unfolding(pool_replies::specs::Replies::is_printable, pool_replies::specs::Refusals::is_printable_refusal))]
fn unlisten<D: Notices>(desk: &mut D, name: &Text) -> Result<Reply, OutOfMemory>
    ensures step { IfOk result (λ reply. (pool : State) → rules.unlisten (heard pool (D.shows desk.old)) name.now
        ≡ (heard pool (D.shows desk.new), reply)) }
    ensures printable { IfOk result (λ reply. IsTrue (is_printable reply)) }
    ensures kept { OnOk result (D.shows desk.new ≡ without name.now (D.shows desk.old)) }
    ensures left { OnOk result (D.left desk.new ≡ D.left desk.old ++ filter (leaves_with name.now) (D.shows desk.old)) }
    ensures unposted { OnErr result (D.shows desk.new ≡ D.shows desk.old) }
    ensures none_left { OnErr result (D.left desk.new ≡ D.left desk.old) }
{
    let named = name.copy()?;
    if desk.close(name.bytes()) {
        Ok(Reply::Unlistened(named))
    } else {
        Ok(Reply::Refused(Refusal::UnknownName))
    }
}
