// The table of jobs.
ghost use Rattle.std.specs.Prelude.{◌≡◌, ◌≢◌, ◌==◌, ◌<◌, ◌≤◌, ◌+◌, ◌++◌, ◌∷◌, ℕ, [], All, AllPairs, false, bytes_eq, length, map, max, option_map, remove};
ghost use Rattle.std.specs.Prelude.{slice_get, vec_capacity, vec_len, Err, IfNone, IfSome, IfErr, IfOk, None, Ok, OnErr, OnOk, Some};
ghost use Rattle.std.specs.List.{list_any, position_or_len};
ghost use Rattle.claim_table.specs.declared.job.Stage.{Stage};
ghost use Rattle.claim_table.specs.Answers.{IsCause, freed_at, freed_by, freed_of, no_job, release_answer, without_at};
ghost use Rattle.claim_table.specs.JobList.{jobs_in, slots_in};
ghost use Rattle.claim_table.specs.Kept.{AreThere, IsKept, numbers};

use crate::job_list::JobList;
use crate::notes::{note, put, widen};
use crate::{Freed, FreedList, Job, JobFault, JobState, NoJob, Stage, SubmitFault};
use ad_tree::Request;
use pool_text::{OutOfMemory, Slots, Text};
use std::alloc::Global;
use std::convert::AsSlice;

const JOBS_LIMIT: usize = 10_000;

const TEXT_LIMIT: u64 = 33_554_432;

/// The jobs in the order of their submission, each under a name of its own, and who is offered and has claimed what. A
/// resource, named by its slot, is in at most one offer and in at most one claim.
///
/// A job is found by comparing its name with a few others, and by a slot at once; no look-up takes memory. A job that leaves
/// makes a gap in the order, so that none behind it is moved: numbers are found in a step once `settle_order` has closed the gaps.
#[derive(Drop)]
pub struct ClaimTable {
    pub(crate) alloc: Global,
    pub(crate) jobs: JobList,
    pub(crate) offers: Vec<Option<usize>>,
    pub(crate) claims: Vec<Option<usize>>,
    text: u64,
    ghost kept: { IsKept (jobs_in jobs) (numbers (slots_in jobs) offers.items) (numbers (slots_in jobs) claims.items) text },
    ghost there: { AreThere (slots_in jobs) offers.items claims.items },
}

impl ClaimTable {
    ghost use Rattle.std.specs.Option.{option_map_or};
    ghost use Rattle.claim_table.specs.Table.{jobs_of};
    ghost use Rattle.claim_table.specs.Jobs.{AreExclusive, AreFree, AreNamedApart, IsFilled, claim_of, claimed_by, idle_at, job_named, jobs_limit, lost};
    ghost use Rattle.claim_table.specs.Jobs.{numbered, offer_of, offered_to, refusal, slots_of, state_of, text_limit, text_of, wanted, with_standing};

    /// A table without jobs, which takes no memory yet.
    pub fn new(alloc: Global) -> ClaimTable
        ensures { jobs_of result ≡ [] }
    {
        ClaimTable {
            alloc,
            jobs: JobList::new(alloc),
            offers: Vec::new(alloc),
            claims: Vec::new(alloc),
            text: 0,
        }
    }

    /// How many jobs there are.
    pub fn len(&self) -> usize
        ensures len { result ≡ length (jobs_of self.now) }
        ensures few { result ≤ jobs_limit }
    {
        self.jobs.len()
    }

    /// The length of the texts of all jobs together, in bytes.
    pub fn text_len(&self) -> u64
        ensures text { result ≡ text_of (jobs_of self.now) }
        ensures within { result ≤ text_limit }
    {
        self.text
    }

    /// Takes a job that is idle, behind those that are there.
    ///
    /// `InUse` exactly where a job has the name, `Full` exactly where there are 10,000 jobs, `FullText` exactly where
    /// the texts of all jobs and this one, of `text_len` bytes, are more than 33,554,432 bytes together; the first that
    /// applies is answered. A job that isn't taken changes nothing.
    pub fn submit(
        &mut self,
        name: &[u8],
        user: &[u8],
        request: Request,
        text_len: u64,
    ) -> Result<(), SubmitFault>
        ensures ok { OnOk result (jobs_of self.new ≡ jobs_of self.old ++ (record
            { name = name.now; user = user.now; text_len = text_len; request = request; standing = Stage.Idle }) ∷ []) }
        ensures none { OnOk result (refusal name.now text_len (jobs_of self.old) ≡ None) }
        ensures cause { IfErr result (λ fault. IsCause fault (refusal name.now text_len (jobs_of self.old))) }
        ensures err { OnErr result (jobs_of self.new ≡ jobs_of self.old) }
    {
        if let Some(fault) = self.refusal(name, text_len) {
            return Err(fault);
        }
        let Ok(titles) = titles_of(self.alloc, name, user) else {
            return Err(SubmitFault::OutOfMemory);
        };
        let job = Job {
            name: titles.job,
            user: titles.user,
            text_len,
            request,
            standing: Stage::Idle,
        };
        if self.jobs.push(self.alloc, job).is_err() {
            return Err(SubmitFault::OutOfMemory);
        }
        self.text += text_len;
        Ok(())
    }

    // Why a job of this name with a text of so many bytes is not taken, if not for want of memory.
    fn refusal(&self, name: &[u8], text_len: u64) -> Option<SubmitFault>
        ensures cause { IfSome result (λ fault. IsCause fault (refusal name.now text_len (jobs_of self.now))) }
        ensures none { IfNone result (refusal name.now text_len (jobs_of self.now) ≡ None) }
        ensures new { IfNone result (numbered name.now (jobs_of self.now) ≡ None) }
        ensures few { IfNone result (length (jobs_of self.now) < jobs_limit) }
        ensures light { IfNone result (self.now.text + text_len ≤ text_limit) }
    {
        if self.jobs.number(name).is_some() {
            return Some(SubmitFault::InUse);
        }
        if self.jobs.len() >= JOBS_LIMIT {
            return Some(SubmitFault::Full);
        }
        if self.text.saturating_add(text_len) > TEXT_LIMIT {
            return Some(SubmitFault::FullText);
        }
        None
    }

    /// The number of the job of a name, `None` exactly where there is none.
    pub fn number(&self, name: &[u8]) -> Option<usize>
        ensures number { result ≡ numbered name.now (jobs_of self.now) }
        ensures within { IfSome result (λ i. i < length (jobs_of self.now)) }
    {
        self.jobs.number(name)
    }

    /// The state of the job of a name, `None` exactly where there is none.
    pub fn state(&self, name: &[u8]) -> Option<JobState>
        ensures { result ≡ option_map (λ job. state_of job.standing) (job_named name.now (jobs_of self.now)) }
    {
        match self.number(name) {
            Some(i) => Some(self.jobs.at(i).standing.state()),
            None => None,
        }
    }

    /// The slots of the job of a name, offered or claimed; none where it is idle or isn't there.
    pub fn slots(&self, name: &[u8]) -> &[usize]
        ensures { result.now ≡ option_map_or (λ job. slots_of job.standing) (job_named name.now (jobs_of self.now)) [] }
    {
        match self.number(name) {
            Some(i) => self.jobs.at(i).standing.slots(),
            None => &[],
        }
    }

    /// The number of the job that a slot is offered to.
    pub fn offered_to(&self, slot: usize) -> Option<usize>
        ensures number { result ≡ offered_to slot (jobs_of self.now) }
        ensures within { IfSome result (λ i. i < length (jobs_of self.now)) }
    {
        self.jobs.number_in(note(&self.offers, slot))
    }

    /// The number of the job that has claimed a slot.
    pub fn claimed_by(&self, slot: usize) -> Option<usize>
        ensures number { result ≡ claimed_by slot (jobs_of self.now) }
        ensures within { IfSome result (λ i. i < length (jobs_of self.now)) }
    {
        self.jobs.number_in(note(&self.claims, slot))
    }

    /// Closes the gaps that jobs left in the order, so that a number is found in a step until a job leaves.
    pub fn settle_order(&mut self)
        ensures { jobs_of self.new ≡ jobs_of self.old }
    {
        self.jobs.settle();
    }

    /// Law: no two jobs are offered one slot, no two have claimed one, and no job lists one twice.
    pub fn resources_are_apart(&self)
        ensures offers { AreExclusive offer_of (jobs_of self.now) }
        ensures claims { AreExclusive claim_of (jobs_of self.now) }
        ensures filled { All IsFilled (jobs_of self.now) }
    {}

    /// Law: no two jobs have one name.
    pub fn names_are_apart(&self)
        ensures { AreNamedApart (jobs_of self.now) }
    {
        self.jobs.names_are_apart();
    }

    /// Offers slots to job `i`, which is idle; they are as many as it wants, no two of them are one, and none is offered.
    /// Memory is taken first.
    pub fn offer(&mut self, i: usize, slots: Slots) -> Result<(), OutOfMemory>
        requires idle { option_map (λ job. job.standing) (slice_get (jobs_of self.old) i) ≡ Some Stage.Idle }
        requires free { AreFree slots (jobs_of self.old) }
        requires distinct { AllPairs (λ a b. a ≢ b) slots }
        requires wanted { option_map (λ job. wanted job.request) (slice_get (jobs_of self.old) i) ≡ Some (length slots) }
        ensures ok { OnOk result (jobs_of self.new ≡ with_standing (jobs_of self.old) i (Stage.Matched slots)) }
        ensures err { OnErr result (jobs_of self.new ≡ jobs_of self.old) }
    {
        widen(&mut self.offers, &mut self.claims, slots.as_slice())?;
        let job = self.jobs.slot(i);
        put(&mut self.offers, slots.as_slice(), Some(job));
        let _idle = self.jobs.restand(i, Stage::Matched(slots));
        Ok(())
    }

    // Makes job `i` idle and hands back its slots.
    pub(crate) fn free(&mut self, i: usize) -> Slots
        requires { i < length (jobs_of self.old) }
        ensures slots { option_map (λ job. slots_of job.standing) (slice_get (jobs_of self.old) i) ≡ Some result }
        ensures jobs { jobs_of self.new ≡ with_standing (jobs_of self.old) i Stage.Idle }
    {
        let was = self.jobs.restand(i, Stage::Idle);
        put(&mut self.offers, was.offer(), None);
        put(&mut self.claims, was.claim(), None);
        was.into_slots(self.alloc)
    }

    // Takes out job `i`, which is idle.
    fn take_out(&mut self, i: usize)
        requires { option_map (λ job. job.standing) (slice_get (jobs_of self.old) i) ≡ Some Stage.Idle }
        ensures { jobs_of self.new ≡ remove (jobs_of self.old) i }
    {
        let job = self.jobs.remove(i);
        self.text -= job.text_len;
    }

    /// Makes a matched or claimed job idle, and hands back its slots. `WrongState` exactly where it is idle, `NoJob`
    /// exactly where there is none of the name.
    pub fn release(&mut self, name: &[u8]) -> Result<Slots, JobFault>
        ensures answer { result ≡ release_answer name.now (jobs_of self.old) }
        ensures ok { OnOk result (jobs_of self.new ≡ idle_at (numbered name.now (jobs_of self.old)) (jobs_of self.old)) }
        ensures err { OnErr result (jobs_of self.new ≡ jobs_of self.old) }
    {
        let Some(i) = self.number(name) else {
            return Err(JobFault::NoJob);
        };
        if self.jobs.at(i).standing.state() == JobState::Idle {
            return Err(JobFault::WrongState(JobState::Idle));
        }
        Ok(self.free(i))
    }

    /// Takes out the job of a name, in any state, and hands back its slots. `NoJob` exactly where there is none.
    pub fn remove(&mut self, name: &[u8]) -> Result<Slots, NoJob>
        ensures answer { result ≡ option_map_or (λ job. Ok (slots_of job.standing)) (job_named name.now (jobs_of self.old)) (Err no_job) }
        ensures jobs { jobs_of self.new ≡ without_at (numbered name.now (jobs_of self.old)) (jobs_of self.old) }
    {
        let Some(i) = self.number(name) else {
            return Err(NoJob);
        };
        let slots = self.free(i);
        self.take_out(i);
        Ok(slots)
    }

    /// Ends the claim and then the offer that name a slot, whose resource leaves: each such job becomes idle with all
    /// its slots freed, and is told in the list as it stood.
    pub fn lose(&mut self, slot: usize) -> Result<FreedList, OutOfMemory>
        ensures freed { IfOk result (λ list. list ≡ freed_by slot (jobs_of self.old)) }
        ensures ok { OnOk result (jobs_of self.new ≡ lost slot (jobs_of self.old)) }
        ensures err { OnErr result (jobs_of self.new ≡ jobs_of self.old) }
    {
        let claimed = self.claimed_by(slot);
        let offered = self.offered_to(slot);
        let mut freed = FreedList::new(self.alloc);
        self.tell(claimed, &mut freed)?;
        self.tell(offered, &mut freed)?;
        self.make_idle(claimed);
        self.make_idle(offered);
        Ok(freed)
    }

    // Adds the job of a number, where there is one, to a list of those that lose their slots.
    pub(crate) fn tell(
        &self,
        number: Option<usize>,
        freed: &mut FreedList,
    ) -> Result<(), OutOfMemory>
        requires { IfSome number (λ i. i < length (jobs_of self.now)) }
        ensures { OnOk result (freed.new ≡ freed.old ++ freed_at number (jobs_of self.now)) }
    {
        let Some(i) = number else {
            return Ok(());
        };
        freed.push(freed_of(self.alloc, self.jobs.at(i))?)
    }

    // Makes the job of a number idle, where there is one.
    pub(crate) fn make_idle(&mut self, number: Option<usize>)
        requires { IfSome number (λ i. i < length (jobs_of self.old)) }
        ensures jobs { jobs_of self.new ≡ idle_at number (jobs_of self.old) }
        ensures len { length (jobs_of self.new) ≡ length (jobs_of self.old) }
    {
        if let Some(i) = number {
            let _slots = self.free(i);
        }
    }

    /// The name of job `i`, counted from 0 in the order of submission.
    pub fn job(&self, i: usize) -> &Text
        requires { i < length (jobs_of self.now) }
        ensures { option_map (λ job. job.name) (slice_get (jobs_of self.now) i) ≡ Some result.now }
    {
        &self.jobs.at(i).name
    }

    /// The user of job `i`.
    pub fn user(&self, i: usize) -> &Text
        requires { i < length (jobs_of self.now) }
        ensures { option_map (λ job. job.user) (slice_get (jobs_of self.now) i) ≡ Some result.now }
    {
        &self.jobs.at(i).user
    }

    /// How job `i` stands.
    pub fn standing(&self, i: usize) -> &Stage
        requires { i < length (jobs_of self.now) }
        ensures { option_map (λ job. job.standing) (slice_get (jobs_of self.now) i) ≡ Some result.now }
    {
        &self.jobs.at(i).standing
    }

    /// The request of job `i`.
    pub fn request(&self, i: usize) -> &Request
        requires { i < length (jobs_of self.now) }
        ensures { option_map (λ job. job.request) (slice_get (jobs_of self.now) i) ≡ Some result.now }
    {
        &self.jobs.at(i).request
    }
}

// A job that loses its slots, with those that it has.
fn freed_of(alloc: Global, job: &Job) -> Result<Freed, OutOfMemory>
    ensures { IfOk result (λ freed. freed ≡ freed_of job.now) }
{
    let slots = copy_of(alloc, job.standing.slots())?;
    let user = job.user.copy()?;
    Ok(Freed {
        job: job.name.copy()?,
        user,
        slots,
    })
}

// A list with these slots.
fn copy_of(alloc: Global, slots: &[usize]) -> Result<Slots, OutOfMemory>
    ensures { IfOk result (λ list. list ≡ slots.now) }
{
    let mut list = Slots::new(alloc);
    for slot in slots {
        list.push(*slot)?;
    }
    Ok(list)
}

// The name of a job, and its user's.
#[derive(Drop)]
struct Titles {
    job: Text,
    user: Text,
}

// A name and a user's, in memory of their own.
fn titles_of(alloc: Global, name: &[u8], user: &[u8]) -> Result<Titles, OutOfMemory>
    ensures job { IfOk result (λ titles. titles.job ≡ name.now) }
    ensures user { IfOk result (λ titles. titles.user ≡ user.now) }
{
    let job = Text::from_bytes(alloc, name)?;
    let user = Text::from_bytes(alloc, user)?;
    Ok(Titles { job, user })
}
