// The ads and the jobs of a pool, which change together.
ghost use Rattle.std.specs.Prelude.{◌≡◌, ◌≢◌, ◌+◌, ◌-◌, ◌≤◌, ◌<◌, ◌++◌, ◌∷◌, [], All, true, false, not, length, bytes_eq, Contains, IfErr, IfOk, IsTrue, None};
ghost use Rattle.std.specs.Prelude.{OnErr, OnOk, Some, ◌*◌, ℕ, List, map};
ghost use Rattle.pool_steps.specs.Spent.{IsPaid, IsSame};
ghost use Rattle.ad_store.specs.Answers.{is_added};
ghost use Rattle.ad_store.specs.Stock.{expired_slots, first_expired, has, lack, placed, slots_without, without};
ghost use Rattle.ad_store.specs.Store.{stock_of};
ghost use Rattle.ad_tree.specs.Ad.{ad_frames};
ghost use Rattle.ad_tree.specs.Small.{IsSmall};
ghost use Rattle.ad_candidates.specs.Rows.{rows_of};
ghost use Rattle.claim_table.specs.Small.{AreSmallJobs};
ghost use Rattle.claim_table.specs.Table.{jobs_of};
ghost use Rattle.literal_index.specs.Shown.{IsIndex};
ghost use Rattle.claim_table.specs.Priorities.{Setting};
ghost use Rattle.claim_table.specs.Settings.{settings_of};
ghost use Rattle.pool_replies.specs.declared.rows.SpinRow.{SpinRow};
ghost use Rattle.pool_books.specs.Expiry.{has_expired, live_ads};
ghost use Rattle.pool_books.specs.Negotiation as steps;
ghost use Rattle.pool_books.specs.Ports.{HasOwnPorts};
ghost use Rattle.pool_books.specs.Queue.{claim_names, has_job, job_refusal, names_of, offer_names, without_job, without_resources};
ghost use Rattle.pool_books.specs.State.{idle};
ghost use Rattle.pool_books.specs.Stored.{are_stored};

use crate::Advertised;
use crate::indexed::IndexedStore;
use ad_store::{Put, PutFault};
use ad_tree::Request;
use claim_table::{ClaimFault, ClaimTable, FreedList, JobFault};
use negotiator::{Cycle, Priorities, cycle};
use pool_replies::Reply;
use pool_steps::{Meter, Steps};
use pool_text::{OutOfMemory, Slots};
use std::alloc::Global;
use std::convert::AsSlice;
use std::sync::ledger::Ledger;

/// The ads, and the jobs with what is offered to them and claimed by them. What a job has is held, its ports are those that its
/// ad lists, and its ad has no more than 1,024 attributes.
#[derive(Drop)]
pub struct Books {
    pub ads: IndexedStore,
    pub claims: ClaimTable,
    ghost listed: { IsTrue (are_stored (stock_of ads.store).slots (jobs_of claims)) },
    ghost owned: { All (λ job. HasOwnPorts job.request) (jobs_of claims) },
    ghost small: { AreSmallJobs (jobs_of claims) },
}

impl Books {
    ghost use Rattle.ad_store.specs.Stock.{Advert};
    ghost use Rattle.pool_books.specs.Adverts.{advert_of};
    ghost use Rattle.pool_books.specs.Apart.{AreExclusive};
    ghost use Rattle.pool_books.specs.Books.{queue_of};
    ghost use Rattle.pool_books.specs.ClaimAnswers.{IsClaimAnswer, IsReleaseAnswer};
    ghost use Rattle.pool_books.specs.Claiming.{offered_for_claim, undecided_for_claim};
    ghost use Rattle.pool_books.specs.Indexed.{ads_of};
    ghost use Rattle.pool_books.specs.Books.{state_with};
    ghost use Rattle.pool_books.specs.Rows.{IsSpinHeld, spin_row};
    ghost use Rattle.pool_books.specs.State.{QueuedJob};
    ghost use Rattle.pool_books.specs.Wanting.{IsNotPut, IsPartOffered};

    /// No ads and no jobs, with a seed for the hashes of the names in ads.
    pub fn new(alloc: Global, seed: u64) -> Books
        ensures ads { ads_of result.ads ≡ [] }
        ensures jobs { queue_of result ≡ [] }
    {
        Books {
            ads: IndexedStore::new(alloc, seed),
            claims: ClaimTable::new(alloc),
        }
    }

    /// Law: no two jobs list one resource in their offers, and none in their claims; and each resource of a job is an ad that is
    /// held.
    pub fn resources_are_apart(&self)
        ensures offers { AreExclusive offer_names (queue_of self.now) }
        ensures claims { AreExclusive claim_names (queue_of self.now) }
        ensures held { All (λ job. All (λ name. has name (ads_of self.now.ads) ≡ true) (names_of job.standing)) (queue_of self.now) }
    {
        self.claims.resources_are_apart();
        self.ads.store.names_are_apart();
        self.ads.store.slots_are_apart();
    }

    /// Puts an ad under a name, as the store does, and counts at most two in `touch`. Where it isn't put, nothing changes,
    /// unless memory was wanting: then the ad of the name may have left, and what a job had of it has ended, or no job is left.
    pub fn put<T: Ledger>(
        &mut self,
        alloc: Global,
        advertised: Advertised<'_>,
        touch: &mut Steps<T>,
    ) -> Result<Put, PutFault>
        requires small { IsSmall (ad_frames advertised.ad) }
        ensures ads { OnOk result (ads_of self.new.ads ≡ placed (advert_of advertised.entry) (ads_of self.old.ads)) }
        ensures jobs { OnOk result (queue_of self.new ≡ queue_of self.old) }
        ensures added { IfOk result (λ put. is_added put ≡ not (has advertised.entry.name.now (ads_of self.old.ads))) }
        ensures room { OnOk result (lack advertised.entry.name.now advertised.entry.text_len (ads_of self.old.ads) ≡ None) }
        ensures cause { IfErr result (λ fault. fault ≢ PutFault.OutOfMemory
            → (lack advertised.entry.name.now advertised.entry.text_len (ads_of self.old.ads) ≡ Some fault)
            × (ads_of self.new.ads ≡ ads_of self.old.ads) × (queue_of self.new ≡ queue_of self.old)) }
        ensures memory { OnErr result (IsNotPut advertised.entry.name.now (ads_of self.old.ads) (queue_of self.old)
            (ads_of self.new.ads) (queue_of self.new)) }
        ensures looks { touch.new ≤ touch.old + 2 }
    {
        self.ads.store.names_are_apart();
        self.ads.store.slots_are_apart();
        self.claims.resources_are_apart();
        match self.ads.put(advertised, touch) {
            Ok(put) => Ok(put),
            Err(end) => {
                let Some(slot) = end.gone else {
                    return Err(end.fault);
                };
                // Where there is no memory to tell who loses the ad, no job is kept.
                if self.claims.lose(slot).is_err() {
                    self.claims = ClaimTable::new(alloc);
                }
                Err(end.fault)
            }
        }
    }

    /// Takes out the ad of a name and ends the claim and the offer of it. Answers whether there is one, and counts at most
    /// one in `touch`. Where memory is wanting nothing changes.
    pub fn withdraw<T: Ledger>(
        &mut self,
        name: &[u8],
        touch: &mut Steps<T>,
    ) -> Result<bool, OutOfMemory>
        ensures held { IfOk result (λ held. held ≡ has name.now (ads_of self.old.ads)) }
        ensures ads { OnOk result (ads_of self.new.ads ≡ without name.now (ads_of self.old.ads)) }
        ensures slots { IfOk result (λ held. held ≡ true → (stock_of self.new.ads.store).slots
            ≡ slots_without name.now (ads_of self.old.ads) (stock_of self.old.ads.store).slots) }
        ensures jobs { IfOk result (λ held. held ≡ true
            → queue_of self.new ≡ without_resources (bytes_eq name.now) (queue_of self.old)) }
        ensures none { IfOk result (λ held. held ≡ false → queue_of self.new ≡ queue_of self.old) }
        ensures looks { touch.new ≤ touch.old + 1 }
        ensures err { OnErr result (touch.new ≡ touch.old) }
        ensures ads_kept { OnErr result (self.new.ads ≡ self.old.ads) }
        ensures jobs_kept { OnErr result (queue_of self.new ≡ queue_of self.old) }
    {
        self.ads.store.names_are_apart();
        self.ads.store.slots_are_apart();
        self.claims.resources_are_apart();
        let Some(slot) = self.ads.store.slot_of(name) else {
            return Ok(false);
        };
        let _freed = self.claims.lose(slot)?;
        let _ = self.ads.withdraw(name, touch);
        Ok(true)
    }

    /// The ads that are no longer live leave one after another; they are found in one pass. Answers how many they were, and counts
    /// one at most in `touch` for each. Where memory is wanting, only some of them may have left: a further call then makes of the
    /// ads and the jobs what this one was to make.
    pub fn expire<T: Ledger>(&mut self, now: u64, touch: &mut Steps<T>) -> Result<u64, OutOfMemory>
        ensures ads { OnOk result (ads_of self.new.ads ≡ live_ads now (ads_of self.old.ads)) }
        ensures jobs { OnOk result (queue_of self.new
            ≡ without_resources (has_expired now (ads_of self.old.ads)) (queue_of self.old)) }
        ensures count { IfOk result (λ n. n ≡ length (ads_of self.old.ads) - length (live_ads now (ads_of self.old.ads))) }
        ensures looks { touch.new ≤ touch.old + (length (ads_of self.old.ads) - length (live_ads now (ads_of self.old.ads))) }
        ensures ads_left { OnErr result (live_ads now (ads_of self.new.ads) ≡ live_ads now (ads_of self.old.ads)) }
        ensures jobs_left { OnErr result (without_resources (has_expired now (ads_of self.new.ads)) (queue_of self.new)
            ≡ without_resources (has_expired now (ads_of self.old.ads)) (queue_of self.old)) }
    {
        let before = self.ads.store.len();
        let expired = self.ads.store.expired(now)?;
        for slot in expired.as_slice() {
            self.take_out(now, *slot, touch)?;
        }
        self.ads.note_soonest(now);
        Ok((before - self.ads.store.len()) as u64)
    }

    // Takes out the first ad that is no longer live. Where memory is wanting nothing changes.
    fn take_out<T: Ledger>(
        &mut self,
        now: u64,
        slot: usize,
        touch: &mut Steps<T>,
    ) -> Result<(), OutOfMemory>
        requires first { first_expired now (stock_of self.old.ads.store) ≡ Some slot }
        requires held { Contains (stock_of self.old.ads.store).slots slot }
        ensures live { OnOk result (live_ads now (ads_of self.new.ads) ≡ live_ads now (ads_of self.old.ads)) }
        ensures jobs { OnOk result (without_resources (has_expired now (ads_of self.new.ads)) (queue_of self.new)
            ≡ without_resources (has_expired now (ads_of self.old.ads)) (queue_of self.old)) }
        ensures fewer { OnOk result (length (ads_of self.new.ads) < length (ads_of self.old.ads)) }
        ensures others { OnOk result (expired_slots now (stock_of self.old.ads.store)
            ≡ slot ∷ expired_slots now (stock_of self.new.ads.store)) }
        ensures looks { OnOk result (touch.new ≤ touch.old + 1) }
        ensures none { OnErr result (touch.new ≡ touch.old) }
        ensures ads_kept { OnErr result (self.new.ads ≡ self.old.ads) }
        ensures jobs_kept { OnErr result (queue_of self.new ≡ queue_of self.old) }
    {
        self.ads.store.names_are_apart();
        let name = self.ads.store.name(slot).copy()?;
        self.withdraw(name.bytes(), touch)?;
        Ok(())
    }

    /// Takes a job, which is idle, behind those that are there; it isn't refused. Where memory is wanting nothing changes.
    pub fn submit(
        &mut self,
        name: &[u8],
        user: &[u8],
        request: Request,
        text_len: u64,
    ) -> Result<(), OutOfMemory>
        requires room { job_refusal name.now text_len (queue_of self.old) ≡ None }
        requires own { HasOwnPorts request }
        requires small { IsSmall (ad_frames request.ad) }
        ensures jobs { OnOk result (queue_of self.new ≡ queue_of self.old
            ++ (record { name = name.now; user = user.now; size = text_len; ad = ad_frames request.ad; standing = idle }) ∷ []) }
        ensures ads { self.new.ads ≡ self.old.ads }
        ensures jobs_kept { OnErr result (queue_of self.new ≡ queue_of self.old) }
    {
        if self.claims.submit(name, user, request, text_len).is_err() {
            return Err(OutOfMemory);
        }
        Ok(())
    }

    /// Takes out the job of a name, whatever it has. Answers whether there is one.
    pub fn remove(&mut self, name: &[u8]) -> bool
        ensures held { result ≡ has_job name.now (queue_of self.old) }
        ensures jobs { queue_of self.new ≡ without_job name.now (queue_of self.old) }
        ensures ads { self.new.ads ≡ self.old.ads }
    {
        self.claims.names_are_apart();
        self.claims.remove(name).is_ok()
    }

    /// Closes the gaps in the orders of the ads and of the jobs, for commands that go through them. Both stay as they are.
    pub fn settle_order(&mut self)
        ensures { (moment : ℕ) (priorities : List Setting)
            → state_with moment priorities self.new ≡ state_with moment priorities self.old }
    {
        self.claims.settle_order();
        self.ads.settle_order();
    }

    /// Makes both orders and the index ready for searches. The ads and the jobs stay as they are, also where memory is wanting.
    pub fn settle(&mut self) -> Result<(), OutOfMemory>
        ensures state { (moment : ℕ) (priorities : List Setting)
            → state_with moment priorities self.new ≡ state_with moment priorities self.old }
        ensures ok { OnOk result (IsIndex self.new.ads.index (rows_of (stock_of self.new.ads.store))) }
    {
        self.claims.settle_order();
        self.ads.settle()
    }

    /// Goes through a cycle of negotiation, which offers resources to idle jobs. Where memory is wanting, the first offers of
    /// the cycle stand.
    pub fn negotiate<F: Ledger, E: Ledger, T: Ledger>(
        &mut self,
        alloc: Global,
        priorities: &Priorities,
        moment: u64,
        meter: &mut Meter<'_, F, E, T>,
    ) -> Result<Cycle, OutOfMemory>
        requires { IsIndex self.old.ads.index (rows_of (stock_of self.old.ads.store)) }
        ensures ads { self.new.ads ≡ self.old.ads }
        ensures cycle { IfOk result (λ spins. (rows : List SpinRow) → rows ≡ map (spin_row (stock_of self.old.ads.store)) spins
            → steps.negotiate (state_with moment (settings_of priorities.now) self.old) ≡ (state_with moment (settings_of priorities.now) self.new, Reply.Cycle rows)) }
        ensures held { IfOk result (All (IsSpinHeld (stock_of self.old.ads.store).slots)) }
        ensures part { OnErr result (IsPartOffered (state_with moment (settings_of priorities.now) self.old) (queue_of self.new)) }
        ensures cost { meter.new.tops.now ≤ meter.old.tops.now + 5 * steps.undecided_for_jobs (state_with moment (settings_of priorities.now) self.old) }
        ensures same { IsSame meter.old meter.new }
        ensures ratio { IsPaid meter.old meter.new }
        ensures looks { meter.new.touch.now ≤ meter.old.touch.now + steps.looks_for_jobs (state_with moment (settings_of priorities.now) self.old) }
    {
        self.ads.store.names_are_apart();
        self.ads.store.slots_are_apart();
        let _len = self.ads.store.len();
        let ads = &self.ads;
        cycle(
            alloc,
            &ads.store,
            &ads.index,
            &mut self.claims,
            priorities,
            moment,
            meter.tops,
            meter.entry,
            meter.touch,
        )
    }

    /// Claims for the job of a name what is offered to it, as the table of jobs does, and tells the jobs that lost their
    /// resources. Where memory is wanting nothing changes.
    pub fn claim<F: Ledger, E: Ledger, T: Ledger>(
        &mut self,
        priorities: &Priorities,
        name: &[u8],
        moment: u64,
        meter: &mut Meter<'_, F, E, T>,
    ) -> Result<FreedList, ClaimFault>
        ensures ads { self.new.ads ≡ self.old.ads }
        ensures claim { IsClaimAnswer (stock_of self.old.ads.store) (state_with moment (settings_of priorities.now) self.old) name.now
            (state_with moment (settings_of priorities.now) self.new) result }
        ensures cost { (settings : List Setting)
            → meter.new.tops.now ≤ meter.old.tops.now + 4 * undecided_for_claim (state_with moment settings self.old) name.now }
        ensures same { IsSame meter.old meter.new }
        ensures ratio { IsPaid meter.old meter.new }
        ensures looks { (settings : List Setting)
            → meter.new.touch.now ≤ meter.old.touch.now + 9 * offered_for_claim (state_with moment settings self.old) name.now }
    {
        self.ads.store.names_are_apart();
        self.ads.store.slots_are_apart();
        self.claims.names_are_apart();
        self.claims.resources_are_apart();
        let ads = &self.ads;
        self.claims.claim(
            &ads.store,
            priorities,
            name,
            moment,
            meter.tops,
            meter.entry,
            meter.touch,
        )
    }

    /// Makes the job of a name idle, and hands back what was offered to it or claimed by it.
    pub fn release(&mut self, name: &[u8]) -> Result<Slots, JobFault>
        ensures ads { self.new.ads ≡ self.old.ads }
        ensures release { (moment : ℕ) (priorities : List Setting)
            → IsReleaseAnswer (state_with moment priorities self.old) name.now (state_with moment priorities self.new) result }
    {
        self.claims.names_are_apart();
        self.claims.release(name)
    }
}
