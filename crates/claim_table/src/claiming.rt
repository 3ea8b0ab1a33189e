// Claims: what is offered to a job is checked anew before the job has it.
ghost use Rattle.std.specs.Prelude.{◌≡◌, ◌≤◌, ◌<◌, ◌+◌, ◌*◌, All, Contains, IfOk, OnErr, OnOk, None, Some, length, option_map, slice_get, if◌then◌else◌};
ghost use Rattle.std.specs.Option.{option_map_or};
ghost use Rattle.pool_steps.specs.Spent.{IsPaid, Spends};
ghost use Rattle.ad_tree.specs.Ad.{ad_frames};
ghost use Rattle.ad_tree.specs.Small.{IsSmall};
ghost use Rattle.ad_store.specs.Store.{stock_of};
ghost use Rattle.eval_scope.specs.Shown.{world_of};
ghost use Rattle.eval_scope.specs.World.{attribute_count};
ghost use Rattle.ad_eval.specs.Small.{AreSmall};
ghost use Rattle.dock_match.specs.Docks.{is_last_decided, last_ad};
ghost use Rattle.dock_match.specs.Pool.{holder_world};
ghost use Rattle.dock_match.specs.Small.{AreSmallAds};
ghost use Rattle.claim_table.specs.declared.answers.JobState.{JobState};
ghost use Rattle.claim_table.specs.declared.job.Stage.{Stage};
ghost use Rattle.claim_table.specs.Claims as claims;
ghost use Rattle.claim_table.specs.Holders.{holder_of};
ghost use Rattle.claim_table.specs.Jobs.{claimed_by, offer_of, slots_of, state_of, with_standing};
ghost use Rattle.claim_table.specs.Scenes.{settings_in, stock_in};
ghost use Rattle.claim_table.specs.Settings.{settings_of};
ghost use Rattle.claim_table.specs.Small.{AreSmallJobs};
ghost use Rattle.claim_table.specs.Table.{jobs_of};

use crate::notes::put;
use crate::scene::Scene;
use crate::{ClaimFault, ClaimTable, FreedList, JobState, Priorities, Stage, Standing};
use ad_eval::rank;
use ad_store::{Holdings, Store};
use ad_tree::Ad;
use dock_match::{Claimant, open_sides, won_from};
use eval_scope::World;
use pool_steps::{Meter, Steps};
use pool_text::{OutOfMemory, Slots};
use std::convert::AsSlice;
use std::sync::ledger::Ledger;

impl ClaimTable {
    /// Claims for the job of a name what is offered to it. Each resource of the offer is checked anew, in order: it passes
    /// where its dock is true now, with those before it docked too, and where one of three holds: it is unclaimed; it ranks
    /// its holder strictly lower than this job; or it ranks both alike, and the priority of the holder's user is now at
    /// least twice that of this job's user. (A match is checked again by the claiming protocol: Raman, Livny and Solomon
    /// 1998.)
    ///
    /// Where all pass the job has claimed them. The jobs that held one of them become idle with all their resources freed;
    /// they are told in the order of the offer, each once, with what they had. `Stale` exactly where one fails, with the
    /// slot of the first that does; then the job is idle. `WrongState` exactly where nothing is offered to the job, `NoJob`
    /// exactly where no job has the name. After want of memory all is as it was.
    ///
    /// It counts in `tops` four at most for each dock of the offer that no test decides, in `entry` what these evaluations
    /// enter, and in `touch` nine at most for each resource: its look, and those at the holder's resources.
    pub fn claim<'a, F: Ledger, E: Ledger, T: Ledger>(
        &mut self,
        store: &Store,
        priorities: &Priorities,
        name: &[u8],
        moment: u64,
        tops: &'a mut Steps<F>,
        entry: &'a mut Steps<E>,
        touch: &'a mut Steps<T>,
    ) -> Result<FreedList, ClaimFault>
        requires { All (λ job. All (Contains (stock_of store.now).slots) (slots_of job.standing)) (jobs_of self.old) }
        ensures claim { claims.IsClaimed result (jobs_of self.old) (jobs_of self.new)
            (claims.claimed moment (stock_of store.now) (settings_of priorities.now) name.now (jobs_of self.old)) }
        ensures evaluations { tops.new ≤ tops.old + 4 * claims.undecided_for moment (stock_of store.now) name.now (jobs_of self.old) }
        ensures entries { entry.new ≤ entry.old + claims.entered_for moment (stock_of store.now) (settings_of priorities.now) name.now (jobs_of self.old) }
        ensures ratio { AreSmallAds (stock_of store.now).ads → AreSmallJobs (jobs_of self.old) → entry.new + 9216 * tops.old ≤ entry.old + 9216 * tops.new }
        ensures looks { touch.new ≤ touch.old + 9 * length (claims.offer_named name.now (jobs_of self.old)) }
    {
        let Some(i) = self.number(name) else {
            return Err(ClaimFault::NoJob);
        };
        let job = self.jobs.at(i);
        let state = job.standing.state();
        if state != JobState::Matched {
            return Err(ClaimFault::WrongState(state));
        }
        let number = priorities.get(job.user.bytes());
        let scene = Scene {
            store,
            priorities,
            job,
            number,
            moment,
        };
        let mut meter = Meter::new(tops, entry, touch);
        let Ok(failing) = self.first_failing(&scene, &mut meter) else {
            return Err(ClaimFault::OutOfMemory);
        };
        if let Some(slot) = failing {
            let _slots = self.free(i);
            return Err(ClaimFault::Stale(slot));
        }
        let Ok(freed) = self.grant(i) else {
            return Err(ClaimFault::OutOfMemory);
        };
        Ok(freed)
    }

    // The slot of the first of the resources that are offered to the job that doesn't pass.
    fn first_failing<F: Ledger, E: Ledger, T: Ledger>(
        &self,
        scene: &Scene<'_>,
        meter: &mut Meter<'_, F, E, T>,
    ) -> Result<Option<usize>, OutOfMemory>
        requires stored { All (λ j. All (Contains (stock_in scene.now).slots) (slots_of j.standing)) (jobs_of self.now) }
        requires offered { All (Contains (stock_in scene.now).slots) (offer_of scene.now.job.now.standing) }
        requires few { length (offer_of scene.now.job.now.standing) ≤ 8 }
        ensures failing { IfOk result (λ slot. slot ≡ claims.first_failing scene.now.moment (stock_in scene.now) (settings_in scene.now) (jobs_of
            self.now) scene.now.number scene.now.job.now.request (offer_of scene.now.job.now.standing)) }
        ensures spent { Spends meter.old meter.new
            (4 * claims.sum_over (λ slot world. if is_last_decided world then 0 else 1) scene.now.moment (stock_in scene.now) scene.now.job.now)
            (claims.sum_over (claims.entered_in scene.now.moment (stock_in scene.now) (settings_in scene.now) (jobs_of self.now)) scene.now.moment
            (stock_in scene.now) scene.now.job.now)
            (9 * length (offer_of scene.now.job.now.standing)) }
        ensures ratio { IsSmall (ad_frames scene.now.job.now.request.ad) → AreSmallAds (stock_in scene.now).ads → AreSmallJobs (jobs_of self.now)
            → IsPaid meter.old meter.new }
    {
        let request = &scene.job.request;
        let slots = scene.job.standing.offer();
        let mut world = World::new(scene.moment, &request.ad, &request.ports);
        for slot in slots {
            let ad = scene.store.look(*slot, meter.touch);
            world.dock(ad);
            if !self.passes(scene, *slot, ad, &world, meter)? {
                return Ok(Some(*slot));
            }
        }
        Ok(None)
    }

    // Whether the resource in a slot, which was docked last, passes. Nothing is evaluated where a test decides the dock.
    fn passes<F: Ledger, E: Ledger, T: Ledger>(
        &self,
        scene: &Scene<'_>,
        slot: usize,
        ad: &Ad,
        world: &World<'_>,
        meter: &mut Meter<'_, F, E, T>,
    ) -> Result<bool, OutOfMemory>
        requires stored { All (λ j. All (Contains (stock_in scene.now).slots) (slots_of j.standing)) (jobs_of self.now) }
        requires request { (world_of world.now).request ≡ ad_frames scene.now.job.now.request.ad }
        requires ports { (world_of world.now).ports ≡ scene.now.job.now.request.ports }
        requires docked { 0 < length (world_of world.now).docked }
        requires last { last_ad (world_of world.now) ≡ ad_frames ad.now }
        ensures passes { IfOk result (λ b. b ≡ claims.passes scene.now.moment (stock_in scene.now) (settings_in scene.now) (jobs_of self.now)
            scene.now.number slot (world_of world.now)) }
        ensures spent { Spends meter.old meter.new (4 * (if is_last_decided (world_of world.now) then 0 else 1))
            (claims.entered_in scene.now.moment (stock_in scene.now) (settings_in scene.now) (jobs_of self.now) slot (world_of world.now)) 8 }
        ensures ratio { AreSmall (world_of world.now) → AreSmallAds (stock_in scene.now).ads → AreSmallJobs (jobs_of self.now)
            → IsPaid meter.old meter.new }
    {
        let request = &scene.job.request;
        let Some(sides) = open_sides(self.alloc, request, world.request_place().frame, ad) else {
            return Ok(false);
        };
        if !sides.dock(self.alloc, world, meter.tops, meter.entry)? {
            return Ok(false);
        }
        self.wins(scene, slot, world, meter)
    }

    // Whether the resource in a slot, which was docked last, is taken for the job.
    fn wins<F: Ledger, E: Ledger, T: Ledger>(
        &self,
        scene: &Scene<'_>,
        slot: usize,
        world: &World<'_>,
        meter: &mut Meter<'_, F, E, T>,
    ) -> Result<bool, OutOfMemory>
        requires { All (λ j. All (Contains (stock_in scene.now).slots) (slots_of j.standing)) (jobs_of self.now) }
        ensures won { IfOk result (λ b. b ≡ claims.is_won scene.now.moment (stock_in scene.now) (settings_in scene.now) (jobs_of self.now)
            scene.now.number slot (world_of world.now)) }
        ensures spent { Spends meter.old meter.new 2 (attribute_count (world_of world.now)
            + option_map_or (λ holding. attribute_count (holder_world scene.now.moment (stock_in scene.now) holding))
            (holder_of (settings_in scene.now) (jobs_of self.now) slot) 0) 8 }
        ensures ratio { AreSmall (world_of world.now) → AreSmallAds (stock_in scene.now).ads → AreSmallJobs (jobs_of self.now)
            → IsPaid meter.old meter.new }
    {
        let standing = Standing {
            claims: self,
            priorities: scene.priorities,
        };
        let holder = standing.holder(slot);
        if holder.is_none() {
            return Ok(true);
        }
        let regard = rank(
            self.alloc,
            world,
            world.resource_place(),
            meter.tops,
            meter.entry,
        )?;
        let claimant = Claimant {
            rank: regard,
            number: scene.number,
        };
        let won = won_from(
            self.alloc,
            scene.store,
            scene.moment,
            holder,
            claimant,
            meter,
        )?;
        Ok(won.is_some())
    }

    // Job `i` claims what is offered to it, also from the jobs that have claimed it. Memory is taken first.
    fn grant(&mut self, i: usize) -> Result<FreedList, OutOfMemory>
        requires { option_map (λ job. state_of job.standing) (slice_get (jobs_of self.old) i) ≡ Some JobState.Matched }
        ensures freed { IfOk result (λ list. list ≡ claims.freed_all (jobs_of self.old) (claims.losers (jobs_of self.old)
            (claims.offer_at i (jobs_of self.old)))) }
        ensures ok { OnOk result (jobs_of self.new ≡ claims.granted (jobs_of self.old) i (claims.offer_at i (jobs_of self.old))) }
        ensures err { OnErr result (jobs_of self.new ≡ jobs_of self.old) }
    {
        let losers = self.losers(self.jobs.at(i).standing.offer())?;
        let freed = self.tell_all(losers.as_slice())?;
        self.make_all_idle(losers.as_slice());
        self.settle(i);
        Ok(freed)
    }

    // The numbers of the jobs that have claimed one of the slots, each once, in the order of the slots.
    fn losers(&self, slots: &[usize]) -> Result<Slots, OutOfMemory>
        ensures { IfOk result (λ numbers. numbers ≡ claims.losers (jobs_of self.now) slots.now) }
    {
        let mut numbers = Slots::new(self.alloc);
        for slot in slots {
            add_once(&mut numbers, self.claimed_by(*slot))?;
        }
        Ok(numbers)
    }

    // The jobs of these numbers, each with the slots that it has.
    fn tell_all(&self, numbers: &[usize]) -> Result<FreedList, OutOfMemory>
        requires { All (λ i. i < length (jobs_of self.now)) numbers.now }
        ensures { IfOk result (λ list. list ≡ claims.freed_all (jobs_of self.now) numbers.now) }
    {
        let mut freed = FreedList::new(self.alloc);
        for i in numbers {
            self.tell(Some(*i), &mut freed)?;
        }
        Ok(freed)
    }

    // Makes the jobs of these numbers idle.
    fn make_all_idle(&mut self, numbers: &[usize])
        requires { All (λ i. i < length (jobs_of self.old)) numbers.now }
        ensures { jobs_of self.new ≡ claims.all_idle (jobs_of self.old) numbers.now }
    {
        for i in numbers {
            self.make_idle(Some(*i));
        }
    }

    // Job `i` claims what is offered to it, which nobody has claimed.
    fn settle(&mut self, i: usize)
        requires matched { option_map (λ job. state_of job.standing) (slice_get (jobs_of self.old) i) ≡ Some JobState.Matched }
        requires free { All (λ slot. claimed_by slot (jobs_of self.old) ≡ None) (claims.offer_at i (jobs_of self.old)) }
        ensures { jobs_of self.new ≡ with_standing (jobs_of self.old) i (Stage.Claimed (claims.offer_at i (jobs_of self.old))) }
    {
        let job = self.jobs.slot(i);
        let was = self.jobs.restand(i, Stage::Idle);
        put(&mut self.offers, was.offer(), None);
        put(&mut self.claims, was.offer(), Some(job));
        let _idle = self
            .jobs
            .restand(i, Stage::Claimed(was.into_slots(self.alloc)));
    }
}

// Adds a number at the end, unless it is there.
fn add_once(numbers: &mut Slots, number: Option<usize>) -> Result<(), OutOfMemory>
    ensures { OnOk result (numbers.new ≡ claims.once numbers.old number) }
{
    let Some(i) = number else {
        return Ok(());
    };
    if numbers.as_slice().contains(&i) {
        return Ok(());
    }
    numbers.push(i)
}
