// The jobs in order, each in a slot of its own, which it keeps while it is there.
ghost use Rattle.std.specs.Prelude.{◌≡◌, ◌==◌, ◌<◌, ◌++◌, ◌∷◌, ℕ, List, [], true, IfSome, None, OnErr, OnOk, Some, length, option_map, position, remove};
ghost use Rattle.std.specs.Prelude.{slice_get};
ghost use Rattle.std.specs.List.{list_any};
ghost use Rattle.std.specs.Option.{option_and_then};
ghost use Rattle.slab.specs.Slab.{ContainsKey, HasRoomFor};
ghost use Rattle.slot_order.specs.Names.{Turns, slot_at};
ghost use Rattle.claim_table.specs.declared.job.Stage.{Stage};
ghost use Rattle.claim_table.specs.Jobs.{AreNamedApart, numbered, with_standing};
ghost use Rattle.claim_table.specs.Listed.{AreListed, jobs_at};

use crate::{Job, Stage};
use pool_text::OutOfMemory;
use slab::Slab;
use slot_order::{SlotNames, SlotOrder};
use std::alloc::Global;
use std::mem::replace;

/// The jobs in the order of their submission, each under a name of its own.
#[derive(Drop)]
pub(crate) struct JobList {
    names: SlotNames,
    table: Slab<Job>,
    order: SlotOrder,
    ghost listed: { AreListed table order (slot_at names) },
}

impl JobList {
    ghost use Rattle.claim_table.specs.JobList.{jobs_in, slots_in};

    /// No jobs, which takes no memory yet.
    pub(crate) fn new(alloc: Global) -> JobList
        ensures jobs { jobs_in result ≡ [] }
        ensures slots { slots_in result ≡ [] }
    {
        JobList {
            names: SlotNames::new(alloc),
            table: Slab::new(alloc),
            order: SlotOrder::new(alloc),
        }
    }

    /// How many jobs there are.
    pub(crate) fn len(&self) -> usize
        ensures { result ≡ length (jobs_in self.now) }
    {
        self.order.len()
    }

    /// The number of the job of a name.
    pub(crate) fn number(&self, name: &[u8]) -> Option<usize>
        ensures number { result ≡ numbered name.now (jobs_in self.now) }
        ensures within { IfSome result (λ i. i < length (jobs_in self.now)) }
    {
        self.order.slots_are_apart();
        self.order.place(self.names.get(name)?)
    }

    /// The slot of job `i`.
    pub(crate) fn slot(&self, i: usize) -> usize
        requires { i < length (jobs_in self.now) }
        ensures slot { slice_get (slots_in self.now) i ≡ Some result }
        ensures number { position (λ s. s == result) (slots_in self.now) ≡ Some i }
    {
        self.order.slots_are_apart();
        self.order.at(i).unwrap_or(0)
    }

    /// Job `i`.
    pub(crate) fn at(&self, i: usize) -> &Job
        requires { i < length (jobs_in self.now) }
        ensures { slice_get (jobs_in self.now) i ≡ Some result.now }
    {
        &self.table[self.slot(i)]
    }

    /// The number of the job in a slot, where the slot is given and has one.
    pub(crate) fn number_in(&self, slot: Option<usize>) -> Option<usize>
        ensures { result ≡ option_and_then (λ key. position (λ s. s == key) (slots_in self.now)) slot }
    {
        self.order.slots_are_apart();
        self.order.place(slot?)
    }

    /// Gives job `i` another standing, and hands back the one that it had.
    pub(crate) fn restand(&mut self, i: usize, standing: Stage) -> Stage
        requires { i < length (jobs_in self.old) }
        ensures was { option_map (λ job. job.standing) (slice_get (jobs_in self.old) i) ≡ Some result }
        ensures jobs { jobs_in self.new ≡ with_standing (jobs_in self.old) i standing }
        ensures slots { slots_in self.new ≡ slots_in self.old }
    {
        self.order.slots_are_apart();
        let slot = self.slot(i);
        replace(&mut self.table[slot].standing, standing)
    }

    /// Puts a job last, under a name that no job has.
    pub(crate) fn push(&mut self, alloc: Global, job: Job) -> Result<(), OutOfMemory>
        requires { numbered job.name (jobs_in self.old) ≡ None }
        ensures ok { OnOk result (jobs_in self.new ≡ jobs_in self.old ++ job ∷ []) }
        ensures last { OnOk result ((slot : ℕ) × (slots_in self.new ≡ slots_in self.old ++ slot ∷ [])) }
        ensures err { OnErr result (jobs_in self.new ≡ jobs_in self.old) }
        ensures slots { OnErr result (slots_in self.new ≡ slots_in self.old) }
    {
        self.order.slots_are_apart();
        enter(
            alloc,
            &mut self.names,
            &mut self.table,
            &mut self.order,
            job.name.bytes(),
        )?;
        self.table.insert_reserved(job);
        Ok(())
    }

    /// Closes the gaps between jobs, so that a number is found in a step until a job leaves.
    pub(crate) fn settle(&mut self)
        ensures jobs { jobs_in self.new ≡ jobs_in self.old }
        ensures slots { slots_in self.new ≡ slots_in self.old }
    {
        self.order.settle();
    }

    /// Law: no two jobs have one name.
    pub(crate) fn names_are_apart(&self)
        ensures { AreNamedApart (jobs_in self.now) }
    {
        self.order.slots_are_apart();
    }

    /// Takes out job `i`.
    pub(crate) fn remove(&mut self, i: usize) -> Job
        requires { i < length (jobs_in self.old) }
        ensures was { slice_get (jobs_in self.old) i ≡ Some result }
        ensures jobs { jobs_in self.new ≡ remove (jobs_in self.old) i }
        ensures slots { slots_in self.new ≡ remove (slots_in self.old) i }
    {
        self.order.slots_are_apart();
        let slot = self.slot(i);
        let job = self.table.remove(slot);
        self.names.remove(job.name.bytes());
        self.order.remove(slot);
        job
    }
}

// Makes room for a job in a slot of its own, which goes last and to which its name leads. Memory is taken first.
fn enter(
    alloc: Global,
    names: &mut SlotNames,
    table: &mut Slab<Job>,
    order: &mut SlotOrder,
    name: &[u8],
) -> Result<(), OutOfMemory>
    requires { (slot : ℕ) → list_any (λ s. s == slot) order.old ≡ true → ContainsKey table.old slot }
    ensures room { OnOk result (HasRoomFor table.new 1) }
    ensures order { OnOk result (order.new ≡ order.old ++ table.new.vacant_key ∷ []) }
    ensures turns { OnOk result (Turns name.now (Some table.new.vacant_key) names.old names.new) }
    ensures order_left { OnErr result (order.new ≡ order.old) }
    ensures names_left { OnErr result ((other : List ℕ) → slot_at names.new other ≡ slot_at names.old other) }
    ensures table { table.new.slots ≡ table.old.slots }
{
    table.reserve(1)?;
    let slot = table.vacant_key();
    order.push(slot)?;
    if names.insert(alloc, name, slot).is_err() {
        order.remove(slot);
        return Err(OutOfMemory);
    }
    Ok(())
}
