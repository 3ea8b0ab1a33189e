// The jobs of each user.
ghost use Rattle.std.specs.Prelude.{◌≡◌, ◌≤◌, ◌<◌, ◌+◌, ◌^◌, ◌||◌, All, IfOk, OnOk, drop, length, map, nat_lt};
ghost use Rattle.claim_table.specs.Table.{jobs_of};
ghost use Rattle.claim_table.specs.Priorities.{priority_of};
ghost use Rattle.negotiator.specs.Budget as budget;
ghost use Rattle.negotiator.specs.Queues.{AreFresh, IsAhead, IsAtHead, IsSame, enqueued, queue_of};
ghost use Rattle.negotiator.specs.Scenes.{market_in};
ghost use Rattle.claim_table.specs.Settings.{settings_of};

use crate::Priorities;
use crate::search::is_idle;
use claim_table::ClaimTable;
use job_clusters::Scene;
use pool_text::{OutOfMemory, Slots, Text};
use std::alloc::Global;
use std::collections::BTreeMap;
use std::convert::AsSlice;

/// The places of a user's jobs in the order of submission, with the user's priority. The jobs before the head needn't be tried any
/// more: they are matched, claimed or failed. Beside it stands whether one of them failed, and so is idle still.
#[derive(Drop)]
pub struct Queue {
    pub user: Text,
    pub number: u64,
    pub places: Slots,
    pub head: usize,
    pub has_failed: bool,
}

impl Queue {
    /// The places from the head on.
    pub(crate) fn rest(&self) -> &[usize]
        requires { self.now.head ≤ length self.now.places }
        ensures { result.now ≡ drop self.now.head self.now.places }
    {
        &self.places.as_slice()[self.head..]
    }

    /// Moves the head on to the next job that is due, or to the end.
    pub(crate) fn advance(&mut self, claims: &ClaimTable, failed: &[bool])
        requires within { All (λ i. i < length (jobs_of claims.now)) self.old.places }
        requires marks { length failed.now ≡ length (jobs_of claims.now) }
        requires ahead { IsAhead (jobs_of claims.now) failed.now self.old }
        ensures ahead { IsAhead (jobs_of claims.now) failed.now self.new }
        ensures at_head { IsAtHead (jobs_of claims.now) failed.now self.new }
        ensures same { IsSame self.old self.new }
    {
        for k in self.head..self.places.len() {
            let place = *self.places.at(k);
            if is_due(claims, failed, place) {
                return;
            }
            self.pass(is_idle(claims, place));
        }
    }

    /// Whether a job before the head failed, or one is left. Once the head was moved on, so it is whether a job is idle.
    pub(crate) fn has_idle(&self) -> bool
        ensures { result ≡ (self.now.has_failed || nat_lt self.now.head (length self.now.places)) }
    {
        self.has_failed || self.head < self.places.len()
    }

    // Moves the head past one job.
    fn pass(&mut self, idle: bool)
        requires { self.old.head + 1 < 2 ^ 64 }
        ensures { self.new ≡ record self.old { head = self.old.head + 1; has_failed = self.old.has_failed || idle } }
    {
        self.head += 1;
        self.has_failed = self.has_failed || idle;
    }
}

// Whether job `i` is idle and has no mark.
fn is_due(claims: &ClaimTable, failed: &[bool], i: usize) -> bool
    requires job { i < length (jobs_of claims.now) }
    requires mark { i < length failed.now }
    ensures { result ≡ budget.is_due (jobs_of claims.now) failed.now i }
{
    is_idle(claims, i) && !failed[i]
}

// The places of the jobs of each user, under the user's priority and name.
type Gathered = BTreeMap<(u64, Vec<u8>), Slots>;

// The queues of all users, in order.
pub(crate) fn queues_of(scene: &Scene<'_>, claims: &ClaimTable) -> Result<Vec<Queue>, OutOfMemory>
    ensures { IfOk result (λ queues. AreFresh (market_in scene.now (jobs_of claims.now)) queues.items) }
{
    let gathered = gather(scene, claims)?;
    let mut queues = Vec::new(scene.alloc);
    for (key, places) in gathered {
        queues.push(queue_with(scene.alloc, &key, places)?)?;
    }
    Ok(queues)
}

// The places of all jobs. The map keeps the users in order, so that no queue is moved for one that comes before it.
fn gather(scene: &Scene<'_>, claims: &ClaimTable) -> Result<Gathered, OutOfMemory>
    ensures { IfOk result (λ gathered. AreFresh (market_in scene.now (jobs_of claims.now)) (map queue_of gathered.entries)) }
{
    let mut gathered = BTreeMap::new(scene.alloc);
    for i in 0..claims.len() {
        let user = claims.user(i).bytes();
        enqueue(scene.alloc, scene.priorities, user, i, &mut gathered)?;
    }
    Ok(gathered)
}

// Adds the place of a job of a user.
fn enqueue(
    alloc: Global,
    priorities: &Priorities,
    user: &[u8],
    place: usize,
    gathered: &mut Gathered,
) -> Result<(), OutOfMemory>
    requires { All (λ queue. queue.number ≡ priority_of queue.user (settings_of priorities.now)) (map queue_of gathered.old.entries) }
    ensures { OnOk result (map queue_of gathered.new.entries
        ≡ enqueued (λ u. priority_of u (settings_of priorities.now)) user.now place (map queue_of gathered.old.entries)) }
{
    let key = (priorities.get(user), Vec::from_slice(alloc, user)?);
    gathered
        .entry(key)?
        .or_insert(Slots::new(alloc))
        .push(place)?;
    Ok(())
}

// The queue of a user.
fn queue_with(alloc: Global, key: &(u64, Vec<u8>), places: Slots) -> Result<Queue, OutOfMemory>
    ensures { IfOk result (λ queue. queue ≡ queue_of (key.now, places)) }
{
    Ok(Queue {
        user: Text::from_bytes(alloc, &key.1)?,
        number: key.0,
        places,
        head: 0,
        has_failed: false,
    })
}
