// A sink that keeps its bytes in memory, for tests and for library users.
ghost use Rattle.std.specs.Prelude.{◌≡◌, ◌≤◌, ◌<◌, ◌-◌, ◌↔◌, ◌⊎◌, [], length, min, IfOk, IsErr, IsTrue, OnErr};
ghost use Rattle.pool_io.specs.Flow.{Writes};
ghost use Rattle.pool_io.specs.Memory.{intake_of, is_listed, next_count};

use crate::memory_source::is_listed;
use crate::{Failed, Sink};
use pool_text::{OutOfMemory, Slots};
use std::alloc::Global;
use std::marker::Model;

/// Keeps at most `room` bytes, takes at most a given number a call, and fails at the calls whose numbers, from 1, are
/// listed, and where no room is left.
#[derive(Drop)]
pub struct MemorySink {
    taken: Vec<u8>,
    offered: usize,
    most: usize,
    room: usize,
    failing: Slots,
    calls: u64,
    faults: u64,
}

impl Model for MemorySink {
    ghost use Rattle.std.specs.Prelude.{◌≤◌, vec_len, vec_capacity};
    ghost use Rattle.pool_io.specs.Memory.{Store};

    ghost Value = { Store };

    ghost view = { λ s. record {
      taken = s.taken.items;
      offered = s.offered;
      most = s.most;
      room = s.room;
      failing = s.failing;
      calls = s.calls;
      faults = s.faults;
    } };

    ghost invariant = { λ s. (1 ≤ s.most) × (vec_len s.taken ≤ s.room) × (s.room ≤ vec_capacity s.taken) };
}

impl MemorySink {
    /// An empty sink, with memory for `room` bytes taken here and none later. Each call takes at most `most` bytes.
    pub fn new(
        alloc: Global,
        most: usize,
        room: usize,
        failing: Slots,
    ) -> Result<MemorySink, OutOfMemory>
        requires { 1 ≤ most }
        ensures { IfOk result (λ s. s ≡ record { taken = []; offered = 0; most = most; room = room; failing = failing; calls = 0; faults = 0 }) }
    {
        Ok(MemorySink {
            taken: Vec::with_capacity(alloc, room)?,
            offered: 0,
            most,
            room,
            failing,
            calls: 0,
            faults: 0,
        })
    }

    /// The bytes taken so far.
    pub fn taken(&self) -> &[u8]
        ensures { result.now ≡ self.now.taken }
    {
        &self.taken
    }
}

impl Sink for MemorySink {
    ghost shows = { intake_of };

    fn write(&mut self, piece: &[u8]) -> Result<usize, Failed>
        requires { 0 < length piece.now }
        ensures writes { Writes (intake_of self.old) (intake_of self.new) result piece.now }
        ensures exactly { IsErr result ↔ (IsTrue (is_listed self.old.failing self.old.calls) ⊎ (length self.old.taken ≡ self.old.room)) }
        ensures amount { IfOk result (λ n. n ≡ min (min (length piece.now) self.old.most) (self.old.room - length self.old.taken)) }
        ensures counted { self.new.calls ≡ next_count self.old.calls }
        ensures failed { OnErr result (self.new.faults ≡ next_count self.old.faults) }
        ensures same { (self.new.most ≡ self.old.most) × (self.new.room ≡ self.old.room) × (self.new.failing ≡ self.old.failing) }
    {
        let fails = is_listed(&self.failing, self.calls);
        self.calls = self.calls.saturating_add(1);
        self.offered = piece.len();
        if fails {
            self.faults = self.faults.saturating_add(1);
            return Err(Failed);
        }
        let count = piece.len().min(self.most).min(self.room - self.taken.len());
        if count == 0 || self.taken.extend_from_slice(&piece[..count]).is_err() {
            self.faults = self.faults.saturating_add(1);
            return Err(Failed);
        }
        Ok(count)
    }
}
