// A mailbox that keeps its notices in memory, for tests and for library users.
ghost use Rattle.std.specs.Prelude.{◌≡◌, ◌+◌, ◌<◌, ◌↔◌, ◌⊎◌, [], length, option_map, IfOk, IsErr, IsTrue, OnErr, OnOk, Some};
ghost use Rattle.pool_io.specs.Memory.{is_listed, next_count};
ghost use Rattle.notice_desk.specs.Boxes.{told};
ghost use Rattle.notice_desk.specs.Mail.{Takes, Refuses};

use crate::Mailbox;
use pool_io::Failed;
use pool_text::{OutOfMemory, Slots};
use std::alloc::Global;
use std::convert::AsSlice;
use std::marker::Model;

/// Keeps at most `room` bytes, and fails at the deliveries whose numbers, from 1, are listed, and where a notice and its
/// line feed don't fit.
#[derive(Drop)]
pub struct MemoryMailbox {
    taken: Vec<u8>,
    room: usize,
    failing: Slots,
    calls: u64,
    faults: u64,
}

impl Model for MemoryMailbox {
    ghost use Rattle.std.specs.Prelude.{◌≤◌, vec_len, vec_capacity};
    ghost use Rattle.notice_desk.specs.Boxes.{Tray};

    ghost Value = { Tray };

    ghost view = { λ b. record {
      taken = b.taken.items;
      room = b.room;
      failing = b.failing;
      calls = b.calls;
      faults = b.faults;
    } };

    ghost invariant = { λ b. (vec_len b.taken ≤ b.room) × (b.room ≤ vec_capacity b.taken) };
}

impl MemoryMailbox {
    /// An empty box, with memory for `room` bytes taken here and none later.
    pub fn new(alloc: Global, room: usize, failing: Slots) -> Result<MemoryMailbox, OutOfMemory>
        ensures { IfOk result (λ b. b ≡ record { taken = []; room = room; failing = failing; calls = 0; faults = 0 }) }
    {
        Ok(MemoryMailbox {
            taken: Vec::with_capacity(alloc, room)?,
            room,
            failing,
            calls: 0,
            faults: 0,
        })
    }
}

// Whether the next call is listed to fail, where `calls` were made.
fn is_listed(failing: &[usize], calls: u64) -> bool
    ensures { result ≡ is_listed failing.now calls }
{
    let number = calls.saturating_add(1);
    failing.iter().any(|place| *place as u64 == number)
}

impl Mailbox for MemoryMailbox {
    ghost taking = { told };

    fn deliver(&mut self, notice: &[u8]) -> Result<(), Failed>
        ensures took { OnOk result (Takes (told self.old) (told self.new) notice.now) }
        ensures failed { OnErr result (Refuses (told self.old) (told self.new)) }
        ensures exactly { IsErr result ↔ (IsTrue (is_listed self.old.failing self.old.calls) ⊎
            (self.old.room < length self.old.taken + length notice.now + 1)) }
        ensures kept { OnOk result (self.new.faults ≡ self.old.faults) }
        ensures counted { OnErr result (self.new.faults ≡ next_count self.old.faults) }
        ensures same { (self.new.room ≡ self.old.room) × (self.new.failing ≡ self.old.failing) }
    {
        let fails = is_listed(self.failing.as_slice(), self.calls);
        self.calls = self.calls.saturating_add(1);
        if fails || self.room - self.taken.len() <= notice.len() {
            self.faults = self.faults.saturating_add(1);
            return Err(Failed);
        }
        let _text = self.taken.extend_from_slice(notice);
        let _feed = self.taken.push(b'\n');
        Ok(())
    }

    fn shown(&self) -> Option<&[u8]>
        ensures { option_map (λ text. text.now) result ≡ Some self.now.taken }
    {
        Some(&self.taken)
    }
}
