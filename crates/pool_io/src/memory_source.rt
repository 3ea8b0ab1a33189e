// A source over a text in memory, for tests and for library users.
ghost use Rattle.std.specs.Prelude.{◌≡◌, ◌≤◌, ◌↔◌, ◌∷◌, [], length, min, IsTrue, IsErr, IfOk, OnErr};
ghost use Rattle.pool_io.specs.Flow.{Reads};
ghost use Rattle.pool_io.specs.Memory.{supply_of, is_listed, next_count};

use crate::{Failed, Source};
use pool_text::{Slots, Text};
use std::marker::Model;

/// Gives the bytes of a text, at most a given number a call, and fails at the calls whose numbers, from 1, are listed.
#[derive(Drop)]
pub struct MemorySource {
    text: Text,
    at: usize,
    latest: usize,
    given: u64,
    most: usize,
    failing: Slots,
    calls: u64,
    faults: u64,
}

impl Model for MemorySource {
    ghost use Rattle.std.specs.Prelude.{◌≤◌, drop, length};
    ghost use Rattle.pool_io.specs.Memory.{Reserve};

    ghost Value = { Reserve };

    ghost view = { λ s. record {
      left = drop s.at s.text;
      latest = s.latest;
      given = s.given;
      most = s.most;
      failing = s.failing;
      calls = s.calls;
      faults = s.faults;
    } };

    ghost invariant = { λ s. (s.at ≤ length s.text) × (1 ≤ s.most) };
}

impl MemorySource {
    /// A source of these bytes, of which each call gives at most `most`.
    pub fn new(text: Text, most: usize, failing: Slots) -> MemorySource
        requires { 1 ≤ most }
        ensures { result ≡ record { left = text; latest = 0; given = 0; most = most; failing = failing; calls = 0; faults = 0 } }
    {
        MemorySource {
            text,
            at: 0,
            latest: 0,
            given: 0,
            most,
            failing,
            calls: 0,
            faults: 0,
        }
    }
}

// Whether the next call is listed to fail, where `calls` were made.
pub(crate) fn is_listed(failing: &Slots, calls: u64) -> bool
    ensures { result ≡ is_listed failing.now calls }
{
    let number = calls.saturating_add(1);
    for i in 0..failing.len() {
        if *failing.at(i) as u64 == number {
            return true;
        }
    }
    false
}

impl Source for MemorySource {
    ghost shows = { supply_of };

    fn read(&mut self, buf: &mut [u8]) -> Result<usize, Failed>
        ensures reads { Reads (supply_of self.old) (supply_of self.new) result buf.new }
        ensures exactly { IsErr result ↔ IsTrue (is_listed self.old.failing self.old.calls) }
        ensures amount { IfOk result (λ n. n ≡ min (min (length self.old.left) self.old.most) (length buf.old)) }
        ensures counted { self.new.calls ≡ next_count self.old.calls }
        ensures failed { OnErr result ((self.new.faults ≡ next_count self.old.faults) × (self.new.latest ≡ self.old.latest)) }
        ensures same { (self.new.most ≡ self.old.most) × (self.new.failing ≡ self.old.failing) }
    {
        let fails = is_listed(&self.failing, self.calls);
        self.calls = self.calls.saturating_add(1);
        if fails {
            self.faults = self.faults.saturating_add(1);
            return Err(Failed);
        }
        let rest = &self.text.bytes()[self.at..];
        let count = rest.len().min(self.most).min(buf.len());
        buf[..count].copy_from_slice(&rest[..count]);
        self.at += count;
        self.latest = count;
        self.given = self.given.saturating_add(count as u64);
        Ok(count)
    }
}
