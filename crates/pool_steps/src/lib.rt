//! A counter of steps that takes no bytes and no time, so that a contract can bound how often something is done.
#![tactic(auto)]

mod meter;

ghost use Rattle.std.specs.Prelude.{◌≡◌, ℕ, ◌+◌, ◌<◌};

pub use meter::Meter;
use std::marker::Model;
use std::rt::Process;
use std::sync::ledger::{Blank, Book, Ledger, Share};

/// How many steps were taken; what a step is, is said where one is counted. `tick` alone changes the number, and only
/// upwards, so a bound on it bounds what was done. Each counter is of a ledger `L` of its own, and so two of them can't be
/// exchanged; and none is made but by a runtime, which only `main` and tests are given. So whatever counts below them counts in
/// one of the counters that it was handed.
#[derive(Drop)]
pub struct Steps<L: Ledger> {
    book: Book<L>,
    share: Share<L>,
}

impl<L: Ledger> Model for Steps<L> {
    ghost Value = { ℕ };

    ghost view = { λ s. s.book.total };

    ghost invariant = { λ s. 0 < s.share.parts };
}

impl<L: Ledger> Steps<L> {
    /// A counter at 0, over a ledger that no other counter is of. A caller picks `L` by the blank's name and parts. The handle is
    /// one that only a runtime gives; nothing is done with it.
    pub fn new(_process: Process, blank: Blank) -> Steps<L>
        requires name { blank.name ≡ L.name }
        requires parts { blank.parts ≡ L.parts }
        requires some { 0 < blank.parts }
        ensures { result ≡ 0 }
    {
        let (book, share) = blank.open::<L>();
        Steps { book, share }
    }

    /// Counts one step.
    pub fn tick(&mut self)
        ensures { self.new ≡ self.old + 1 }
    {
        self.book.add(&mut self.share, 1);
    }
}
