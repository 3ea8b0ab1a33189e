// A job, and how it stands.
ghost use Rattle.std.specs.Prelude.{◌≡◌};
ghost use Rattle.claim_table.specs.declared.job.Stage.{Stage};
ghost use Rattle.claim_table.specs.Jobs.{claim_of, offer_of, slots_of, state_of};

use crate::JobState;
use ad_tree::Request;
use pool_text::{Slots, Text};
use std::alloc::Global;
use std::convert::AsSlice;

/// A job, as the table holds it.
#[derive(Drop)]
pub struct Job {
    pub name: Text,
    pub user: Text,
    pub text_len: u64,
    pub request: Request,
    pub standing: Stage,
}

/// How a job stands, with the slots that are offered to it or that it has claimed.
#[derive(Drop)]
pub enum Stage {
    Idle,
    Matched(Slots),
    Claimed(Slots),
}

impl Stage {
    /// The state.
    pub fn state(&self) -> JobState
        ensures { result ≡ state_of self.now }
    {
        match self {
            Stage::Idle => JobState::Idle,
            Stage::Matched(_) => JobState::Matched,
            Stage::Claimed(_) => JobState::Claimed,
        }
    }

    /// The slots that are offered.
    pub(crate) fn offer(&self) -> &[usize]
        ensures { result.now ≡ offer_of self.now }
    {
        match self {
            Stage::Matched(slots) => slots.as_slice(),
            _ => &[],
        }
    }

    /// The slots that are claimed.
    pub(crate) fn claim(&self) -> &[usize]
        ensures { result.now ≡ claim_of self.now }
    {
        match self {
            Stage::Claimed(slots) => slots.as_slice(),
            _ => &[],
        }
    }

    /// The slots, offered or claimed.
    pub fn slots(&self) -> &[usize]
        ensures { result.now ≡ slots_of self.now }
    {
        match self {
            Stage::Idle => &[],
            Stage::Matched(slots) => slots.as_slice(),
            Stage::Claimed(slots) => slots.as_slice(),
        }
    }

    /// The list itself.
    pub(crate) fn into_slots(self, alloc: Global) -> Slots
        ensures { result ≡ slots_of self }
    {
        match self {
            Stage::Idle => Slots::new(alloc),
            Stage::Matched(slots) => slots,
            Stage::Claimed(slots) => slots,
        }
    }
}
