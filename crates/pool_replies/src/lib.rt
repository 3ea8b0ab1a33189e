//! The replies of the pool and the text of each.
#![tactic(auto)]

mod classes;
mod cycle;
mod queue;
mod refusal;
mod reply;
mod rows;
mod why;
mod writing;

pub use classes::NamesList;
pub use refusal::{Refusal, Room};
pub use reply::{Reply, hits, offers, print_reply, refusals};
pub use rows::{
    AdRow, AdRows, HitRow, HitRows, JobCounts, JobRow, JobRows, OfferRow, OfferRows, SpinRow,
    SpinRows, TurnRow, TurnRows, UserRow, UserRows,
};
