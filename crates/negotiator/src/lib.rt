//! Cycles of negotiation, which offer free resources to idle jobs: users take turns by priority, each with a slice of what
//! is free.
#![tactic(auto)]

mod answers;
mod free;
mod laws;
mod queues;
mod search;
mod shares;
mod spins;
mod turns;

pub use answers::{Cycle, Offered, OfferedList, Spin, Turn, Turns};
pub use claim_table::{Priorities, PriorityFault};
pub use laws::{
    a_cycle_ends_with_the_first_spin_without_an_offer, users_with_a_waiting_job_take_turns_in_order,
};
pub use queues::Queue;
pub use shares::{Share, Shares};
pub use spins::cycle;
