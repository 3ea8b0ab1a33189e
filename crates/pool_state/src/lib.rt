//! The state of a pool: its ads, jobs, priorities, offers and claims, and the step that each command makes in it, with the
//! notices that it posts.
#![tactic(auto)]

mod losses;
mod notices;
mod places;
mod pool;
mod posting;

pub use pool::Pool;
