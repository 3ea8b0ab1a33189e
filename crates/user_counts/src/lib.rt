//! The users of a queue in order, and how many jobs of each are idle, matched and claimed.
#![tactic(auto)]

mod rows;
mod tallies;

pub use rows::users;
