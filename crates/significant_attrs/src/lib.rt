//! Which attributes of a request the matching with the ads of a store can come to, and requests that differ only in others.
#![tactic(auto)]

mod asking;
mod digests;
mod laws;
mod marking;
mod name_set;
mod needing;
mod reach;
mod twins;

pub use digests::digest;
pub use laws::{listed_names_are_the_least_set, twins_are_told_apart_by_no_ad};
pub use reach::Reach;
pub use twins::are_twins;
