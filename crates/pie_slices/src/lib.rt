//! Slices of the pie: how many resources each user may be given in a spin, by priority, in exact whole numbers.
#![tactic(auto)]

mod sharing;

pub use sharing::{Slices, slices, weight};
