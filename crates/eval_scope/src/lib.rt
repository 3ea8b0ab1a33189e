//! The world of two or more docked ads, and what names find in it.
#![tactic(auto)]

mod found;
mod look;
mod world;

pub use found::Found;
pub use world::World;
