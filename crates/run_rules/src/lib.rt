//! The rules by which a pool runs the commands of a script, and a wire the lines of a schedule.
#![tactic(auto)]

mod laws;

pub use laws::{a_pool_is_lawful, a_wire_is_lawful};
