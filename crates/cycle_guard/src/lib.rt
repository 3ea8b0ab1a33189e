//! What an evaluation knows of the attributes that it has entered.
#![tactic(auto)]

mod guard;

pub use guard::{Guard, Seen};
