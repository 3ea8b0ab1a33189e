//! The ads that a pool holds, by name and in the order of their coming.
#![tactic(auto)]

mod answers;
mod entry;
mod holdings;
mod store;

pub use answers::{NoName, Put, PutFault};
pub use holdings::{Held, Holdings};
pub use store::Store;
