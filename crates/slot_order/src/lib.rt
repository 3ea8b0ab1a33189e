//! Slots in the order of their coming, of which any can leave at once, and the names that lead to them.
#![tactic(auto)]

mod cells;
mod names;
mod order;

pub use names::SlotNames;
pub use order::SlotOrder;
