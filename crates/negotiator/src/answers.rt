// What the calls answer.
use pool_text::{Items, Slots, Text};

/// Resources that are offered to a job, by their slots.
#[derive(Drop)]
pub struct Offered {
    pub job: Text,
    pub slots: Slots,
}

/// A list of offers in the order in which they were made.
pub type OfferedList = Items<Offered>;

/// A user's turn in a spin: the user's slice, in resources, and the offers to the user's jobs.
#[derive(Drop)]
pub struct Turn {
    pub user: Text,
    pub slice: u64,
    pub offers: OfferedList,
}

/// A list of turns, one behind the other.
pub type Turns = Items<Turn>;

/// A spin: how many resources were neither claimed nor offered as it began, and its turns with at least one offer.
#[derive(Drop)]
pub struct Spin {
    pub free: u64,
    pub turns: Turns,
}

/// The spins of a cycle in order.
pub type Cycle = Items<Spin>;
