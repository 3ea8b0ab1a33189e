// What a query finds.
use pool_text::Items;

/// An ad that docks with a query: the slot of the ad, and the rank that the query gives it, in millionths. Larger is
/// better.
#[derive(Clone, Copy)]
pub struct Hit {
    pub slot: usize,
    pub rank: i128,
}

/// The hits of a query in their order, which contracts see as a list of hits.
pub type Hits = Items<Hit>;

/// The same by the place of the ad in the order of the store, counted from 0.
#[derive(Clone, Copy)]
pub struct Match {
    pub place: usize,
    pub rank: i128,
}
