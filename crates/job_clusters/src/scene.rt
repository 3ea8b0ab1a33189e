// What stays as it is through a cycle.
use ad_store::Store;
use claim_table::Priorities;
use literal_index::Index;
use std::alloc::Global;

/// The resources, their index, the users' priorities and the moment of a cycle.
#[derive(Clone, Copy)]
pub struct Scene<'a> {
    pub alloc: Global,
    pub store: &'a Store,
    pub index: &'a Index,
    pub priorities: &'a Priorities,
    pub moment: u64,
}
