// What a request is given resources from.
use ad_store::{Holdings, Store};
use literal_index::Index;
use std::alloc::Global;

/// The resources, their index, what is offered and claimed of them, and the moment at which a request is given some.
#[derive(Drop)]
pub struct Scene<'a, H: Holdings> {
    pub alloc: Global,
    pub store: &'a Store,
    pub index: &'a Index,
    pub held: &'a H,
    pub moment: u64,
}
