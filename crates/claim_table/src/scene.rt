// What stays as it is through a claim.
use crate::{Job, Priorities};
use ad_store::Store;

/// The resources, the users' priorities, the job that claims with the number of its user, and the moment at which it does.
#[derive(Clone, Copy)]
pub(crate) struct Scene<'a> {
    pub(crate) store: &'a Store,
    pub(crate) priorities: &'a Priorities,
    pub(crate) job: &'a Job,
    pub(crate) number: u64,
    pub(crate) moment: u64,
}
