// The members for a job, and their order.
ghost use Rattle.std.specs.Prelude.{◌≡◌};

use dock_match::Preemption;
use std::cmp::Ordering;

/// What the sides of a dock rank each other, in millionths: the request the resource, and the resource the request.
#[derive(Clone, Copy)]
pub struct Ranks {
    pub rank: i128,
    pub regard: i128,
}

/// A resource that a job may be given: the rank that the job gives it, how it is taken, the rank that it gives the job, and
/// its place in the order of the store, counted from 0.
#[derive(Clone, Copy)]
pub struct Member {
    pub rank: i128,
    pub preemption: Preemption,
    pub regard: i128,
    pub place: usize,
}

impl Member {
    ghost use Rattle.bilateral_match.specs.Members.{member_order};

    // By the job's rank falling, then by how the resource is taken, then by the resource's rank of the job falling, then by
    // place.
    pub(crate) fn compare(&self, other: &Member) -> Ordering
        ensures { result ≡ member_order self.now other.now }
    {
        other
            .rank
            .cmp(&self.rank)
            .then(self.preemption.order().cmp(&other.preemption.order()))
            .then(other.regard.cmp(&self.regard))
            .then(self.place.cmp(&other.place))
    }
}
