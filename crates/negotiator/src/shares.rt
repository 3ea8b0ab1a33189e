// What the users of a spin take turns with.
use crate::Queue;

/// A user's queue with the user's slice.
#[derive(Clone, Copy)]
pub struct Share<'a> {
    pub queue: &'a Queue,
    pub slice: u64,
}

/// The queues of all users, the numbers of those whose users take part in a spin, and the slices of these users.
#[derive(Clone, Copy)]
pub struct Shares<'a> {
    pub queues: &'a [Queue],
    pub active: &'a [usize],
    pub slices: &'a [u64],
}
