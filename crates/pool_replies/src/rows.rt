// The rows of replies of several lines.
use claim_table::JobState;
use pool_text::{Items, Names, Text};

/// An ad of the pool: its name, the moment of its birth, its lifetime, and the jobs that claimed it and that it is
/// offered to.
#[derive(Drop)]
pub struct AdRow {
    pub name: Text,
    pub born: u64,
    pub lifetime: u64,
    pub claimed: Option<Text>,
    pub offered: Option<Text>,
}

/// The ads of a reply.
pub type AdRows = Items<AdRow>;

/// An ad that a query found, and the query's rank of it in millionths.
#[derive(Drop)]
pub struct HitRow {
    pub name: Text,
    pub rank: i128,
}

/// The hits of a reply.
pub type HitRows = Items<HitRow>;

/// An offer: the job and the names of its resources.
#[derive(Drop)]
pub struct OfferRow {
    pub job: Text,
    pub names: Names,
}

/// The offers of a turn.
pub type OfferRows = Items<OfferRow>;

/// A job of the queue: its name, its user, its state, and the names of the resources that are offered to it or that it has
/// claimed, in the order of its ports.
#[derive(Drop)]
pub struct JobRow {
    pub job: Text,
    pub user: Text,
    pub state: JobState,
    pub names: Names,
}

/// The jobs of a reply.
pub type JobRows = Items<JobRow>;

/// How many jobs are idle, matched and claimed.
#[derive(Clone, Copy)]
pub struct JobCounts {
    pub idle: u64,
    pub matched: u64,
    pub claimed: u64,
}

/// A user with the priority and the numbers of jobs.
#[derive(Drop)]
pub struct UserRow {
    pub user: Text,
    pub priority: u64,
    pub counts: JobCounts,
}

/// The users of a reply.
pub type UserRows = Items<UserRow>;

/// A user's turn in a spin: the slice that the user had, and what was offered.
#[derive(Drop)]
pub struct TurnRow {
    pub user: Text,
    pub slice: u64,
    pub offers: OfferRows,
}

/// The turns of a spin.
pub type TurnRows = Items<TurnRow>;

/// A spin of a negotiation cycle: how many resources were free, and the users' turns.
#[derive(Drop)]
pub struct SpinRow {
    pub free: u64,
    pub turns: TurnRows,
}

/// The spins of a cycle.
pub type SpinRows = Items<SpinRow>;
