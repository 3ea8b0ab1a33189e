// What the calls of the table answer.
use pool_text::{Items, Slots, Text};
use thiserror::Error;

/// What becomes of a job between its submission and its removal.
#[derive(Clone, Copy, Debug, PartialEq, Eq)]
pub enum JobState {
    Idle,
    /// Resources are offered to it.
    Matched,
    /// It has claimed its resources.
    Claimed,
}

/// Why a job was not taken.
#[derive(Clone, Copy, Debug, PartialEq, Eq, Error)]
pub enum SubmitFault {
    /// A job of this name is there.
    #[error("a job has this name")]
    InUse,
    /// There are 10,000 jobs.
    #[error("the pool has as many jobs as it may")]
    Full,
    /// The texts of all jobs and this one are more than 33,554,432 bytes together.
    #[error("the pool has as much text of jobs as it may")]
    FullText,
    #[error("out of memory")]
    OutOfMemory,
}

/// Why a job gave nothing back.
#[derive(Clone, Copy, Debug, PartialEq, Eq, Error)]
pub enum JobFault {
    #[error("no job has this name")]
    NoJob,
    /// The job's state is this one.
    #[error("the job is {0:?}")]
    WrongState(JobState),
}

/// Why a job has not claimed what was offered to it.
#[derive(Clone, Copy, Debug, PartialEq, Eq, Error)]
pub enum ClaimFault {
    #[error("no job has this name")]
    NoJob,
    /// Nothing is offered to the job, whose state is this one.
    #[error("the job is {0:?}")]
    WrongState(JobState),
    /// The resource in this slot is the first that no longer docks with the job, or that ranks its holder as high as the job
    /// or higher. The offer is ended.
    #[error("the offer is stale: the resource in slot {0} fails")]
    Stale(usize),
    #[error("out of memory")]
    OutOfMemory,
}

/// No job has the name.
#[derive(Clone, Copy, Debug, PartialEq, Eq, Error)]
#[error("no job has this name")]
pub struct NoJob;

/// A job that lost its resources, with its user and the slots that it had.
#[derive(Drop)]
pub struct Freed {
    pub job: Text,
    pub user: Text,
    pub slots: Slots,
}

/// A list of jobs that lost their resources.
pub type FreedList = Items<Freed>;

/// Why a priority was not set.
#[derive(Clone, Copy, Debug, PartialEq, Eq, Error)]
pub enum PriorityFault {
    /// The user is new, and 10,000 users have a priority that is set.
    #[error("as many users have a priority as may")]
    Full,
    #[error("out of memory")]
    OutOfMemory,
}
