//! The jobs of a pool, the resources that are offered to them and claimed by them, and the priorities of their users.
#![tactic(auto)]

mod answers;
mod claiming;
mod holdings;
mod job;
mod job_list;
mod notes;
mod priorities;
mod scene;
mod table;

pub use answers::{
    ClaimFault, Freed, FreedList, JobFault, JobState, NoJob, PriorityFault, SubmitFault,
};
pub use holdings::Standing;
pub use job::{Job, Stage};
pub use priorities::Priorities;
pub use table::ClaimTable;
