//! The script of a workload, and the summary of a run.
#![tactic(auto)]

mod summary;
mod workload;

pub use summary::Summary;
pub use workload::generated;
