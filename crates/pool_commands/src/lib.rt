//! The commands of a pool one by one: what each makes of the ads and the jobs, and its reply.
#![tactic(auto)]

mod ads;
mod claiming;
mod classing;
mod explaining;
mod expressions;
mod faults;
mod gangs;
mod negotiation;
mod queries;
mod queue;
mod submission;

pub use ads::{Advertisement, advertise, list, show, withdraw};
pub use claiming::{claim, release};
pub use classing::classify;
pub use explaining::explain;
pub use expressions::{eval, eval_in};
pub use gangs::gang;
pub use negotiation::negotiate;
pub use queries::query;
pub use queue::{jobs, show_job, users};
pub use submission::{remove, set_priority, submit};
