//! The best resource for one job without ports, in a cycle whose jobs share what they can: jobs that match alike one list of
//! resources, and all jobs what is known of ranks and tests.
#![tactic(auto)]

mod class;
mod clusters;
mod laws;
mod scene;
mod seeker;

pub use class::{Class, Ranked};
pub use clusters::{Clusters, choose};
pub use laws::twins_are_matched_alike;
pub use scene::Scene;
pub use seeker::Seeker;
