//! Why a request matches the ads that it matches: for how many ads each conjunct of its requirement holds, and what keeps
//! each ad from matching.
#![tactic(auto)]

mod counting;
mod explaining;
mod failing;
mod judging;
mod laws;
mod report;

pub use explaining::explain;
pub use laws::accepted_ads_are_those_that_dock;
pub use report::{Conjunct, Conjuncts, Report, Verdict, Verdicts};
