//! The conjuncts of requirements, and tests: those that compare one attribute of the other side with a literal, and what
//! decides them without an evaluation.
#![tactic(auto)]

mod counting;
mod enclosed;
mod gathering;
mod picking;
mod planning;
mod probe;
mod ruling;
mod side;
mod side_plan;
mod test;
mod verdict;

pub use counting::conjunct_count;
pub use gathering::conjuncts_of;
pub use picking::conjunct;
pub use planning::{plan, requirement};
pub use probe::is_comparison;
pub use ruling::{decided, rules_out, verdict_of};
pub use side::asked_by;
pub use side_plan::SidePlan;
pub use test::{Test, Tests};
pub use verdict::Verdict;
