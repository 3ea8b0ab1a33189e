//! A request beside one resource: what tests leave open of their dock, whether it is true, and how the resource is taken from
//! its holder.
#![tactic(auto)]

mod docking;
mod late;
mod laws;
mod preemption;
mod sides;

pub use docking::pair;
pub use late::{is_ruled_out, late_tests};
pub use laws::{
    a_conjunct_has_the_value_of_its_test, a_conjunction_is_true_only_where_its_conjuncts_are,
    a_decided_dock_is_never_true, a_dock_that_a_late_test_decides_is_never_true,
    a_dock_whose_tests_are_all_met_is_true,
};
pub use preemption::{Claimant, Preemption, won_from};
pub use sides::{OpenSides, open_sides, open_sides_by_plan};
