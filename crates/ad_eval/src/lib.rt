//! The values of expressions in the world of docked ads, and with them requirements, ranks and docks.
#![tactic(auto)]

mod branch;
mod calls;
mod chain;
mod chains;
mod evaluation;
mod kept;
mod laws;
mod leaves;
mod listed;
mod operands;
mod outcome;
mod reference;
mod scene;
mod stop;
mod top;

pub use laws::{
    circles_have_no_value, equal_worlds_are_evaluated_alike, more_references_keep_a_value,
    values_are_light,
};
pub use top::{dock, inner, rank, requirement, value};
