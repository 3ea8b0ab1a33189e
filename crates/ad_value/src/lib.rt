//! The values of the ClassAd language and its operators on them.
#![tactic(auto)]

mod arithmetic;
mod comparison;
mod copying;
mod folding;
mod identity;
mod laws;
mod literal;
mod logic;
mod number;
mod operators;
mod value;
mod weighing;

pub use comparison::{is_true_of_integers, is_true_of_literals};
pub use copying::copy;
pub use identity::same;
pub use laws::{
    elements_are_those_listed, equal_texts_fold_alike, is_is_equality, or_mirrors_and,
    undemanded_side_makes_no_difference,
};
pub use literal::from_lit;
pub use logic::{and_ends, and_step, or_ends, or_step};
pub use number::{MILLION, Number};
pub use operators::{binary, unary};
pub use value::{Value, Values};
pub use weighing::{bounded, weight};
