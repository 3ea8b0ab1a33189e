//! Jobs that no ad of a store can tell apart, in classes.
#![tactic(auto)]

mod classes;
mod key;
mod laws;

pub use classes::Classes;
pub use key::Key;
pub use laws::{
    equal_keys_are_told_apart_by_no_ad, equal_names_give_equal_keys,
    jobs_of_one_class_are_matched_alike, keys_have_the_reached_attributes,
};
