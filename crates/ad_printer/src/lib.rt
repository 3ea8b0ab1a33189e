//! Text of trees and of values, which the parser reads back.
#![tactic(auto)]

mod laws;
mod operators;
mod pieces;
mod printing;
mod quoting;
mod value;
mod writing;

pub use laws::{
    printed_ads_are_read_back, printed_phrases_are_read_back, printed_trees_are_read,
    printing_is_one_to_one,
};
pub use printing::{print_ad, print_expr, print_value};
