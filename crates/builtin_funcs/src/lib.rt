//! The functions of the ClassAd language over values.
#![tactic(auto)]

mod aggregates;
mod calls;
mod conversions;
mod function;
mod kinds;
mod laws;
mod lists;
mod rows;
mod string_lists;
mod texts;

pub use calls::{call, known};
pub use laws::{
    int_reads_what_string_writes, joined_items_are_items, strcat_joins_texts, to_lower_is_folding,
};
