//! An index of ads by the literals of their attributes, which answers a test by the ads that don't decide against it.
#![tactic(auto)]

mod attributes;
mod digest;
mod entry;
mod index;
mod literal;
mod name;
mod place;
mod selection;
mod shortened;
mod span;

pub use entry::is_pair;
pub use index::Index;
