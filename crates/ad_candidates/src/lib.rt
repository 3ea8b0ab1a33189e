//! The ads that a request's tests leave to be looked at: those of its most selective look-up, and what is remembered of tests.
#![tactic(auto)]

mod known_tests;
mod narrowing;

pub use known_tests::{Counted, KnownTests, Listed};
pub use narrowing::{candidates, candidates_at, candidates_knowing};
