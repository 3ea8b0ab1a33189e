//! Tests of the store, its order and the table of jobs, call by call and at their limits.
#![tactic(auto)]

#[cfg(test)]
mod claims;
#[cfg(test)]
mod slots;
#[cfg(test)]
mod store;
