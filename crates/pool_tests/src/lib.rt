//! Tests of runs of the pool.
#![tactic(auto)]

#[cfg(test)]
mod crowds;
#[cfg(test)]
mod memory;
#[cfg(test)]
mod runs;
#[cfg(test)]
mod wire;
