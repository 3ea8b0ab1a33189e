//! Tests of runs with faults, and of scripts that are made to be slow.
#![tactic(auto)]

#[cfg(test)]
mod faults;
