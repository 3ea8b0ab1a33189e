//! Tests of workloads, and of the words of a command line.
#![tactic(auto)]

#[cfg(test)]
mod words;
#[cfg(test)]
mod workloads;
