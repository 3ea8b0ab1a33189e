//! Tests of streams and mailboxes.
#![tactic(auto)]

#[cfg(test)]
mod boxes;
#[cfg(test)]
mod streams;
