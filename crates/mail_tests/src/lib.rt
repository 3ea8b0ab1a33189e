//! Tests of mailboxes that listen to a run or to a workload.
#![tactic(auto)]

#[cfg(test)]
mod boxes;
#[cfg(test)]
mod notices;
