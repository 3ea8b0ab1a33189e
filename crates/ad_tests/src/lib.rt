//! Tests of the crates that read, hold and match ads, of what no script can say: tokens, texts, drafts and worlds; what tests of
//! requirements and the index rule out, which no reply shows.
#![tactic(auto)]

#[cfg(test)]
mod index;
#[cfg(test)]
mod plans;
#[cfg(test)]
mod texts;
#[cfg(test)]
mod trees;
#[cfg(test)]
mod worlds;
