//! Tests of the small crates: texts, slices, lines and blocks, refusals, the wire's ends, workloads.
#![tactic(auto)]

#[cfg(test)]
mod lines;
#[cfg(test)]
mod replies;
#[cfg(test)]
mod scripts;
#[cfg(test)]
mod slices;
#[cfg(test)]
mod texts;
#[cfg(test)]
mod wire;
#[cfg(test)]
mod workloads;
