//! What tests of runs share: sources and sinks in memory, and runs of the pool over them.
#![tactic(auto)]

mod runs;

pub use runs::{Case, Host, calls, host_of, run, run_alone, run_over, source_of, texts};
