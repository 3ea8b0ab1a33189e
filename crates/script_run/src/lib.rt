//! The run of an input over a source and a sink: it is read piece by piece, and a machine answers each of its items as soon as the
//! item has ended.
#![tactic(auto)]

mod answer;
mod answering;
mod laws;
mod machine;
mod reading;
mod run_end;

pub use answer::Answer;
pub use answering::run;
pub use laws::the_first_answer_is_offered_at_once;
pub use machine::Machine;
pub use run_end::RunEnd;
