//! The pool: runs the commands of a script that a source gives, and offers the replies to a sink. So it runs the lines of a
//! schedule of the claiming protocol, and a workload whose script it writes itself.
#![tactic(auto)]

mod command_line;
mod laws;
mod left;
mod line_wire;
mod mail;
mod options;
mod pool_machine;
mod run;
mod wire_machine;
mod workload_run;

pub use command_line::{Asked, mails, read_words, words_of};
pub use laws::the_first_reply_is_offered_at_once;
pub use left::Left;
pub use mail::Mail;
pub use pool_state::Pool;
pub use run::{Host, run_and_keep, run_pool};
pub use script_run::RunEnd;
pub use workload::generated;
