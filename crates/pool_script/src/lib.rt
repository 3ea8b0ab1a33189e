//! The commands of a script, and the lines of an input, from bytes that come in pieces of any size.
#![tactic(auto)]

mod command;
mod cuts;
mod keyword;
mod laws;
mod line;
mod lines;
mod names;
mod parse;
mod reader;
mod script;

pub use command::Command;
pub use laws::{
    commands_are_no_more_than_bytes, ended_commands_come_first, ended_lines_come_first,
    lines_are_no_more_than_bytes, taken_and_waiting_are_no_more_than_bytes,
};
pub use lines::{Line, Lines};
pub use names::is_name;
pub use script::Script;
