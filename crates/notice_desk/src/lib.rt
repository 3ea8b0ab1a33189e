//! Mailboxes under names: boxes over memory and over files, and the desk that hands them notices.
#![tactic(auto)]

mod desk;
mod entry;
mod file_mailbox;
mod mailbox;
mod memory_mailbox;
mod notices;

pub use desk::{AddFault, Desk};
pub use file_mailbox::FileMailbox;
pub use mailbox::Mailbox;
pub use memory_mailbox::MemoryMailbox;
pub use notices::{Notices, PostEnd};
