//! The claiming protocol: the two ends of a claim as machines, and a run of them on a schedule.
//!
//! That the two parties of a match claim each other directly is in Raman, Livny and Solomon (1998). The messages, their
//! numbers and what each end stores are this program's own.
#![tactic(auto)]

mod customer;
mod event;
mod fault;
mod laws;
mod line;
mod message;
mod replies;
mod resource;
mod wire;

pub use customer::{Customer, Phase};
pub use event::Event;
pub use fault::{LineFault, WireFault};
pub use laws::holding_customers_are_holders;
pub use line::read_event;
pub use message::{Answers, Holder, Message, MessageKind};
pub use resource::Resource;
pub use wire::Wire;
