//! Gangs: the ports of a request, and the resources that they are given.
#![tactic(auto)]

mod free_ports;
mod gangs;
mod laws;
mod ports;
mod prefix;
mod reading;
mod scene;
mod searching;
mod weighing;

pub use gangs::first_gang;
pub use laws::{
    a_free_port_is_worth_the_same_behind_all_prefixes, more_offers_leave_no_more_gangs,
    no_other_tuple_comes_before_the_gang,
};
pub use ports::{PortsFault, read_ports};
