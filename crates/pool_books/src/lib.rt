//! What a pool keeps: its ads with their index, and its jobs with what is offered to them and claimed by them. They change
//! together, so that whatever a job has is held.
#![tactic(auto)]

mod advertised;
mod books;
mod indexed;
mod naming;

pub use advertised::Advertised;
pub use books::Books;
pub use indexed::{IndexedStore, NotPut};
pub use naming::{name_of, names_given, names_of};
