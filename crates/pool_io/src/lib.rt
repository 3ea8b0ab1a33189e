//! Where bytes come from and go to: a source and a sink that count their faults, over memory and over std's streams.
#![tactic(auto)]

mod memory_sink;
mod memory_source;
mod sink;
mod source;
mod stream;
mod tied;

pub use memory_sink::MemorySink;
pub use memory_source::MemorySource;
pub use sink::{Sink, write_all};
pub use source::{Failed, Source};
pub use stream::{StdSink, StdSource};
pub use tied::{TiedOutput, TiedReader, TiedWriter};
