//! The outside: sources and sinks of bytes that count their faults, in memory and over std's
//! readers and writers. A source is read to its end and a text written whole, or the caller
//! learns why not.
//!
//! All of this is the project's own: the ARTIQ manual says nothing of it.
#![tactic(auto)]

mod page;
mod sink;
mod source;
mod standard;
mod tape;

pub use page::Page;
pub use sink::{Sink, write_all};
pub use source::{Failed, ReadEnd, Source, read_all};
pub use standard::{StdSink, StdSource};
pub use tape::Tape;
