//! The outside, as the program sees it: sources of bytes and sinks for bytes, which may fail.
//!
//! A device keeps a count of its faults that never falls, and a call answers [`Failed`] only where the
//! count rose, so an answer that names a fault has a cause that a caller can point to. A device may
//! also tell what it has `left` or what it has `held`: its contract then says which bytes a call moved.
//!
//! - [`Source`], [`Sink`]: what the layer above uses, and nothing else;
//! - [`PlainSource`], [`MemorySource`], [`MemorySink`]: devices in memory, which tell their bytes;
//! - [`ReaderSource`], [`WriterSink`]: thin adapters over std's readers and writers. What the system's
//!   own streams give and take is not proved: they are the trusted edge.
#![tactic(auto)]

mod adapter;
mod memory;
mod port;

pub use adapter::{ReaderSource, WriterSink};
pub use memory::{MemorySink, MemorySource, PlainSource};
pub use port::{Failed, Sink, Source};
