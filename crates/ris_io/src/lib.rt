//! Sources and sinks of bytes that count their faults, what reads a source to its end and writes a text whole, and the
//! forms of both: in memory with faults on demand, without faults, and over any reader or writer of std.
#![tactic(auto)]

mod faults;
mod memory;
mod never;
mod pieces;
mod reading;
mod sinks;
mod sources;
mod standard;
#[cfg(test)]
mod tests;
mod writing;

pub use faults::{Failed, ReadError, WriteFault};
pub use memory::{Calls, MemSink, MemSource};
pub use never::{NeverSink, NeverSource};
pub use reading::read_all;
pub use sinks::Sink;
pub use sources::Source;
pub use standard::{StdSink, StdSource};
pub use writing::put_all;
