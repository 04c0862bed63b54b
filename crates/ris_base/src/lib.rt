//! The types, limits and definitions that every crate of the engine speaks of. The definitions stand in `specs/`,
//! and docs/DEFINITIONS.md reads them aloud.
#![tactic(auto)]

mod analyses;
mod commands;
mod events;
mod forests;
mod graphs;
mod jobs;
mod limits;
mod lines;
mod memory;
mod meters;
mod numbers;
mod parts;
mod records;
mod replies;
mod requests;
mod scripts;
mod sequences;
mod statuses;
#[cfg(test)]
mod tests;
mod updates;
mod words;

pub use analyses::{Kind, Spec, Specs, Value, Values};
pub use commands::{Command, CommandLists, Commands, Version};
pub use events::{Event, Events, Order, Verdict};
pub use forests::{ForestRow, ForestRows, Forests, Parent};
pub use graphs::{Format, PlainGraph, Triple, Triples, VertexId, Vertices};
pub use jobs::Job;
pub use limits::{PART_LIMIT, SCRIPT_LIMIT, SESSION_LIMIT, VERTEX_LIMIT};
pub use lines::{Entries, Entry, Line, Lines};
pub use memory::NoMemory;
pub use meters::{FreeGate, Gate, Meter};
pub use numbers::read_number;
pub use parts::{Parts, PartsBuilder, PartsFault};
pub use records::{Change, Changes, Record, Start};
pub use replies::{Log, LogLine, Logs, Outcome, ReadAnswer, ReadRefusal, Refusal};
pub use requests::{Question, Request};
pub use scripts::{Cause, Script};
pub use sequences::{Bytes, Sequence, Text};
pub use statuses::Status;
pub use updates::Update;
pub use words::Words;
