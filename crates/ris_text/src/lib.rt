//! The text of a transcript: the reply lines of the sessions, the journal of the serial list, and the summary.
#![tactic(auto)]

mod answers;
mod counts;
mod journals;
mod numbers;
mod printers;
mod replies;
mod tails;
#[cfg(test)]
mod tests;
mod transcripts;

pub use transcripts::{summary_text, transcript_text};
