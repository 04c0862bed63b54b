//! The program's top call: from words, an input and an output to a status. `run` and `run_inline` carry the headline.
#![tactic(auto)]

mod endings;
mod jobs;
mod lineups;
mod locals;
#[cfg(test)]
mod net_tests;
mod reports;
mod rounds;
#[cfg(test)]
mod rows;
mod runs;
#[cfg(test)]
mod tests;
#[cfg(test)]
mod transcript_tests;

pub use locals::{Played, replay_local};
pub use reports::put_fault;
pub use ris_base::Status;
pub use runs::{run, run_inline};
