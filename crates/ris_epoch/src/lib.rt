//! The driver: a turn is an epoch.
#![tactic(auto)]

mod answers;
mod batches;
mod begins;
mod candidates;
mod drivers;
#[cfg(test)]
mod forest_tests;
mod judging;
mod laws;
mod openings;
mod ordered;
#[cfg(test)]
mod phase_tests;
mod phases;
mod renewals;
mod seals;
mod tails;
#[cfg(test)]
mod tests;
mod turns;

pub use batches::Batch;
pub use drivers::{Driver, Final};
pub use laws::{right_law, turn_law};
pub use turns::Turn;
