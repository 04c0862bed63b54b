//! The core machine: what the sessions, a turn of the driver and the serial list do, one atomic action at a time, over plain graphs and
//! lists. It is small and slow on purpose.
#![tactic(auto)]

mod answers;
mod board;
mod candidates;
mod cells;
mod checks;
mod copies;
mod graphs;
mod lists;
mod machine;
mod memory;
mod phases;
mod seats;
mod tables;

pub use machine::{Core, CoreFault};
