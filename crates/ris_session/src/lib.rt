//! The sessions of a run: what a session does next, and what it was told so far. It knows nothing of who carries its
//! requests, and waits for nothing.
#![tactic(auto)]

mod players;
mod requests;

pub use players::{Next, Player};
