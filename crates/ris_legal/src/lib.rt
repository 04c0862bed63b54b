//! Every account of a run is legal, and every step of the core machine keeps an account.
#![tactic(auto)]

mod laws;

pub use laws::{account_law, cells_law, epoch_law, run_law, step_law};
