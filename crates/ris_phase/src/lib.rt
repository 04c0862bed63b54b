//! The parallel phase of a turn: which requests are candidates, and the decision of all candidates by many workers, each
//! of which has stripes of its own.
#![tactic(auto)]

mod candidates;
mod gates;
mod phases;

pub use candidates::is_candidate;
pub use gates::HoldGate;
pub use phases::apply;
pub use ris_base::{FreeGate, Gate, Verdict};
pub use ris_graph::{Jobs, Loose, Stripe};
