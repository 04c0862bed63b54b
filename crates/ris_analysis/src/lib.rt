//! The forests of all analyses: they are made once from the graph, and each request repairs what it makes wrong in them.
#![tactic(auto)]

mod analyses;
mod judging;
mod kinds;
mod lists;

pub use analyses::Analyses;
pub use ris_forest::Deltas;
