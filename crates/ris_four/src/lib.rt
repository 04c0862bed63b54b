//! The four analyses, and a plain program which computes their values from the definitions, for any graph.
#![tactic(auto)]

mod components;
mod depths;
mod effects;
mod neighbours;
mod plain;
mod rounds;
mod shortest;
mod tables;
#[cfg(test)]
mod tests;
mod widest;

pub use components::Wcc;
pub use depths::Bfs;
pub use effects::{plain_copy, plain_entered};
pub use plain::plain_values;
pub use shortest::Sssp;
pub use widest::Sswp;
