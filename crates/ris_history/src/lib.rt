//! What each analysis gave each vertex at each place from the floor on, kept as changes.
#![tactic(auto)]

mod chains;
mod growth;
mod held;
mod histories;
mod laters;
mod laws;
mod moves;
mod numbers;
mod openings;
mod paths;
mod pushes;
mod sessions;
mod tables;
#[cfg(test)]
mod tests;
mod trims;

pub use histories::History;
pub use laws::parts_law;
