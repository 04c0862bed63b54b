//! The rule of safe updates, which change no value of an analysis and keep its forest right, decided in constant time but
//! for a binary search.
#![tactic(auto)]

mod judges;
mod laws;
mod safety;

pub use judges::Judge;
pub use laws::safe_law;
pub use safety::{is_safe, is_used_by};
