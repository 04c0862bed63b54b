//! The values and parents of one analysis for all vertex numbers, with each vertex's children as links by number, and
//! the changes that are committed to them.
#![tactic(auto)]

mod deltas;
mod forests;
mod nodes;
mod packing;
mod subtrees;

pub use deltas::{Delta, DeltaRow, Deltas, Fallen};
pub use forests::Forest;
pub use subtrees::Subtrees;
