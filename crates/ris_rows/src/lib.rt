//! The neighbours of one vertex, as a counted, ascending list. A cursor alone goes through it, and a meter counts
//! each neighbour that the cursor hands out. Room for inserts is made beforehand, and an insert takes no memory.
#![tactic(auto)]

mod cursors;
mod glances;
mod lists;
mod neighbours;
mod rows;
#[cfg(test)]
mod tests;

pub use cursors::Cursor;
pub use glances::Glance;
pub use neighbours::Neighbour;
pub use rows::Row;
