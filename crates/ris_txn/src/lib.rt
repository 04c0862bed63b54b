//! Transactions. A request is judged part by part over notes of what its parts made of the graph so far. Where no part
//! is refused, the notes and the rows of the vertices that are dropped give its net. A request whose only part adds or takes
//! a copy of an edge needs no notes.
#![tactic(auto)]

mod collecting;
mod faults;
mod judging;
mod listing;
mod nets;
mod overlays;
mod singles;
mod steps;

pub use nets::net_of;
