//! New values and parents after a request, from the vertices that fall: a pull from the vertices that stand, then a push,
//! best first, as in Dijkstra's algorithm. Every neighbour that is handed out is counted.
#![tactic(auto)]

mod adding;
mod deltas;
mod fews;
mod frontiers;
mod lined_piles;
mod marking;
mod piles;
mod pulling;
mod pushing;
mod queue_lines;
mod queues;
mod radix;
mod repairs;
mod stores;
mod tables;
mod taking;

pub use repairs::{from_scratch, repair};
