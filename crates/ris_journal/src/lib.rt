//! The one serial list of the accepted entries, the marks and the leaves, with a table by which an entry is found by
//! its place. Room for lines is made beforehand, and an append takes no memory.
#![tactic(auto)]

mod journals;

pub use journals::Journal;
