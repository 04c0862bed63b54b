//! The vertices that a request makes fall in a forest: those that come or go, and all that hang at or below an edge that is
//! lost.
#![tactic(auto)]

mod falling;

pub use falling::fallen;
