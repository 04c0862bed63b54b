//! The interface of an analysis, with the laws that all code which computes one rests on.
#![tactic(auto)]

mod monotone;

pub use monotone::Monotone;
