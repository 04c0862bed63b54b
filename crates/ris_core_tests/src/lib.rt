//! Cases of the core machine, worked out by hand. They stand apart from it, so that its proof is checked once.
#![tactic(auto)]

#[cfg(test)]
mod tests;
