//! A graph: counted out rows in 64 stripes, in rows that are their transpose, and which vertex numbers are present.
#![tactic(auto)]

mod commits;
mod degrees;
mod graphs;
mod jobs;
mod listings;
mod looses;
mod nets;
mod outs;
mod rooms;
mod settles;
mod sorting;
mod stripes;
mod tables;

pub use graphs::Graph;
pub use jobs::Jobs;
pub use looses::Loose;
pub use nets::{Net, NetTriple, NetTriples};
pub use ris_base::Verdict;
pub use stripes::{Stripe, StripeJob};
