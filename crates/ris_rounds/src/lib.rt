//! Every run in rounds is a run of the core machine, so its replies are legal.
#![tactic(auto)]

mod laws;

pub use laws::{
    answer_law, await_law, batch_law, end_law, fit_law, question_law, start_law, submit_law,
    turn_law,
};
