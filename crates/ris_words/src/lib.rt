//! The command line: the words as a job, and the list of analyses; and the script that the job of a seed makes.
#![tactic(auto)]

mod analyses;
mod commands;
mod draws;
mod errors;
mod options;
mod scripts;
#[cfg(test)]
mod tests;
mod words;

pub use analyses::read_analyses;
pub use errors::WordsError;
pub use scripts::make_script;
pub use words::read_words;
