//! Reads a script from its bytes, or says which record is its first fault. What the bytes of a script spell is
//! `script_of` of specs/Bytes.antt.
#![tactic(auto)]

mod digits;
mod drafts;
mod faults;
mod headers;
mod rows;
mod sayings;
mod scripts;
mod sessions;
mod words;

pub use faults::ScriptError;
pub use ris_base::{Cause, Script};
pub use scripts::read_script;
