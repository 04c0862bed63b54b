//! The program `ris`: replays the script on its standard input, with the analyses that its words name, and writes the
//! transcript to the standard output.
#![tactic(auto)]

mod arguments;
mod programs;
mod tally;

use programs::program;
use ris_io::{StdSink, StdSource};
use std::process::ExitCode;

fn main(rt: HostRuntime) -> ExitCode {
    let mut input = StdSource::new(rt.stdin());
    let mut out = StdSink::new(rt.stdout());
    let mut faults = StdSink::new(rt.stderr());
    ExitCode::from(program(&rt, &mut input, &mut out, &mut faults))
}
