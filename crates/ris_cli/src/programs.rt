ghost use Rattle.std.specs.Prelude.{◌≡◌};
ghost use Rattle.ris_base.specs.Script.{Fault};
ghost use Rattle.ris_base.specs.Status.{Grew, status_code, status_line, stream_of};
ghost use Rattle.ris_base.specs.declared.statuses.Status.{Status as Ending};

use crate::arguments::{read_words, refuse};
use crate::tally::Tally;
use ris_base::FreeGate;
use ris_io::{Sink, Source};
use ris_replay::run;
use std::env::Env;
use std::sync::Wait;
use std::thread::Threads;

/// Runs the program on the words of the command line, over these streams. The result is the exit code of the process: that
/// of the status whose line went to `faults`, and 0 where none did.
pub fn program<R: Threads + Wait + Sync + Env + AllocGlobal, I: Source, O: Sink, F: Sink>(
    rt: &R,
    input: &mut I,
    out: &mut O,
    faults: &mut F,
) -> u8
    ensures { (status : Ending) × (fault : Fault) × (result ≡ status_code status)
        × Grew (stream_of F.held F.faults faults.old faults.new) (status_line status fault) }
{
    let status = match read_words(rt) {
        Ok(words) => {
            let mut meter = Tally::new();
            run(
                rt,
                rt.alloc(),
                &words,
                input,
                out,
                faults,
                &mut meter,
                &FreeGate,
            )
        }
        Err(refusal) => refuse(refusal, faults),
    };
    status.code()
}
