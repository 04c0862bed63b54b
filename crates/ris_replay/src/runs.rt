ghost use Rattle.std.specs.Prelude.{◌≡◌, ◌≢◌, ◌-◌, ◌≤◌, ℕ, false, length, IsTrue, IfOk, Err, Ok};
ghost use Rattle.ris_base.specs.Causes.{Rose};
ghost use Rattle.ris_base.specs.Status.{Grew, IsTextOf, IsUntouched, OnTold, reads_input, specs_of, status_line, stream_of};
ghost use Rattle.ris_base.specs.declared.jobs.Job.TheVariants as kind;
ghost use Rattle.ris_base.specs.declared.scripts.Script.{Script as ReadScript};
ghost use Rattle.ris_script.specs.Bytes.{Reads, script_of};
ghost use Rattle.ris_script.specs.declared.faults.ScriptError.TheVariants as error;
ghost use Rattle.ris_replay.specs.Endings.{Ends, HasNoFault, IsLong, fault_of, status_of};
ghost use Rattle.ris_replay.specs.Jobs.{AreFit, HasBytes, IsFit, IsReplayed, SpellsFew, script_in};
ghost use Rattle.ris_replay.specs.Program.{IsRun, program};
ghost use Rattle.ris_replay.specs.Reports.{reported_cause};

use crate::endings::Ending;
use crate::jobs::inline_job;
use crate::locals::{Played, replay_local};
use crate::put_fault;
use ris_base::{
    Bytes, Gate, Job, Kind, Meter, NoMemory, SCRIPT_LIMIT, Script, Spec, Specs, Status, Text, Words,
};
use ris_io::{ReadError, Sink, Source, put_all, read_all};
use ris_script::{ScriptError, read_script};
use ris_text::{summary_text, transcript_text};
use ris_words::{WordsError, make_script};
use std::alloc::Global;
use std::sync::Wait;
use std::thread::Threads;

/// Runs the command that the words say, as `run_inline` does every command so far; commands with threads of their own are
/// to come, and may wait.
pub fn run<R: Threads + Wait + Sync, I: Source, O: Sink, F: Sink, M: Meter, G: Gate>(
    rt: &R,
    alloc: Global,
    words: &Words,
    input: &mut I,
    out: &mut O,
    faults: &mut F,
    meter: &mut M,
    gate: &G,
) -> Status
    ensures run { IsRun words.now (stream_of I.left I.faults input.old input.new) (stream_of O.held O.faults out.old out.new)
        (stream_of F.held F.faults faults.old faults.new) (M.ticks meter.new - M.ticks meter.old) result }
    ensures ticks { M.ticks meter.old ≤ M.ticks meter.new }
{
    run_inline(rt, alloc, words, input, out, faults, meter, gate)
}

/// Runs the command that the words say, and reports how it ended on the faults. `replay --analyses LIST` reads a script
/// from the input to its end, replays it in rounds, and writes its transcript to the output. `demo SEED` makes a script of the
/// seed, replays it, and writes the last line of its transcript alone. It always returns.
///
/// `Usage` for other words, and for `--threads`; `ReadFault` where a read failed; `TooLong` where the input has more than
/// 67,108,864 bytes; `Script` where its bytes spell no script; `WriteFault` where a write failed; `NoMemory` where memory was
/// wanted, all of which is taken before the first byte is written. A demo leaves the input alone, and ends by `Ok`,
/// `WriteFault` or `NoMemory`. The faults grow by the line of the status, or by a prefix of it where their own count of faults
/// rose; that changes no status. Where the words say a job, an input that it reads is short enough and spells a script, and no read
/// and no write failed, it ends by `Ok` or `NoMemory`.
///
/// The meter ticks once for each visit. A script that only adds, where no reply wants memory, takes at most the reach of the start
/// and of the entries.
pub fn run_inline<R: Threads + Sync, I: Source, O: Sink, F: Sink, M: Meter, G: Gate>(
    rt: &R,
    alloc: Global,
    words: &Words,
    input: &mut I,
    out: &mut O,
    faults: &mut F,
    meter: &mut M,
    gate: &G,
) -> Status
    ensures run { IsRun words.now (stream_of I.left I.faults input.old input.new) (stream_of O.held O.faults out.old out.new)
        (stream_of F.held F.faults faults.old faults.new) (M.ticks meter.new - M.ticks meter.old) result }
    ensures ticks { M.ticks meter.old ≤ M.ticks meter.new }
{
    let ending = answer(rt, alloc, words, input, out, gate, meter);
    report(ending, faults)
}

/// Does what the words say, but for the report.
fn answer<R: Threads + Sync, I: Source, O: Sink, M: Meter, G: Gate>(
    rt: &R,
    alloc: Global,
    words: &Words,
    input: &mut I,
    out: &mut O,
    gate: &G,
    meter: &mut M,
) -> Ending
    ensures ends { Ends program words.now (stream_of I.left I.faults input.old input.new)
        (stream_of O.held O.faults out.old out.new) (M.ticks meter.new - M.ticks meter.old) result }
    ensures ticks { M.ticks meter.old ≤ M.ticks meter.new }
{
    let job = match inline_job(alloc, words) {
        Ok(job) => job,
        Err(WordsError::Usage) => return Ending::Usage,
        Err(WordsError::NoMemory) => return Ending::NoMemory,
    };
    let bytes = match script_bytes(alloc, &job, input) {
        Ok(bytes) => bytes,
        Err(ReadError::ReadFault) => return Ending::ReadFault,
        Err(ReadError::TooLong) => return Ending::TooLong,
        Err(ReadError::NoMemory) => return Ending::NoMemory,
    };
    match text_of(rt, alloc, &job, bytes, gate, meter) {
        Ok(text) => match put_all(out, &text.into_vec()) {
            Ok(()) => Ending::Done,
            Err(_) => Ending::WriteFault,
        },
        Err(ScriptError::Fault { number, cause }) => Ending::Script { number, cause },
        Err(ScriptError::NoMemory) => Ending::NoMemory,
    }
}

/// The bytes of a job's script: those of the input, which is read to its end, or those that are made of a seed, for which the
/// input is left alone.
fn script_bytes<I: Source>(alloc: Global, job: &Job, input: &mut I) -> Result<Bytes, ReadError>
    requires { IsFit job.now }
    ensures bytes { IfOk result (λ bytes. HasBytes (stream_of I.left I.faults input.old input.new) job.now bytes) }
    ensures reads { (result ≡ Err ReadError.ReadFault) → IsTrue (reads_input job.now) }
    ensures rose { (result ≡ Err ReadError.ReadFault) → Rose (I.faults input.old) (I.faults input.new) }
    ensures short { (result ≡ Err ReadError.ReadFault)
        → OnTold (stream_of I.left I.faults input.old input.new) (λ before after. ¬ (IsLong before after)) }
    ensures reads_long { (result ≡ Err ReadError.TooLong) → IsTrue (reads_input job.now) }
    ensures long { (result ≡ Err ReadError.TooLong) → OnTold (stream_of I.left I.faults input.old input.new) IsLong }
    ensures no_fault { (result ≢ Err ReadError.ReadFault) → HasNoFault (stream_of I.left I.faults input.old input.new) }
    ensures alone { reads_input job.now ≡ false → IsUntouched (stream_of I.left I.faults input.old input.new) }
{
    match job {
        Job::Replay { .. } => read_all(alloc, input, SCRIPT_LIMIT),
        Job::Demo { seed, size, .. } => match make_script(alloc, *seed, *size) {
            Ok(bytes) => Ok(bytes),
            Err(NoMemory) => Err(ReadError::NoMemory),
        },
    }
}

/// Reports an ending on the faults, and gives its status. A fault of this report changes no status.
fn report<F: Sink>(ending: Ending, faults: &mut F) -> Status
    ensures status { result ≡ status_of ending }
    ensures line { Grew (stream_of F.held F.faults faults.old faults.new)
        (status_line (status_of ending) (fault_of ending)) }
    ensures ok { status_of ending ≡ Status.Ok → IsUntouched (stream_of F.held F.faults faults.old faults.new) }
{
    let (status, fault) = match ending {
        Ending::Done => return Status::Ok,
        Ending::Usage => (Status::Usage, None),
        Ending::Script { number, cause } => (Status::Script, Some((number, cause))),
        Ending::TooLong => (Status::TooLong, None),
        Ending::ReadFault => (Status::ReadFault, None),
        Ending::WriteFault => (Status::WriteFault, None),
        Ending::NoMemory => (Status::NoMemory, None),
    };
    let _ = put_fault(&status, fault, faults);
    status
}

/// What a job writes of a transcript of the script that bytes spell: all of it, or its last line. Its last number is the rise of
/// the meter. The bytes are given up once the script is read.
fn text_of<R: Threads + Sync, M: Meter, G: Gate>(
    rt: &R,
    alloc: Global,
    job: &Job,
    bytes: Bytes,
    gate: &G,
    meter: &mut M,
) -> Result<Text, ScriptError>
    requires fit { IsFit job.now }
    requires few { SpellsFew (length (specs_of job.now)) bytes }
    ensures text { IfOk result (λ text. (script : ReadScript) × (script_in job.now bytes ≡ Ok script)
        × IsTextOf program job.now script (M.ticks meter.new - M.ticks meter.old) text) }
    ensures fault { (number : ℕ) (cause : _) → result ≡ Err (error.Fault number cause)
        → script_in job.now bytes ≡ Err (reported_cause number cause) }
    ensures still { (number : ℕ) (cause : _) → result ≡ Err (error.Fault number cause) → M.ticks meter.new ≡ M.ticks meter.old }
    ensures ticks { M.ticks meter.old ≤ M.ticks meter.new }
{
    match job {
        Job::Replay { specs, workers, .. } => {
            let played = played(rt, alloc, specs, bytes, *workers, gate, meter)?;
            Ok(transcript_text(alloc, &played.logs, &played.lines, played.visits)?)
        }
        Job::Demo { workers, .. } => {
            let specs = demo_specs(alloc)?;
            let played = played(rt, alloc, &specs, bytes, *workers, gate, meter)?;
            Ok(summary_text(alloc, &played.logs, &played.lines, played.visits)?)
        }
    }
}

/// The replay of the script that bytes spell, or its first fault. The bytes are given up once the script is read.
fn played<R: Threads + Sync, M: Meter, G: Gate>(
    rt: &R,
    alloc: Global,
    specs: &Specs,
    bytes: Bytes,
    workers: u32,
    gate: &G,
    meter: &mut M,
) -> Result<Played, ScriptError>
    requires fit { AreFit specs.now workers }
    requires few { SpellsFew (length specs.now) bytes }
    ensures replayed { IfOk result (λ played. IsReplayed specs.now bytes played.logs played.lines played.visits) }
    ensures visits { IfOk result (λ played. played.visits ≡ M.ticks meter.new - M.ticks meter.old) }
    ensures fault { (number : ℕ) (cause : _) → result ≡ Err (error.Fault number cause)
        → script_of (length specs.now) bytes ≡ Err (reported_cause number cause) }
    ensures still { (number : ℕ) (cause : _) → result ≡ Err (error.Fault number cause) → M.ticks meter.new ≡ M.ticks meter.old }
    ensures ticks { M.ticks meter.old ≤ M.ticks meter.new }
{
    let script = script_in(alloc, bytes, specs.len() as u32)?;
    Ok(replay_local(rt, alloc, script, specs, workers, gate, meter)?)
}

/// The script that bytes spell, or its first fault. The bytes are given up. Before that, they give back the memory that they
/// don't fill, where that is to be had.
fn script_in(alloc: Global, bytes: Bytes, analyses: u32) -> Result<Script, ScriptError>
    ensures { Reads result (script_of analyses bytes) }
{
    let mut bytes = bytes.into_vec();
    let _ = bytes.shrink_to_fit();
    read_script(alloc, &bytes, analyses)
}

/// The analyses of a script that is made of a seed: depth and shortest path from vertex 0, and components.
fn demo_specs(alloc: Global) -> Result<Specs, NoMemory>
    ensures { IfOk result (λ specs. (seed size workers : ℕ) → specs ≡ specs_of (kind.Demo seed size workers)) }
{
    let mut specs = Specs::new(alloc);
    specs.push(rooted(Kind::Bfs))?;
    specs.push(rooted(Kind::Sssp))?;
    specs.push(rooted(Kind::Wcc))?;
    Ok(specs)
}

/// An analysis of this kind with root 0.
fn rooted(kind: Kind) -> Spec
    ensures { result ≡ record { kind = kind; root = 0 } }
{
    Spec { kind, root: 0 }
}
