ghost use Rattle.std.specs.Prelude.{◌≡◌, ◌≢◌, ◌<◌, ◌↔◌, ℕ, Option, Some, None, IsSome, length, take, map, OnOk, OnErr};
ghost use Rattle.std.specs.Io.KnownBytes.{append_known};
ghost use Rattle.ris_base.specs.Causes.{HasCause};
ghost use Rattle.ris_base.specs.Status.{status_line, cause_word, script_line};
ghost use Rattle.std.specs.List.{concat};
ghost use Rattle.ris_replay.specs.Reports.{reported, reported_cause};

use itoa::Buffer;
use ris_base::{Cause, Status};
use ris_io::{Sink, WriteFault, put_all};

/// Writes the line of a status to the faults, with the number and cause of the script's first fault where that is the
/// status. It takes no memory. `WriteFault` only where a write failed and raised the count of the sink's faults; what it
/// holds then grew by a prefix of the line.
pub fn put_fault<F: Sink>(
    status: &Status,
    fault: Option<(u64, Cause)>,
    faults: &mut F,
) -> Result<(), WriteFault>
    requires refused { status.now ≢ Status.Ok }
    requires fault { IsSome fault ↔ (status.now ≡ Status.Script) }
    ensures ok { OnOk result (F.held faults.new ≡ append_known (F.held faults.old) (status_line status.now (reported fault))) }
    ensures cut { OnErr result ((k : ℕ) × (k < length (status_line status.now (reported fault)))
        × (F.held faults.new ≡ append_known (F.held faults.old) (take k (status_line status.now (reported fault))))) }
    ensures cause { HasCause (F.faults faults.old) (F.faults faults.new) result }
{
    match *status {
        Status::Usage => put_all(faults, b"ris: usage\n"),
        Status::TooLong => put_all(faults, b"ris: input too long\n"),
        Status::ReadFault => put_all(faults, b"ris: read fault\n"),
        Status::WriteFault => put_all(faults, b"ris: write fault\n"),
        Status::NoMemory => put_all(faults, b"ris: out of memory\n"),
        Status::Script => match fault {
            Some((number, cause)) => put_script_fault(number, cause, faults),
            None => unreachable!(),
        },
        Status::Ok => unreachable!(),
    }
}

/// Writes the line of a fault of the script: its pieces one after another, none behind one that failed.
fn put_script_fault<F: Sink>(number: u64, cause: Cause, faults: &mut F) -> Result<(), WriteFault>
    ensures ok { OnOk result (F.held faults.new ≡ append_known (F.held faults.old) (script_line (reported_cause number cause))) }
    ensures cut { OnErr result ((k : ℕ) × (k < length (script_line (reported_cause number cause)))
        × (F.held faults.new ≡ append_known (F.held faults.old) (take k (script_line (reported_cause number cause))))) }
    ensures cause { HasCause (F.faults faults.old) (F.faults faults.new) result }
{
    let mut digits = Buffer::new();
    let number = digits.format(number).as_bytes();
    put_pieces(
        &[
            b"ris: script: record ",
            number,
            b": ",
            cause_text(cause),
            b"\n",
        ],
        faults,
    )
}

/// The word of a cause.
fn cause_text(cause: Cause) -> &'static [u8]
    ensures { result.now ≡ cause_word cause }
{
    match cause {
        Cause::Header => b"header",
        Cause::Base => b"base",
        Cause::Field => b"field",
        Cause::Session => b"session",
        Cause::Left => b"left",
        Cause::Op => b"op",
        Cause::Analysis => b"analysis",
        Cause::Inside => b"inside",
        Cause::Close => b"close",
        Cause::Parts => b"parts",
    }
}

/// Writes pieces one after another, none behind one that failed.
fn put_pieces<F: Sink>(pieces: &[&[u8]], faults: &mut F) -> Result<(), WriteFault>
    ensures ok { OnOk result (F.held faults.new ≡ append_known (F.held faults.old) (concat (map (λ piece. piece.now) pieces.now))) }
    ensures cut { OnErr result ((k : ℕ) × (k < length (concat (map (λ piece. piece.now) pieces.now)))
        × (F.held faults.new ≡ append_known (F.held faults.old) (take k (concat (map (λ piece. piece.now) pieces.now))))) }
    ensures cause { HasCause (F.faults faults.old) (F.faults faults.new) result }
{
    let Some((first, rest)) = pieces.split_first() else {
        return Ok(());
    };
    put_all(faults, first)?;
    put_pieces(rest, faults)
}
