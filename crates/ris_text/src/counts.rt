ghost use Rattle.std.specs.Prelude.{◌≡◌, IfOk, count_by};
ghost use Rattle.ris_base.specs.Lines.{front, mark_count};
ghost use Rattle.ris_base.specs.Replies.{is_refused};
ghost use Rattle.ris_base.specs.Transcript.{refused_count};
ghost use Rattle.ris_text.specs.Counts.{AreCounts};

use ris_base::{Line, Lines, Log, LogLine, Logs, NoMemory, Outcome, ReadRefusal};

/// The numbers of the entries, the marks and the refused replies of a run.
#[derive(Clone, Copy)]
pub struct Counts {
    pub entries: u64,
    pub marks: u64,
    pub refused: u64,
}

/// The counts of these replies and this serial list. `NoMemory` where there are 2^64 refused replies or more, for which
/// there is no memory.
pub fn counts_of(logs: &Logs, lines: &Lines) -> Result<Counts, NoMemory>
    ensures { IfOk result (λ counts. AreCounts logs.now lines.now counts) }
{
    let refused = refused_in_all(logs)?;
    let mut entries = 0;
    let mut marks = 0;
    for k in 0..lines.len() {
        match lines.at(k) {
            Line::Entry(_) => entries += 1,
            Line::Mark { .. } => marks += 1,
            Line::Leave { .. } => {}
        }
    }
    Ok(Counts {
        entries,
        marks,
        refused,
    })
}

/// The number of refused replies of all sessions. `NoMemory` where it is 2^64 or more.
fn refused_in_all(logs: &Logs) -> Result<u64, NoMemory>
    ensures { IfOk result (λ n. n ≡ refused_count logs.now) }
{
    let mut refused = 0u64;
    for session in 0..logs.len() {
        match refused.checked_add(refused_in(logs.at(session))) {
            Some(more) => refused = more,
            None => return Err(NoMemory),
        }
    }
    Ok(refused)
}

/// The number of refused replies of a session.
fn refused_in(log: &Log) -> u64
    ensures { result ≡ count_by is_refused log.now }
{
    let mut refused = 0;
    for seq in 0..log.len() {
        if is_refused(log.at(seq)) {
            refused += 1;
        }
    }
    refused
}

/// Whether a reply counts as refused.
fn is_refused(reply: &LogLine) -> bool
    ensures { result ≡ is_refused reply.now }
{
    match reply {
        LogLine::Reply(Outcome::Refused(_) | Outcome::NotYet { .. }) => true,
        LogLine::Denied(denied) => !matches!(denied, ReadRefusal::Shut),
        LogLine::Reply(_) | LogLine::Answer(_) => false,
    }
}
