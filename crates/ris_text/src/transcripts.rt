ghost use Rattle.std.specs.Prelude.{◌≡◌, IfOk, OnOk};
ghost use Rattle.std.specs.List.{AllByRecursion};
ghost use Rattle.ris_base.specs.Transcript.{IsSmall, all_lines, line_text, spelling, summary_fields};
ghost use Rattle.ris_text.specs.Journal.{summary_of, transcript_of};
ghost use Rattle.ris_text.specs.Printable.{ArePrintable};

use crate::counts::counts_of;
use crate::numbers::read_numbers;
use crate::printers::Printer;
use ris_base::{Lines, Logs, NoMemory, Text};
use std::alloc::Global;

/// The text of a transcript: the reply lines of each session in the order of its commands, the journal lines of the serial
/// list, and the summary with this number of visits. No reply may be `Closed` or `Shut`, which are the replies to no
/// command. Each number of it is below 2^64. `NoMemory` is its only error.
///
/// It takes the room for a text of usual length at once, and a constant time for each number and word.
pub fn transcript_text(
    alloc: Global,
    logs: &Logs,
    lines: &Lines,
    visits: u64,
) -> Result<Text, NoMemory>
    requires { ArePrintable logs.now }
    ensures text { IfOk result (λ text. text ≡ spelling (transcript_of logs.now lines.now visits)) }
    ensures small { OnOk result
        (AllByRecursion (AllByRecursion IsSmall) (all_lines (transcript_of logs.now lines.now visits))) }
{
    let mut printer = Printer::with_room(alloc, usual_length(logs, lines))?;
    printer.put_replies(logs)?;
    printer.put_journal(lines)?;
    printer.put_summary(counts_of(logs, lines)?, visits)?;
    Ok(printer.into_text())
}

/// The last line of that text, without the lines before it. Each number of the whole transcript is below 2^64. `NoMemory`
/// is its only error.
///
/// It looks at each reply and each line once.
pub fn summary_text(
    alloc: Global,
    logs: &Logs,
    lines: &Lines,
    visits: u64,
) -> Result<Text, NoMemory>
    requires { ArePrintable logs.now }
    ensures text { IfOk result (λ text.
        text ≡ line_text (summary_fields (summary_of logs.now lines.now visits))) }
    ensures small { OnOk result
        (AllByRecursion (AllByRecursion IsSmall) (all_lines (transcript_of logs.now lines.now visits))) }
{
    read_numbers(logs, lines);
    let mut printer = Printer::with_room(alloc, 0)?;
    printer.put_summary(counts_of(logs, lines)?, visits)?;
    Ok(printer.into_text())
}

/// About how many bytes a transcript has: 24 for each reply, 32 for each line of the serial list, and the summary.
fn usual_length(logs: &Logs, lines: &Lines) -> usize {
    let mut replies = 0u64;
    for session in 0..logs.len() {
        replies = replies.saturating_add(logs.at(session).len());
    }
    let lines = lines.len().saturating_mul(32).saturating_add(96);
    replies.saturating_mul(24).saturating_add(lines) as usize
}
