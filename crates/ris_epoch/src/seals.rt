ghost use Rattle.std.specs.Prelude.{◌≡◌, ◌+◌, ◌<◌, ◌≤◌, ℕ, [], ◌++◌, length};
ghost use Rattle.std.specs.List.{All};
ghost use Rattle.std.specs.VecDeque.{deque_capacity, deque_len};
ghost use Rattle.ris_base.specs.Lines.{front};
ghost use Rattle.ris_base.specs.Records.{lines_of};
ghost use Rattle.ris_base.specs.declared.events.Verdict as verdict;
ghost use Rattle.ris_epoch.specs.Driving.{all_resolved};
ghost use Rattle.ris_epoch.specs.Sealing.{AreVerdicts, all_told, all_waiting, outcome_if, outcomes_if, record_if, records_if, told_by, waiting_if};
ghost use Rattle.ris_graph.specs.Jobs.{HasSession};

use crate::candidates::{Candidate, append};
use crate::ordered::OrderedList;
use ris_base::{Changes, Outcome, Record, Refusal, Request, Verdict};
use ris_graph::Jobs;
use ris_journal::Journal;
use std::alloc::Global;
use std::collections::VecDeque;

/// What becomes of a candidate with this verdict: an applied one is an entry, one that bounced waits with the rest, and any other
/// finds no copy to take. There is room for each, so it takes no memory.
fn seal(
    alloc: Global,
    journal: &mut Journal,
    records: &mut VecDeque<Record>,
    replies: &mut VecDeque<(u32, u64, Outcome)>,
    rest: &mut OrderedList<Request>,
    candidate: Candidate,
    verdict: Verdict,
)
    requires line { 1 ≤ journal.old.spare }
    requires few { front journal.old.lines < 4294967295 }
    requires record_room { deque_len records.old < deque_capacity records.old }
    requires reply_room { deque_len replies.old < deque_capacity replies.old }
    requires wait { length rest.old < 64 }
    ensures lines { journal.new.lines ≡ journal.old.lines ++ lines_of (record_if (told_by candidate verdict)) }
    ensures spare { journal.old.spare ≤ journal.new.spare + 1 }
    ensures records { records.new.items ≡ records.old.items ++ record_if (told_by candidate verdict) }
    ensures record_capacity { deque_capacity records.new ≡ deque_capacity records.old }
    ensures replies { all_resolved replies.new.items ≡ all_resolved replies.old.items ++ outcome_if (front journal.old.lines) (told_by candidate verdict) }
    ensures reply_capacity { deque_capacity replies.new ≡ deque_capacity replies.old }
    ensures rest { rest.new ≡ waiting_if rest.old (told_by candidate verdict) }
    ensures counts { deque_len replies.new + length rest.new ≡ deque_len replies.old + length rest.old + 1 }
    ensures fronts { front journal.new.lines + length rest.new ≤ front journal.old.lines + length rest.old + 1 }
{
    let front = journal.front();
    let (session, seq) = (candidate.entry.session, candidate.entry.seq);
    match verdict {
        Verdict::Applied => {
            append(journal, records, candidate, Changes::new(alloc));
            let place = front + 1;
            replies.push_back_reserved((session, seq, Outcome::Placed { place }));
        }
        Verdict::Bounced => rest.add(Request::Submit(candidate.entry)),
        Verdict::NoEdge | Verdict::Waiting => {
            let part = 1;
            let refusal = Refusal::NoEdge { front, part };
            replies.push_back_reserved((session, seq, Outcome::Refused(refusal)));
        }
    }
}

/// Seals all candidates by the verdicts of their jobs, one after another.
pub(crate) fn seal_all(
    alloc: Global,
    journal: &mut Journal,
    records: &mut VecDeque<Record>,
    replies: &mut VecDeque<(u32, u64, Outcome)>,
    rest: &mut OrderedList<Request>,
    candidates: &mut OrderedList<Candidate>,
    jobs: &Jobs,
)
    requires jobs { All (λ e. HasSession jobs.now e.session) candidates.old }
    requires lines { length candidates.old ≤ journal.old.spare }
    requires few { front journal.old.lines + length candidates.old ≤ 4294967295 }
    requires records { deque_len records.old + length candidates.old ≤ deque_capacity records.old }
    requires replies { deque_len replies.old + length candidates.old ≤ deque_capacity replies.old }
    requires rest { length rest.old + length candidates.old ≤ 64 }
    ensures empty { candidates.new ≡ [] }
    ensures lines { (verdicts : ℕ → verdict.Verdict) → AreVerdicts jobs.now verdicts
        → journal.new.lines ≡ journal.old.lines ++ lines_of (records_if (all_told verdicts candidates.old)) }
    ensures records { (verdicts : ℕ → verdict.Verdict) → AreVerdicts jobs.now verdicts
        → records.new.items ≡ records.old.items ++ records_if (all_told verdicts candidates.old) }
    ensures record_capacity { deque_capacity records.new ≡ deque_capacity records.old }
    ensures replies { (verdicts : ℕ → verdict.Verdict) → AreVerdicts jobs.now verdicts
        → all_resolved replies.new.items ≡ all_resolved replies.old.items ++ outcomes_if (front journal.old.lines) (all_told verdicts candidates.old) }
    ensures reply_capacity { deque_capacity replies.new ≡ deque_capacity replies.old }
    ensures rest { (verdicts : ℕ → verdict.Verdict) → AreVerdicts jobs.now verdicts
        → rest.new ≡ all_waiting rest.old (all_told verdicts candidates.old) }
    ensures counts { deque_len replies.new + length rest.new ≡ deque_len replies.old + length rest.old + length candidates.old }
    ensures fronts { front journal.new.lines + length rest.new ≤ front journal.old.lines + length rest.old + length candidates.old }
{
    'seals: while let Some(candidate) = candidates.take_first() {
        let verdict = jobs.verdict(candidate.entry.session);
        seal(alloc, journal, records, replies, rest, candidate, verdict);
    }
}
