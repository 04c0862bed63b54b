ghost use Rattle.std.specs.Prelude.{◌≡◌, ◌<◌, ◌≤◌, ◌+◌, ℕ, List, [], ◌∷◌, ◌++◌};
ghost use Rattle.std.specs.VecDeque.{deque_capacity, deque_len};
ghost use Rattle.ris_base.specs.Epoch.{Ground};
ghost use Rattle.ris_base.specs.Lines.{front};
ghost use Rattle.ris_base.specs.declared.records.Record as recorded;
ghost use Rattle.ris_base.specs.declared.records.Start.{Start};
ghost use Rattle.ris_base.specs.declared.requests.Request.TheVariants as request;
ghost use Rattle.ris_epoch.specs.DriverView.{DriverView, StandsFor, bare};
ghost use Rattle.ris_epoch.specs.Turning.{Does};
ghost use Rattle.ris_journal.specs.JournalView.{with_line};

use crate::candidates::{append, doubled, make_line_room};
use crate::renewals::renew;
use ris_analysis::Analyses;
use ris_base::{Changes, Entry, Line, Meter, Outcome, Record, Refusal};
use ris_graph::Graph;
use ris_journal::Journal;
use ris_txn::net_of;
use std::alloc::Global;
use std::collections::VecDeque;

/// Answers a change of the graph: it is refused by the first part that the graph of now refuses, and else becomes an entry. After
/// `NoMemory` nothing changed.
pub(crate) fn changed<M: Meter>(
    alloc: Global,
    graph: &mut Graph<M>,
    analyses: &mut Analyses,
    journal: &mut Journal,
    records: &mut VecDeque<Record>,
    entry: Entry,
    meter: &mut M,
) -> Outcome
    requires stands { (opening : Start) × (base : Ground) × (before : List recorded.Record)
        × StandsFor (bare graph.old analyses.old journal.old opening records.old.items) base before × (entry.session < base.start.sessions) }
    requires few { front journal.old.lines < 4294967295 }
    ensures does { (opening : Start) (base : Ground) (before : List recorded.Record)
        → StandsFor (bare graph.old analyses.old journal.old opening records.old.items) base before → entry.session < base.start.sessions
        → Does base before (request.Submit entry) result (bare graph.old analyses.old journal.old opening records.old.items)
        (bare graph.new analyses.new journal.new opening records.new.items) (M.ticks meter.old) (M.ticks meter.new) }
    ensures lines { front journal.new.lines ≤ front journal.old.lines + 1 }
{
    let front = journal.front();
    let net = match net_of(alloc, graph, &entry.parts, front, meter) {
        Ok(net) => net,
        Err(refusal) => return Outcome::Refused(refusal),
    };
    let Ok(()) = make_line_room(journal, records, 1) else {
        return Outcome::Refused(Refusal::NoMemory);
    };
    let Ok(candidate) = doubled(alloc, entry) else {
        return Outcome::Refused(Refusal::NoMemory);
    };
    let Ok(changes) = renew(alloc, graph, analyses, &net, meter) else {
        return Outcome::Refused(Refusal::NoMemory);
    };
    append(journal, records, candidate, changes);
    Outcome::Placed { place: front + 1 }
}

/// Writes a mark or a leave, which is given twice, with a record without changes, for both of which there is room.
fn note(
    alloc: Global,
    journal: &mut Journal,
    records: &mut VecDeque<Record>,
    line: Line,
    copy: Line,
)
    requires same { copy ≡ line }
    requires line { 1 ≤ journal.old.spare }
    requires few { front journal.old.lines < 4294967295 }
    requires room { deque_len records.old < deque_capacity records.old }
    ensures line { journal.new ≡ with_line journal.old line }
    ensures written { records.new.items ≡ records.old.items ++ record { line = line; changes = [] } ∷ [] }
{
    journal.append(line);
    let changes = Changes::new(alloc);
    records.push_back_reserved(Record {
        line: copy,
        changes,
    });
}

/// Answers a release: it is too early exactly where its place is past the front, and else a mark.
pub(crate) fn released(
    alloc: Global,
    journal: &mut Journal,
    records: &mut VecDeque<Record>,
    session: u32,
    seq: u64,
    upto: u64,
) -> Outcome
    requires few { front journal.old.lines < 4294967295 }
    ensures does { (d : DriverView) (base : Ground) (before : List recorded.Record) (ticks : ℕ)
        → StandsFor d base before → d.journal ≡ journal.old → session < base.start.sessions
        → Does base before (request.Release session seq upto) result (record d { records = records.old.items })
        (record d { journal = journal.new; records = records.new.items }) ticks ticks }
    ensures lines { front journal.new.lines ≡ front journal.old.lines }
{
    let front = journal.front();
    if upto > front {
        return Outcome::NotYet { front };
    }
    let Ok(()) = make_line_room(journal, records, 1) else {
        return Outcome::Refused(Refusal::NoMemory);
    };
    let line = Line::Mark { session, seq, upto };
    let copy = Line::Mark { session, seq, upto };
    note(alloc, journal, records, line, copy);
    Outcome::Marked { front, upto }
}

/// Answers a leave, with a line that says so.
pub(crate) fn left(
    alloc: Global,
    journal: &mut Journal,
    records: &mut VecDeque<Record>,
    session: u32,
    seq: u64,
) -> Outcome
    requires few { front journal.old.lines < 4294967295 }
    ensures does { (d : DriverView) (base : Ground) (before : List recorded.Record) (ticks : ℕ)
        → StandsFor d base before → d.journal ≡ journal.old → session < base.start.sessions
        → Does base before (request.Leave session seq) result (record d { records = records.old.items })
        (record d { journal = journal.new; records = records.new.items }) ticks ticks }
    ensures lines { front journal.new.lines ≡ front journal.old.lines }
{
    let front = journal.front();
    let Ok(()) = make_line_room(journal, records, 1) else {
        return Outcome::Refused(Refusal::NoMemory);
    };
    let line = Line::Leave { session, seq };
    let copy = Line::Leave { session, seq };
    note(alloc, journal, records, line, copy);
    Outcome::Left { front }
}
