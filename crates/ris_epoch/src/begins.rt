ghost use Rattle.std.specs.Prelude.{◌≡◌, ◌+◌, ◌≤◌, List, [], ◌∷◌, ◌++◌, length, true, IfOk, OnOk};
ghost use Rattle.std.specs.VecDeque.{deque_capacity, deque_len};
ghost use Rattle.ris_base.specs.Epoch.{Ground};
ghost use Rattle.ris_base.specs.Forest;
ghost use Rattle.ris_base.specs.Safe;
ghost use Rattle.ris_base.specs.declared.analyses.Spec.{Spec};
ghost use Rattle.ris_base.specs.declared.graphs.PlainGraph.{PlainGraph};
ghost use Rattle.ris_base.specs.declared.records.Record as recorded;
ghost use Rattle.ris_base.specs.declared.requests.Request.{Request};
ghost use Rattle.ris_base.specs.declared.requests.Request.TheVariants.{Submit};
ghost use Rattle.ris_epoch.specs.DriverView.{Stands, StandsFor};
ghost use Rattle.ris_epoch.specs.Ordering.{AreOrdered};
ghost use Rattle.ris_epoch.specs.Turning.{HasBegun, IsBegun, IsNext};
ghost use Rattle.ris_graph.specs.GraphView.{HasRoomOf, IsOf};
ghost use Rattle.ris_graph.specs.Jobs.{no_jobs};
ghost use Rattle.ris_graph.specs.Phase.{HasPhaseRoom};

use crate::candidates::{Candidate, doubled, make_line_room, make_phase_room};
use crate::drivers::Driver;
use crate::judging::candidate_update;
use crate::ordered::OrderedList;
use ris_base::{Entry, Meter, NoMemory, Outcome, Record, Refusal, Request, Update};
use ris_graph::Graph;
use ris_journal::Journal;
use std::alloc::Global;
use std::collections::VecDeque;

/// A candidate of an entry with this update, for which all memory is there that its turn may need: for so many inserts in its
/// rows, and for so many lines with their records.
fn equipped<M>(
    alloc: Global,
    graph: &mut Graph<M>,
    journal: &mut Journal,
    records: &mut VecDeque<Record>,
    entry: Entry,
    update: Update,
    inserts: usize,
    lines: usize,
) -> Result<Candidate, NoMemory>
    requires { (p : PlainGraph) × (specs : List Spec) × (forests : List Forest.Forest) × IsOf graph.old p
        × (Safe.is_candidate p specs forests (update ∷ []) ≡ true) }
    ensures candidate { IfOk result (λ candidate. candidate ≡ entry) }
    ensures rows { OnOk result (HasPhaseRoom inserts graph.new update) }
    ensures room { OnOk result ((lines ≤ journal.new.spare) × (deque_len records.new + lines ≤ deque_capacity records.new)) }
    ensures graph { HasRoomOf graph.old graph.new }
    ensures lines { journal.new.lines ≡ journal.old.lines }
    ensures spare { journal.old.spare ≤ journal.new.spare }
    ensures items { records.new.items ≡ records.old.items }
    ensures capacity { deque_capacity records.old ≤ deque_capacity records.new }
{
    make_phase_room(graph, update, inserts)?;
    make_line_room(journal, records, lines)?;
    doubled(alloc, entry)
}

impl<M: Meter> Driver<M> {
    /// Splits the requests of a batch, which are then all gone from it. A candidate for which all memory is there gets its job; one
    /// that gets none is told so; each other request waits with the rest. The rows of a candidate get room for one insert for each
    /// request of the batch.
    pub(crate) fn split(
        &mut self,
        requests: &mut OrderedList<Request>,
        candidates: &mut OrderedList<Candidate>,
        rest: &mut OrderedList<Request>,
    )
        requires ordered { AreOrdered 0 requests.old }
        requires candidates { candidates.old ≡ [] }
        requires rest { rest.old ≡ [] }
        requires records { self.old.records ≡ [] }
        requires replies { self.old.replies ≡ [] }
        ensures begun { (base : Ground) (records : List recorded.Record) → StandsFor self.old base records
            → HasBegun base records (length requests.old) requests.old self.new candidates.new rest.new }
        ensures some { IsBegun (length requests.old) requests.old self.new candidates.new rest.new }
        ensures empty { requests.new ≡ [] }
        ensures lines { self.new.journal.lines ≡ self.old.journal.lines }
        ensures opening { self.new.opening ≡ self.old.opening }
    {
        let inserts = requests.len();
        self.clear_jobs();
        'begins: while let Some(request) = requests.take_first() {
            self.begin(request, inserts, candidates, rest);
        }
    }

    /// Takes the jobs of the last turn out.
    fn clear_jobs(&mut self)
        ensures cleared { self.new ≡ record self.old { jobs = no_jobs } }
        ensures stands { Stands self.old }
    {
        if let Some(jobs) = &mut self.jobs {
            jobs.clear();
        }
    }

    /// Begins one request of the batch, behind those of lesser sessions, with room for so many inserts.
    fn begin(
        &mut self,
        request: Request,
        inserts: usize,
        candidates: &mut OrderedList<Candidate>,
        rest: &mut OrderedList<Request>,
    )
        requires begun { (done : List Request) × IsBegun inserts done self.old candidates.old rest.old × IsNext done request }
        ensures begun { (base : Ground) (records : List recorded.Record) (done : List Request) → HasBegun base records inserts done self.old candidates.old rest.old
            → IsNext done request → HasBegun base records inserts (done ++ request ∷ []) self.new candidates.new rest.new }
        ensures lines { self.new.journal.lines ≡ self.old.journal.lines }
        ensures opening { self.new.opening ≡ self.old.opening }
    {
        match request {
            Request::Submit(entry) => self.begin_change(entry, inserts, candidates, rest),
            Request::Release { session, seq, upto } => {
                rest.add(Request::Release { session, seq, upto });
            }
            Request::Leave { session, seq } => rest.add(Request::Leave { session, seq }),
        }
    }

    /// Begins a change of the graph: a candidate gets its job, with room for so many inserts in its rows, or is told that there is
    /// no memory for it; another change waits with the rest.
    fn begin_change(
        &mut self,
        entry: Entry,
        inserts: usize,
        candidates: &mut OrderedList<Candidate>,
        rest: &mut OrderedList<Request>,
    )
        requires begun { (done : List Request) × IsBegun inserts done self.old candidates.old rest.old × IsNext done (Submit entry) }
        ensures begun { (base : Ground) (records : List recorded.Record) (done : List Request) → HasBegun base records inserts done self.old candidates.old rest.old
            → IsNext done (Submit entry) → HasBegun base records inserts (done ++ Submit entry ∷ []) self.new candidates.new rest.new }
        ensures lines { self.new.journal.lines ≡ self.old.journal.lines }
        ensures opening { self.new.opening ≡ self.old.opening }
    {
        let Some(graph) = &mut self.graph else {
            return;
        };
        let Some(update) = candidate_update(graph, &self.analyses, &entry.parts) else {
            rest.add(Request::Submit(entry));
            return;
        };
        let (session, seq) = (entry.session, entry.seq);
        let lines = candidates.len() + 1;
        let journal = &mut self.journal;
        let records = &mut self.records;
        match equipped(
            self.alloc, graph, journal, records, entry, update, inserts, lines,
        ) {
            Ok(candidate) => {
                if let Some(jobs) = &mut self.jobs {
                    jobs.add(session, update);
                }
                candidates.add(candidate);
            }
            Err(NoMemory) => {
                let outcome = Outcome::Refused(Refusal::NoMemory);
                self.replies.push_back_reserved((session, seq, outcome));
            }
        }
    }
}
