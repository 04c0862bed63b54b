ghost use Rattle.std.specs.Prelude.{◌≡◌, ◌+◌, ◌<◌, ◌≤◌, ℕ, List, [], ◌++◌, length};
ghost use Rattle.std.specs.List.{All};
ghost use Rattle.ris_base.specs.Epoch.{Ground, IsEpoch, IsTurnReach};
ghost use Rattle.ris_base.specs.Lines.{front};
ghost use Rattle.ris_base.specs.Machine.{session_by};
ghost use Rattle.ris_base.specs.declared.records.Record.{Record};
ghost use Rattle.ris_base.specs.declared.requests.Request.{Request};
ghost use Rattle.ris_epoch.specs.Account.{IsBatch};
ghost use Rattle.ris_epoch.specs.DriverView.{StandsFor};
ghost use Rattle.ris_epoch.specs.TurnOrder.{IsInOrder};
ghost use Rattle.ris_epoch.specs.Turning.{HasBegun, HasSealed, IsBegun};
ghost use Rattle.ris_graph.specs.Ticks.{IsRise};

use crate::batches::Batch;
use crate::candidates::Candidate;
use crate::drivers::Driver;
use crate::ordered::OrderedList;
use crate::phases::decided;
use crate::seals::seal_all;
use ris_base::{Gate, Meter, Request};
use std::thread::Threads;

/// The numbers of a turn: the requests that it took, the entries that it made, and the requests of its tail.
#[derive(Clone, Copy, Debug, PartialEq, Eq)]
pub struct Turn {
    pub took: u32,
    pub entries: u32,
    pub tail: u32,
}

impl<M: Meter> Driver<M> {
    /// One turn: it takes all requests of a batch, and gives each one reply. First the candidates are decided by 1 to 64 workers,
    /// those that are updates of one part which change no value, in each stripe in the order of their sessions; the applied ones
    /// become entries, stripe after stripe. Then all others are handled in the order of their sessions. No record and no reply of an earlier turn is left; each session of the
    /// batch exists; and there are at most 4,294,967,295 entries in the end.
    ///
    /// What `fresh` gives next are the records of the turn, and what `reply` gives then is its replies. `NoMemory` may be the reply
    /// to any request, for which nothing then changed. The meter ticks at most as often as the reaches of the turn's entries, and
    /// of the requests of the tail that got no memory, say together.
    ///
    /// Each job of the phase enters the gate once, and a turn without candidates has no phase. A candidate costs a binary search in
    /// its rows and the moves of an insert or a removal, a release or a leave constant time, and a change in the tail what its net
    /// and its repair cost. A turn of one candidate goes over no table of vertices.
    pub fn turn<R: Threads + Sync, G: Gate>(
        &mut self,
        rt: &R,
        batch: &mut Batch,
        workers: u32,
        gate: &G,
        meter: &mut M,
    ) -> Turn
        requires records { self.old.records ≡ [] }
        requires replies { self.old.replies ≡ [] }
        requires some { 1 ≤ workers }
        requires few { workers ≤ 64 }
        requires here { All (λ r. session_by r < self.old.opening.sessions) batch.old }
        requires room { front self.old.journal.lines + length batch.old ≤ 4294967295 }
        ensures epoch { (base : Ground) (records : List Record) → StandsFor self.old base records
            → (epoch : IsEpoch base records batch.old (records ++ self.new.records) self.new.replies)
            × StandsFor self.new base (records ++ self.new.records)
            × ((n : ℕ) → IsTurnReach base records batch.old [] (records ++ self.new.records) self.new.replies epoch n
            → IsRise (M.ticks meter.old) (M.ticks meter.new) n)
            × (result.tail ≡ length epoch.tail) }
        ensures order { (base : Ground) (records : List Record) → StandsFor self.old base records
            → (epoch : IsEpoch base records batch.old (records ++ self.new.records) self.new.replies)
            × IsInOrder batch.old epoch.cells epoch.order epoch.tail }
        ensures empty { batch.new ≡ [] }
        ensures opening { self.new.opening ≡ self.old.opening }
        ensures took { result.took ≡ length batch.old }
        ensures entries { front self.old.journal.lines + result.entries ≡ front self.new.journal.lines }
        ensures tail { result.tail ≤ result.took }
    {
        let front = self.front();
        let took = batch.requests.len() as u32;
        self.split(&mut batch.requests, &mut batch.candidates, &mut batch.rest);
        if batch.candidates.len() > 0 {
            self.decide(rt, &mut batch.candidates, &mut batch.rest, workers, gate);
        }
        let tail = batch.rest.len() as u32;
        self.handle_all(&mut batch.rest, meter);
        let entries = (self.front() - front) as u32;
        Turn {
            took,
            entries,
            tail,
        }
    }

    /// Decides the candidates in parallel, and seals them. Those that bounce wait with the rest.
    fn decide<R: Threads + Sync, G: Gate>(
        &mut self,
        rt: &R,
        candidates: &mut OrderedList<Candidate>,
        rest: &mut OrderedList<Request>,
        workers: u32,
        gate: &G,
    )
        requires begun { (batch : List Request) × IsBegun (length batch) batch self.old candidates.old rest.old
            × All (λ r. session_by r < self.old.opening.sessions) batch × (front self.old.journal.lines + length batch ≤ 4294967295) }
        requires some { 1 ≤ workers }
        requires few { workers ≤ 64 }
        ensures sealed { (base : Ground) (records : List Record) (batch : List Request) → HasBegun base records (length batch) batch self.old candidates.old rest.old
            → IsBatch base batch → HasSealed base records batch self.new rest.new }
        ensures empty { candidates.new ≡ [] }
        ensures counts { length self.new.replies + length rest.new ≡ length self.old.replies + length rest.old + length candidates.old }
        ensures fronts { front self.new.journal.lines + length rest.new ≤ front self.old.journal.lines + length rest.old + length candidates.old }
        ensures opening { self.new.opening ≡ self.old.opening }
    {
        let Some(graph) = self.graph.take() else {
            return;
        };
        let Some(jobs) = self.jobs.take() else {
            return;
        };
        let (graph, jobs) = decided(rt, graph, jobs, &self.analyses, workers, gate);
        seal_all(
            self.alloc,
            &mut self.journal,
            &mut self.records,
            &mut self.replies,
            rest,
            candidates,
            &jobs,
        );
        self.graph = Some(graph);
        self.jobs = Some(jobs);
    }
}
