ghost use Rattle.std.specs.Prelude.{◌≡◌, ◌+◌, ◌<◌, ◌≤◌, List, [], length};
ghost use Rattle.std.specs.List.{All};
ghost use Rattle.ris_base.specs.Epoch.{Ground};
ghost use Rattle.ris_base.specs.Lines.{front};
ghost use Rattle.ris_base.specs.Machine.{asked_by, session_by};
ghost use Rattle.ris_base.specs.declared.records.Record.{Record};
ghost use Rattle.ris_epoch.specs.DriverView.{StandsFor};
ghost use Rattle.ris_epoch.specs.Turning.{Does, Handles, HandlesAll};

use crate::answers::{changed, left, released};
use crate::drivers::Driver;
use crate::ordered::OrderedList;
use ris_base::{Meter, Outcome, Refusal, Request};

/// The session and the number of a request.
fn address(request: &Request) -> (u32, u64)
    ensures session { result.0 ≡ session_by request.now }
    ensures seq { result.1 ≡ (asked_by request.now).seq }
{
    match request {
        Request::Submit(entry) => (entry.session, entry.seq),
        Request::Release { session, seq, .. } | Request::Leave { session, seq } => (*session, *seq),
    }
}

impl<M: Meter> Driver<M> {
    /// Handles the requests of the tail, one after another.
    pub(crate) fn handle_all(&mut self, tail: &mut OrderedList<Request>, meter: &mut M)
        requires here { All (λ r. session_by r < self.old.opening.sessions) tail.old }
        requires few { front self.old.journal.lines + length tail.old ≤ 4294967295 }
        requires room { length self.old.replies + length tail.old ≤ 64 }
        ensures handles { (base : Ground) (records : List Record) → StandsFor self.old base records
            → HandlesAll base records tail.old self.old self.new (M.ticks meter.old) (M.ticks meter.new) }
        ensures empty { tail.new ≡ [] }
        ensures lines { front self.new.journal.lines ≤ front self.old.journal.lines + length tail.old }
        ensures opening { self.new.opening ≡ self.old.opening }
    {
        'handles: while let Some(request) = tail.take_first() {
            self.handle(request, meter);
        }
    }

    /// Handles one request of the tail.
    fn handle(&mut self, request: Request, meter: &mut M)
        requires here { session_by request < self.old.opening.sessions }
        requires few { front self.old.journal.lines < 4294967295 }
        requires room { length self.old.replies < 64 }
        ensures handles { (base : Ground) (records : List Record) → StandsFor self.old base records
            → Handles base records request self.old self.new (M.ticks meter.old) (M.ticks meter.new) }
        ensures lines { front self.new.journal.lines ≤ front self.old.journal.lines + 1 }
        ensures replies { length self.new.replies ≡ length self.old.replies + 1 }
        ensures opening { self.new.opening ≡ self.old.opening }
    {
        let (session, seq) = address(&request);
        let outcome = self.outcome_of(request, meter);
        self.replies.push_back_reserved((session, seq, outcome));
    }

    /// Answers one request of the tail.
    fn outcome_of(&mut self, request: Request, meter: &mut M) -> Outcome
        requires here { session_by request < self.old.opening.sessions }
        requires few { front self.old.journal.lines < 4294967295 }
        ensures does { (base : Ground) (records : List Record) → StandsFor self.old base records
            → Does base records request result self.old self.new (M.ticks meter.old) (M.ticks meter.new) }
        ensures lines { front self.new.journal.lines ≤ front self.old.journal.lines + 1 }
        ensures replies { self.new.replies ≡ self.old.replies }
        ensures opening { self.new.opening ≡ self.old.opening }
    {
        match request {
            Request::Submit(entry) => match &mut self.graph {
                Some(graph) => changed(
                    self.alloc,
                    graph,
                    &mut self.analyses,
                    &mut self.journal,
                    &mut self.records,
                    entry,
                    meter,
                ),
                None => Outcome::Refused(Refusal::NoMemory),
            },
            Request::Release { session, seq, upto } => {
                let journal = &mut self.journal;
                released(self.alloc, journal, &mut self.records, session, seq, upto)
            }
            Request::Leave { session, seq } => {
                left(
                    self.alloc,
                    &mut self.journal,
                    &mut self.records,
                    session,
                    seq,
                )
            }
        }
    }
}
