ghost use Rattle.std.specs.Prelude.{◌≡◌, ◌≢◌, ◌<◌, ◌≤◌, ℕ, List, [], ◌∷◌, ◌++◌, length, OnOk, OnErr, IfOk, unwrap_or};
ghost use Rattle.std.specs.Option.{option_copied};
ghost use Rattle.ris_base.specs.Lines.{front, floor};
ghost use Rattle.ris_base.specs.Records.{AreRight, lines_of};
ghost use Rattle.ris_base.specs.declared.analyses.Spec.{Spec};
ghost use Rattle.ris_base.specs.declared.graphs.PlainGraph.{PlainGraph};
ghost use Rattle.ris_base.specs.declared.records.Record.{Record as RecordOf};
ghost use Rattle.ris_base.specs.declared.records.Start.{Start as StartOf};
ghost use Rattle.ris_base.specs.declared.requests.Question.TheVariants as question;
ghost use Rattle.ris_base.specs.declared.replies.ReadRefusal.TheVariants as denial;
ghost use Rattle.ris_history.specs.Applied.{opened, applied, entered, raised, with_mark, with_leave};
ghost use Rattle.ris_history.specs.Chains.{kept_in};
ghost use Rattle.ris_history.specs.HistoryView.{shown, moved_at};
ghost use Rattle.ris_history.specs.Reads.{refusal_at, unless_refused, path_in, IsGiven, IsAskableOf, IsAsked, IsAnswer, AreVerticesOf, reply_of, value_reply, parent_reply, path_reply, modified_reply};
ghost use Rattle.ris_history.specs.Standing.{StandsFor, kept_count};

use crate::moves::{Moved, moved_by, vertices_of};
use crate::paths::path_of;
use crate::sessions::{Session, least_mark};
use crate::tables::Table;
use ris_base::{
    Changes, Line, NoMemory, Parent, Question, ReadAnswer, ReadRefusal, Record, Sequence, Start,
    Value, Vertices,
};
use std::alloc::Global;
use std::collections::VecDeque;
use std::marker::Model;

/// What each analysis gave each vertex at each place from the floor on, and which vertices each entry moved, kept as
/// changes. It is made from records, which are lines of the serial list with their changes.
///
/// A session's marks and leaves raise the floor, which never falls. A change is dropped exactly where a later change of
/// the same vertex and analysis stands at a place of at most the floor. A change takes 40 bytes, and 16 more while the
/// floor hasn't passed it. Each vertex number up to the greatest that was named has a chain for each analysis, which takes
/// 56 bytes, and about as many more once it had a change.
#[derive(Drop)]
pub struct History {
    table: Table,
    moved: VecDeque<Sequence<Moved>>,
    sessions: Vec<Session>,
    floor: u64,
    left_at: u64,
    alloc: Global,
}

impl Model for History {
    ghost use Rattle.ris_history.specs.HistoryView.{HistoryView};

    ghost Value = { HistoryView };

    ghost view = { λ h. record { table = h.table; floor = h.floor; left_at = h.left_at; sessions = h.sessions.items; moved = h.moved.items } };
}

impl History {
    /// A history of no records, with what there is at place 0. Linear in the rows and in the greatest vertex number.
    /// `NoMemory` is the answer, too, where there are 2^32 analyses or more.
    pub fn start(alloc: Global, start: &Start) -> Result<History, NoMemory>
        ensures ok { IfOk result (λ h. h ≡ opened start.now) }
        ensures stands { IfOk result (λ h. (opening : PlainGraph) (specs : List Spec) → AreRight opening specs start.now [] → StandsFor h opening specs start.now []) }
    {
        let table = Table::start(alloc, &start.forests)?;
        let mut sessions = Vec::new(alloc);
        for _session in 0..start.sessions {
            sessions.push(Session {
                mark: 0,
                has_left: false,
            })?;
        }
        Ok(History {
            table,
            moved: VecDeque::new(alloc),
            sessions,
            floor: 0,
            left_at: 0,
            alloc,
        })
    }

    /// One record more. Changes of an analysis that there isn't, or of a vertex number of 4,194,304 or more, are passed
    /// over, as are the marks and leaves of a session that there isn't. A mark or a leave that raises the floor drops
    /// what no place from the floor on needs, each change once. After `NoMemory` nothing changed; it is the answer, too,
    /// where a counter would pass 2^64 - 1. An entry costs time for each change and, once, for each new vertex number.
    pub fn absorb(&mut self, rec: &Record) -> Result<(), NoMemory>
        ensures ok { OnOk result (self.new ≡ applied self.old rec.now) }
        ensures err { OnErr result (self.new ≡ self.old) }
        ensures stands { (opening : PlainGraph) (specs : List Spec) (start : StartOf) (records : List RecordOf) → StandsFor self.old opening specs start records
            → AreRight opening specs start (records ++ rec.now ∷ []) → OnOk result (StandsFor self.new opening specs start (records ++ rec.now ∷ [])) }
    {
        match &rec.line {
            Line::Entry(_) => self.enter(&rec.changes),
            Line::Mark { session, upto, .. } => {
                self.mark(*session, *upto);
                Ok(())
            }
            Line::Leave { session, .. } => {
                self.leave(*session);
                Ok(())
            }
        }
    }

    /// The value of the vertex number `x` by the analysis `a` at the place `v`. `NotYet` exactly where `v` is past the
    /// front, else `Released` exactly where it is below the floor; never another refusal. It takes no memory. A binary
    /// search among the changes of the vertex.
    pub fn value_at(&self, v: u64, a: u32, x: u64) -> Result<Value, ReadRefusal>
        requires { a < self.now.table.analyses }
        ensures exact { result ≡ unless_refused self.now v (shown self.now.table v a x).value }
        ensures answers { IsAnswer self.now (question.Value v a x) (value_reply self.now.table.front v result) }
    {
        match self.refusal(v) {
            Some(refusal) => Err(refusal),
            None => Ok(self.table.latest(v, a, x).0),
        }
    }

    /// The parent of the vertex number `x` in the forest of the analysis `a` at the place `v`. Refused as `value_at`,
    /// and as fast.
    pub fn parent_at(&self, v: u64, a: u32, x: u64) -> Result<Parent, ReadRefusal>
        requires { a < self.now.table.analyses }
        ensures exact { result ≡ unless_refused self.now v (shown self.now.table v a x).parent }
        ensures answers { IsAnswer self.now (question.Parent v a x) (parent_reply self.now.table.front v result) }
    {
        match self.refusal(v) {
            Some(refusal) => Err(refusal),
            None => Ok(self.table.latest(v, a, x).1),
        }
    }

    /// The vertex numbers whose values by the analysis `a` the entry at the place `v` changed, ascending; none at the place
    /// 0. Refused as `value_at`, and `NoMemory` where there is no memory for the list. Linear in the vertices that the entry
    /// moved by any analysis, and a sort of those by this one.
    pub fn modified_at(&self, v: u64, a: u32) -> Result<Vertices, ReadRefusal>
        requires { a < self.now.table.analyses }
        ensures exact { IsGiven (refusal_at self.now v) result (AreVerticesOf (moved_at self.now v) a) }
        ensures answers { result ≢ Err denial.NoMemory → IsAnswer self.now (question.Modified v a) (modified_reply self.now.table.front v result) }
    {
        if let Some(refusal) = self.refusal(v) {
            return Err(refusal);
        }
        let Some(moved) = self.moved_at(v) else {
            return Ok(Sequence::new(self.alloc));
        };
        match vertices_of(self.alloc, moved, a) {
            Ok(vertices) => Ok(vertices),
            Err(NoMemory) => Err(ReadRefusal::NoMemory),
        }
    }

    /// The path of the vertex number `x` in the forest of the analysis `a` at the place `v`: `x`, its parent, and so on to a
    /// vertex without one; none where `x` has no number. Refused as `value_at`, and `NoMemory` where there is no memory for
    /// the path. As many binary searches as the path has vertices.
    pub fn path_at(&self, v: u64, a: u32, x: u64) -> Result<Vertices, ReadRefusal>
        requires { a < self.now.table.analyses }
        ensures exact { IsGiven (refusal_at self.now v) result (λ vertices. vertices ≡ path_in self.now.table v a x) }
        ensures answers { result ≢ Err denial.NoMemory → IsAnswer self.now (question.Path v a x) (path_reply self.now.table.front v result) }
    {
        match self.refusal(v) {
            Some(refusal) => Err(refusal),
            None => match path_of(self.alloc, &self.table, v, a, x) {
                Ok(path) => Ok(path),
                Err(NoMemory) => Err(ReadRefusal::NoMemory),
            },
        }
    }

    /// The answer to a question, with the front and its place, by the four calls above; `Current` gives the front and the
    /// floor, and is never refused.
    pub fn ask(&self, question: &Question) -> Result<ReadAnswer, ReadRefusal>
        requires { IsAskableOf self.now question.now }
        ensures exact { IsAsked self.now question.now result }
        ensures answers { result ≢ Err denial.NoMemory → IsAnswer self.now question.now (reply_of result) }
    {
        let front = self.front();
        match *question {
            Question::Value { place, a, x } => match self.value_at(place, a, x) {
                Ok(value) => Ok(ReadAnswer::Value {
                    front,
                    place,
                    value,
                }),
                Err(refusal) => Err(refusal),
            },
            Question::Parent { place, a, x } => match self.parent_at(place, a, x) {
                Ok(parent) => Ok(ReadAnswer::Parent {
                    front,
                    place,
                    parent,
                }),
                Err(refusal) => Err(refusal),
            },
            Question::Path { place, a, x } => match self.path_at(place, a, x) {
                Ok(vertices) => Ok(ReadAnswer::Path {
                    front,
                    place,
                    vertices,
                }),
                Err(refusal) => Err(refusal),
            },
            Question::Modified { place, a } => match self.modified_at(place, a) {
                Ok(vertices) => Ok(ReadAnswer::Modified {
                    front,
                    place,
                    vertices,
                }),
                Err(refusal) => Err(refusal),
            },
            Question::Current => Ok(ReadAnswer::Current {
                front,
                floor: self.floor(),
            }),
        }
    }

    /// The vertices that the entry at the place `v` moved, where they are held.
    fn moved_at(&self, v: u64) -> Option<&Sequence<Moved>>
        requires { v ≤ self.now.table.front }
        ensures { unwrap_or (option_copied result) [] ≡ moved_at self.now v }
    {
        if v == 0 {
            return None;
        }
        self.moved.get((self.table.front() - v) as usize)
    }

    /// Why the place `v` can't be read, where it can't.
    fn refusal(&self, v: u64) -> Option<ReadRefusal>
        ensures { result ≡ refusal_at self.now v }
    {
        let front = self.table.front();
        if v > front {
            Some(ReadRefusal::NotYet { front })
        } else if v < self.floor {
            Some(ReadRefusal::Released {
                front,
                floor: self.floor,
            })
        } else {
            None
        }
    }

    /// The number of analyses, below which that of a read has to be.
    pub fn analyses(&self) -> u32
        ensures exact { result ≡ self.now.table.analyses }
        ensures stands { (opening : PlainGraph) (specs : List Spec) (start : StartOf) (records : List RecordOf) → StandsFor self.now opening specs start records
            → result ≡ length specs }
    {
        self.table.analyses()
    }

    /// The number of entries.
    pub fn front(&self) -> u64
        ensures exact { result ≡ self.now.table.front }
        ensures stands { (opening : PlainGraph) (specs : List Spec) (start : StartOf) (records : List RecordOf) → StandsFor self.now opening specs start records
            → result ≡ front (lines_of records) }
    {
        self.table.front()
    }

    /// The floor, below which no place is read: the least mark of the sessions that haven't left, or, where all have, the
    /// number of entries before the last leave, but never less than before.
    pub fn floor(&self) -> u64
        ensures exact { result ≡ self.now.floor }
        ensures stands { (opening : PlainGraph) (specs : List Spec) (start : StartOf) (records : List RecordOf) → StandsFor self.now opening specs start records
            → result ≡ floor start.sessions (lines_of records) }
    {
        self.floor
    }

    /// The number of changes that are kept: those absorbed, but for those that were passed over and
    /// those that a raised floor dropped.
    pub fn kept(&self) -> u64
        ensures exact { result ≡ kept_in self.now.table.chains }
        ensures stands { (opening : PlainGraph) (specs : List Spec) (start : StartOf) (records : List RecordOf) → StandsFor self.now opening specs start records
            → result ≡ kept_count start.sessions records }
    {
        self.table.kept()
    }

    /// One entry more, with its changes. After `NoMemory` nothing changed.
    fn enter(&mut self, changes: &Changes) -> Result<(), NoMemory>
        ensures ok { OnOk result (self.new ≡ entered self.old changes.now) }
        ensures err { OnErr result (self.new ≡ self.old) }
    {
        let moved = moved_by(self.alloc, self.table.analyses(), changes)?;
        self.moved.reserve(1)?;
        self.table.enter(changes)?;
        self.moved.push_front_reserved(moved);
        Ok(())
    }

    /// A session's mark.
    fn mark(&mut self, session: u32, upto: u64)
        ensures { self.new ≡ raised (record self.old { sessions = with_mark session upto self.old.sessions }) }
    {
        if let Some(session) = self.sessions.get_mut(session as usize) {
            session.mark = session.mark.max(upto);
        }
        self.raise();
    }

    /// A session's leave.
    fn leave(&mut self, session: u32)
        ensures { self.new ≡ raised (record self.old { sessions = with_leave session self.old.sessions; left_at = self.old.table.front }) }
    {
        if let Some(session) = self.sessions.get_mut(session as usize) {
            session.has_left = true;
        }
        self.left_at = self.table.front();
        self.raise();
    }

    /// Raises the floor to what the sessions leave, and drops what no place from it on needs.
    fn raise(&mut self)
        ensures { self.new ≡ raised self.old }
    {
        let least = least_mark(&self.sessions).unwrap_or(self.left_at);
        self.floor = self.floor.max(least);
        self.table.trim(self.floor);
        let places = self
            .table
            .front()
            .saturating_sub(self.floor.saturating_sub(1));
        self.moved.truncate(places as usize);
    }
}
