ghost use Rattle.std.specs.Prelude.{◌≡◌, ◌+◌, ◌<◌, ◌∷◌, ◌++◌, [], IfOk, OnErr, OnOk, false, length, map};
ghost use Rattle.std.specs.Option.{option_copied};
ghost use Rattle.ris_base.specs.Forest.{forest_in};
ghost use Rattle.ris_base.specs.Graph.{IsProper};
ghost use Rattle.ris_base.specs.Machine.Step.{Serial};
ghost use Rattle.ris_base.specs.Records.{is_entry};
ghost use Rattle.ris_base.specs.Requests.{entered};
ghost use Rattle.ris_base.specs.declared.lines.Line.TheVariants as line;
ghost use Rattle.ris_base.specs.declared.replies.LogLine.TheVariants.{Reply};
ghost use Rattle.ris_base.specs.declared.replies.Outcome.TheVariants as outcome;
ghost use Rattle.ris_core.specs.Moves.{IsAfter, IsEntered, IsMade, IsRefused, asked_in_tail, entered_with, entry_in_tail, graph_in, left, marked, told_at, told_seats};
ghost use Rattle.ris_core.specs.Stands.{IsTried};

use super::{Board, next_at};
use crate::checks::are_forests;
use crate::memory::push_both;
use crate::phases::{Phase, Stand};
use crate::seats::{Asked, Seat};
use crate::tables::{Tables, are_same_forests, tables_of};
use ris_base::{Entry, Forests, Line, LogLine, NoMemory, Outcome, Parts, PlainGraph, Refusal};
use ris_four::plain_entered;
use std::alloc::Global;
use std::thread::Threads;

impl Board {
    /// A change of the tail is refused, or becomes an entry with these forests, where they are what they must be.
    pub(crate) fn serial<R: Threads + Sync>(
        &mut self,
        rt: &R,
        alloc: Global,
        session: u32,
        forests: &Forests,
    ) -> Result<bool, NoMemory>
        requires { IsProper (graph_in self.old) }
        ensures { IsTried self.old (Serial session (map forest_in forests.now)) self.new result }
    {
        let Some(entry) = self.entry_in_tail(alloc, session)? else {
            return Ok(false);
        };
        let tables = tables_of(alloc, forests)?;
        match try_parts(alloc, &self.current, &entry.parts, self.front())? {
            Ok(after) => self.enter(rt, alloc, entry, tables, after),
            Err(refusal) => self.refuse(entry, &tables, refusal),
        }
    }

    /// A release of the tail becomes a mark, or is too early.
    pub(crate) fn mark(&mut self, session: u32) -> Result<bool, NoMemory>
        ensures { IsMade (marked self.old session) self.old self.new result }
    {
        let Some(asked) = self.in_tail(session) else {
            return Ok(false);
        };
        let Some((seq, upto)) = asked.release() else {
            return Ok(false);
        };
        let front = self.front();
        if front < upto {
            self.tell(session, LogLine::Reply(Outcome::NotYet { front }))?;
            return Ok(true);
        }
        let line = Line::Mark { session, seq, upto };
        self.add_line(
            session,
            line,
            LogLine::Reply(Outcome::Marked { front, upto }),
        )?;
        Ok(true)
    }

    /// A leave of the tail becomes a line.
    pub(crate) fn leave(&mut self, session: u32) -> Result<bool, NoMemory>
        ensures { IsMade (left self.old session) self.old self.new result }
    {
        let Some(asked) = self.in_tail(session) else {
            return Ok(false);
        };
        let Some(seq) = asked.leave() else {
            return Ok(false);
        };
        let reply = LogLine::Reply(Outcome::Left {
            front: self.front(),
        });
        self.add_line(session, Line::Leave { session, seq }, reply)?;
        Ok(true)
    }

    /// The next command of a session that stands in the tail, in the phase of the tail.
    fn in_tail(&self, session: u32) -> Option<&Asked>
        ensures { option_copied result ≡ asked_in_tail self.now session }
    {
        if self.phase != Phase::Serially {
            return None;
        }
        next_at(&self.seats, session, Stand::InTail)
    }

    /// The entry that the next command of a session in the tail would make, where it is a change.
    fn entry_in_tail(&self, alloc: Global, session: u32) -> Result<Option<Entry>, NoMemory>
        ensures { IfOk result (λ entry. entry ≡ entry_in_tail self.now session) }
    {
        match self.in_tail(session) {
            Some(asked) => asked.entry(alloc, session),
            None => Ok(None),
        }
    }

    /// An entry that is accepted stands in the list, where the tables are right on the graph after it.
    fn enter<R: Threads + Sync>(
        &mut self,
        rt: &R,
        alloc: Global,
        entry: Entry,
        tables: Tables,
        after: PlainGraph,
    ) -> Result<bool, NoMemory>
        requires proper { IsProper after }
        requires after { after ≡ entered (graph_in self.old) entry.parts }
        ensures { IsEntered self.old tables entry after self.new result }
    {
        let right = are_forests(rt, alloc, &after, &self.specs, &tables)?;
        if !right {
            return Ok(false);
        }
        self.add_entry(entry, tables, after)?;
        Ok(true)
    }

    /// A change is refused, where the tables say the forests of now.
    fn refuse(&mut self, entry: Entry, tables: &Tables, refusal: Refusal) -> Result<bool, NoMemory>
        ensures { IsRefused self.old tables.now entry refusal self.new result }
    {
        if !are_same_forests(tables, self.tables()) {
            return Ok(false);
        }
        self.tell(entry.session, LogLine::Reply(Outcome::Refused(refusal)))?;
        Ok(true)
    }

    /// A session has one reply more. After `NoMemory` all is as before.
    pub(crate) fn tell(&mut self, session: u32, reply: LogLine) -> Result<(), NoMemory>
        ensures ok { OnOk result (self.new ≡ told_at self.old session reply self.old.lines) }
        ensures err { OnErr result (self.new ≡ self.old) }
    {
        let knew = self.lines.len() as u64;
        tell_seat(&mut self.seats, session, reply, knew)
    }

    /// A mark or a leave more at the end, and the reply to its session. After `NoMemory` all is as before.
    fn add_line(&mut self, session: u32, line: Line, reply: LogLine) -> Result<(), NoMemory>
        requires no_entry { is_entry line ≡ false }
        ensures ok { OnOk result (self.new ≡ told_at self.old session reply (self.old.lines ++ line ∷ [])) }
        ensures err { OnErr result (self.new ≡ self.old) }
    {
        push_line(&mut self.seats, &mut self.lines, session, line, reply)?;
        Ok(())
    }

    /// An entry more at the end, with the rows of its place and the reply to its session. After `NoMemory` all is as before.
    pub(crate) fn add_entry(
        &mut self,
        entry: Entry,
        tables: Tables,
        after: PlainGraph,
    ) -> Result<(), NoMemory>
        requires after { after ≡ entered (graph_in self.old) entry.parts }
        requires full { length tables ≡ length self.old.specs }
        ensures ok { OnOk result (self.new ≡ entered_with self.old entry tables) }
        ensures err { OnErr result (self.new ≡ self.old) }
    {
        let place = self.places.len() as u64;
        push_entry(
            &mut self.seats,
            &mut self.lines,
            &mut self.places,
            entry,
            tables,
            place,
        )?;
        self.current = after;
        Ok(())
    }
}

/// An entry more at the end, with the rows of its place and the reply to its session that it stands there. After `NoMemory` all lists
/// are as before.
fn push_entry(
    seats: &mut Vec<Seat>,
    lines: &mut Vec<Line>,
    places: &mut Vec<Tables>,
    entry: Entry,
    tables: Tables,
    place: u64,
) -> Result<(), NoMemory>
    requires { place ≡ length places.old.items }
    ensures places { OnOk result (places.new.items ≡ places.old.items ++ tables ∷ []) }
    ensures lines { OnOk result (lines.new.items ≡ lines.old.items ++ line.Entry entry ∷ []) }
    ensures seats { OnOk result (seats.new.items
        ≡ told_seats seats.old.items entry.session (Reply (outcome.Placed place)) (length lines.old.items + 1)) }
    ensures no_places { OnErr result (places.new.items ≡ places.old.items) }
    ensures no_lines { OnErr result (lines.new.items ≡ lines.old.items) }
    ensures no_seats { OnErr result (seats.new.items ≡ seats.old.items) }
{
    let session = entry.session;
    let length = lines.len();
    push_both(lines, places, Line::Entry(entry), tables)?;
    let reply = LogLine::Reply(Outcome::Placed { place });
    if let Err(NoMemory) = tell_seat(seats, session, reply, length as u64 + 1) {
        lines.truncate(length);
        places.truncate(place as usize);
        return Err(NoMemory);
    }
    Ok(())
}

/// A line more at the end, and the reply to its session. After `NoMemory` both lists are as before.
fn push_line(
    seats: &mut Vec<Seat>,
    lines: &mut Vec<Line>,
    session: u32,
    line: Line,
    reply: LogLine,
) -> Result<(), NoMemory>
    ensures lines { OnOk result (lines.new.items ≡ lines.old.items ++ line ∷ []) }
    ensures seats { OnOk result (seats.new.items ≡ told_seats seats.old.items session reply (length lines.old.items + 1)) }
    ensures no_lines { OnErr result (lines.new.items ≡ lines.old.items) }
    ensures no_seats { OnErr result (seats.new.items ≡ seats.old.items) }
{
    let length = lines.len();
    lines.push(line)?;
    if let Err(NoMemory) = tell_seat(seats, session, reply, length as u64 + 1) {
        lines.truncate(length);
        return Err(NoMemory);
    }
    Ok(())
}

/// The seat of a session, where it is there, has one reply more, which rests on so many lines.
fn tell_seat(seats: &mut Vec<Seat>, session: u32, reply: LogLine, knew: u64) -> Result<(), NoMemory>
    ensures ok { OnOk result (seats.new.items ≡ told_seats seats.old.items session reply knew) }
    ensures err { OnErr result (seats.new.items ≡ seats.old.items) }
{
    if (session as usize) < seats.len() {
        seats[session as usize].tell(reply, knew)
    } else {
        Ok(())
    }
}

/// The graph after a request, or its refusal with this front.
fn try_parts(
    alloc: Global,
    graph: &PlainGraph,
    parts: &Parts,
    front: u64,
) -> Result<Result<PlainGraph, Refusal>, NoMemory>
    ensures { IfOk result (λ after. IsAfter graph.now parts.now front after) }
{
    match plain_entered(alloc, graph, parts, front) {
        Ok(after) => Ok(Ok(after)),
        Err(Refusal::NoVertex { front, part, id }) => Ok(Err(Refusal::NoVertex {
            front,
            part,
            id,
        })),
        Err(Refusal::NoEdge { front, part }) => Ok(Err(Refusal::NoEdge { front, part })),
        Err(Refusal::Limit { front, part, given }) => Ok(Err(Refusal::Limit {
            front,
            part,
            given,
        })),
        Err(Refusal::NoMemory) => Err(NoMemory),
    }
}
