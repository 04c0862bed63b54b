ghost use Rattle.std.specs.Prelude.{◌≡◌, ◌∷◌, [], IfOk, length, map, replicate};
ghost use Rattle.std.specs.List.{list_any};
ghost use Rattle.std.specs.Option.{option_copied};
ghost use Rattle.ris_base.specs.Lines.{front};
ghost use Rattle.ris_base.specs.Machine.{asked_by, empty_seat, session_by};
ghost use Rattle.ris_core.specs.Moves.{IsMade, forests_in, is_stand, next_at, published, published_seat, stood_seats, submitted, taken};
ghost use Rattle.ris_core.specs.Runs.{opened_as, outcome_of};
ghost use Rattle.ris_core.specs.Stands.{stand_of, state_of};

use crate::memory::both;
use crate::phases::{Phase, Stand};
use crate::seats::{Asked, Decided, Seat};
use crate::tables::Tables;
use ris_base::{Command, Line, NoMemory, Outcome, PlainGraph, Request, Specs};
use ris_four::plain_copy;
use std::alloc::Global;
use std::marker::Model;

mod reads;
mod seals;
mod steps;
mod tail;
mod turns;

/// The state of the core machine: the plain graph of place 0, the analyses, the seat of each session, the serial list, the rows of
/// the forests of each place, the phase, the decisions of the turn, and how many lines are published. `current` is the graph of the
/// last place.
#[derive(Drop)]
pub(crate) struct Board {
    opening: PlainGraph,
    specs: Specs,
    seats: Vec<Seat>,
    lines: Vec<Line>,
    places: Vec<Tables>,
    phase: Phase,
    decided: Vec<Decided>,
    published: u64,
    current: PlainGraph,
}

impl Model for Board {
    ghost use Rattle.std.specs.Prelude.{◌≡◌, ◌+◌, All, length};
    ghost use Rattle.ris_base.specs.Lines.{front};
    ghost use Rattle.ris_base.specs.Requests.{after};
    ghost use Rattle.ris_core.specs.Stands;
    ghost use Rattle.ris_core.specs.Stands.{phase_of};

    ghost Value = { Stands.Listing };

    ghost view = { λ b. record {
      opening = b.opening;
      specs = b.specs;
      seats = b.seats.items;
      lines = b.lines.items;
      places = b.places.items;
      phase = phase_of b.phase;
      decided = b.decided.items;
      published = b.published;
    } };

    ghost invariant = { λ b. (b.current ≡ after b.opening b.lines.items (front b.lines.items)) × (length b.places.items ≡ front b.lines.items + 1)
        × All (λ tables. length tables ≡ length b.specs) b.places.items };
}

impl Board {
    /// The state in which nothing has happened.
    pub(crate) fn new(
        alloc: Global,
        opening: PlainGraph,
        specs: Specs,
        sessions: u32,
        tables: Tables,
    ) -> Result<Board, NoMemory>
        requires { length tables ≡ length specs }
        ensures { IfOk result (λ board. board ≡ opened_as opening specs sessions tables) }
    {
        let lists = both(empty_seats(alloc, sessions), one_place(alloc, tables));
        match both(plain_copy(alloc, &opening), lists) {
            Ok((current, (seats, places))) => Ok(Board {
                opening,
                specs,
                seats,
                lines: Vec::new(alloc),
                places,
                phase: Phase::Collect,
                decided: Vec::new(alloc),
                published: 0,
                current,
            }),
            Err(NoMemory) => Err(NoMemory),
        }
    }

    /// What became of the request of a session with this number.
    pub(crate) fn outcome(&self, session: u32, seq: u64) -> Option<&Outcome>
        ensures { option_copied result ≡ outcome_of (state_of self.now) session seq }
    {
        match self.seats.get(session as usize) {
            Some(seat) => seat.outcome(seq),
            None => None,
        }
    }

    /// The front request of a session's queue goes to the batch.
    pub(crate) fn take(&mut self, session: u32) -> Result<bool, NoMemory>
        ensures { IsMade (taken self.old session) self.old self.new result }
    {
        if self.phase != Phase::Collect || next_at(&self.seats, session, Stand::Queued).is_none() {
            return Ok(false);
        }
        stand_at(&mut self.seats, session, Stand::InBatch);
        Ok(true)
    }

    /// A request goes to the back of its session's queue.
    pub(crate) fn submit(
        &mut self,
        alloc: Global,
        session: u32,
        request: &Request,
    ) -> Result<bool, NoMemory>
        ensures { IsMade (submitted self.old session request.now) self.old self.new result }
    {
        let Some(seat) = self.seats.get(session as usize) else {
            return Ok(false);
        };
        if session_by(request) != session || !seat.may_ask(seq_by(request)) {
            return Ok(false);
        }
        let command = command_by(alloc, request)?;
        self.seats[session as usize].ask(seq_by(request), command)?;
        Ok(true)
    }

    /// The number of entries.
    fn front(&self) -> u64
        ensures { result ≡ front self.now.lines }
    {
        self.places.len() as u64 - 1
    }

    /// The rows of the forests of now.
    fn tables(&self) -> &Tables
        ensures { result.now ≡ forests_in self.now }
    {
        &self.places[self.places.len() - 1]
    }

    /// The turn ends: its lines are published, and the withheld replies go out.
    pub(crate) fn publish(&mut self) -> Result<bool, NoMemory>
        ensures { IsMade (published self.old) self.old self.new result }
    {
        if self.phase != Phase::Serially || some_stand(&self.seats, Stand::InTail) {
            return Ok(false);
        }
        let length = self.lines.len() as u64;
        publish_all(&mut self.seats, length);
        self.phase = Phase::Collect;
        self.published = length;
        Ok(true)
    }
}

/// The session of a request.
fn session_by(request: &Request) -> u32
    ensures { result ≡ session_by request.now }
{
    match request {
        Request::Submit(entry) => entry.session,
        Request::Release { session, .. } => *session,
        Request::Leave { session, .. } => *session,
    }
}

/// The number of a request in its session.
fn seq_by(request: &Request) -> u64
    ensures { result ≡ (asked_by request.now).seq }
{
    match request {
        Request::Submit(entry) => entry.seq,
        Request::Release { seq, .. } => *seq,
        Request::Leave { seq, .. } => *seq,
    }
}

/// The command that a request is.
fn command_by(alloc: Global, request: &Request) -> Result<Command, NoMemory>
    ensures { IfOk result (λ command. command ≡ (asked_by request.now).command) }
{
    match request {
        Request::Submit(entry) => {
            let parts = entry.parts.copy(alloc)?;
            Ok(Command::Change(parts))
        }
        Request::Release { upto, .. } => Ok(Command::Release(*upto)),
        Request::Leave { .. } => Ok(Command::Leave),
    }
}

/// All replies of each seat are given, and each has seen so many lines.
fn publish_all(seats: &mut Vec<Seat>, seen: u64)
    ensures { seats.new.items ≡ map (published_seat seen) seats.old.items }
{
    for seat in seats.iter_mut() {
        seat.publish(seen);
    }
}

/// The next command of a session, where it stands here.
fn next_at(seats: &[Seat], session: u32, stand: Stand) -> Option<&Asked>
    ensures { option_copied result ≡ next_at seats.now session (stand_of stand) }
{
    match seats.get(session as usize) {
        Some(seat) => {
            if seat.stand() == stand {
                seat.next()
            } else {
                None
            }
        }
        None => None,
    }
}

/// The next command of a session, where it has a seat, stands elsewhere.
fn stand_at(seats: &mut Vec<Seat>, session: u32, stand: Stand)
    ensures { seats.new.items ≡ stood_seats seats.old.items session (stand_of stand) }
{
    if (session as usize) < seats.len() {
        seats[session as usize].move_to(stand);
    }
}

/// Whether the next command of some session stands here.
fn some_stand(seats: &[Seat], stand: Stand) -> bool
    ensures { result ≡ list_any (λ seat. is_stand seat.stand (stand_of stand)) seats.now }
{
    seats.iter().any(|seat| seat.stand() == stand)
}

/// The tables of the first place.
fn one_place(alloc: Global, tables: Tables) -> Result<Vec<Tables>, NoMemory>
    ensures { IfOk result (λ places. places.items ≡ tables ∷ []) }
{
    let mut places = Vec::new(alloc);
    places.push(tables)?;
    Ok(places)
}

/// So many seats of sessions that said nothing.
fn empty_seats(alloc: Global, sessions: u32) -> Result<Vec<Seat>, NoMemory>
    ensures { IfOk result (λ seats. seats.items ≡ replicate sessions empty_seat) }
{
    let mut seats = Vec::new(alloc);
    for _n in 0..sessions {
        seats.push(Seat::new(alloc))?;
    }
    Ok(seats)
}
