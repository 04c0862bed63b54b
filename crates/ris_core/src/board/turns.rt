ghost use Rattle.std.specs.Prelude.{◌≡◌, IfOk, OnErr, OnOk, map};
ghost use Rattle.ris_base.specs.Forest.{forest_in};
ghost use Rattle.ris_base.specs.Machine.{next_of};
ghost use Rattle.ris_core.specs.Moves.{IsMade, begun, begun_seat, celled, decided_with, is_candidate_as, is_candidate_next, undecided_entry};

use super::{Board, next_at, stand_at};
use crate::candidates::is_candidate;
use crate::cells::{stripe_of, verdict_of};
use crate::phases::{Phase, Stand};
use crate::seats::{Decided, Seat};
use crate::tables::Tables;
use ris_base::{Command, Entry, NoMemory, PlainGraph, Specs, Verdict};
use std::alloc::Global;

impl Board {
    /// A turn begins: candidates of the batch go to their stripes, other requests to the tail.
    pub(crate) fn begin(&mut self) -> Result<bool, NoMemory>
        ensures { IsMade (begun self.old) self.old self.new result }
    {
        if self.phase != Phase::Collect {
            return Ok(false);
        }
        let tables = &self.places[self.places.len() - 1];
        begin_all(&mut self.seats, &self.current, &self.specs, tables);
        self.phase = Phase::Cells;
        self.decided.clear();
        Ok(true)
    }

    /// The candidate of a session, which is left in this stripe, is decided.
    pub(crate) fn cell(
        &mut self,
        alloc: Global,
        stripe: u32,
        session: u32,
    ) -> Result<bool, NoMemory>
        ensures { IsMade (celled self.old stripe session) self.old self.new result }
    {
        let Some(entry) = self.undecided_entry(alloc, session)? else {
            return Ok(false);
        };
        if stripe_of(&entry.parts) != stripe {
            return Ok(false);
        }
        let verdict = verdict_of(
            &self.current,
            self.tables(),
            &self.decided,
            stripe,
            &entry.parts,
        );
        self.decide(entry, verdict)?;
        Ok(true)
    }

    /// A candidate goes to its stripe's log with this verdict or, bounced, to the tail. After `NoMemory` all is as before.
    fn decide(&mut self, entry: Entry, verdict: Verdict) -> Result<(), NoMemory>
        ensures ok { OnOk result (self.new ≡ decided_with self.old entry verdict) }
        ensures err { OnErr result (self.new ≡ self.old) }
    {
        let session = entry.session;
        if verdict == Verdict::Bounced {
            stand_at(&mut self.seats, session, Stand::InTail);
            return Ok(());
        }
        self.decided.push(Decided { entry, verdict })?;
        stand_at(&mut self.seats, session, Stand::InLog);
        Ok(())
    }

    /// The entry that the candidate of a session would make, which is left in the cells.
    fn undecided_entry(&self, alloc: Global, session: u32) -> Result<Option<Entry>, NoMemory>
        ensures { IfOk result (λ entry. entry ≡ undecided_entry self.now session) }
    {
        if self.phase != Phase::Cells {
            return Ok(None);
        }
        match next_at(&self.seats, session, Stand::Undecided) {
            Some(asked) => asked.entry(alloc, session),
            None => Ok(None),
        }
    }
}

/// Each request of the batch goes to its stripe or to the tail.
fn begin_all(seats: &mut Vec<Seat>, graph: &PlainGraph, specs: &Specs, tables: &Tables)
    ensures { seats.new.items ≡ map (begun_seat graph.now specs.now (map forest_in tables.now)) seats.old.items }
{
    for seat in seats.iter_mut() {
        begin_one(seat, graph, specs, tables);
    }
}

/// The next command of a seat in the batch goes to its stripe or to the tail.
fn begin_one(seat: &mut Seat, graph: &PlainGraph, specs: &Specs, tables: &Tables)
    ensures { seat.new ≡ begun_seat graph.now specs.now (map forest_in tables.now) seat.old }
{
    if seat.stand() == Stand::InBatch {
        if is_candidate_next(seat, graph, specs, tables) {
            seat.move_to(Stand::Undecided);
        } else {
            seat.move_to(Stand::InTail);
        }
    }
}

/// Whether the next command of a seat is a candidate.
fn is_candidate_next(seat: &Seat, graph: &PlainGraph, specs: &Specs, tables: &Tables) -> bool
    ensures { result ≡ is_candidate_next graph.now specs.now (map forest_in tables.now) (next_of seat.now) }
{
    match seat.next() {
        Some(asked) => is_candidate_command(&asked.command, graph, specs, tables),
        None => false,
    }
}

/// Whether a command is a candidate.
fn is_candidate_command(
    command: &Command,
    graph: &PlainGraph,
    specs: &Specs,
    tables: &Tables,
) -> bool
    ensures { result ≡ is_candidate_as graph.now specs.now (map forest_in tables.now) command.now }
{
    match command {
        Command::Change(parts) => is_candidate(graph, specs, tables, parts),
        _ => false,
    }
}
