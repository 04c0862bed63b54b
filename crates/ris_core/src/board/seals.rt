ghost use Rattle.std.specs.Prelude.{◌≡◌, ◌&&◌, [], OnErr, OnOk, not};
ghost use Rattle.std.specs.List.{list_any};
ghost use Rattle.ris_base.specs.Machine.{Cells, Serially, Undecided};
ghost use Rattle.ris_core.specs.Moves.{IsMade, is_phase, is_stand, sealed, sealed_all, sealed_one};

use super::{Board, some_stand};
use crate::cells::merge_of;
use crate::copies::{Duplicate, copies_of, list_copy};
use crate::graphs::graph_after;
use crate::memory::{both, put};
use crate::phases::{Phase, Stand};
use crate::seats::Decided;
use ris_base::{LogLine, NoMemory, Order, Outcome, Refusal, Verdict};
use ris_four::plain_copy;
use std::alloc::Global;

impl Board {
    /// The decided candidates become entries or refusals in this order of sessions, where it is a merge of the stripes' logs and no
    /// candidate is left. It is done on a copy, so that want of memory leaves all as before.
    pub(crate) fn seal(&mut self, alloc: Global, order: &Order) -> Result<bool, NoMemory>
        ensures { IsMade (sealed self.old order.now) self.old self.new result }
    {
        if !self.may_seal() {
            return Ok(false);
        }
        let Some(merged) = merge_of(alloc, order, &self.decided)? else {
            return Ok(false);
        };
        self.seal_merged(alloc, &merged)?;
        Ok(true)
    }

    /// The same in this order of the candidates. After `NoMemory` all is as before.
    fn seal_merged(&mut self, alloc: Global, merged: &[Decided]) -> Result<(), NoMemory>
        ensures ok { OnOk result (self.new ≡ record (sealed_all self.old merged.now) { phase = Serially; decided = [] }) }
        ensures err { OnErr result (self.new ≡ self.old) }
    {
        let mut next = self.duplicate(alloc)?;
        let made = next.seal_all(alloc, merged);
        next.phase = Phase::Serially;
        next.decided.clear();
        put(self, next, made)
    }

    /// Whether the phase is that of the cells, and no candidate is left.
    fn may_seal(&self) -> bool
        ensures { result ≡ (is_phase self.now.phase Cells && not (list_any (λ seat. is_stand seat.stand Undecided) self.now.seats)) }
    {
        self.phase == Phase::Cells && !some_stand(&self.seats, Stand::Undecided)
    }

    /// What decided candidates make, one after another. After `NoMemory` some of them may be there.
    fn seal_all(&mut self, alloc: Global, merged: &[Decided]) -> Result<(), NoMemory>
        ensures { OnOk result (self.new ≡ sealed_all self.old merged.now) }
    {
        for decision in merged {
            self.seal_one(alloc, decision)?;
        }
        Ok(())
    }

    /// A decided candidate becomes an entry with the forests of now, or is told that there is no copy to take.
    fn seal_one(&mut self, alloc: Global, decision: &Decided) -> Result<(), NoMemory>
        ensures { OnOk result (self.new ≡ sealed_one self.old decision.now) }
    {
        if decision.verdict == Verdict::Applied {
            let after = graph_after(alloc, &self.current, &decision.entry.parts);
            let found = both(after, self.tables().duplicate(alloc));
            match both(decision.entry.copy(alloc), found) {
                Ok((entry, (after, tables))) => self.add_entry(entry, tables, after),
                Err(NoMemory) => Err(NoMemory),
            }
        } else {
            let front = self.front();
            let refusal = Refusal::NoEdge { front, part: 1 };
            let reply = LogLine::Reply(Outcome::Refused(refusal));
            self.tell(decision.entry.session, reply)
        }
    }
}

impl Duplicate for Board {
    fn duplicate(&self, alloc: Global) -> Result<Self, NoMemory> {
        let graphs = both(
            plain_copy(alloc, &self.opening),
            plain_copy(alloc, &self.current),
        );
        let said = both(copies_of(alloc, &self.seats), copies_of(alloc, &self.lines));
        let found = both(
            copies_of(alloc, &self.places),
            copies_of(alloc, &self.decided),
        );
        let lists = both(list_copy(alloc, &self.specs), both(said, found));
        match both(graphs, lists) {
            Ok(((opening, current), (specs, ((seats, lines), (places, decided))))) => Ok(Board {
                opening,
                specs,
                seats,
                lines,
                places,
                phase: self.phase,
                decided,
                published: self.published,
                current,
            }),
            Err(NoMemory) => Err(NoMemory),
        }
    }
}
