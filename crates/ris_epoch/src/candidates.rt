ghost use Rattle.std.specs.Prelude.{◌≡◌, ◌+◌, ◌<◌, ◌≤◌, List, [], ◌∷◌, ◌++◌, true, IfOk, OnOk};
ghost use Rattle.std.specs.VecDeque.{deque_capacity, deque_len};
ghost use Rattle.ris_base.specs.Forest;
ghost use Rattle.ris_base.specs.Safe;
ghost use Rattle.ris_base.specs.declared.analyses.Spec.{Spec};
ghost use Rattle.ris_base.specs.declared.graphs.PlainGraph.{PlainGraph};
ghost use Rattle.ris_base.specs.Lines.{front};
ghost use Rattle.ris_base.specs.declared.lines.Line.TheVariants as line;
ghost use Rattle.ris_epoch.specs.Account.{entry_record};
ghost use Rattle.ris_graph.specs.GraphView.{HasRoomOf, IsOf};
ghost use Rattle.ris_journal.specs.JournalView.{with_line};
ghost use Rattle.ris_graph.specs.Phase.{HasPhaseRoom};

use crate::ordered::Keyed;
use ris_base::{Changes, Entry, Line, NoMemory, Record, Triple, Update};
use ris_graph::Graph;
use ris_journal::Journal;
use std::alloc::Global;
use std::collections::VecDeque;
use std::marker::Model;

/// The greatest number of copies that a triple may have before a turn that adds some in parallel.
const COPIES: u64 = 9_223_372_036_854_775_808;

/// The entry of a candidate, twice: for the serial list and for its record.
#[derive(Drop)]
pub(crate) struct Candidate {
    pub(crate) entry: Entry,
    pub(crate) copy: Entry,
}

impl Model for Candidate {
    ghost use Rattle.std.specs.Prelude.{◌≡◌};
    ghost use Rattle.ris_base.specs.declared.lines.Entry.{Entry};

    ghost Value = { Entry };

    ghost view = { λ c. c.entry };

    ghost invariant = { λ c. c.copy ≡ c.entry };
}

/// Candidates are ordered by their stripes.
impl Keyed for Candidate {
    ghost use Rattle.ris_epoch.specs.Ordering.{stripe_by_entry};

    ghost key_of = { stripe_by_entry };

    fn key(&self) -> u32 {
        self.entry.key()
    }
}

/// Makes all room that the jobs of a turn may need for a candidate's update: for so many inserts in both rows of an `AddE`.
/// `NoMemory` comes, too, where its triple has more than 2^63 copies.
pub(crate) fn make_phase_room<M>(
    graph: &mut Graph<M>,
    update: Update,
    inserts: usize,
) -> Result<(), NoMemory>
    requires { (p : PlainGraph) × (specs : List Spec) × (forests : List Forest.Forest) × IsOf graph.old p
        × (Safe.is_candidate p specs forests (update ∷ []) ≡ true) }
    ensures ok { OnOk result (HasPhaseRoom inserts graph.new update) }
    ensures same { HasRoomOf graph.old graph.new }
{
    let Update::AddE { u, v, w } = update else {
        return Ok(());
    };
    let t = Triple {
        source: u as u32,
        target: v as u32,
        weight: w,
    };
    if graph.copies(t) > COPIES {
        return Err(NoMemory);
    }
    graph.make_room(t, inserts as u64)
}

/// Makes room for so many lines with their records.
pub(crate) fn make_line_room(
    journal: &mut Journal,
    records: &mut VecDeque<Record>,
    lines: usize,
) -> Result<(), NoMemory>
    ensures ok { OnOk result ((lines ≤ journal.new.spare) × (deque_len records.new + lines ≤ deque_capacity records.new)) }
    ensures lines { journal.new.lines ≡ journal.old.lines }
    ensures spare { journal.old.spare ≤ journal.new.spare }
    ensures items { records.new.items ≡ records.old.items }
    ensures room { deque_capacity records.old ≤ deque_capacity records.new }
{
    journal.reserve(lines as u64)?;
    records.reserve(lines)?;
    Ok(())
}

/// A candidate of an entry, once all memory that its turn needs for it is there.
pub(crate) fn doubled(alloc: Global, entry: Entry) -> Result<Candidate, NoMemory>
    ensures { IfOk result (λ candidate. candidate ≡ entry) }
{
    let copy = entry.copy(alloc)?;
    Ok(Candidate { entry, copy })
}

/// Writes an entry with its record, for both of which there is room. So it takes no memory.
pub(crate) fn append(
    journal: &mut Journal,
    records: &mut VecDeque<Record>,
    candidate: Candidate,
    changes: Changes,
)
    requires line { 1 ≤ journal.old.spare }
    requires few { front journal.old.lines < 4294967295 }
    requires room { deque_len records.old < deque_capacity records.old }
    ensures line { journal.new ≡ with_line journal.old (line.Entry candidate) }
    ensures written { records.new.items ≡ records.old.items ++ entry_record candidate changes ∷ [] }
    ensures capacity { deque_capacity records.new ≡ deque_capacity records.old }
{
    let Candidate { entry, copy } = candidate;
    journal.append(Line::Entry(entry));
    let line = Line::Entry(copy);
    records.push_back_reserved(Record { line, changes });
}
