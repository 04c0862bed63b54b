ghost use Rattle.std.specs.Prelude.{◌≡◌, ◌==◌, ◌<◌, ◌≤◌, ℕ, Some, None, false, OnOk, OnErr, IfOk, IfSome, IfNone, length, replicate, slice_index_or};
ghost use Rattle.ris_repair.specs.Changes.{IsTakenChange, IsNoRank};
ghost use Rattle.ris_repair.specs.Tables.{change_of, number_or_zero};

use crate::queues::priority;
use crate::stores::Change;
use ris_algo::Monotone;
use ris_base::{NoMemory, Parent, Value};
use std::alloc::Global;
use std::marker::Model;
use std::mem::size_of;

/// Whether a vertex has a change, and of what kind its value is then.
#[derive(Clone, Copy)]
pub(crate) enum MarkKind {
    Unchanged,
    Absent,
    Unreached,
    Number,
}

/// What kind of change a vertex has, and whether it is settled, in two bytes.
#[derive(Clone, Copy)]
pub(crate) struct Mark {
    pub kind: MarkKind,
    pub settled: bool,
}

const _: () = prove!(size_of::<Mark>() == 2);

impl Mark {
    /// The mark of a change.
    #[inline(always)]
    fn of(change: &Change) -> Mark
        ensures { change_of result (number_or_zero change.now.value) change.now.parent ≡ Some change.now }
    {
        let kind = match change.value {
            Value::Absent => MarkKind::Absent,
            Value::Unreached => MarkKind::Unreached,
            Value::Num(_) => MarkKind::Number,
        };
        Mark {
            kind,
            settled: change.settled,
        }
    }
}

/// A number, and 0 for a value that is none.
#[inline(always)]
fn number_or_zero(value: Value) -> u64
    ensures { result ≡ number_or_zero value }
{
    match value {
        Value::Num(number) => number,
        _ => 0,
    }
}

/// A change or none for each vertex number below some number, as tables side by side: what is asked at random places is
/// mostly the mark, and then the number, so these lie close.
#[derive(Drop)]
pub(crate) struct Table {
    marks: Vec<Mark>,
    numbers: Vec<u64>,
    parents: Vec<Parent>,
}

impl Model for Table {
    ghost use Rattle.std.specs.Prelude.{◌≤◌, List, Option, length};
    ghost use Rattle.ris_repair.specs.declared.stores.Change.{Change};

    ghost Value = { List (Option Change) };

    ghost use Rattle.ris_repair.specs.Tables.{changes_of};

    ghost view = { λ t. changes_of t.marks.items t.numbers.items t.parents.items };

    ghost invariant = { λ t. (length t.marks.items ≤ length t.numbers.items) × (length t.marks.items ≤ length t.parents.items) };
}

impl Table {
    /// A table with no changes. It has a place for each vertex below `size`.
    pub(crate) fn with_size(alloc: Global, size: u32) -> Result<Table, NoMemory>
        ensures { IfOk result (λ table. table ≡ replicate size None) }
    {
        let mut table = Table {
            marks: Vec::new(alloc),
            numbers: Vec::new(alloc),
            parents: Vec::new(alloc),
        };
        table.grow(size as usize)?;
        Ok(table)
    }

    /// Makes places for the vertices below `size`. After `NoMemory` the places are as before.
    fn grow(&mut self, size: usize) -> Result<(), NoMemory>
        requires { length self.old ≤ size }
        ensures len { OnOk result (length self.new ≡ size) }
        ensures same { OnOk result ((y : ℕ) → slice_index_or self.new y None ≡ slice_index_or self.old y None) }
        ensures err { OnErr result (self.new ≡ self.old) }
    {
        self.numbers.resize(size, 0)?;
        self.parents.resize(size, Parent::None)?;
        let mark = Mark {
            kind: MarkKind::Unchanged,
            settled: false,
        };
        self.marks.resize(size, mark)?;
        Ok(())
    }

    /// The number of places.
    pub(crate) fn len(&self) -> usize
        ensures { result ≡ length self.now }
    {
        self.marks.len()
    }

    /// The change of a vertex. `None` exactly where it has none.
    #[inline(always)]
    pub(crate) fn get(&self, vertex: u32) -> Option<Change>
        ensures { result ≡ slice_index_or self.now vertex None }
    {
        let place = vertex as usize;
        if place >= self.marks.len() {
            return None;
        }
        let mark = self.marks[place];
        let value = match mark.kind {
            MarkKind::Unchanged => return None,
            MarkKind::Absent => Value::Absent,
            MarkKind::Unreached => Value::Unreached,
            MarkKind::Number => Value::Num(self.numbers[place]),
        };
        Some(Change {
            value,
            parent: self.parents[place],
            settled: mark.settled,
        })
    }

    /// Gives a vertex this change in place of the one that it had. The table grows where it has no such place. After
    /// `NoMemory` the changes are as before.
    #[inline(always)]
    pub(crate) fn put(&mut self, vertex: u32, change: Change) -> Result<(), NoMemory>
        ensures here { OnOk result (slice_index_or self.new vertex None ≡ Some change) }
        ensures others { OnOk result ((y : ℕ) → (vertex == y) ≡ false → slice_index_or self.new y None ≡ slice_index_or self.old y None) }
        ensures err { OnErr result (self.new ≡ self.old) }
    {
        let place = vertex as usize;
        if place >= self.len() {
            self.grow(place + 1)?;
        }
        self.write(place, change);
        Ok(())
    }

    /// Writes a change in a place.
    #[inline(always)]
    fn write(&mut self, place: usize, change: Change)
        requires { place < length self.old }
        ensures here { slice_index_or self.new place None ≡ Some change }
        ensures others { (y : ℕ) → (place == y) ≡ false → slice_index_or self.new y None ≡ slice_index_or self.old y None }
    {
        self.marks[place] = Mark::of(&change);
        self.numbers[place] = number_or_zero(change.value);
        self.parents[place] = change.parent;
    }

    /// Settles a vertex that waits with a number of this priority, and gives the number. `None` exactly where it doesn't wait
    /// with such a number; then nothing changes.
    pub(crate) fn take<A: Monotone>(&mut self, algo: &A, vertex: u32, best: u64) -> Option<u64>
        ensures taken { IfSome result (λ number. IsTakenChange (A.spec algo.now).kind best (slice_index_or self.old vertex None) number (slice_index_or self.new vertex None)) }
        ensures none { IfNone result (IsNoRank (A.spec algo.now).kind best (slice_index_or self.old vertex None)) }
        ensures same { IfNone result (slice_index_or self.new vertex None ≡ slice_index_or self.old vertex None) }
        ensures others { (y : ℕ) → (vertex == y) ≡ false → slice_index_or self.new y None ≡ slice_index_or self.old y None }
    {
        let place = vertex as usize;
        if place >= self.marks.len() {
            return None;
        }
        let mark = self.marks[place];
        if mark.settled {
            return None;
        }
        if let MarkKind::Number = mark.kind {
            let number = self.numbers[place];
            if priority(algo, number) == best {
                self.marks[place].settled = true;
                return Some(number);
            }
        }
        None
    }
}
