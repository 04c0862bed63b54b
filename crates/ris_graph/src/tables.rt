ghost use Rattle.std.specs.Prelude.{◌≡◌, ◌-◌, ◌^◌, ◌<◌, ◌≤◌, ℕ, [], length, slice_set, OnOk};
ghost use Rattle.ris_rows.specs.Neighbours.{IsAscending, copies_of};
ghost use Rattle.ris_rows.specs.RowView.{with_count, inserted, removed};
ghost use Rattle.ris_graph.specs.GraphView.{row_at};
ghost use Rattle.ris_graph.specs.Tables.{IsRoomier};

use ris_base::NoMemory;
use ris_rows::{Cursor, Row};
use std::alloc::Global;
use std::marker::Model;

/// Rows by place. A place past the end has a row without neighbours and without room.
#[derive(Drop)]
pub(crate) struct RowTable<M> {
    rows: Vec<Row<M>>,
}

impl<M> Model for RowTable<M> {
    ghost use Rattle.std.specs.Prelude.{List};
    ghost use Rattle.ris_rows.specs.RowView.{RowView};

    ghost Value = { List RowView };

    ghost view = { λ t. t.rows.items };
}

impl<M> RowTable<M> {
    /// A table without places. It takes no memory.
    pub fn new(alloc: Global) -> RowTable<M>
        ensures { result ≡ [] }
    {
        RowTable {
            rows: Vec::new(alloc),
        }
    }

    /// The number of places.
    pub fn len(&self) -> usize
        ensures { result ≡ length self.now }
    {
        self.rows.len()
    }

    /// The number of copies of the neighbour (end, weight) in the row at a place.
    pub fn count(&self, place: usize, end: u32, weight: u64) -> u64
        ensures { result ≡ copies_of (row_at self.now place).items end weight }
    {
        match self.rows.get(place) {
            Some(row) => row.count(end, weight),
            None => 0,
        }
    }

    /// A cursor before the first neighbour of the row at a place.
    pub fn cursor(&self, place: usize) -> Cursor<'_, M>
        ensures items { result ≡ (row_at self.now place).items }
        ensures ascending { IsAscending result }
    {
        match self.rows.get(place) {
            Some(row) => row.cursor(),
            None => Cursor::empty(),
        }
    }

    /// Makes room for `n` inserts in the row at a place, as `Row::reserve` does.
    #[inline(always)]
    pub fn reserve(&mut self, place: usize, n: u64) -> Result<(), NoMemory>
        requires { place < length self.old }
        ensures table { self.new ≡ slice_set self.old place (row_at self.new place) }
        ensures row { IsRoomier (row_at self.old place) (row_at self.new place) }
        ensures room { OnOk result (n ≤ (row_at self.new place).spare) }
    {
        self.rows[place].reserve(n)
    }

    /// Sets the number of copies of the neighbour (end, weight) in the row at a place, as `Row::put` does.
    pub fn put(&mut self, place: usize, end: u32, weight: u64, copies: u64)
        requires place { place < length self.old }
        requires room { copies_of (row_at self.old place).items end weight ≡ 0 → 1 ≤ copies → 1 ≤ (row_at self.old place).spare }
        ensures { self.new ≡ slice_set self.old place (with_count (row_at self.old place) end weight copies) }
    {
        self.rows[place].put(end, weight, copies);
    }

    /// One copy more of the neighbour (end, weight) in the row at a place, as `Row::append` adds it.
    #[inline(always)]
    pub fn append(&mut self, place: usize, end: u32, weight: u64)
        requires place { place < length self.old }
        requires room { 1 ≤ (row_at self.old place).spare }
        requires few { copies_of (row_at self.old place).items end weight < 2 ^ 64 - 1 }
        ensures { self.new ≡ slice_set self.old place (inserted (row_at self.old place) end weight) }
    {
        self.rows[place].append(end, weight);
    }

    /// One copy more of the neighbour (end, weight) in the row at a place, as `Row::insert` adds it.
    pub fn insert(&mut self, place: usize, end: u32, weight: u64)
        requires place { place < length self.old }
        requires room { 1 ≤ (row_at self.old place).spare }
        requires few { copies_of (row_at self.old place).items end weight < 2 ^ 64 - 1 }
        ensures { self.new ≡ slice_set self.old place (inserted (row_at self.old place) end weight) }
    {
        self.rows[place].insert(end, weight);
    }

    /// One copy fewer of the neighbour (end, weight) in the row at a place, where there is one.
    pub fn remove(&mut self, place: usize, end: u32, weight: u64)
        requires { place < length self.old }
        ensures { self.new ≡ slice_set self.old place (removed (row_at self.old place) end weight) }
    {
        let _ = self.rows[place].remove(end, weight);
    }

    /// Makes `n` places at least. After `NoMemory` every row is as before, and there may be more places.
    pub fn grow(&mut self, alloc: Global, n: usize) -> Result<(), NoMemory>
        ensures rows { (k : ℕ) → row_at self.new k ≡ row_at self.old k }
        ensures longer { length self.old ≤ length self.new }
        ensures ok { OnOk result (n ≤ length self.new) }
    {
        for _ in self.rows.len()..n {
            self.rows.push(Row::new(alloc))?;
        }
        Ok(())
    }
}
