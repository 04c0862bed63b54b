ghost use Rattle.std.specs.Prelude.{◌≡◌, ◌+◌, ◌-◌, ◌^◌, ◌<◌, ◌≤◌, ◌==◌, ◌&&◌, ◌↔◌, ℕ, [], length, OnOk, OnErr, IsTrue, if◌then◌else◌};
ghost use Rattle.std.specs.Bool.{OnFalse};
ghost use Rattle.ris_rows.specs.Neighbours.{IsAscending, copies_of};

use crate::neighbours::Packed;
use crate::{Cursor, lists};
use ris_base::NoMemory;
use std::alloc::Global;
use std::marker::{Model, PhantomData};

/// The neighbours of one vertex: a list that ascends by the other end and then by the weight, in which each item
/// stands once, with its number of copies, which is at least 1. Its cursors count by a meter of the type `M`.
///
/// A row takes 24 bytes and a neighbour 20 more, and a row may have as many as memory has room for. Neighbours are found
/// by binary search (Knuth, The Art of Computer Programming, volume 3, section 6.2.1). An insert or a removal of an item
/// moves the items behind it.
#[derive(Drop)]
pub struct Row<M> {
    items: Vec<Packed>,
    meter: PhantomData<M>,
}

impl<M> Model for Row<M> {
    ghost use Rattle.std.specs.Prelude.{◌-◌, vec_len, vec_capacity};
    ghost use Rattle.ris_rows.specs.RowView.{RowView};
    ghost use Rattle.ris_rows.specs.Neighbours.{IsAscending};

    ghost Value = { RowView };

    ghost view = { λ r. record { items = r.items.items; spare = vec_capacity r.items - vec_len r.items } };

    ghost invariant = { λ r. IsAscending r.items.items };
}

impl<M> Row<M> {
    ghost use Rattle.ris_rows.specs.RowView.{with_count, inserted, removed};

    /// A row without neighbours. It takes no memory.
    pub fn new(alloc: Global) -> Row<M>
        ensures items { result.items ≡ [] }
        ensures spare { result.spare ≡ 0 }
    {
        Row {
            items: Vec::new(alloc),
            meter: PhantomData,
        }
    }

    /// The number of copies of the neighbour (end, weight): 0 where it isn't in the row. A binary search.
    pub fn count(&self, end: u32, weight: u64) -> u64
        ensures copies { result ≡ copies_of self.now.items end weight }
        ensures ascending { IsAscending self.now.items }
    {
        let found = lists::find(&self.items, end, weight);
        lists::copies_at(&self.items, found, end, weight)
    }

    /// Makes room for `n` inserts, and takes memory only where there is less. The room that is taken grows by doubling,
    /// so that in a run of inserts with a `reserve(1)` before each, the cost of growth is constant for each on average.
    /// After `NoMemory` the row is as before; it comes only where there was less room than `n`.
    pub fn reserve(&mut self, n: u64) -> Result<(), NoMemory>
        ensures items { self.new.items ≡ self.old.items }
        ensures room { OnOk result (n ≤ self.new.spare) }
        ensures spare { self.old.spare ≤ self.new.spare }
        ensures full { OnErr result (self.old.spare < n) }
        ensures err { OnErr result (self.new ≡ self.old) }
        ensures unchanged { n ≤ self.old.spare → self.new ≡ self.old }
    {
        if n <= (self.items.capacity() - self.items.len()) as u64 {
            return Ok(());
        }
        match self.items.reserve(n as usize) {
            Ok(()) => Ok(()),
            Err(_) => Err(NoMemory),
        }
    }

    /// One copy more of the neighbour (end, weight), of which there are below 18,446,744,073,709,551,615. There is room
    /// for it, so that it takes no memory and cannot fail. A binary search, and a new neighbour moves those behind it.
    pub fn insert(&mut self, end: u32, weight: u64)
        requires room { 1 ≤ self.old.spare }
        requires few { copies_of self.old.items end weight < 2 ^ 64 - 1 }
        ensures row { self.new ≡ inserted self.old end weight }
        ensures counts { (e w : ℕ) → copies_of self.new.items e w ≡ copies_of self.old.items e w + (if e == end && w == weight then 1 else 0) }
        ensures capacity { length self.new.items + self.new.spare ≡ length self.old.items + self.old.spare }
        ensures ascending { IsAscending self.new.items }
    {
        let found = lists::find(&self.items, end, weight);
        let copies = lists::copies_at(&self.items, found, end, weight);
        lists::write(&mut self.items, found, end, weight, copies + 1);
    }

    /// As `insert`, in constant time where no neighbour of the row stands past (end, weight). So a row is filled in
    /// linear time by neighbours that come in ascending order.
    #[inline(always)]
    pub fn append(&mut self, end: u32, weight: u64)
        requires room { 1 ≤ self.old.spare }
        requires few { copies_of self.old.items end weight < 2 ^ 64 - 1 }
        ensures row { self.new ≡ inserted self.old end weight }
        ensures counts { (e w : ℕ) → copies_of self.new.items e w ≡ copies_of self.old.items e w + (if e == end && w == weight then 1 else 0) }
        ensures capacity { length self.new.items + self.new.spare ≡ length self.old.items + self.old.spare }
        ensures ascending { IsAscending self.new.items }
    {
        if lists::goes_last(&self.items, end, weight) {
            lists::put_last(&mut self.items, end, weight);
            return;
        }
        let found = lists::find_from_end(&self.items, end, weight);
        let copies = lists::copies_at(&self.items, found, end, weight);
        lists::write(&mut self.items, found, end, weight, copies + 1);
    }

    /// One copy fewer of the neighbour (end, weight), which is gone where that was the last. `false` exactly where
    /// there is no copy; then nothing changes. It takes no memory and gives none back.
    pub fn remove(&mut self, end: u32, weight: u64) -> bool
        ensures found { IsTrue result ↔ (1 ≤ copies_of self.old.items end weight) }
        ensures row { self.new ≡ removed self.old end weight }
        ensures counts { (e w : ℕ) → copies_of self.new.items e w ≡ copies_of self.old.items e w - (if e == end && w == weight then 1 else 0) }
        ensures capacity { length self.new.items + self.new.spare ≡ length self.old.items + self.old.spare }
        ensures unchanged { OnFalse result (self.new ≡ self.old) }
        ensures ascending { IsAscending self.new.items }
    {
        let found = lists::find(&self.items, end, weight);
        let copies = lists::copies_at(&self.items, found, end, weight);
        lists::write(
            &mut self.items,
            found,
            end,
            weight,
            copies.saturating_sub(1),
        );
        copies > 0
    }

    /// Sets the number of copies of the neighbour (end, weight) to `copies`: 0 takes it out. Where it is new there is
    /// room for it, so that it takes no memory and cannot fail. One binary search.
    pub fn put(&mut self, end: u32, weight: u64, copies: u64)
        requires { copies_of self.old.items end weight ≡ 0 → 1 ≤ copies → 1 ≤ self.old.spare }
        ensures row { self.new ≡ with_count self.old end weight copies }
        ensures counts { (e w : ℕ) → copies_of self.new.items e w ≡ (if e == end && w == weight then copies else copies_of self.old.items e w) }
        ensures capacity { length self.new.items + self.new.spare ≡ length self.old.items + self.old.spare }
        ensures ascending { IsAscending self.new.items }
    {
        let found = lists::find(&self.items, end, weight);
        lists::write(&mut self.items, found, end, weight, copies);
    }

    /// A cursor before the first neighbour.
    pub fn cursor(&self) -> Cursor<'_, M>
        ensures items { result ≡ self.now.items }
        ensures ascending { IsAscending self.now.items }
    {
        Cursor::over(&self.items)
    }
}
