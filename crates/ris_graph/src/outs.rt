ghost use Rattle.std.specs.Prelude.{◌≡◌, ◌-◌, ◌*◌, ◌^◌, ◌<◌, ◌≤◌, ℕ, length, OnOk, IfOk};
ghost use Rattle.ris_rows.specs.Neighbours.{IsAscending, copies_of};
ghost use Rattle.ris_rows.specs.RowView.{with_count, inserted};
ghost use Rattle.ris_graph.specs.Tables.{row_of, with_row, HasRow, IsRoomier};

use crate::stripes::Stripe;
use ris_base::{NoMemory, Triple};
use ris_rows::Cursor;
use std::alloc::Global;
use std::marker::Model;

/// The number of stripes.
pub(crate) const STRIPES: usize = 64;

/// The out rows of a graph, by vertex, in 64 stripes without jobs: the row of the vertex u stands in the stripe u mod 64 at
/// the place u div 64. Each stripe has the memory for 64 jobs.
#[derive(Drop)]
pub(crate) struct OutRows<M> {
    pub(crate) stripes: Vec<Stripe<M>>,
}

impl<M> Model for OutRows<M> {
    ghost use Rattle.std.specs.Prelude.{◌≡◌, List, length, map};
    ghost use Rattle.std.specs.List.{All};
    ghost use Rattle.ris_rows.specs.RowView.{RowView};
    ghost use Rattle.ris_graph.specs.StripeView.{IsIdle};

    ghost Value = { List (List RowView) };

    ghost view = { λ o. map (λ s. s.rows) o.stripes.items };

    ghost invariant = { λ o. (length o.stripes.items ≡ 64) × All IsIdle o.stripes.items };
}

impl<M> OutRows<M> {
    ghost use Rattle.ris_graph.specs.GraphView.{no_row};

    /// The out rows of no vertices.
    pub fn new(alloc: Global) -> Result<OutRows<M>, NoMemory>
        ensures stripes { IfOk result (λ o. length o ≡ 64) }
        ensures rows { IfOk result (λ o. (u : ℕ) → row_of o u ≡ no_row) }
    {
        let mut stripes = Vec::with_capacity(alloc, STRIPES)?;
        for _ in 0..STRIPES {
            stripes.push(Stripe::new(alloc)?)?;
        }
        Ok(OutRows { stripes })
    }

    /// Makes rows for the vertices below 64 times `places`. After `NoMemory` every row is as before, and there may be more.
    pub fn grow(&mut self, alloc: Global, places: usize) -> Result<(), NoMemory>
        ensures stripes { length self.new ≡ length self.old }
        ensures rows { (u : ℕ) → row_of self.new u ≡ row_of self.old u }
        ensures longer { (u : ℕ) → HasRow self.old u → HasRow self.new u }
        ensures ok { OnOk result ((u : ℕ) → u < 64 * places → HasRow self.new u) }
    {
        for k in 0..STRIPES {
            self.stripes[k].grow(alloc, places)?;
        }
        Ok(())
    }

    /// The number of copies of the triple from `u` to `end` of weight `weight`.
    pub fn count(&self, u: u32, end: u32, weight: u64) -> u64
        ensures { result ≡ copies_of (row_of self.now u).items end weight }
    {
        let stripe = &self.stripes[u as usize % STRIPES];
        stripe.copies(Triple {
            source: u,
            target: end,
            weight,
        })
    }

    /// A cursor before the first neighbour of `u`.
    pub fn cursor(&self, u: u32) -> Cursor<'_, M>
        ensures items { result ≡ (row_of self.now u).items }
        ensures ascending { IsAscending result }
    {
        let stripe = &self.stripes[u as usize % STRIPES];
        stripe.cursor(u as usize / STRIPES)
    }

    /// Makes room for `n` inserts in the row of `u`, as `Row::reserve` does.
    #[inline(always)]
    pub fn reserve(&mut self, u: u32, n: u64) -> Result<(), NoMemory>
        requires { HasRow self.old u }
        ensures table { self.new ≡ with_row self.old u (row_of self.new u) }
        ensures row { IsRoomier (row_of self.old u) (row_of self.new u) }
        ensures room { OnOk result (n ≤ (row_of self.new u).spare) }
    {
        let stripe = &mut self.stripes[u as usize % STRIPES];
        stripe.reserve(u as usize / STRIPES, n)
    }

    /// Sets the number of copies of the neighbour (end, weight) of `u`, as `Row::put` does.
    pub fn put(&mut self, u: u32, end: u32, weight: u64, copies: u64)
        requires row { HasRow self.old u }
        requires room { copies_of (row_of self.old u).items end weight ≡ 0 → 1 ≤ copies → 1 ≤ (row_of self.old u).spare }
        ensures { self.new ≡ with_row self.old u (with_count (row_of self.old u) end weight copies) }
    {
        let stripe = &mut self.stripes[u as usize % STRIPES];
        stripe.put(u as usize / STRIPES, end, weight, copies);
    }

    /// One copy more of the neighbour (end, weight) of `u`, as `Row::append` adds it.
    #[inline(always)]
    pub fn append(&mut self, u: u32, end: u32, weight: u64)
        requires row { HasRow self.old u }
        requires room { 1 ≤ (row_of self.old u).spare }
        requires few { copies_of (row_of self.old u).items end weight < 2 ^ 64 - 1 }
        ensures { self.new ≡ with_row self.old u (inserted (row_of self.old u) end weight) }
    {
        let stripe = &mut self.stripes[u as usize % STRIPES];
        stripe.append(u as usize / STRIPES, end, weight);
    }
}
