ghost use Rattle.std.specs.Prelude.{◌≡◌, ◌==◌, ℕ, Some, None, false, OnOk, OnErr, IfOk, IfSome, IfNone};
ghost use Rattle.ris_repair.specs.Changes.{IsTakenChange, IsNoRank};
ghost use Rattle.ris_repair.specs.Stores.{change_at};

use crate::fews::{FEW_LIMIT, Few};
use crate::queues::priority;
use crate::tables::Table;
use ris_algo::Monotone;
use ris_base::{NoMemory, Parent, Value};
use std::alloc::Global;
use std::collections::HashMap;

/// What a vertex has so far: its value, its parent, and whether its neighbours were handed out, after which it doesn't
/// change.
#[derive(Clone, Copy)]
pub(crate) struct Change {
    pub value: Value,
    pub parent: Parent,
    pub settled: bool,
}

impl Change {
    /// Settles what waits with a number of this priority, and gives the number. `None` exactly where it doesn't wait with
    /// such a number; then nothing changes.
    pub(crate) fn take<A: Monotone>(&mut self, algo: &A, best: u64) -> Option<u64>
        ensures taken { IfSome result (λ number. IsTakenChange (A.spec algo.now).kind best (Some self.old) number (Some self.new)) }
        ensures none { IfNone result (IsNoRank (A.spec algo.now).kind best (Some self.old)) }
        ensures same { IfNone result (self.new ≡ self.old) }
    {
        if self.settled {
            return None;
        }
        match self.value {
            Value::Num(number) if priority(algo, number) == best => {
                self.settled = true;
                Some(number)
            }
            _ => None,
        }
    }
}

/// The changes of vertices, at most one of each vertex.
#[derive(Drop)]
pub(crate) enum Store {
    /// In a list of at most `FEW_LIMIT`, which a look-up scans: it takes memory of as many at once.
    Few(Few),
    /// By vertices that have one, for more of them: it takes memory of what changes.
    Sparse(HashMap<u32, Change>),
    /// By vertex number, for most of all: it takes memory of the greatest vertex number.
    Dense(Table),
}

impl Store {
    /// A sparse store with no changes. It takes no memory before the first one, and then at once for some.
    pub(crate) fn sparse(alloc: Global) -> Store
        ensures { (x : ℕ) → change_at result x ≡ None }
    {
        Store::Few(Few::new(alloc))
    }

    /// A dense store with no changes. It has a place for each vertex below `size`.
    pub(crate) fn dense(alloc: Global, size: u32) -> Result<Store, NoMemory>
        ensures { IfOk result (λ store. (x : ℕ) → change_at store x ≡ None) }
    {
        let table = Table::with_size(alloc, size)?;
        Ok(Store::Dense(table))
    }

    /// The change of a vertex. `None` exactly where it has none.
    #[inline(always)]
    pub(crate) fn get(&self, vertex: u32) -> Option<Change>
        ensures { result ≡ change_at self.now vertex }
    {
        match self {
            Store::Few(few) => few.get(vertex),
            Store::Sparse(map) => map.get(&vertex).copied(),
            Store::Dense(table) => table.get(vertex),
        }
    }

    /// Goes over from a list to a map, where the list has `FEW_LIMIT` changes and none of this vertex.
    fn make_room(&mut self, vertex: u32) -> Result<(), NoMemory>
        ensures { (y : ℕ) → change_at self.new y ≡ change_at self.old y }
    {
        if let Store::Few(few) = self {
            if few.len() >= FEW_LIMIT && few.get(vertex).is_none() {
                let map = few.spilled()?;
                *self = Store::Sparse(map);
            }
        }
        Ok(())
    }

    /// Gives a vertex this change in place of the one that it had. After `NoMemory` the changes are as before.
    #[inline(always)]
    pub(crate) fn insert(&mut self, vertex: u32, change: Change) -> Result<(), NoMemory>
        ensures here { OnOk result (change_at self.new vertex ≡ Some change) }
        ensures others { OnOk result ((y : ℕ) → (vertex == y) ≡ false → change_at self.new y ≡ change_at self.old y) }
        ensures err { OnErr result ((y : ℕ) → change_at self.new y ≡ change_at self.old y) }
    {
        if let Store::Dense(table) = self {
            return table.put(vertex, change);
        }
        self.insert_any(vertex, change)
    }

    /// As `insert`, of a store of any kind. It stands apart, so that what a dense one does is short enough to be part of the
    /// caller.
    #[inline(never)]
    fn insert_any(&mut self, vertex: u32, change: Change) -> Result<(), NoMemory>
        ensures here { OnOk result (change_at self.new vertex ≡ Some change) }
        ensures others { OnOk result ((y : ℕ) → (vertex == y) ≡ false → change_at self.new y ≡ change_at self.old y) }
        ensures err { OnErr result ((y : ℕ) → change_at self.new y ≡ change_at self.old y) }
    {
        self.make_room(vertex)?;
        match self {
            Store::Few(few) => few.put(vertex, change)?,
            Store::Sparse(map) => {
                map.insert(vertex, change)?;
            }
            Store::Dense(table) => table.put(vertex, change)?,
        }
        Ok(())
    }

    /// Settles a vertex that waits with a number of this priority, and gives the number. `None` exactly where it doesn't wait
    /// with such a number; then nothing changes.
    pub(crate) fn take<A: Monotone>(&mut self, algo: &A, vertex: u32, best: u64) -> Option<u64>
        ensures taken { IfSome result (λ number. IsTakenChange (A.spec algo.now).kind best (change_at self.old vertex) number (change_at self.new vertex)) }
        ensures none { IfNone result (IsNoRank (A.spec algo.now).kind best (change_at self.old vertex)) }
        ensures same { IfNone result (change_at self.new vertex ≡ change_at self.old vertex) }
        ensures others { (y : ℕ) → (vertex == y) ≡ false → change_at self.new y ≡ change_at self.old y }
    {
        match self {
            Store::Few(few) => few.take(algo, vertex, best),
            Store::Sparse(map) => match map.get_mut(&vertex) {
                Some(change) => change.take(algo, best),
                None => None,
            },
            Store::Dense(table) => table.take(algo, vertex, best),
        }
    }
}
