ghost use Rattle.std.specs.Prelude.{◌≡◌, ◌<◌, [], ◌∷◌, ◌++◌, List, All, length, drop, OnOk, OnErr, IfOk, slice_get};
ghost use Rattle.std.specs.Option.{option_copied};

use crate::{NoMemory, Sequence, Value};
use std::alloc::Global;
use std::marker::Model;

/// The parent of a vertex in a forest of an analysis: none, or the neighbour `vertex` from which its value comes, with
/// the triple between the two.
#[derive(Clone, Copy, Debug, PartialEq, Eq)]
pub enum Parent {
    None,
    From {
        vertex: u32,
        source: u32,
        target: u32,
        weight: u64,
    },
}

/// A vertex with its value and its parent.
#[derive(Clone, Copy, Debug, PartialEq, Eq)]
pub struct ForestRow {
    pub vertex: u32,
    pub value: Value,
    pub parent: Parent,
}

/// A forest as a list of rows, with ascending vertices. A vertex that is left out is absent.
#[derive(Drop)]
pub struct ForestRows {
    rows: Sequence<ForestRow>,
}

impl Model for ForestRows {
    ghost use Rattle.std.specs.Prelude.{List};
    ghost use Rattle.ris_base.specs.ForestLists.{AreAscendingRows};
    ghost use Rattle.ris_base.specs.declared.forests.ForestRow.{ForestRow};

    ghost Value = { List ForestRow };

    ghost view = { λ f. f.rows };

    ghost invariant = { λ f. AreAscendingRows f.rows };
}

impl ForestRows {
    /// No rows. It takes no memory.
    pub fn new(alloc: Global) -> ForestRows
        ensures { result ≡ [] }
    {
        ForestRows {
            rows: Sequence::new(alloc),
        }
    }

    /// No rows, with the memory for `n` at once. How much room a list has is part of no contract.
    pub fn with_room(alloc: Global, n: u64) -> Result<ForestRows, NoMemory>
        ensures { IfOk result (λ rows. rows ≡ []) }
    {
        Ok(ForestRows {
            rows: Sequence::with_room(alloc, n)?,
        })
    }

    /// One row more, at the end. After `NoMemory` the rows are as before.
    pub fn push(&mut self, row: ForestRow) -> Result<(), NoMemory>
        requires { All (λ r. r.vertex < row.vertex) self.old }
        ensures ok { OnOk result (self.new ≡ self.old ++ row ∷ []) }
        ensures err { OnErr result (self.new ≡ self.old) }
    {
        self.rows.push(row)
    }

    /// The number of rows.
    pub fn len(&self) -> u64
        ensures { result ≡ length self.now }
    {
        self.rows.len()
    }

    /// The row number `k`, counted from 0. `None` exactly where there is no such row.
    pub fn get(&self, k: u64) -> Option<&ForestRow>
        ensures { option_copied result ≡ slice_get self.now k }
    {
        self.rows.get(k)
    }

    /// The first row, which is then gone. `None` exactly where there is none.
    pub fn take_first(&mut self) -> Option<ForestRow>
        ensures item { result ≡ slice_get self.old 0 }
        ensures rest { self.new ≡ drop 1 self.old }
    {
        self.rows.take_first()
    }
}

/// One forest for each analysis.
pub type Forests = Sequence<ForestRows>;
