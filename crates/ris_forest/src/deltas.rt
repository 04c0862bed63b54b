ghost use Rattle.std.specs.Prelude.{◌≡◌, ◌<◌, [], ◌∷◌, ◌++◌, All, Some, length, drop, IfOk, OnOk, OnErr, slice_get};
ghost use Rattle.std.specs.Option.{option_copied};

use ris_base::{NoMemory, Parent, Sequence, Value, Vertices};
use std::alloc::Global;
use std::marker::Model;
use std::mem::size_of;

/// A change of one vertex: its value and its parent from now on, and whether the value differs from before.
#[derive(Clone, Copy, Debug, PartialEq, Eq)]
pub struct DeltaRow {
    pub vertex: u32,
    pub moved: bool,
    pub value: Value,
    pub parent: Parent,
}

const _: () = prove!(size_of::<DeltaRow>() == 48);

/// The changes of one forest that a request makes: a list of rows with ascending vertices, each once.
#[derive(Drop)]
pub struct Delta {
    rows: Sequence<DeltaRow>,
}

impl Model for Delta {
    ghost use Rattle.std.specs.Prelude.{List};
    ghost use Rattle.ris_forest.specs.declared.deltas.DeltaRow.{DeltaRow};
    ghost use Rattle.ris_forest.specs.Commits.{AreAscendingRows};

    ghost Value = { List DeltaRow };

    ghost view = { λ d. d.rows };

    ghost invariant = { λ d. AreAscendingRows d.rows };
}

impl Delta {
    ghost use Rattle.ris_forest.specs.Commits.{AreAscendingRows};

    /// No rows. It takes no memory.
    pub fn new(alloc: Global) -> Delta
        ensures { result ≡ [] }
    {
        Delta {
            rows: Sequence::new(alloc),
        }
    }

    /// No rows, with the memory for `n` rows at once. How much room a delta has is part of no contract.
    pub fn with_room(alloc: Global, n: u64) -> Result<Delta, NoMemory>
        ensures { IfOk result (λ delta. delta ≡ []) }
    {
        let rows = Sequence::with_room(alloc, n)?;
        Ok(Delta { rows })
    }

    /// The delta of a vector's rows, whose vertices ascend, each once. It takes no memory.
    pub fn from_rows(rows: Vec<DeltaRow>) -> Delta
        requires { AreAscendingRows rows.items }
        ensures { result ≡ rows.items }
    {
        Delta {
            rows: Sequence::from_vec(rows),
        }
    }

    /// One row more, at the end. After `NoMemory` the rows are as before.
    pub fn push(&mut self, row: DeltaRow) -> Result<(), NoMemory>
        requires { All (λ r. r.vertex < row.vertex) self.old }
        ensures ok { OnOk result (self.new ≡ self.old ++ row ∷ []) }
        ensures err { OnErr result (self.new ≡ self.old) }
    {
        self.rows.push(row)
    }

    /// The number of rows.
    pub fn len(&self) -> u64
        ensures len { result ≡ length self.now }
        ensures ascending { AreAscendingRows self.now }
    {
        self.rows.len()
    }

    /// The row number `k`, counted from 0. `None` exactly where there is no such row.
    pub fn get(&self, k: u64) -> Option<&DeltaRow>
        ensures { option_copied result ≡ slice_get self.now k }
    {
        self.rows.get(k)
    }

    /// The row number `k`, counted from 0, of a delta that has one.
    pub fn at(&self, k: u64) -> &DeltaRow
        requires { k < length self.now }
        ensures { slice_get self.now k ≡ Some result.now }
    {
        self.rows.at(k)
    }

    /// The first row, which is then gone. `None` exactly where there is none.
    pub fn take_first(&mut self) -> Option<DeltaRow>
        ensures item { result ≡ slice_get self.old 0 }
        ensures rest { self.new ≡ drop 1 self.old }
    {
        self.rows.take_first()
    }
}

/// One delta for each analysis.
pub type Deltas = Sequence<Delta>;

/// The vertices that a request makes fall, in one forest.
pub type Fallen = Vertices;
