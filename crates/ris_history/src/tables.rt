ghost use Rattle.std.specs.Prelude.{◌≡◌, ◌≢◌, ◌<◌, length, OnOk, OnErr, IfOk};
ghost use Rattle.ris_history.specs.Applied.{opened_table, entered_table, trimmed_table};
ghost use Rattle.ris_history.specs.Chains.{kept_in};
ghost use Rattle.ris_base.specs.declared.analyses.Value.TheVariants.{Absent};
ghost use Rattle.ris_history.specs.HistoryView.{shown};

use crate::chains::Chain;
use crate::growth::grow;
use crate::numbers::{bound_of, number};
use crate::openings::opened_chains;
use crate::pushes::push_all;
use crate::trims;
use crate::trims::Due;
use ris_base::{Changes, Forests, NoMemory, Parent, Value};
use std::alloc::Global;
use std::collections::VecDeque;
use std::marker::Model;

/// The chains of all vertices by all analyses, up to a front. The chains of a vertex stand side by side. A queue of the
/// changes that aren't the first of their chains, in order of places, tells which chains a raised floor trims.
#[derive(Drop)]
pub struct Table {
    chains: Vec<Chain>,
    dues: VecDeque<Due>,
    front: u64,
    kept: u64,
    analyses: u32,
    alloc: Global,
}

impl Model for Table {
    ghost use Rattle.ris_history.specs.HistoryView.{TableView};
    ghost use Rattle.ris_history.specs.Sound.{IsSound};

    ghost Value = { TableView };

    ghost view = { λ t. record { front = t.front; analyses = t.analyses; chains = t.chains.items } };

    ghost invariant = { λ t. IsSound t.chains.items t.dues.items t.front t.kept t.analyses };
}

impl Table {
    /// The table of these forests of place 0.
    pub fn start(alloc: Global, forests: &Forests) -> Result<Table, NoMemory>
        ensures { IfOk result (λ table. table ≡ opened_table forests.now) }
    {
        let Ok(analyses) = u32::try_from(forests.len()) else {
            return Err(NoMemory);
        };
        let chains = opened_chains(alloc, analyses, forests)?;
        Ok(Table {
            chains,
            dues: VecDeque::new(alloc),
            front: 0,
            kept: 0,
            analyses,
            alloc,
        })
    }

    /// One entry more, with its changes. A change past the analyses or past the limit of vertex numbers is passed over.
    /// After `NoMemory`, which is also the answer where a counter would pass 2^64 - 1, the table is as before.
    pub fn enter(&mut self, changes: &Changes) -> Result<(), NoMemory>
        ensures ok { OnOk result (self.new ≡ entered_table self.old changes.now) }
        ensures err { OnErr result (self.new ≡ self.old) }
    {
        let Some(front) = self.front.checked_add(1) else {
            return Err(NoMemory);
        };
        let Some(_) = self.kept.checked_add(changes.len()) else {
            return Err(NoMemory);
        };
        let (size, waiting) = (self.chains.len(), self.dues.len());
        grow(&mut self.chains, bound_of(self.analyses, changes))?;
        if push_all(
            &mut self.chains,
            self.alloc,
            &mut self.dues,
            self.analyses,
            front,
            changes,
        )
        .is_err()
        {
            self.chains.truncate(size);
            return Err(NoMemory);
        }
        self.front = front;
        self.kept += (self.dues.len() - waiting) as u64;
        Ok(())
    }

    /// Drops what no place from `floor` on needs. Each change that goes costs constant time.
    pub fn trim(&mut self, floor: u64)
        ensures { self.new ≡ trimmed_table floor self.old }
    {
        self.kept = trims::trim(&mut self.chains, &mut self.dues, self.kept, floor);
    }

    /// The number of entries.
    pub fn front(&self) -> u64
        ensures { result ≡ self.now.front }
    {
        self.front
    }

    /// The number of analyses.
    pub fn analyses(&self) -> u32
        ensures { result ≡ self.now.analyses }
    {
        self.analyses
    }

    /// The number of chains.
    pub fn size(&self) -> usize
        ensures { result ≡ length self.now.chains }
    {
        self.chains.len()
    }

    /// The number of changes that are kept.
    pub fn kept(&self) -> u64
        ensures { result ≡ kept_in self.now.chains }
    {
        self.kept
    }

    /// What holds at the place `v` of the vertex `x` by the analysis `a`: its value and its parent. A binary search.
    pub fn latest(&self, v: u64, a: u32, x: u64) -> (Value, Parent)
        requires { a < self.now.analyses }
        ensures value { result.0 ≡ (shown self.now v a x).value }
        ensures parent { result.1 ≡ (shown self.now v a x).parent }
        ensures within { result.0 ≢ Absent → x < 4294967296 }
    {
        let chains = &self.chains;
        let Ok(x) = u32::try_from(x) else {
            return (Value::Absent, Parent::None);
        };
        match chains.get(number(self.analyses, a, x)) {
            Some(chain) => {
                let held = chain.latest(v);
                (held.value(), held.parent())
            }
            None => (Value::Absent, Parent::None),
        }
    }
}
