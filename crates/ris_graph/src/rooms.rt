ghost use Rattle.std.specs.Prelude.{◌≡◌, ◌+◌, ◌<◌, ◌≤◌, ℕ, [], ◌∷◌, ◌++◌, ◌==◌, ◌&&◌, if◌then◌else◌, length, take, OnOk, IfOk, count_by, slice_index};
ghost use Rattle.std.specs.List.{All};
ghost use Rattle.std.specs.List.Sorted.{IsNonDecreasing};
ghost use Rattle.ris_base.specs.Limits.{vertex_limit};
ghost use Rattle.ris_graph.specs.GraphView.{row_at};
ghost use Rattle.ris_graph.specs.Nets.{comes};
ghost use Rattle.ris_graph.specs.Tables.{row_of, HasRow, IsRoomier, end_of};

use crate::graphs::Graph;
use crate::nets::{Net, NetTriple, NetTriples};
use crate::outs::{OutRows, STRIPES};
use crate::tables::RowTable;
use ris_base::{NoMemory, Vertices};
use std::alloc::Global;

impl<M> Graph<M> {
    ghost use Rattle.ris_graph.specs.GraphView.{HasRoomOf};
    ghost use Rattle.ris_graph.specs.Nets.{IsNetOf, HasRoomFor};

    /// Makes room for a net of this graph, so that its commit and then its undo take no memory. No row loses room, also
    /// where `NoMemory` comes. It costs n log n for n triples that come into the graph. The tables grow by doubling
    /// where an added vertex is past their end.
    pub fn make_room_for(&mut self, net: &Net) -> Result<(), NoMemory>
        requires { IsNetOf self.old net.now }
        ensures room { OnOk result (HasRoomFor self.new net.now) }
        ensures same { HasRoomOf self.old self.new }
    {
        self.grow(&net.added)?;
        let sources = coming(self.alloc, &net.triples, true)?;
        reserve_outs(&mut self.outs, &sources)?;
        let targets = coming(self.alloc, &net.triples, false)?;
        reserve_ins(&mut self.ins, &targets)
    }

    /// Makes places for vertices. After `NoMemory` the graph is as before, and its tables may be longer.
    fn grow(&mut self, vertices: &Vertices) -> Result<(), NoMemory>
        requires { All (λ x. x < vertex_limit) vertices.now }
        ensures ok { OnOk result (All (λ x. x < length self.new.present) vertices.now) }
        ensures same { HasRoomOf self.old self.new }
    {
        let bound = bound(vertices);
        if bound > self.present.len() {
            let places = bound.div_ceil(STRIPES);
            self.outs.grow(self.alloc, places)?;
            self.ins.grow(self.alloc, places * STRIPES)?;
            self.present.resize(places * STRIPES, false)?;
        }
        Ok(())
    }
}

/// The least number that each of the vertices is below.
fn bound(vertices: &Vertices) -> usize
    ensures above { All (λ x. x < result) vertices.now }
    ensures least { (n : ℕ) → All (λ x. x < n) vertices.now → result ≤ n }
{
    let mut bound: usize = 0;
    for k in 0..vertices.len() {
        bound = bound.max(*vertices.at(k) as usize + 1);
    }
    bound
}

/// The sources or the targets of the triples that come into a graph, ascending.
fn coming(alloc: Global, triples: &NetTriples, out: bool) -> Result<Vec<u32>, NoMemory>
    ensures sorted { IfOk result (λ v. IsNonDecreasing v.items) }
    ensures counts { IfOk result (λ v. (x : ℕ) → count_by (λ y. y == x) v.items ≡ count_by (λ t. (end_of out t == x) && comes t) triples.now) }
{
    let mut ends = Vec::new(alloc);
    for k in 0..triples.len() {
        push_end(&mut ends, triples.at(k), out)?;
    }
    ends.sort_unstable();
    Ok(ends)
}

/// One number more, where the triple comes: its source or its target.
fn push_end(ends: &mut Vec<u32>, net: &NetTriple, out: bool) -> Result<(), NoMemory>
    ensures { OnOk result (ends.new.items ≡ (if comes net.now then ends.old.items ++ end_of out net.now ∷ [] else ends.old.items)) }
{
    if net.before > 0 || net.after == 0 {
        return Ok(());
    }
    let end = if out {
        net.triple.source
    } else {
        net.triple.target
    };
    ends.push(end)?;
    Ok(())
}

/// How many of the equal numbers at a place of an ascending list stand up to this place, or more than so many.
fn rank(ends: &[u32], k: usize) -> u64
    requires sorted { IsNonDecreasing ends.now }
    requires place { k < length ends.now }
    ensures { count_by (λ y. y == slice_index ends.now k) (take (k + 1) ends.now) ≤ result }
{
    let end = ends[k];
    let first = ends.partition_point(|y| *y < end);
    (k + 1 - first) as u64
}

/// Makes room in the out row of each vertex for as many neighbours as it stands times in an ascending list.
fn reserve_outs<M>(outs: &mut OutRows<M>, ends: &[u32]) -> Result<(), NoMemory>
    requires sorted { IsNonDecreasing ends.now }
    requires rows { All (HasRow outs.old) ends.now }
    ensures room { OnOk result ((u : ℕ) → count_by (λ y. y == u) ends.now ≤ (row_of outs.new u).spare) }
    ensures rows { (u : ℕ) → IsRoomier (row_of outs.old u) (row_of outs.new u) }
    ensures stripes { length outs.new ≡ length outs.old }
    ensures has_rows { (u : ℕ) → HasRow outs.old u → HasRow outs.new u }
{
    for k in 0..ends.len() {
        outs.reserve(ends[k], rank(ends, k))?;
    }
    Ok(())
}

/// Makes room in the in row of each vertex for as many neighbours as it stands times in an ascending list.
fn reserve_ins<M>(ins: &mut RowTable<M>, ends: &[u32]) -> Result<(), NoMemory>
    requires sorted { IsNonDecreasing ends.now }
    requires rows { All (λ v. v < length ins.old) ends.now }
    ensures room { OnOk result ((v : ℕ) → count_by (λ y. y == v) ends.now ≤ (row_at ins.new v).spare) }
    ensures rows { (v : ℕ) → IsRoomier (row_at ins.old v) (row_at ins.new v) }
    ensures places { length ins.new ≡ length ins.old }
{
    for k in 0..ends.len() {
        ins.reserve(ends[k] as usize, rank(ends, k))?;
    }
    Ok(())
}
