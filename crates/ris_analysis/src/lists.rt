ghost use Rattle.std.specs.Prelude.{◌≡◌, ◌<◌, ◌≤◌, ℕ, List, IsTrue, IfOk, OnOk, length, sum};
ghost use Rattle.std.specs.List.{All};
ghost use Rattle.std.specs.List.Sorted.{IsStrictlyIncreasing};
ghost use Rattle.ris_base.specs.Falling.{start_reach, AreReaches};
ghost use Rattle.ris_base.specs.Limits.{vertex_limit};
ghost use Rattle.ris_base.specs.Lists.{EachPair};
ghost use Rattle.ris_base.specs.declared.graphs.PlainGraph.{PlainGraph};
ghost use Rattle.ris_base.specs.declared.updates.Update.{Update};
ghost use Rattle.ris_graph.specs.GraphView.{vertex_in, IsOf};
ghost use Rattle.ris_graph.specs.Ticks.{ticked, IsRise};
ghost use Rattle.ris_analysis.specs.AnyForest.{spec_of, cells_of, IsStarted};
ghost use Rattle.ris_analysis.specs.Analyses.{specs_of, forests_of, committed_all, AllSuit, ArePlainSpecs, CanCommit, IsDueFor, IsGrown};
ghost use Rattle.ris_analysis.specs.Repairing.{moved_in, IsRepaired};

use crate::kinds::AnyForest;
use ris_base::{Meter, NoMemory, Specs, Vertices};
use ris_forest::{Delta, Deltas};
use ris_graph::{Graph, Net};
use std::alloc::Global;

/// The least number that each of the vertices is below.
pub fn bound(vertices: &Vertices) -> u64
    ensures above { All (λ x. x < result) vertices.now }
    ensures least { (n : ℕ) → All (λ x. x < n) vertices.now → result ≤ n }
{
    let mut bound: u64 = 0;
    for k in 0..vertices.len() {
        bound = bound.max(*vertices.at(k) as u64 + 1);
    }
    bound
}

/// The first forest of each analysis, right on a graph whose vertices are below `size`.
pub fn first_forests<M: Meter>(
    alloc: Global,
    graph: &Graph<M>,
    specs: &Specs,
    size: u32,
    meter: &mut M,
) -> Result<Vec<AnyForest>, NoMemory>
    requires of { (p : PlainGraph) × IsOf graph.now p }
    requires roots { ArePlainSpecs specs.now }
    requires room { (x : ℕ) → IsTrue (vertex_in graph.now x) → x < size }
    ensures started { IfOk result (λ forests. EachPair (IsStarted graph.now size) specs.now forests.items) }
    ensures visits { (p : PlainGraph) → IsOf graph.now p → IsRise (M.ticks meter.old) (M.ticks meter.new) (start_reach p specs.now) }
    ensures counted { (k : ℕ) × (M.ticks meter.new ≡ ticked (M.ticks meter.old) k) }
{
    let mut forests = Vec::with_capacity(alloc, specs.len() as usize)?;
    for k in 0..specs.len() {
        let forest = AnyForest::start(alloc, graph, *specs.at(k), size, meter)?;
        forests.push(forest)?;
    }
    Ok(forests)
}

/// Makes room in each forest for the vertex numbers below `size`.
pub fn make_room(forests: &mut [AnyForest], size: u32) -> Result<(), NoMemory>
    ensures ok { OnOk result (All (λ one. size ≤ length (cells_of one)) forests.new) }
    ensures grown { IsGrown forests.old forests.new }
    ensures few { size ≤ vertex_limit → All (λ one. length (cells_of one) ≤ vertex_limit) forests.old
        → All (λ one. length (cells_of one) ≤ vertex_limit) forests.new }
{
    for forest in forests.iter_mut() {
        forest.make_room(size)?;
    }
    Ok(())
}

/// The changes that make each forest right after a request whose net stands in the graph.
pub fn prepare<M: Meter>(
    alloc: Global,
    graph: &Graph<M>,
    forests: &[AnyForest],
    net: &Net,
    meter: &mut M,
) -> Result<Deltas, NoMemory>
    requires due { (p : PlainGraph) × (parts : List Update) × IsDueFor graph.now forests.now net.now p parts }
    requires suits { AllSuit forests.now graph.now.format }
    ensures repaired { IfOk result (λ deltas. EachPair (λ one delta. IsRepaired graph.now net.now (spec_of one) (cells_of one) delta) forests.now deltas) }
    ensures visits { (p : PlainGraph) (parts : List Update) (counts : List ℕ) → IsDueFor graph.now forests.now net.now p parts
        → AreReaches p parts (specs_of forests.now) (forests_of forests.now) counts → IsRise (M.ticks meter.old) (M.ticks meter.new) (sum counts) }
    ensures counted { (k : ℕ) × (M.ticks meter.new ≡ ticked (M.ticks meter.old) k) }
{
    let mut deltas = Deltas::new(alloc);
    for forest in forests {
        let delta = forest.prepare(alloc, graph, net, meter)?;
        deltas.push(delta)?;
    }
    Ok(deltas)
}

/// Overwrites in each forest what its delta names.
pub fn commit(forests: &mut Vec<AnyForest>, deltas: &Deltas)
    requires { CanCommit forests.old.items deltas.now }
    ensures { forests.new.items ≡ committed_all forests.old.items deltas.now }
{
    for k in 0..deltas.len() {
        forests[k as usize].commit(deltas.at(k));
    }
}

/// The vertices of a delta that moved, ascending.
pub fn moved(alloc: Global, delta: &Delta) -> Result<Vertices, NoMemory>
    ensures moved { IfOk result (λ vertices. vertices ≡ moved_in delta.now) }
    ensures ascending { IfOk result (λ vertices. IsStrictlyIncreasing vertices) }
{
    let mut vertices = Vertices::new(alloc);
    for k in 0..delta.len() {
        let row = delta.at(k);
        if row.moved {
            vertices.push(row.vertex)?;
        }
    }
    Ok(vertices)
}
