ghost use Rattle.std.specs.Prelude.{◌≡◌, ◌<◌, ℕ, IsTrue, length, IfOk};
ghost use Rattle.ris_algo.specs.Spreading.{nothing};
ghost use Rattle.ris_base.specs.Limits.{vertex_limit};
ghost use Rattle.ris_base.specs.declared.graphs.PlainGraph.{PlainGraph};
ghost use Rattle.ris_forest.specs.Cells.{absent_cell, cell_at, forest_of};
ghost use Rattle.ris_graph.specs.GraphView.{vertex_in, IsOf};
ghost use Rattle.ris_repair.specs.Marks.{marked, started, among, AreMarked};
ghost use Rattle.ris_repair.specs.Stages.{IsPrepared};
ghost use Rattle.ris_repair.specs.Stores.{change_at};

use crate::frontiers::Frontier;
use crate::stores::Change;
use ris_algo::Monotone;
use ris_base::{NoMemory, Parent, Value, Vertices};
use ris_forest::Forest;
use ris_graph::Graph;
use std::alloc::Global;

/// A start value as a value.
fn started(start: Option<u64>) -> Value
    ensures { result ≡ started start }
{
    match start {
        Some(number) => Value::Num(number),
        None => Value::Unreached,
    }
}

/// What a vertex has when it begins anew: its start value, unreached where it has none, or absent where it isn't in the
/// graph.
fn begun_anew<A: Monotone, M>(graph: &Graph<M>, forest: &Forest<A>, x: u32) -> Change
    ensures { result ≡ marked graph.now (A.start_of forest.now.algo) x }
{
    let value = if graph.has_vertex(x as u64) {
        started(forest.algo().start(x))
    } else {
        Value::Absent
    };
    Change {
        value,
        parent: Parent::None,
        settled: false,
    }
}

/// The frontier at which the vertices of a list begin anew. None of them waits yet.
pub(crate) fn marked<A: Monotone, M>(
    alloc: Global,
    graph: &Graph<M>,
    forest: &Forest<A>,
    fallen: &Vertices,
) -> Result<Frontier, NoMemory>
    ensures { IfOk result (λ f. AreMarked graph.now (A.start_of forest.now.algo) (among fallen.now) (change_at f.changes)) }
{
    let mut frontier = Frontier::new(alloc);
    for k in 0..fallen.len() {
        let x = *fallen.at(k);
        frontier.changes.insert(x, begun_anew(graph, forest, x))?;
    }
    Ok(frontier)
}

/// The frontier at which all vertices of the graph begin anew, where the forest has none yet. Those with a start value
/// wait.
pub(crate) fn all_marked<A: Monotone, M>(
    alloc: Global,
    graph: &Graph<M>,
    forest: &Forest<A>,
) -> Result<Frontier, NoMemory>
    requires absent { (x : ℕ) → cell_at forest.now.cells x ≡ absent_cell }
    requires suits { A.suits forest.now.algo graph.now.format }
    requires room { (x : ℕ) → IsTrue (vertex_in graph.now x) → x < length forest.now.cells }
    ensures { IfOk result (λ frontier. (g : PlainGraph) → IsOf graph.now g
        → IsPrepared g (A.spec forest.now.algo) (forest_of forest.now.cells) vertex_limit g.vertices (change_at frontier.changes) frontier.queue nothing) }
{
    let mut frontier = Frontier::whole(alloc, forest.size())?;
    for x in 0..forest.size() {
        if graph.has_vertex(x as u64) {
            frontier.put(forest, x, begun_anew(graph, forest, x))?;
        }
    }
    Ok(frontier)
}
