ghost use Rattle.std.specs.Prelude.{◌≡◌, ◌≢◌, ◌↔◌, ◌⊎◌, ◌+◌, ◌<◌, ℕ, List, Option, IsTrue, length, IfOk};
ghost use Rattle.std.specs.List.{All, Contains, sum_by};
ghost use Rattle.ris_algo.specs.Spreading.{nothing};
ghost use Rattle.ris_base.specs.Falling.{IsReachFor, pull, push};
ghost use Rattle.ris_base.specs.Forest.{IsForest};
ghost use Rattle.ris_base.specs.Limits.{vertex_limit};
ghost use Rattle.ris_base.specs.Requests.{entered};
ghost use Rattle.ris_base.specs.Value.{Moves};
ghost use Rattle.ris_base.specs.declared.analyses.Value.TheVariants.{Absent};
ghost use Rattle.ris_base.specs.declared.graphs.PlainGraph.{PlainGraph};
ghost use Rattle.ris_base.specs.declared.updates.Update.{Update};
ghost use Rattle.ris_forest.specs.Cells.{absent_cell, cell_at, forest_of, IsRooted, IsSmall};
ghost use Rattle.ris_forest.specs.Commits.{with_rows, IsRowBelow};
ghost use Rattle.ris_graph.specs.GraphView.{vertex_in, IsOf};
ghost use Rattle.ris_graph.specs.Ticks.{ticked, IsRise};
ghost use Rattle.ris_repair.specs.Due.{IsDue};
ghost use Rattle.ris_repair.specs.Rows.{origin_count};
ghost use Rattle.ris_repair.specs.Stages.{IsPrepared, AreRowsOf, AreRowsDue, Covers};
ghost use Rattle.ris_repair.specs.Stores.{change_at};
ghost use Rattle.ris_repair.specs.declared.stores.Change.{Change};

use crate::deltas::delta_of;
use crate::frontiers::Frontier;
use crate::marking::{all_marked, marked};
use ris_algo::Monotone;
use ris_base::{Meter, NoMemory};
use ris_forest::{Delta, Fallen, Forest};
use ris_graph::{Graph, Net};
use std::alloc::Global;

/// The frontier from which values spread after a request: each fallen vertex has the best of its start value and the steps
/// from its neighbours that stand, and the triples that the request added were looked at.
fn begun<A: Monotone, M: Meter>(
    alloc: Global,
    graph: &Graph<M>,
    forest: &Forest<A>,
    fallen: &Fallen,
    net: &Net,
    meter: &mut M,
) -> Result<Frontier, NoMemory>
    requires due { (p : PlainGraph) × (parts : List Update) × IsDue graph.now (A.spec forest.now.algo) forest.now.cells fallen.now net.now p parts }
    requires suits { A.suits forest.now.algo graph.now.format }
    ensures prepared { IfOk result (λ frontier. (p : PlainGraph) (parts : List Update) → IsDue graph.now (A.spec forest.now.algo) forest.now.cells fallen.now net.now p parts
        → IsPrepared (entered p parts) (A.spec forest.now.algo) (forest_of forest.now.cells) vertex_limit fallen.now (change_at frontier.changes) frontier.queue nothing) }
    ensures ticks { IsRise (M.ticks meter.old) (M.ticks meter.new) (sum_by (origin_count A.BOTH_WAYS graph.now) fallen.now) }
{
    let mut frontier = marked(alloc, graph, forest, fallen)?;
    frontier.pull_all(graph, forest, fallen, meter)?;
    frontier.add_all(forest, &net.triples)?;
    Ok(frontier)
}

/// Spreads values from a frontier, and lists what changed.
fn spread<A: Monotone, M: Meter>(
    alloc: Global,
    graph: &Graph<M>,
    forest: &Forest<A>,
    mut frontier: Frontier,
    meter: &mut M,
) -> Result<Delta, NoMemory>
    requires on { (g : PlainGraph) × (fallen : List ℕ) × IsOf graph.now g
        × IsPrepared g (A.spec forest.now.algo) (forest_of forest.now.cells) vertex_limit fallen (change_at frontier.changes) frontier.queue nothing }
    ensures right { IfOk result (λ delta. (g : PlainGraph) (fallen : List ℕ) → IsOf graph.now g
        → IsPrepared g (A.spec forest.now.algo) (forest_of forest.now.cells) vertex_limit fallen (change_at frontier.changes) frontier.queue nothing
        → IsForest g (A.spec forest.now.algo) (with_rows (forest_of forest.now.cells) delta)) }
    ensures rows { IfOk result (λ delta. (changes : ℕ → Option Change) × AreRowsOf (forest_of forest.now.cells) changes delta) }
    ensures due { IfOk result (λ delta. (g : PlainGraph) (fallen : List ℕ) → IsOf graph.now g
        → IsPrepared g (A.spec forest.now.algo) (forest_of forest.now.cells) vertex_limit fallen (change_at frontier.changes) frontier.queue nothing
        → AreRowsDue (A.spec forest.now.algo).kind (forest_of forest.now.cells) fallen delta) }
    ensures within { IfOk result (λ delta. All (λ row. row.vertex < vertex_limit) delta) }
    ensures small { IfOk result (λ delta. All (λ row. IsSmall row.value) delta) }
    ensures rooted { IfOk result (λ delta. IsRooted (with_rows (forest_of forest.now.cells) delta)) }
    ensures visits { (g : PlainGraph) (fallen xs : List ℕ) → IsOf graph.now g
        → IsPrepared g (A.spec forest.now.algo) (forest_of forest.now.cells) vertex_limit fallen (change_at frontier.changes) frontier.queue nothing
        → Covers g (A.spec forest.now.algo) (forest_of forest.now.cells) fallen xs
        → IsRise (M.ticks meter.old) (M.ticks meter.new) (sum_by (push g (A.spec forest.now.algo)) xs) }
{
    frontier.push_all(graph, forest, meter)?;
    let delta = delta_of(alloc, &frontier.changes, forest)?;
    Ok(delta)
}

/// The changes of a forest that make it right again after a request whose net is committed in the graph, where the forest
/// was right before it and `fallen` are exactly the vertices that the request makes fall. The vertex of each row is fallen
/// or its value changes, and each vertex whose value changes has a row; `moved` tells exactly whether the value differs.
/// The rows' vertices are below 4,194,304, their numbers are below 2^59, and with them parents lead to starts. Where the
/// forest has room for the vertices of the graph, there is room for the rows, so the delta may then be committed.
///
/// The meter ticks at most so often as the reach of the request for this analysis says, also where `NoMemory` comes: for
/// each neighbour from which walks may come to a fallen vertex, and for each one to which they may go from a vertex that is
/// fallen or whose value changes. It takes time of these visits and of the net, times a logarithm, and memory of what
/// changes. First each fallen vertex takes the best of its start value and the steps from its neighbours that stand; then
/// values spread, best first, as in Dijkstra's algorithm.
pub fn repair<A: Monotone, M: Meter>(
    alloc: Global,
    graph: &Graph<M>,
    forest: &Forest<A>,
    fallen: &Fallen,
    net: &Net,
    meter: &mut M,
) -> Result<Delta, NoMemory>
    requires due { (p : PlainGraph) × (parts : List Update) × IsDue graph.now (A.spec forest.now.algo) forest.now.cells fallen.now net.now p parts }
    requires suits { A.suits forest.now.algo graph.now.format }
    ensures right { IfOk result (λ delta. (p : PlainGraph) (parts : List Update) → IsDue graph.now (A.spec forest.now.algo) forest.now.cells fallen.now net.now p parts
        → IsForest (entered p parts) (A.spec forest.now.algo) (with_rows (forest_of forest.now.cells) delta)) }
    ensures moved { IfOk result (λ delta. (p : PlainGraph) (parts : List Update) → IsDue graph.now (A.spec forest.now.algo) forest.now.cells fallen.now net.now p parts
        → All (λ row. IsTrue row.moved ↔ Moves p (entered p parts) (A.spec forest.now.algo) row.vertex) delta) }
    ensures rows { IfOk result (λ delta. (p : PlainGraph) (parts : List Update) → IsDue graph.now (A.spec forest.now.algo) forest.now.cells fallen.now net.now p parts
        → All (λ row. Contains fallen.now row.vertex ⊎ Moves p (entered p parts) (A.spec forest.now.algo) row.vertex) delta) }
    ensures within { IfOk result (λ delta. All (λ row. row.vertex < vertex_limit) delta) }
    ensures below { ((x : ℕ) → IsTrue (vertex_in graph.now x) → x < length forest.now.cells) → IfOk result (λ delta. All (IsRowBelow (length forest.now.cells)) delta) }
    ensures small { IfOk result (λ delta. All (λ row. IsSmall row.value) delta) }
    ensures rooted { IfOk result (λ delta. IsRooted (with_rows (forest_of forest.now.cells) delta)) }
    ensures visits { (p : PlainGraph) (parts : List Update) (n : ℕ) → IsDue graph.now (A.spec forest.now.algo) forest.now.cells fallen.now net.now p parts
        → IsReachFor p (A.spec forest.now.algo) parts (forest_of forest.now.cells) n → IsRise (M.ticks meter.old) (M.ticks meter.new) n }
    ensures counted { (k : ℕ) × (M.ticks meter.new ≡ ticked (M.ticks meter.old) k) }
{
    let frontier = begun(alloc, graph, forest, fallen, net, meter)?;
    let delta = spread(alloc, graph, forest, frontier, meter)?;
    Ok(delta)
}

/// The changes that make a forest of absent vertices that of the graph. Each vertex of the graph has a row, and `moved` is
/// true of exactly the rows whose value isn't absent. The delta may then be committed: the rows' vertices are below
/// 4,194,304, there is room for them, their numbers are below 2^59, and with them parents lead to starts.
///
/// The meter ticks at most so often as the vertices have neighbours from which walks may come and to which they may go,
/// also where `NoMemory` comes. It takes time of the graph's triples times a logarithm, and time and memory of the vertex
/// numbers for which the forest has room.
pub fn from_scratch<A: Monotone, M: Meter>(
    alloc: Global,
    graph: &Graph<M>,
    forest: &Forest<A>,
    meter: &mut M,
) -> Result<Delta, NoMemory>
    requires of { (p : PlainGraph) × IsOf graph.now p }
    requires absent { (x : ℕ) → cell_at forest.now.cells x ≡ absent_cell }
    requires suits { A.suits forest.now.algo graph.now.format }
    requires room { (x : ℕ) → IsTrue (vertex_in graph.now x) → x < length forest.now.cells }
    ensures right { IfOk result (λ delta. (p : PlainGraph) → IsOf graph.now p → IsForest p (A.spec forest.now.algo) (with_rows (forest_of forest.now.cells) delta)) }
    ensures moved { IfOk result (λ delta. All (λ row. IsTrue row.moved ↔ (row.value ≢ Absent)) delta) }
    ensures within { IfOk result (λ delta. All (λ row. row.vertex < vertex_limit) delta) }
    ensures below { IfOk result (λ delta. All (IsRowBelow (length forest.now.cells)) delta) }
    ensures small { IfOk result (λ delta. All (λ row. IsSmall row.value) delta) }
    ensures rooted { IfOk result (λ delta. IsRooted (with_rows (forest_of forest.now.cells) delta)) }
    ensures visits { (p : PlainGraph) → IsOf graph.now p
        → IsRise (M.ticks meter.old) (M.ticks meter.new) (sum_by (λ x. pull p (A.spec forest.now.algo) x + push p (A.spec forest.now.algo) x) p.vertices) }
    ensures counted { (k : ℕ) × (M.ticks meter.new ≡ ticked (M.ticks meter.old) k) }
{
    let frontier = all_marked(alloc, graph, forest)?;
    let delta = spread(alloc, graph, forest, frontier, meter)?;
    Ok(delta)
}
