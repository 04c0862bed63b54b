ghost use Rattle.std.specs.Prelude.{◌≡◌, ◌<◌, ◌^◌, ◌&&◌, None, IsTrue};
ghost use Rattle.std.specs.Option.{is_none};
ghost use Rattle.ris_base.specs.Effect.{first_past_limit, first_missing};
ghost use Rattle.ris_base.specs.Limits.{greatest_of};
ghost use Rattle.ris_base.specs.Safe;
ghost use Rattle.ris_base.specs.declared.graphs.PlainGraph.{PlainGraph};
ghost use Rattle.ris_forest.specs.Cells.{forest_of, IsSmall};
ghost use Rattle.ris_graph.specs.GraphView.{IsOf};

use ris_algo::Monotone;
use ris_base::{Triple, Update, Value};
use ris_forest::Forest;
use ris_graph::Graph;

/// Whether an update is safe for the analysis of a forest: it is within the limits of the graph's format and its vertices
/// are present; an added edge improves neither end to which walks may go along it; a removed edge has two copies or more,
/// or isn't the one by which a vertex hangs; an added vertex is there already. `DelV` and `SetW` are never safe. It visits
/// nothing, takes no memory, and takes constant time but for the binary search of the copies.
pub fn is_safe<A: Monotone, M>(graph: &Graph<M>, forest: &Forest<A>, update: &Update) -> bool
    ensures { (p : PlainGraph) → IsOf graph.now p
        → result ≡ (Safe.is_sound p update.now && Safe.is_safe_for p (A.spec forest.now.algo) (forest_of forest.now.cells) update.now) }
{
    is_sound(graph, update) && keeps_forest(graph, forest, update)
}

/// Whether the parent of one of the triple's ends is along it. Constant time.
pub fn is_used_by<A>(forest: &Forest<A>, t: Triple) -> bool
    ensures { result ≡ Safe.uses (forest_of forest.now.cells) t }
{
    forest.hangs_by(t.source as u64, t) || forest.hangs_by(t.target as u64, t)
}

/// Whether an update can be safe at all: it is within the limits, its vertices are present, and it keeps vertices and
/// weights.
fn is_sound<M>(graph: &Graph<M>, update: &Update) -> bool
    ensures limits { IsTrue result → first_past_limit (greatest_of graph.now.format) update.now ≡ None }
    ensures sound { (p : PlainGraph) → IsOf graph.now p → result ≡ Safe.is_sound p update.now }
{
    update.within_limits(graph.format()).is_ok() && keeps_vertices(graph, update)
}

/// Whether the vertices of an update are present, and it keeps vertices and weights.
fn keeps_vertices<M>(graph: &Graph<M>, update: &Update) -> bool
    ensures { (p : PlainGraph) → IsOf graph.now p
        → result ≡ (is_none (first_missing p update.now) && Safe.keeps_vertices p update.now) }
{
    match *update {
        Update::AddV { x } => graph.has_vertex(x),
        Update::AddE { u, v, .. } | Update::DelE { u, v, .. } => {
            graph.has_vertex(u) && graph.has_vertex(v)
        }
        Update::DelV { .. } | Update::SetW { .. } => false,
    }
}

/// Whether an update within the limits keeps the forest right, if its vertices are present.
fn keeps_forest<A: Monotone, M>(graph: &Graph<M>, forest: &Forest<A>, update: &Update) -> bool
    requires { first_past_limit (greatest_of graph.now.format) update.now ≡ None }
    ensures { (p : PlainGraph) → IsOf graph.now p
        → result ≡ Safe.is_safe_for p (A.spec forest.now.algo) (forest_of forest.now.cells) update.now }
{
    match *update {
        Update::AddE { u, v, w } => is_idle(forest, u, v, w),
        Update::DelE { u, v, w } => {
            let t = Triple {
                source: u as u32,
                target: v as u32,
                weight: w,
            };
            graph.copies(t) >= 2 || !is_used_by(forest, t)
        }
        Update::AddV { .. } | Update::DelV { .. } | Update::SetW { .. } => true,
    }
}

/// Whether an edge more, over weight `w`, improves neither end's value, where walks may go that way.
fn is_idle<A: Monotone>(forest: &Forest<A>, u: u64, v: u64, w: u64) -> bool
    requires { w < 2 ^ 36 }
    ensures { result ≡ Safe.is_idle (A.spec forest.now.algo) (forest_of forest.now.cells) u v w }
{
    let algo = forest.algo();
    let from = forest.value(u);
    let to = forest.value(v);
    !improves(algo, from, w, to) && (!A::BOTH_WAYS || !improves(algo, to, w, from))
}

/// Whether the step over weight `w` from a vertex of the first value is better than the second value.
fn improves<A: Monotone>(algo: &A, from: Value, w: u64, to: Value) -> bool
    requires small { IsSmall from }
    requires weight { w < 2 ^ 36 }
    ensures { result ≡ Safe.improves (A.spec algo.now).kind from w to }
{
    match from {
        Value::Num(c) => beats(algo, algo.step(c, w), to),
        Value::Absent | Value::Unreached => false,
    }
}

/// Whether a number is better than a value.
fn beats<A: Monotone>(algo: &A, c: u64, to: Value) -> bool
    ensures { result ≡ Safe.beats (A.spec algo.now).kind c to }
{
    match to {
        Value::Num(d) => algo.better(c, d),
        Value::Absent | Value::Unreached => true,
    }
}
