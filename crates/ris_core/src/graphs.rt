ghost use Rattle.std.specs.Prelude.{◌≡◌, ◌<◌, ◌↔◌, IfOk, IsTrue, None, Some};
ghost use Rattle.ris_base.specs.Analysis.{start, step};
ghost use Rattle.ris_base.specs.Forest.{Joins};
ghost use Rattle.ris_base.specs.Graph.{copies, has_equal, has_vertex, is_equal, triple};
ghost use Rattle.ris_base.specs.Requests.{entered};
ghost use Rattle.ris_base.specs.Walk.{both_ways};

use ris_base::{Kind, NoMemory, Parts, PlainGraph, Refusal, Spec, Triple};
use ris_four::{plain_copy, plain_entered};
use std::alloc::Global;

/// Whether `x` is a vertex of the graph.
pub(crate) fn has_vertex(graph: &PlainGraph, x: u64) -> bool
    ensures { result ≡ has_vertex graph.now x }
{
    for k in 0..graph.vertices.len() {
        if u64::from(*graph.vertices.at(k)) == x {
            return true;
        }
    }
    false
}

/// Whether some triple of the graph is equal to this one.
pub(crate) fn has_equal(graph: &PlainGraph, t: Triple) -> bool
    ensures { result ≡ has_equal graph.now t }
{
    for k in 0..graph.triples.len() {
        if is_same(t, graph.triples.at(k)) {
            return true;
        }
    }
    false
}

/// How many copies of the triple from `u` to `v` of weight `w` the graph has.
pub(crate) fn copies(graph: &PlainGraph, u: u64, v: u64, w: u64) -> u64
    ensures { result ≡ copies graph.now (triple u v w) }
{
    let mut count = 0;
    for k in 0..graph.triples.len() {
        if is_equal(u, v, w, graph.triples.at(k)) {
            count += 1;
        }
    }
    count
}

/// Whether two triples are equal.
fn is_same(t: Triple, other: &Triple) -> bool
    ensures { result ≡ is_equal t other.now }
{
    t.source == other.source && t.target == other.target && t.weight == other.weight
}

/// Whether three numbers are those of a triple.
pub(crate) fn is_equal(u: u64, v: u64, w: u64, t: &Triple) -> bool
    ensures { result ≡ is_equal (triple u v w) t.now }
{
    u == u64::from(t.source) && v == u64::from(t.target) && w == t.weight
}

/// Whether walks may go along a triple from its target to its source too.
pub(crate) fn both_ways(kind: Kind) -> bool
    ensures { result ≡ both_ways kind }
{
    match kind {
        Kind::Bfs | Kind::Sssp | Kind::Sswp => false,
        Kind::Wcc => true,
    }
}

/// Whether a walk may go along a triple from `a` to `b`.
pub(crate) fn joins(both: bool, t: Triple, a: u64, b: u64) -> bool
    ensures { IsTrue result ↔ Joins both t a b }
{
    let (source, target) = (u64::from(t.source), u64::from(t.target));
    (source == a && target == b) || (both && target == a && source == b)
}

/// The start value of `x` in an analysis of the graph, where it has one.
pub(crate) fn start(graph: &PlainGraph, spec: Spec, x: u64) -> Option<u64>
    ensures { result ≡ start graph.now spec x }
{
    let root = u64::from(spec.root);
    match spec.kind {
        Kind::Bfs | Kind::Sssp => { if x == root { Some(0) } else { None } }
        Kind::Sswp => {
            if x == root {
                Some(graph.format.max_weight() + 1)
            } else {
                None
            }
        }
        Kind::Wcc => Some(x),
    }
}

/// What one more triple of this weight makes of a value.
pub(crate) fn step(kind: Kind, value: u64, weight: u64) -> u128
    ensures { result ≡ step kind value weight }
{
    match kind {
        Kind::Bfs => u128::from(value) + 1,
        Kind::Sssp => u128::from(value) + u128::from(weight),
        Kind::Sswp => u128::from(value.min(weight)),
        Kind::Wcc => u128::from(value),
    }
}

/// The graph after a request, which changes nothing where it is refused.
pub(crate) fn graph_after(
    alloc: Global,
    graph: &PlainGraph,
    parts: &Parts,
) -> Result<PlainGraph, NoMemory>
    ensures { IfOk result (λ after. after ≡ entered graph.now parts.now) }
{
    match plain_entered(alloc, graph, parts, 0) {
        Ok(after) => Ok(after),
        Err(Refusal::NoMemory) => Err(NoMemory),
        Err(_) => plain_copy(alloc, graph),
    }
}
