ghost use Rattle.std.specs.Prelude.{◌≡◌, IfOk};
ghost use Rattle.ris_base.specs.Graph.{IsProper};
ghost use Rattle.ris_base.specs.Value.{AreValues};

use crate::neighbours::neighbour_lists;
use crate::rounds::values_after;
use crate::tables::{first_values, items_of};
use crate::{Bfs, Sssp, Sswp, Wcc};
use ris_algo::Monotone;
use ris_base::{Kind, NoMemory, PlainGraph, Sequence, Spec, Values};
use std::alloc::Global;
use std::thread::Threads;

/// The values of an analysis of a graph, by the definition: for each vertex number, from 0 to the greatest vertex of
/// the graph, the best worth of a walk to it, or that no walk leads to it, or that it isn't in the graph. It takes
/// rounds over all vertices, each in several threads, after Bellman (1958) and Ford (1956).
pub fn plain_values<R: Threads + Sync>(
    rt: &R,
    alloc: Global,
    graph: &PlainGraph,
    spec: Spec,
) -> Result<Values, NoMemory>
    requires { IsProper graph.now }
    ensures { IfOk result (λ values. AreValues graph.now spec values) }
{
    match spec.kind {
        Kind::Bfs => values_by(rt, alloc, graph, &Bfs::new(spec.root)),
        Kind::Sssp => values_by(rt, alloc, graph, &Sssp::new(spec.root)),
        Kind::Sswp => values_by(rt, alloc, graph, &Sswp::new(spec.root, graph.format)),
        Kind::Wcc => values_by(rt, alloc, graph, &Wcc::new()),
    }
}

/// The values of any monotone analysis. A walk with as many triples as there are vertices comes to some vertex
/// twice, and isn't better than the walk without that round trip, so one round less than there are vertices is enough.
fn values_by<R: Threads + Sync, A: Monotone + Sync>(
    rt: &R,
    alloc: Global,
    graph: &PlainGraph,
    algo: &A,
) -> Result<Values, NoMemory>
    requires proper { IsProper graph.now }
    requires format { A.suits algo.now graph.now.format }
    ensures { IfOk result (λ values. AreValues graph.now (A.spec algo.now) values) }
{
    let vertices = items_of(alloc, &graph.vertices)?;
    let triples = items_of(alloc, &graph.triples)?;
    let first = first_values(alloc, algo, &vertices)?;
    let lists = neighbour_lists(alloc, &triples, A::BOTH_WAYS, first.len())?;
    let rounds = vertices.len().saturating_sub(1);
    let values = values_after(rt, alloc, algo, first, &lists, rounds)?;
    Ok(Sequence::from_vec(values))
}
