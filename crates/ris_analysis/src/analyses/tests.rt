ghost use Rattle.std.specs.Prelude.{◌≡◌, ◌<◌, ◌≤◌, IfOk, length};
ghost use Rattle.std.specs.List.{All};

use crate::Analyses;
use crate::kinds::AnyForest;
use ris_base::{Format, Kind, Meter, NoMemory, Spec, Specs, Triple, Triples, Update, Vertices};
use ris_fall::fallen;
use ris_forest::Forest;
use ris_four::Bfs;
use ris_graph::{Graph, Net, NetTriple, NetTriples};
use ris_safe::is_safe;
use std::alloc::Global;
use std::test::Fail;

/// A meter that holds its count.
#[derive(Drop)]
struct Visits {
    total: u64,
}

impl Meter for Visits {
    ghost ticks = { λ v. v.total };

    fn tick(&mut self) {
        self.total = self.total.saturating_add(1);
    }

    fn total(&self) -> u64 {
        self.total
    }
}

/// The triple from 0 to 1 of weight 0.
const EDGE: Triple = Triple {
    source: 0,
    target: 1,
    weight: 0,
};

/// So many copies of the edge.
fn edges(alloc: Global, copies: u64) -> Result<Triples, NoMemory>
    ensures ends { IfOk result (λ base. All (λ t. (t.source < 2) × (t.target < 2)) base) }
    ensures weights { IfOk result (λ base. All (λ t. t.weight ≤ 4294967295) base) }
{
    let mut base = Triples::new(alloc);
    for _copy in 0..copies {
        base.push(EDGE)?;
    }
    Ok(base)
}

/// The graph of the vertices 0 and 1 with so many copies of the edge.
fn graph(alloc: Global, copies: u64) -> Result<Graph<Visits>, NoMemory> {
    let base = edges(alloc, copies)?;
    Graph::start(alloc, 2, Format::One, &base)
}

/// An analysis of each kind, from the root 0.
fn from_zero(alloc: Global, kinds: &[Kind]) -> Result<Specs, NoMemory>
    ensures count { IfOk result (λ specs. length specs ≡ length kinds.now) }
    ensures roots { IfOk result (λ specs. All (λ spec. spec.root ≡ 0) specs) }
{
    let mut specs = Specs::new(alloc);
    for kind in kinds {
        specs.push(Spec {
            kind: *kind,
            root: 0,
        })?;
    }
    Ok(specs)
}

/// The analyses of these kinds on the graph of two copies, from the root 0.
fn started(alloc: Global, kinds: &[Kind]) -> Result<Analyses, NoMemory>
    requires some { 1 ≤ length kinds.now }
    requires few { length kinds.now ≤ 4 }
{
    let graph = graph(alloc, 2)?;
    let _format = graph.format();
    let specs = from_zero(alloc, kinds)?;
    Analyses::start(alloc, &graph, &specs, &mut Visits { total: 0 })
}

/// The forest of depths on the graph of two copies.
fn depths(alloc: Global) -> Result<Forest<Bfs>, Fail> {
    let Analyses {
        alloc: _,
        mut forests,
    } = started(alloc, [Kind::Bfs].as_slice())?;
    match forests.pop() {
        Some(AnyForest::Bfs(forest)) => Ok(forest),
        _ => Err(Fail::from("no forest of depths")),
    }
}

/// The net that takes the only copy of the edge.
fn last_copy(alloc: Global) -> Result<Net, NoMemory> {
    let mut triples = NetTriples::new(alloc);
    triples.push(NetTriple {
        triple: EDGE,
        before: 1,
        after: 0,
    })?;
    Ok(Net {
        dropped: Vertices::new(alloc),
        added: Vertices::new(alloc),
        triples,
    })
}

#[test]
fn holds_its_allocator_and_forests_alone(rt: HostRuntime) -> Result<(), Fail> {
    let analyses = started(rt.alloc(), [Kind::Sssp, Kind::Wcc].as_slice())?;
    let Analyses { alloc: _, forests } = analyses;
    assert_eq!(rt; forests.len(), 2);
    Ok(())
}

#[test]
fn an_edge_is_taken_safely_while_a_copy_stays(rt: HostRuntime) -> Result<(), Fail> {
    let forest = depths(rt.alloc())?;
    let take = Update::DelE { u: 0, v: 1, w: 0 };
    for copies in 1..3 {
        let graph = graph(rt.alloc(), copies)?;
        assert_eq!(rt; is_safe(&graph, &forest, &take), copies == 2);
    }
    Ok(())
}

#[test]
fn an_edge_between_vertices_is_added_safely(rt: HostRuntime) -> Result<(), Fail> {
    let forest = depths(rt.alloc())?;
    let graph = graph(rt.alloc(), 2)?;
    for v in [1, 9] {
        let add = Update::AddE { u: 0, v, w: 5 };
        assert_eq!(rt; is_safe(&graph, &forest, &add), v == 1);
    }
    Ok(())
}

#[test]
fn a_vertex_falls_with_the_last_copy(rt: HostRuntime) -> Result<(), Fail> {
    let forest = depths(rt.alloc())?;
    let net = last_copy(rt.alloc())?;
    let vertices = fallen(rt.alloc(), &forest, &net)?.into_vec();
    assert_eq!(rt; vertices.as_slice(), [1].as_slice());
    Ok(())
}
