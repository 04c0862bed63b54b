ghost use Rattle.std.specs.Prelude.{◌≡◌, ◌<◌, ◌≤◌, ◌-◌, ◌^◌, IfOk};
ghost use Rattle.std.specs.List.{All, range_with_len};
ghost use Rattle.ris_base.specs.Graph.{IsProper};
ghost use Rattle.ris_base.specs.Limits.{greatest_of};

use crate::*;
use ris_algo::Monotone;
use ris_base::Value::{Absent, Num, Unreached};
use ris_base::{Format, Kind, PlainGraph, Sequence, Spec, Triple, VERTEX_LIMIT, Value};
use std::alloc::{AllocError, Global};
use std::test::Fail;

/// The vertices `from..to`.
fn vertices(alloc: Global, from: u32, to: u32) -> Result<Vec<u32>, AllocError>
    requires { from ≤ to }
    ensures { IfOk result (λ xs. xs.items ≡ range_with_len from (to - from)) }
{
    let mut xs = Vec::new(alloc);
    for x in from..to {
        xs.push(x)?;
    }
    Ok(xs)
}

/// Triples between the vertices `from..to`, or an error where one is not proper.
fn triples(
    alloc: Global,
    format: Format,
    from: u32,
    to: u32,
    edges: &[(u32, u32, u64)],
) -> Result<Vec<Triple>, Fail>
    ensures { IfOk result (λ ts. All (λ t. (from ≤ t.source) × (t.source < to) × (from ≤ t.target) × (t.target < to)
        × (t.weight ≤ greatest_of format)) ts.items) }
{
    let mut ts = Vec::new(alloc);
    for (source, target, weight) in edges {
        if *source < from || *source >= to || *target < from || *target >= to {
            return Err(Fail::from("no such vertex"));
        }
        if *weight > format.max_weight() {
            return Err(Fail::from("too great a weight"));
        }
        ts.push(Triple {
            source: *source,
            target: *target,
            weight: *weight,
        })?;
    }
    Ok(ts)
}

/// The graph of the vertices `from..to` with these triples, or an error where it is not proper.
fn graph(
    alloc: Global,
    format: Format,
    from: u32,
    to: u32,
    edges: &[(u32, u32, u64)],
) -> Result<PlainGraph, Fail>
    ensures { IfOk result (λ g. IsProper g) }
{
    if to < from || to as u64 > VERTEX_LIMIT {
        return Err(Fail::from("no such vertices"));
    }
    let vertices = Sequence::from_vec(vertices(alloc, from, to)?);
    let triples = Sequence::from_vec(triples(alloc, format, from, to, edges)?);
    Ok(PlainGraph {
        format,
        vertices,
        triples,
    })
}

#[test]
fn values_as_written_by_hand(rt: HostRuntime) -> Result<(), Fail> {
    let alloc = rt.alloc();
    let cases = [
        // a cycle of weight 0, and a way out of it
        (
            (Kind::Sssp, 0, Format::One),
            (0, 4),
            [(0, 1, 0), (1, 2, 0), (2, 0, 0), (2, 3, 5)].as_slice(),
            [Num(0), Num(0), Num(0), Num(5)].as_slice(),
        ),
        // equal copies, beside a triple that differs in weight
        (
            (Kind::Sssp, 0, Format::One),
            (0, 2),
            [(0, 1, 7), (0, 1, 7), (0, 1, 9)].as_slice(),
            [Num(0), Num(7)].as_slice(),
        ),
        // a loop, and a triple that leads the wrong way
        (
            (Kind::Bfs, 1, Format::One),
            (0, 3),
            [(1, 1, 1), (1, 2, 1), (0, 1, 1)].as_slice(),
            [Unreached, Num(0), Num(1)].as_slice(),
        ),
        // a root that isn't in the graph, and a vertex number that isn't either
        (
            (Kind::Bfs, 0, Format::One),
            (1, 3),
            [(1, 2, 4)].as_slice(),
            [Absent, Unreached, Unreached].as_slice(),
        ),
        // the walk with no triple, and the wider of two ways
        (
            (Kind::Sswp, 0, Format::One),
            (0, 4),
            [(0, 1, 5), (1, 3, 4), (0, 2, 3), (2, 3, 9)].as_slice(),
            [Num(4_294_967_296), Num(5), Num(3), Num(4)].as_slice(),
        ),
        // a path that is as wide as the greatest weight of the second format
        (
            (Kind::Sswp, 0, Format::Two),
            (0, 3),
            [(0, 1, 68_719_476_735), (1, 2, 4_294_967_296)].as_slice(),
            [Num(68_719_476_736), Num(68_719_476_735), Num(4_294_967_296)].as_slice(),
        ),
        // triples are walked either way, and the root counts for nothing
        (
            (Kind::Wcc, 7, Format::One),
            (1, 6),
            [(2, 1, 1), (3, 2, 1), (5, 4, 1)].as_slice(),
            [Absent, Num(1), Num(1), Num(1), Num(4), Num(4)].as_slice(),
        ),
        // no vertex
        (
            (Kind::Wcc, 0, Format::One),
            (0, 0),
            [].as_slice(),
            [].as_slice(),
        ),
    ];
    for ((kind, root, format), (from, to), edges, want) in cases {
        let graph = graph(alloc, format, from, to, edges)?;
        let values = plain_values(&rt, alloc, &graph, Spec { kind, root })?.into_vec();
        assert_eq!(rt;
            values.as_slice(),
            want,
            "{kind:?} from {root} in {edges:?}"
        );
    }
    Ok(())
}

/// What an analysis makes of a vertex number, a value and a weight.
fn calls<A: Monotone>(algo: &A, x: u32, value: u64, weight: u64) -> (Option<u64>, u64, bool)
    requires value { value < 2 ^ 59 }
    requires weight { weight < 2 ^ 36 }
{
    (
        algo.start(x),
        algo.step(value, weight),
        algo.better(value, weight),
    )
}

#[test]
fn starts_steps_and_compares(rt: HostRuntime) {
    assert_eq!(rt; calls(&Bfs::new(3), 3, 5, 7), (Some(0), 6, true));
    assert_eq!(rt; calls(&Bfs::new(3), 4, 7, 5), (None, 8, false));
    assert_eq!(rt; calls(&Sssp::new(3), 3, 5, 7), (Some(0), 12, true));
    assert_eq!(rt;
        calls(&Sswp::new(3, Format::Two), 3, 5, 7),
        (Some(68_719_476_736), 5, false)
    );
    assert_eq!(rt; calls(&Wcc::new(), 3, 5, 7), (Some(3), 5, true));
}
