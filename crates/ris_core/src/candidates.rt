ghost use Rattle.std.specs.Prelude.{◌≡◌, ◌<◌, is_none, map};
ghost use Rattle.ris_base.specs.Analysis.{better};
ghost use Rattle.ris_base.specs.Effect.{first_missing};
ghost use Rattle.ris_base.specs.Forest.{forest_in};
ghost use Rattle.ris_base.specs.Lists.{each_pair};
ghost use Rattle.ris_base.specs.Safe.{beats, improves, is_along, is_candidate, is_idle, is_safe, is_safe_for, is_sound, is_used, keeps_vertices, uses};
ghost use Rattle.ris_base.specs.Graph.{triple};

use crate::graphs::{both_ways, copies, has_vertex, is_equal, step};
use crate::tables::{Rows, Tables, parent_in, value_in};
use ris_base::{Kind, Parent, Parts, PlainGraph, Spec, Specs, Triple, Update, Value};

/// Whether a request may be decided in parallel: it has one part, which is safe.
pub(crate) fn is_candidate(
    graph: &PlainGraph,
    specs: &Specs,
    tables: &Tables,
    parts: &Parts,
) -> bool
    ensures { result ≡ is_candidate graph.now specs.now (map forest_in tables.now) parts.now }
{
    if parts.len() != 1 {
        return false;
    }
    match parts.get(0) {
        Some(part) => is_safe(graph, specs, tables, *part),
        None => false,
    }
}

/// Whether an update is safe for all analyses.
fn is_safe(graph: &PlainGraph, specs: &Specs, tables: &Tables, update: Update) -> bool
    ensures { result ≡ is_safe graph.now specs.now (map forest_in tables.now) update }
{
    is_sound(graph, update) && is_safe_for_all(graph, specs, tables, update)
}

/// What safety asks of each analysis.
fn is_safe_for_all(graph: &PlainGraph, specs: &Specs, tables: &Tables, update: Update) -> bool
    ensures { result ≡ each_pair (λ spec F. is_safe_for graph.now spec F update) specs.now (map forest_in tables.now) }
{
    if specs.len() != tables.len() {
        return false;
    }
    for k in 0..specs.len() {
        if !is_safe_for(graph, *specs.at(k), tables.at(k), update) {
            return false;
        }
    }
    true
}

/// What safety asks without regard to analyses.
fn is_sound(graph: &PlainGraph, update: Update) -> bool
    ensures { result ≡ is_sound graph.now update }
{
    update.within_limits(graph.format).is_ok()
        && has_its_vertices(graph, update)
        && keeps_vertices(graph, update)
}

/// Whether the graph has each vertex that an update needs.
fn has_its_vertices(graph: &PlainGraph, update: Update) -> bool
    ensures { result ≡ is_none (first_missing graph.now update) }
{
    match update {
        Update::AddV { .. } => true,
        Update::DelV { x } => has_vertex(graph, x),
        Update::AddE { u, v, .. } | Update::DelE { u, v, .. } | Update::SetW { u, v, .. } => {
            has_vertex(graph, u) && has_vertex(graph, v)
        }
    }
}

/// Whether no vertex comes or goes, and no weight is changed.
fn keeps_vertices(graph: &PlainGraph, update: Update) -> bool
    ensures { result ≡ keeps_vertices graph.now update }
{
    match update {
        Update::AddV { x } => has_vertex(graph, x),
        Update::DelV { .. } | Update::SetW { .. } => false,
        Update::AddE { .. } | Update::DelE { .. } => true,
    }
}

/// What safety asks of one analysis.
fn is_safe_for(graph: &PlainGraph, spec: Spec, rows: &Rows, update: Update) -> bool
    ensures { result ≡ is_safe_for graph.now spec (forest_in rows.now) update }
{
    match update {
        Update::AddV { .. } | Update::DelV { .. } | Update::SetW { .. } => true,
        Update::AddE { u, v, w } => is_idle(spec, rows, u, v, w),
        Update::DelE { u, v, w } => copies(graph, u, v, w) >= 2 || !uses(rows, u, v, w),
    }
}

/// Whether an edge more improves neither end's value, where walks may go that way.
fn is_idle(spec: Spec, rows: &Rows, u: u64, v: u64, w: u64) -> bool
    ensures { result ≡ is_idle spec (forest_in rows.now) u v w }
{
    let (from, to) = (value_in(rows, u), value_in(rows, v));
    !improves(spec.kind, from, w, to)
        && (!both_ways(spec.kind) || !improves(spec.kind, to, w, from))
}

/// Whether the step over a weight from a vertex of the first value is better than the second.
fn improves(kind: Kind, from: Value, weight: u64, to: Value) -> bool
    ensures { result ≡ improves kind from weight to }
{
    match from {
        Value::Absent | Value::Unreached => false,
        Value::Num(number) => beats(kind, step(kind, number, weight), to),
    }
}

/// Whether a number is better than a value.
fn beats(kind: Kind, number: u128, value: Value) -> bool
    ensures { result ≡ beats kind number value }
{
    match value {
        Value::Absent | Value::Unreached => true,
        Value::Num(held) => better(kind, number, u128::from(held)),
    }
}

/// Whether `a` is better than `b`.
fn better(kind: Kind, a: u128, b: u128) -> bool
    ensures { result ≡ better kind a b }
{
    match kind {
        Kind::Bfs | Kind::Sssp | Kind::Wcc => a < b,
        Kind::Sswp => b < a,
    }
}

/// Whether some forest uses a triple.
pub(crate) fn is_used(tables: &Tables, u: u64, v: u64, w: u64) -> bool
    ensures { result ≡ is_used (map forest_in tables.now) (triple u v w) }
{
    for k in 0..tables.len() {
        if uses(tables.at(k), u, v, w) {
            return true;
        }
    }
    false
}

/// Whether a forest uses a triple: the parent of one of its ends is along it.
fn uses(rows: &Rows, u: u64, v: u64, w: u64) -> bool
    ensures { result ≡ uses (forest_in rows.now) (triple u v w) }
{
    is_along(u, v, w, parent_in(rows, u)) || is_along(u, v, w, parent_in(rows, v))
}

/// Whether a parent is along this triple.
fn is_along(u: u64, v: u64, w: u64, parent: Parent) -> bool
    ensures { result ≡ is_along (triple u v w) parent }
{
    match parent {
        Parent::None => false,
        Parent::From {
            source,
            target,
            weight,
            ..
        } => is_equal(
            u,
            v,
            w,
            &Triple {
                source,
                target,
                weight,
            },
        ),
    }
}
