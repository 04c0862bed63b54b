ghost use Rattle.std.specs.Prelude.{◌≡◌, ◌<◌, ◌↔◌, ℕ, IfOk, IsTrue, Some, map};
ghost use Rattle.ris_base.specs.Analysis.{start};
ghost use Rattle.ris_base.specs.Forest.{AreForests, IsForest, IsFrom, IsParent, NeedsNone, forest_in, parent_in, up, value_in};
ghost use Rattle.ris_base.specs.Graph.{IsProper};
ghost use Rattle.ris_base.specs.Value.{AreValues};
ghost use Rattle.ris_base.specs.declared.analyses.Value.TheVariants.{Num};
ghost use Rattle.ris_base.specs.declared.forests.Parent.TheVariants as parent;
ghost use Rattle.ris_core.specs.Rows.{IsRightAt, value_at};

use crate::graphs::{both_ways, has_equal, joins, start, step};
use crate::tables::{Rows, Tables, bound_of, is_same_value, parent_in, value_in};
use ris_base::{NoMemory, Parent, PlainGraph, Spec, Specs, Triple, Value, Values};
use ris_four::plain_values;
use std::alloc::Global;
use std::thread::Threads;

/// Whether tables are right forests of the analyses on a graph.
pub(crate) fn are_forests<R: Threads + Sync>(
    rt: &R,
    alloc: Global,
    graph: &PlainGraph,
    specs: &Specs,
    tables: &Tables,
) -> Result<bool, NoMemory>
    requires { IsProper graph.now }
    ensures { IfOk result (λ right. IsTrue right ↔ AreForests graph.now specs.now (map forest_in tables.now)) }
{
    if specs.len() != tables.len() {
        return Ok(false);
    }
    for k in 0..specs.len() {
        let right = is_forest(rt, alloc, graph, *specs.at(k), tables.at(k))?;
        if !right {
            return Ok(false);
        }
    }
    Ok(true)
}

/// Whether rows are a right forest of one analysis.
fn is_forest<R: Threads + Sync>(
    rt: &R,
    alloc: Global,
    graph: &PlainGraph,
    spec: Spec,
    rows: &Rows,
) -> Result<bool, NoMemory>
    requires { IsProper graph.now }
    ensures { IfOk result (λ right. IsTrue right ↔ IsForest graph.now spec (forest_in rows.now)) }
{
    let values = plain_values(rt, alloc, graph, spec)?;
    Ok(is_right(graph, spec, &values, rows))
}

/// The same, with the values of the graph.
fn is_right(graph: &PlainGraph, spec: Spec, values: &Values, rows: &Rows) -> bool
    requires { AreValues graph.now spec values.now }
    ensures { IsTrue result ↔ IsForest graph.now spec (forest_in rows.now) }
{
    for x in 0..bound_of(values.len(), rows) {
        if !is_right_at(graph, spec, values, rows, x) {
            return false;
        }
    }
    true
}

/// Whether rows have the right value and a right parent for one vertex number, and parents lead from it to a start.
fn is_right_at(graph: &PlainGraph, spec: Spec, values: &Values, rows: &Rows, x: u64) -> bool
    requires { AreValues graph.now spec values.now }
    ensures { IsTrue result ↔ IsRightAt graph.now spec (forest_in rows.now) x }
{
    if !is_same_value(value_in(rows, x), value_at(values, x)) {
        return false;
    }
    if !is_parent(graph, spec, rows, x) {
        return false;
    }
    is_rooted(rows, x, graph.vertices.len())
}

/// The value of `x` in a list of values, absent past its end.
fn value_at(values: &Values, x: u64) -> Value
    ensures { result ≡ value_at values.now x }
{
    match values.get(x) {
        Some(value) => *value,
        None => Value::Absent,
    }
}

/// Whether rows give `x` a right parent.
fn is_parent(graph: &PlainGraph, spec: Spec, rows: &Rows, x: u64) -> bool
    ensures { IsTrue result ↔ IsParent graph.now spec (value_in rows.now) x (parent_in rows.now x) }
{
    match parent_in(rows, x) {
        Parent::None => needs_none(graph, spec, x, value_in(rows, x)),
        Parent::From {
            vertex,
            source,
            target,
            weight,
        } => comes_from(
            graph,
            spec,
            rows,
            x,
            vertex,
            Triple {
                source,
                target,
                weight,
            },
        ),
    }
}

/// Whether a vertex of this value has no parent.
fn needs_none(graph: &PlainGraph, spec: Spec, x: u64, value: Value) -> bool
    ensures { IsTrue result ↔ NeedsNone graph.now spec x value }
{
    match value {
        Value::Absent | Value::Unreached => true,
        Value::Num(number) => is_start(graph, spec, x, number),
    }
}

/// Whether `x` has its value from this vertex along this triple.
fn comes_from(graph: &PlainGraph, spec: Spec, rows: &Rows, x: u64, vertex: u32, t: Triple) -> bool
    ensures { IsTrue result ↔ IsFrom graph.now spec (value_in rows.now) x vertex t }
{
    let Value::Num(above) = value_in(rows, u64::from(vertex)) else {
        return false;
    };
    let Value::Num(here) = value_in(rows, x) else {
        return false;
    };
    if !has_equal(graph, t) {
        return false;
    }
    if !joins(both_ways(spec.kind), t, u64::from(vertex), x) {
        return false;
    }
    if u128::from(here) != step(spec.kind, above, t.weight) {
        return false;
    }
    !is_start(graph, spec, x, here)
}

/// Whether `x` has this start value.
fn is_start(graph: &PlainGraph, spec: Spec, x: u64, value: u64) -> bool
    ensures { IsTrue result ↔ (start graph.now spec x ≡ Some value) }
{
    start(graph, spec, x) == Some(value)
}

/// Whether so many parents up from `x` there is a vertex without a parent, where `x` has a number.
fn is_rooted(rows: &Rows, x: u64, steps: u64) -> bool
    ensures { IsTrue result
        ↔ ((c : ℕ) → value_in rows.now x ≡ Num c → parent_in rows.now (up (forest_in rows.now) steps x) ≡ parent.None) }
{
    match value_in(rows, x) {
        Value::Num(_) => parent_in(rows, up(rows, steps, x)) == Parent::None,
        Value::Absent | Value::Unreached => true,
    }
}

/// The vertex so many parents up from `x`.
fn up(rows: &Rows, steps: u64, x: u64) -> u64
    ensures { result ≡ up (forest_in rows.now) steps x }
{
    let mut here = x;
    for _k in 0..steps {
        if let Parent::From { vertex, .. } = parent_in(rows, here) {
            here = u64::from(vertex);
        }
    }
    here
}
