ghost use Rattle.std.specs.Prelude.{◌≡◌, ◌<◌, ◌↔◌, IfOk, IsTrue, map};
ghost use Rattle.ris_base.specs.Forest.{forest_in, parent_in, value_in};
ghost use Rattle.ris_base.specs.declared.forests.Parent.TheVariants as parents;
ghost use Rattle.ris_core.specs.Rows.{bound_of, is_same_parent, is_same_value};

use ris_base::{ForestRow, ForestRows, Forests, NoMemory, Parent, Sequence, Value};
use std::alloc::Global;

/// The rows of a forest, of which the first of a vertex counts.
pub(crate) type Rows = Sequence<ForestRow>;

/// The rows of the forest of each analysis.
pub(crate) type Tables = Sequence<Rows>;

/// The value that rows give a vertex number.
pub(crate) fn value_in(rows: &Rows, x: u64) -> Value
    ensures { result ≡ value_in rows.now x }
{
    for k in 0..rows.len() {
        let row = rows.at(k);
        if u64::from(row.vertex) == x {
            return row.value;
        }
    }
    Value::Absent
}

/// The parent that rows give a vertex number.
pub(crate) fn parent_in(rows: &Rows, x: u64) -> Parent
    ensures { result ≡ parent_in rows.now x }
{
    for k in 0..rows.len() {
        let row = rows.at(k);
        if u64::from(row.vertex) == x {
            return row.parent;
        }
    }
    Parent::None
}

/// One more than the greatest vertex of the rows, or `least` where that is more.
pub(crate) fn bound_of(least: u64, rows: &Rows) -> u64
    ensures { result ≡ bound_of least rows.now }
{
    let mut bound = least;
    for k in 0..rows.len() {
        bound = bound.max(u64::from(rows.at(k).vertex) + 1);
    }
    bound
}

/// Whether two values are the same.
pub(crate) fn is_same_value(a: Value, b: Value) -> bool
    ensures { result ≡ is_same_value a b }
{
    match (a, b) {
        (Value::Absent, Value::Absent) | (Value::Unreached, Value::Unreached) => true,
        (Value::Num(a), Value::Num(b)) => a == b,
        _ => false,
    }
}

/// Whether two parents are the same.
fn is_same_parent(a: Parent, b: Parent) -> bool
    ensures { result ≡ is_same_parent a b }
{
    match a {
        Parent::None => is_none(b),
        Parent::From {
            vertex,
            source,
            target,
            weight,
        } => is_from(b, vertex, source, target, weight),
    }
}

/// Whether a parent is none.
fn is_none(parent: Parent) -> bool
    ensures { result ≡ is_same_parent parents.None parent }
{
    match parent {
        Parent::None => true,
        Parent::From { .. } => false,
    }
}

/// Whether a parent is this one.
fn is_from(parent: Parent, from: u32, tail: u32, head: u32, by: u64) -> bool
    ensures { result ≡ is_same_parent (parents.From from tail head by) parent }
{
    match parent {
        Parent::None => false,
        Parent::From {
            vertex,
            source,
            target,
            weight,
        } => from == vertex && tail == source && head == target && by == weight,
    }
}

/// Whether two lists of rows say the same forest.
fn is_same_forest(a: &Rows, b: &Rows) -> bool
    ensures { IsTrue result ↔ (forest_in a.now ≡ forest_in b.now) }
{
    for x in 0..bound_of(bound_of(0, a), b) {
        if !is_same_value(value_in(a, x), value_in(b, x)) {
            return false;
        }
        if !is_same_parent(parent_in(a, x), parent_in(b, x)) {
            return false;
        }
    }
    true
}

/// Whether two tables say the same forests.
pub(crate) fn are_same_forests(a: &Tables, b: &Tables) -> bool
    ensures { IsTrue result ↔ (map forest_in a.now ≡ map forest_in b.now) }
{
    if a.len() != b.len() {
        return false;
    }
    for k in 0..a.len() {
        if !is_same_forest(a.at(k), b.at(k)) {
            return false;
        }
    }
    true
}

/// The rows of one forest.
fn rows_of(alloc: Global, forest: &ForestRows) -> Result<Rows, NoMemory>
    ensures { IfOk result (λ rows. rows ≡ forest.now) }
{
    let mut rows = Sequence::new(alloc);
    for k in 0..forest.len() {
        if let Some(row) = forest.get(k) {
            rows.push(*row)?;
        }
    }
    Ok(rows)
}

/// The rows of forests.
pub(crate) fn tables_of(alloc: Global, forests: &Forests) -> Result<Tables, NoMemory>
    ensures { IfOk result (λ tables. tables ≡ forests.now) }
{
    let mut tables = Sequence::new(alloc);
    for k in 0..forests.len() {
        let rows = rows_of(alloc, forests.at(k))?;
        tables.push(rows)?;
    }
    Ok(tables)
}
