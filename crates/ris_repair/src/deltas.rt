ghost use Rattle.std.specs.Prelude.{◌≡◌, ◌≢◌, ◌↔◌, IsTrue, None, nat_eq, IfOk, map, slice_index_or};
ghost use Rattle.std.specs.List.{All, IsDistinct};
ghost use Rattle.std.specs.List.Sorted.{IsPermutation};
ghost use Rattle.std.specs.HashMap.{get, keys, IsUnique};
ghost use Rattle.std.specs.Map.{keys_of};
ghost use Rattle.ris_base.specs.Limits.{vertex_limit};
ghost use Rattle.ris_forest.specs.Cells.{forest_of};
ghost use Rattle.ris_repair.specs.Changes.{AreBelow};
ghost use Rattle.ris_repair.specs.Fews.{change_in};
ghost use Rattle.ris_repair.specs.Stages.{AreRowsOf, IsRowOf};
ghost use Rattle.ris_repair.specs.Stores.{change_at};

use crate::fews::Few;
use crate::stores::{Change, Store};
use crate::tables::Table;
use ris_base::{NoMemory, VERTEX_LIMIT, Value};
use ris_forest::{Delta, DeltaRow, Forest};
use std::alloc::Global;
use std::collections::HashMap;

/// Whether two values differ.
fn differs(a: Value, b: Value) -> bool
    ensures { IsTrue result ↔ (a ≢ b) }
{
    a != b
}

/// The row of a change.
fn row_of<A>(vertex: u32, change: &Change, forest: &Forest<A>) -> DeltaRow
    ensures vertex { result.vertex ≡ vertex }
    ensures value { result.value ≡ change.now.value }
    ensures parent { result.parent ≡ change.now.parent }
    ensures moved { IsTrue result.moved ↔ (result.value ≢ (forest_of forest.now.cells).value vertex) }
{
    DeltaRow {
        vertex,
        value: change.value,
        parent: change.parent,
        moved: differs(change.value, forest.value(vertex as u64)),
    }
}

/// A row for each change of a list, in its order.
fn few_rows<A>(alloc: Global, changes: &Few, forest: &Forest<A>) -> Result<Vec<DeltaRow>, NoMemory>
    ensures each { IfOk result (λ rows. All (IsRowOf (forest_of forest.now.cells) (change_in changes.now)) rows.items) }
    ensures keys { IfOk result (λ rows. map (λ row. row.vertex) rows.items ≡ keys_of changes.now) }
    ensures unique { IsDistinct nat_eq (keys_of changes.now) }
{
    let mut rows = Vec::with_capacity(alloc, changes.len())?;
    for number in 0..changes.len() {
        let (vertex, change) = changes.at(number);
        rows.push(row_of(vertex, &change, forest))?;
    }
    Ok(rows)
}

/// A row for each change of a map.
fn rows_of<A>(
    alloc: Global,
    changes: &HashMap<u32, Change>,
    forest: &Forest<A>,
) -> Result<Vec<DeltaRow>, NoMemory>
    ensures each { IfOk result (λ rows. All (IsRowOf (forest_of forest.now.cells) (get nat_eq changes.now)) rows.items) }
    ensures keys { IfOk result (λ rows. map (λ row. row.vertex) rows.items ≡ keys changes.now) }
    ensures unique { IsUnique nat_eq changes.now }
{
    let mut rows = Vec::with_capacity(alloc, changes.len())?;
    for (vertex, change) in changes {
        rows.push(row_of(*vertex, change, forest))?;
    }
    Ok(rows)
}

/// The delta of rows of different vertices, which are put in the order of these.
fn sorted(mut rows: Vec<DeltaRow>) -> Delta
    requires { IsDistinct nat_eq (map (λ row. row.vertex) rows.items) }
    ensures { IsPermutation rows.items result }
{
    rows.sort_unstable_by_key(|row| row.vertex);
    Delta::from_rows(rows)
}

/// The changes of a list as rows with ascending vertices.
fn few_delta<A>(alloc: Global, changes: &Few, forest: &Forest<A>) -> Result<Delta, NoMemory>
    ensures { IfOk result (λ delta. AreRowsOf (forest_of forest.now.cells) (change_in changes.now) delta) }
{
    let rows = few_rows(alloc, changes, forest)?;
    Ok(sorted(rows))
}

/// The changes of a map as rows with ascending vertices.
fn map_delta<A>(
    alloc: Global,
    changes: &HashMap<u32, Change>,
    forest: &Forest<A>,
) -> Result<Delta, NoMemory>
    ensures { IfOk result (λ delta. AreRowsOf (forest_of forest.now.cells) (get nat_eq changes.now) delta) }
{
    let rows = rows_of(alloc, changes, forest)?;
    Ok(sorted(rows))
}

/// The changes of a table as rows with ascending vertices.
fn table_delta<A>(alloc: Global, changes: &Table, forest: &Forest<A>) -> Result<Delta, NoMemory>
    requires { AreBelow vertex_limit (λ x. slice_index_or changes.now x None) }
    ensures { IfOk result (λ delta. AreRowsOf (forest_of forest.now.cells) (λ x. slice_index_or changes.now x None) delta) }
{
    let size = VERTEX_LIMIT.min(changes.len() as u64) as u32;
    let mut delta = Delta::with_room(alloc, size as u64)?;
    for vertex in 0..size {
        if let Some(change) = changes.get(vertex) {
            delta.push(row_of(vertex, &change, forest))?;
        }
    }
    Ok(delta)
}

/// The changes as rows with ascending vertices, each with whether its value differs from before.
pub(crate) fn delta_of<A>(
    alloc: Global,
    changes: &Store,
    forest: &Forest<A>,
) -> Result<Delta, NoMemory>
    requires below { AreBelow vertex_limit (change_at changes.now) }
    ensures { IfOk result (λ delta. AreRowsOf (forest_of forest.now.cells) (change_at changes.now) delta) }
{
    match changes {
        Store::Few(few) => few_delta(alloc, few, forest),
        Store::Sparse(map) => map_delta(alloc, map, forest),
        Store::Dense(table) => table_delta(alloc, table, forest),
    }
}
