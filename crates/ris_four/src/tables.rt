ghost use Rattle.std.specs.Prelude.{◌≡◌, ◌≤◌, ◌<◌, ◌↔◌, IfOk, IsTrue, length};
ghost use Rattle.std.specs.List.{All};
ghost use Rattle.ris_base.specs.Limits.{vertex_limit};
ghost use Rattle.ris_base.specs.Value.{number_bound};
ghost use Rattle.ris_four.specs.Rounds.{AreFirst, value_from};

use ris_algo::Monotone;
use ris_base::{NoMemory, Sequence, Value};
use std::alloc::Global;

/// The items of a list, in order, in a vector of their own.
pub(crate) fn items_of<T: Copy + Drop>(
    alloc: Global,
    list: &Sequence<T>,
) -> Result<Vec<T>, NoMemory>
    ensures { IfOk result (λ items. items.items ≡ list.now) }
{
    let mut items = Vec::new(alloc);
    for k in 0..list.len() {
        if let Some(item) = list.get(k) {
            items.push(*item)?;
        }
    }
    Ok(items)
}

/// How many vertex numbers there are from 0 to the greatest one of a list.
fn number_count(vertices: &[u32]) -> usize
    ensures { result ≡ number_bound vertices.now }
{
    let mut count = 0;
    for x in vertices {
        count = count.max(*x as usize + 1);
    }
    count
}

/// The values before any round: each vertex has its start value, or is unreached, and no other number has a value.
pub(crate) fn first_values<A: Monotone>(
    alloc: Global,
    algo: &A,
    vertices: &[u32],
) -> Result<Vec<Value>, NoMemory>
    ensures len { IfOk result (λ values. length values.items ≡ number_bound vertices.now) }
    ensures first { IfOk result (λ values. AreFirst (A.start_of algo.now) vertices.now values.items) }
{
    let mut values = vec![in alloc; Value::Absent; number_count(vertices)]?;
    for x in vertices {
        values[*x as usize] = first_value(algo, *x);
    }
    Ok(values)
}

/// What a vertex has before any round.
fn first_value<A: Monotone>(algo: &A, x: u32) -> Value
    ensures { result ≡ value_from (A.start_of algo.now x) }
{
    match algo.start(x) {
        Some(value) => Value::Num(value),
        None => Value::Unreached,
    }
}

/// Whether two tables are the same.
pub(crate) fn is_same(a: &[Value], b: &[Value]) -> bool
    ensures { IsTrue result ↔ (a.now ≡ b.now) }
{
    a == b
}
