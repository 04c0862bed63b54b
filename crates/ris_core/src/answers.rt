ghost use Rattle.std.specs.Prelude.{◌≡◌, ◌+◌, IfOk};
ghost use Rattle.ris_base.specs.Forest.{forest_in};
ghost use Rattle.ris_base.specs.Limits.{vertex_limit};
ghost use Rattle.ris_core.specs.Answered.{moved_between, path_in, path_of};

use crate::tables::{Rows, bound_of, is_same_value, parent_in, value_in};
use ris_base::{NoMemory, Parent, Sequence, VERTEX_LIMIT, Value, Vertices};
use std::alloc::Global;

/// The path of a vertex number: none where it has no number, else the vertex, its parent, and so on.
pub(crate) fn path_in(alloc: Global, rows: &Rows, x: u64) -> Result<Vertices, NoMemory>
    ensures { IfOk result (λ vertices. vertices ≡ path_in rows.now x) }
{
    match value_in(rows, x) {
        Value::Num(_) if x < VERTEX_LIMIT => path_of(alloc, rows, x as u32),
        _ => Ok(Sequence::new(alloc)),
    }
}

/// `x`, its parent, and so on, up to a vertex without a parent. No path has more vertices than there are vertex numbers.
fn path_of(alloc: Global, rows: &Rows, x: u32) -> Result<Vertices, NoMemory>
    ensures { IfOk result (λ vertices. vertices ≡ path_of (forest_in rows.now) (vertex_limit + 1) x) }
{
    let mut vertices = Sequence::new(alloc);
    let mut here = x;
    for _k in 0..VERTEX_LIMIT + 1 {
        vertices.push(here)?;
        let Parent::From { vertex, .. } = parent_in(rows, u64::from(here)) else {
            return Ok(vertices);
        };
        here = vertex;
    }
    Ok(vertices)
}

/// The vertex numbers to which two lists of rows give different values, in ascending order.
pub(crate) fn moved_between(alloc: Global, before: &Rows, now: &Rows) -> Result<Vertices, NoMemory>
    ensures { IfOk result (λ vertices. vertices ≡ moved_between before.now now.now) }
{
    let mut vertices = Sequence::new(alloc);
    for x in 0..VERTEX_LIMIT.min(bound_of(bound_of(0, before), now)) {
        if !is_same_value(value_in(before, x), value_in(now, x)) {
            vertices.push(x as u32)?;
        }
    }
    Ok(vertices)
}
