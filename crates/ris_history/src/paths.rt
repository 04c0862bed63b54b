ghost use Rattle.std.specs.Prelude.{◌≡◌, ◌<◌, IfOk};
ghost use Rattle.ris_history.specs.Reads.{path_in};

use crate::tables::Table;
use ris_base::{NoMemory, Parent, Sequence, Value, Vertices};
use std::alloc::Global;

/// The path of a vertex in a forest of a place: it and its parents, of which there are at most as many as chains; none where it has
/// no number.
pub(crate) fn path_of(
    alloc: Global,
    table: &Table,
    v: u64,
    a: u32,
    x: u64,
) -> Result<Vertices, NoMemory>
    requires { a < table.now.analyses }
    ensures { IfOk result (λ path. path ≡ path_in table.now v a x) }
{
    let mut path = Sequence::new(alloc);
    let (value, mut parent) = table.latest(v, a, x);
    if let Value::Num(_) = value {
        path.push(x as u32)?;
        for _above in 0..table.size() {
            let Parent::From { vertex, .. } = parent else {
                return Ok(path);
            };
            path.push(vertex)?;
            parent = table.latest(v, a, u64::from(vertex)).1;
        }
    }
    Ok(path)
}
