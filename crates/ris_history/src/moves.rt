ghost use Rattle.std.specs.Prelude.{◌≡◌, IfOk};
ghost use Rattle.ris_history.specs.Applied.{moved_by};
ghost use Rattle.ris_history.specs.Reads.{AreVerticesOf};

use crate::numbers::is_taken;
use ris_base::{Changes, NoMemory, Sequence, Vertices};
use std::alloc::Global;

/// A vertex whose value by an analysis an entry changed.
#[derive(Clone, Copy, Debug, PartialEq, Eq)]
pub struct Moved {
    pub analysis: u32,
    pub vertex: u32,
}

/// The vertices that changes move, each with the analysis.
pub(crate) fn moved_by(
    alloc: Global,
    analyses: u32,
    changes: &Changes,
) -> Result<Sequence<Moved>, NoMemory>
    ensures { IfOk result (λ list. list ≡ moved_by analyses changes.now) }
{
    let mut moved = Sequence::new(alloc);
    for k in 0..changes.len() {
        let change = changes.at(k);
        if is_taken(analyses, change) && change.moved {
            moved.push(Moved {
                analysis: change.analysis,
                vertex: change.vertex,
            })?;
        }
    }
    Ok(moved)
}

/// The vertices that are listed with an analysis, ascending, each once.
pub(crate) fn vertices_of(
    alloc: Global,
    moved: &Sequence<Moved>,
    a: u32,
) -> Result<Vertices, NoMemory>
    ensures { IfOk result (AreVerticesOf moved.now a) }
{
    let mut vertices = Vec::new(alloc);
    for k in 0..moved.len() {
        let vertex = moved.at(k);
        if vertex.analysis == a {
            vertices.push(vertex.vertex)?;
        }
    }
    vertices.sort()?;
    vertices.dedup();
    Ok(Sequence::from_vec(vertices))
}
