ghost use Rattle.std.specs.Prelude.{◌≡◌, ◌<◌, Some, IfOk, length, map, slice_get};
ghost use Rattle.ris_analysis.specs.Analyses.{forests_of};
ghost use Rattle.ris_base.specs.Forest.{Forest, forest_in};
ghost use Rattle.ris_epoch.specs.Openings.{AreBelow};

use ris_analysis::Analyses;
use ris_base::{ForestRow, ForestRows, Forests, NoMemory};
use std::alloc::Global;

/// The forests of so many analyses, which are all, as rows of the vertices below a number, from which on every vertex is absent.
pub(crate) fn forests_of(
    alloc: Global,
    analyses: &Analyses,
    count: u32,
    vertices: u32,
) -> Result<Forests, NoMemory>
    requires all { count ≡ length analyses.now }
    requires below { AreBelow vertices (forests_of analyses.now) }
    ensures { IfOk result (λ forests. map forest_in forests ≡ forests_of analyses.now) }
{
    let mut forests = Forests::new(alloc);
    for a in 0..count {
        let rows = rows_of(alloc, analyses, a, vertices)?;
        forests.push(rows)?;
    }
    Ok(forests)
}

/// The rows of one analysis, of the vertices below a number.
fn rows_of(
    alloc: Global,
    analyses: &Analyses,
    a: u32,
    vertices: u32,
) -> Result<ForestRows, NoMemory>
    requires of { a < length analyses.now }
    requires below { AreBelow vertices (forests_of analyses.now) }
    ensures { IfOk result (λ rows. (F : Forest) → slice_get (forests_of analyses.now) a ≡ Some F → forest_in rows ≡ F) }
{
    let mut rows = ForestRows::with_room(alloc, u64::from(vertices))?;
    for x in 0..vertices {
        let value = analyses.value(a, x as u64);
        let parent = analyses.parent(a, x as u64);
        rows.push(ForestRow {
            vertex: x,
            value,
            parent,
        })?;
    }
    Ok(rows)
}
