use ris_base::{NoMemory, Triple};
use std::alloc::Global;

/// The numbers of out neighbours and of in neighbours of a vertex.
#[derive(Clone, Copy)]
pub(crate) struct Degree {
    pub outs: u64,
    pub ins: u64,
}

/// The degrees of the vertices below `vertices`, of which `tiles` have the triples. Copies of one triple stand side by side
/// in one tile. Linear time.
pub(crate) fn degrees(
    alloc: Global,
    vertices: u32,
    tiles: &[Vec<Triple>],
) -> Result<Vec<Degree>, NoMemory> {
    let mut degrees = vec![in alloc; Degree { outs: 0, ins: 0 }; vertices as usize]?;
    for tile in tiles {
        count_all(&mut degrees, tile);
    }
    Ok(degrees)
}

/// Counts the triples of a tile, of each the first of its copies alone.
fn count_all(degrees: &mut [Degree], tile: &[Triple]) {
    let mut last = None;
    for t in tile {
        if last != Some(*t) {
            count(degrees, *t);
        }
        last = Some(*t);
    }
}

/// Counts a triple for its two ends.
fn count(degrees: &mut [Degree], t: Triple) {
    if let Some(degree) = degrees.get_mut(t.source as usize) {
        degree.outs = degree.outs.wrapping_add(1);
    }
    if let Some(degree) = degrees.get_mut(t.target as usize) {
        degree.ins = degree.ins.wrapping_add(1);
    }
}
