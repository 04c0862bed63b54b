ghost use Rattle.std.specs.Prelude.{◌≡◌, ◌==◌, ◌<◌, ℕ, [], ◌∷◌, if◌then◌else◌, length, IfOk, OnOk};
ghost use Rattle.std.specs.List.{All};
ghost use Rattle.ris_four.specs.Neighbours.{neighbours_at, neighbours_by, AreNeighbours, Gain, IsWithin};

use ris_base::{NoMemory, Triple};
use std::alloc::Global;

/// A triple that leads to a vertex, as that vertex sees it: the vertex at its other end, and its weight.
#[derive(Clone, Copy, Debug)]
pub(crate) struct Neighbour {
    pub other: u32,
    pub weight: u64,
}

/// The neighbours of each vertex number below `count`: for each triple its source at its target's place, and where
/// triples lead both ways its target at its source's place too.
pub(crate) fn neighbour_lists(
    alloc: Global,
    triples: &[Triple],
    both: bool,
    count: usize,
) -> Result<Vec<Vec<Neighbour>>, NoMemory>
    requires { All (IsWithin count) triples.now }
    ensures { IfOk result (λ lists. AreNeighbours both triples.now count lists.items) }
{
    let mut lists = empty_lists(alloc, count)?;
    for t in triples {
        add_triple(&mut lists, both, *t)?;
    }
    Ok(lists)
}

/// So many empty lists.
fn empty_lists(alloc: Global, count: usize) -> Result<Vec<Vec<Neighbour>>, NoMemory>
    ensures len { IfOk result (λ lists. length lists.items ≡ count) }
    ensures each { IfOk result (λ lists. (x : ℕ) → x < count → neighbours_at lists.items x ≡ []) }
{
    let mut lists = Vec::new(alloc);
    for _i in 0..count {
        lists.push(Vec::new(alloc))?;
    }
    Ok(lists)
}

/// Adds the neighbours that a triple gives its ends.
fn add_triple(lists: &mut Vec<Vec<Neighbour>>, both: bool, t: Triple) -> Result<(), NoMemory>
    requires { IsWithin (length lists.old.items) t }
    ensures { OnOk result (Gain (λ x. neighbours_by both x t) lists.old.items lists.new.items) }
{
    add_neighbour(lists, t.target, t.source, t.weight)?;
    if both {
        add_neighbour(lists, t.source, t.target, t.weight)?;
    }
    Ok(())
}

/// Adds a neighbour of `x`.
fn add_neighbour(
    lists: &mut Vec<Vec<Neighbour>>,
    x: u32,
    other: u32,
    weight: u64,
) -> Result<(), NoMemory>
    requires { x < length lists.old.items }
    ensures { OnOk result
        (Gain (λ y. if x == y then record { other = other; weight = weight } ∷ [] else []) lists.old.items lists.new.items) }
{
    lists[x as usize].push(Neighbour { other, weight })?;
    Ok(())
}
