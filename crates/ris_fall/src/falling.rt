ghost use Rattle.std.specs.Prelude.{◌≡◌, ◌↔◌, ◌⊎◌, ℕ, List, [], ◌∷◌, Contains, IfOk, OnOk};
ghost use Rattle.ris_base.specs.Falling.{AreFallen};
ghost use Rattle.ris_base.specs.Forest.{IsForest};
ghost use Rattle.ris_base.specs.declared.graphs.PlainGraph.{PlainGraph};
ghost use Rattle.ris_base.specs.declared.updates.Update.{Update};
ghost use Rattle.ris_forest.specs.Cells.{forest_of};
ghost use Rattle.ris_forest.specs.Growing.{IsClosed};
ghost use Rattle.ris_graph.specs.Nets.{IsNet};
ghost use Rattle.ris_fall.specs.Gathering.{Gathers, HangsAlong, HangsBelowOne, HangsByGone, HangsBelowGone, IsNew};

use ris_algo::Monotone;
use ris_base::{NoMemory, Triple, Value, Vertices};
use ris_forest::{Fallen, Forest, Subtrees};
use ris_graph::{Net, NetTriple, NetTriples};
use std::alloc::Global;

/// The fallen vertices of a request, each once, where the net is that of the request, on a graph on which the forest is
/// right: those that it drops and those that it adds, and all that hang at or below an edge that is lost. An edge is lost
/// where it has no copy after the request, and where it names a vertex that a part drops, even if a later part puts a copy
/// back. It takes time and memory of what it lists and of the net.
pub fn fallen<A: Monotone>(alloc: Global, forest: &Forest<A>, net: &Net) -> Result<Fallen, NoMemory>
    ensures { (p : PlainGraph) (parts : List Update) → IsNet p parts net.now
        → IsForest p (A.spec forest.now.algo) (forest_of forest.now.cells)
        → IfOk result (λ xs. AreFallen p parts (forest_of forest.now.cells) xs) }
{
    let mut found = Subtrees::new(alloc);
    add_subtrees(forest, &net.dropped, &mut found)?;
    add_gone(forest, &net.triples, &mut found)?;
    add_new(forest, &net.added, &mut found)?;
    Ok(found.into_vertices())
}

/// Adds each of the vertices and all that hang below it.
fn add_subtrees<A>(
    forest: &Forest<A>,
    vertices: &Vertices,
    found: &mut Subtrees,
) -> Result<(), NoMemory>
    requires { IsClosed (forest_of forest.now.cells) found.old }
    ensures { OnOk result (Gathers (forest_of forest.now.cells) (HangsBelowOne (forest_of forest.now.cells) vertices.now) found.old found.new) }
{
    for k in 0..vertices.len() {
        forest.add_below(*vertices.at(k), found)?;
    }
    Ok(())
}

/// Adds what hangs at or below the triples that have no copy after the request.
fn add_gone<A>(
    forest: &Forest<A>,
    triples: &NetTriples,
    found: &mut Subtrees,
) -> Result<(), NoMemory>
    requires { IsClosed (forest_of forest.now.cells) found.old }
    ensures { OnOk result (Gathers (forest_of forest.now.cells) (HangsBelowGone (forest_of forest.now.cells) triples.now) found.old found.new) }
{
    for k in 0..triples.len() {
        add_ends(forest, triples.at(k), found)?;
    }
    Ok(())
}

/// Adds what hangs at or below a triple, if it has no copy after the request.
fn add_ends<A>(forest: &Forest<A>, net: &NetTriple, found: &mut Subtrees) -> Result<(), NoMemory>
    requires { IsClosed (forest_of forest.now.cells) found.old }
    ensures { OnOk result (Gathers (forest_of forest.now.cells) (HangsByGone (forest_of forest.now.cells) net.now) found.old found.new) }
{
    if net.after > 0 {
        return Ok(());
    }
    add_child(forest, net.triple, net.triple.source, found)?;
    add_child(forest, net.triple, net.triple.target, found)?;
    Ok(())
}

/// Adds an end of a triple and all that hang below it, if its parent is along the triple.
fn add_child<A>(
    forest: &Forest<A>,
    t: Triple,
    end: u32,
    found: &mut Subtrees,
) -> Result<(), NoMemory>
    requires { IsClosed (forest_of forest.now.cells) found.old }
    ensures { OnOk result (Gathers (forest_of forest.now.cells) (HangsAlong (forest_of forest.now.cells) t end) found.old found.new) }
{
    if !forest.hangs_by(end as u64, t) {
        return Ok(());
    }
    forest.add_below(end, found)?;
    Ok(())
}

/// Adds those of the vertices that are absent in the forest.
fn add_new<A>(forest: &Forest<A>, added: &Vertices, found: &mut Subtrees) -> Result<(), NoMemory>
    ensures { OnOk result ((y : ℕ) → Contains found.new y ↔ (Contains found.old y ⊎ IsNew (forest_of forest.now.cells) added.now y)) }
{
    for k in 0..added.len() {
        add_absent(forest, *added.at(k), found)?;
    }
    Ok(())
}

/// Adds a vertex if it is absent in the forest.
fn add_absent<A>(forest: &Forest<A>, x: u32, found: &mut Subtrees) -> Result<(), NoMemory>
    ensures { OnOk result ((y : ℕ) → Contains found.new y ↔ (Contains found.old y ⊎ IsNew (forest_of forest.now.cells) (x ∷ []) y)) }
{
    match forest.value(x as u64) {
        Value::Absent => {
            found.insert(x)?;
            Ok(())
        }
        Value::Unreached | Value::Num(_) => Ok(()),
    }
}
