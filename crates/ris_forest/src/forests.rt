ghost use Rattle.std.specs.Prelude.{◌≡◌, ◌<◌, ◌≤◌, ◌-◌, ◌*◌, ◌^◌, ◌++◌, All, IfOk, OnOk, OnErr, length, max, min, replicate};
ghost use Rattle.ris_base.specs.Safe.{is_along};

use crate::nodes::{self, Node};
use crate::{Delta, Subtrees};
use ris_base::{NoMemory, Parent, Triple, VERTEX_LIMIT, Value, Vertices};
use std::alloc::Global;
use std::marker::Model;

/// A value and a parent for each vertex number, for the analysis of the algorithm `A`, and the children of each vertex
/// as links by number.
///
/// It has a table of the vertex numbers below some number, with 48 bytes for each, and a number past its end is that of
/// an absent vertex. Parents lead to a start, and every value that is a number is below 2^59.
#[derive(Drop)]
pub struct Forest<A> {
    algo: A,
    nodes: Vec<Node>,
}

impl<A> Model for Forest<A> {
    ghost use Rattle.ris_forest.specs.Cells.{ForestView};

    ghost Value = { ForestView A };

    ghost use Rattle.ris_forest.specs.Linking.{cells_of, IsKept};

    ghost view = { λ f. record { algo = f.algo; cells = cells_of f.nodes.items } };

    ghost invariant = { λ f. IsKept f.nodes.items };
}

impl<A> Forest<A> {
    ghost use Rattle.ris_forest.specs.Cells.{forest_of, absent_cell, IsRooted, IsSmall, IsSound, AreBelow};
    ghost use Rattle.ris_forest.specs.Commits.{committed, with_rows, IsRowBelow};
    ghost use Rattle.ris_forest.specs.Growing.{GoesOn, GrowsBelow, IsClosed};

    /// A forest of absent vertices, with a table of the vertex numbers below `size`.
    pub fn start(alloc: Global, algo: A, size: u32) -> Result<Forest<A>, NoMemory>
    where
        A: Drop,
        ensures algo { IfOk result (λ forest. forest.algo ≡ algo) }
        ensures cells { IfOk result (λ forest. forest.cells ≡ replicate size absent_cell) }
        ensures sound { IfOk result (λ forest. IsSound forest.cells) }
    {
        let mut nodes = Vec::new(alloc);
        nodes::extend(&mut nodes, size as usize)?;
        Ok(Forest { algo, nodes })
    }

    /// The value of a vertex number. Constant time.
    pub fn value(&self, x: u64) -> Value
        ensures value { result ≡ (forest_of self.now.cells).value x }
        ensures small { IsSmall result }
        ensures sound { IsSound self.now.cells }
    {
        nodes::value_of(&self.nodes, x)
    }

    /// The parent of a vertex number. Constant time.
    pub fn parent(&self, x: u64) -> Parent
        ensures parent { result ≡ (forest_of self.now.cells).parent x }
        ensures sound { IsSound self.now.cells }
    {
        nodes::parent_of(&self.nodes, x)
    }

    /// Whether the parent of a vertex number is along a triple. Constant time.
    pub fn hangs_by(&self, x: u64, t: Triple) -> bool
        ensures along { result ≡ is_along t ((forest_of self.now.cells).parent x) }
        ensures sound { IsSound self.now.cells }
    {
        match self.parent(x) {
            Parent::None => false,
            Parent::From {
                source,
                target,
                weight,
                ..
            } => t.source == source && t.target == target && t.weight == weight,
        }
    }

    /// The algorithm of the analysis. Constant time.
    pub fn algo(&self) -> &A
        ensures algo { result.now ≡ self.now.algo }
        ensures sound { IsSound self.now.cells }
    {
        &self.algo
    }

    /// The vertex `x` and all that hang below it, each once: `x` alone where nothing hangs below it or it is past the end
    /// of the table. It takes time and memory of what it lists.
    pub fn below(&self, x: u32) -> Result<Vertices, NoMemory>
        ensures below { IfOk result (λ vertices. AreBelow (forest_of self.now.cells) x vertices) }
        ensures sound { IsSound self.now.cells }
    {
        let found = nodes::below(*self.nodes.allocator(), &self.nodes, x)?;
        Ok(Vertices::from_vec(found))
    }

    /// Adds `x` and all that hang below it to vertices that have all that hang below each of them. It stops at vertices that
    /// are there already, and takes time and memory of what it adds. After `NoMemory` some of them may be added.
    pub fn add_below(&self, x: u32, found: &mut Subtrees) -> Result<(), NoMemory>
        ensures ok { OnOk result (IsClosed (forest_of self.now.cells) found.old
            → GrowsBelow (forest_of self.now.cells) x found.old found.new) }
        ensures on { GoesOn found.old found.new }
        ensures sound { IsSound self.now.cells }
    {
        nodes::add_below(&self.nodes, x, found)
    }

    /// The size of the table: there is room for the vertex numbers below it. Constant time.
    pub fn size(&self) -> u32
        ensures size { result ≡ length self.now.cells }
        ensures sound { IsSound self.now.cells }
    {
        self.nodes.len() as u32
    }

    /// Makes room for the vertex numbers below `size`: they may then be committed, and so may all that could be before.
    /// The table grows by doubling up to 4,194,304 numbers, and further only where `size` asks for more, so that the
    /// cost for each number is constant on average. `NoMemory` comes only where there was less room, and the forest is
    /// then as before.
    pub fn make_room(&mut self, size: u32) -> Result<(), NoMemory>
        ensures room { OnOk result (size ≤ length self.new.cells) }
        ensures cells { self.new.cells ≡ self.old.cells ++ replicate (length self.new.cells - length self.old.cells) absent_cell }
        ensures algo { self.new.algo ≡ self.old.algo }
        ensures few { length self.new.cells ≤ max (length self.old.cells) (max size 4194304) }
        ensures unchanged { size ≤ length self.old.cells → self.new ≡ self.old }
        ensures full { OnErr result (length self.old.cells < size) }
        ensures err { OnErr result (self.new ≡ self.old) }
        ensures sound { IsSound self.new.cells }
    {
        let length = self.nodes.len();
        if size as usize <= length {
            return Ok(());
        }
        nodes::extend(&mut self.nodes, grown(length, size as usize))
    }

    /// Overwrites the value and the parent of each vertex that the delta names, and relinks these vertices alone, in
    /// constant time for each. There is room for each vertex and for that of its parent, numbers are below 2^59, and
    /// the parents of the result lead to starts. So it takes no memory and cannot fail.
    pub fn commit(&mut self, delta: &Delta)
        requires room { All (IsRowBelow (length self.old.cells)) delta.now }
        requires small { All (λ row. IsSmall row.value) delta.now }
        requires rooted { IsRooted (with_rows (forest_of self.old.cells) delta.now) }
        ensures cells { self.new.cells ≡ committed self.old.cells delta.now }
        ensures algo { self.new.algo ≡ self.old.algo }
        ensures sound { IsSound self.new.cells }
    {
        nodes::overwrite(&mut self.nodes, delta);
    }
}

/// The size of a table that grows to hold `size` vertex numbers.
fn grown(length: usize, size: usize) -> usize
    requires { length < 2 ^ 32 }
    ensures { result ≡ max size (min (2 * length) 4194304) }
{
    size.max((2 * length).min(VERTEX_LIMIT as usize))
}
