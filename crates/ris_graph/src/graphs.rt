ghost use Rattle.std.specs.Prelude.{◌≡◌, ◌<◌, ◌≤◌, ◌-◌, ℕ, [], IsTrue, IfOk, OnOk, length};
ghost use Rattle.std.specs.List.{All};
ghost use Rattle.std.specs.List.Sorted.{IsPermutation};
ghost use Rattle.ris_base.specs.Limits.{vertex_limit, greatest_of};
ghost use Rattle.ris_base.specs.Lists.{numbers_below};
ghost use Rattle.ris_rows.specs.Neighbours.{IsAscending};

use crate::degrees::{Degree, degrees};
use crate::outs::{OutRows, STRIPES};
use crate::sorting;
use crate::tables::RowTable;
use ris_base::{Format, NoMemory, Triple, Triples};
use ris_rows::Cursor;
use std::alloc::Global;
use std::marker::Model;

/// A graph: vertices below 4,194,304, and copies of triples between them with weights up to the greatest of its format.
/// Its cursors count by a meter of the type `M`.
///
/// Each vertex number up to the greatest that was present has two rows, of its out neighbours and of its in neighbours,
/// which take 48 bytes, and a byte for whether it is present. A triple takes 40 bytes more, with all its copies. The out
/// rows stand in 64 stripes, which may be lent to workers.
#[derive(Drop)]
pub struct Graph<M> {
    pub(crate) alloc: Global,
    pub(crate) format: Format,
    pub(crate) outs: OutRows<M>,
    pub(crate) ins: RowTable<M>,
    pub(crate) present: Vec<bool>,
}

impl<M> Model for Graph<M> {
    ghost use Rattle.ris_graph.specs.GraphView.{GraphView};
    ghost use Rattle.ris_graph.specs.Sound.{IsSound};

    ghost Value = { GraphView };

    ghost view = { λ g. record { format = g.format; stripes = g.outs; ins = g.ins; present = g.present.items } };

    ghost invariant = { λ g. IsSound (record { format = g.format; stripes = g.outs; ins = g.ins; present = g.present.items }) };
}

impl<M> Graph<M> {
    ghost use Rattle.ris_base.specs.declared.graphs.PlainGraph.{PlainGraph};
    ghost use Rattle.ris_graph.specs.GraphView.{copies_in, out_row, in_row, vertex_in, IsOf, HasRoomOf};
    ghost use Rattle.ris_graph.specs.Appending.{CanAppend, CanAppendAll, appended, appended_all};

    /// The graph that has the vertices below `vertices`, which are at most 4,194,304, and the triples of `base`, each
    /// time that one stands there a copy. It sorts a copy of the triples: in linear time by ranges of targets, by ranges of
    /// sources, by source and by target, and then those that differ in weight alone in n log n. So it fills each row in
    /// ascending order, in linear time. A row takes room for its neighbours and an eighth more at once.
    pub fn start(
        alloc: Global,
        vertices: u32,
        format: Format,
        base: &Triples,
    ) -> Result<Graph<M>, NoMemory>
        requires few { vertices ≤ vertex_limit }
        requires ends { All (λ t. (t.source < vertices) × (t.target < vertices)) base.now }
        requires weights { All (λ t. t.weight ≤ greatest_of format) base.now }
        ensures { IfOk result (λ g. IsOf g (record { format = format; vertices = numbers_below vertices; triples = base.now })) }
    {
        let tiles = sorting::sorted(alloc, vertices, base)?;
        let mut graph = Graph::edgeless(alloc, vertices, format)?;
        graph.reserve_rows(&degrees(alloc, vertices, &tiles)?)?;
        for tile in &tiles {
            graph.append_all(tile)?;
        }
        Ok(graph)
    }

    /// The graph that has the vertices below `vertices` and no triples.
    fn edgeless(alloc: Global, vertices: u32, format: Format) -> Result<Graph<M>, NoMemory>
        requires { vertices ≤ vertex_limit }
        ensures { IfOk result (λ g. IsOf g (record { format = format; vertices = numbers_below vertices; triples = [] })) }
    {
        let mut outs = OutRows::new(alloc)?;
        outs.grow(alloc, (vertices as usize).div_ceil(STRIPES))?;
        let mut ins = RowTable::new(alloc);
        ins.grow(alloc, vertices as usize)?;
        let present = vec![in alloc; true; vertices as usize]?;
        Ok(Graph {
            alloc,
            format,
            outs,
            ins,
            present,
        })
    }

    /// Makes room in the two rows of each vertex for its neighbours and an eighth more: in the out rows of one stripe after
    /// the other, and then in the in rows. So rows lie in memory in the order of their tables, in which they are given back.
    /// No row loses room, also where `NoMemory` comes.
    fn reserve_rows(&mut self, degrees: &[Degree]) -> Result<(), NoMemory>
        ensures { HasRoomOf self.old self.new }
    {
        for stripe in 0..STRIPES {
            self.reserve_stripe(degrees, stripe)?;
        }
        self.reserve_ins(degrees)
    }

    /// Makes room in the out row of each vertex of a stripe for its neighbours and an eighth more, as `reserve_rows` does.
    fn reserve_stripe(&mut self, degrees: &[Degree], stripe: usize) -> Result<(), NoMemory>
        ensures { HasRoomOf self.old self.new }
    {
        for x in (stripe..self.present.len()).step_by(STRIPES) {
            if let Some(degree) = degrees.get(x) {
                self.reserve_vertex(x as u32, degree.outs, 0)?;
            }
        }
        Ok(())
    }

    /// Makes room in the in row of each vertex for its neighbours and an eighth more, as `reserve_rows` does.
    fn reserve_ins(&mut self, degrees: &[Degree]) -> Result<(), NoMemory>
        ensures { HasRoomOf self.old self.new }
    {
        for x in 0..self.present.len() {
            if let Some(degree) = degrees.get(x) {
                self.reserve_vertex(x as u32, 0, degree.ins)?;
            }
        }
        Ok(())
    }

    /// Makes room in the two rows of a vertex of the graph for so many neighbours and an eighth more, as `reserve_rows`
    /// does. For a number that is no vertex it does nothing.
    fn reserve_vertex(&mut self, x: u32, outs: u64, ins: u64) -> Result<(), NoMemory>
        ensures { HasRoomOf self.old self.new }
    {
        if self.has_vertex(u64::from(x)) {
            self.reserve(x, roomy(outs), x, roomy(ins))?;
        }
        Ok(())
    }

    /// One copy more of each triple, one after the other, as `append` adds it.
    fn append_all(&mut self, triples: &[Triple]) -> Result<(), NoMemory>
        requires { CanAppendAll self.old triples.now }
        ensures { OnOk result ((p : PlainGraph) → IsOf self.old p → IsOf self.new (appended_all p triples.now)) }
    {
        for t in triples {
            self.append(*t)?;
        }
        Ok(())
    }

    /// One copy more of a triple, in constant time where no neighbour stands past it in its two rows.
    fn append(&mut self, t: Triple) -> Result<(), NoMemory>
        requires { CanAppend self.old t }
        ensures { OnOk result ((p : PlainGraph) → IsOf self.old p → IsOf self.new (appended p t)) }
    {
        self.make_room(t, 1)?;
        self.outs.append(t.source, t.target, t.weight);
        self.ins.append(t.target as usize, t.source, t.weight);
        Ok(())
    }

    /// The format of the graph.
    pub fn format(&self) -> Format
        ensures value { result ≡ self.now.format }
        ensures of { (p : PlainGraph) × IsOf self.now p }
    {
        self.format
    }

    /// How many vertex numbers the tables have room for, which is at most 4,194,304: each vertex is below it. Constant
    /// time.
    pub fn size(&self) -> u32
        ensures size { result ≡ length self.now.present }
        ensures below { (x : ℕ) → IsTrue (vertex_in self.now x) → x < result }
        ensures few { result ≤ vertex_limit }
    {
        self.present.len() as u32
    }

    /// The number of copies of a triple. A binary search.
    pub fn copies(&self, t: Triple) -> u64
        ensures { result ≡ copies_in self.now t }
    {
        self.outs.count(t.source, t.target, t.weight)
    }

    /// Whether `x` is a vertex of the graph.
    pub fn has_vertex(&self, x: u64) -> bool
        ensures { result ≡ vertex_in self.now x }
    {
        match self.present.get(x as usize) {
            Some(there) => *there,
            None => false,
        }
    }

    /// A cursor before the first neighbour to which a triple from `x` leads.
    pub fn out_cursor(&self, x: u32) -> Cursor<'_, M>
        ensures items { result ≡ (out_row self.now x).items }
        ensures ascending { IsAscending result }
    {
        self.outs.cursor(x)
    }

    /// A cursor before the first neighbour from which a triple leads to `x`.
    pub fn in_cursor(&self, x: u32) -> Cursor<'_, M>
        ensures items { result ≡ (in_row self.now x).items }
        ensures ascending { IsAscending result }
    {
        self.ins.cursor(x as usize)
    }

    /// Makes room for `n` inserts in both rows of a triple between vertices of the graph. No row loses room, also where
    /// `NoMemory` comes.
    pub fn make_room(&mut self, t: Triple, n: u64) -> Result<(), NoMemory>
        requires source { IsTrue (vertex_in self.old t.source) }
        requires target { IsTrue (vertex_in self.old t.target) }
        ensures out_room { OnOk result (n ≤ (out_row self.new t.source).spare) }
        ensures in_room { OnOk result (n ≤ (in_row self.new t.target).spare) }
        ensures same { HasRoomOf self.old self.new }
    {
        self.reserve(t.source, n, t.target, n)
    }

    /// Makes room for `outs` inserts in the out row of `source`, and for `ins` in the in row of `target`, as `make_room`
    /// does.
    fn reserve(&mut self, source: u32, outs: u64, target: u32, ins: u64) -> Result<(), NoMemory>
        requires source { IsTrue (vertex_in self.old source) }
        requires target { IsTrue (vertex_in self.old target) }
        ensures out_room { OnOk result (outs ≤ (out_row self.new source).spare) }
        ensures in_room { OnOk result (ins ≤ (in_row self.new target).spare) }
        ensures same { HasRoomOf self.old self.new }
    {
        self.outs.reserve(source, outs)?;
        self.ins.reserve(target as usize, ins)
    }
}

/// A number of neighbours and an eighth more, so that the first additions to a long row don't copy it.
fn roomy(neighbours: u64) -> u64 {
    neighbours.saturating_add(neighbours / 8)
}
