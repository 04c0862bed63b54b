ghost use Rattle.std.specs.Prelude.{◌≡◌, OnOk};

use ris_base::{NoMemory, Triple};
use ris_graph::Graph;
use std::alloc::Global;
use std::collections::HashMap;

/// What the parts so far made of a vertex: the number of the last part that dropped it, or 0, and whether it is there.
#[derive(Clone, Copy)]
pub(crate) struct VertexNote {
    pub(crate) dropped: u32,
    pub(crate) present: bool,
}

/// What the parts so far made of a triple: its copies before the request, and those that the part of this number left,
/// or the request began with where the number is 0. They are gone where a later part dropped an end of the triple.
#[derive(Clone, Copy)]
pub(crate) struct TripleNote {
    pub(crate) before: u64,
    pub(crate) copies: u64,
    pub(crate) part: u32,
}

/// What the parts of a request so far made of a graph: notes of the vertices and triples that they touched. All else is
/// as in the graph. A vertex is dropped in constant time, since the numbers in the notes of its triples show that they are older.
/// It takes memory from the first note on.
#[derive(Drop)]
pub(crate) struct Overlay {
    pub(crate) vertices: HashMap<u32, VertexNote>,
    pub(crate) triples: HashMap<(u32, u32, u64), TripleNote>,
}

impl Overlay {
    ghost use Rattle.std.specs.HashMap.{IsEmpty};
    ghost use Rattle.ris_txn.specs.Overlays.{vertex_note, triple_note, PutsVertex, PutsTriple};

    /// Nothing is touched yet.
    pub(crate) fn new(alloc: Global) -> Overlay
        ensures vertices { IsEmpty result.vertices }
        ensures triples { IsEmpty result.triples }
    {
        Overlay {
            vertices: HashMap::new(alloc),
            triples: HashMap::new(alloc),
        }
    }

    /// The note of a vertex, or what it would be where the vertex is as in the graph.
    pub(crate) fn vertex<M>(&self, graph: &Graph<M>, x: u32) -> VertexNote
        ensures { result ≡ vertex_note graph.now self.now x }
    {
        match self.vertices.get(&x) {
            Some(note) => *note,
            None => VertexNote {
                dropped: 0,
                present: graph.has_vertex(x as u64),
            },
        }
    }

    /// The note of a triple, or what it would be where the triple is as in the graph.
    pub(crate) fn triple<M>(&self, graph: &Graph<M>, t: Triple) -> TripleNote
        ensures { result ≡ triple_note graph.now self.now t }
    {
        match self.triples.get(&(t.source, t.target, t.weight)) {
            Some(note) => *note,
            None => {
                let copies = graph.copies(t);
                TripleNote {
                    before: copies,
                    copies,
                    part: 0,
                }
            }
        }
    }

    /// Notes a vertex anew.
    pub(crate) fn put_vertex(&mut self, x: u32, note: VertexNote) -> Result<(), NoMemory>
        ensures { OnOk result (PutsVertex self.old self.new x note) }
    {
        self.vertices.insert(x, note)?;
        Ok(())
    }

    /// Notes a triple anew.
    pub(crate) fn put_triple(&mut self, t: Triple, note: TripleNote) -> Result<(), NoMemory>
        ensures { OnOk result (PutsTriple self.old self.new t note) }
    {
        self.triples.insert((t.source, t.target, t.weight), note)?;
        Ok(())
    }
}
