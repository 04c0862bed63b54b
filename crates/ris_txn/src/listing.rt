ghost use Rattle.std.specs.Prelude.{◌≡◌, map, IfOk, nat_eq};

use crate::overlays::{Overlay, TripleNote};
use ris_base::{NoMemory, Triple, Vertices};
use ris_graph::{Graph, NetTriple, NetTriples};
use std::alloc::Global;

impl Overlay {
    ghost use Rattle.std.specs.HashMap.{IsUnique};
    ghost use Rattle.ris_txn.specs.Listing.{chosen, is_added, is_dropped, net_triple};
    ghost use Rattle.ris_txn.specs.Overlays.{same_key};

    /// The vertices of the graph that a part dropped.
    pub(crate) fn dropped<M>(&self, alloc: Global, graph: &Graph<M>) -> Result<Vertices, NoMemory>
        ensures listed { IfOk result (λ xs. xs ≡ chosen (is_dropped graph.now) self.now.vertices.entries) }
        ensures once { IsUnique nat_eq self.now.vertices }
    {
        let mut dropped = Vertices::new(alloc);
        for (x, note) in &self.vertices {
            if graph.has_vertex(*x as u64) && note.dropped > 0 {
                dropped.push(*x)?;
            }
        }
        Ok(dropped)
    }

    /// The vertices that are there now, and that weren't in the graph or were dropped.
    pub(crate) fn added<M>(&self, alloc: Global, graph: &Graph<M>) -> Result<Vertices, NoMemory>
        ensures listed { IfOk result (λ xs. xs ≡ chosen (is_added graph.now) self.now.vertices.entries) }
        ensures once { IsUnique nat_eq self.now.vertices }
    {
        let mut added = Vertices::new(alloc);
        for (x, note) in &self.vertices {
            let stayed = graph.has_vertex(*x as u64) && note.dropped == 0;
            if note.present && !stayed {
                added.push(*x)?;
            }
        }
        Ok(added)
    }

    /// The noted triples, with their copies before and now.
    pub(crate) fn listed<M>(&self, alloc: Global, graph: &Graph<M>) -> Result<NetTriples, NoMemory>
        ensures listed { IfOk result (λ ts. ts ≡ map (net_triple graph.now self.now) self.now.triples.entries) }
        ensures once { IsUnique same_key self.now.triples }
    {
        let mut triples = NetTriples::with_room(alloc, self.triples.len() as u64)?;
        for (key, note) in &self.triples {
            triples.push(self.net_triple(graph, *key, note))?;
        }
        Ok(triples)
    }

    /// A noted triple with its copies before and now.
    fn net_triple<M>(&self, graph: &Graph<M>, key: (u32, u32, u64), note: &TripleNote) -> NetTriple
        ensures { result ≡ net_triple graph.now self.now (key, note.now) }
    {
        let (source, target, weight) = key;
        let after = self
            .vertex(graph, source)
            .left(&self.vertex(graph, target), note);
        NetTriple {
            triple: Triple {
                source,
                target,
                weight,
            },
            before: note.before,
            after,
        }
    }
}
