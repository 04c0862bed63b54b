ghost use Rattle.std.specs.Prelude.{◌<◌, ℕ, List, [], ◌∷◌, OnOk};
ghost use Rattle.ris_base.specs.Graph.{HasTriple, IsProper};
ghost use Rattle.ris_base.specs.Limits.{vertex_limit};
ghost use Rattle.ris_base.specs.declared.graphs.PlainGraph.{PlainGraph};
ghost use Rattle.ris_forest.specs.Cells.{forest_of};
ghost use Rattle.ris_graph.specs.declared.nets.NetTriple.{NetTriple};
ghost use Rattle.ris_repair.specs.Stages.{IsPrepared, unadded, AreAdded};
ghost use Rattle.ris_repair.specs.Stores.{change_at};

use crate::frontiers::Frontier;
use ris_algo::Monotone;
use ris_base::NoMemory;
use ris_forest::Forest;
use ris_graph::{NetTriple, NetTriples};

impl Frontier {
    /// Offers the ends of a triple that has more copies than before the steps along it, in each direction in which walks may
    /// go. Another triple is passed over.
    fn add_triple<A: Monotone>(
        &mut self,
        forest: &Forest<A>,
        item: &NetTriple,
    ) -> Result<(), NoMemory>
        requires added { (g : PlainGraph) × IsProper g × (item.now.before < item.now.after → HasTriple g item.now.triple) }
        ensures kept { OnOk result ((g : PlainGraph) (fallen : List ℕ) (rest : List NetTriple) → IsProper g → (item.now.before < item.now.after → HasTriple g item.now.triple)
            → IsPrepared g (A.spec forest.now.algo) (forest_of forest.now.cells) vertex_limit fallen (change_at self.old.changes) self.old.queue (unadded (item.now ∷ rest))
            → IsPrepared g (A.spec forest.now.algo) (forest_of forest.now.cells) vertex_limit fallen (change_at self.new.changes) self.new.queue (unadded rest)) }
    {
        let added = item.triple;
        if item.after <= item.before {
            return Ok(());
        }
        self.cross(forest, added.source, added.target, added)?;
        if A::BOTH_WAYS {
            self.cross(forest, added.target, added.source, added)?;
        }
        Ok(())
    }

    /// Offers the ends of each triple that has more copies than before the steps along it.
    pub(crate) fn add_all<A: Monotone>(
        &mut self,
        forest: &Forest<A>,
        triples: &NetTriples,
    ) -> Result<(), NoMemory>
        requires added { (g : PlainGraph) × IsProper g × AreAdded g triples.now }
        ensures kept { OnOk result ((g : PlainGraph) (fallen : List ℕ) → IsProper g → AreAdded g triples.now
            → IsPrepared g (A.spec forest.now.algo) (forest_of forest.now.cells) vertex_limit fallen (change_at self.old.changes) self.old.queue (unadded triples.now)
            → IsPrepared g (A.spec forest.now.algo) (forest_of forest.now.cells) vertex_limit fallen (change_at self.new.changes) self.new.queue (unadded [])) }
    {
        for k in 0..triples.len() {
            self.add_triple(forest, triples.at(k))?;
        }
        Ok(())
    }
}
