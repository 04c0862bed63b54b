ghost use Rattle.std.specs.Prelude.{◌≡◌, ◌<◌, ◌≤◌, ℕ, List, [], Some, IsTrue, IfOk, OnOk, length, sum, slice_get, slice_index_or, ◌↔◌};
ghost use Rattle.std.specs.List.{All};
ghost use Rattle.std.specs.List.Sorted.{IsStrictlyIncreasing};
ghost use Rattle.ris_base.specs.Falling.{start_reach, AreReaches};
ghost use Rattle.ris_base.specs.Forest;
ghost use Rattle.ris_base.specs.Limits.{vertex_limit};
ghost use Rattle.ris_base.specs.Lists.{EachPair};
ghost use Rattle.ris_base.specs.Requests.{entered};
ghost use Rattle.ris_base.specs.Value.{Moves, AreMoved};
ghost use Rattle.ris_base.specs.declared.graphs.Format.{Format};
ghost use Rattle.ris_base.specs.declared.graphs.PlainGraph.{PlainGraph};
ghost use Rattle.ris_base.specs.declared.updates.Update.{Update};
ghost use Rattle.ris_graph.specs.GraphView.{IsOf};
ghost use Rattle.ris_graph.specs.Ticks.{ticked, IsRise};
ghost use Rattle.ris_analysis.specs.Repairing.{moved_in};

use crate::kinds::AnyForest;
use crate::lists;
use ris_base::{Meter, NoMemory, Parent, Specs, VERTEX_LIMIT, Value, Vertices};
use ris_forest::Deltas;
use ris_graph::{Graph, Net};
use std::alloc::Global;
use std::marker::Model;

#[cfg(test)]
mod tests;

/// The forests of one to four analyses, in the order of the analyses. It keeps the forests alone, and no list of triples:
/// what a request changes is reckoned from the graph's rows.
#[derive(Drop)]
pub struct Analyses {
    alloc: Global,
    forests: Vec<AnyForest>,
}

impl Model for Analyses {
    ghost use Rattle.std.specs.Prelude.{List};
    ghost use Rattle.ris_analysis.specs.declared.kinds.AnyForest.{AnyForest};
    ghost use Rattle.ris_analysis.specs.Analyses.{AreAnalyses};

    ghost Value = { List AnyForest };

    ghost view = { λ a. a.forests.items };

    ghost invariant = { λ a. AreAnalyses a.forests.items };
}

impl Analyses {
    ghost use Rattle.ris_analysis.specs.AnyForest.{cells_of};
    ghost use Rattle.ris_analysis.specs.Analyses.{specs_of, forests_of, all_with_rows, committed_all, AllSuit, ArePlainSpecs, AreAnalyses, CanCommit, HasRoom, IsDueFor, IsGrown};

    /// The forests of one to four analyses on a graph, all right. The root of an analysis of components is 0.
    ///
    /// The meter ticks at most so often as the reach of the start says, also where `NoMemory` comes. It takes time of the
    /// graph's triples times a logarithm for each analysis, and looks once at each vertex number of the graph's tables.
    pub fn start<M: Meter>(
        alloc: Global,
        graph: &Graph<M>,
        specs: &Specs,
        meter: &mut M,
    ) -> Result<Analyses, NoMemory>
        requires of { (p : PlainGraph) × IsOf graph.now p }
        requires some { 1 ≤ length specs.now }
        requires few { length specs.now ≤ 4 }
        requires roots { ArePlainSpecs specs.now }
        ensures specs { IfOk result (λ analyses. specs_of analyses ≡ specs.now) }
        ensures suits { IfOk result (λ analyses. AllSuit analyses graph.now.format) }
        ensures right { IfOk result (λ analyses. (p : PlainGraph) → IsOf graph.now p → Forest.AreForests p specs.now (forests_of analyses)) }
        ensures room { IfOk result (λ analyses. HasRoom graph.now analyses) }
        ensures visits { (p : PlainGraph) → IsOf graph.now p → IsRise (M.ticks meter.old) (M.ticks meter.new) (start_reach p specs.now) }
        ensures counted { (k : ℕ) × (M.ticks meter.new ≡ ticked (M.ticks meter.old) k) }
    {
        let size = graph.size();
        let forests = lists::first_forests(alloc, graph, specs, size, meter)?;
        Ok(Analyses { alloc, forests })
    }

    /// Makes room in each forest for the vertices that a net adds: they may then be committed, and so may all that could be
    /// before. After `NoMemory` some forests may have more room than before. A net that adds a number of 4,194,304 or more
    /// is of no graph, and it answers `NoMemory` to it.
    pub fn make_room(&mut self, net: &Net) -> Result<(), NoMemory>
        ensures ok { OnOk result (All (λ one. All (λ x. x < length (cells_of one)) net.now.added) self.new) }
        ensures grown { IsGrown self.old self.new }
        ensures specs { specs_of self.new ≡ specs_of self.old }
        ensures suits { (format : Format) → AllSuit self.old format → AllSuit self.new format }
        ensures forests { forests_of self.new ≡ forests_of self.old }
    {
        let bound = lists::bound(&net.added);
        if bound > VERTEX_LIMIT {
            return Err(NoMemory);
        }
        lists::make_room(&mut self.forests, bound as u32)
    }

    /// The changes that make each forest right after a request whose net is committed in the graph, where the forests were
    /// right before it. They tell exactly which values the request moves. Where there is room for the vertices of the graph,
    /// they may then be committed.
    ///
    /// The meter ticks at most so often as the reaches of the request for the analyses say together, also where `NoMemory`
    /// comes. It takes time of these visits, times a logarithm, and of the net, and memory of what changes: for an
    /// analysis that the net doesn't touch it takes none.
    pub fn prepare<M: Meter>(
        &self,
        graph: &Graph<M>,
        net: &Net,
        meter: &mut M,
    ) -> Result<Deltas, NoMemory>
        requires due { (p : PlainGraph) × (parts : List Update) × IsDueFor graph.now self.now net.now p parts }
        requires suits { AllSuit self.now graph.now.format }
        ensures right { IfOk result (λ deltas. (p : PlainGraph) (parts : List Update) → IsDueFor graph.now self.now net.now p parts
            → Forest.AreForests (entered p parts) (specs_of self.now) (all_with_rows (forests_of self.now) deltas)) }
        ensures moved { IfOk result (λ deltas. (p : PlainGraph) (parts : List Update) → IsDueFor graph.now self.now net.now p parts
            → EachPair (λ spec delta. All (λ row. IsTrue row.moved ↔ Moves p (entered p parts) spec row.vertex) delta) (specs_of self.now) deltas) }
        ensures modified { IfOk result (λ deltas. (p : PlainGraph) (parts : List Update) → IsDueFor graph.now self.now net.now p parts
            → EachPair (λ spec delta. AreMoved p (entered p parts) spec (moved_in delta)) (specs_of self.now) deltas) }
        ensures fit { HasRoom graph.now self.now → IfOk result (λ deltas. CanCommit self.now deltas) }
        ensures within { IfOk result (λ deltas. All (All (λ row. row.vertex < vertex_limit)) deltas) }
        ensures visits { (p : PlainGraph) (parts : List Update) (counts : List ℕ) → IsDueFor graph.now self.now net.now p parts
            → AreReaches p parts (specs_of self.now) (forests_of self.now) counts → IsRise (M.ticks meter.old) (M.ticks meter.new) (sum counts) }
        ensures counted { (k : ℕ) × (M.ticks meter.new ≡ ticked (M.ticks meter.old) k) }
    {
        lists::prepare(self.alloc, graph, &self.forests, net, meter)
    }

    /// Overwrites in each forest what its delta names, in constant time for each row. There is one delta for each analysis,
    /// and each may be committed. So it takes no memory and cannot fail.
    pub fn commit(&mut self, deltas: &Deltas)
        requires { CanCommit self.old deltas.now }
        ensures committed { self.new ≡ committed_all self.old deltas.now }
        ensures specs { specs_of self.new ≡ specs_of self.old }
        ensures suits { (format : Format) → AllSuit self.old format → AllSuit self.new format }
        ensures forests { forests_of self.new ≡ all_with_rows (forests_of self.old) deltas.now }
    {
        lists::commit(&mut self.forests, deltas);
    }

    /// The value of a vertex number in analysis number `a`. Constant time.
    pub fn value(&self, a: u32, x: u64) -> Value
        requires { a < length self.now }
        ensures { (F : Forest.Forest) → slice_get (forests_of self.now) a ≡ Some F → result ≡ F.value x }
    {
        self.forests[a as usize].value(x)
    }

    /// The parent of a vertex number in analysis number `a`. Constant time.
    pub fn parent(&self, a: u32, x: u64) -> Parent
        requires { a < length self.now }
        ensures { (F : Forest.Forest) → slice_get (forests_of self.now) a ≡ Some F → result ≡ F.parent x }
    {
        self.forests[a as usize].parent(x)
    }

    /// The vertices that moved by delta number `a`, ascending.
    pub fn modified(&self, deltas: &Deltas, a: u32) -> Result<Vertices, NoMemory>
        requires { a < length deltas.now }
        ensures moved { IfOk result (λ vertices. vertices ≡ moved_in (slice_index_or deltas.now a [])) }
        ensures ascending { IfOk result (λ vertices. IsStrictlyIncreasing vertices) }
    {
        lists::moved(self.alloc, deltas.at(a as u64))
    }

    /// The forest of each analysis.
    pub(crate) fn forests(&self) -> &[AnyForest]
        ensures forests { result.now ≡ self.now }
        ensures kept { AreAnalyses self.now }
    {
        &self.forests
    }
}
