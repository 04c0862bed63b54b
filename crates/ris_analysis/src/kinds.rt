ghost use Rattle.std.specs.Prelude.{◌≡◌, ◌<◌, ◌≤◌, ◌&&◌, ℕ, List, IsTrue, IfOk, OnOk, length};
ghost use Rattle.ris_base.specs.Falling.{IsReachFor};
ghost use Rattle.ris_base.specs.Forest.{IsForest};
ghost use Rattle.ris_base.specs.Limits.{vertex_limit};
ghost use Rattle.ris_base.specs.Safe;
ghost use Rattle.ris_base.specs.declared.analyses.Kind.TheVariants as kind;
ghost use Rattle.ris_base.specs.declared.graphs.PlainGraph.{PlainGraph};
ghost use Rattle.ris_base.specs.declared.updates.Update.{Update};
ghost use Rattle.ris_forest.specs.Cells.{forest_of};
ghost use Rattle.ris_graph.specs.GraphView.{vertex_in, IsOf};
ghost use Rattle.ris_graph.specs.Ticks.{ticked, IsRise};
ghost use Rattle.ris_analysis.specs.Repairing.{first_reach, CanCommitOne, IsDueForOne, IsRepaired};

use ris_algo::Monotone;
use ris_base::{Kind, Meter, NoMemory, Parent, Spec, Triple, Update, Value};
use ris_fall::fallen;
use ris_forest::{Delta, Forest};
use ris_four::{Bfs, Sssp, Sswp, Wcc};
use ris_graph::{Graph, Net};
use ris_repair::{from_scratch, repair};
use ris_safe::{is_safe, is_used_by};
use std::alloc::Global;

/// The forest of an analysis of any of the four kinds.
#[derive(Drop)]
pub enum AnyForest {
    Bfs(Forest<Bfs>),
    Sssp(Forest<Sssp>),
    Sswp(Forest<Sswp>),
    Wcc(Forest<Wcc>),
}

/// The right forest of an algorithm on a graph whose vertices are below `size`, with room for the vertex numbers below it.
fn first_forest<A: Monotone + Drop, M: Meter>(
    alloc: Global,
    graph: &Graph<M>,
    algo: A,
    size: u32,
    meter: &mut M,
) -> Result<Forest<A>, NoMemory>
    requires of { (p : PlainGraph) × IsOf graph.now p }
    requires suits { A.suits algo graph.now.format }
    requires room { (x : ℕ) → IsTrue (vertex_in graph.now x) → x < size }
    ensures algo { IfOk result (λ forest. forest.algo ≡ algo) }
    ensures size { IfOk result (λ forest. length forest.cells ≡ size) }
    ensures right { IfOk result (λ forest. (p : PlainGraph) → IsOf graph.now p → IsForest p (A.spec algo) (forest_of forest.cells)) }
    ensures visits { (p : PlainGraph) → IsOf graph.now p → IsRise (M.ticks meter.old) (M.ticks meter.new) (first_reach p (A.spec algo)) }
    ensures counted { (k : ℕ) × (M.ticks meter.new ≡ ticked (M.ticks meter.old) k) }
{
    let mut forest = Forest::start(alloc, algo, size)?;
    let delta = from_scratch(alloc, graph, &forest, meter)?;
    forest.commit(&delta);
    Ok(forest)
}

/// The changes that make a forest right after a request whose net stands in the graph. Where the net makes no vertex fall
/// and no triple that it adds improves one, there are none, and they take no memory.
fn changes<A: Monotone, M: Meter>(
    alloc: Global,
    graph: &Graph<M>,
    forest: &Forest<A>,
    net: &Net,
    meter: &mut M,
) -> Result<Delta, NoMemory>
    requires due { (p : PlainGraph) × (parts : List Update) × IsDueForOne graph.now net.now (A.spec forest.now.algo) forest.now.cells p parts }
    requires suits { A.suits forest.now.algo graph.now.format }
    ensures repaired { IfOk result (IsRepaired graph.now net.now (A.spec forest.now.algo) forest.now.cells) }
    ensures visits { (p : PlainGraph) (parts : List Update) (n : ℕ) → IsDueForOne graph.now net.now (A.spec forest.now.algo) forest.now.cells p parts
        → IsReachFor p (A.spec forest.now.algo) parts (forest_of forest.now.cells) n → IsRise (M.ticks meter.old) (M.ticks meter.new) n }
    ensures counted { (k : ℕ) × (M.ticks meter.new ≡ ticked (M.ticks meter.old) k) }
{
    let fallen = fallen(alloc, forest, net)?;
    let delta = repair(alloc, graph, forest, &fallen, net, meter)?;
    let _rows = delta.len();
    Ok(delta)
}

/// What one body makes of the forest of each kind.
macro_rules! of_each_kind {
    ($any:expr, $forest:ident => $body:expr) => {
        match $any {
            AnyForest::Bfs($forest) => $body,
            AnyForest::Sssp($forest) => $body,
            AnyForest::Sswp($forest) => $body,
            AnyForest::Wcc($forest) => $body,
        }
    };
}

impl AnyForest {
    ghost use Rattle.ris_analysis.specs.AnyForest.{spec_of, suits_of, cells_of, forest_in, with_delta, IsGrownOne, IsStarted};

    /// The right forest of an analysis on a graph whose vertices are below `size`.
    pub fn start<M: Meter>(
        alloc: Global,
        graph: &Graph<M>,
        spec: Spec,
        size: u32,
        meter: &mut M,
    ) -> Result<AnyForest, NoMemory>
        requires of { (p : PlainGraph) × IsOf graph.now p }
        requires plain { spec.kind ≡ kind.Wcc → spec.root ≡ 0 }
        requires room { (x : ℕ) → IsTrue (vertex_in graph.now x) → x < size }
        ensures started { IfOk result (IsStarted graph.now size spec) }
        ensures visits { (p : PlainGraph) → IsOf graph.now p → IsRise (M.ticks meter.old) (M.ticks meter.new) (first_reach p spec) }
        ensures counted { (k : ℕ) × (M.ticks meter.new ≡ ticked (M.ticks meter.old) k) }
    {
        match spec.kind {
            Kind::Bfs => {
                let forest = first_forest(alloc, graph, Bfs::new(spec.root), size, meter)?;
                Ok(AnyForest::Bfs(forest))
            }
            Kind::Sssp => {
                let forest = first_forest(alloc, graph, Sssp::new(spec.root), size, meter)?;
                Ok(AnyForest::Sssp(forest))
            }
            Kind::Sswp => {
                let algo = Sswp::new(spec.root, graph.format());
                let forest = first_forest(alloc, graph, algo, size, meter)?;
                Ok(AnyForest::Sswp(forest))
            }
            Kind::Wcc => {
                let forest = first_forest(alloc, graph, Wcc::new(), size, meter)?;
                Ok(AnyForest::Wcc(forest))
            }
        }
    }

    /// The value of a vertex number.
    pub fn value(&self, x: u64) -> Value
        ensures { result ≡ (forest_in self.now).value x }
    {
        of_each_kind!(self, forest => forest.value(x))
    }

    /// The parent of a vertex number.
    pub fn parent(&self, x: u64) -> Parent
        ensures { result ≡ (forest_in self.now).parent x }
    {
        of_each_kind!(self, forest => forest.parent(x))
    }

    /// Makes room for the vertex numbers below `size`, which are within the limit.
    pub fn make_room(&mut self, size: u32) -> Result<(), NoMemory>
        ensures room { OnOk result (size ≤ length (cells_of self.new)) }
        ensures grown { IsGrownOne self.old self.new }
        ensures few { size ≤ vertex_limit → length (cells_of self.old) ≤ vertex_limit → length (cells_of self.new) ≤ vertex_limit }
    {
        of_each_kind!(self, forest => forest.make_room(size))
    }

    /// The changes that make the forest right after a request whose net stands in the graph.
    pub fn prepare<M: Meter>(
        &self,
        alloc: Global,
        graph: &Graph<M>,
        net: &Net,
        meter: &mut M,
    ) -> Result<Delta, NoMemory>
        requires due { (p : PlainGraph) × (parts : List Update) × IsDueForOne graph.now net.now (spec_of self.now) (cells_of self.now) p parts }
        requires suits { suits_of self.now graph.now.format }
        ensures repaired { IfOk result (IsRepaired graph.now net.now (spec_of self.now) (cells_of self.now)) }
        ensures visits { (p : PlainGraph) (parts : List Update) (n : ℕ) → IsDueForOne graph.now net.now (spec_of self.now) (cells_of self.now) p parts
            → IsReachFor p (spec_of self.now) parts (forest_in self.now) n → IsRise (M.ticks meter.old) (M.ticks meter.new) n }
        ensures counted { (k : ℕ) × (M.ticks meter.new ≡ ticked (M.ticks meter.old) k) }
    {
        of_each_kind!(self, forest => changes(alloc, graph, forest, net, meter))
    }

    /// Overwrites what a delta names.
    pub fn commit(&mut self, delta: &Delta)
        requires { CanCommitOne (cells_of self.old) delta.now }
        ensures { self.new ≡ with_delta self.old delta.now }
    {
        of_each_kind!(self, forest => forest.commit(delta))
    }

    /// Whether an update is safe for the analysis.
    pub fn is_safe<M>(&self, graph: &Graph<M>, update: &Update) -> bool
        ensures { (p : PlainGraph) → IsOf graph.now p
            → result ≡ (Safe.is_sound p update.now && Safe.is_safe_for p (spec_of self.now) (forest_in self.now) update.now) }
    {
        of_each_kind!(self, forest => is_safe(graph, forest, update))
    }

    /// Whether the parent of one of the triple's ends is along it.
    pub fn is_used(&self, t: Triple) -> bool
        ensures { result ≡ Safe.uses (forest_in self.now) t }
    {
        of_each_kind!(self, forest => is_used_by(forest, t))
    }
}
