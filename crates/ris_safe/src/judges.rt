ghost use Rattle.std.specs.Prelude.{◌≡◌, List, [], ◌∷◌};
ghost use Rattle.ris_base.specs.Forest;
ghost use Rattle.ris_base.specs.Safe;
ghost use Rattle.ris_base.specs.declared.analyses.Spec.{Spec};
ghost use Rattle.ris_base.specs.declared.graphs.PlainGraph.{PlainGraph};
ghost use Rattle.ris_forest.specs.Cells.{forest_of};
ghost use Rattle.ris_graph.specs.GraphView.{IsOf};

use crate::safety::{is_safe, is_used_by};
use ris_algo::Monotone;
use ris_base::{Triple, Update};
use ris_forest::Forest;
use ris_graph::Graph;

/// What judges updates by the forests of all analyses.
pub trait Judge {
    /// The analyses, in their order.
    ghost specs: { Self → List Spec };

    /// The forest of each analysis.
    ghost forests: { Self → List Forest.Forest };

    /// Whether an update of the graph is safe for all analyses.
    fn safe<M>(&self, graph: &Graph<M>, update: &Update) -> bool
        ensures { (p : PlainGraph) → IsOf graph.now p → result ≡ Safe.is_safe p (specs self.now) (forests self.now) update.now };

    /// Whether some forest uses a triple: the parent of one of its ends is along it.
    fn used(&self, t: Triple) -> bool
        ensures { result ≡ Safe.is_used (forests self.now) t };
}

/// The forest of the one analysis judges for it alone.
impl<A: Monotone> Judge for Forest<A> {
    ghost specs = { λ f. A.spec f.algo ∷ [] };

    ghost forests = { λ f. forest_of f.cells ∷ [] };

    fn safe<M>(&self, graph: &Graph<M>, update: &Update) -> bool {
        is_safe(graph, self, update)
    }

    fn used(&self, t: Triple) -> bool {
        is_used_by(self, t)
    }
}
