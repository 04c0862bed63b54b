ghost use Rattle.std.specs.Prelude.{◌≡◌, ◌≤◌, length};
ghost use Rattle.ris_base.specs.Safe;
ghost use Rattle.ris_base.specs.declared.graphs.PlainGraph.{PlainGraph};
ghost use Rattle.ris_graph.specs.GraphView.{IsOf};
ghost use Rattle.ris_analysis.specs.Analyses.{specs_of, forests_of};

use crate::Analyses;
use crate::kinds::AnyForest;
use ris_base::{Triple, Update};
use ris_graph::Graph;
use ris_safe::Judge;

/// Whether an update is safe for each of some analyses, of which there is one at least.
fn all_safe<M>(forests: &[AnyForest], graph: &Graph<M>, update: &Update) -> bool
    requires { 1 ≤ length forests.now }
    ensures { (p : PlainGraph) → IsOf graph.now p
        → result ≡ Safe.is_safe p (specs_of forests.now) (forests_of forests.now) update.now }
{
    for forest in forests {
        if !forest.is_safe(graph, update) {
            return false;
        }
    }
    true
}

/// The forests of all analyses judge for all: an update is safe where it is for each, and a triple is used where some
/// forest uses it.
impl Judge for Analyses {
    ghost specs = { specs_of };

    ghost forests = { forests_of };

    fn safe<M>(&self, graph: &Graph<M>, update: &Update) -> bool {
        all_safe(self.forests(), graph, update)
    }

    fn used(&self, t: Triple) -> bool {
        self.forests().iter().any(|forest| forest.is_used(t))
    }
}
