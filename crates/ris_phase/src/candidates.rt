ghost use Rattle.std.specs.Prelude.{◌≡◌, [], ◌∷◌};
ghost use Rattle.ris_base.specs.Safe;
ghost use Rattle.ris_base.specs.declared.graphs.PlainGraph.{PlainGraph};
ghost use Rattle.ris_graph.specs.GraphView.{IsOf};

use ris_base::Update;
use ris_graph::Graph;
use ris_safe::Judge;

/// Whether a request whose one part is this update is a candidate, which may be decided in parallel: the update is within
/// the limits of the graph's format, names vertices of the graph, and is safe for all analyses. A request of more parts
/// never is. It visits nothing and takes no memory.
pub fn is_candidate<J: Judge, M>(graph: &Graph<M>, judge: &J, update: &Update) -> bool
    ensures { (p : PlainGraph) → IsOf graph.now p
        → result ≡ Safe.is_candidate p (J.specs judge.now) (J.forests judge.now) (update.now ∷ []) }
{
    judge.safe(graph, update)
}
