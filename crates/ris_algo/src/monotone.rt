ghost use Rattle.std.specs.Prelude.{◌≡◌, ◌<◌, ◌^◌, ℕ, Bool, Option};
ghost use Rattle.ris_base.specs.declared.analyses.Spec.{Spec};
ghost use Rattle.ris_base.specs.declared.graphs.Format.{Format};
ghost use Rattle.ris_algo.specs.Laws.{IsMonotone, IsOfTable, IsAnalysis};

/// An analysis whose values are reached by steps along triples from the start values of some vertices: a monotone
/// path problem, as in Dijkstra's algorithm for shortest paths and its variants for widest paths and least labels.
pub trait Monotone {
    /// The analysis that this is.
    ghost spec: { Self → Spec };

    /// The formats of the graphs for which this is that analysis.
    ghost suits: { Self → Format → Type 0 };

    /// The start value of a vertex number.
    ghost start_of: { Self → ℕ → Option ℕ };

    /// What one more triple of a weight makes of a value.
    ghost step_of: { Self → ℕ → ℕ → ℕ };

    /// Whether the first value is better than the second.
    ghost better_of: { Self → ℕ → ℕ → Bool };

    ghost BOTH_WAYS: { Bool };

    /// Whether triples may be walked from their targets to their sources too.
    const BOTH_WAYS: bool;

    /// The value with which walks begin at `x`. `None` exactly where none begins there.
    fn start(&self, x: u32) -> Option<u64>
        ensures { result ≡ start_of self.now x };

    /// What one more triple of this weight makes of a value.
    fn step(&self, value: u64, weight: u64) -> u64
        requires value { value < 2 ^ 59 }
        requires weight { weight < 2 ^ 36 }
        ensures { result ≡ step_of self.now value weight };

    /// Whether `a` is better than `b`.
    fn better(&self, a: u64, b: u64) -> bool
        ensures { result ≡ better_of self.now a b };

    ghost laws: { (s : Self) → IsMonotone (start_of s) (step_of s) (better_of s) };

    ghost of_table: { (s : Self) → IsOfTable (spec s) (suits s) (start_of s) (step_of s) (better_of s) BOTH_WAYS };

    ghost meaning: { (s : Self) → IsAnalysis (spec s) (suits s) (start_of s) (step_of s) (better_of s) BOTH_WAYS };
}
