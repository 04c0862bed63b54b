ghost use Rattle.std.specs.Prelude.{◌≡◌, true, false, ⊤};
ghost use Rattle.ris_algo.proofs.Four.{laws_in, table_in, meaning_in};
ghost use Rattle.ris_algo.specs.Laws.{start_in};
ghost use Rattle.ris_base.specs.Analysis.{step, better};
ghost use Rattle.ris_base.specs.declared.analyses.Kind.TheVariants.{Sssp as kind};
ghost use Rattle.ris_base.specs.declared.graphs.Format.{Format};
ghost use Rattle.ris_base.specs.declared.graphs.Format.TheVariants.{One};

use ris_algo::Monotone;

/// Shortest path: the least sum of the weights of a walk from the root.
#[derive(Clone, Copy, Debug)]
pub struct Sssp {
    root: u32,
}

impl Sssp {
    /// The analysis from this root. A root that isn't in the graph reaches nothing.
    pub fn new(root: u32) -> Sssp
        ensures spec { ⟦<Sssp as Monotone>⟧.spec result ≡ record { kind = kind; root = root } }
        ensures suits { (format : Format) → ⟦<Sssp as Monotone>⟧.suits result format }
    {
        Sssp { root }
    }
}

impl Monotone for Sssp {
    ghost spec = { λ s. record { kind = kind; root = s.root } };

    ghost suits = { λ s format. ⊤ };

    ghost start_of = { λ s. start_in One (record { kind = kind; root = s.root }) };

    ghost step_of = { λ s. step kind };

    ghost better_of = { λ s. better kind };

    ghost BOTH_WAYS = { false };

    const BOTH_WAYS: bool = false;

    fn start(&self, x: u32) -> Option<u64> {
        if x == self.root { Some(0) } else { None }
    }

    fn step(&self, value: u64, weight: u64) -> u64 {
        value + weight
    }

    fn better(&self, a: u64, b: u64) -> bool {
        a < b
    }

    ghost laws = { λ s. laws_in One (record { kind = kind; root = s.root }) };

    ghost of_table = { λ s. table_in One (record { kind = kind; root = s.root }) };

    ghost meaning = { λ s. meaning_in One (record { kind = kind; root = s.root }) };
}
