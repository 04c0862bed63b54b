ghost use Rattle.std.specs.Prelude.{◌≡◌, true, false, ⊤};
ghost use Rattle.ris_algo.proofs.Four.{laws_in, table_in, meaning_in};
ghost use Rattle.ris_algo.specs.Laws.{start_in};
ghost use Rattle.ris_base.specs.Analysis.{step, better};
ghost use Rattle.ris_base.specs.declared.analyses.Kind.TheVariants.{Wcc as kind};
ghost use Rattle.ris_base.specs.declared.graphs.Format.{Format};
ghost use Rattle.ris_base.specs.declared.graphs.Format.TheVariants.{One};

use ris_algo::Monotone;

/// Components: the least vertex number from which triples, walked either way, lead to a vertex.
#[derive(Clone, Copy, Debug)]
pub struct Wcc;

impl Wcc {
    /// The analysis. It has no root; that of its spec is 0.
    pub fn new() -> Wcc
        ensures spec { ⟦<Wcc as Monotone>⟧.spec result ≡ record { kind = kind; root = 0 } }
        ensures suits { (format : Format) → ⟦<Wcc as Monotone>⟧.suits result format }
    {
        Wcc
    }
}

impl Monotone for Wcc {
    ghost spec = { λ s. record { kind = kind; root = 0 } };

    ghost suits = { λ s format. ⊤ };

    ghost start_of = { λ s. start_in One (record { kind = kind; root = 0 }) };

    ghost step_of = { λ s. step kind };

    ghost better_of = { λ s. better kind };

    ghost BOTH_WAYS = { true };

    const BOTH_WAYS: bool = true;

    fn start(&self, x: u32) -> Option<u64> {
        Some(x as u64)
    }

    fn step(&self, value: u64, weight: u64) -> u64 {
        value
    }

    fn better(&self, a: u64, b: u64) -> bool {
        a < b
    }

    ghost laws = { λ s. laws_in One (record { kind = kind; root = 0 }) };

    ghost of_table = { λ s. table_in One (record { kind = kind; root = 0 }) };

    ghost meaning = { λ s. meaning_in One (record { kind = kind; root = 0 }) };
}
