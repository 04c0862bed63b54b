ghost use Rattle.std.specs.Prelude.{◌≡◌, ◌↔◌, true, false};
ghost use Rattle.ris_algo.proofs.Four.{laws_in, table_in, meaning_in};
ghost use Rattle.ris_algo.specs.Laws.{start_in};
ghost use Rattle.ris_base.specs.Analysis.{step, better};
ghost use Rattle.ris_base.specs.declared.analyses.Kind.TheVariants.{Sswp as kind};
ghost use Rattle.ris_base.specs.declared.graphs.Format.{Format};

use ris_algo::Monotone;
use ris_base::Format;

/// Widest path: the greatest of the least weights of walks from the root. The walk with no triple has one more than
/// the greatest weight: 4,294,967,296 in format one, 68,719,476,736 in format two.
#[derive(Clone, Copy, Debug)]
pub struct Sswp {
    root: u32,
    format: Format,
}

impl Sswp {
    /// The analysis from this root, of graphs of this format. A root that isn't in the graph reaches nothing.
    pub fn new(root: u32, format: Format) -> Sswp
        ensures spec { ⟦<Sswp as Monotone>⟧.spec result ≡ record { kind = kind; root = root } }
        ensures suits { (other : Format) → ⟦<Sswp as Monotone>⟧.suits result other ↔ (other ≡ format) }
    {
        Sswp { root, format }
    }
}

impl Monotone for Sswp {
    ghost spec = { λ s. record { kind = kind; root = s.root } };

    ghost suits = { λ s format. format ≡ s.format };

    ghost start_of = { λ s. start_in s.format (record { kind = kind; root = s.root }) };

    ghost step_of = { λ s. step kind };

    ghost better_of = { λ s. better kind };

    ghost BOTH_WAYS = { false };

    const BOTH_WAYS: bool = false;

    fn start(&self, x: u32) -> Option<u64> {
        if x == self.root {
            Some(self.format.max_weight() + 1)
        } else {
            None
        }
    }

    fn step(&self, value: u64, weight: u64) -> u64 {
        value.min(weight)
    }

    fn better(&self, a: u64, b: u64) -> bool {
        b < a
    }

    ghost laws = { λ s. laws_in s.format (record { kind = kind; root = s.root }) };

    ghost of_table = { λ s. table_in s.format (record { kind = kind; root = s.root }) };

    ghost meaning = { λ s. meaning_in s.format (record { kind = kind; root = s.root }) };
}
