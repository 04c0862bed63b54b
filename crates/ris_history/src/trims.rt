ghost use Rattle.std.specs.Prelude.{◌≡◌, ◌∷◌, ◌≤◌, ℕ, map, All, MatchOption};
ghost use Rattle.ris_history.specs.Chains.{trimmed};
ghost use Rattle.ris_history.specs.Sound.{AreInOrder, IsDueBy, IsPast};

use crate::chains::Chain;
use std::collections::VecDeque;

/// A change that isn't the first item of its chain: its place, and the number of the chain.
#[derive(Clone, Copy, Debug, PartialEq, Eq)]
pub struct Due {
    pub place: u64,
    pub chain: usize,
}

/// The first due of the queue, where its place is at most `floor`. It is then gone from the queue.
fn take_due(dues: &mut VecDeque<Due>, floor: u64) -> Option<Due>
    ensures { MatchOption result (IsPast floor dues.old.items dues.new.items) (λ due. (dues.old.items ≡ due ∷ dues.new.items) × (due.place ≤ floor)) }
{
    let first = *dues.front()?;
    if first.place > floor {
        return None;
    }
    dues.pop_front()
}

/// Trims the chains to what the places from `floor` on need, where `kept` changes are kept. How many are kept then.
pub fn trim(chains: &mut Vec<Chain>, dues: &mut VecDeque<Due>, mut kept: u64, floor: u64) -> u64
    requires { AreInOrder dues.old.items chains.old.items kept }
    ensures chains { chains.new.items ≡ map (trimmed floor) chains.old.items }
    ensures order { AreInOrder dues.new.items chains.new.items result }
    ensures ends { (n : ℕ) → All (IsDueBy n) dues.old.items → All (IsDueBy n) dues.new.items }
{
    while let Some(due) = take_due(dues, floor) {
        if chains[due.chain].advance() {
            kept -= 1;
        }
    }
    kept
}
