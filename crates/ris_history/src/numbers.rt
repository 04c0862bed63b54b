ghost use Rattle.std.specs.Prelude.{◌≡◌, ◌+◌, ◌*◌, ◌^◌, ◌<◌};
ghost use Rattle.ris_history.specs.Chains.{number, is_taken, bound_of};

use ris_base::{Change, Changes, VERTEX_LIMIT};

/// The number of a chain.
pub fn number(analyses: u32, a: u32, x: u32) -> usize
    ensures value { result ≡ number analyses a x }
    ensures small { result + 1 < 2 ^ 64 }
    ensures within { a < analyses → result < 4294967296 * analyses }
{
    x as usize * analyses as usize + a as usize
}

/// Whether a change names one of the analyses, and a vertex number within the limit.
pub fn is_taken(analyses: u32, change: &Change) -> bool
    ensures { result ≡ is_taken analyses change.now }
{
    change.analysis < analyses && u64::from(change.vertex) < VERTEX_LIMIT
}

/// How many chains the changes need.
pub fn bound_of(analyses: u32, changes: &Changes) -> usize
    ensures { result ≡ bound_of analyses changes.now }
{
    let mut bound = 0;
    for k in 0..changes.len() {
        let change = changes.at(k);
        if is_taken(analyses, change) {
            bound = bound.max(number(analyses, change.analysis, change.vertex) + 1);
        }
    }
    bound
}
