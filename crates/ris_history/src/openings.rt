ghost use Rattle.std.specs.Prelude.{◌≡◌, ◌≢◌, ◌+◌, ◌*◌, ◌^◌, ◌<◌, ◌≤◌, ℕ, List, [], IsTrue, ◌↔◌, IfOk, IfSome, IsNone, length, slice_get, slice_index};
ghost use Rattle.std.specs.Option.{option_copied};
ghost use Rattle.ris_base.specs.declared.forests.ForestRow.{ForestRow};
ghost use Rattle.ris_history.specs.Chains.{number, with_forests};
ghost use Rattle.ris_history.specs.Sound.{IsWithinSize};

use crate::chains::Chain;
use crate::held::Held;
use crate::numbers::number;
use ris_base::{ForestRow, ForestRows, Forests, NoMemory, Parent, Value};
use std::alloc::Global;

/// How many chains the last rows of the forests of place 0 need. Rows ascend, so these are as many as all rows need.
fn bound_for(analyses: u32, forests: &Forests) -> usize
    requires { analyses ≡ length forests.now }
    ensures needed { result ≤ length (with_forests analyses 0 forests.now []) }
    ensures within { result ≤ 4294967296 * analyses }
{
    let mut bound = 0;
    for a in 0..analyses {
        let rows = forests.at(u64::from(a));
        if let Some(last) = rows.get(rows.len().saturating_sub(1)) {
            bound = bound.max(number(analyses, a, last.vertex) + 1);
        }
    }
    bound
}

/// The row number `taken` of a forest of place 0, where it is of the vertex `x`.
#[inline(always)]
fn row_at(rows: &ForestRows, taken: u64, x: u64) -> Option<&ForestRow>
    ensures some { IfSome (option_copied result) (λ row. (slice_get rows.now taken ≡ Some row) × (row.vertex ≡ x)) }
    ensures none { IsNone result → (row : ForestRow) → slice_get rows.now taken ≡ Some row → row.vertex ≢ x }
{
    match rows.get(taken) {
        Some(row) if u64::from(row.vertex) == x => Some(row),
        _ => None,
    }
}

/// The vertex and the analysis of the chain behind that of the vertex `x` and the analysis `a`.
#[inline(always)]
fn following(analyses: u32, x: u64, a: u32) -> (u64, u32)
    requires within { a < analyses }
    requires small { number analyses a x + 1 < 2 ^ 64 }
    ensures number { number analyses result.1 result.0 ≡ number analyses a x + 1 }
    ensures within { result.1 < analyses }
{
    if a + 1 < analyses {
        (x, a + 1)
    } else {
        (x + 1, 0)
    }
}

/// Whether so many rows of each forest are all that there are.
fn are_all(forests: &Forests, taken: &[u64]) -> bool
    requires { length taken.now ≡ length forests.now }
    ensures { IsTrue result ↔ ((b : ℕ) (rows : List ForestRow) → slice_get forests.now b ≡ Some rows → length rows ≤ slice_index taken.now b) }
{
    for a in 0..forests.len() {
        if taken[a as usize] < forests.at(a).len() {
            return false;
        }
    }
    true
}

/// The chains of the forests of place 0, each made once, in order of their numbers: that of a vertex by an analysis begins
/// with the row of the vertex in the forest, where it has one. Rows ascend, so each is the next of its forest when its
/// vertex comes, and in the end none is left; if one were, the answer would be `NoMemory`.
pub fn opened_chains(
    alloc: Global,
    analyses: u32,
    forests: &Forests,
) -> Result<Vec<Chain>, NoMemory>
    requires { analyses ≡ length forests.now }
    ensures chains { IfOk result (λ chains. chains.items ≡ with_forests analyses 0 forests.now []) }
    ensures size { IfOk result (λ chains. IsWithinSize analyses chains.items) }
{
    let bound = bound_for(analyses, forests);
    let mut chains = Vec::with_capacity(alloc, bound)?;
    let mut taken = vec![in alloc; 0_u64; analyses as usize]?;
    let (mut x, mut a) = (0, 0);
    for _number in 0..bound {
        let held = match row_at(forests.at(u64::from(a)), taken[a as usize], x) {
            Some(row) => {
                taken[a as usize] += 1;
                Held::new(0, row.value, row.parent)
            }
            None => Held::new(0, Value::Absent, Parent::None),
        };
        chains.push(Chain::new(held))?;
        (x, a) = following(analyses, x, a);
    }
    if !are_all(forests, &taken) {
        return Err(NoMemory);
    }
    Ok(chains)
}
