ghost use Rattle.std.specs.Prelude.{◌≡◌, ◌<◌, ◌^◌, ℕ, IfOk, length};
ghost use Rattle.std.specs.List.{All};
ghost use Rattle.ris_four.specs.Neighbours.{IsListed, AreWithin};
ghost use Rattle.ris_four.specs.Rounds.{IsBelow, improved_value, best_value, next_value, next_values, values_after};

use crate::neighbours::Neighbour;
use crate::tables::is_same;
use rayon::prelude::*;
use ris_algo::Monotone;
use ris_base::{NoMemory, Value};
use std::alloc::Global;
use std::thread::Threads;

/// A thread takes at least so many vertices of a round: it costs more to start one for fewer.
const LEAST_SHARE: usize = 65_536;

/// A vertex's value, or what a step from a neighbour's value over a weight makes, where that is better.
fn improved<A: Monotone>(algo: &A, present: Value, from: Value, weight: u64) -> Value
    requires from { IsBelow (2 ^ 59) from }
    requires weight { weight < 2 ^ 36 }
    ensures { result ≡ improved_value (A.step_of algo.now) (A.better_of algo.now) present from weight }
{
    let Value::Num(value) = from else {
        return present;
    };
    let stepped = algo.step(value, weight);
    match present {
        Value::Num(held) if !algo.better(stepped, held) => present,
        _ => Value::Num(stepped),
    }
}

/// The best of a vertex's value and the steps from its neighbours' values.
fn best<A: Monotone>(algo: &A, values: &[Value], present: Value, neighbours: &[Neighbour]) -> Value
    requires values { All (IsBelow (2 ^ 59)) values.now }
    requires neighbours { All (IsListed (length values.now)) neighbours.now }
    ensures { result ≡ best_value (A.step_of algo.now) (A.better_of algo.now) values.now present neighbours.now }
{
    let mut best = present;
    for n in neighbours {
        best = improved(algo, best, values[n.other as usize], n.weight);
    }
    best
}

/// The table after a round, in which every vertex number's value is made anew from the values before the round,
/// side by side in several threads.
fn next_values<R: Threads + Sync, A: Monotone + Sync>(
    rt: &R,
    alloc: Global,
    algo: &A,
    values: &[Value],
    lists: &[Vec<Neighbour>],
) -> Result<Vec<Value>, NoMemory>
    requires lists { length lists.now ≡ length values.now }
    requires values { All (IsBelow (2 ^ 59)) values.now }
    requires neighbours { AreWithin (length values.now) lists.now }
    ensures { IfOk result (λ next. next.items ≡ next_values (A.step_of algo.now) (A.better_of algo.now) lists.now values.now) }
{
    let next = (0..values.len())
        .into_par_iter()
        .with_min_len(LEAST_SHARE)
        .map(
            |x: usize| -> Value
                requires place { x < length values.now }
                requires list { x < length lists.now }
                requires values { All (IsBelow (2 ^ 59)) values.now }
                requires neighbours { AreWithin (length values.now) lists.now }
                ensures { result ≡ next_value (A.step_of algo.entry.now) (A.better_of algo.entry.now) lists.entry.now values.entry.now x }
            { best(algo, values, values[x], &lists[x]) },
        )
        .collect(rt, alloc)?;
    Ok(next)
}

/// The table after so many rounds. Once a round changes nothing no later one does, and the rounds stop there.
pub(crate) fn values_after<R: Threads + Sync, A: Monotone + Sync>(
    rt: &R,
    alloc: Global,
    algo: &A,
    first: Vec<Value>,
    lists: &[Vec<Neighbour>],
    rounds: usize,
) -> Result<Vec<Value>, NoMemory>
    requires lists { length lists.now ≡ length first.items }
    requires neighbours { AreWithin (length first.items) lists.now }
    requires values { (k : ℕ) → k < rounds → All (IsBelow (2 ^ 59)) (values_after (A.step_of algo.now) (A.better_of algo.now) lists.now k first.items) }
    ensures { IfOk result
        (λ last. last.items ≡ values_after (A.step_of algo.now) (A.better_of algo.now) lists.now rounds first.items) }
{
    let mut values = first;
    for _done in 0..rounds {
        let next = next_values(rt, alloc, algo, &values, lists)?;
        if is_same(&values, &next) {
            return Ok(values);
        }
        values = next;
    }
    Ok(values)
}
