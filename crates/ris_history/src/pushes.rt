ghost use Rattle.std.specs.Prelude.{◌≡◌, ◌<◌, ◌≤◌, ℕ, List, true, length, take, OnOk, OnErr};
ghost use Rattle.ris_history.specs.Chains.{ChainView, number, is_taken, bound_of, with_change, with_changes};
ghost use Rattle.ris_history.specs.Sound.{AllEndBy, with_due, with_dues};

use crate::chains::Chain;
use crate::held::Held;
use crate::numbers::{is_taken, number};
use crate::trims::Due;
use ris_base::{Change, Changes, NoMemory};
use std::alloc::Global;
use std::collections::VecDeque;

/// A change more in its chain and in the queue, where it is taken. After `NoMemory` both are as before.
fn push(
    chains: &mut Vec<Chain>,
    alloc: Global,
    dues: &mut VecDeque<Due>,
    analyses: u32,
    place: u64,
    change: &Change,
) -> Result<(), NoMemory>
    requires room { is_taken analyses change.now ≡ true → number analyses change.now.analysis change.now.vertex < length chains.old.items }
    requires ends { AllEndBy place chains.old.items }
    ensures ok { OnOk result (chains.new.items ≡ with_change analyses place chains.old.items change.now) }
    ensures dues { OnOk result (dues.new.items ≡ with_due analyses place dues.old.items change.now) }
    ensures err { OnErr result (chains.new.items ≡ chains.old.items) }
    ensures err_dues { OnErr result (dues.new.items ≡ dues.old.items) }
{
    if !is_taken(analyses, change) {
        return Ok(());
    }
    let chain = number(analyses, change.analysis, change.vertex);
    if dues.push_back(Due { place, chain }).is_err() {
        return Err(NoMemory);
    }
    let held = Held::new(place, change.value, change.parent);
    if chains[chain].push(alloc, held).is_err() {
        let _ = dues.pop_back();
        return Err(NoMemory);
    }
    Ok(())
}

/// Takes back the last change of the chain of each of the first `count` changes that is taken, from the last one on.
fn take_back(chains: &mut Vec<Chain>, analyses: u32, changes: &Changes, count: u64)
    requires room { bound_of analyses changes.now ≤ length chains.old.items }
    requires count { count ≤ length changes.now }
    ensures { (place : ℕ) (before : List ChainView) → chains.old.items ≡ with_changes analyses place before (take count changes.now) → chains.new.items ≡ before }
{
    for k in (0..count).rev() {
        let change = changes.at(k);
        if is_taken(analyses, change) {
            chains[number(analyses, change.analysis, change.vertex)].pop();
        }
    }
}

/// All changes of an entry in their chains and in the queue. After `NoMemory` both are as before.
pub fn push_all(
    chains: &mut Vec<Chain>,
    alloc: Global,
    dues: &mut VecDeque<Due>,
    analyses: u32,
    place: u64,
    changes: &Changes,
) -> Result<(), NoMemory>
    requires room { bound_of analyses changes.now ≤ length chains.old.items }
    requires ends { AllEndBy place chains.old.items }
    ensures ok { OnOk result (chains.new.items ≡ with_changes analyses place chains.old.items changes.now) }
    ensures dues { OnOk result (dues.new.items ≡ with_dues analyses place dues.old.items changes.now) }
    ensures err { OnErr result (chains.new.items ≡ chains.old.items) }
    ensures err_dues { OnErr result (dues.new.items ≡ dues.old.items) }
{
    let waiting = dues.len();
    for k in 0..changes.len() {
        if push(chains, alloc, dues, analyses, place, changes.at(k)).is_err() {
            take_back(chains, analyses, changes, k);
            dues.truncate(waiting);
            return Err(NoMemory);
        }
    }
    Ok(())
}
