ghost use Rattle.std.specs.Prelude.{◌≡◌, OnOk, OnErr};
ghost use Rattle.ris_history.specs.Chains.{grown};

use crate::chains::Chain;
use crate::held::Held;
use ris_base::{NoMemory, Parent, Value};

/// Chains at the end that say nothing, so that there are at least `count`. After `NoMemory` the chains are as before.
pub fn grow(chains: &mut Vec<Chain>, count: usize) -> Result<(), NoMemory>
    ensures ok { OnOk result (chains.new.items ≡ grown count chains.old.items) }
    ensures err { OnErr result (chains.new.items ≡ chains.old.items) }
{
    let before = chains.len();
    let missing = count.saturating_sub(before);
    if chains.reserve(missing).is_err() {
        return Err(NoMemory);
    }
    for _done in 0..missing {
        let empty = Chain::new(Held::new(0, Value::Absent, Parent::None));
        if chains.push(empty).is_err() {
            chains.truncate(before);
            return Err(NoMemory);
        }
    }
    Ok(())
}
