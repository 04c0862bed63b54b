ghost use Rattle.std.specs.Prelude.{◌≡◌, ◌-◌, ◌∷◌, ◌++◌, [], OnOk, OnErr, drop, length, slice_get, take, unwrap_or};
ghost use Rattle.std.specs.List.Sorted.{IsNonDecreasingBy};
ghost use Rattle.std.specs.Option.{option_copied};
ghost use Rattle.ris_history.specs.Chains.{HeldView, latest};

use crate::held::Held;
use ris_base::NoMemory;
use std::alloc::Global;
use std::collections::VecDeque;
use std::marker::Model;

/// The changes of a chain behind its first item, in order. Most chains never get one, so until then the list takes 16 bytes
/// in its chain, and no memory besides.
#[derive(Drop)]
pub struct Later {
    items: Option<Box<VecDeque<Held>>>,
}

impl Model for Later {
    ghost use Rattle.std.specs.Prelude.{List, []};
    ghost use Rattle.std.specs.Option.{option_map_or};
    ghost use Rattle.ris_history.specs.Chains.{HeldView};

    ghost Value = { List HeldView };

    ghost view = { λ l. option_map_or (λ items. items.value.items) l.items [] };
}

impl Later {
    /// No changes. It takes no memory.
    #[inline(always)]
    pub fn new() -> Later
        ensures { result ≡ [] }
    {
        Later { items: None }
    }

    /// The last change of a place up to `v`. `None` exactly where there is no such one. A binary search.
    pub fn latest(&self, v: u64) -> Option<&Held>
        requires { IsNonDecreasingBy (λ held. held.place) self.now }
        ensures { (first : HeldView) → unwrap_or (option_copied result) first ≡ latest (record { first = first; later = self.now }) v }
    {
        let Some(items) = &self.items else {
            return None;
        };
        let count = items.partition_point(|held| held.place() <= v);
        if count == 0 {
            None
        } else {
            Some(&items[count - 1])
        }
    }

    /// One change more, at the end. After `NoMemory` the changes are as before.
    pub fn push(&mut self, alloc: Global, held: Held) -> Result<(), NoMemory>
        ensures ok { OnOk result (self.new ≡ self.old ++ held ∷ []) }
        ensures err { OnErr result (self.new ≡ self.old) }
    {
        match &mut self.items {
            Some(items) => items.push_back(held)?,
            None => {
                let mut items = VecDeque::new(alloc);
                items.push_back(held)?;
                self.items = Some(Box::new(alloc, items)?);
            }
        }
        Ok(())
    }

    /// Takes back the last change, where there is one.
    pub fn pop_back(&mut self)
        ensures { self.new ≡ take (length self.old - 1) self.old }
    {
        if let Some(items) = &mut self.items {
            let _ = items.pop_back();
        }
    }

    /// Takes the first change, where there is one.
    pub fn pop_front(&mut self) -> Option<Held>
        ensures first { result ≡ slice_get self.old 0 }
        ensures rest { self.new ≡ drop 1 self.old }
    {
        match &mut self.items {
            Some(items) => items.pop_front(),
            None => None,
        }
    }
}
