ghost use Rattle.std.specs.Prelude.{◌≡◌, ◌≢◌, ◌↔◌, ◌≤◌, ◌<◌, ◌+◌, [], ◌∷◌, ◌++◌, length, slice_get, IfOk, IsOk, IsOkAnd, OnOk, OnErr, MatchOption};
ghost use Rattle.std.specs.Option.{option_copied};
ghost use Rattle.ris_base.specs.Listed.{IsThrifty, updates_of};

use crate::{NoMemory, PART_LIMIT, Update};
use std::alloc::Global;
use std::marker::Model;

/// Updates in order. Up to one of them takes no memory of its own.
#[derive(Drop)]
pub(crate) enum Listed {
    None,
    One(Update),
    Many(Vec<Update>),
}

impl Listed {
    /// The number of updates.
    fn len(&self) -> u64
        ensures { result ≡ length (updates_of self.now) }
    {
        match self {
            Listed::None => 0,
            Listed::One(_) => 1,
            Listed::Many(updates) => updates.len() as u64,
        }
    }

    /// The update number `k`, counted from 0. `None` exactly where there is no such update.
    fn get(&self, k: u64) -> Option<&Update>
        ensures { option_copied result ≡ slice_get (updates_of self.now) k }
    {
        match self {
            Listed::None => None,
            Listed::One(update) => { if k == 0 { Some(update) } else { None } }
            Listed::Many(updates) => updates.get(k as usize),
        }
    }

    /// One update more, at the end. After `NoMemory` the updates are as before.
    #[inline(always)]
    fn push(&mut self, alloc: Global, update: Update) -> Result<(), NoMemory>
        requires { IsThrifty self.old }
        ensures ok { OnOk result (updates_of self.new ≡ updates_of self.old ++ update ∷ []) }
        ensures err { OnErr result (updates_of self.new ≡ updates_of self.old) }
        ensures first { updates_of self.old ≡ [] → IsOk result }
        ensures thrifty { IsThrifty self.new }
    {
        match self {
            Listed::None => {
                *self = Listed::One(update);
                Ok(())
            }
            Listed::One(first) => {
                let updates = two(alloc, *first, update)?;
                *self = Listed::Many(updates);
                Ok(())
            }
            Listed::Many(updates) => {
                updates.push(update)?;
                Ok(())
            }
        }
    }

    /// Equal updates.
    fn copy(&self, alloc: Global) -> Result<Listed, NoMemory>
        ensures { IfOk result (λ copy. updates_of copy ≡ updates_of self.now) }
    {
        match self {
            Listed::None => Ok(Listed::None),
            Listed::One(update) => Ok(Listed::One(*update)),
            Listed::Many(updates) => {
                let copies = Vec::from_slice(alloc, updates)?;
                Ok(Listed::Many(copies))
            }
        }
    }
}

/// Two updates.
fn two(alloc: Global, first: Update, second: Update) -> Result<Vec<Update>, NoMemory>
    ensures { IfOk result (λ updates. updates.items ≡ first ∷ second ∷ []) }
{
    let mut updates = Vec::with_capacity(alloc, 4)?;
    updates.push(first)?;
    updates.push(second)?;
    Ok(updates)
}

/// The parts of a request, in order: 1 to 1,024 updates. A builder alone makes it. A request of one part takes no memory.
#[derive(Drop)]
pub struct Parts {
    listed: Listed,
}

impl Model for Parts {
    ghost use Rattle.std.specs.Prelude.{List, ◌≤◌, length};
    ghost use Rattle.ris_base.specs.Listed.{updates_of};
    ghost use Rattle.ris_base.specs.declared.updates.Update.{Update};

    ghost Value = { List Update };

    ghost view = { λ p. updates_of p.listed };

    ghost invariant = { λ p. (1 ≤ length (updates_of p.listed)) × (length (updates_of p.listed) ≤ 1024) };
}

impl Parts {
    /// The number of parts, which is 1 to 1,024.
    pub fn len(&self) -> u64
        ensures len { result ≡ length self.now }
        ensures some { 1 ≤ result }
        ensures few { result ≤ 1024 }
    {
        self.listed.len()
    }

    /// The part number `k`, counted from 0. `None` exactly where there is no such part.
    pub fn get(&self, k: u64) -> Option<&Update>
        ensures { option_copied result ≡ slice_get self.now k }
    {
        self.listed.get(k)
    }

    /// Equal parts. It takes memory only where there are two or more.
    pub fn copy(&self, alloc: Global) -> Result<Parts, NoMemory>
        ensures { IfOk result (λ copy. copy ≡ self.now) }
    {
        let listed = self.listed.copy(alloc)?;
        Ok(Parts { listed })
    }
}

/// Why a part was not taken: there are 1,024 already, or memory was wanted.
#[derive(Clone, Copy, Debug, PartialEq, Eq)]
pub enum PartsFault {
    PartsFull,
    NoMemory,
}

/// The parts of a request that is being put together: at most 1,024 updates.
#[derive(Drop)]
pub struct PartsBuilder {
    listed: Listed,
    alloc: Global,
}

impl Model for PartsBuilder {
    ghost use Rattle.std.specs.Prelude.{List, ◌≤◌, length};
    ghost use Rattle.ris_base.specs.Listed.{IsThrifty, updates_of};
    ghost use Rattle.ris_base.specs.declared.updates.Update.{Update};

    ghost Value = { List Update };

    ghost view = { λ p. updates_of p.listed };

    ghost invariant = { λ p. (length (updates_of p.listed) ≤ 1024) × IsThrifty p.listed };
}

impl PartsBuilder {
    /// No parts yet. It takes no memory, so it is always `Ok`.
    pub fn new(alloc: Global) -> Result<PartsBuilder, NoMemory>
        ensures { IsOkAnd result (λ builder. builder ≡ []) }
    {
        Ok(PartsBuilder {
            listed: Listed::None,
            alloc,
        })
    }

    /// One part more. `PartsFull` exactly at 1,024 parts; after a fault the builder is unchanged. The first part takes no
    /// memory.
    #[inline(always)]
    pub fn push(&mut self, update: Update) -> Result<(), PartsFault>
        ensures ok { OnOk result (self.new ≡ self.old ++ update ∷ []) }
        ensures err { OnErr result (self.new ≡ self.old) }
        ensures full { (result ≡ Err PartsFault.PartsFull) ↔ (length self.old ≡ 1024) }
        ensures first { self.old ≡ [] → IsOk result }
    {
        if self.listed.len() >= PART_LIMIT {
            return Err(PartsFault::PartsFull);
        }
        match self.listed.push(self.alloc, update) {
            Ok(()) => Ok(()),
            Err(NoMemory) => Err(PartsFault::NoMemory),
        }
    }

    /// The parts. `None` exactly where there are none.
    #[inline(always)]
    pub fn close(self) -> Option<Parts>
        ensures { MatchOption result (self ≡ []) (λ parts. (self ≢ []) × (parts ≡ self)) }
    {
        let PartsBuilder { listed, alloc: _ } = self;
        if listed.len() == 0 {
            return None;
        }
        Some(Parts { listed })
    }
}
