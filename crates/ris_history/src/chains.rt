ghost use Rattle.std.specs.Prelude.{◌≡◌, ◌≤◌, ◌-◌, [], All, OnOk, OnErr, length, take};
ghost use Rattle.ris_history.specs.Chains.{latest, pushed, advanced, drops};

use crate::held::Held;
use crate::laters::Later;
use ris_base::NoMemory;
use std::alloc::Global;
use std::marker::Model;
use std::mem::size_of;

/// What held of one vertex by one analysis: a first item, and the changes after it in order of their places. The first
/// item is what there was at place 0, or a change. There is a chain for each vertex and analysis, so it is kept small.
#[derive(Drop)]
pub struct Chain {
    first: Held,
    later: Later,
}

const _: () = prove!(size_of::<Chain>() == 56);

impl Model for Chain {
    ghost use Rattle.std.specs.List.Sorted.{IsNonDecreasingBy};
    ghost use Rattle.ris_history.specs.Chains.{ChainView};

    ghost Value = { ChainView };

    ghost view = { λ c. record { first = c.first; later = c.later } };

    ghost invariant = { λ c. IsNonDecreasingBy (λ held. held.place) c.later };
}

impl Chain {
    /// A chain of one item. It takes no memory.
    #[inline(always)]
    pub fn new(first: Held) -> Chain
        ensures { result ≡ record { first = first; later = [] } }
    {
        Chain {
            first,
            later: Later::new(),
        }
    }

    /// What holds at the place `v`: the last item of a place up to `v`, or the first one. A binary search.
    pub fn latest(&self, v: u64) -> &Held
        ensures { result.now ≡ latest self.now v }
    {
        match self.later.latest(v) {
            Some(held) => held,
            None => &self.first,
        }
    }

    /// One change more, whose place isn't below those before it. After `NoMemory` the chain is as before.
    pub fn push(&mut self, alloc: Global, held: Held) -> Result<(), NoMemory>
        requires { All (λ earlier. earlier.place ≤ held.place) self.old.later }
        ensures ok { OnOk result (self.new ≡ pushed held self.old) }
        ensures err { OnErr result (self.new ≡ self.old) }
    {
        self.later.push(alloc, held)
    }

    /// Takes back the last change, where there is one.
    pub fn pop(&mut self)
        ensures { self.new ≡ record self.old { later = take (length self.old.later - 1) self.old.later } }
    {
        self.later.pop_back();
    }

    /// Drops the first item where there is a change behind it, which then is the first, and tells whether it did.
    pub fn advance(&mut self) -> bool
        ensures after { self.new ≡ advanced self.old }
        ensures dropped { result ≡ drops self.old }
    {
        match self.later.pop_front() {
            Some(next) => {
                let drops = self.first.place() > 0;
                self.first = next;
                drops
            }
            None => false,
        }
    }
}
