ghost use Rattle.std.specs.Prelude.{◌≡◌, ◌==◌, [], ◌∷◌, ◌++◌, List, length, drop, OnOk, OnErr, IfOk, Some, slice_get, ◌<◌};
ghost use Rattle.std.specs.Option.{option_copied};

use crate::NoMemory;
use std::alloc::Global;
use std::collections::VecDeque;
use std::marker::Model;

/// A list of items, which contracts see as a list. It is made from a `Vec` and gives it back without taking memory.
#[derive(Drop)]
pub struct Sequence<T> {
    items: VecDeque<T>,
}

impl<T> Model for Sequence<T> {
    ghost use Rattle.std.specs.Prelude.{List};
    ghost use Rattle.std.specs.Coded.{coded_list};

    ghost Value = { List T };

    ghost coded = { coded_list T.code };

    ghost view = { λ s. s.items.items };
}

impl<T: Drop> Sequence<T> {
    /// An empty list. It takes no memory.
    pub fn new(alloc: Global) -> Self
        ensures { result ≡ [] }
    {
        Sequence {
            items: VecDeque::new(alloc),
        }
    }

    /// An empty list that takes the memory for `n` items at once. How much room a list has is part of no contract.
    pub fn with_room(alloc: Global, n: u64) -> Result<Self, NoMemory>
        ensures { IfOk result (λ list. list ≡ []) }
    {
        match VecDeque::with_capacity(alloc, n as usize) {
            Ok(items) => Ok(Sequence { items }),
            Err(_) => Err(NoMemory),
        }
    }

    /// The list of a vector's items, in order. It takes no memory.
    pub fn from_vec(items: Vec<T>) -> Self
        ensures { result ≡ items.items }
    {
        Sequence {
            items: VecDeque::from_vec(items),
        }
    }

    /// The items, in order, as a vector. It takes no memory.
    pub fn into_vec(self) -> Vec<T>
        ensures { result.items ≡ self }
    {
        let Sequence { items } = self;
        items.into_vec()
    }

    /// One item more, at the end. After `NoMemory` the list is as before, and the item is gone.
    pub fn push(&mut self, item: T) -> Result<(), NoMemory>
        ensures ok { OnOk result (self.new ≡ self.old ++ item ∷ []) }
        ensures err { OnErr result (self.new ≡ self.old) }
    {
        match self.items.push_back(item) {
            Ok(()) => Ok(()),
            Err(_) => Err(NoMemory),
        }
    }

    /// The number of items.
    pub fn len(&self) -> u64
        ensures { result ≡ length self.now }
    {
        self.items.len() as u64
    }

    /// Whether there is no item.
    pub fn is_empty(&self) -> bool
        ensures { result ≡ (length self.now == 0) }
    {
        self.items.is_empty()
    }

    /// The item number `k`, counted from 0. `None` exactly where there is no such item.
    pub fn get(&self, k: u64) -> Option<&T>
        ensures { option_copied result ≡ slice_get self.now k }
    {
        self.items.get(k as usize)
    }

    /// The item number `k`, counted from 0, of a list that has one.
    pub fn at(&self, k: u64) -> &T
        requires { k < length self.now }
        ensures { slice_get self.now k ≡ Some result.now }
    {
        &self.items[k as usize]
    }

    /// The first item, which is then gone from the list; in constant time. `None` exactly where there is none.
    pub fn take_first(&mut self) -> Option<T>
        ensures item { result ≡ slice_get self.old 0 }
        ensures rest { self.new ≡ drop 1 self.old }
    {
        self.items.pop_front()
    }
}

/// A list of bytes.
pub type Bytes = Sequence<u8>;

/// The bytes of a text.
pub type Text = Sequence<u8>;
