ghost use Rattle.std.specs.Prelude.{◌≡◌, ◌==◌, ◌<◌, ℕ, [], ◌∷◌, ◌++◌, Some, None, false, nat_eq, length, slice_get, OnOk, OnErr, IfOk, IfSome, IfNone};
ghost use Rattle.std.specs.HashMap.{get};
ghost use Rattle.std.specs.List.{IsDistinct, position};
ghost use Rattle.std.specs.Map.{keys_of};
ghost use Rattle.ris_repair.specs.Changes.{IsTakenChange, IsNoRank};
ghost use Rattle.ris_repair.specs.Fews.{change_in};

use crate::stores::Change;
use ris_algo::Monotone;
use ris_base::NoMemory;
use std::alloc::Global;
use std::collections::HashMap;
use std::marker::Model;

/// How many changes a store keeps in a list, before it goes over to a map.
pub(crate) const FEW_LIMIT: usize = 8;

/// For how many changes a map makes room, when it gets those of a list.
const MAP_ROOM: usize = 64;

/// The changes of a few vertices, each of which stands once, in the order in which they came. A vertex is found by a scan of
/// the vertices alone.
#[derive(Drop)]
pub(crate) struct Few {
    vertices: Vec<u32>,
    changes: Vec<Change>,
}

impl Model for Few {
    ghost use Rattle.std.specs.Prelude.{List, ℕ};
    ghost use Rattle.std.specs.List.{zip};
    ghost use Rattle.ris_repair.specs.declared.stores.Change.{Change};
    ghost use Rattle.ris_repair.specs.Fews.{AreSideBySide};

    ghost Value = { List (ℕ × Change) };

    ghost view = { λ few. zip few.vertices.items few.changes.items };

    ghost invariant = { λ few. AreSideBySide few.vertices.items few.changes.items };
}

/// The place of a vertex. `None` exactly where it isn't among these.
fn find(vertices: &[u32], vertex: u32) -> Option<usize>
    ensures { result ≡ position (λ other. vertex == other) vertices.now }
{
    vertices.iter().position(|other| vertex == *other)
}

impl Few {
    /// No changes. It takes no memory before the first one, and then at once for `FEW_LIMIT`.
    pub(crate) fn new(alloc: Global) -> Few
        ensures { result ≡ [] }
    {
        Few {
            vertices: Vec::new(alloc),
            changes: Vec::new(alloc),
        }
    }

    /// The number of changes.
    pub(crate) fn len(&self) -> usize
        ensures len { result ≡ length self.now }
        ensures once { IsDistinct nat_eq (keys_of self.now) }
    {
        self.vertices.len()
    }

    /// The change that came as the one of this number, beside its vertex.
    pub(crate) fn at(&self, number: usize) -> (u32, Change)
        requires { number < length self.now }
        ensures { slice_get self.now number ≡ Some result }
    {
        (self.vertices[number], self.changes[number])
    }

    /// The change of a vertex. `None` exactly where it has none.
    pub(crate) fn get(&self, vertex: u32) -> Option<Change>
        ensures { result ≡ change_in self.now vertex }
    {
        match find(&self.vertices, vertex) {
            Some(place) => Some(self.changes[place]),
            None => None,
        }
    }

    /// Makes room for `FEW_LIMIT` changes at once, where there is none.
    fn make_room(&mut self) -> Result<(), NoMemory>
        ensures { self.new ≡ self.old }
    {
        if self.vertices.is_empty() {
            self.vertices.reserve(FEW_LIMIT)?;
            self.changes.reserve(FEW_LIMIT)?;
        }
        Ok(())
    }

    /// One change more, of a vertex that has none.
    fn push(&mut self, vertex: u32, change: Change) -> Result<(), NoMemory>
        requires { change_in self.old vertex ≡ None }
        ensures ok { OnOk result (self.new ≡ self.old ++ (vertex, change) ∷ []) }
        ensures err { OnErr result (self.new ≡ self.old) }
    {
        self.make_room()?;
        self.vertices.push(vertex)?;
        if self.changes.push(change).is_err() {
            self.vertices.pop();
            return Err(NoMemory);
        }
        Ok(())
    }

    /// Gives a vertex this change in place of the one that it had. After `NoMemory` the changes are as before.
    pub(crate) fn put(&mut self, vertex: u32, change: Change) -> Result<(), NoMemory>
        ensures here { OnOk result (change_in self.new vertex ≡ Some change) }
        ensures others { OnOk result ((y : ℕ) → (vertex == y) ≡ false → change_in self.new y ≡ change_in self.old y) }
        ensures err { OnErr result (self.new ≡ self.old) }
    {
        match find(&self.vertices, vertex) {
            Some(place) => {
                self.changes[place] = change;
                Ok(())
            }
            None => self.push(vertex, change),
        }
    }

    /// Settles a vertex that waits with a number of this priority, and gives the number. `None` exactly where it doesn't wait
    /// with such a number; then nothing changes.
    pub(crate) fn take<A: Monotone>(&mut self, algo: &A, vertex: u32, best: u64) -> Option<u64>
        ensures taken { IfSome result (λ number. IsTakenChange (A.spec algo.now).kind best (change_in self.old vertex) number (change_in self.new vertex)) }
        ensures none { IfNone result (IsNoRank (A.spec algo.now).kind best (change_in self.old vertex)) }
        ensures same { IfNone result (change_in self.new vertex ≡ change_in self.old vertex) }
        ensures others { (y : ℕ) → (vertex == y) ≡ false → change_in self.new y ≡ change_in self.old y }
    {
        match find(&self.vertices, vertex) {
            Some(place) => self.changes[place].take(algo, best),
            None => None,
        }
    }

    /// The same changes as a map, with room for more.
    pub(crate) fn spilled(&self) -> Result<HashMap<u32, Change>, NoMemory>
        ensures { IfOk result (λ map. (x : ℕ) → get nat_eq map x ≡ change_in self.now x) }
    {
        let mut map = HashMap::with_capacity(*self.vertices.allocator(), MAP_ROOM)?;
        for number in 0..self.len() {
            let (vertex, change) = self.at(number);
            map.insert(vertex, change)?;
        }
        Ok(map)
    }
}
