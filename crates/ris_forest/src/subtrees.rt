ghost use Rattle.std.specs.Prelude.{◌≡◌, ◌<◌, ◌≤◌, ◌^◌, ◌↔◌, [], All, Contains, IsTrue, OnOk, OnErr, Some, length, slice_get};
ghost use Rattle.ris_base.specs.Graph.{EachOnce};
ghost use Rattle.ris_forest.specs.Growing.{AreMembers, IsWithin, with_vertex};

use ris_base::{NoMemory, Vertices};
use std::alloc::Global;
use std::collections::HashSet;
use std::marker::Model;

/// Up to so many vertices are looked up by a scan.
const FEW: usize = 16;

/// Vertices that are gathered subtree by subtree: a list in which each stands once, and a set of them where they are more
/// than a few. With a `Forest`, a subtree that is there already costs nothing more.
#[derive(Drop)]
pub struct Subtrees {
    vertices: Vec<u32>,
    members: HashSet<u32>,
}

impl Model for Subtrees {
    ghost use Rattle.std.specs.Prelude.{ℕ, List};
    ghost use Rattle.ris_forest.specs.Growing.{AreMembers};

    ghost Value = { List ℕ };

    ghost view = { λ s. s.vertices.items };

    ghost invariant = { λ s. AreMembers s.members.keys s.vertices.items };
}

/// Puts the vertices of a list into a set of some of them. After `NoMemory` it is a set of some of them still.
fn fill(members: &mut HashSet<u32>, vertices: &[u32]) -> Result<(), NoMemory>
    requires { IsWithin members.old.keys vertices.now }
    ensures known { IsWithin members.new.keys vertices.now }
    ensures ok { OnOk result (IsWithin vertices.now members.new.keys) }
{
    members.reserve(2 * FEW)?;
    for x in vertices {
        members.insert(*x)?;
    }
    Ok(())
}

/// Fills the set of a list's vertices where one vertex more will be too many for a scan.
fn prepare(members: &mut HashSet<u32>, vertices: &[u32]) -> Result<(), NoMemory>
    requires { AreMembers members.old.keys vertices.now }
    ensures members { AreMembers members.new.keys vertices.now }
    ensures ok { OnOk result (FEW ≤ length vertices.now → IsWithin vertices.now members.new.keys) }
{
    if vertices.len() == FEW {
        fill(members, vertices)?;
    }
    Ok(())
}

impl Subtrees {
    /// No vertices. It takes no memory.
    pub fn new(alloc: Global) -> Subtrees
        ensures { result ≡ [] }
    {
        Subtrees {
            vertices: Vec::new(alloc),
            members: HashSet::new(alloc),
        }
    }

    /// Whether `x` is one of the vertices. Constant time on average.
    pub fn contains(&self, x: u32) -> bool
        ensures { IsTrue result ↔ Contains self.now x }
    {
        if self.vertices.len() <= FEW {
            self.vertices.contains(&x)
        } else {
            self.members.contains(&x)
        }
    }

    /// The vertex `x` too, at the end; where it is there already, nothing happens. After `NoMemory` the vertices are as
    /// before. Constant time on average.
    pub fn insert(&mut self, x: u32) -> Result<(), NoMemory>
        ensures ok { OnOk result (self.new ≡ with_vertex self.old x) }
        ensures err { OnErr result (self.new ≡ self.old) }
    {
        if self.contains(x) {
            return Ok(());
        }
        prepare(&mut self.members, &self.vertices)?;
        self.vertices.push(x)?;
        if self.vertices.len() <= FEW {
            return Ok(());
        }
        match self.members.insert(x) {
            Ok(_) => Ok(()),
            Err(_) => {
                self.vertices.pop();
                Err(NoMemory)
            }
        }
    }

    /// The number of vertices.
    pub fn len(&self) -> usize
        ensures len { result ≡ length self.now }
        ensures once { EachOnce self.now }
        ensures small { All (λ x. x < 2 ^ 32) self.now }
    {
        self.vertices.len()
    }

    /// The vertex number `k`, counted from 0, of a list that has one.
    pub fn at(&self, k: usize) -> u32
        requires { k < length self.now }
        ensures { slice_get self.now k ≡ Some result }
    {
        self.vertices[k]
    }

    /// The vertices as a list, each once. It takes no memory.
    pub fn into_vertices(self) -> Vertices
        ensures vertices { result ≡ self }
        ensures once { EachOnce result }
    {
        let Subtrees {
            vertices,
            members: _,
        } = self;
        Vertices::from_vec(vertices)
    }
}
