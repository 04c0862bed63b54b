ghost use Rattle.std.specs.Prelude.{◌≡◌, ◌<◌, ◌≤◌, SomeIff};

use crate::{Sequence, VERTEX_LIMIT};
use std::marker::Model;

/// The format of a script and of the graphs that are made from it. They differ in the greatest weight.
#[derive(Clone, Copy, Debug, PartialEq, Eq)]
pub enum Format {
    One,
    Two,
}

impl Format {
    ghost use Rattle.ris_base.specs.Limits.{greatest_of};

    /// The greatest weight of a triple: 4,294,967,295 in format one, 68,719,476,735 in format two.
    pub fn max_weight(self) -> u64
        ensures greatest { result ≡ greatest_of self }
        ensures small { result < 68719476736 }
    {
        match self {
            Format::One => 4_294_967_295,
            Format::Two => 68_719_476_735,
        }
    }
}

/// The number of a vertex, below 4,194,304.
#[derive(Clone, Copy, Debug, PartialEq, Eq)]
pub struct VertexId {
    number: u32,
}

impl Model for VertexId {
    ghost use Rattle.std.specs.Prelude.{ℕ, ◌<◌};

    ghost Value = { ℕ };

    ghost view = { λ v. v.number };

    ghost invariant = { λ v. v.number < 4194304 };

    ghost inverse = { λ n. record { number = n } };
}

impl VertexId {
    /// The vertex of this number. `None` exactly where the number is 4,194,304 or more.
    pub fn new(n: u64) -> Option<VertexId>
        ensures { SomeIff result (n < 4194304) n }
    {
        if n < VERTEX_LIMIT {
            Some(VertexId { number: n as u32 })
        } else {
            None
        }
    }

    /// The number.
    pub fn get(&self) -> u32
        ensures number { result ≡ self.now }
        ensures small { result < 4194304 }
    {
        self.number
    }
}

/// An edge from a source to a target with a weight. Equal triples are copies of one edge, and triples that differ in
/// weight are different edges.
#[derive(Clone, Copy, Debug, PartialEq, Eq)]
pub struct Triple {
    pub source: u32,
    pub target: u32,
    pub weight: u64,
}

/// A list of vertex numbers.
pub type Vertices = Sequence<u32>;

/// A list of triples.
pub type Triples = Sequence<Triple>;

/// The plain graph of the definitions: its format, its vertices, and its triples, in which copies are repeats.
#[derive(Drop)]
pub struct PlainGraph {
    pub format: Format,
    pub vertices: Vertices,
    pub triples: Triples,
}
