use ris_base::{Sequence, Triple, Vertices};

/// A triple that a request touches, with its copies before and after.
#[derive(Clone, Copy, Debug, PartialEq, Eq)]
pub struct NetTriple {
    pub triple: Triple,
    pub before: u64,
    pub after: u64,
}

/// A list of touched triples.
pub type NetTriples = Sequence<NetTriple>;

/// What a request does to a graph as a whole: the vertices of the graph before that it drops; the vertices of the graph
/// after that weren't there before or that it drops too; and the triples whose copies it changes, each once.
#[derive(Drop)]
pub struct Net {
    pub dropped: Vertices,
    pub added: Vertices,
    pub triples: NetTriples,
}
