use crate::Sequence;

/// The four analyses: breadth-first depth, shortest path, widest path, and least-label components.
#[derive(Clone, Copy, Debug, PartialEq, Eq)]
pub enum Kind {
    Bfs,
    Sssp,
    Sswp,
    Wcc,
}

/// An analysis: its kind, and the root from which its walks begin. Components have no root; theirs is 0.
#[derive(Clone, Copy, Debug, PartialEq, Eq)]
pub struct Spec {
    pub kind: Kind,
    pub root: u32,
}

/// What an analysis gives a vertex number: the vertex isn't in the graph, no walk leads to it, or the best worth
/// of a walk to it.
#[derive(Clone, Copy, Debug, PartialEq, Eq)]
pub enum Value {
    Absent,
    Unreached,
    Num(u64),
}

/// A list of analyses, in their order.
pub type Specs = Sequence<Spec>;

/// A list of values.
pub type Values = Sequence<Value>;
