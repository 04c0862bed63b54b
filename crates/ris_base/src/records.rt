use crate::{Forests, Line, Parent, Sequence, Value};

/// A change of one vertex in the forest of one analysis: its value and its parent from now on, and whether the value
/// differs from before.
#[derive(Clone, Copy, Debug, PartialEq, Eq)]
pub struct Change {
    pub analysis: u32,
    pub vertex: u32,
    pub value: Value,
    pub parent: Parent,
    pub moved: bool,
}

/// A list of changes.
pub type Changes = Sequence<Change>;

/// A line of the serial list with the changes of the forests that it makes.
#[derive(Drop)]
pub struct Record {
    pub line: Line,
    pub changes: Changes,
}

/// What there is at place 0: how many sessions, and the forest of each analysis.
#[derive(Drop)]
pub struct Start {
    pub sessions: u32,
    pub forests: Forests,
}
