use crate::Entry;

/// What a session asks to have put into the serial list: a change of the graph, a release of the versions below a
/// place, or a leave. It carries the session's number and that of the command in it.
#[derive(Drop)]
pub enum Request {
    Submit(Entry),
    Release { session: u32, seq: u64, upto: u64 },
    Leave { session: u32, seq: u64 },
}

/// A read at a place: the value, the parent or the path of a vertex by an analysis, the vertices that the entry at the
/// place modified, or the front and the floor.
#[derive(Clone, Copy, Debug, PartialEq, Eq)]
pub enum Question {
    Value { place: u64, a: u32, x: u64 },
    Parent { place: u64, a: u32, x: u64 },
    Path { place: u64, a: u32, x: u64 },
    Modified { place: u64, a: u32 },
    Current,
}
