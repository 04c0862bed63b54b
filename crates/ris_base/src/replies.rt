use crate::{Parent, Sequence, Value, Vertices};

/// Why a request to change the graph was refused, with the front of the list on which it was judged: its part of this
/// number, from 1, needs a vertex that is missing, or a copy of which there is none, or has a number past its limit; or
/// memory was wanted, and nothing changed.
#[derive(Clone, Copy, Debug, PartialEq, Eq)]
pub enum Refusal {
    NoVertex { front: u64, part: u32, id: u64 },
    NoEdge { front: u64, part: u32 },
    Limit { front: u64, part: u32, given: u64 },
    NoMemory,
}

/// What became of a request: the entry at `place`; a mark or a leave, with the number of entries before it; a refusal;
/// a release of a place past the front; or none, since the run ended.
#[derive(Clone, Copy, Debug, PartialEq, Eq)]
pub enum Outcome {
    Placed { place: u64 },
    Marked { front: u64, upto: u64 },
    Left { front: u64 },
    Refused(Refusal),
    NotYet { front: u64 },
    Closed,
}

/// The answer to a read, with the front of the list on which it was judged and, but for `Current`, the place that was
/// asked for.
#[derive(Drop)]
pub enum ReadAnswer {
    Value {
        front: u64,
        place: u64,
        value: Value,
    },
    Parent {
        front: u64,
        place: u64,
        parent: Parent,
    },
    Path {
        front: u64,
        place: u64,
        vertices: Vertices,
    },
    Modified {
        front: u64,
        place: u64,
        vertices: Vertices,
    },
    Current {
        front: u64,
        floor: u64,
    },
}

/// Why a read has no answer: its place is past the front, or below the floor; memory was wanted; or the reader was shut
/// out, which is asked again and is no reply.
#[derive(Clone, Copy, Debug, PartialEq, Eq)]
pub enum ReadRefusal {
    NotYet { front: u64 },
    Released { front: u64, floor: u64 },
    NoMemory,
    Shut,
}

/// The reply to one command: the outcome of a request, the answer to a read, or the refusal of a read.
#[derive(Drop)]
pub enum LogLine {
    Reply(Outcome),
    Answer(ReadAnswer),
    Denied(ReadRefusal),
}

/// The replies to the commands of one session, in order.
pub type Log = Sequence<LogLine>;

/// The replies of each session, in the order of the sessions.
pub type Logs = Sequence<Log>;
