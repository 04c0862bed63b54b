use crate::{Parts, Sequence};

/// The place that a read asks for: that of the session's last accepted entry, or a place by its number.
#[derive(Clone, Copy, Debug, PartialEq, Eq)]
pub enum Version {
    Last,
    At(u64),
}

/// A command of a session: a request to change the graph; a release of the versions below a place; a leave; or a read,
/// by version, number of the analysis, and vertex number.
#[derive(Drop)]
pub enum Command {
    Change(Parts),
    Release(u64),
    Leave,
    Value(Version, u32, u64),
    Parent(Version, u32, u64),
    Path(Version, u32, u64),
    Modified(Version, u32),
    Current,
}

/// The commands of one session, in order.
pub type Commands = Sequence<Command>;

/// The commands of each session, in the order of the sessions.
pub type CommandLists = Sequence<Commands>;
