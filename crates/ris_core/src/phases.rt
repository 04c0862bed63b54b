/// Where the oldest command of a session without a reply stands.
#[derive(Clone, Copy, Debug, PartialEq, Eq)]
pub(crate) enum Stand {
    Queued,
    InBatch,
    Undecided,
    InLog,
    InTail,
}

/// The phases of a turn: requests are collected; candidates are decided; the rest is done one by one.
#[derive(Clone, Copy, Debug, PartialEq, Eq)]
pub(crate) enum Phase {
    Collect,
    Cells,
    Serially,
}
