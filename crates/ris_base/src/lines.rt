ghost use Rattle.std.specs.Prelude.{◌≡◌, IfOk};

use crate::{NoMemory, Parts, Sequence};
use std::alloc::Global;

/// An accepted request to change the graph: the session and the number of the command in it, and its parts.
#[derive(Drop)]
pub struct Entry {
    pub session: u32,
    pub seq: u64,
    pub parts: Parts,
}

impl Entry {
    /// An equal entry. It takes memory only where there are two parts or more.
    pub fn copy(&self, alloc: Global) -> Result<Entry, NoMemory>
        ensures { IfOk result (λ entry. entry ≡ self.now) }
    {
        let parts = self.parts.copy(alloc)?;
        Ok(Entry {
            session: self.session,
            seq: self.seq,
            parts,
        })
    }
}

/// A line of the one serial list: an accepted entry; a session's mark, which says that the session needs no version
/// below `upto`; or a session's leave, which says that it needs no version any more.
#[derive(Drop)]
pub enum Line {
    Entry(Entry),
    Mark { session: u32, seq: u64, upto: u64 },
    Leave { session: u32, seq: u64 },
}

/// A list of entries.
pub type Entries = Sequence<Entry>;

/// The serial list, or a part of it.
pub type Lines = Sequence<Line>;
