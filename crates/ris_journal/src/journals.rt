ghost use Rattle.std.specs.Prelude.{◌≡◌, ◌-◌, ◌<◌, ◌≤◌, [], ◌∷◌, ◌++◌, max, OnOk, OnErr};
ghost use Rattle.std.specs.Option.{option_copied};
ghost use Rattle.ris_base.specs.Lines.{front, entry_at};

use ris_base::{Entry, Line, Lines, NoMemory, Sequence};
use std::alloc::Global;
use std::marker::Model;

/// The serial list of lines, which only grows, and the room that was made for more of them. Beside the lines stand the
/// positions of the entries among them, so that an entry is found in constant time.
#[derive(Drop)]
pub struct Journal {
    lines: Vec<Line>,
    positions: Vec<usize>,
    spare: u64,
}

impl Model for Journal {
    ghost use Rattle.std.specs.Prelude.{◌-◌, ◌≤◌, vec_len, vec_capacity};
    ghost use Rattle.ris_journal.specs.JournalView.{JournalView, IsSound};

    ghost Value = { JournalView };

    ghost view = { λ j. record { lines = j.lines.items; spare = j.spare } };

    ghost invariant = { λ j. IsSound j.lines j.positions j.spare };
}

impl Journal {
    ghost use Rattle.ris_journal.specs.JournalView.{with_room, with_line};

    /// A journal without lines and without room. It takes no memory.
    pub fn new(alloc: Global) -> Journal
        ensures lines { result.lines ≡ [] }
        ensures spare { result.spare ≡ 0 }
    {
        Journal {
            lines: Vec::new(alloc),
            positions: Vec::new(alloc),
            spare: 0,
        }
    }

    /// Makes room for `n` lines, and takes memory only where there is less. The room that is taken grows by doubling,
    /// so that in a run of appends with a `reserve(1)` before each, the cost of growth is constant for each on average.
    /// After `NoMemory` the journal is as before; it comes only where there was less room than `n`.
    pub fn reserve(&mut self, n: u64) -> Result<(), NoMemory>
        ensures ok { OnOk result (self.new ≡ with_room self.old n) }
        ensures err { OnErr result (self.new ≡ self.old) }
        ensures full { OnErr result (self.old.spare < n) }
    {
        if n <= self.spare {
            return Ok(());
        }
        self.lines.reserve(n as usize)?;
        self.positions.reserve(n as usize)?;
        self.spare = n;
        Ok(())
    }

    /// One line more, at the end. There is room for it, so that it takes no memory and cannot fail; and there are fewer
    /// than 4,294,967,295 entries. In constant time.
    pub fn append(&mut self, line: Line)
        requires room { 1 ≤ self.old.spare }
        requires few { front self.old.lines < 4294967295 }
        ensures { self.new ≡ with_line self.old line }
    {
        if let Line::Entry(_) = &line {
            self.positions.push_reserved(self.lines.len());
        }
        self.lines.push_reserved(line);
        self.spare -= 1;
    }

    /// The entry at the place `v`, which is its number among the entries, from 1. `None` exactly at 0 and past the
    /// front. In constant time.
    pub fn entry(&self, v: u64) -> Option<&Entry>
        ensures { option_copied result ≡ entry_at self.now.lines v }
    {
        if v == 0 || v > self.front() {
            return None;
        }
        let position = self.positions[v as usize - 1];
        match &self.lines[position] {
            Line::Entry(entry) => Some(entry),
            _ => None,
        }
    }

    /// The number of entries. In constant time.
    pub fn front(&self) -> u64
        ensures { result ≡ front self.now.lines }
    {
        self.positions.len() as u64
    }

    /// The lines. It takes no memory.
    pub fn lines(self) -> Lines
        ensures { result ≡ self.lines }
    {
        let Journal { lines, .. } = self;
        Sequence::from_vec(lines)
    }
}
