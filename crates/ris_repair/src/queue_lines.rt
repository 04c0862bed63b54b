ghost use Rattle.std.specs.Prelude.{◌≡◌, ◌≤◌, [], ◌∷◌, ◌++◌, IsTrue, OnOk, OnErr, IfSome, drop, slice_get};
ghost use Rattle.std.specs.List.{All};
ghost use Rattle.ris_repair.specs.Queues.{is_above, leads, front_priority, may_follow};

use ris_base::NoMemory;
use std::alloc::Global;
use std::collections::VecDeque;
use std::marker::Model;

/// For how many vertices a line makes room at once, when it gets its first one.
const LINE_ROOM: usize = 16;

/// Whether a priority is greater than this one, or there is none to compare with.
#[inline(always)]
pub(crate) fn is_above(bound: Option<u64>, priority: u64) -> bool
    ensures { result ≡ is_above bound priority }
{
    match bound {
        None => true,
        Some(bound) => bound < priority,
    }
}

/// Whether there is a first priority, and the second isn't as great or is missing.
#[inline(always)]
pub(crate) fn leads(first: Option<u64>, second: Option<u64>) -> bool
    ensures { result ≡ leads first second }
{
    match first {
        None => false,
        Some(priority) => is_above(second, priority),
    }
}

/// Vertices that wait in a line, each with a priority that is at most that of the one before it. So the first has the
/// greatest. Each call takes constant time, but for a push that finds no room and moves all.
#[derive(Drop)]
pub(crate) struct Line {
    items: VecDeque<(u64, u32)>,
}

impl Model for Line {
    ghost use Rattle.std.specs.Prelude.{List, ℕ};
    ghost use Rattle.ris_repair.specs.Queues.{IsNonRising};

    ghost Value = { List (ℕ × ℕ) };

    ghost view = { λ line. line.items.items };

    ghost invariant = { λ line. IsNonRising line.items.items };
}

impl Line {
    /// A line in which nothing waits. It takes no memory before the first vertex, and then at once for some.
    pub(crate) fn new(alloc: Global) -> Line
        ensures { result ≡ [] }
    {
        Line {
            items: VecDeque::new(alloc),
        }
    }

    /// Whether a vertex of this priority may stand at the end: the line is empty, or its last one's priority is at
    /// least this.
    #[inline(always)]
    pub(crate) fn takes(&self, priority: u64) -> bool
        ensures { result ≡ may_follow self.now priority }
    {
        match self.items.back() {
            None => true,
            Some(last) => priority <= last.0,
        }
    }

    /// Makes room for some vertices at once, where none waits.
    #[inline(always)]
    fn make_room(&mut self) -> Result<(), NoMemory>
        ensures { self.new ≡ self.old }
    {
        if self.items.is_empty() {
            self.items.reserve(LINE_ROOM)?;
        }
        Ok(())
    }

    /// One vertex more waits, at the end. After `NoMemory` the line is as before.
    #[inline(always)]
    pub(crate) fn push(&mut self, priority: u64, vertex: u32) -> Result<(), NoMemory>
        requires { IsTrue (may_follow self.old priority) }
        ensures items { OnOk result (self.new ≡ self.old ++ (priority, vertex) ∷ []) }
        ensures unchanged { OnErr result (self.new ≡ self.old) }
    {
        self.make_room()?;
        self.items.push_back((priority, vertex))?;
        Ok(())
    }

    /// The priority of the first vertex, which is the greatest. `None` exactly where nothing waits.
    #[inline(always)]
    pub(crate) fn best(&self) -> Option<u64>
        ensures front { result ≡ front_priority self.now }
        ensures greatest { IfSome result (λ best. All (λ item. item.0 ≤ best) self.now) }
    {
        match self.items.front() {
            None => None,
            Some(first) => Some(first.0),
        }
    }

    /// The vertex at a place, counted from 0.
    #[inline(always)]
    pub(crate) fn at(&self, place: usize) -> Option<u32> {
        let item = self.items.get(place)?;
        Some(item.1)
    }

    /// Takes the first vertex, which is one of the greatest priority. `None` exactly where nothing waits.
    #[inline(always)]
    pub(crate) fn pop(&mut self) -> Option<(u64, u32)>
        ensures item { result ≡ slice_get self.old 0 }
        ensures rest { self.new ≡ drop 1 self.old }
        ensures best { IfSome result (λ top. All (λ item. item.0 ≤ top.0) self.new) }
    {
        self.items.pop_front()
    }
}
