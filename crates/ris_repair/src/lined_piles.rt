ghost use Rattle.std.specs.Prelude.{◌≡◌, ◌≤◌, ◌+◌, ◌∷◌, ◌++◌, ℕ, [], OnOk, OnErr, IfOk, IfSome, IfNone, IsPermutation, length};
ghost use Rattle.std.specs.List.{All};

use crate::piles::Pile;
use crate::queue_lines::{Line, leads};
use ris_base::NoMemory;
use ris_rows::Glance;
use std::alloc::Global;
use std::marker::Model;

/// Takes a vertex of the greatest priority from a line and a pile: the line's first, where none of the pile is better.
/// `None` exactly where nothing waits in either. After `NoMemory` the same vertices wait.
fn pop_better(line: &mut Line, pile: &mut Pile) -> Result<Option<(u64, u32)>, NoMemory>
    ensures items { IfOk result (λ found. IfSome found (λ top. IsPermutation (line.old ++ pile.old) (top ∷ (line.new ++ pile.new)))) }
    ensures best { IfOk result (λ found. IfSome found (λ top. All (λ item. item.0 ≤ top.0) (line.new ++ pile.new))) }
    ensures none { IfOk result (λ found. IfNone found ((line.old ≡ []) × (pile.old ≡ []))) }
    ensures none_new { IfOk result (λ found. IfNone found ((line.new ≡ []) × (pile.new ≡ []))) }
    ensures unchanged { OnErr result (IsPermutation (line.old ++ pile.old) (line.new ++ pile.new)) }
{
    let bound = line.best();
    if let Some(top) = pile.pop_above(bound)? {
        return Ok(Some(top));
    }
    Ok(line.pop())
}

/// Vertices of a whole graph that wait, each with a priority. Those with the greatest priority are taken first. A vertex
/// stands in one of two lines, where its priority is at most that of the last one there, and else lies in a pile. So
/// vertices that come with priorities that don't rise, as in breadth-first search, stand in line and take constant time
/// each.
#[derive(Drop)]
pub(crate) struct LinedPile {
    first: Line,
    second: Line,
    pile: Pile,
    glance: Glance,
}

impl Model for LinedPile {
    ghost use Rattle.std.specs.Prelude.{◌++◌, List, ℕ};

    ghost Value = { List (ℕ × ℕ) };

    ghost view = { λ q. q.first ++ q.second ++ q.pile };
}

impl LinedPile {
    /// Lines and a pile in which nothing waits.
    pub(crate) fn new(alloc: Global) -> Result<LinedPile, NoMemory>
        ensures { IfOk result (λ lined. lined ≡ []) }
    {
        let pile = Pile::whole(alloc)?;
        Ok(LinedPile {
            first: Line::new(alloc),
            second: Line::new(alloc),
            pile,
            glance: Glance::none(),
        })
    }

    /// One vertex more waits: in the first line that takes it, else in the pile. After `NoMemory` the same ones wait.
    #[inline(always)]
    pub(crate) fn push(&mut self, priority: u64, vertex: u32) -> Result<(), NoMemory>
        ensures items { OnOk result (IsPermutation ((priority, vertex) ∷ self.old) self.new) }
        ensures unchanged { OnErr result (IsPermutation self.old self.new) }
    {
        if self.first.takes(priority) {
            return self.first.push(priority, vertex);
        }
        if self.second.takes(priority) {
            return self.second.push(priority, vertex);
        }
        self.pile.push(priority, vertex)
    }

    /// A vertex that is likely to be taken soon, for each place from 0 on mostly another one, or `None`: of the pile, and else
    /// of the line that leads. Which one is part of no contract.
    pub(crate) fn coming(&self, place: usize) -> Option<u32> {
        match self.pile.coming(place) {
            None if leads(self.second.best(), self.first.best()) => self.second.at(place),
            None => self.first.at(place),
            found => found,
        }
    }

    /// Keeps what was seen of the rows of vertices that are likely to be taken soon.
    #[inline(always)]
    pub(crate) fn keep(&mut self, glance: Glance)
        ensures { self.new ≡ self.old }
    {
        self.glance = glance;
    }

    /// Takes a vertex of the greatest priority. `None` exactly where nothing waits. After `NoMemory` the same ones wait.
    pub(crate) fn pop(&mut self) -> Result<Option<(u64, u32)>, NoMemory>
        ensures items { IfOk result (λ found. IfSome found (λ top. IsPermutation self.old (top ∷ self.new))) }
        ensures best { IfOk result (λ found. IfSome found (λ top. All (λ item. item.0 ≤ top.0) self.new)) }
        ensures len { IfOk result (λ found. IfSome found (λ top. length self.new + 1 ≡ length self.old)) }
        ensures none { IfOk result (λ found. IfNone found (self.old ≡ [])) }
        ensures none_new { IfOk result (λ found. IfNone found (self.new ≡ [])) }
        ensures unchanged { OnErr result (IsPermutation self.old self.new) }
    {
        if leads(self.second.best(), self.first.best()) {
            pop_better(&mut self.second, &mut self.pile)
        } else {
            pop_better(&mut self.first, &mut self.pile)
        }
    }
}
