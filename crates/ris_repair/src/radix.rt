ghost use Rattle.std.specs.Prelude.{◌≡◌, ◌<◌, ◌≤◌, ◌++◌, ◌∷◌, ◌↔◌, ◌==◌, ℕ, [], false, not, if◌then◌else◌, length, slice_index_or, slice_set, OnOk, OnErr, IfOk, IfSome, IfNone, IsTrue, IsFalse, IsPermutation};
ghost use Rattle.std.specs.List.{All, position};
ghost use Rattle.ris_repair.specs.Queues.{is_above};
ghost use Rattle.ris_repair.specs.Radix.{bucket_at, bucketed, IsPlaced, ArePlaced, IsRadix, IsLowest};

use ris_base::NoMemory;
use std::alloc::Global;
use std::marker::Model;
use std::mem::swap;

/// How many buckets there are: a priority differs from the last one in none of its low bits, or in up to 64.
const BUCKETS: usize = 65;

/// Lists of items, each a priority and a vertex.
#[derive(Drop)]
struct Buckets {
    lists: Vec<Vec<(u64, u32)>>,
}

impl Model for Buckets {
    ghost use Rattle.std.specs.Prelude.{List, ℕ, map};

    ghost Value = { List (List (ℕ × ℕ)) };

    ghost view = { λ buckets. map (λ list. list.items) buckets.lists.items };
}

impl Buckets {
    /// No buckets. It takes no memory.
    fn none(alloc: Global) -> Buckets
        ensures { result ≡ [] }
    {
        Buckets {
            lists: Vec::new(alloc),
        }
    }

    /// As many empty buckets as a radix heap has.
    fn all(alloc: Global) -> Result<Buckets, NoMemory>
        ensures size { IfOk result (λ buckets. length buckets ≡ 65) }
        ensures each { IfOk result (λ buckets. (k : ℕ) → bucket_at buckets k ≡ []) }
    {
        let mut lists = Vec::with_capacity(alloc, BUCKETS)?;
        for _i in 0..BUCKETS {
            lists.push(Vec::new(alloc))?;
        }
        Ok(Buckets { lists })
    }

    /// Whether there are no buckets.
    fn is_none(&self) -> bool
        ensures { IsTrue result ↔ (length self.now ≡ 0) }
    {
        self.lists.is_empty()
    }

    /// One item more in a bucket.
    fn push(&mut self, number: usize, item: (u64, u32)) -> Result<(), NoMemory>
        requires { number < length self.old }
        ensures ok { OnOk result (self.new ≡ slice_set self.old number (bucket_at self.old number ++ item ∷ [])) }
        ensures err { OnErr result (self.new ≡ self.old) }
    {
        self.lists[number].push(item)?;
        Ok(())
    }

    /// Takes the last item of a bucket. `None` exactly where it is empty.
    fn pop(&mut self, number: usize) -> Option<(u64, u32)>
        requires { number < length self.old }
        ensures some { IfSome result (λ item. bucket_at self.old number ≡ bucket_at self.new number ++ item ∷ []) }
        ensures none { IfNone result (bucket_at self.old number ≡ []) }
        ensures rest { self.new ≡ slice_set self.old number (bucket_at self.new number) }
    {
        self.lists[number].pop()
    }

    /// Exchanges a bucket for a list, with their memory.
    fn swap(&mut self, number: usize, other: &mut Vec<(u64, u32)>)
        requires { number < length self.old }
        ensures self_after { self.new ≡ slice_set self.old number other.old.items }
        ensures other_after { other.new.items ≡ bucket_at self.old number }
    {
        swap(&mut self.lists[number], other);
    }

    /// The vertex at a place in bucket 0, counted from its end, from which its items are taken.
    fn from_end_of_first(&self, place: usize) -> Option<u32> {
        from_end(self.lists.first()?, place)
    }

    /// The first bucket that isn't empty. `None` exactly where each is.
    fn lowest(&self) -> Option<usize>
        ensures some { IfSome result (IsLowest self.now) }
        ensures none { IfNone result ((k : ℕ) → bucket_at self.now k ≡ []) }
    {
        first_filled(&self.lists)
    }
}

/// The vertex at a place, counted from the end.
fn from_end(items: &[(u64, u32)], place: usize) -> Option<u32> {
    let later = place.checked_add(1)?;
    let item = items.get(items.len().checked_sub(later)?)?;
    Some(item.1)
}

/// The place of the first list that isn't empty. `None` exactly where each is.
fn first_filled(lists: &[Vec<(u64, u32)>]) -> Option<usize>
    ensures { result ≡ position (λ list. not (list.len == 0)) lists.now }
{
    lists.iter().position(|list| !list.is_empty())
}

/// The number of the bucket of a priority: how many low bits hold all in which it differs from the last one.
fn number_of(last: u64, priority: u64) -> usize
    requires { priority ≤ last }
    ensures placed { IsPlaced last result priority }
    ensures within { result < 65 }
{
    (64 - (priority ^ last).leading_zeros()) as usize
}

/// Whether what stands in the bucket of this number, or in a later one, isn't above the bound, as the numbers tell alone.
fn is_passed(last: u64, number: usize, bound: Option<u64>) -> bool
    ensures passed { IsTrue result → (k p : ℕ) → number ≤ k → IsPlaced last k p → is_above bound p ≡ false }
    ensures not_passed { IsFalse result → IsTrue (is_above bound last) }
{
    match bound {
        Some(bound) => last <= bound || number_of(last, bound) < number,
        None => false,
    }
}

/// Puts an item into its bucket.
fn put(buckets: &mut Buckets, last: u64, item: (u64, u32)) -> Result<(), NoMemory>
    requires size { length buckets.old ≡ 65 }
    requires below { item.0 ≤ last }
    requires placed { ArePlaced last buckets.old }
    ensures items { OnOk result (IsPermutation (item ∷ bucketed buckets.old) (bucketed buckets.new)) }
    ensures size { length buckets.new ≡ 65 }
    ensures placed { ArePlaced last buckets.new }
    ensures unchanged { OnErr result (buckets.new ≡ buckets.old) }
{
    buckets.push(number_of(last, item.0), item)
}

/// Moves each item that has to be moved to its bucket. After `NoMemory` some still have to.
fn settle(buckets: &mut Buckets, moving: &mut Vec<(u64, u32)>, last: u64) -> Result<(), NoMemory>
    requires { IsRadix last moving.old.items buckets.old }
    ensures radix { IsRadix last moving.new.items buckets.new }
    ensures items { IsPermutation (moving.old.items ++ bucketed buckets.old) (moving.new.items ++ bucketed buckets.new) }
    ensures moved { OnOk result (moving.new.items ≡ []) }
{
    while let Some(item) = moving.last() {
        put(buckets, last, *item)?;
        moving.pop();
    }
    Ok(())
}

/// The place of an item of the greatest priority.
fn greatest(items: &[(u64, u32)]) -> usize
    requires { 0 < length items.now }
    ensures within { result < length items.now }
    ensures best { (d : ℕ × ℕ) → All (λ item. item.0 ≤ (slice_index_or items.now result d).0) items.now }
{
    let mut place = 0;
    let mut best = 0;
    for (i, item) in items.iter().enumerate() {
        if best < item.0 {
            best = item.0;
            place = i;
        }
    }
    place
}

/// Takes an item of the greatest priority, where that is above the bound, and makes that priority the last one. Else the bound
/// becomes the last one.
fn take_greatest(
    items: &mut Vec<(u64, u32)>,
    last: &mut u64,
    bound: Option<u64>,
) -> Option<(u64, u32)>
    requires some { 0 < length items.old.items }
    requires below { All (λ item. item.0 ≤ last.old) items.old.items }
    ensures items { IfSome result (λ top. IsPermutation items.old.items (top ∷ items.new.items)) }
    ensures above { IfSome result (λ top. IsTrue (is_above bound top.0)) }
    ensures best { IfSome result (λ top. last.new ≡ top.0) }
    ensures none { IfNone result (is_above bound last.new ≡ false) }
    ensures kept { IfNone result (items.new.items ≡ items.old.items) }
    ensures last_below { All (λ item. item.0 ≤ last.new) items.old.items }
    ensures last_falls { last.new ≤ last.old }
{
    let place = greatest(items);
    let top = items[place].0;
    match bound {
        Some(bound) if top <= bound => {
            *last = bound.min(*last);
            None
        }
        _ => {
            *last = top;
            Some(items.swap_remove(place))
        }
    }
}

/// Vertices that wait, each with a priority, in a radix heap (Ahuja, Mehlhorn, Orlin and Tarjan, Faster algorithms for the
/// shortest path problem, Journal of the ACM 37, 1990). It serves where the priorities that are taken don't rise: a vertex whose
/// priority is above the last one isn't taken in. The last one is the priority that was taken last, or the bound that turned a
/// call down, and the greatest number of all where nothing waits. Each vertex stands in a bucket by the highest bit in which its
/// priority differs from the last one, so what stands in a bucket is above all that stands in later ones. It is used from a push
/// on until nothing was found to wait.
#[derive(Drop)]
pub(crate) struct Radix {
    buckets: Buckets,
    moving: Vec<(u64, u32)>,
    last: u64,
    used: bool,
}

impl Model for Radix {
    ghost use Rattle.std.specs.Prelude.{◌≡◌, List, [], ℕ, ◌++◌, false};
    ghost use Rattle.ris_repair.specs.Radix.{bucketed, IsRadix};

    ghost Value = { List (ℕ × ℕ) };

    ghost view = { λ radix. radix.moving.items ++ bucketed radix.buckets };

    ghost invariant = { λ radix. IsRadix radix.last radix.moving.items radix.buckets × (radix.used ≡ false → radix.moving.items ++ bucketed radix.buckets ≡ []) };
}

impl Radix {
    /// A radix heap that takes nothing in. It takes no memory.
    pub(crate) fn shut(alloc: Global) -> Radix
        ensures { result ≡ [] }
    {
        Radix {
            buckets: Buckets::none(alloc),
            moving: Vec::new(alloc),
            last: u64::MAX,
            used: false,
        }
    }

    /// A radix heap in which nothing waits, and which takes vertices in.
    pub(crate) fn open(alloc: Global) -> Result<Radix, NoMemory>
        ensures { IfOk result (λ radix. radix ≡ []) }
    {
        Ok(Radix {
            buckets: Buckets::all(alloc)?,
            moving: Vec::new(alloc),
            last: u64::MAX,
            used: false,
        })
    }

    /// One vertex more waits, where it is taken in, and then the answer is true: where this is open, and the priority isn't
    /// above the last one. Else the same ones wait, as they do after `NoMemory`.
    pub(crate) fn push(&mut self, priority: u64, vertex: u32) -> Result<bool, NoMemory>
        ensures items { IfOk result (λ taken. IsPermutation (if taken then (priority, vertex) ∷ self.old else self.old) self.new) }
        ensures unchanged { OnErr result (self.new ≡ self.old) }
    {
        if self.last < priority || self.buckets.is_none() {
            return Ok(false);
        }
        self.used = true;
        put(&mut self.buckets, self.last, (priority, vertex))?;
        Ok(true)
    }

    /// A vertex that is likely to be taken soon, for each place from 0 on mostly another one, or `None`. Which one is part of
    /// no contract.
    pub(crate) fn coming(&self, place: usize) -> Option<u32> {
        match self.buckets.from_end_of_first(place) {
            None => from_end(&self.moving, place),
            found => found,
        }
    }

    /// Takes a vertex of the greatest priority, where that is above the bound, if there is one. `None` exactly where none is.
    /// After `NoMemory` the same vertices wait. Each vertex is moved at most 64 times until it is taken, and each call looks at
    /// up to 65 buckets. Buckets keep their memory.
    pub(crate) fn pop_above(&mut self, bound: Option<u64>) -> Result<Option<(u64, u32)>, NoMemory>
        ensures items { IfOk result (λ found. IfSome found (λ top. IsPermutation self.old (top ∷ self.new))) }
        ensures best { IfOk result (λ found. IfSome found (λ top. All (λ item. item.0 ≤ top.0) self.new)) }
        ensures above { IfOk result (λ found. IfSome found (λ top. IsTrue (is_above bound top.0))) }
        ensures none { IfOk result (λ found. IfNone found (All (λ item. is_above bound item.0 ≡ false) self.new)) }
        ensures kept { IfOk result (λ found. IfNone found (IsPermutation self.old self.new)) }
        ensures unchanged { OnErr result (IsPermutation self.old self.new) }
    {
        if !self.used {
            return Ok(None);
        }
        settle(&mut self.buckets, &mut self.moving, self.last)?;
        let Some(number) = self.buckets.lowest() else {
            self.last = u64::MAX;
            self.used = false;
            return Ok(None);
        };
        if is_passed(self.last, number, bound) {
            return Ok(None);
        }
        if number == 0 {
            return Ok(self.buckets.pop(0));
        }
        self.buckets.swap(number, &mut self.moving);
        Ok(take_greatest(&mut self.moving, &mut self.last, bound))
    }
}
