ghost use Rattle.std.specs.Prelude.{◌≡◌, ◌+◌, ◌<◌, ◌≤◌, ◌==◌, ℕ, List, [], length, drop, slice_get, slice_index_or, IfOk};
ghost use Rattle.std.specs.List.{list_any};
ghost use Rattle.std.specs.VecDeque.{deque_len};
ghost use Rattle.ris_base.specs.Machine.{stripe_by};

use ris_base::{Entry, NoMemory, Request, Update};
use std::alloc::Global;
use std::collections::VecDeque;
use std::marker::Model;

/// The greatest length of an ordered list: one item for each session.
const ROOM: usize = 64;

/// What has a key by which it is ordered.
pub(crate) trait Keyed: Drop {
    /// The key.
    ghost key_of: { Self → ℕ };

    /// The key.
    fn key(&self) -> u32
        ensures { result ≡ key_of self.now };
}

/// Requests are ordered by their sessions.
impl Keyed for Request {
    ghost use Rattle.ris_base.specs.Machine.{session_by};

    ghost key_of = { session_by };

    fn key(&self) -> u32 {
        match self {
            Request::Submit(entry) => entry.session,
            Request::Release { session, .. } | Request::Leave { session, .. } => *session,
        }
    }
}

/// Entries of one part are ordered by the stripe of the part.
impl Keyed for Entry {
    ghost use Rattle.ris_epoch.specs.Ordering.{stripe_by_entry};

    ghost key_of = { stripe_by_entry };

    fn key(&self) -> u32 {
        match self.parts.get(0) {
            Some(part) => stripe_by(part),
            None => 0,
        }
    }
}

/// The stripe of an update: that of its vertex, or of its edge's source.
fn stripe_by(update: &Update) -> u32
    ensures { result ≡ stripe_by update.now }
{
    let x = match *update {
        Update::AddV { x } | Update::DelV { x } => x,
        Update::AddE { u, .. } | Update::DelE { u, .. } | Update::SetW { u, .. } => u,
    };
    (x % 64) as u32
}

/// At most 64 items, with the memory for as many, each behind those of its key or a lesser one.
#[derive(Drop)]
pub(crate) struct OrderedList<T> {
    items: VecDeque<T>,
}

impl<T> Model for OrderedList<T> {
    ghost use Rattle.std.specs.Prelude.{◌≤◌, List};
    ghost use Rattle.std.specs.Coded.{coded_list};
    ghost use Rattle.std.specs.VecDeque.{deque_capacity};

    ghost Value = { List T };

    ghost coded = { coded_list T.code };

    ghost view = { λ l. l.items.items };

    ghost invariant = { λ l. 64 ≤ deque_capacity l.items };
}

impl<T: Keyed> OrderedList<T> {
    ghost use Rattle.ris_epoch.specs.Ordering.{inserted_by};

    /// A list without items.
    pub(crate) fn new(alloc: Global) -> Result<OrderedList<T>, NoMemory>
        ensures { IfOk result (λ list. list ≡ []) }
    {
        let items = VecDeque::with_capacity(alloc, ROOM)?;
        Ok(OrderedList { items })
    }

    /// The number of items.
    pub(crate) fn len(&self) -> usize
        ensures { result ≡ length self.now }
    {
        self.items.len()
    }

    /// Whether an item has this key. Linear in the items.
    pub(crate) fn has(&self, key: u32) -> bool
        ensures { result ≡ list_any (λ x. T.key_of x == key) self.now }
    {
        self.items.iter().any(|item| item.key() == key)
    }

    /// One item more, behind the last one whose key is at most its own. It takes no memory, and constant time where it
    /// comes last.
    pub(crate) fn add(&mut self, item: T)
        requires { length self.old < 64 }
        ensures { self.new ≡ inserted_by T.key_of self.old item }
    {
        let place = place_of(&self.items, item.key());
        if place == self.items.len() {
            self.items.push_back_reserved(item);
            return;
        }
        let _ = self.items.insert(place, item);
    }

    /// The first item, which is then gone. `None` exactly where there is none.
    pub(crate) fn take_first(&mut self) -> Option<T>
        ensures item { result ≡ slice_get self.old 0 }
        ensures rest { self.new ≡ drop 1 self.old }
    {
        self.items.pop_front()
    }
}

/// The place behind the last item whose key is at most this one.
fn place_of<T: Keyed>(items: &VecDeque<T>, key: u32) -> usize
    ensures within { result ≤ deque_len items.now }
    ensures above { (k : ℕ) (d : T) → result ≤ k → k < deque_len items.now → key < T.key_of (slice_index_or items.now.items k d) }
    ensures below { (k : ℕ) (d : T) → k + 1 ≡ result → T.key_of (slice_index_or items.now.items k d) ≤ key }
{
    let mut place = items.len();
    while place > 0 {
        if items[place - 1].key() <= key {
            return place;
        }
        place -= 1;
    }
    place
}
