ghost use Rattle.std.specs.Prelude.{◌≡◌, ◌<◌, ◌↔◌, [], map, IfOk, IfErr, IsErr, OnOk, OnErr};
ghost use Rattle.std.specs.List.{Contains};
ghost use Rattle.ris_base.specs.Machine.{session_by};

use crate::candidates::Candidate;
use crate::ordered::{Keyed, OrderedList};
use ris_base::{NoMemory, Request};
use std::alloc::Global;
use std::marker::Model;

/// The requests that a turn takes, at most one of each of 64 sessions, in the order of the sessions. It has the memory for
/// 64, and for what a turn makes of them.
#[derive(Drop)]
pub struct Batch {
    pub(crate) requests: OrderedList<Request>,
    pub(crate) candidates: OrderedList<Candidate>,
    pub(crate) rest: OrderedList<Request>,
}

impl Model for Batch {
    ghost use Rattle.std.specs.Prelude.{◌≡◌, List, []};
    ghost use Rattle.ris_base.specs.declared.requests.Request.{Request};
    ghost use Rattle.ris_epoch.specs.Ordering.{AreOrdered};

    ghost Value = { List Request };

    ghost view = { λ b. b.requests };

    ghost invariant = { λ b. AreOrdered 0 b.requests × (b.candidates ≡ []) × (b.rest ≡ []) };
}

impl Batch {
    ghost use Rattle.ris_epoch.specs.Ordering.{AreOrdered, inserted_by};

    /// A batch without requests.
    pub fn new(alloc: Global) -> Result<Batch, NoMemory>
        ensures { IfOk result (λ batch. batch ≡ []) }
    {
        let requests = OrderedList::new(alloc)?;
        let candidates = OrderedList::new(alloc)?;
        let rest = OrderedList::new(alloc)?;
        Ok(Batch {
            requests,
            candidates,
            rest,
        })
    }

    /// One request more, of a session below 64, at its session's place. `Err` exactly where a request of the same session is in it,
    /// with the request; the batch is then as before. Linear in the requests; it takes no memory.
    pub fn add(&mut self, request: Request) -> Result<(), Request>
        requires { session_by request < 64 }
        ensures ok { OnOk result (self.new ≡ inserted_by session_by self.old request) }
        ensures ordered { AreOrdered 0 self.new }
        ensures err { OnErr result (self.new ≡ self.old) }
        ensures back { IfErr result (λ given. given ≡ request) }
        ensures held { IsErr result ↔ Contains (map session_by self.old) (session_by request) }
    {
        if self.requests.has(request.key()) {
            return Err(request);
        }
        self.requests.add(request);
        Ok(())
    }
}
