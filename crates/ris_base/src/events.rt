use crate::{Forests, Question, Request, Sequence};

/// What a cell of the parallel phase made of a request: nothing yet; it was applied; there is no copy to take; or it was
/// sent to the serial part of the turn.
#[derive(Clone, Copy, Debug, PartialEq, Eq)]
pub enum Verdict {
    Waiting,
    Applied,
    NoEdge,
    Bounced,
}

/// The sessions of the requests that a turn decided in parallel, in the order in which they enter the serial list.
pub type Order = Sequence<u32>;

/// An atomic action of the core machine.
#[derive(Drop)]
pub enum Event {
    Submit { session: u32, request: Request },
    Take { session: u32 },
    Begin,
    Cell { stripe: u32, session: u32 },
    Seal { order: Order },
    Serial { session: u32, forests: Forests },
    Mark { session: u32 },
    Leave { session: u32 },
    Publish,
    Read { session: u32, question: Question },
}

/// A list of events, in the order in which they happen.
pub type Events = Sequence<Event>;
