ghost use Rattle.std.specs.Prelude.{◌≡◌, ◌≤◌, Err, IfOk, length, map};
ghost use Rattle.std.specs.Option.{option_copied};
ghost use Rattle.ris_base.specs.Forest.{AreForests, forest_in};
ghost use Rattle.ris_base.specs.Graph.{IsProper};
ghost use Rattle.ris_base.specs.Machine.{opened, step_of};
ghost use Rattle.ris_core.specs.Runs.{IsRun, outcome_of};
ghost use Rattle.ris_core.specs.Stands.{IsTried, state_of};
ghost use Rattle.ris_legal.specs.Held.{IsLegalState};

use crate::board::Board;
use crate::checks::are_forests;
use crate::tables::tables_of;
use ris_base::{Event, Events, Forests, NoMemory, Outcome, PlainGraph, Specs};
use std::alloc::Global;
use std::error::Error;
use std::fmt;
use std::marker::Model;
use std::thread::Threads;

/// Why the machine did not start: the forests aren't right for place 0, or memory was wanted.
#[derive(Clone, Copy, Debug, PartialEq, Eq)]
pub enum CoreFault {
    BadForests,
    NoMemory,
}

impl fmt::Display for CoreFault {
    fn fmt<W: fmt::Write>(&self, f: &mut fmt::Formatter<W>) -> fmt::Result {
        match self {
            CoreFault::BadForests => write!(f, "the forests are not right"),
            CoreFault::NoMemory => write!(f, "out of memory"),
        }
    }
}

impl Error for CoreFault {}

/// The core machine: what the sessions, a turn of the driver and the serial list do, one atomic action at a time. Whatever events
/// happen, the commands, the replies and the list are legal. Each event costs a copy of the state at most, and a change that is
/// entered one by one costs a reckoning of all values from scratch.
#[derive(Drop)]
pub struct Core {
    board: Board,
    alloc: Global,
}

impl Model for Core {
    ghost use Rattle.ris_core.specs.Stands;
    ghost use Rattle.ris_core.specs.Stands.{state_of};
    ghost use Rattle.ris_legal.specs.Held.{IsKept};

    ghost Value = { Stands.Listing };

    ghost view = { λ c. c.board };

    ghost invariant = { λ c. IsKept (state_of c.board) };
}

impl Core {
    /// The state in which nothing has happened, of 1 to 4 analyses and 1 to 64 sessions, with these forests of place 0. `BadForests`
    /// exactly where they aren't right forests of the graph; want of memory may come in either case. It reckons all values of the
    /// graph from scratch.
    pub fn start<R: Threads + Sync>(
        rt: &R,
        alloc: Global,
        graph: PlainGraph,
        specs: Specs,
        sessions: u32,
        forests: Forests,
    ) -> Result<Core, CoreFault>
        requires proper { IsProper graph }
        requires some_specs { 1 ≤ length specs }
        requires few_specs { length specs ≤ 4 }
        requires some_sessions { 1 ≤ sessions }
        requires few_sessions { sessions ≤ 64 }
        ensures opened { IfOk result (λ core. state_of core
            ≡ opened (record { opening = graph; specs = specs; sessions = sessions }) (map forest_in forests)) }
        ensures right { IfOk result (λ core. AreForests graph specs (map forest_in forests)) }
        ensures bad { result ≡ Err CoreFault.BadForests → ¬ (AreForests graph specs (map forest_in forests)) }
    {
        let Ok(tables) = tables_of(alloc, &forests) else {
            return Err(CoreFault::NoMemory);
        };
        let Ok(right) = are_forests(rt, alloc, &graph, &specs, &tables) else {
            return Err(CoreFault::NoMemory);
        };
        if !right {
            return Err(CoreFault::BadForests);
        }
        match Board::new(alloc, graph, specs, sessions, tables) {
            Ok(board) => Ok(Core { board, alloc }),
            Err(NoMemory) => Err(CoreFault::NoMemory),
        }
    }

    /// Tries one event. `Ok(true)`: it happened. `Ok(false)` exactly where it isn't enabled; nothing changed. After `NoMemory` nothing
    /// changed. A read is answered with the forests of its place, and its answer is kept beside its question.
    pub fn step<R: Threads + Sync>(&mut self, rt: &R, event: &Event) -> Result<bool, NoMemory>
        ensures tried { IsTried self.old (step_of event.now) self.new result }
        ensures legal { IsLegalState (state_of self.new) }
    {
        self.board.step(rt, self.alloc, event)
    }

    /// What became of the request of this session with this number: its reply, given or withheld. `None` exactly where it has none. It
    /// walks through the session's commands.
    pub fn outcome(&self, session: u32, seq: u64) -> Option<&Outcome>
        ensures { option_copied result ≡ outcome_of (state_of self.now) session seq }
    {
        self.board.outcome(session, seq)
    }

    /// Tries events, one after another, and answers how many happened. After `NoMemory` those before the one at which memory was wanted
    /// stand. Whatever the events are, what they leave is legal.
    pub fn run<R: Threads + Sync>(&mut self, rt: &R, events: &Events) -> Result<u64, NoMemory>
        ensures ran { IsRun self.old (map step_of events.now) self.new result }
        ensures legal { IsLegalState (state_of self.new) }
    {
        let mut happened = 0;
        for k in 0..events.len() {
            let Ok(done) = self.board.step(rt, self.alloc, events.at(k)) else {
                return Err(NoMemory);
            };
            if done {
                happened += 1;
            }
        }
        Ok(happened)
    }
}
