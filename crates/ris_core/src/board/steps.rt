ghost use Rattle.ris_base.specs.Machine.{step_of};
ghost use Rattle.ris_core.specs.Stands.{IsTried, state_of};
ghost use Rattle.ris_legal.specs.Held.{IsKept};

use super::Board;
use ris_base::{Event, NoMemory};
use std::alloc::Global;
use std::thread::Threads;

impl Board {
    /// One event, where it is enabled.
    pub(crate) fn step<R: Threads + Sync>(
        &mut self,
        rt: &R,
        alloc: Global,
        event: &Event,
    ) -> Result<bool, NoMemory>
        requires { IsKept (state_of self.old) }
        ensures { IsTried self.old (step_of event.now) self.new result }
    {
        match event {
            Event::Submit { session, request } => self.submit(alloc, *session, request),
            Event::Take { session } => self.take(*session),
            Event::Begin => self.begin(),
            Event::Cell { stripe, session } => self.cell(alloc, *stripe, *session),
            Event::Seal { order } => self.seal(alloc, order),
            Event::Serial { session, forests } => self.serial(rt, alloc, *session, forests),
            Event::Mark { session } => self.mark(*session),
            Event::Leave { session } => self.leave(*session),
            Event::Publish => self.publish(),
            Event::Read { session, question } => self.read(alloc, *session, *question),
        }
    }
}
