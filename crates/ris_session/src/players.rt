ghost use Rattle.std.specs.Prelude.{◌≡◌, ◌≢◌, ◌<◌, ◌≤◌, length, slice_get, IfOk, IsSomeAnd, IsSome};

use crate::requests::{question_of, request_of};
use ris_base::{
    Commands, Log, LogLine, NoMemory, Outcome, Question, ReadAnswer, ReadRefusal, Request, Sequence,
};
use std::alloc::Global;
use std::marker::Model;

/// A session has at most so many requests without a reply.
const OPEN_LIMIT: u32 = 16;

/// What a session does next: it submits a request; it asks a question; it is done, since every command has its reply;
/// or it awaits a reply.
#[derive(Drop)]
pub enum Next {
    Submit(Request),
    Ask(Question),
    Done,
    Await,
}

/// A session's way through its commands, which are numbered 0, 1, 2, .. in their order, reads among them. It takes no
/// memory after `new`, waits for nothing, and knows nothing of who carries its requests.
#[derive(Drop)]
pub struct Player {
    left: Commands,
    log: Vec<LogLine>,
    last: u64,
    session: u32,
    open_requests: u32,
}

impl Model for Player {
    ghost use Rattle.ris_session.specs.PlayerView.{PlayerView, IsSound};

    ghost Value = { PlayerView };

    ghost view = { λ p. record {
      session = p.session;
      left = p.left;
      open_requests = p.open_requests;
      last = p.last;
      log = p.log.items;
    } };

    ghost invariant = { λ p. IsSound p.left p.log p.open_requests };
}

impl Player {
    ghost use Rattle.ris_session.specs.PlayerView.{player_of, request_of, next_number, step_of, IsAsk, after_next, after_reply, after_answer};

    /// A session with this number and these commands, none of which is given. It takes the memory for one log line per
    /// command.
    pub fn new(alloc: Global, session: u32, commands: Commands) -> Result<Player, NoMemory>
        ensures { IfOk result (λ player. player ≡ player_of session commands) }
    {
        let log = Vec::with_capacity(alloc, commands.len() as usize)?;
        Ok(Player {
            left: commands,
            log,
            last: 0,
            session,
            open_requests: 0,
        })
    }

    /// What to do next. `Submit` exactly where the next command is a change, a release or a leave and fewer than 16
    /// requests are open: the command is then given and its request open, which carries the session and the command's
    /// number. `Ask` exactly where the next command is a read and no request is open; its place is filled in, and the
    /// command stays until it is answered. `Done` exactly where every command has its reply. Else `Await`. In constant
    /// time; it takes no memory.
    pub fn next(&mut self) -> Next
        ensures step { result ≡ step_of self.old }
        ensures after { self.new ≡ after_next self.old }
    {
        let question = match self.left.get(0) {
            Some(command) => question_of(command, self.last),
            None if self.open_requests == 0 => return Next::Done,
            None => return Next::Await,
        };
        match question {
            Some(question) if self.open_requests == 0 => Next::Ask(question),
            None if self.open_requests < OPEN_LIMIT => Next::Submit(self.submit()),
            _ => Next::Await,
        }
    }

    /// Gives the first command left, which is no read, while fewer than 16 requests are open.
    fn submit(&mut self) -> Request
        requires few { self.old.open_requests < OPEN_LIMIT }
        requires some { IsSomeAnd (slice_get self.old.left 0) (λ c. IsSome (request_of self.old.session (next_number self.old) c)) }
        ensures step { step_of self.old ≡ Next.Submit result }
        ensures after { self.new ≡ after_next self.old }
    {
        let seq = self.log.len() as u64 + u64::from(self.open_requests);
        match self.left.take_first() {
            Some(command) => {
                self.open_requests += 1;
                request_of(self.session, seq, command)
            }
            None => unreachable!(),
        }
    }

    /// The reply to the oldest open request, which has the number `seq`: the number of log lines so far. A request that
    /// is closed has no reply. In constant time; it takes no memory.
    pub fn replied(&mut self, seq: u64, outcome: Outcome)
        requires oldest { seq ≡ length self.old.log }
        requires some { 1 ≤ self.old.open_requests }
        requires kept { outcome ≢ Outcome.Closed }
        ensures { self.new ≡ after_reply self.old outcome }
    {
        if let Outcome::Placed { place } = outcome {
            self.last = place;
        }
        self.open_requests -= 1;
        self.log.push_reserved(LogLine::Reply(outcome));
    }

    /// The answer to the question that `next` asks. A read that was shut out is asked again, and has no answer. In
    /// constant time; it takes no memory.
    pub fn answered(&mut self, answer: Result<ReadAnswer, ReadRefusal>)
        requires asked { IsAsk (step_of self.old) }
        requires kept { answer ≢ Err ReadRefusal.Shut }
        ensures { self.new ≡ after_answer self.old answer }
    {
        let line = match answer {
            Ok(answer) => LogLine::Answer(answer),
            Err(denied) => LogLine::Denied(denied),
        };
        let _ = self.left.take_first();
        self.log.push_reserved(line);
    }

    /// The replies, one per command, where `next` answers `Done`. It takes no memory.
    pub fn finish(self) -> Log
        requires done { step_of self ≡ Next.Done }
        ensures { result ≡ self.log }
    {
        let Player { log, .. } = self;
        Sequence::from_vec(log)
    }
}
