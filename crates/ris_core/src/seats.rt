ghost use Rattle.std.specs.Prelude.{◌≡◌, ◌==◌, ◌+◌, ◌<◌, ◌^◌, ◌∷◌, ◌++◌, [], All, OnOk, OnErr, IfOk, length, map, slice_get, nat_lt, is_some};
ghost use Rattle.std.specs.List.{list_all, list_any};
ghost use Rattle.ris_base.specs.Legal;
ghost use Rattle.ris_base.specs.Machine;
ghost use Rattle.ris_base.specs.Machine.{asked_more, told_seat, empty_seat, is_leave, next_of, next_seq};
ghost use Rattle.ris_core.specs.Moves.{command_for, entry_for, may_ask, published_seat, seat_read};
ghost use Rattle.ris_core.specs.Runs.{outcome_by, outcome_in};
ghost use Rattle.ris_core.specs.Parts.{leave_seq, release_seq};
ghost use Rattle.ris_core.specs.Stands.{stand_of};
ghost use Rattle.std.specs.Option.{option_copied};

use crate::copies::{Duplicate, copies_of};
use crate::memory::push_both;
use crate::phases::Stand;
use ris_base::{Command, Entry, LogLine, NoMemory, Outcome, Question, Verdict, Version};
use std::alloc::Global;
use std::marker::Model;

/// A command with its number in its session. A read has the number behind the last one, which may be past the greatest u64.
#[derive(Drop)]
pub(crate) struct Asked {
    pub(crate) seq: u128,
    pub(crate) command: Command,
}

impl Model for Asked {
    ghost use Rattle.std.specs.Prelude.{◌≡◌, ◌<◌, ◌^◌, None};
    ghost use Rattle.ris_base.specs.Answers.{question_of};
    ghost use Rattle.ris_base.specs.Legal;

    ghost Value = { Legal.Asked };

    ghost view = { λ a. record { seq = a.seq; command = a.command } };

    ghost invariant = { λ a. question_of a.command 0 ≡ None → a.seq < 2 ^ 64 };
}

impl Asked {
    /// The number, where this is a leave.
    pub(crate) fn leave(&self) -> Option<u64>
        ensures { result ≡ leave_seq self.now }
    {
        match self.command {
            Command::Leave => Some(self.seq as u64),
            _ => None,
        }
    }

    /// The entry that this makes as a command of session `session`, where it is a change.
    pub(crate) fn entry(&self, alloc: Global, session: u32) -> Result<Option<Entry>, NoMemory>
        ensures { IfOk result (λ entry. entry ≡ entry_for session self.now) }
    {
        match &self.command {
            Command::Change(parts) => {
                let parts = parts.copy(alloc)?;
                Ok(Some(Entry {
                    session,
                    seq: self.seq as u64,
                    parts,
                }))
            }
            _ => Ok(None),
        }
    }

    /// The number and the place, where this is a release.
    pub(crate) fn release(&self) -> Option<(u64, u64)>
        ensures { result ≡ release_seq self.now }
    {
        match self.command {
            Command::Release(upto) => Some((self.seq as u64, upto)),
            _ => None,
        }
    }
}

/// A reply, and on how many first lines it rests.
#[derive(Drop)]
pub(crate) struct Known {
    pub(crate) reply: LogLine,
    pub(crate) knew: u64,
}

impl Model for Known {
    ghost use Rattle.ris_base.specs.Machine;

    ghost Value = { Machine.Known };

    ghost view = { λ k. record { reply = k.reply; knew = k.knew } };
}

impl Known {
    /// What became of a request, where this is the reply to one.
    fn outcome(&self) -> Option<&Outcome>
        ensures { option_copied result ≡ outcome_by self.now.reply }
    {
        match &self.reply {
            LogLine::Reply(outcome) => Some(outcome),
            LogLine::Answer(_) | LogLine::Denied(_) => None,
        }
    }
}

/// What a session said and was told, in order.
#[derive(Drop)]
pub(crate) struct Seat {
    commands: Vec<Asked>,
    replies: Vec<Known>,
    given: u64,
    stand: Stand,
    seen: u64,
}

impl Model for Seat {
    ghost use Rattle.std.specs.Prelude.{◌+◌, ◌^◌, ◌<◌, All, length};
    ghost use Rattle.ris_base.specs.Machine;
    ghost use Rattle.ris_core.specs.Stands.{stand_of};

    ghost Value = { Machine.Seat };

    ghost view = { λ s. record { commands = s.commands.items; replies = s.replies.items; given = s.given; stand = stand_of s.stand; seen = s.seen } };

    ghost invariant = { λ s. All (λ a. a.seq < 2 ^ 64 + length s.commands.items) s.commands.items };
}

/// A candidate that was decided.
#[derive(Drop)]
pub(crate) struct Decided {
    pub(crate) entry: Entry,
    pub(crate) verdict: Verdict,
}

impl Model for Decided {
    ghost use Rattle.ris_base.specs.Machine;

    ghost Value = { Machine.Decided };

    ghost view = { λ d. record { entry = d.entry; verdict = d.verdict } };
}

impl Seat {
    /// The seat of a session that said nothing.
    pub(crate) fn new(alloc: Global) -> Seat
        ensures { result ≡ empty_seat }
    {
        Seat {
            commands: Vec::new(alloc),
            replies: Vec::new(alloc),
            given: 0,
            stand: Stand::Queued,
            seen: 0,
        }
    }

    /// Where the next command stands.
    pub(crate) fn stand(&self) -> Stand
        ensures { stand_of result ≡ self.now.stand }
    {
        self.stand
    }

    /// The next command stands elsewhere.
    pub(crate) fn move_to(&mut self, stand: Stand)
        ensures { self.new ≡ record self.old { stand = stand_of stand } }
    {
        self.stand = stand;
    }

    /// One request more.
    pub(crate) fn ask(&mut self, seq: u64, command: Command) -> Result<(), NoMemory>
        ensures ok { OnOk result (self.new ≡ asked_more self.old (record { seq = seq; command = command })) }
        ensures err { OnErr result (self.new ≡ self.old) }
    {
        self.commands.push(Asked {
            seq: u128::from(seq),
            command,
        })?;
        Ok(())
    }

    /// Whether some command has no reply.
    pub(crate) fn is_open(&self) -> bool
        ensures { result ≡ is_some (next_of self.now) }
    {
        self.next().is_some()
    }

    /// Whether a request with this number may be submitted: all earlier numbers are smaller, fewer than 16 requests are open, and the
    /// session hasn't submitted a leave.
    pub(crate) fn may_ask(&self, seq: u64) -> bool
        ensures { result ≡ may_ask self.now seq }
    {
        self.is_below(u128::from(seq)) && self.has_room() && !self.has_left()
    }

    /// Whether all numbers so far are smaller.
    fn is_below(&self, seq: u128) -> bool
        ensures { result ≡ list_all (λ a. nat_lt a.seq seq) self.now.commands }
    {
        self.commands.iter().all(|asked| asked.seq < seq)
    }

    /// Whether fewer than 16 requests are open.
    fn has_room(&self) -> bool
        ensures { result ≡ nat_lt (length self.now.commands) (self.now.given + 16) }
    {
        let open = (self.commands.len() as u64).saturating_sub(self.given);
        open < 16
    }

    /// Whether the session has submitted a leave.
    fn has_left(&self) -> bool
        ensures { result ≡ list_any is_leave self.now.commands }
    {
        self.commands
            .iter()
            .any(|asked| matches!(asked.command, Command::Leave))
    }

    /// The next command, which has no reply yet.
    pub(crate) fn next(&self) -> Option<&Asked>
        ensures { option_copied result ≡ next_of self.now }
    {
        self.commands.get(self.replies.len())
    }

    /// One reply more, which rests on so many lines.
    pub(crate) fn tell(&mut self, reply: LogLine, knew: u64) -> Result<(), NoMemory>
        ensures ok { OnOk result (self.new ≡ told_seat self.old reply knew) }
        ensures err { OnErr result (self.new ≡ self.old) }
    {
        self.replies.push(Known { reply, knew })?;
        self.stand = Stand::Queued;
        Ok(())
    }

    /// What became of the request with this number.
    pub(crate) fn outcome(&self, seq: u64) -> Option<&Outcome>
        ensures { option_copied result ≡ outcome_in self.now.commands self.now.replies seq }
    {
        for k in 0..self.commands.len().min(self.replies.len()) {
            if self.commands[k].seq == u128::from(seq) {
                return self.replies[k].outcome();
            }
        }
        None
    }

    /// Whether each command has a reply that is given.
    pub(crate) fn is_answered(&self) -> bool
        ensures { result ≡ (self.now.given == length self.now.commands) }
    {
        self.given == self.commands.len() as u64
    }

    /// A read with its reply, on so many lines. After `NoMemory` all is as before.
    pub(crate) fn read(
        &mut self,
        question: Question,
        reply: LogLine,
        published: u64,
    ) -> Result<(), NoMemory>
        requires { self.old.given ≡ length self.old.commands }
        ensures ok { OnOk result (self.new ≡ seat_read published self.old question reply) }
        ensures err { OnErr result (self.new ≡ self.old) }
    {
        let asked = Asked {
            seq: self.next_seq(),
            command: command_for(question),
        };
        let known = Known {
            reply,
            knew: published,
        };
        push_both(&mut self.replies, &mut self.commands, known, asked)?;
        self.given += 1;
        self.seen = published;
        Ok(())
    }

    /// One more than the number of the last command, or 0.
    fn next_seq(&self) -> u128
        ensures exact { result ≡ next_seq self.now.commands }
        ensures small { result < 2 ^ 64 + length self.now.commands + 1 }
    {
        match self.commands.last() {
            Some(asked) => asked.seq + 1,
            None => 0,
        }
    }

    /// All replies are given, and the session has seen so many lines.
    pub(crate) fn publish(&mut self, seen: u64)
        ensures { self.new ≡ published_seat seen self.old }
    {
        self.given = self.replies.len() as u64;
        self.seen = seen;
    }
}

/// The command that asks a question.
fn command_for(question: Question) -> Command
    ensures { result ≡ command_for question }
{
    match question {
        Question::Value { place, a, x } => Command::Value(Version::At(place), a, x),
        Question::Parent { place, a, x } => Command::Parent(Version::At(place), a, x),
        Question::Path { place, a, x } => Command::Path(Version::At(place), a, x),
        Question::Modified { place, a } => Command::Modified(Version::At(place), a),
        Question::Current => Command::Current,
    }
}

impl Duplicate for Asked {
    fn duplicate(&self, alloc: Global) -> Result<Self, NoMemory> {
        let command = self.command.duplicate(alloc)?;
        Ok(Asked {
            seq: self.seq,
            command,
        })
    }
}

impl Duplicate for Known {
    fn duplicate(&self, alloc: Global) -> Result<Self, NoMemory> {
        let reply = self.reply.duplicate(alloc)?;
        Ok(Known {
            reply,
            knew: self.knew,
        })
    }
}

impl Duplicate for Decided {
    fn duplicate(&self, alloc: Global) -> Result<Self, NoMemory> {
        let entry = self.entry.copy(alloc)?;
        Ok(Decided {
            entry,
            verdict: self.verdict,
        })
    }
}

impl Duplicate for Seat {
    fn duplicate(&self, alloc: Global) -> Result<Self, NoMemory> {
        let commands = copies_of(alloc, &self.commands)?;
        let replies = copies_of(alloc, &self.replies)?;
        Ok(Seat {
            commands,
            replies,
            given: self.given,
            stand: self.stand,
            seen: self.seen,
        })
    }
}
