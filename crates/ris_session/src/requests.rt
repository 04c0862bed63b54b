ghost use Rattle.std.specs.Prelude.{◌≡◌, Some, IsSome};
ghost use Rattle.ris_base.specs.Answers.{place_asked, question_of};
ghost use Rattle.ris_session.specs.PlayerView.{request_of};

use ris_base::{Command, Entry, Question, Request, Version};

/// The place that a read asks for, where the last accepted entry of its session has the place `last`.
fn place_asked(version: Version, last: u64) -> u64
    ensures { result ≡ place_asked version last }
{
    match version {
        Version::Last => last,
        Version::At(place) => place,
    }
}

/// The question of a command, where the last accepted entry of its session has the place `last`. `None` exactly where
/// the command is no read.
pub fn question_of(command: &Command, last: u64) -> Option<Question>
    ensures { result ≡ question_of command.now last }
{
    match command {
        Command::Change(_) | Command::Release(_) | Command::Leave => None,
        Command::Value(version, a, x) => Some(Question::Value {
            place: place_asked(*version, last),
            a: *a,
            x: *x,
        }),
        Command::Parent(version, a, x) => Some(Question::Parent {
            place: place_asked(*version, last),
            a: *a,
            x: *x,
        }),
        Command::Path(version, a, x) => Some(Question::Path {
            place: place_asked(*version, last),
            a: *a,
            x: *x,
        }),
        Command::Modified(version, a) => Some(Question::Modified {
            place: place_asked(*version, last),
            a: *a,
        }),
        Command::Current => Some(Question::Current),
    }
}

/// The request of a session for its command number `seq`, which is no read. The parts are moved into it.
pub fn request_of(session: u32, seq: u64, command: Command) -> Request
    requires { IsSome (request_of session seq command) }
    ensures { request_of session seq command ≡ Some result }
{
    match command {
        Command::Change(parts) => Request::Submit(Entry {
            session,
            seq,
            parts,
        }),
        Command::Release(upto) => Request::Release { session, seq, upto },
        Command::Leave => Request::Leave { session, seq },
        Command::Value(..)
        | Command::Parent(..)
        | Command::Path(..)
        | Command::Modified(..)
        | Command::Current => unreachable!(),
    }
}
