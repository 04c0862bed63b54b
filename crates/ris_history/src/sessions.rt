ghost use Rattle.std.specs.Prelude.{◌≡◌};
ghost use Rattle.ris_history.specs.Applied.{least_of};

/// What a history knows of a session: the greatest place below which it said that it needs no version, or 0, and whether
/// it has left.
#[derive(Clone, Copy, Debug, PartialEq, Eq)]
pub struct Session {
    pub mark: u64,
    pub has_left: bool,
}

/// The least mark of the sessions that haven't left, where there is one.
pub(crate) fn least_mark(sessions: &[Session]) -> Option<u64>
    ensures { result ≡ least_of sessions.now }
{
    let mut least = None;
    for session in sessions {
        if !session.has_left {
            least = Some(match least {
                Some(mark) => session.mark.min(mark),
                None => session.mark,
            });
        }
    }
    least
}
