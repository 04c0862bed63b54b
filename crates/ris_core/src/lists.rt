ghost use Rattle.std.specs.Prelude.{◌≡◌, min};
ghost use Rattle.std.specs.List.{list_any};
ghost use Rattle.std.specs.Option.{option_map_or};
ghost use Rattle.ris_base.specs.Lines.{floor, front, front_at_leave, least_mark, mark};
ghost use Rattle.ris_core.specs.Marks.{is_leave_of, mark_in};

use ris_base::Line;

/// The number of entries of a list of lines.
pub(crate) fn front(lines: &[Line]) -> u64
    ensures { result ≡ front lines.now }
{
    let mut count = 0;
    for line in lines {
        if let Line::Entry(_) = line {
            count += 1;
        }
    }
    count
}

/// The floor of a list of lines of so many sessions: the least mark over those that haven't left; where all have left, the
/// number of entries before the last leave.
pub(crate) fn floor(sessions: u64, lines: &[Line]) -> u64
    ensures { result ≡ floor sessions lines.now }
{
    match least_mark(sessions, lines) {
        Some(mark) => mark,
        None => front_at_leave(lines),
    }
}

/// The least mark over those of the first sessions that haven't left, where there is one.
fn least_mark(sessions: u64, lines: &[Line]) -> Option<u64>
    ensures { result ≡ least_mark sessions lines.now }
{
    let mut least = None;
    for session in 0..sessions {
        if !has_left(lines, session) {
            least = Some(least_of(least, mark(lines, session)));
        }
    }
    least
}

/// The lesser of a mark and another one, where there is one.
fn least_of(least: Option<u64>, mark: u64) -> u64
    ensures { result ≡ option_map_or (min mark) least mark }
{
    match least {
        Some(other) => mark.min(other),
        None => mark,
    }
}

/// The mark of a session.
fn mark(lines: &[Line], session: u64) -> u64
    ensures { result ≡ mark lines.now session }
{
    let mut greatest = 0u64;
    for line in lines {
        greatest = greatest.max(mark_in(line, session));
    }
    greatest
}

/// The place of a line where it is a mark of this session, else 0.
fn mark_in(line: &Line, session: u64) -> u64
    ensures { result ≡ mark_in line.now session }
{
    match line {
        Line::Mark {
            session: named,
            upto,
            ..
        } => {
            if u64::from(*named) == session {
                *upto
            } else {
                0
            }
        }
        Line::Entry(_) | Line::Leave { .. } => 0,
    }
}

/// Whether a session has left.
fn has_left(lines: &[Line], session: u64) -> bool
    ensures { result ≡ list_any (is_leave_of session) lines.now }
{
    lines.iter().any(|line| is_leave_of(line, session))
}

/// Whether a line is a leave of this session.
fn is_leave_of(line: &Line, session: u64) -> bool
    ensures { result ≡ is_leave_of session line.now }
{
    match line {
        Line::Leave { session: named, .. } => u64::from(*named) == session,
        Line::Entry(_) | Line::Mark { .. } => false,
    }
}

/// The number of entries before the last leave.
fn front_at_leave(lines: &[Line]) -> u64
    ensures { result ≡ front_at_leave 0 0 lines.now }
{
    let mut count = 0;
    let mut at = 0;
    for line in lines {
        match line {
            Line::Entry(_) => count += 1,
            Line::Leave { .. } => at = count,
            Line::Mark { .. } => {}
        }
    }
    at
}
