ghost use Rattle.std.specs.Prelude.{◌≡◌, ◌≤◌, ◌∷◌, [], length, IsTrue};
ghost use Rattle.ris_base.specs.Transcript.{outcome_fields, refusal_fields, denial_fields};
ghost use Rattle.ris_base.specs.declared.replies.LogLine.TheVariants.{Reply, Denied};
ghost use Rattle.ris_text.specs.Printable.{is_printable};
ghost use Rattle.ris_text.specs.Spelled.{IsLine};

use crate::tails::Tail;
use ris_base::{Outcome, ReadRefusal, Refusal};

/// Puts the outcome of a request as the end of a line.
pub fn put_outcome(tail: &mut Tail, outcome: Outcome)
    requires { IsTrue (is_printable (Reply outcome)) }
    ensures line { IsLine (outcome_fields outcome) tail.new }
    ensures len { length tail.new ≤ 128 }
{
    tail.begin();
    match outcome {
        Outcome::Placed { place } => {
            tail.put_number(place);
            tail.put_word(b"place,");
        }
        Outcome::Marked { front, upto } => {
            tail.put_number(upto);
            tail.put_next(front);
            tail.put_word(b"marked,");
        }
        Outcome::Left { front } => {
            tail.put_number(front);
            tail.put_word(b"left,");
        }
        Outcome::Refused(refusal) => put_refusal(tail, refusal),
        Outcome::NotYet { front } => {
            tail.put_number(front);
            tail.put_word(b"notyet,");
        }
        Outcome::Closed => {}
    }
}

/// Puts the refusal of a request in front of the line feed.
fn put_refusal(tail: &mut Tail, refusal: Refusal)
    requires { tail.old ≡ 10 ∷ [] }
    ensures line { IsLine (refusal_fields refusal) tail.new }
    ensures len { length tail.new ≤ 128 }
{
    match refusal {
        Refusal::NoVertex { front, part, id } => {
            tail.put_number(id);
            tail.put_next(u64::from(part));
            tail.put_next(front);
            tail.put_word(b"novertex,");
        }
        Refusal::NoEdge { front, part } => {
            tail.put_number(u64::from(part));
            tail.put_next(front);
            tail.put_word(b"noedge,");
        }
        Refusal::Limit { front, part, given } => {
            tail.put_number(given);
            tail.put_next(u64::from(part));
            tail.put_next(front);
            tail.put_word(b"limit,");
        }
        Refusal::NoMemory => tail.put_word(b"nomem"),
    }
}

/// Puts the refusal of a read as the end of a line.
pub fn put_denial(tail: &mut Tail, denied: ReadRefusal)
    requires { IsTrue (is_printable (Denied denied)) }
    ensures line { IsLine (denial_fields denied) tail.new }
    ensures len { length tail.new ≤ 128 }
{
    tail.begin();
    match denied {
        ReadRefusal::NotYet { front } => {
            tail.put_number(front);
            tail.put_word(b"notyet,");
        }
        ReadRefusal::Released { front, floor } => {
            tail.put_number(floor);
            tail.put_next(front);
            tail.put_word(b"released,");
        }
        ReadRefusal::NoMemory => tail.put_word(b"nomem"),
        ReadRefusal::Shut => {}
    }
}
