ghost use Rattle.std.specs.Prelude.{◌≡◌, ◌≤◌, ◌∷◌, ◌++◌, [], length, codes, decimal};
ghost use Rattle.ris_base.specs.Transcript.{answer_fields};
ghost use Rattle.ris_base.specs.declared.replies.ReadAnswer.TheVariants as answer;
ghost use Rattle.ris_base.specs.Transcript.Field.{Word, Number};
ghost use Rattle.ris_text.specs.Spelled.{IsLine, AreJoined};

use crate::tails::Tail;
use ris_base::{Parent, Value};

/// Puts the value that was read, and the front and the place of the read, as the end of a line.
pub fn put_value(tail: &mut Tail, front: u64, place: u64, value: Value)
    ensures line { IsLine (answer_fields (answer.Value front place value)) tail.new }
    ensures len { length tail.new ≤ 128 }
{
    tail.begin();
    match value {
        Value::Absent => tail.put_word(b"absent"),
        Value::Unreached => tail.put_word(b"unreached"),
        Value::Num(c) => tail.put_number(c),
    }
    tail.put_next(place);
    tail.put_next(front);
    tail.put_word(b"value,");
}

/// Puts the parent that was read, and the front and the place of the read, as the end of a line.
pub fn put_parent(tail: &mut Tail, front: u64, place: u64, parent: Parent)
    ensures line { IsLine (answer_fields (answer.Parent front place parent)) tail.new }
    ensures len { length tail.new ≤ 192 }
{
    tail.begin();
    match parent {
        Parent::None => tail.put_word(b"none"),
        Parent::From {
            vertex,
            source,
            target,
            weight,
        } => {
            tail.put_number(weight);
            tail.put_next(u64::from(target));
            tail.put_next(u64::from(source));
            tail.put_next(u64::from(vertex));
        }
    }
    tail.put_next(place);
    tail.put_next(front);
    tail.put_word(b"parent,");
}

/// Puts the front and the floor as the end of a line.
pub fn put_current(tail: &mut Tail, front: u64, floor: u64)
    ensures line { IsLine (answer_fields (answer.Current front floor)) tail.new }
    ensures len { length tail.new ≤ 128 }
{
    tail.begin();
    tail.put_number(floor);
    tail.put_next(front);
    tail.put_word(b"current,");
}

/// Puts the front and the place of a read of a path, and how many vertices the path has.
pub fn put_path(tail: &mut Tail, front: u64, place: u64, count: u64)
    ensures fields { AreJoined (Word (codes "path") ∷ Number front ∷ Number place ∷ Number count ∷ []) tail.new }
    ensures len { length tail.new ≤ 128 }
{
    put_count(tail, front, place, count);
    tail.put_word(b"path,");
}

/// Puts the front and the place of a read of the modified vertices, and how many they are.
pub fn put_modified(tail: &mut Tail, front: u64, place: u64, count: u64)
    ensures fields { AreJoined (Word (codes "modified") ∷ Number front ∷ Number place ∷ Number count ∷ []) tail.new }
    ensures len { length tail.new ≤ 128 }
{
    put_count(tail, front, place, count);
    tail.put_word(b"modified,");
}

/// Puts the front and the place of a read, and a number of vertices.
fn put_count(tail: &mut Tail, front: u64, place: u64, count: u64)
    ensures bytes { tail.new ≡ decimal front ++ (44 ∷ (decimal place ++ (44 ∷ decimal count))) }
    ensures len { length tail.new ≤ 64 }
{
    tail.clear();
    tail.put_number(count);
    tail.put_next(place);
    tail.put_next(front);
}
