ghost use Rattle.std.specs.Prelude.{◌≡◌, IfOk};

use ris_base::{Command, ForestRow, Line, LogLine, NoMemory, ReadAnswer, Sequence};
use std::alloc::Global;

/// What can be copied where there is memory.
pub(crate) trait Duplicate {
    /// An equal value.
    fn duplicate(&self, alloc: Global) -> Result<Self, NoMemory>
        ensures { IfOk result (λ copy. copy ≡ self.now) };
}

/// Copies of all items, in order.
pub(crate) fn copies_of<T: Duplicate + Drop>(alloc: Global, items: &[T]) -> Result<Vec<T>, NoMemory>
    ensures { IfOk result (λ copies. copies.items ≡ items.now) }
{
    let mut copies = Vec::new(alloc);
    for item in items {
        let copy = item.duplicate(alloc)?;
        copies.push(copy)?;
    }
    Ok(copies)
}

/// An equal list of items that are copied bit by bit.
pub(crate) fn list_copy<T: Copy + Drop>(
    alloc: Global,
    list: &Sequence<T>,
) -> Result<Sequence<T>, NoMemory>
    ensures { IfOk result (λ copy. copy ≡ list.now) }
{
    let mut copy = Sequence::new(alloc);
    for k in 0..list.len() {
        copy.push(*list.at(k))?;
    }
    Ok(copy)
}

impl Duplicate for Sequence<Sequence<ForestRow>> {
    fn duplicate(&self, alloc: Global) -> Result<Self, NoMemory> {
        let mut tables = Sequence::new(alloc);
        for k in 0..self.len() {
            let rows = list_copy(alloc, self.at(k))?;
            tables.push(rows)?;
        }
        Ok(tables)
    }
}

impl Duplicate for Line {
    fn duplicate(&self, alloc: Global) -> Result<Self, NoMemory> {
        match self {
            Line::Entry(entry) => {
                let entry = entry.copy(alloc)?;
                Ok(Line::Entry(entry))
            }
            Line::Mark { session, seq, upto } => Ok(Line::Mark {
                session: *session,
                seq: *seq,
                upto: *upto,
            }),
            Line::Leave { session, seq } => Ok(Line::Leave {
                session: *session,
                seq: *seq,
            }),
        }
    }
}

impl Duplicate for Command {
    fn duplicate(&self, alloc: Global) -> Result<Self, NoMemory> {
        match self {
            Command::Change(parts) => {
                let parts = parts.copy(alloc)?;
                Ok(Command::Change(parts))
            }
            Command::Release(upto) => Ok(Command::Release(*upto)),
            Command::Leave => Ok(Command::Leave),
            Command::Value(version, a, x) => Ok(Command::Value(*version, *a, *x)),
            Command::Parent(version, a, x) => Ok(Command::Parent(*version, *a, *x)),
            Command::Path(version, a, x) => Ok(Command::Path(*version, *a, *x)),
            Command::Modified(version, a) => Ok(Command::Modified(*version, *a)),
            Command::Current => Ok(Command::Current),
        }
    }
}

impl Duplicate for ReadAnswer {
    fn duplicate(&self, alloc: Global) -> Result<Self, NoMemory> {
        match self {
            ReadAnswer::Value {
                front,
                place,
                value,
            } => Ok(ReadAnswer::Value {
                front: *front,
                place: *place,
                value: *value,
            }),
            ReadAnswer::Parent {
                front,
                place,
                parent,
            } => Ok(ReadAnswer::Parent {
                front: *front,
                place: *place,
                parent: *parent,
            }),
            ReadAnswer::Path {
                front,
                place,
                vertices,
            } => {
                let vertices = list_copy(alloc, vertices)?;
                Ok(ReadAnswer::Path {
                    front: *front,
                    place: *place,
                    vertices,
                })
            }
            ReadAnswer::Modified {
                front,
                place,
                vertices,
            } => {
                let vertices = list_copy(alloc, vertices)?;
                Ok(ReadAnswer::Modified {
                    front: *front,
                    place: *place,
                    vertices,
                })
            }
            ReadAnswer::Current { front, floor } => Ok(ReadAnswer::Current {
                front: *front,
                floor: *floor,
            }),
        }
    }
}

impl Duplicate for LogLine {
    fn duplicate(&self, alloc: Global) -> Result<Self, NoMemory> {
        match self {
            LogLine::Reply(outcome) => Ok(LogLine::Reply(*outcome)),
            LogLine::Answer(answer) => {
                let answer = answer.duplicate(alloc)?;
                Ok(LogLine::Answer(answer))
            }
            LogLine::Denied(refusal) => Ok(LogLine::Denied(*refusal)),
        }
    }
}
