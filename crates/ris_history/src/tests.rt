ghost use Rattle.std.specs.Prelude.{◌<◌};

use crate::History;
use ris_base::{
    Change, Entry, ForestRow, ForestRows, Line, Parent, PartsBuilder, Question, ReadAnswer,
    ReadRefusal, Record, Sequence, Start, Update, Value,
};
use std::alloc::Global;
use std::process::Abort;
use std::test::Fail;

/// A start of so many sessions and analyses, where vertex 0 alone is there and has the value 0.
fn start(alloc: Global, sessions: u32, analyses: u32) -> Result<Start, Fail> {
    let mut forests = Sequence::new(alloc);
    for _analysis in 0..analyses {
        let mut rows = ForestRows::new(alloc);
        rows.push(ForestRow {
            vertex: 0,
            value: Value::Num(0),
            parent: Parent::None,
        })?;
        forests.push(rows)?;
    }
    Ok(Start { sessions, forests })
}

/// The line of an entry.
fn entry(alloc: Global) -> Result<Line, Fail> {
    let mut builder = PartsBuilder::new(alloc)?;
    builder
        .push(Update::AddV { x: 0 })
        .map_err(|_| "no room for a part")?;
    let parts = builder.close().ok_or("no parts")?;
    Ok(Line::Entry(Entry {
        session: 0,
        seq: 0,
        parts,
    }))
}

/// The record of a mark.
fn mark(alloc: Global, session: u32, upto: u64) -> Record {
    Record {
        line: Line::Mark {
            session,
            seq: 0,
            upto,
        },
        changes: Sequence::new(alloc),
    }
}

/// The record of a leave.
fn leave(alloc: Global, session: u32) -> Record {
    Record {
        line: Line::Leave { session, seq: 0 },
        changes: Sequence::new(alloc),
    }
}

/// The record of an entry with one change.
fn changed(
    alloc: Global,
    vertex: u32,
    value: Value,
    parent: Parent,
    moved: bool,
) -> Result<Record, Fail> {
    let mut changes = Sequence::new(alloc);
    changes.push(Change {
        analysis: 0,
        vertex,
        value,
        parent,
        moved,
    })?;
    Ok(Record {
        line: entry(alloc)?,
        changes,
    })
}

#[test]
fn a_raised_floor_drops_what_later_changes_replace(rt: HostRuntime) -> Result<(), Fail> {
    let alloc = rt.alloc();
    let mut history = History::start(alloc, &start(alloc, 1, 1)?)?;
    for value in [Value::Num(1), Value::Num(2), Value::Unreached] {
        history.absorb(&changed(alloc, 1, value, Parent::None, true)?)?;
    }
    assert_eq!(rt; history.kept(), 3);
    history.absorb(&mark(alloc, 0, 2))?;
    assert_eq!(rt;
        (history.front(), history.floor(), history.kept()),
        (3, 2, 2)
    );
    assert_eq!(rt; history.analyses(), 1);
    assert_eq!(rt;
        history.value_at(1, 0, 1),
        Err(ReadRefusal::Released { front: 3, floor: 2 })
    );
    assert_eq!(rt; history.value_at(2, 0, 1), Ok(Value::Num(2)));
    let modified = history.modified_at(2, 0).map_err(|_| "refused")?;
    assert_eq!(rt; (modified.len(), modified.get(0).copied()), (1, Some(1)));
    history.absorb(&mark(alloc, 0, 3))?;
    assert_eq!(rt; history.kept(), 1);
    Ok(())
}

#[test]
fn each_call_answers(rt: HostRuntime) -> Result<(), Fail> {
    let alloc = rt.alloc();
    let mut history = History::start(alloc, &start(alloc, 2, 1)?)?;
    let parent = Parent::From {
        vertex: 0,
        source: 0,
        target: 7,
        weight: 5,
    };
    history.absorb(&changed(alloc, 7, Value::Num(5), parent, true)?)?;
    history.absorb(&changed(alloc, 7, Value::Num(5), Parent::None, false)?)?;
    history.absorb(&leave(alloc, 1))?;
    history.absorb(&mark(alloc, 0, 1))?;
    assert_eq!(rt; history.analyses(), 1);
    assert_eq!(rt;
        (history.front(), history.floor(), history.kept()),
        (2, 1, 2)
    );
    assert_eq!(rt; history.parent_at(1, 0, 7), Ok(parent));
    assert_eq!(rt; history.parent_at(2, 0, 7), Ok(Parent::None));
    assert_eq!(rt; history.value_at(2, 0, 0), Ok(Value::Num(0)));
    assert_eq!(rt; history.value_at(2, 0, 1 << 40), Ok(Value::Absent));
    assert_eq!(rt;
        history.value_at(3, 0, 0),
        Err(ReadRefusal::NotYet { front: 2 })
    );
    let path = history.path_at(1, 0, 7).map_err(|_| "refused")?;
    assert_eq!(rt;
        (path.len(), path.get(0).copied(), path.get(1).copied()),
        (2, Some(7), Some(0))
    );
    assert_eq!(rt; history.modified_at(2, 0).map_err(|_| "refused")?.len(), 0);
    let asked = history
        .ask(&Question::Value {
            place: 1,
            a: 0,
            x: 7,
        })
        .map_err(|_| "refused")?;
    assert!(rt;
        matches!(
            asked,
            ReadAnswer::Value {
                front: 2,
                place: 1,
                value: Value::Num(5)
            }
        )
    );
    let asked = history.ask(&Question::Current).map_err(|_| "refused")?;
    assert!(rt; matches!(asked, ReadAnswer::Current { front: 2, floor: 1 }));
    history.absorb(&leave(alloc, 0))?;
    assert_eq!(rt; (history.floor(), history.kept()), (2, 1));
    Ok(())
}

#[test]
fn forests_may_leave_vertices_out(rt: HostRuntime) -> Result<(), Fail> {
    let alloc = rt.alloc();
    let row = |vertex, value| ForestRow {
        vertex,
        value,
        parent: Parent::None,
    };
    let mut forests = Sequence::new(alloc);
    let mut first = ForestRows::new(alloc);
    first.push(row(1, Value::Num(10)))?;
    first.push(row(4, Value::Num(40)))?;
    forests.push(first)?;
    forests.push(ForestRows::new(alloc))?;
    let mut last = ForestRows::new(alloc);
    last.push(row(0, Value::Unreached))?;
    forests.push(last)?;
    let history = History::start(
        alloc,
        &Start {
            sessions: 1,
            forests,
        },
    )?;
    assert_eq!(rt; history.analyses(), 3);
    assert_eq!(rt; history.value_at(0, 0, 0), Ok(Value::Absent));
    assert_eq!(rt; history.value_at(0, 0, 1), Ok(Value::Num(10)));
    assert_eq!(rt; history.value_at(0, 0, 4), Ok(Value::Num(40)));
    assert_eq!(rt; history.value_at(0, 1, 4), Ok(Value::Absent));
    assert_eq!(rt; history.value_at(0, 2, 0), Ok(Value::Unreached));
    Ok(())
}

const ANALYSES: u32 = 2;

const CELLS: u64 = 24;

const SESSIONS: u32 = 3;

/// Numbers that look random (Knuth, The Art of Computer Programming, volume 2, section 3.3.4).
#[derive(Drop)]
struct Draws {
    state: u64,
}

impl Draws {
    /// A number below `n`.
    fn below(&mut self, n: u64) -> u64
        requires { 0 < n }
        ensures { result < n }
    {
        self.state = self
            .state
            .wrapping_mul(6_364_136_223_846_793_005)
            .wrapping_add(1_442_695_040_888_963_407);
        (self.state >> 33) % n
    }
}

/// What one place has of one vertex by one analysis.
#[derive(Clone, Copy, Debug, PartialEq, Eq)]
struct Cell {
    value: Value,
    parent: Parent,
    moved: bool,
}

/// Whole tables of each place, by vertex and then analysis, and all changes, beside which a history is held.
#[derive(Drop)]
struct Whole {
    tables: Vec<Vec<Cell>>,
    changes: Vec<(u64, usize)>,
    marks: Vec<(u64, bool)>,
    left_at: u64,
}

impl Whole {
    /// Place 0, of the start above.
    fn new(alloc: Global) -> Result<Whole, Fail> {
        let mut cells = Vec::new(alloc);
        for number in 0..CELLS {
            let value = if number < 2 {
                Value::Num(0)
            } else {
                Value::Absent
            };
            cells.push(Cell {
                value,
                parent: Parent::None,
                moved: false,
            })?;
        }
        let mut tables = Vec::new(alloc);
        tables.push(cells)?;
        let mut marks = Vec::new(alloc);
        for _session in 0..SESSIONS {
            marks.push((0, false))?;
        }
        Ok(Whole {
            tables,
            changes: Vec::new(alloc),
            marks,
            left_at: 0,
        })
    }

    /// The number of entries.
    fn front(&self) -> u64 {
        (self.tables.len() as u64).saturating_sub(1)
    }

    /// The least mark of the sessions that haven't left, or the front at the last leave.
    fn floor(&self) -> u64 {
        let mut least = None;
        for session in &self.marks {
            if !session.1 {
                least = match least {
                    Some(mark) if mark < session.0 => Some(mark),
                    _ => Some(session.0),
                };
            }
        }
        least.unwrap_or(self.left_at)
    }

    /// How many changes no later one of the same cell at a place up to the floor replaces.
    fn kept(&self, alloc: Global) -> Result<u64, Fail> {
        let floor = self.floor();
        let mut replaced = Vec::new(alloc);
        for _cell in 0..CELLS {
            replaced.push(false)?;
        }
        let mut kept = 0u64;
        for change in self.changes.iter().rev() {
            let seen = replaced.get_mut(change.1).ok_or("no such cell")?;
            if !*seen {
                kept = kept.saturating_add(1);
            }
            if change.0 <= floor {
                *seen = true;
            }
        }
        Ok(kept)
    }

    /// One entry more, of up to five cells, and its record.
    fn enter(&mut self, alloc: Global, draws: &mut Draws) -> Result<Record, Fail> {
        let place = self.tables.len() as u64;
        let last = self.tables.last().ok_or("no table")?;
        let mut cells = Vec::new(alloc);
        for cell in last {
            cells.push(Cell {
                value: cell.value,
                parent: cell.parent,
                moved: false,
            })?;
        }
        let mut changes = Sequence::new(alloc);
        let first = draws.below(CELLS);
        for k in 0..draws.below(6) {
            let number = (first + 5 * k) % CELLS;
            let change = random_change(draws, number);
            let cell = cells.get_mut(number as usize).ok_or("no such cell")?;
            let moved = cell.value != change.value;
            *cell = Cell {
                value: change.value,
                parent: change.parent,
                moved,
            };
            self.changes.push((place, number as usize))?;
            changes.push(Change { moved, ..change })?;
        }
        self.tables.push(cells)?;
        Ok(Record {
            line: entry(alloc)?,
            changes,
        })
    }

    /// A mark of a session, at a place up to the front, and its record.
    fn mark(&mut self, alloc: Global, draws: &mut Draws) -> Result<Record, Fail> {
        let upto = draws.below(self.front().saturating_add(1).max(1));
        let number = draws.below(u64::from(SESSIONS));
        let session = self
            .marks
            .get_mut(number as usize)
            .ok_or("no such session")?;
        session.0 = session.0.max(upto);
        Ok(mark(alloc, number as u32, upto))
    }

    /// A leave of a session, and its record.
    fn leave(&mut self, alloc: Global, number: u32) -> Result<Record, Fail> {
        self.left_at = self.front();
        let session = self
            .marks
            .get_mut(number as usize)
            .ok_or("no such session")?;
        session.1 = true;
        Ok(leave(alloc, number))
    }
}

/// A change of the cell of this number.
fn random_change(draws: &mut Draws, number: u64) -> Change {
    let value = match draws.below(4) {
        0 => Value::Absent,
        1 => Value::Unreached,
        _ => Value::Num(draws.below(3)),
    };
    let vertex = (number % CELLS / 2) as u32;
    let parent = match draws.below(2) {
        0 => Parent::None,
        _ => Parent::From {
            vertex: draws.below(12) as u32,
            source: vertex,
            target: 3,
            weight: draws.below(9),
        },
    };
    Change {
        analysis: (number % 2) as u32,
        vertex,
        value,
        parent,
        moved: false,
    }
}

/// Holds what the history says of one place against its table.
fn place_agrees<R: Abort>(
    rt: &R,
    history: &History,
    place: u64,
    cells: &[Cell],
) -> Result<(), Fail> {
    assert_eq!(rt; history.analyses(), ANALYSES);
    for a in 0..ANALYSES {
        let modified = history.modified_at(place, a).map_err(|_| "refused")?;
        let mut count = 0u64;
        for (number, cell) in cells.iter().enumerate() {
            if number % 2 == a as usize {
                let x = (number / 2) as u64;
                assert_eq!(rt; history.value_at(place, a, x), Ok(cell.value));
                assert_eq!(rt; history.parent_at(place, a, x), Ok(cell.parent));
                if cell.moved {
                    let vertex = modified.get(count).map(|vertex| u64::from(*vertex));
                    assert_eq!(rt; vertex, Some(x));
                    count = count.saturating_add(1);
                }
            }
        }
        assert_eq!(rt; modified.len(), count);
    }
    Ok(())
}

/// Holds all that the history says against the whole tables.
fn agrees<R: Abort>(rt: &R, alloc: Global, history: &History, whole: &Whole) -> Result<(), Fail> {
    let (front, floor) = (whole.front(), whole.floor());
    assert_eq!(rt; (history.front(), history.floor()), (front, floor));
    assert_eq!(rt; history.kept(), whole.kept(alloc)?);
    for (place, cells) in whole.tables.iter().enumerate() {
        let place = place as u64;
        if place < floor {
            assert_eq!(rt; history.analyses(), ANALYSES);
            let refused = Err(ReadRefusal::Released { front, floor });
            assert_eq!(rt; history.value_at(place, 0, 3), refused);
        } else {
            place_agrees(rt, history, place, cells)?;
        }
    }
    Ok(())
}

#[test]
fn a_history_says_what_whole_tables_say(rt: HostRuntime) -> Result<(), Fail> {
    let alloc = rt.alloc();
    let mut history = History::start(alloc, &start(alloc, SESSIONS, ANALYSES)?)?;
    let mut whole = Whole::new(alloc)?;
    let mut draws = Draws { state: 7 };
    for step in 0..3_500u64 {
        let rec = match step % 1_000 {
            999 => whole.leave(alloc, (step / 1_000) as u32)?,
            _ => match draws.below(8) {
                0 => whole.mark(alloc, &mut draws)?,
                _ => whole.enter(alloc, &mut draws)?,
            },
        };
        history.absorb(&rec)?;
        if step % 250 == 249 {
            agrees(&rt, alloc, &history, &whole)?;
        }
    }
    agrees(&rt, alloc, &history, &whole)
}
