ghost use Rattle.std.specs.Prelude.{◌≡◌, ◌<◌, ◌≤◌, ◌-◌, ◌∷◌, [], IfOk, Ok};
ghost use Rattle.std.specs.List.{All, range_with_len};
ghost use Rattle.ris_base.specs.Graph.{IsProper};
ghost use Rattle.ris_base.specs.Limits.{greatest_of};

use ris_base::{
    Entry, Event, Events, ForestRow, ForestRows, Forests, Format, Kind, Order, Outcome, Parent,
    PartsBuilder, PlainGraph, Question, Refusal, Request, Sequence, Spec, Specs, Triple, Update,
    Value,
};
use ris_core::{Core, CoreFault};
use std::alloc::Global;
use std::process::Abort;
use std::test::Fail;
use std::thread::Threads;

/// An event as a table writes it, a forest being the row of vertex 1.
#[derive(Clone, Copy)]
enum Act {
    Submit(u32, u64, Update),
    Release(u32, u64, u64),
    LeaveAs(u32, u64),
    Take(u32),
    Begin,
    Cell(u32, u32),
    SealNone,
    SealOne(u32),
    SealTwo(u32, u32),
    Serial(u32, ForestRow),
    Mark(u32),
    Leave(u32),
    Publish,
    Read(u32, Question),
}

/// A breadth-first search from vertex 0 in a graph of two vertices: its triples, the row of vertex 1 in its forest, the number of
/// sessions, the events with whether each happens, and what became of requests at the end.
#[derive(Clone, Copy)]
struct Case<'a> {
    edges: &'a [(u32, u32, u64)],
    row: ForestRow,
    sessions: u32,
    acts: &'a [(Act, bool)],
    outcomes: &'a [(u32, u64, Option<Outcome>)],
}

/// The vertices below a number.
fn vertices(alloc: Global, count: u32) -> Result<Vec<u32>, Fail>
    ensures { IfOk result (λ xs. xs.items ≡ range_with_len 0 count) }
{
    let mut xs = Vec::new(alloc);
    for x in 0..count {
        xs.push(x)?;
    }
    Ok(xs)
}

/// Triples between the vertices below a number, or an error where one is not proper.
fn triples(alloc: Global, count: u32, edges: &[(u32, u32, u64)]) -> Result<Vec<Triple>, Fail>
    ensures { IfOk result (λ ts. All (λ t. (0 ≤ t.source) × (t.source < count) × (0 ≤ t.target) × (t.target < count)
        × (t.weight ≤ greatest_of Format.One)) ts.items) }
{
    let mut ts = Vec::new(alloc);
    for (source, target, weight) in edges {
        if *source >= count || *target >= count || *weight > Format::One.max_weight() {
            return Err(Fail::from("not a proper triple"));
        }
        ts.push(Triple {
            source: *source,
            target: *target,
            weight: *weight,
        })?;
    }
    Ok(ts)
}

/// The graph of two vertices with these triples.
fn graph(alloc: Global, edges: &[(u32, u32, u64)]) -> Result<PlainGraph, Fail>
    ensures { IfOk result (λ g. IsProper g) }
{
    let vertices = Sequence::from_vec(vertices(alloc, 2)?);
    let triples = Sequence::from_vec(triples(alloc, 2, edges)?);
    Ok(PlainGraph {
        format: Format::One,
        vertices,
        triples,
    })
}

/// The forest of the one analysis, with this row of vertex 1.
fn forests(alloc: Global, row: ForestRow) -> Result<Forests, Fail> {
    let mut forest = ForestRows::new(alloc);
    forest.push(ROOT)?;
    if row.vertex != 1 {
        return Err(Fail::from("not a row of vertex 1"));
    }
    forest.push(row)?;
    let mut forests = Sequence::new(alloc);
    forests.push(forest)?;
    Ok(forests)
}

/// A breadth-first search from vertex 0.
fn search(alloc: Global) -> Result<Specs, Fail>
    ensures { IfOk result (λ specs. specs ≡ record { kind = Kind.Bfs; root = 0 } ∷ []) }
{
    let mut specs = Sequence::new(alloc);
    specs.push(Spec {
        kind: Kind::Bfs,
        root: 0,
    })?;
    Ok(specs)
}

/// A request to make one update.
fn change(alloc: Global, session: u32, seq: u64, update: Update) -> Result<Request, Fail> {
    let mut parts = PartsBuilder::new(alloc)?;
    parts.push(update).ok().ok_or("no room for a part")?;
    let parts = parts.close().ok_or("no parts")?;
    Ok(Request::Submit(Entry {
        session,
        seq,
        parts,
    }))
}

/// The order of one session.
fn order(alloc: Global, session: u32) -> Result<Order, Fail> {
    let mut order = Sequence::new(alloc);
    order.push(session)?;
    Ok(order)
}

/// The event of an act.
fn event(alloc: Global, act: Act) -> Result<Event, Fail> {
    Ok(match act {
        Act::Submit(session, seq, update) => Event::Submit {
            session,
            request: change(alloc, session, seq, update)?,
        },
        Act::Release(session, seq, upto) => Event::Submit {
            session,
            request: Request::Release { session, seq, upto },
        },
        Act::LeaveAs(session, seq) => Event::Submit {
            session,
            request: Request::Leave { session, seq },
        },
        Act::Take(session) => Event::Take { session },
        Act::Begin => Event::Begin,
        Act::Cell(stripe, session) => Event::Cell { stripe, session },
        Act::SealNone => Event::Seal {
            order: Order::new(alloc),
        },
        Act::SealOne(session) => Event::Seal {
            order: order(alloc, session)?,
        },
        Act::SealTwo(session, other) => {
            let mut order = order(alloc, session)?;
            order.push(other)?;
            Event::Seal { order }
        }
        Act::Serial(session, row) => Event::Serial {
            session,
            forests: forests(alloc, row)?,
        },
        Act::Mark(session) => Event::Mark { session },
        Act::Leave(session) => Event::Leave { session },
        Act::Publish => Event::Publish,
        Act::Read(session, question) => Event::Read { session, question },
    })
}

/// The core of a case, before its events.
fn opened<R: Threads + Sync + AllocGlobal>(rt: &R, case: Case) -> Result<Core, Fail> {
    let alloc = rt.alloc();
    if case.sessions < 1 || case.sessions > 64 {
        return Err(Fail::from("so many sessions can't be"));
    }
    let graph = graph(alloc, case.edges)?;
    let forests = forests(alloc, case.row)?;
    let core = Core::start(rt, alloc, graph, search(alloc)?, case.sessions, forests)?;
    Ok(core)
}

/// Compares what became of a request.
fn compare_one<R: Abort>(rt: &R, core: &Core, session: u32, seq: u64, outcome: Option<Outcome>) {
    assert_eq!(rt;
        core.outcome(session, seq).copied(),
        outcome,
        "{session}, {seq}"
    );
}

/// Compares what became of requests.
fn compare<R: Abort>(rt: &R, core: &Core, outcomes: &[(u32, u64, Option<Outcome>)]) {
    for (session, seq, outcome) in outcomes {
        compare_one(rt, core, *session, *seq, *outcome);
    }
}

/// Tries one event.
fn step<R: Threads + Sync + AllocGlobal + Abort>(
    rt: &R,
    core: &mut Core,
    number: usize,
    act: Act,
    happens: bool,
) -> Result<(), Fail> {
    let event = event(rt.alloc(), act)?;
    let happened = core.step(rt, &event)?;
    assert_eq!(rt; happened, happens, "event {number}");
    Ok(())
}

/// Tries events one by one.
fn step_all<R: Threads + Sync + AllocGlobal + Abort>(
    rt: &R,
    core: &mut Core,
    case: Case,
) -> Result<(), Fail> {
    for (number, (act, happens)) in case.acts.iter().enumerate() {
        step(rt, core, number, *act, *happens)?;
    }
    compare(rt, core, case.outcomes);
    Ok(())
}

/// The events of acts.
fn events(alloc: Global, acts: &[(Act, bool)]) -> Result<Events, Fail> {
    let mut events = Events::new(alloc);
    for (act, _) in acts {
        let event = event(alloc, *act)?;
        events.push(event)?;
    }
    Ok(events)
}

/// Tries events in one call.
fn run<R: Threads + Sync + AllocGlobal + Abort>(
    rt: &R,
    core: &mut Core,
    case: Case,
) -> Result<(), Fail> {
    let events = events(rt.alloc(), case.acts)?;
    let happened = core.run(rt, &events)?;
    let due = case.acts.iter().filter(|(_, happens)| *happens).count();
    assert_eq!(rt; happened, due as u64);
    compare(rt, core, case.outcomes);
    Ok(())
}

/// Plays a case event by event.
fn play_stepped<R: Threads + Sync + AllocGlobal + Abort>(rt: &R, case: Case) -> Result<(), Fail> {
    let mut core = opened(rt, case)?;
    step_all(rt, &mut core, case)
}

/// Plays a case in one call.
fn play_run<R: Threads + Sync + AllocGlobal + Abort>(rt: &R, case: Case) -> Result<(), Fail> {
    let mut core = opened(rt, case)?;
    run(rt, &mut core, case)
}

/// Plays a case event by event, and once more in one call.
fn play<R: Threads + Sync + AllocGlobal + Abort>(rt: &R, case: Case) -> Result<(), Fail> {
    play_stepped(rt, case)?;
    play_run(rt, case)
}

/// The row of the root.
const ROOT: ForestRow = ForestRow {
    vertex: 0,
    value: Value::Num(0),
    parent: Parent::None,
};

/// The row of vertex 1 where it isn't reached.
const UNREACHED: ForestRow = ForestRow {
    vertex: 1,
    value: Value::Unreached,
    parent: Parent::None,
};

/// The row of vertex 1 below the root, over the edge of weight 0.
const REACHED: ForestRow = ForestRow {
    vertex: 1,
    value: Value::Num(1),
    parent: Parent::From {
        vertex: 0,
        source: 0,
        target: 1,
        weight: 0,
    },
};

/// The same, over the edge of weight 5.
const FARTHER: ForestRow = ForestRow {
    vertex: 1,
    value: Value::Num(1),
    parent: Parent::From {
        vertex: 0,
        source: 0,
        target: 1,
        weight: 5,
    },
};

/// Takes a copy of the edge from 0 to 1 of weight 0.
const DELETION: Update = Update::DelE { u: 0, v: 1, w: 0 };

static TWO_COPIES: [(u32, u32, u64); 2] = [(0, 1, 0), (0, 1, 0)];

/// Two deletions of one tree edge: the second bounces, and is handled in the tail.
static TWO_DELETIONS: [(Act, bool); 10] = [
    (Act::Submit(0, 0, DELETION), true),
    (Act::Submit(1, 0, DELETION), true),
    (Act::Take(0), true),
    (Act::Take(1), true),
    (Act::Begin, true),
    (Act::Cell(0, 1), true),
    (Act::Cell(0, 0), true),
    (Act::SealOne(1), true),
    (Act::Serial(0, UNREACHED), true),
    (Act::Publish, true),
];

static AFTER_TWO_DELETIONS: [(u32, u64, Option<Outcome>); 2] = [
    (1, 0, Some(Outcome::Placed { place: 1 })),
    (0, 0, Some(Outcome::Placed { place: 2 })),
];

/// The same, where one cell is asked for twice.
static ONE_CELL_TWICE: [(Act, bool); 11] = [
    (Act::Submit(0, 0, DELETION), true),
    (Act::Submit(1, 0, DELETION), true),
    (Act::Take(0), true),
    (Act::Take(1), true),
    (Act::Begin, true),
    (Act::Cell(0, 1), true),
    (Act::Cell(0, 1), false),
    (Act::Cell(0, 0), true),
    (Act::SealOne(1), true),
    (Act::Serial(0, UNREACHED), true),
    (Act::Publish, true),
];

static AFTER_ONE_CELL_TWICE: [(u32, u64, Option<Outcome>); 2] = [
    (1, 0, Some(Outcome::Placed { place: 1 })),
    (0, 0, Some(Outcome::Placed { place: 2 })),
];

/// Three deletions of two copies: two bounce, and the last one has no copy left.
static THREE_DELETIONS: [(Act, bool); 21] = [
    (Act::Submit(0, 4, DELETION), true),
    (Act::Submit(1, 0, DELETION), true),
    (Act::Submit(2, 7, DELETION), true),
    (Act::Take(2), true),
    (Act::Take(0), true),
    (Act::Take(1), true),
    (Act::Take(1), false),
    (Act::Begin, true),
    (Act::Cell(1, 2), false),
    (Act::Cell(0, 2), true),
    (Act::Cell(0, 0), true),
    (Act::SealOne(2), false),
    (Act::Cell(0, 1), true),
    (Act::SealTwo(0, 2), false),
    (Act::SealOne(2), true),
    (Act::Publish, false),
    (Act::Serial(0, REACHED), false),
    (Act::Serial(0, UNREACHED), true),
    (Act::Serial(1, REACHED), false),
    (Act::Serial(1, UNREACHED), true),
    (Act::Publish, true),
];

static AFTER_THREE_DELETIONS: [(u32, u64, Option<Outcome>); 5] = [
    (2, 7, Some(Outcome::Placed { place: 1 })),
    (0, 4, Some(Outcome::Placed { place: 2 })),
    (
        1,
        0,
        Some(Outcome::Refused(Refusal::NoEdge { front: 2, part: 1 })),
    ),
    (1, 1, None),
    (3, 0, None),
];

static TWO_EDGES: [(u32, u32, u64); 2] = [(0, 1, 0), (0, 1, 5)];

/// One copy of an edge that no forest uses: one deletion is applied, and the other finds no copy.
static UNUSED_EDGE: [(Act, bool); 9] = [
    (Act::Submit(0, 0, Update::DelE { u: 0, v: 1, w: 5 }), true),
    (Act::Submit(1, 0, Update::DelE { u: 0, v: 1, w: 5 }), true),
    (Act::Take(0), true),
    (Act::Take(1), true),
    (Act::Begin, true),
    (Act::Cell(0, 1), true),
    (Act::Cell(0, 0), true),
    (Act::SealTwo(1, 0), true),
    (Act::Publish, true),
];

static AFTER_UNUSED_EDGE: [(u32, u64, Option<Outcome>); 2] = [
    (1, 0, Some(Outcome::Placed { place: 1 })),
    (
        0,
        0,
        Some(Outcome::Refused(Refusal::NoEdge { front: 1, part: 1 })),
    ),
];

static NO_EDGES: [(u32, u32, u64); 0] = [];

/// Two sessions that read, release and leave.
static READS_AND_LEAVES: [(Act, bool); 34] = [
    (Act::Submit(0, 0, Update::AddE { u: 0, v: 1, w: 5 }), true),
    (Act::Release(1, 0, 1), true),
    (Act::Read(0, Question::Current), false),
    (Act::Take(0), true),
    (Act::Take(1), true),
    (Act::Begin, true),
    (Act::Cell(0, 0), false),
    (Act::SealNone, true),
    (Act::Leave(1), false),
    (Act::Mark(0), false),
    (Act::Serial(0, FARTHER), true),
    (Act::Mark(1), true),
    (Act::Publish, true),
    (
        Act::Read(
            1,
            Question::Value {
                place: 0,
                a: 0,
                x: 1,
            },
        ),
        true,
    ),
    (
        Act::Read(
            0,
            Question::Parent {
                place: 1,
                a: 0,
                x: 1,
            },
        ),
        true,
    ),
    (
        Act::Read(
            0,
            Question::Path {
                place: 1,
                a: 0,
                x: 1,
            },
        ),
        true,
    ),
    (Act::Read(0, Question::Modified { place: 1, a: 0 }), true),
    (
        Act::Read(
            0,
            Question::Value {
                place: 2,
                a: 0,
                x: 1,
            },
        ),
        true,
    ),
    (
        Act::Read(
            0,
            Question::Value {
                place: 1,
                a: 1,
                x: 1,
            },
        ),
        false,
    ),
    (Act::Read(0, Question::Current), true),
    (Act::Read(2, Question::Current), false),
    (Act::LeaveAs(0, 9), true),
    (Act::Submit(0, 10, DELETION), false),
    (Act::Release(1, 1, 3), false),
    (Act::Release(1, 2, 3), true),
    (Act::Take(0), true),
    (Act::Take(1), true),
    (Act::Begin, true),
    (Act::SealNone, true),
    (Act::Leave(0), true),
    (Act::Mark(1), true),
    (Act::Publish, true),
    (
        Act::Read(
            1,
            Question::Value {
                place: 0,
                a: 0,
                x: 1,
            },
        ),
        true,
    ),
    (Act::Take(0), false),
];

static AFTER_READS_AND_LEAVES: [(u32, u64, Option<Outcome>); 6] = [
    (0, 0, Some(Outcome::Placed { place: 1 })),
    (1, 0, Some(Outcome::Marked { front: 1, upto: 1 })),
    (1, 1, None),
    (0, 9, Some(Outcome::Left { front: 1 })),
    (1, 2, Some(Outcome::NotYet { front: 1 })),
    (0, 10, None),
];

#[test]
fn each_event_does_what_it_says(rt: HostRuntime) -> Result<(), Fail> {
    for case in [
        Case {
            edges: TWO_COPIES.as_slice(),
            row: REACHED,
            sessions: 2,
            acts: TWO_DELETIONS.as_slice(),
            outcomes: AFTER_TWO_DELETIONS.as_slice(),
        },
        Case {
            edges: TWO_COPIES.as_slice(),
            row: REACHED,
            sessions: 2,
            acts: ONE_CELL_TWICE.as_slice(),
            outcomes: AFTER_ONE_CELL_TWICE.as_slice(),
        },
        Case {
            edges: TWO_COPIES.as_slice(),
            row: REACHED,
            sessions: 3,
            acts: THREE_DELETIONS.as_slice(),
            outcomes: AFTER_THREE_DELETIONS.as_slice(),
        },
        Case {
            edges: TWO_EDGES.as_slice(),
            row: REACHED,
            sessions: 2,
            acts: UNUSED_EDGE.as_slice(),
            outcomes: AFTER_UNUSED_EDGE.as_slice(),
        },
        Case {
            edges: NO_EDGES.as_slice(),
            row: UNREACHED,
            sessions: 2,
            acts: READS_AND_LEAVES.as_slice(),
            outcomes: AFTER_READS_AND_LEAVES.as_slice(),
        },
    ] {
        play(&rt, case)?;
    }
    Ok(())
}

#[test]
fn forests_that_are_not_right_are_refused(rt: HostRuntime) -> Result<(), Fail> {
    let bad = forests(rt.alloc(), UNREACHED)?;
    let graph = graph(rt.alloc(), TWO_COPIES.as_slice())?;
    let answer = Core::start(&rt, rt.alloc(), graph, search(rt.alloc())?, 2, bad);
    assert_eq!(rt; answer.err(), Some(CoreFault::BadForests));
    Ok(())
}
