ghost use Rattle.std.specs.Prelude.{◌≡◌, ◌<◌, ◌≤◌, [], IfOk, length};
ghost use Rattle.std.specs.List.{All};
ghost use Rattle.ris_analysis.specs.Analyses.{ArePlainSpecs};
ghost use Rattle.ris_base.specs.Limits.{vertex_limit};
ghost use Rattle.ris_base.specs.Machine.{session_by};

use crate::{Batch, Driver, Turn};
use ris_base::Update::{AddE, AddV, DelE, DelV};
use ris_base::{
    Entry, Format, FreeGate, Gate, Kind, Line, Meter, NoMemory, Outcome, Parts, PartsBuilder,
    Refusal, Request, Spec, Specs, Triple, Triples, Update,
};
use ris_phase::HoldGate;
use std::alloc::Global;
use std::process::Abort;
use std::test::Fail;
use std::thread::Threads;

/// A meter that holds its count.
#[derive(Drop)]
pub(crate) struct Visits {
    pub(crate) total: u64,
}

impl Meter for Visits {
    ghost ticks = { λ v. v.total };

    fn tick(&mut self) {
        self.total = self.total.saturating_add(1);
    }

    fn total(&self) -> u64 {
        self.total
    }
}

/// Base triples with ends below a number of vertices, and weights of the first format.
fn triples_of(alloc: Global, vertices: u32, base: &[Triple]) -> Result<Triples, Fail>
    ensures ends { IfOk result (λ triples. All (λ t. (t.source < vertices) × (t.target < vertices)) triples) }
    ensures weights { IfOk result (λ triples. All (λ t. t.weight ≤ 4294967295) triples) }
{
    let mut triples = Triples::new(alloc);
    for t in base {
        if t.source >= vertices || t.target >= vertices || t.weight > 4_294_967_295 {
            return Err(Fail::from("no base triple"));
        }
        triples.push(*t)?;
    }
    Ok(triples)
}

/// The analysis of depths from 0.
pub(crate) fn depths(alloc: Global) -> Result<Specs, NoMemory>
    ensures one { IfOk result (λ specs. length specs ≡ 1) }
    ensures plain { IfOk result ArePlainSpecs }
{
    let mut specs = Specs::new(alloc);
    specs.push(Spec {
        kind: Kind::Bfs,
        root: 0,
    })?;
    Ok(specs)
}

/// A driver of depths for so many sessions.
pub(crate) fn driver_on(
    alloc: Global,
    vertices: u32,
    base: &[Triple],
    sessions: u32,
) -> Result<Driver<Visits>, Fail>
    requires vertices { vertices ≤ vertex_limit }
    requires some { 1 ≤ sessions }
    requires few { sessions ≤ 64 }
{
    let base = triples_of(alloc, vertices, base)?;
    let specs = depths(alloc)?;
    let mut visits = Visits { total: 0 };
    let driver = Driver::start(
        alloc,
        vertices,
        Format::One,
        &base,
        &specs,
        sessions,
        &mut visits,
    )?;
    Ok(driver)
}

/// What a session asks for: an update, two of them together, a release, or to leave.
#[derive(Clone, Copy)]
pub(crate) enum Asked {
    Change(Update),
    Pair(Update, Update),
    Release(u64),
    Leave,
}

/// The request of a session for its command number `seq`.
fn request_of(alloc: Global, session: u32, seq: u64, asked: Asked) -> Result<Request, Fail>
    ensures { IfOk result (λ request. session_by request ≡ session) }
{
    match asked {
        Asked::Change(update) => {
            let parts = parts_of(alloc, &[update])?;
            Ok(Request::Submit(Entry {
                session,
                seq,
                parts,
            }))
        }
        Asked::Pair(first, second) => {
            let parts = parts_of(alloc, &[first, second])?;
            Ok(Request::Submit(Entry {
                session,
                seq,
                parts,
            }))
        }
        Asked::Release(upto) => Ok(Request::Release { session, seq, upto }),
        Asked::Leave => Ok(Request::Leave { session, seq }),
    }
}

/// The parts of a request of these updates.
fn parts_of(alloc: Global, updates: &[Update]) -> Result<Parts, Fail> {
    let mut builder = PartsBuilder::new(alloc)?;
    for update in updates {
        if builder.push(*update).is_err() {
            return Err(Fail::from("no room for a part"));
        }
    }
    match builder.close() {
        Some(parts) => Ok(parts),
        None => Err(Fail::from("no part")),
    }
}

/// The batch of what sessions ask for, which are below a number of up to 64.
fn batch_of(alloc: Global, sessions: u32, asked: &[(u32, u64, Asked)]) -> Result<Batch, Fail>
    requires { sessions ≤ 64 }
    ensures here { IfOk result (λ batch. All (λ r. session_by r < sessions) batch) }
    ensures few { IfOk result (λ batch. length batch ≤ length asked.now) }
{
    let mut batch = Batch::new(alloc)?;
    for (session, seq, what) in asked {
        if *session >= sessions {
            return Err(Fail::from("no such session"));
        }
        let request = request_of(alloc, *session, *seq, *what)?;
        let Ok(()) = batch.add(request) else {
            return Err(Fail::from("two requests of one session"));
        };
    }
    Ok(batch)
}

/// Takes out all records of a driver.
fn drain_records(driver: &mut Driver<Visits>)
    ensures records { driver.new.records ≡ [] }
    ensures opening { driver.new.opening ≡ driver.old.opening }
    ensures journal { driver.new.journal ≡ driver.old.journal }
{
    'records: while let Some(_record) = driver.fresh() {}
}

/// Takes out all replies of a driver, whose records are all taken out.
fn drain_replies(driver: &mut Driver<Visits>)
    requires { driver.old.records ≡ [] }
    ensures records { driver.new.records ≡ [] }
    ensures replies { driver.new.replies ≡ [] }
    ensures opening { driver.new.opening ≡ driver.old.opening }
    ensures journal { driver.new.journal ≡ driver.old.journal }
{
    'replies: while let Some(_reply) = driver.reply() {}
}

/// One turn that takes what sessions ask for.
pub(crate) fn turn_of<R: AllocGlobal + Threads + Sync, G: Gate>(
    rt: &R,
    driver: &mut Driver<Visits>,
    asked: &[(u32, u64, Asked)],
    workers: u32,
    gate: &G,
    visits: &mut Visits,
) -> Result<Turn, Fail> {
    drain_records(driver);
    drain_replies(driver);
    let sessions = driver.opening().sessions;
    let few = sessions <= 64 && asked.len() <= 64 && driver.front() <= 4_000_000_000;
    if !few || workers == 0 || workers > 64 {
        return Err(Fail::from("no such turn"));
    }
    let mut batch = batch_of(rt.alloc(), sessions, asked)?;
    Ok(driver.turn(rt, &mut batch, workers, gate, visits))
}

/// Expects these replies of a turn, in order.
fn expect_replies<R: Abort>(rt: &R, driver: &mut Driver<Visits>, replies: &[(u32, u64, Outcome)]) {
    drain_records(driver);
    'replies: for reply in replies {
        assert_eq!(rt; driver.reply(), Some(*reply));
    }
    assert_eq!(rt; driver.reply(), None);
}

/// A driver of depths on the vertices 0 and 1, with the workers that decide its candidates.
#[derive(Drop)]
struct Trial {
    driver: Driver<Visits>,
    workers: u32,
    visits: Visits,
}

impl Trial {
    /// A driver for 64 sessions.
    fn new(alloc: Global, base: &[Triple], workers: u32) -> Result<Trial, Fail> {
        Ok(Trial {
            driver: driver_on(alloc, 2, base, 64)?,
            workers,
            visits: Visits { total: 0 },
        })
    }

    /// Makes a turn of what sessions ask for, and expects these replies in order, and these numbers: how many requests it took,
    /// how many entries it made, and how many requests were in its tail.
    fn expect<R: AllocGlobal + Threads + Sync + Abort>(
        &mut self,
        rt: &R,
        asked: &[(u32, u64, Asked)],
        replies: &[(u32, u64, Outcome)],
        numbers: (u32, u32, u32),
    ) -> Result<(), Fail> {
        let turn = turn_of(
            rt,
            &mut self.driver,
            asked,
            self.workers,
            &FreeGate,
            &mut self.visits,
        )?;
        assert_eq!(rt; (turn.took, turn.entries, turn.tail), numbers);
        expect_replies(rt, &mut self.driver, replies);
        Ok(())
    }

    /// Expects at most so many visits so far.
    fn expect_visits<R: Abort>(&self, rt: &R, most: u64) {
        assert!(rt; self.visits.total <= most);
    }
}

/// How many workers each row is tried with.
const WORKERS: [u32; 3] = [1, 4, 64];

/// The deletion of the edge from 0 to 1 of weight 0.
const DELETE: Asked = Asked::Change(DelE { u: 0, v: 1, w: 0 });

/// The edge from 0 to 1 of this weight.
const fn edge(weight: u64) -> Triple {
    Triple {
        source: 0,
        target: 1,
        weight,
    }
}

/// The reply to a request that became the entry of a place.
const fn placed(session: u32, seq: u64, place: u64) -> (u32, u64, Outcome) {
    (session, seq, Outcome::Placed { place })
}

/// The reply to a request that found no copy to take, in its first part.
const fn no_edge(session: u32, seq: u64, front: u64) -> (u32, u64, Outcome) {
    (
        session,
        seq,
        Outcome::Refused(Refusal::NoEdge { front, part: 1 }),
    )
}

#[test]
fn the_second_deletion_of_a_tree_edge_bounces(rt: HostRuntime) -> Result<(), Fail> {
    for workers in WORKERS {
        let mut trial = Trial::new(rt.alloc(), &[edge(0), edge(0)], workers)?;
        let asked = [(0, 0, DELETE), (1, 0, DELETE)];
        trial.expect(&rt, &asked, &[placed(0, 0, 1), placed(1, 0, 2)], (2, 2, 1))?;
        trial.expect_visits(&rt, 0);
    }
    Ok(())
}

#[test]
fn a_refused_candidate_makes_no_place(rt: HostRuntime) -> Result<(), Fail> {
    for workers in WORKERS {
        let mut trial = Trial::new(rt.alloc(), &[edge(1)], workers)?;
        let asked = [
            (0, 0, Asked::Change(DelE { u: 0, v: 1, w: 3 })),
            (1, 0, Asked::Change(AddE { u: 0, v: 1, w: 3 })),
        ];
        trial.expect(&rt, &asked, &[no_edge(0, 0, 0), placed(1, 0, 1)], (2, 1, 0))?;
        trial.expect_visits(&rt, 0);
    }
    Ok(())
}

/// The addition of a vertex that is there.
const THERE: Asked = Asked::Change(AddV { x: 0 });

#[test]
fn candidates_come_before_the_tail_and_marks(rt: HostRuntime) -> Result<(), Fail> {
    for workers in WORKERS {
        let mut trial = Trial::new(rt.alloc(), &[], workers)?;
        let first = Asked::Change(AddE { u: 0, v: 1, w: 1 });
        let replies = [placed(1, 0, 1), placed(0, 0, 2)];
        trial.expect(&rt, &[(0, 0, first), (1, 0, THERE)], &replies, (2, 2, 1))?;
        let second = Asked::Change(AddE { u: 0, v: 1, w: 2 });
        let replies = [placed(0, 1, 3), placed(1, 1, 4)];
        trial.expect(&rt, &[(0, 1, second), (1, 1, THERE)], &replies, (2, 2, 0))?;
        let replies = [placed(1, 2, 5), marked(0, 2, 4)];
        trial.expect(
            &rt,
            &[(0, 2, Asked::Release(4)), (1, 2, THERE)],
            &replies,
            (2, 1, 1),
        )?;
        trial.expect(
            &rt,
            &[(1, 4, Asked::Release(3))],
            &[marked(1, 4, 3)],
            (1, 0, 1),
        )?;
    }
    Ok(())
}

/// The reply to a release behind five entries.
const fn marked(session: u32, seq: u64, upto: u64) -> (u32, u64, Outcome) {
    (session, seq, Outcome::Marked { front: 5, upto })
}

#[test]
fn candidates_are_sealed_stripe_after_stripe(rt: HostRuntime) -> Result<(), Fail> {
    for workers in WORKERS {
        let mut trial = Trial::new(rt.alloc(), &[], workers)?;
        let asked = [
            (0, 0, Asked::Change(AddV { x: 1 })),
            (1, 0, Asked::Change(AddV { x: 0 })),
            (2, 0, Asked::Change(DelE { u: 1, v: 0, w: 0 })),
        ];
        let replies = [placed(1, 0, 1), placed(0, 0, 2), no_edge(2, 0, 2)];
        trial.expect(&rt, &asked, &replies, (3, 2, 0))?;
        trial.expect_visits(&rt, 0);
    }
    Ok(())
}

/// What 64 sessions are told that delete so many copies of one edge.
fn deletions(alloc: Global, copies: u32) -> Result<Vec<(u32, u64, Outcome)>, Fail> {
    let mut replies = Vec::new(alloc);
    for s in 0..64 {
        replies.push(if s < copies {
            placed(s, 0, u64::from(s) + 1)
        } else {
            no_edge(s, 0, u64::from(copies))
        })?;
    }
    Ok(replies)
}

/// A driver on so many copies of one edge.
fn trial_on_copies(alloc: Global, copies: u32, workers: u32) -> Result<Trial, Fail> {
    let mut base = Vec::new(alloc);
    for _copy in 0..copies {
        base.push(edge(1))?;
    }
    Trial::new(alloc, &base, workers)
}

#[test]
fn all_sessions_delete_the_copies_of_one_edge(rt: HostRuntime) -> Result<(), Fail> {
    let mut asked = Vec::new(rt.alloc());
    for s in 0..64 {
        asked.push((s, 0, Asked::Change(DelE { u: 0, v: 1, w: 1 })))?;
    }
    for workers in WORKERS {
        let mut trial = trial_on_copies(rt.alloc(), 64, workers)?;
        let replies = deletions(rt.alloc(), 64)?;
        trial.expect(&rt, &asked, &replies, (64, 64, 1))?;
        let mut trial = trial_on_copies(rt.alloc(), 63, workers)?;
        let replies = deletions(rt.alloc(), 63)?;
        trial.expect(&rt, &asked, &replies, (64, 63, 2))?;
    }
    Ok(())
}

#[test]
fn a_leave_ends_a_session(rt: HostRuntime) -> Result<(), Fail> {
    let mut trial = Trial::new(rt.alloc(), &[], 1)?;
    trial.expect(
        &rt,
        &[(0, 0, Asked::Leave)],
        &[(0, 0, Outcome::Left { front: 0 })],
        (1, 0, 1),
    )
}

#[test]
fn all_kinds_of_requests_are_handled_in_the_tail(rt: HostRuntime) -> Result<(), Fail> {
    for workers in WORKERS {
        let mut trial = Trial::new(rt.alloc(), &[edge(1)], workers)?;
        let add = AddE { u: 1, v: 0, w: 1 };
        let asked = [
            (0, 0, Asked::Pair(add, AddV { x: 2 })),
            (1, 0, Asked::Release(9)),
            (2, 0, Asked::Change(DelV { x: 0 })),
            (3, 0, Asked::Pair(add, add)),
            (4, 0, Asked::Pair(AddV { x: 0 }, add)),
            (5, 0, Asked::Release(2)),
            (6, 0, Asked::Leave),
        ];
        let missing = Refusal::NoVertex {
            front: 2,
            part: 1,
            id: 0,
        };
        let replies = [
            placed(0, 0, 1),
            (1, 0, Outcome::NotYet { front: 1 }),
            placed(2, 0, 2),
            (3, 0, Outcome::Refused(missing)),
            placed(4, 0, 3),
            (5, 0, Outcome::Marked { front: 3, upto: 2 }),
            (6, 0, Outcome::Left { front: 3 }),
        ];
        trial.expect(&rt, &asked, &replies, (7, 3, 7))?;
        let mut lines = trial.driver.finish().lines;
        for line in [
            ("entry", 0, 2),
            ("entry", 2, 1),
            ("entry", 4, 2),
            ("mark", 5, 2),
            ("leave", 6, 0),
        ] {
            assert!(rt;
                lines
                    .take_first()
                    .is_some_and(|found| line_of(&found) == line)
            );
        }
        assert!(rt; lines.is_empty());
    }
    Ok(())
}

/// The kind of a line, its session, and the number of an entry's parts or the released place.
fn line_of(line: &Line) -> (&'static str, u32, u64) {
    match line {
        Line::Entry(entry) => ("entry", entry.session, entry.parts.len()),
        Line::Mark { session, upto, .. } => ("mark", *session, *upto),
        Line::Leave { session, .. } => ("leave", *session, 0),
    }
}

#[test]
fn two_workers_meet(rt: HostRuntime) -> Result<(), Fail> {
    let mut driver = driver_on(rt.alloc(), 33, &[], 2)?;
    let asked = [
        (0, 0, Asked::Change(AddV { x: 0 })),
        (1, 0, Asked::Change(AddV { x: 32 })),
    ];
    let gate = HoldGate::new(0, 1);
    let turn = turn_of(&rt, &mut driver, &asked, 2, &gate, &mut Visits { total: 0 })?;
    assert!(rt; gate.met());
    assert_eq!(rt; turn.entries, 2);
    expect_replies(&rt, &mut driver, &[placed(0, 0, 1), placed(1, 0, 2)]);
    Ok(())
}

#[test]
fn a_driver_holds_what_it_needs_alone(rt: HostRuntime) -> Result<(), Fail> {
    let driver = driver_on(rt.alloc(), 2, &[edge(0), edge(0)], 2)?;
    let Driver {
        graph,
        jobs,
        alloc: _,
        analyses: _,
        journal: _,
        opening: _,
        records,
        replies,
    } = driver;
    assert!(rt; graph.is_some() && jobs.is_some());
    assert!(rt; records.is_empty() && replies.is_empty());
    Ok(())
}

#[test]
fn a_deletion_without_memory_is_taken_back(rt: HostRuntime) -> Result<(), Fail> {
    let mut driver = driver_on(rt.alloc(), 2, &[edge(0)], 1)?;
    let mut visits = Visits { total: 0 };
    for seq in 0..2 {
        let turn = turn_of(
            &rt,
            &mut driver,
            &[(0, seq, DELETE)],
            1,
            &FreeGate,
            &mut visits,
        )?;
        if turn.entries == 1 {
            expect_replies(&rt, &mut driver, &[placed(0, seq, 1)]);
            return Ok(());
        }
        let refused = Outcome::Refused(Refusal::NoMemory);
        expect_replies(&rt, &mut driver, &[(0, seq, refused)]);
        assert_eq!(rt; driver.front(), 0);
    }
    Err(Fail::from("refused twice"))
}
