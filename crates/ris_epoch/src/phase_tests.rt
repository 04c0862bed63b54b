ghost use Rattle.std.specs.Prelude.{◌≤◌};

use crate::tests::{Asked, Visits, depths, driver_on, turn_of};
use ris_analysis::Analyses;
use ris_base::Update::{AddE, AddV};
use ris_base::{Format, Gate, Triples, Update, Verdict};
use ris_graph::{Graph, Jobs};
use ris_phase::{HoldGate, apply};
use std::process::Abort;
use std::sync::atomic::{AtomicU32, AtomicU64, Ordering};
use std::test::Fail;
use std::thread::Threads;

/// What the jobs of sessions 0 and 1 get that add two vertices which are there, decided by so many workers.
fn two_verdicts<R: AllocGlobal + Threads + Sync, G: Gate>(
    rt: &R,
    workers: u32,
    gate: &G,
) -> Result<(Verdict, Verdict), Fail>
    requires some { 1 ≤ workers }
    requires few { workers ≤ 64 }
{
    let base = Triples::new(rt.alloc());
    let graph = Graph::start(rt.alloc(), 33, Format::One, &base)?;
    let specs = depths(rt.alloc())?;
    let analyses = Analyses::start(rt.alloc(), &graph, &specs, &mut Visits { total: 0 })?;
    let mut jobs = Jobs::new(rt.alloc())?;
    jobs.add(0, AddV { x: 0 });
    jobs.add(1, AddV { x: 32 });
    let mut loose = graph.loosen(jobs);
    apply(rt, &mut loose, &analyses, workers, gate);
    let (_graph, jobs) = loose.settle();
    Ok((jobs.verdict(0), jobs.verdict(1)))
}

#[test]
fn two_jobs_meet(rt: HostRuntime) -> Result<(), Fail> {
    let gate = HoldGate::new(0, 1);
    let verdicts = two_verdicts(&rt, 2, &gate)?;
    assert_eq!(rt; verdicts, (Verdict::Applied, Verdict::Applied));
    assert!(rt; gate.met());
    Ok(())
}

/// A gate that counts how often it is entered, and notes the numbers of the jobs below 64 that enter it.
#[derive(Drop)]
struct CountGate {
    total: AtomicU32,
    jobs: AtomicU64,
}

impl CountGate {
    /// A gate that no job has entered.
    fn new() -> CountGate {
        CountGate {
            total: AtomicU32::new(0),
            jobs: AtomicU64::new(0),
        }
    }

    /// Expects that each job below a number has entered once, and no other one.
    fn expect<R: Abort>(&self, rt: &R, jobs: u32) {
        assert_eq!(rt; self.total.load(Ordering::SeqCst), jobs);
        assert_eq!(rt; self.jobs.load(Ordering::SeqCst), lowest(jobs));
    }
}

impl Gate for CountGate {
    fn enter(&self, job: u32) {
        self.total.fetch_add(1, Ordering::SeqCst);
        if job < 64 {
            self.jobs.fetch_or(1 << job, Ordering::SeqCst);
        }
    }
}

/// The number whose lowest bits are set, so many and no other ones.
fn lowest(bits: u32) -> u64 {
    if bits < 64 { (1 << bits) - 1 } else { u64::MAX }
}

/// The workers of a turn, and how many jobs its phase then has.
const SHARES: [(u32, u32); 8] = [
    (1, 1),
    (2, 2),
    (3, 3),
    (4, 4),
    (22, 22),
    (48, 32),
    (63, 32),
    (64, 64),
];

#[test]
fn each_job_enters_the_gate_once(rt: HostRuntime) -> Result<(), Fail> {
    for (workers, jobs) in SHARES {
        let mut driver = driver_on(rt.alloc(), 1, &[], 1)?;
        let asked = [(0, 0, Asked::Change(AddV { x: 0 }))];
        let gate = CountGate::new();
        let mut visits = Visits { total: 0 };
        let turn = turn_of(&rt, &mut driver, &asked, workers, &gate, &mut visits)?;
        assert_eq!(rt; (turn.took, turn.entries, turn.tail), (1, 1, 0));
        gate.expect(&rt, jobs);
    }
    Ok(())
}

#[test]
fn a_turn_without_candidates_has_no_phase(rt: HostRuntime) -> Result<(), Fail> {
    let mut driver = driver_on(rt.alloc(), 2, &[], 1)?;
    let asked = [(0, 0, Asked::Change(AddE { u: 0, v: 1, w: 0 }))];
    let gate = CountGate::new();
    let mut visits = Visits { total: 0 };
    let turn = turn_of(&rt, &mut driver, &asked, 2, &gate, &mut visits)?;
    assert_eq!(rt; (turn.took, turn.entries, turn.tail), (1, 1, 1));
    gate.expect(&rt, 0);
    Ok(())
}
