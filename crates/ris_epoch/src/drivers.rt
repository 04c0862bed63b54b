ghost use Rattle.std.specs.Prelude.{◌≡◌, ◌≤◌, ◌<◌, [], IfOk, length, drop, slice_get};
ghost use Rattle.std.specs.List.{All};
ghost use Rattle.std.specs.Option.{option_map};
ghost use Rattle.ris_analysis.specs.Analyses.{ArePlainSpecs};
ghost use Rattle.ris_base.specs.Falling.{start_reach};
ghost use Rattle.ris_base.specs.Limits.{greatest_of, session_limit, vertex_limit};
ghost use Rattle.ris_base.specs.Lines.{front};
ghost use Rattle.ris_base.specs.Lists.{numbers_below};
ghost use Rattle.ris_base.specs.declared.graphs.PlainGraph.{PlainGraph};
ghost use Rattle.ris_graph.specs.Ticks.{IsRise};

use crate::openings;
use ris_analysis::Analyses;
use ris_base::{Format, Lines, Meter, NoMemory, Outcome, Record, Specs, Start, Triples};
use ris_graph::{Graph, Jobs};
use ris_journal::Journal;
use std::alloc::Global;
use std::collections::VecDeque;
use std::marker::Model;

/// The greatest number of replies of a turn: one for each session.
const REPLIES: usize = 64;

/// What is left of a driver: the serial list of entries, marks and leaves.
#[derive(Drop)]
pub struct Final {
    pub lines: Lines,
}

/// The driver of all sessions: it takes their requests turn by turn, and makes the one serial list of them. It holds the graph
/// and the forests of now, the list, and the records and the replies of the last turn until they are given. Its cursors count by
/// a meter of the type `M`.
#[derive(Drop)]
pub struct Driver<M> {
    pub(crate) graph: Option<Graph<M>>,
    pub(crate) jobs: Option<Jobs>,
    pub(crate) alloc: Global,
    pub(crate) analyses: Analyses,
    pub(crate) journal: Journal,
    pub(crate) opening: Start,
    pub(crate) records: VecDeque<Record>,
    pub(crate) replies: VecDeque<(u32, u64, Outcome)>,
}

impl<M> Model for Driver<M> {
    ghost use Rattle.std.specs.Prelude.{◌≡◌, ◌≤◌, ◌-◌, IsSome, length, unwrap_or};
    ghost use Rattle.std.specs.VecDeque.{deque_capacity, deque_len};
    ghost use Rattle.ris_epoch.specs.DriverView.{DriverView, Stands, no_graph};
    ghost use Rattle.ris_epoch.specs.Driving.{all_resolved};
    ghost use Rattle.ris_graph.specs.Jobs.{no_jobs};

    ghost Value = { DriverView };

    ghost view = { λ d. record {
      graph = unwrap_or d.graph no_graph;
      jobs = unwrap_or d.jobs no_jobs;
      analyses = d.analyses;
      journal = d.journal;
      opening = d.opening;
      records = d.records.items;
      record_room = deque_capacity d.records - deque_len d.records;
      replies = all_resolved d.replies.items;
    } };

    ghost invariant = { λ d. IsSome d.graph × IsSome d.jobs × (64 ≤ deque_capacity d.replies) × Stands (record {
      graph = unwrap_or d.graph no_graph;
      jobs = unwrap_or d.jobs no_jobs;
      analyses = d.analyses;
      journal = d.journal;
      opening = d.opening;
      records = d.records.items;
      record_room = deque_capacity d.records - deque_len d.records;
      replies = all_resolved d.replies.items;
    }) };
}

impl<M: Meter> Driver<M> {
    ghost use Rattle.ris_epoch.specs.DriverView.{StandsFor};
    ghost use Rattle.ris_epoch.specs.Driving.{resolved_of};
    ghost use Rattle.ris_graph.specs.Jobs.{no_jobs};

    /// A driver on the graph of this format that has the vertices below `vertices` and the triples of `base`, with the forests of
    /// 1 to 4 analyses and no lines, for 1 to 64 sessions. There are at most 4,194,304 vertices, the ends of a triple are below
    /// `vertices`, and its weight is within the limit of the format. The root of an analysis of components is 0.
    ///
    /// The meter ticks at most as often as the reach of the start says, also where `NoMemory` comes. It takes time of the
    /// triples times a logarithm for each analysis, and goes once over the vertex numbers below the limit.
    pub fn start(
        alloc: Global,
        vertices: u32,
        format: Format,
        base: &Triples,
        specs: &Specs,
        sessions: u32,
        meter: &mut M,
    ) -> Result<Driver<M>, NoMemory>
        requires few { vertices ≤ vertex_limit }
        requires ends { All (λ t. (t.source < vertices) × (t.target < vertices)) base.now }
        requires weights { All (λ t. t.weight ≤ greatest_of format) base.now }
        requires some_specs { 1 ≤ length specs.now }
        requires few_specs { length specs.now ≤ 4 }
        requires roots { ArePlainSpecs specs.now }
        requires some_sessions { 1 ≤ sessions }
        requires few_sessions { sessions ≤ session_limit }
        ensures stands { IfOk result (λ driver. let p : PlainGraph = record { format = format; vertices = numbers_below vertices; triples = base.now } in
            StandsFor driver (record { opening = p; specs = specs.now; start = driver.opening }) []) }
        ensures sessions { IfOk result (λ driver. driver.opening.sessions ≡ sessions) }
        ensures idle { IfOk result (λ driver. (driver.jobs ≡ no_jobs) × (driver.records ≡ []) × (driver.replies ≡ [])) }
        ensures visits { IsRise (M.ticks meter.old) (M.ticks meter.new)
            (start_reach (record { format = format; vertices = numbers_below vertices; triples = base.now }) specs.now) }
    {
        let graph = Graph::start(alloc, vertices, format, base)?;
        let analyses = Analyses::start(alloc, &graph, specs, meter)?;
        let forests = openings::forests_of(alloc, &analyses, specs.len() as u32, vertices)?;
        let jobs = Jobs::new(alloc)?;
        let replies = VecDeque::with_capacity(alloc, REPLIES)?;
        Ok(Driver {
            graph: Some(graph),
            jobs: Some(jobs),
            alloc,
            analyses,
            journal: Journal::new(alloc),
            opening: Start { sessions, forests },
            records: VecDeque::new(alloc),
            replies,
        })
    }

    /// The number of sessions and the forests of place 0. Constant time.
    pub fn opening(&self) -> &Start
        ensures { result.now ≡ self.now.opening }
    {
        &self.opening
    }

    /// The next record of the last turn, in order, which is then gone. `None` exactly where all were given. Constant time; it
    /// takes no memory.
    pub fn fresh(&mut self) -> Option<Record>
        ensures item { result ≡ slice_get self.old.records 0 }
        ensures rest { self.new.records ≡ drop 1 self.old.records }
        ensures graph { self.new.graph ≡ self.old.graph }
        ensures jobs { self.new.jobs ≡ self.old.jobs }
        ensures analyses { self.new.analyses ≡ self.old.analyses }
        ensures journal { self.new.journal ≡ self.old.journal }
        ensures opening { self.new.opening ≡ self.old.opening }
        ensures replies { self.new.replies ≡ self.old.replies }
    {
        self.records.pop_front()
    }

    /// The next reply of the last turn, in order, which is then gone: the session, the number of its request, and what became of
    /// it. `None` exactly where all were given. Every record was given before. Constant time; it takes no memory.
    pub fn reply(&mut self) -> Option<(u32, u64, Outcome)>
        requires { self.old.records ≡ [] }
        ensures item { option_map resolved_of result ≡ slice_get self.old.replies 0 }
        ensures rest { self.new ≡ record self.old { replies = drop 1 self.old.replies } }
    {
        self.replies.pop_front()
    }

    /// The number of entries. Constant time.
    pub fn front(&self) -> u64
        ensures { result ≡ front self.now.journal.lines }
    {
        self.journal.front()
    }

    /// The serial list. Constant time; it takes no memory.
    pub fn finish(self) -> Final
        ensures { result.lines ≡ self.journal.lines }
    {
        Final {
            lines: self.journal.lines(),
        }
    }
}
