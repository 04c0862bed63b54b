ghost use Rattle.std.specs.Prelude.{◌≡◌, ◌<◌, IfOk, length};
ghost use Rattle.ris_analysis.specs.Analyses.{ArePlainSpecs};

use crate::renewals::renew;
use crate::tests::Visits;
use ris_analysis::Analyses;
use ris_base::Update::{AddE, AddV, DelE, DelV, SetW};
use ris_base::{
    Format, Kind, Parent, Parts, PartsBuilder, PlainGraph, Refusal, Spec, Specs, Triple, Triples,
    Update, Value, Values,
};
use ris_four::plain_values;
use ris_graph::Graph;
use ris_txn::net_of;
use std::alloc::Global;
use std::marker::Model;
use std::process::Abort;
use std::test::Fail;
use std::thread::Threads;

/// Vertex numbers and weights that the run draws.
const NUMBERS: u32 = 12;

const WEIGHTS: u64 = 3;

/// The analyses, each from the root 0.
const KINDS: [Kind; 4] = [Kind::Bfs, Kind::Sssp, Kind::Sswp, Kind::Wcc];

/// A graph with the forests of the four analyses.
#[derive(Drop)]
struct Live {
    graph: Graph<Visits>,
    analyses: Analyses,
}

impl Model for Live {
    ghost use Rattle.std.specs.Prelude.{◌≡◌, List, length};
    ghost use Rattle.ris_analysis.specs.declared.kinds.AnyForest.{AnyForest};
    ghost use Rattle.ris_base.specs.Forest.{Forest};
    ghost use Rattle.ris_base.specs.declared.analyses.Spec.{Spec};
    ghost use Rattle.ris_base.specs.declared.graphs.PlainGraph.{PlainGraph};
    ghost use Rattle.ris_epoch.specs.DriverView.{Fits};

    ghost Value = { List AnyForest };

    ghost view = { λ l. l.analyses };

    ghost invariant = { λ l. (p : PlainGraph) × (specs : List Spec) × (forests : List Forest) × Fits l.graph l.analyses p specs forests × (length l.analyses ≡ 4) };
}

impl Live {
    /// A graph of four vertices without edges.
    fn start(alloc: Global, format: Format) -> Result<Live, Fail> {
        let base = Triples::new(alloc);
        let graph = Graph::start(alloc, 4, format, &base)?;
        let specs = four(alloc)?;
        let mut visits = Visits { total: 0 };
        let analyses = Analyses::start(alloc, &graph, &specs, &mut visits)?;
        Ok(Live { graph, analyses })
    }

    /// Enters a request, and makes the forests right, where it isn't refused.
    fn enter(&mut self, alloc: Global, parts: &Parts, visits: &mut Visits) -> Result<(), Refusal> {
        let net = net_of(alloc, &self.graph, parts, 0, visits)?;
        match renew(alloc, &mut self.graph, &mut self.analyses, &net, visits) {
            Ok(_changes) => Ok(()),
            Err(_) => Err(Refusal::NoMemory),
        }
    }

    /// What stands now.
    fn shot(&self, alloc: Global) -> Result<Shot, Fail> {
        let plain = self.graph.plain(&mut Visits { total: 0 })?;
        let mut columns = Vec::new(alloc);
        for a in 0..4 {
            columns.push(self.column(alloc, a)?)?;
        }
        Shot::new(alloc, plain, columns)
    }

    /// The values of an analysis by the definition.
    fn values<R: AllocGlobal + Threads + Sync>(&self, rt: &R, kind: Kind) -> Result<Values, Fail> {
        let plain = self.graph.plain(&mut Visits { total: 0 })?;
        let values = plain_values(rt, rt.alloc(), &plain, Spec { kind, root: 0 })?;
        Ok(values)
    }

    /// What an analysis gives each vertex number.
    fn column(&self, alloc: Global, a: u32) -> Result<Vec<(Value, Parent)>, Fail>
        requires { a < 4 }
    {
        let mut column = Vec::new(alloc);
        for x in 0..u64::from(NUMBERS) {
            let (value, parent) = (self.analyses.value(a, x), self.analyses.parent(a, x));
            column.push((value, parent))?;
        }
        Ok(column)
    }
}

/// What stands between two requests: the plain graph, its distinct triples, and what each analysis gives each vertex number.
#[derive(Drop)]
struct Shot {
    plain: PlainGraph,
    triples: Vec<Triple>,
    columns: Vec<Vec<(Value, Parent)>>,
}

impl Shot {
    /// What stands in a plain graph with these columns.
    fn new(
        alloc: Global,
        plain: PlainGraph,
        columns: Vec<Vec<(Value, Parent)>>,
    ) -> Result<Shot, Fail> {
        let mut triples = Vec::new(alloc);
        for k in 0..plain.triples.len() {
            let t = *plain.triples.at(k);
            if !triples.contains(&t) {
                triples.push(t)?;
            }
        }
        Ok(Shot {
            plain,
            triples,
            columns,
        })
    }

    /// Whether the graph has a vertex.
    fn has(&self, x: u32) -> bool {
        (0..self.plain.vertices.len()).any(|k| self.plain.vertices.get(k) == Some(&x))
    }

    /// What an analysis gives a vertex number.
    fn at(&self, a: usize, x: u32) -> (Value, Parent) {
        match self.columns.get(a) {
            Some(column) => column
                .get(x as usize)
                .copied()
                .unwrap_or((Value::Absent, Parent::None)),
            None => (Value::Absent, Parent::None),
        }
    }

    /// How many distinct triples lead to a vertex or leave it.
    fn degrees(&self, x: u32) -> u64 {
        self.ins(x).saturating_add(self.outs(x))
    }

    /// How many distinct triples lead to a vertex.
    fn ins(&self, x: u32) -> u64 {
        self.triples.iter().filter(|t| t.target == x).count() as u64
    }

    /// How many distinct triples leave a vertex.
    fn outs(&self, x: u32) -> u64 {
        self.triples.iter().filter(|t| t.source == x).count() as u64
    }

    /// The number with which a vertex of the graph begins by itself, if it has one.
    fn start(&self, kind: Kind, x: u32) -> Option<u64> {
        match kind {
            Kind::Wcc => Some(u64::from(x)),
            _ if x != 0 => None,
            Kind::Sswp => Some(self.plain.format.max_weight().saturating_add(1)),
            Kind::Bfs | Kind::Sssp => Some(0),
        }
    }

    /// The edge by which a vertex hangs.
    fn edge(&self, a: usize, x: u32) -> Option<(u32, Triple)> {
        match self.at(a, x).1 {
            Parent::None => None,
            Parent::From {
                vertex,
                source,
                target,
                weight,
            } => Some((
                vertex,
                Triple {
                    source,
                    target,
                    weight,
                },
            )),
        }
    }

    /// Whether the parent of a vertex is right for its value.
    fn is_right(&self, a: usize, kind: Kind, x: u32) -> bool {
        let value = self.at(a, x).0;
        let Some((vertex, t)) = self.edge(a, x) else {
            return match value {
                Value::Num(c) => self.start(kind, x) == Some(c),
                Value::Absent | Value::Unreached => true,
            };
        };
        let along = t.source == vertex && t.target == x;
        let against = kind == Kind::Wcc && t.target == vertex && t.source == x;
        let (Value::Num(above), Value::Num(here)) = (self.at(a, vertex).0, value) else {
            return false;
        };
        self.triples.contains(&t)
            && (along || against)
            && here == step(kind, above, t.weight)
            && self.start(kind, x) != Some(here)
    }

    /// Whether parents lead from a vertex to one without a parent.
    fn is_rooted(&self, a: usize, x: u32) -> bool {
        let mut y = x;
        for _step in 0..NUMBERS {
            match self.edge(a, y) {
                Some((vertex, _)) => y = vertex,
                None => return true,
            }
        }
        false
    }
}

/// What an edge of a weight makes of the number above it.
fn step(kind: Kind, above: u64, weight: u64) -> u64 {
    match kind {
        Kind::Bfs => above.saturating_add(1),
        Kind::Sssp => above.saturating_add(weight),
        Kind::Sswp => above.min(weight),
        Kind::Wcc => above,
    }
}

/// A request between two shots.
#[derive(Drop)]
struct Passage<'a> {
    before: &'a Shot,
    after: &'a Shot,
    updates: &'a [Update],
}

impl<'a> Passage<'a> {
    /// Whether a part drops a vertex.
    fn drops(&self, x: u32) -> bool {
        self.updates.contains(&DelV { x: u64::from(x) })
    }

    /// Whether an edge is lost: it has no copy left, or a part drops one of its ends.
    fn loses(&self, t: Triple) -> bool {
        !self.after.triples.contains(&t) || self.drops(t.source) || self.drops(t.target)
    }

    /// Whether a vertex hangs at or below a lost edge.
    fn hangs_lost(&self, a: usize, x: u32) -> bool {
        let mut y = x;
        for _step in 0..NUMBERS {
            match self.before.edge(a, y) {
                Some((_, t)) if self.loses(t) => return true,
                Some((vertex, _)) => y = vertex,
                None => return false,
            }
        }
        false
    }

    /// Whether a vertex is fallen.
    fn falls(&self, a: usize, x: u32) -> bool {
        let (was, is) = (self.before.has(x), self.after.has(x));
        (was && self.drops(x)) || (is && !was) || self.hangs_lost(a, x)
    }

    /// The part of a vertex in the reach for an analysis.
    fn part(&self, a: usize, kind: Kind, x: u32) -> u64 {
        let push = match kind {
            Kind::Wcc => self.after.degrees(x),
            _ => self.after.outs(x),
        };
        let pull = match kind {
            Kind::Wcc => self.after.degrees(x),
            _ => self.after.ins(x),
        };
        if self.falls(a, x) {
            pull.saturating_add(push)
        } else if self.before.at(a, x).0 != self.after.at(a, x).0 {
            push
        } else {
            0
        }
    }

    /// The reach of the request for an analysis.
    fn reach_of(&self, a: usize, kind: Kind) -> u64 {
        let mut reach: u64 = 0;
        for x in 0..NUMBERS {
            reach = reach.saturating_add(self.part(a, kind, x));
        }
        reach
    }

    /// The degrees of the vertices that parts drop.
    fn dropped_degrees(&self) -> u64 {
        let mut total: u64 = 0;
        for update in self.updates {
            if let DelV { x } = update {
                let x = u32::try_from(*x).unwrap_or(NUMBERS);
                total = total.saturating_add(self.before.degrees(x));
            }
        }
        total
    }

    /// The reach of the request.
    fn reach(&self) -> u64 {
        let mut reach = self.dropped_degrees();
        for (a, kind) in KINDS.iter().enumerate() {
            reach = reach.saturating_add(self.reach_of(a, *kind));
        }
        reach
    }
}

/// The four analyses.
fn four(alloc: Global) -> Result<Specs, Fail>
    ensures count { IfOk result (λ specs. length specs ≡ 4) }
    ensures plain { IfOk result ArePlainSpecs }
{
    let mut specs = Specs::new(alloc);
    for kind in KINDS {
        specs.push(Spec { kind, root: 0 })?;
    }
    Ok(specs)
}

/// A request of these parts.
fn parts_of(alloc: Global, updates: &[Update]) -> Result<Parts, Fail> {
    let mut builder = PartsBuilder::new(alloc)?;
    for update in updates {
        if builder.push(*update).is_err() {
            return Err(Fail::from("too many parts"));
        }
    }
    match builder.close() {
        Some(parts) => Ok(parts),
        None => Err(Fail::from("no part")),
    }
}

/// A linear congruential generator.
#[derive(Drop)]
struct Generator {
    state: u64,
}

impl Generator {
    /// A number below this one, which isn't 0.
    fn draw(&mut self, below: u64) -> u64 {
        self.state = self
            .state
            .wrapping_mul(6364136223846793005)
            .wrapping_add(1442695040888963407);
        (self.state >> 33).checked_rem(below).unwrap_or(0)
    }

    /// A vertex number.
    fn vertex(&mut self) -> u64 {
        self.draw(u64::from(NUMBERS))
    }

    /// An update of any kind. Many edges are at the vertex 0 or 1, which are hubs.
    fn update(&mut self) -> Update {
        let hub = self.draw(2);
        let (x, y) = (self.vertex(), self.vertex());
        let (u, v) = match self.draw(4) {
            0 => (hub, y),
            1 => (x, hub),
            _ => (x, y),
        };
        let (w, w2) = (self.draw(WEIGHTS), self.draw(WEIGHTS));
        match self.draw(16) {
            0 | 1 => AddV { x },
            2 => DelV { x },
            3..=5 => DelE { u, v, w },
            6..=8 => SetW { u, v, w, w2 },
            _ => AddE { u, v, w },
        }
    }

    /// The updates of a request: mostly one, else up to four.
    fn updates(&mut self, alloc: Global) -> Result<Vec<Update>, Fail> {
        let count = match self.draw(3) {
            0 => self.draw(4).saturating_add(1),
            _ => 1,
        };
        let mut updates = Vec::new(alloc);
        for _part in 0..count {
            updates.push(self.update())?;
        }
        Ok(updates)
    }
}

/// Expects these values of an analysis, and that its parents are right.
fn expect_column<R: Abort>(rt: &R, shot: &Shot, a: usize, kind: Kind, values: &Values) {
    for x in 0..NUMBERS {
        let value = values.get(u64::from(x)).copied().unwrap_or(Value::Absent);
        assert_eq!(rt; shot.at(a, x).0, value, "{kind:?} of {x}");
        assert!(rt;
            shot.is_right(a, kind, x) && shot.is_rooted(a, x),
            "{kind:?} of {x}"
        );
    }
}

/// Expects that the values of each analysis are those of the definition, and that parents are right.
fn expect_forests<R: AllocGlobal + Threads + Sync + Abort>(
    rt: &R,
    live: &Live,
    shot: &Shot,
) -> Result<(), Fail> {
    for (a, kind) in KINDS.iter().enumerate() {
        let values = live.values(rt, *kind)?;
        expect_column(rt, shot, a, *kind, &values);
    }
    Ok(())
}

/// Enters a request, and expects right forests and few visits behind it. What stands then.
fn enter<R: AllocGlobal + Threads + Sync + Abort>(
    rt: &R,
    live: &mut Live,
    before: &Shot,
    updates: &[Update],
) -> Result<Shot, Fail> {
    let parts = parts_of(rt.alloc(), updates)?;
    let mut visits = Visits { total: 0 };
    let refused = match live.enter(rt.alloc(), &parts, &mut visits) {
        Ok(()) => false,
        Err(Refusal::NoMemory) => return Err(Fail::from("no memory")),
        Err(_) => true,
    };
    let after = live.shot(rt.alloc())?;
    expect_forests(rt, live, &after)?;
    let passage = Passage {
        before,
        after: &after,
        updates,
    };
    let most = if refused { 0 } else { passage.reach() };
    assert!(rt; visits.total <= most, "{updates:?}");
    Ok(after)
}

/// Enters requests at random in a graph of this format, each of which leaves right forests.
fn run<R: AllocGlobal + Threads + Sync + Abort>(rt: &R, format: Format) -> Result<(), Fail> {
    let mut live = Live::start(rt.alloc(), format)?;
    let mut shot = live.shot(rt.alloc())?;
    let mut generator = Generator { state: 15 };
    for _request in 0..1500 {
        let updates = generator.updates(rt.alloc())?;
        shot = enter(rt, &mut live, &shot, &updates)?;
    }
    Ok(())
}

#[test]
fn forests_are_right_behind_each_request(rt: HostRuntime) -> Result<(), Fail> {
    for format in [Format::One, Format::Two] {
        run(&rt, format)?;
    }
    Ok(())
}
