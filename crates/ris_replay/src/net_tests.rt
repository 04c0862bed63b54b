ghost use Rattle.std.specs.Prelude.{IfOk};
ghost use Rattle.ris_graph.specs.Nets.{IsCommitted};

use crate::tests::Count;
use ris_base::Update::{AddE, AddV, DelE, DelV, SetW};
use ris_base::{Format, Parts, PartsBuilder, PlainGraph, Refusal, Triple, Triples, Update};
use ris_four::plain_entered;
use ris_graph::{Graph, Net};
use ris_txn::net_of;
use std::alloc::Global;
use std::collections::{BTreeMap, BTreeSet};
use std::process::Abort;
use std::test::Fail;

/// The front that refusals are to say.
const FRONT: u64 = 8;

/// Commits the net of a request, where it isn't refused. The graph is listed before, which shows that it is a plain one.
fn commit_net(
    alloc: Global,
    graph: &mut Graph<Count>,
    parts: &Parts,
    meter: &mut Count,
) -> Result<Net, Refusal>
    ensures { IfOk result (IsCommitted graph.new) }
{
    let Ok(_plain) = graph.plain(meter) else {
        return Err(Refusal::NoMemory);
    };
    let net = net_of(alloc, graph, parts, FRONT, meter)?;
    let Ok(()) = graph.make_room_for(&net) else {
        return Err(Refusal::NoMemory);
    };
    graph.commit(&net);
    Ok(net)
}

/// A request of these parts.
fn parts_of(alloc: Global, updates: &[Update]) -> Result<Parts, Fail> {
    let mut builder = PartsBuilder::new(alloc)?;
    for update in updates {
        if builder.push(*update).is_err() {
            return Err(Fail::from("too many parts"));
        }
    }
    match builder.close() {
        Some(parts) => Ok(parts),
        None => Err(Fail::from("no part")),
    }
}

/// The vertices of a plain graph in order.
fn vertices_of(alloc: Global, graph: &PlainGraph) -> Result<Vec<u32>, Fail> {
    let mut vertices = Vec::new(alloc);
    for k in 0..graph.vertices.len() {
        vertices.push(*graph.vertices.at(k))?;
    }
    vertices.sort_unstable();
    Ok(vertices)
}

/// The triples of a plain graph in order, each as often as it has copies.
fn triples_of(alloc: Global, graph: &PlainGraph) -> Result<Vec<Triple>, Fail> {
    let mut triples = Vec::new(alloc);
    for k in 0..graph.triples.len() {
        triples.push(*graph.triples.at(k))?;
    }
    triples.sort_unstable_by_key(|t| (t.source, t.target, t.weight));
    Ok(triples)
}

/// Expects that a graph is this plain graph.
fn expect_same<R: AllocGlobal + Abort>(
    rt: &R,
    graph: &Graph<Count>,
    plain: &PlainGraph,
) -> Result<(), Fail> {
    let listed = graph.plain(&mut Count { ticks: 0 })?;
    assert_eq!(rt; listed.format, plain.format);
    assert_eq!(rt;
        vertices_of(rt.alloc(), &listed)?,
        vertices_of(rt.alloc(), plain)?
    );
    assert_eq!(rt;
        triples_of(rt.alloc(), &listed)?,
        triples_of(rt.alloc(), plain)?
    );
    Ok(())
}

/// Enters a request in a graph that is this plain graph, by its net and by the definitions: commits, takes back, and commits
/// again. The plain graph behind it.
fn enter<R: AllocGlobal + Abort>(
    rt: &R,
    graph: &mut Graph<Count>,
    plain: PlainGraph,
    updates: &[Update],
) -> Result<PlainGraph, Fail> {
    let parts = parts_of(rt.alloc(), updates)?;
    let mut meter = Count { ticks: 0 };
    let wanted = plain_entered(rt.alloc(), &plain, &parts, FRONT);
    match (commit_net(rt.alloc(), graph, &parts, &mut meter), wanted) {
        (Ok(net), Ok(after)) => {
            expect_same(rt, graph, &after)?;
            graph.undo(&net);
            expect_same(rt, graph, &plain)?;
            if commit_net(rt.alloc(), graph, &parts, &mut meter).is_err() {
                return Err(Fail::from("refused the second time"));
            }
            expect_same(rt, graph, &after)?;
            Ok(after)
        }
        (Err(refusal), Err(wanted)) => {
            assert_eq!(rt; refusal, wanted, "{updates:?}");
            expect_same(rt, graph, &plain)?;
            Ok(plain)
        }
        _ => Err(Fail::from("accepted on one side alone")),
    }
}

/// Requests one after another, each on what those before it leave of four vertices.
fn requests() -> &'static [&'static [Update]] {
    &[
        // copies, a loop, edges either way, and triples that differ in weight alone
        &[
            AddE { u: 0, v: 1, w: 5 },
            AddE { u: 0, v: 1, w: 5 },
            AddE { u: 0, v: 1, w: 6 },
            AddE { u: 1, v: 2, w: 3 },
            AddE { u: 2, v: 2, w: 7 },
            AddE { u: 3, v: 0, w: 1 },
        ],
        // one copy of two, and the last one
        &[DelE { u: 0, v: 1, w: 5 }],
        &[DelE { u: 1, v: 2, w: 3 }, AddE { u: 1, v: 2, w: 4 }],
        // a copy changes its weight, to one that is there and back
        &[
            SetW {
                u: 0,
                v: 1,
                w: 6,
                w2: 5,
            },
            SetW {
                u: 0,
                v: 1,
                w: 5,
                w2: 6,
            },
        ],
        &[SetW {
            u: 0,
            v: 1,
            w: 6,
            w2: 5,
        }],
        // nothing as a whole
        &[
            AddE { u: 0, v: 3, w: 9 },
            SetW {
                u: 0,
                v: 3,
                w: 9,
                w2: 8,
            },
            DelE { u: 0, v: 3, w: 8 },
        ],
        &[AddV { x: 9 }, AddE { u: 9, v: 0, w: 1 }, DelV { x: 9 }],
        &[AddV { x: 2 }],
        // a vertex with a loop goes, and another comes past the end of the tables
        &[DelV { x: 2 }, AddV { x: 300 }, AddE { u: 300, v: 3, w: 2 }],
        // vertices that are dropped and added again
        &[DelV { x: 0 }, AddV { x: 0 }],
        &[
            AddE { u: 0, v: 1, w: 5 },
            DelV { x: 1 },
            AddV { x: 1 },
            AddE { u: 0, v: 1, w: 5 },
            AddV { x: 2 },
            AddE { u: 2, v: 1, w: 5 },
        ],
        &[DelV { x: 1 }, DelV { x: 3 }],
        // refused, and nothing of it stays
        &[
            AddE { u: 0, v: 2, w: 1 },
            DelE { u: 0, v: 2, w: 1 },
            DelE { u: 0, v: 2, w: 1 },
        ],
        &[DelV { x: 0 }, AddE { u: 2, v: 0, w: 1 }],
        &[AddV { x: 1 }, AddV { x: 4_194_304 }],
        &[
            DelV { x: 2 },
            SetW {
                u: 2,
                v: 0,
                w: 1,
                w2: 2,
            },
        ],
        &[SetW {
            u: 2,
            v: 0,
            w: 1,
            w2: 2,
        }],
        // a weight that format two alone has
        &[
            AddE {
                u: 0,
                v: 2,
                w: 4_294_967_296,
            },
            DelV { x: 300 },
        ],
    ]
}

#[test]
fn nets_do_what_the_definitions_say(rt: HostRuntime) -> Result<(), Fail> {
    for format in [Format::One, Format::Two] {
        let none = Triples::new(rt.alloc());
        let mut graph = Graph::start(rt.alloc(), 4, format, &none)?;
        let mut plain = graph.plain(&mut Count { ticks: 0 })?;
        for updates in requests() {
            plain = enter(&rt, &mut graph, plain, updates)?;
        }
    }
    Ok(())
}

/// Vertex numbers and weights that the random run draws.
const NUMBERS: u64 = 12;

const WEIGHTS: u64 = 3;

/// A linear congruential generator.
#[derive(Drop)]
struct Generator {
    state: u64,
}

impl Generator {
    /// A number below this one, which isn't 0.
    fn draw(&mut self, below: u64) -> u64 {
        self.state = self
            .state
            .wrapping_mul(6364136223846793005)
            .wrapping_add(1442695040888963407);
        (self.state >> 33).checked_rem(below).unwrap_or(0)
    }

    /// An update of any kind.
    fn update(&mut self) -> Update {
        let (x, u, v) = (self.draw(NUMBERS), self.draw(NUMBERS), self.draw(NUMBERS));
        let (w, w2) = (self.draw(WEIGHTS), self.draw(WEIGHTS));
        match self.draw(16) {
            0 | 1 => AddV { x },
            2 => DelV { x },
            3..=5 => DelE { u, v, w },
            6..=8 => SetW { u, v, w, w2 },
            _ => AddE { u, v, w },
        }
    }
}

/// A graph in ordered maps: its vertices, and the copies of each triple.
#[derive(Drop)]
struct Maps {
    vertices: BTreeSet<u64>,
    copies: BTreeMap<(u64, u64, u64), u64>,
}

impl Maps {
    /// The number of copies of a triple.
    fn count(&self, triple: (u64, u64, u64)) -> u64 {
        self.copies.get(&triple).copied().unwrap_or(0)
    }

    /// One copy more.
    fn add(&mut self, triple: (u64, u64, u64)) -> Result<(), Fail> {
        let count = self.count(triple).saturating_add(1);
        self.copies.insert(triple, count)?;
        Ok(())
    }

    /// One copy less. `false` where there is none.
    fn take(&mut self, triple: (u64, u64, u64)) -> Result<bool, Fail> {
        let count = self.count(triple);
        if count > 1 {
            self.copies.insert(triple, count - 1)?;
        } else {
            self.copies.remove(&triple);
        }
        Ok(count > 0)
    }

    /// Does an update. `false` where it is refused.
    fn enter(&mut self, update: Update) -> Result<bool, Fail> {
        match update {
            AddV { x } => {
                self.vertices.insert(x)?;
                Ok(true)
            }
            DelV { x } => {
                self.copies.retain(|t, _| t.0 != x && t.1 != x);
                Ok(self.vertices.remove(&x))
            }
            AddE { u, v, w } => {
                let there = self.vertices.contains(&u) && self.vertices.contains(&v);
                if there {
                    self.add((u, v, w))?;
                }
                Ok(there)
            }
            DelE { u, v, w } => self.take((u, v, w)),
            SetW { u, v, w, w2 } => {
                let there = self.take((u, v, w))?;
                if there {
                    self.add((u, v, w2))?;
                }
                Ok(there)
            }
        }
    }
}

/// Expects that a graph has what the maps have.
fn expect_maps<R: Abort>(rt: &R, graph: &Graph<Count>, maps: &Maps) {
    for u in 0..NUMBERS {
        assert_eq!(rt;
            graph.has_vertex(u),
            maps.vertices.contains(&u),
            "vertex {u}"
        );
        for v in 0..NUMBERS {
            for w in 0..WEIGHTS {
                let triple = Triple {
                    source: u as u32,
                    target: v as u32,
                    weight: w,
                };
                assert_eq!(rt; graph.copies(triple), maps.count((u, v, w)), "{triple:?}");
            }
        }
    }
}

#[test]
fn many_updates_agree_with_maps(rt: HostRuntime) -> Result<(), Fail> {
    let none = Triples::new(rt.alloc());
    let mut graph = Graph::start(rt.alloc(), 0, Format::One, &none)?;
    let mut maps = Maps {
        vertices: BTreeSet::new(rt.alloc()),
        copies: BTreeMap::new(rt.alloc()),
    };
    let mut generator = Generator { state: 12 };
    let mut meter = Count { ticks: 0 };
    for n in 0..6000 {
        let update = generator.update();
        let parts = parts_of(rt.alloc(), &[update])?;
        let taken = commit_net(rt.alloc(), &mut graph, &parts, &mut meter).is_ok();
        assert_eq!(rt; taken, maps.enter(update)?, "{update:?}");
        if n % 200 == 199 {
            expect_maps(&rt, &graph, &maps);
        }
    }
    Ok(())
}
