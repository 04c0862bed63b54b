ghost use Rattle.std.specs.Prelude.{◌≡◌, ℕ, ◌<◌, ◌≤◌, map, length, IfOk, OnOk};
ghost use Rattle.ris_analysis.specs.Analyses.{ArePlainSpecs};
ghost use Rattle.ris_base.specs.Falling.{start_reach};
ghost use Rattle.ris_base.specs.Script.{opening_of};
ghost use Rattle.ris_base.specs.Shape.{IsReadable};
ghost use Rattle.ris_graph.specs.Ticks.{IsRise};
ghost use Rattle.ris_replay.specs.Visits.{Rises};

use crate::lineups::{Requests, absorb, fill, logs_of, players_of, queues_of, tell};
use crate::locals::Played;
use ris_base::{Gate, Meter, NoMemory, Script, Specs};
use ris_epoch::{Batch, Driver, Final};
use ris_history::History;
use ris_session::{Next, Player};
use std::alloc::Global;
use std::thread::Threads;

/// The sessions of a run in rounds. Each goes on until it has to wait; then one turn takes the oldest request of each, the
/// records of the turn go to the history, and each reply to its session. After `NoMemory` the run is over.
#[derive(Drop)]
pub(crate) struct Rounds<M> {
    pub(crate) driver: Driver<M>,
    pub(crate) history: History,
    pub(crate) players: Vec<Player>,
    pub(crate) queues: Vec<Requests>,
    pub(crate) batch: Batch,
}

impl<M: Meter> Rounds<M> {
    ghost use Rattle.ris_replay.specs.RoundsView.{AreDone, Awaits, Counts, GoesAlone, HasStepped, IsRunning, Keeps, Rests, Stands, next_at, rest_of, unreplied_count, view_of};

    /// The sessions of a script with 1 to 4 analyses, none of which has done anything. The meter ticks at most as often as
    /// the reach of the start says, also where `NoMemory` comes.
    pub(crate) fn start(
        alloc: Global,
        script: Script,
        specs: &Specs,
        meter: &mut M,
    ) -> Result<Rounds<M>, NoMemory>
        requires readable { IsReadable (length specs.now) script }
        requires some_specs { 1 ≤ length specs.now }
        requires few_specs { length specs.now ≤ 4 }
        requires roots { ArePlainSpecs specs.now }
        ensures stands { IfOk result (λ rounds.
            Stands (record { opening = opening_of script; specs = specs.now; start = rounds.driver.opening }) script.commands (view_of rounds)) }
        ensures sessions { IfOk result (λ rounds. rounds.driver.opening.sessions ≡ script.sessions) }
        ensures visits { IsRise (M.ticks meter.old) (M.ticks meter.new) (start_reach (opening_of script) specs.now) }
    {
        let Script {
            format,
            vertices,
            sessions,
            base,
            commands,
        } = script;
        let driver = Driver::start(alloc, vertices, format, &base, specs, sessions, meter)?;
        drop(base);
        let history = History::start(alloc, driver.opening())?;
        let players = players_of(alloc, commands)?;
        let queues = queues_of(alloc, sessions)?;
        let batch = Batch::new(alloc)?;
        Ok(Rounds {
            driver,
            history,
            players,
            queues,
            batch,
        })
    }

    /// One step of session `n`. `None` where it did something; else whether it is done, and nothing changed.
    fn step(&mut self, n: usize) -> Result<Option<bool>, NoMemory>
        requires running { IsRunning (view_of self.old) }
        requires here { n < length self.old.players.items }
        ensures keeps { OnOk result (Keeps (view_of self.old) (view_of self.new)) }
        ensures alone { OnOk result (GoesAlone n (view_of self.old) (view_of self.new)) }
        ensures step { IfOk result (λ done. HasStepped n done (view_of self.old) (view_of self.new)) }
    {
        match self.players[n].next() {
            Next::Submit(request) => {
                self.queues[n].push(request)?;
                Ok(None)
            }
            Next::Ask(question) => {
                let answer = self.history.ask(&question);
                self.players[n].answered(answer);
                Ok(None)
            }
            Next::Done => Ok(Some(true)),
            Next::Await => Ok(Some(false)),
        }
    }

    /// Lets session `n` go on until it rests. Whether it is done; else it awaits a reply.
    fn go_on(&mut self, n: usize) -> Result<bool, NoMemory>
        requires running { IsRunning (view_of self.old) }
        requires here { n < length self.old.players.items }
        ensures keeps { OnOk result (Keeps (view_of self.old) (view_of self.new)) }
        ensures alone { OnOk result (GoesAlone n (view_of self.old) (view_of self.new)) }
        ensures rests { IfOk result (λ done. next_at (view_of self.new) n ≡ rest_of done) }
    {
        'steps: loop {
            if let Some(done) = self.step(n)? {
                return Ok(done);
            }
        }
    }

    /// Lets each session go on until it rests. Whether all are done; else some session awaits a reply.
    fn go_on_all(&mut self) -> Result<bool, NoMemory>
        requires running { IsRunning (view_of self.old) }
        ensures keeps { OnOk result (Keeps (view_of self.old) (view_of self.new)) }
        ensures rests { IfOk result (λ done. Rests (view_of self.new) done) }
        ensures unreplied { OnOk result (unreplied_count (view_of self.new) ≤ unreplied_count (view_of self.old)) }
        ensures counts { OnOk result ((ticks : ℕ) → Counts (view_of self.old) (view_of self.new) ticks ticks) }
    {
        let mut done = true;
        for n in 0..self.players.len() {
            let rests = self.go_on(n)?;
            done = rests && done;
        }
        Ok(done)
    }

    /// One turn, which takes the oldest request of each session. Where some session awaits a reply, it gets one.
    fn turn<R: Threads + Sync, G: Gate>(
        &mut self,
        rt: &R,
        workers: u32,
        gate: &G,
        meter: &mut M,
    ) -> Result<(), NoMemory>
        requires running { IsRunning (view_of self.old) }
        requires some { 1 ≤ workers }
        requires few { workers ≤ 64 }
        ensures keeps { OnOk result (Keeps (view_of self.old) (view_of self.new)) }
        ensures replied { OnOk result (Awaits (view_of self.old) → unreplied_count (view_of self.new) < unreplied_count (view_of self.old)) }
        ensures counts { OnOk result (Counts (view_of self.old) (view_of self.new) (M.ticks meter.old) (M.ticks meter.new)) }
        ensures rise { Rises (M.ticks meter.old) (M.ticks meter.new) }
    {
        fill(&mut self.queues, &mut self.batch);
        let _ = self.driver.turn(rt, &mut self.batch, workers, gate, meter);
        absorb(&mut self.history, &mut self.driver)?;
        tell(&mut self.players, &mut self.driver);
        Ok(())
    }

    /// Goes round after round until all sessions are done.
    pub(crate) fn play_all<R: Threads + Sync, G: Gate>(
        &mut self,
        rt: &R,
        workers: u32,
        gate: &G,
        meter: &mut M,
    ) -> Result<(), NoMemory>
        requires running { IsRunning (view_of self.old) }
        requires some { 1 ≤ workers }
        requires few { workers ≤ 64 }
        ensures keeps { OnOk result (Keeps (view_of self.old) (view_of self.new)) }
        ensures done { OnOk result (AreDone (view_of self.new)) }
        ensures counts { OnOk result (Counts (view_of self.old) (view_of self.new) (M.ticks meter.old) (M.ticks meter.new)) }
        ensures rise { Rises (M.ticks meter.old) (M.ticks meter.new) }
    {
        'rounds: loop {
            if self.go_on_all()? {
                return Ok(());
            }
            self.turn(rt, workers, gate, meter)?;
        }
    }

    /// The replies of all sessions, each of which is done, the serial list, and the number of visits.
    pub(crate) fn finish(self, alloc: Global, visits: u64) -> Result<Played, NoMemory>
        requires done { AreDone (view_of self) }
        ensures logs { IfOk result (λ played. played.logs ≡ map (λ p. p.log) self.players.items) }
        ensures lines { IfOk result (λ played. played.lines ≡ self.driver.journal.lines) }
        ensures visits { IfOk result (λ played. played.visits ≡ visits) }
    {
        let Rounds {
            driver,
            players,
            ..
        } = self;
        let logs = logs_of(alloc, players)?;
        let Final { lines } = driver.finish();
        Ok(Played {
            logs,
            lines,
            visits,
        })
    }
}
