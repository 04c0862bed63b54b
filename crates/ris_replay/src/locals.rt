ghost use Rattle.std.specs.Prelude.{◌≡◌, ◌-◌, ◌^◌, ◌<◌, ◌≤◌, length, sum_by, IfOk};
ghost use Rattle.ris_analysis.specs.Analyses.{ArePlainSpecs};
ghost use Rattle.ris_base.specs.Limits.{script_limit};
ghost use Rattle.ris_base.specs.Shape.{IsReadable};
ghost use Rattle.ris_replay.specs.Playing.{AreAnswered};
ghost use Rattle.ris_replay.specs.Visits.{AreWithinReach};

use crate::rounds::Rounds;
use ris_base::{Gate, Lines, Logs, Meter, NoMemory, Script, Specs};
use std::alloc::Global;
use std::thread::Threads;

/// What the replay of a script gives: the replies of each session, the serial list, and the number of visits.
#[derive(Drop)]
pub struct Played {
    pub logs: Logs,
    pub lines: Lines,
    pub visits: u64,
}

/// Replays a script with 1 to 4 analyses in rounds: each session goes on until it has to wait, and then one turn takes the oldest
/// request of each. The root of an analysis of components is 0; 1 to 64 workers decide the candidates of a turn; and the script
/// has at most 67,108,864 commands.
///
/// Each command gets one reply, and the replies and the serial list are legal. The visits are those by which the meter rose. Where
/// no command takes anything away and no reply wants memory, they are at most the reach of the start and of the entries.
pub fn replay_local<R: Threads + Sync, M: Meter, G: Gate>(
    rt: &R,
    alloc: Global,
    script: Script,
    specs: &Specs,
    workers: u32,
    gate: &G,
    meter: &mut M,
) -> Result<Played, NoMemory>
    requires readable { IsReadable (length specs.now) script }
    requires some_specs { 1 ≤ length specs.now }
    requires few_specs { length specs.now ≤ 4 }
    requires roots { ArePlainSpecs specs.now }
    requires some_workers { 1 ≤ workers }
    requires few_workers { workers ≤ 64 }
    requires few { sum_by length script.commands ≤ script_limit }
    ensures answered { IfOk result (λ played. AreAnswered script specs.now played.logs played.lines) }
    ensures visits { IfOk result (λ played. played.visits ≡ M.ticks meter.new - M.ticks meter.old) }
    ensures within { IfOk result (λ played. AreWithinReach script specs.now played.logs played.lines played.visits) }
    ensures ticks { M.ticks meter.old ≤ M.ticks meter.new }
    ensures below { M.ticks meter.new < 2 ^ 64 }
{
    let before = meter.total();
    let mut rounds = Rounds::start(alloc, script, specs, meter)?;
    rounds.play_all(rt, workers, gate, meter)?;
    let visits = meter.total() - before;
    rounds.finish(alloc, visits)
}
