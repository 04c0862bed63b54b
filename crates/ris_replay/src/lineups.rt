ghost use Rattle.std.specs.Prelude.{◌≡◌, ◌≤◌, [], length, map, drop, fold, replicate, IfOk, OnOk};
ghost use Rattle.std.specs.List.{All};
ghost use Rattle.ris_history.specs.Applied.{applied};
ghost use Rattle.ris_replay.specs.RoundsView.{AllFit, AreOwn, IsDrained};
ghost use Rattle.ris_rounds.specs.Rounds.{batch_of, players_from, told_player};
ghost use Rattle.ris_session.specs.PlayerView.{step_of};
ghost use Rattle.ris_session.specs.declared.players.Next.TheVariants as step;

use ris_base::{CommandLists, Logs, Meter, NoMemory, Request, Sequence};
use ris_epoch::{Batch, Driver};
use ris_history::History;
use ris_session::Player;
use std::alloc::Global;

/// The requests of a session that no turn has taken, oldest first.
pub(crate) type Requests = Sequence<Request>;

/// A player for each list of commands, which has given none of them. It takes the memory for all replies.
pub(crate) fn players_of(alloc: Global, mut lists: CommandLists) -> Result<Vec<Player>, NoMemory>
    requires few { length lists ≤ 64 }
    ensures { IfOk result (λ players. players.items ≡ players_from 0 lists) }
{
    let mut players = Vec::new(alloc);
    let mut session = 0;
    while let Some(commands) = lists.take_first() {
        players.push(Player::new(alloc, session, commands)?)?;
        session += 1;
    }
    Ok(players)
}

/// An empty queue for each session.
pub(crate) fn queues_of(alloc: Global, sessions: u32) -> Result<Vec<Requests>, NoMemory>
    ensures { IfOk result (λ queues. queues.items ≡ replicate sessions []) }
{
    let mut queues = Vec::new(alloc);
    for _session in 0..sessions {
        queues.push(Requests::new(alloc))?;
    }
    Ok(queues)
}

/// Puts the oldest request of each of at most 64 sessions into an empty batch. It takes no memory.
pub(crate) fn fill(queues: &mut Vec<Requests>, batch: &mut Batch)
    requires few { length queues.old.items ≤ 64 }
    requires own { AreOwn queues.old.items }
    requires empty { batch.old ≡ [] }
    ensures taken { batch.new ≡ batch_of queues.old.items }
    ensures rest { queues.new.items ≡ map (drop 1) queues.old.items }
{
    for n in 0..queues.len() {
        if let Some(request) = queues[n].take_first() {
            let _ = batch.add(request);
        }
    }
}

/// Gives the records of a turn to the history.
pub(crate) fn absorb<M: Meter>(
    history: &mut History,
    driver: &mut Driver<M>,
) -> Result<(), NoMemory>
    ensures absorbed { OnOk result (history.new ≡ fold applied history.old driver.old.records) }
    ensures drained { OnOk result (IsDrained driver.old driver.new) }
{
    while let Some(record) = driver.fresh() {
        history.absorb(&record)?;
    }
    Ok(())
}

/// Tells each reply of a turn to its session, whose oldest request it is the reply to. It takes no memory.
pub(crate) fn tell<M: Meter>(players: &mut Vec<Player>, driver: &mut Driver<M>)
    requires none { driver.old.records ≡ [] }
    requires fit { AllFit players.old.items driver.old.replies }
    ensures told { players.new.items ≡ fold told_player players.old.items driver.old.replies }
    ensures rest { driver.new ≡ record driver.old { replies = [] } }
{
    while let Some((session, seq, outcome)) = driver.reply() {
        players[session as usize].replied(seq, outcome);
    }
}

/// The replies of sessions that are done, each of which is given up.
pub(crate) fn logs_of(alloc: Global, players: Vec<Player>) -> Result<Logs, NoMemory>
    requires done { All (λ p. step_of p ≡ step.Done) players.items }
    ensures { IfOk result (λ logs. logs ≡ map (λ p. p.log) players.items) }
{
    let mut left = Sequence::from_vec(players);
    let mut logs = Logs::new(alloc);
    while let Some(player) = left.take_first() {
        logs.push(player.finish())?;
    }
    Ok(logs)
}
