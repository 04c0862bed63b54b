ghost use Rattle.std.specs.Prelude.{◌≡◌, ◌==◌, ◌+◌, ◌<◌, ◌≤◌, ◌^◌, IfOk, IfSome, length, map};
ghost use Rattle.std.specs.List.{list_any, position};
ghost use Rattle.std.specs.Option.{option_map};
ghost use Rattle.ris_base.specs.Forest.{forest_in};
ghost use Rattle.ris_base.specs.Graph.{triple};
ghost use Rattle.ris_base.specs.Machine.{copies_after, copies_by, copies_of_parts, stripe_by, stripe_of, verdict_by, verdict_of, verdict_on};
ghost use Rattle.ris_core.specs.Moves.{IsPull, counted, merge_of, pull_of};
ghost use Rattle.ris_core.specs.Stands.{logs_of};

use crate::candidates::is_used;
use crate::copies::copies_of;
use crate::graphs::copies;
use crate::seats::Decided;
use crate::tables::Tables;
use ris_base::{NoMemory, Order, Parts, PlainGraph, Update, Verdict};
use std::alloc::Global;

/// The verdict of a cell on a candidate of one part, behind these decisions.
pub(crate) fn verdict_of(
    graph: &PlainGraph,
    tables: &Tables,
    decided: &[Decided],
    stripe: u32,
    parts: &Parts,
) -> Verdict
    ensures { result ≡ verdict_of graph.now (map forest_in tables.now) (logs_of decided.now stripe) parts.now }
{
    match parts.get(0) {
        Some(part) => verdict_on(graph, tables, decided, stripe, *part),
        None => Verdict::Bounced,
    }
}

/// The same of an update.
fn verdict_on(
    graph: &PlainGraph,
    tables: &Tables,
    decided: &[Decided],
    stripe: u32,
    update: Update,
) -> Verdict
    ensures { result ≡ verdict_on graph.now (map forest_in tables.now) (logs_of decided.now stripe) update }
{
    match update {
        Update::AddV { .. } | Update::AddE { .. } => Verdict::Applied,
        Update::DelV { .. } | Update::SetW { .. } => Verdict::Bounced,
        Update::DelE { u, v, w } => {
            let left = copies_after(copies(graph, u, v, w), decided, stripe, u, v, w);
            verdict_by(is_used(tables, u, v, w), left)
        }
    }
}

/// The verdict on a removal of a triple that is used or not and has so many copies.
fn verdict_by(used: bool, copies: u128) -> Verdict
    ensures { result ≡ verdict_by used copies }
{
    if copies == 0 {
        Verdict::NoEdge
    } else if copies == 1 && used {
        Verdict::Bounced
    } else {
        Verdict::Applied
    }
}

/// The copies of a triple, changed by the applied candidates of the log of a stripe.
fn copies_after(copies: u64, decided: &[Decided], stripe: u32, u: u64, v: u64, w: u64) -> u128
    ensures { result ≡ copies_after (triple u v w) copies (logs_of decided.now stripe) }
{
    let mut left = u128::from(copies);
    for decision in decided {
        left = counted(left, decision, stripe, u, v, w);
    }
    left
}

/// So many copies of a triple, after a decision, which counts where it is of this stripe and applied.
fn counted(copies: u128, decision: &Decided, stripe: u32, u: u64, v: u64, w: u64) -> u128
    requires { copies < 2 ^ 127 }
    ensures exact { result ≡ counted (triple u v w) copies stripe decision.now }
    ensures small { result ≤ copies + 1 }
{
    if stripe_of(&decision.entry.parts) != stripe {
        return copies;
    }
    if decision.verdict != Verdict::Applied {
        return copies;
    }
    copies_of_parts(copies, &decision.entry.parts, u, v, w)
}

/// So many copies of a triple, after a candidate.
fn copies_of_parts(copies: u128, parts: &Parts, u: u64, v: u64, w: u64) -> u128
    requires { copies < 2 ^ 127 }
    ensures exact { result ≡ copies_of_parts (triple u v w) copies parts.now }
    ensures small { result ≤ copies + 1 }
{
    match parts.get(0) {
        Some(part) => copies_by(copies, *part, u, v, w),
        None => copies,
    }
}

/// So many copies of a triple, after one applied update.
fn copies_by(copies: u128, update: Update, u: u64, v: u64, w: u64) -> u128
    requires { copies < 2 ^ 127 }
    ensures exact { result ≡ copies_by (triple u v w) copies update }
    ensures small { result ≤ copies + 1 }
{
    match update {
        Update::AddE {
            u: from,
            v: to,
            w: by,
        } if u == from && v == to && w == by => copies + 1,
        Update::DelE {
            u: from,
            v: to,
            w: by,
        } if u == from && v == to && w == by => { copies.saturating_sub(1) }
        _ => copies,
    }
}

/// The stripe of a candidate: the number of the source of its update, or of its vertex, modulo 64.
pub(crate) fn stripe_of(parts: &Parts) -> u32
    ensures exact { result ≡ stripe_of parts.now }
{
    match parts.get(0) {
        Some(part) => stripe_by(*part),
        None => 0,
    }
}

/// The stripe of an update.
fn stripe_by(update: Update) -> u32
    ensures { result ≡ stripe_by update }
{
    match update {
        Update::AddV { x } | Update::DelV { x } => (x % 64) as u32,
        Update::AddE { u, .. } | Update::DelE { u, .. } | Update::SetW { u, .. } => (u % 64) as u32,
    }
}

/// The merge of decisions in this order of sessions: each is the first of its stripe among those that are left, and none is left at
/// the end. `None` exactly where there is no such merge.
pub(crate) fn merge_of(
    alloc: Global,
    order: &Order,
    decided: &[Decided],
) -> Result<Option<Vec<Decided>>, NoMemory>
    ensures { IfOk result (λ merged. option_map (λ v. v.items) merged ≡ merge_of order.now decided.now) }
{
    let mut rest = copies_of(alloc, decided)?;
    let mut merged = Vec::new(alloc);
    for k in 0..order.len() {
        let Some(decision) = pull(&mut rest, *order.at(k)) else {
            return Ok(None);
        };
        merged.push(decision)?;
    }
    if rest.is_empty() {
        Ok(Some(merged))
    } else {
        Ok(None)
    }
}

/// Takes the first decision of a session out, where it is the first of its stripe.
fn pull(rest: &mut Vec<Decided>, session: u32) -> Option<Decided>
    ensures { IsPull (pull_of session rest.old.items) result rest.new.items }
{
    let place = place_of(rest, session)?;
    let stripe = stripe_of(&rest[place].entry.parts);
    if has_stripe(&rest[..place], stripe) {
        return None;
    }
    Some(rest.remove(place))
}

/// Where the first decision of a session is.
fn place_of(decided: &[Decided], session: u32) -> Option<usize>
    ensures place { result ≡ position (λ d. d.entry.session == session) decided.now }
    ensures within { IfSome result (λ place. place < length decided.now) }
{
    decided
        .iter()
        .position(|decision| decision.entry.session == session)
}

/// Whether a decision is of this stripe.
fn has_stripe(decided: &[Decided], stripe: u32) -> bool
    ensures { result ≡ list_any (λ d. stripe_of d.entry.parts == stripe) decided.now }
{
    decided
        .iter()
        .any(|decision| stripe_of(&decision.entry.parts) == stripe)
}
