ghost use Rattle.std.specs.Prelude.{◌≡◌, ◌<◌, IfOk, OnOk};
ghost use Rattle.ris_words.specs.Made.{draw, draw_edge, draw_edges};

use rand_pcg::Lcg64Xsh32;
use rand_pcg::rand_core::utils::NextWord;
use ris_base::{NoMemory, Triple, Triples};
use std::alloc::Global;

/// The next word modulo `limit`.
pub fn draw(random: &mut Lcg64Xsh32, limit: u32) -> u32
    requires { 0 < limit }
    ensures value { result ≡ (draw limit random.old).0 }
    ensures rest { random.new ≡ (draw limit random.old).1 }
    ensures bound { result < limit }
{
    random.next_word() % limit
}

/// An edge of 1,000 vertices, with a weight below 100.
pub fn draw_edge(random: &mut Lcg64Xsh32) -> Triple
    ensures value { result ≡ (draw_edge random.old).0 }
    ensures rest { random.new ≡ (draw_edge random.old).1 }
{
    let source = draw(random, 1000);
    let target = draw(random, 1000);
    let weight = draw(random, 100);
    Triple {
        source,
        target,
        weight: u64::from(weight),
    }
}

/// So many edges.
pub fn draw_edges(alloc: Global, random: &mut Lcg64Xsh32, count: u32) -> Result<Triples, NoMemory>
    ensures value { IfOk result (λ edges. edges ≡ (draw_edges count random.old).0) }
    ensures rest { OnOk result (random.new ≡ (draw_edges count random.old).1) }
{
    let mut edges = Triples::with_room(alloc, u64::from(count))?;
    for _ in 0..count {
        edges.push(draw_edge(random))?;
    }
    Ok(edges)
}
