ghost use Rattle.std.specs.Prelude.{◌≡◌, ◌≤◌, ◌<◌, ◌++◌, ◌∷◌, length, map, IfOk, OnOk, decimal};
ghost use Rattle.ris_base.specs.Transcript.{line_text, text_of};
ghost use Rattle.ris_base.specs.Transcript.Field.{Number};
ghost use Rattle.ris_words.specs.Made.{base_fields, draw_commands, draw_next, edge_fields, made_script};

use crate::draws::{draw, draw_edge, draw_edges};
use rand_pcg::Lcg64Xsh32;
use ris_base::{Bytes, NoMemory, Triple, Triples};
use std::alloc::Global;

/// The stream of the generator.
const STREAM: u64 = 54;

/// The number of base edges.
const BASE_EDGES: u32 = 5000;

/// The number of sessions.
const SESSIONS: u32 = 8;

/// The script of a seed with so many commands: 1,000 vertices, 8 sessions, 5,000 base edges, and then commands of the sessions
/// in turn, of which four of ten add an edge, three remove a base edge, one reads a value, one reads the modified vertices and
/// one adds a vertex. They are drawn by the generator PCG32 (O'Neill, "PCG: a family of simple fast space-efficient
/// statistically good algorithms for random number generation"), so that a seed and a size always make the same script.
/// `NoMemory` is its only error.
///
/// It takes a constant time for each record.
pub fn make_script(alloc: Global, seed: u32, size: u32) -> Result<Bytes, NoMemory>
    requires some { 1 ≤ size }
    requires most { size ≤ 1000000 }
    ensures { IfOk result (λ script. script ≡ made_script seed size) }
{
    let mut random = Lcg64Xsh32::new(u64::from(seed), STREAM);
    let base = draw_edges(alloc, &mut random, BASE_EDGES)?;
    let mut text = Vec::with_capacity(alloc, usual_length(size))?;
    put_word(&mut text, b"risgraph,1,1000,8\n")?;
    put_base(&mut text, &base)?;
    put_commands(&mut text, &mut random, &base, size)?;
    Ok(Bytes::from_vec(text))
}

/// About how many bytes a script of so many commands has.
fn usual_length(size: u32) -> usize {
    size as usize * 20 + 100_000
}

/// The records of the base edges.
fn put_base(text: &mut Vec<u8>, base: &Triples) -> Result<(), NoMemory>
    ensures { OnOk result (text.new.items ≡ text.old.items ++ text_of (map base_fields base.now)) }
{
    for k in 0..base.len() {
        put_word(text, b"base")?;
        put_edge(text, base.at(k))?;
    }
    Ok(())
}

/// The records of so many commands.
fn put_commands(
    text: &mut Vec<u8>,
    random: &mut Lcg64Xsh32,
    base: &Triples,
    size: u32,
) -> Result<(), NoMemory>
    requires { length base.now ≡ 5000 }
    ensures { OnOk result
        (text.new.items ≡ text.old.items ++ text_of (draw_commands base.now 0 size random.old)) }
{
    for i in 0..size {
        put_number(text, u64::from(i % SESSIONS))?;
        put_command(text, random, base)?;
    }
    Ok(())
}

/// The rest of the record of a command behind its session.
fn put_command(text: &mut Vec<u8>, random: &mut Lcg64Xsh32, base: &Triples) -> Result<(), NoMemory>
    requires { length base.now ≡ 5000 }
    ensures text { OnOk result
        (text.new.items ≡ text.old.items ++ (44 ∷ line_text (draw_next base.now random.old).0)) }
    ensures rest { OnOk result (random.new ≡ (draw_next base.now random.old).1) }
{
    match draw(random, 10) {
        0..=3 => {
            put_word(text, b",adde")?;
            put_edge(text, &draw_edge(random))?;
        }
        4..=6 => {
            put_word(text, b",dele")?;
            put_edge(text, base.at(u64::from(draw(random, BASE_EDGES))))?;
        }
        7 => {
            put_word(text, b",value,last,")?;
            put_number(text, u64::from(draw(random, 3)))?;
            put_field(text, u64::from(draw(random, 1000)))?;
            put_word(text, b"\n")?;
        }
        8 => {
            put_word(text, b",modified,last,")?;
            put_number(text, u64::from(draw(random, 3)))?;
            put_word(text, b"\n")?;
        }
        _ => {
            put_word(text, b",addv")?;
            put_field(text, u64::from(draw(random, 1000)))?;
            put_word(text, b"\n")?;
        }
    }
    Ok(())
}

/// The rest of a record that ends with an edge.
fn put_edge(text: &mut Vec<u8>, edge: &Triple) -> Result<(), NoMemory>
    ensures { OnOk result (text.new.items ≡ text.old.items ++ (44 ∷ line_text (edge_fields edge.now))) }
{
    put_field(text, u64::from(edge.source))?;
    put_field(text, u64::from(edge.target))?;
    put_field(text, edge.weight)?;
    put_word(text, b"\n")?;
    Ok(())
}

/// A comma and a number.
fn put_field(text: &mut Vec<u8>, n: u64) -> Result<(), NoMemory>
    ensures { OnOk result (text.new.items ≡ text.old.items ++ (44 ∷ decimal n)) }
{
    put_word(text, b",")?;
    put_number(text, n)?;
    Ok(())
}

/// A number, without leading zeros.
fn put_number(text: &mut Vec<u8>, n: u64) -> Result<(), NoMemory>
    ensures { OnOk result (text.new.items ≡ text.old.items ++ decimal n) }
{
    if n >= 10 {
        put_number(text, n / 10)?;
    }
    text.push(b'0' + (n % 10) as u8)?;
    Ok(())
}

/// A word.
fn put_word<const N: usize>(text: &mut Vec<u8>, word: &[u8; N]) -> Result<(), NoMemory>
    ensures { OnOk result (text.new.items ≡ text.old.items ++ word.now) }
{
    text.extend_from_slice(word)?;
    Ok(())
}
