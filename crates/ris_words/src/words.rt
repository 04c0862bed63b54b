ghost use Rattle.std.specs.Prelude.{◌≡◌, ◌↔◌, ◌<◌, ◌^◌, List, ℕ, Some, true, is_some, IfOk, OnOk, codes, drop, map, slice_get};
ghost use Rattle.std.specs.Option.{option_and_then};
ghost use Rattle.clap.specs.Words.{first_of, found_of, rows_of};
ghost use Rattle.ris_base.specs.CommandLine.{IsPlain, IsReplay, IsDemo};
ghost use Rattle.ris_base.specs.Number.{number_of};
ghost use Rattle.ris_base.specs.declared.jobs.Job.{Job as Said};
ghost use Rattle.ris_words.specs.Commands.{analyses_found, number_found};
ghost use Rattle.ris_words.specs.Tokens.{accepts, none_seen, seed_said, verb_said};

use crate::analyses::listed;
use crate::commands::parse;
use crate::errors::WordsError;
use crate::options::{Verb, are_options};
use clap::ArgMatches;
use ris_base::{Job, NoMemory, Specs, Words, read_number};
use std::alloc::Global;

/// The number of workers where none is told.
const WORKERS: u64 = 1;

/// The size of a made script where none is told.
const SIZE: u64 = 2000;

/// The job that words say. They are `replay` and its options, `--threads`, `--workers` and `--analyses`, of which the last is
/// needed; or `demo`, a seed below 2^32, and its options, `--size` and `--workers`. An option stands at most once, in any
/// order, and its value in the next word or behind a `=`. `Usage` exactly where the words say no job, so that `NoMemory` comes
/// only where they say one.
pub fn read_words(alloc: Global, words: &Words) -> Result<Job, WordsError>
    ensures ok { IfOk result (λ job. IsPlain words.now job) }
    ensures only { IfOk result (λ job. (said : Said) → IsPlain words.now said → said ≡ job) }
    ensures usage { (result ≡ Err WordsError.Usage) ↔ ((job : Said) → ¬ IsPlain words.now job) }
{
    match verb_of(words) {
        Some(Verb::Replay) => read_replay(alloc, words),
        Some(Verb::Demo) => read_demo(alloc, words),
        None => Err(WordsError::Usage),
    }
}

/// The command that the first word names.
fn verb_of(words: &Words) -> Option<Verb>
    ensures { result ≡ option_and_then verb_said (slice_get words.now 0) }
{
    let word = words.get(0)?.as_bytes();
    if word == b"replay".as_slice() {
        Some(Verb::Replay)
    } else if word == b"demo".as_slice() {
        Some(Verb::Demo)
    } else {
        None
    }
}

/// The job of words that begin with `replay`.
fn read_replay(alloc: Global, words: &Words) -> Result<Job, WordsError>
    requires { slice_get words.now 0 ≡ Some (codes "replay") }
    ensures ok { IfOk result (λ job. IsPlain words.now job) }
    ensures usage { (result ≡ Err WordsError.Usage) ↔ ((job : Said) → ¬ IsPlain words.now job) }
{
    if !are_options(Verb::Replay, words, 1) {
        return Err(WordsError::Usage);
    }
    Ok(replay_of(alloc, words)?)
}

/// The job of `replay` with options that were taken.
fn replay_of(alloc: Global, words: &Words) -> Result<Job, NoMemory>
    requires command { slice_get words.now 0 ≡ Some (codes "replay") }
    requires taken { accepts Verb.Replay none_seen None (drop 1 words.now) ≡ true }
    ensures { IfOk result (λ job. IsPlain words.now job) }
{
    let texts = texts_from(alloc, words, 1)?;
    let found = parse(alloc, Verb::Replay, texts.as_slice())?;
    let specs = analyses_found(alloc, &found)?;
    Ok(Job::Replay {
        threads: found.get_flag("threads"),
        workers: number_found(&found, "workers", WORKERS) as u32,
        specs,
    })
}

/// The job of words that begin with `demo`.
fn read_demo(alloc: Global, words: &Words) -> Result<Job, WordsError>
    requires { slice_get words.now 0 ≡ Some (codes "demo") }
    ensures ok { IfOk result (λ job. IsPlain words.now job) }
    ensures usage { (result ≡ Err WordsError.Usage) ↔ ((job : Said) → ¬ IsPlain words.now job) }
{
    let Some(seed) = seed_of(words) else {
        return Err(WordsError::Usage);
    };
    if !are_options(Verb::Demo, words, 2) {
        return Err(WordsError::Usage);
    }
    Ok(demo_of(alloc, words, seed)?)
}

/// The seed that the second word spells.
fn seed_of(words: &Words) -> Option<u32>
    ensures { result ≡ option_and_then seed_said (slice_get words.now 1) }
{
    let seed = read_number(words.get(1)?.as_bytes())?;
    if seed < 1 << 32 {
        Some(seed as u32)
    } else {
        None
    }
}

/// The job of `demo` with this seed and options that were taken.
fn demo_of(alloc: Global, words: &Words, seed: u32) -> Result<Job, NoMemory>
    requires command { slice_get words.now 0 ≡ Some (codes "demo") }
    requires seed { option_and_then seed_said (slice_get words.now 1) ≡ Some seed }
    requires taken { accepts Verb.Demo none_seen None (drop 2 words.now) ≡ true }
    ensures { IfOk result (λ job. IsPlain words.now job) }
{
    let texts = texts_from(alloc, words, 2)?;
    let found = parse(alloc, Verb::Demo, texts.as_slice())?;
    Ok(Job::Demo {
        seed,
        size: number_found(&found, "size", SIZE) as u32,
        workers: number_found(&found, "workers", WORKERS) as u32,
    })
}

/// The words from number `first` on.
fn texts_from(alloc: Global, words: &Words, first: u64) -> Result<Vec<&str>, NoMemory>
    ensures { IfOk result (λ texts. map (λ w. w.now) texts.items ≡ drop first words.now) }
{
    let mut texts = Vec::new(alloc);
    for k in first..words.len() {
        if let Some(word) = words.get(k) {
            texts.push(word)?;
        }
    }
    Ok(texts)
}

/// The number that an option says, or else the default.
fn number_found(found: &ArgMatches, option: &str, default: u64) -> u64
    ensures { result ≡ number_found option.now default (rows_of (found_of found.now)) }
{
    match found.get_str(option) {
        Some(value) => read_number(value.as_bytes()).unwrap_or(default),
        None => default,
    }
}

/// The analyses that `--analyses` says.
fn analyses_found(alloc: Global, found: &ArgMatches) -> Result<Specs, NoMemory>
    requires { is_some (analyses_found (rows_of (found_of found.now))) ≡ true }
    ensures { IfOk result (λ specs. analyses_found (rows_of (found_of found.now)) ≡ Some specs) }
{
    match found.get_str("analyses") {
        Some(list) => listed(alloc, list.as_bytes()),
        None => unreachable!(),
    }
}
